//! The parts of polynomials, as answers tell them.
ghost use Rattle.std.specs.Prelude.{◌≡◌, ◌≤◌, ◌^◌, All, IfOk, map};
ghost use Rattle.fj_theory.specs.Exponents.{total};
ghost use Rattle.fj_theory.specs.Plain.{HasRanksBelow, polynomial};
ghost use Rattle.fj_theory.specs.Polynomial.{terms_falling};
ghost use Rattle.fj_root.specs.Part.{parts_of};
ghost use Rattle.fj_ideal.specs.Stop.{key_of};
ghost use Rattle.fj_session.specs.Meaning.{AreRows, part_of};

use super::types::{PartList, PartRow};
use fj_coeff::Coeff;
use fj_mono::{Elim, Grevlex, Grlex, Lex, Order};
use fj_plain::{OrderName, PlainPoly};
use fj_poly::GPoly;
use fj_root::{Part, parts};
use std::alloc::{AllocError, Global};

/// The parts of f at e over a field, their terms falling in the order with this name. They are calculated in Grevlex whatever the
/// order, so that the program has them for one order alone.
pub(crate) fn part_rows<K: Coeff>(
    alloc: Global,
    order: OrderName,
    e: u32,
    f: &PlainPoly,
) -> Result<PartList, AllocError>
    requires small { e ≤ 12 }
    requires ranks { HasRanksBelow K.field.size f.now }
    requires totals { All (λ t. total t.0 ≤ 2 ^ 40) f.now.terms }
    ensures { IfOk result (AreRows K.field (key_of order) e (polynomial f.now)) }
{
    let found = parts(alloc, e, &GPoly::<K>::from_plain(alloc, f)?)?;
    match order {
        OrderName::Lex => rows::<K, Lex>(alloc, &found),
        OrderName::Grlex => rows::<K, Grlex>(alloc, &found),
        OrderName::Grevlex => rows::<K, Grevlex>(alloc, &found),
        OrderName::Elim => rows::<K, Elim>(alloc, &found),
    }
}

/// The rows of parts, the terms of each part falling in an order.
fn rows<K: Coeff, O: Order>(
    alloc: Global,
    parts: &[Part<K, Grevlex>],
) -> Result<PartList, AllocError>
    ensures parts { IfOk result (λ rows. map part_of rows ≡ parts_of parts.now) }
    ensures falling { IfOk result (All (λ row. row.poly.terms ≡ terms_falling O.key (polynomial row.poly))) }
{
    let mut rows = Vec::with_capacity(alloc, parts.len())?;
    for part in parts {
        let poly = part.poly.reorder::<O>(alloc)?;
        rows.push(PartRow {
            residue: part.residue,
            poly: poly.to_plain(alloc)?,
        })?;
    }
    Ok(PartList::of(rows))
}
