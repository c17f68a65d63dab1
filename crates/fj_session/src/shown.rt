//! Lists of polynomials and ideals, as answers tell them.
ghost use Rattle.std.specs.Prelude.{◌≡◌, ◌≤◌, ◌^◌, All, IfOk};
ghost use Rattle.fj_theory.specs.Exponents.{total};
ghost use Rattle.fj_theory.specs.Plain.{HasRanksBelow};
ghost use Rattle.fj_groebner.specs.Run.{TooHigh, Unfinished};
ghost use Rattle.fj_plain.specs.Holds.{Holds};
ghost use Rattle.fj_plain.specs.OrderRow.{order_in_row};
ghost use Rattle.fj_basis.specs.Outcome.{IsStopWhere};
ghost use Rattle.fj_ideal.specs.Stop.{key_of};
ghost use Rattle.fj_shell.specs.Named.{polynomials};
ghost use Rattle.fj_session.specs.Certificates.{IsBasisCertificate};
ghost use Rattle.fj_session.specs.Meaning.{IsShownBasis};
ghost use Rattle.fj_session.specs.Outcome.{IsKeptAgain, IsShown, PrintStops};

use fj_basis::{Stop, plain_list};
use fj_coeff::Coeff;
use fj_ideal::Ideal;
use fj_mono::{Elim, Grevlex, Grlex, Lex, Order};
use fj_plain::{Cert, Kept, OrderName, PlainList};
use fj_poly::{GPoly, Poly};
use std::alloc::{AllocError, Global};

/// The polynomials of a plain list.
pub(crate) fn from_plain<K: Coeff, O: Order>(
    alloc: Global,
    list: &PlainList,
) -> Result<Vec<Poly<K, O>>, AllocError>
    requires ranks { All (HasRanksBelow K.field.size) list.now }
    requires totals { All (λ g. All (λ t. total t.0 ≤ 2 ^ 40) g.terms) list.now }
    ensures { IfOk result (λ made. made.items ≡ polynomials list.now) }
{
    let mut made = Vec::with_capacity(alloc, list.len())?;
    for place in 0..list.len() {
        made.push(Poly::from_plain(alloc, list.get(place))?)?;
    }
    Ok(made)
}

/// The reduced basis of an ideal for the order with this name and its certificate, calculated with at most so many turns of the
/// members of its reduced Grevlex basis; for Grevlex these are the basis already, and what the ideal was made of is given.
pub(crate) fn shown_basis<K: Coeff>(
    alloc: Global,
    ideal: &Ideal<K>,
    order: OrderName,
    budget: u64,
) -> Result<(PlainList, Cert), Stop>
    requires prime { K.SIZE ≡ K.P }
    ensures basis { IfOk result (λ shown. IsShown K.field order ideal.now shown.0 shown.1) }
    ensures stop { PrintStops K.field order ideal.now.members budget result }
{
    match order {
        OrderName::Lex => ordered_basis::<K, Lex>(alloc, ideal, budget),
        OrderName::Grlex => ordered_basis::<K, Grlex>(alloc, ideal, budget),
        OrderName::Grevlex => Ok((plain_list(alloc, ideal.members())?, ideal.cert(alloc)?)),
        OrderName::Elim => ordered_basis::<K, Elim>(alloc, ideal, budget),
    }
}

/// The reduced basis of an ideal for another order than Grevlex, and its certificate.
fn ordered_basis<K: Coeff, O: Order>(
    alloc: Global,
    ideal: &Ideal<K>,
    budget: u64,
) -> Result<(PlainList, Cert), Stop>
    requires prime { K.SIZE ≡ K.P }
    ensures basis { IfOk result (λ shown. IsShownBasis K.field O.key ideal.now.given shown.0) }
    ensures certificate { IfOk result (λ shown. IsBasisCertificate K.field.characteristic (order_in_row O.ROW) ideal.now.members shown.0 shown.1) }
    ensures holds { IfOk result (λ shown. Holds shown.1) }
    ensures stop { IsStopWhere K.field (Unfinished K.field O.key ideal.now.members budget) (TooHigh K.field O.key ideal.now.members budget) (order_in_row O.ROW) O.key ideal.now.members result }
{
    let basis = ideal.in_order::<O>(alloc, budget)?;
    let given = reordered(alloc, ideal.members())?;
    let cert = basis.cert(alloc, &given)?;
    Ok((plain_list(alloc, basis.members())?, cert))
}

/// The same polynomials, their terms falling in another order.
fn reordered<K: Coeff, O: Order>(
    alloc: Global,
    list: &[GPoly<K>],
) -> Result<Vec<Poly<K, O>>, AllocError>
    ensures { IfOk result (λ made. made.items ≡ list.now) }
{
    let mut made = Vec::with_capacity(alloc, list.len())?;
    for g in list {
        made.push(g.reorder(alloc)?)?;
    }
    Ok(made)
}

/// What a stop keeps, the terms of its polynomials falling in the order with this name.
pub(crate) fn shown_kept<K: Coeff>(
    alloc: Global,
    kept: &Kept,
    order: OrderName,
) -> Result<Kept, AllocError>
    requires ranks { All (HasRanksBelow K.field.size) kept.now.list }
    requires totals { All (λ g. All (λ t. total t.0 ≤ 2 ^ 40) g.terms) kept.now.list }
    ensures { IfOk result (IsKeptAgain (key_of order) kept.now) }
{
    match order {
        OrderName::Lex => ordered_kept::<K, Lex>(alloc, kept),
        OrderName::Grlex => ordered_kept::<K, Grlex>(alloc, kept),
        OrderName::Grevlex => ordered_kept::<K, Grevlex>(alloc, kept),
        OrderName::Elim => ordered_kept::<K, Elim>(alloc, kept),
    }
}

/// What a stop keeps, the terms of its polynomials falling in an order.
fn ordered_kept<K: Coeff, O: Order>(alloc: Global, kept: &Kept) -> Result<Kept, AllocError>
    requires ranks { All (HasRanksBelow K.field.size) kept.now.list }
    requires totals { All (λ g. All (λ t. total t.0 ≤ 2 ^ 40) g.terms) kept.now.list }
    ensures { IfOk result (IsKeptAgain O.key kept.now) }
{
    let list = from_plain::<K, O>(alloc, &kept.list)?;
    Ok(Kept {
        order: kept.order,
        list: plain_list(alloc, &list)?,
    })
}
