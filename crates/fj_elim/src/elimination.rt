//! Elimination of the eighth variable, and meets by it.
ghost use Rattle.std.specs.Prelude.{◌≡◌, ◌↔◌, IfOk, IsTrue, All};
ghost use Rattle.fj_theory.specs.Colon.{IsMeet};
ghost use Rattle.fj_theory.specs.MonomialOrder.{grevlex_key};
ghost use Rattle.fj_theory.specs.PointIdeal.{UsesFirst};
ghost use Rattle.fj_theory.specs.Polynomial.{IsPolynomial};
ghost use Rattle.fj_groebner.specs.Elimination.{without_eighth};
ghost use Rattle.fj_plain.specs.declared.order_name.OrderName.TheVariants as orders;
ghost use Rattle.fj_ideal.specs.Ideal.{IsIdeal};
ghost use Rattle.fj_ideal.specs.Lists.{RunFor};
ghost use Rattle.fj_ideal.specs.Stop.{StopsExactlyWith};
ghost use Rattle.fj_elim.specs.Lists.{IsEliminated, IsHighInMeet, IsMeetList};

use crate::list::meet_list;
use fj_basis::{Stop, reduced_basis};
use fj_coeff::Coeff;
use fj_ideal::Ideal;
use fj_mono::{Elim, Order};
use fj_poly::{GPoly, Poly};
use std::alloc::{AllocError, Global};

/// Whether no term of the polynomial has the eighth variable.
pub fn lacks_eighth<K: Coeff, O: Order>(g: &Poly<K, O>) -> bool
    ensures value { IsTrue result ↔ UsesFirst 7 g.now }
    ensures polynomial { IsPolynomial K.field g.now }
{
    // g is a polynomial over K.
    let _ = g.is_zero();
    for i in 0..g.len() {
        let (_, m) = g.at(i);
        if m.exp(7) != 0 {
            return false;
        }
    }
    true
}

/// The polynomials of the list without the eighth variable, in order.
pub fn drop_t<K: Coeff>(alloc: Global, list: &[Poly<K, Elim>]) -> Result<Vec<GPoly<K>>, AllocError>
    ensures { IfOk result (λ members. members.items ≡ without_eighth list.now) }
{
    let mut members = Vec::new(alloc);
    for g in list {
        if lacks_eighth(g) {
            members.push(g.reorder(alloc)?)?;
        }
    }
    Ok(members)
}

/// The members without the eighth variable t of the reduced basis of t*G, (1 - t)*H for the order that eliminates t, by at
/// most `pairs` turns.
pub(crate) fn eliminated<K: Coeff>(
    alloc: Global,
    list: &[GPoly<K>],
    others: &[GPoly<K>],
    pairs: u64,
) -> Result<Vec<GPoly<K>>, Stop>
    ensures members { IfOk result (λ members. IsEliminated K.field list.now others.now members.items) }
    ensures stop { StopsExactlyWith K.field (RunFor orders.Elim (IsMeetList K.field list.now others.now)) (IsHighInMeet K.field list.now others.now) pairs result }
{
    let list = meet_list(alloc, list, others)?;
    let members = reduced_basis(alloc, &list, pairs)?;
    Ok(drop_t(alloc, &members)?)
}

/// The meet of two ideals in the first seven variables, by elimination of the eighth, t, with at most `pairs` turns (Cox,
/// Little and O'Shea 2015, chapter 4, section 3).
///
/// The list t*g, g a member of the first, then (1 - t)*h, h a member of the second, is run for the order that eliminates t,
/// and the meet is made of the members without t of its basis. `Product` exactly where such a product has a term of total
/// degree above 2^40, and it keeps such a member alone. Else `Pairs` exactly where `pairs` turns were made and pairs are
/// pending, `High` exactly where a sugar above 2^40 arises within these turns or, where no pair is then pending, in
/// finishing. Both keep this list.
pub fn meet<K: Coeff>(
    alloc: Global,
    a: &Ideal<K>,
    b: &Ideal<K>,
    pairs: u64,
) -> Result<Ideal<K>, Stop>
    requires first { All (UsesFirst 7) a.now.members }
    requires second { All (UsesFirst 7) b.now.members }
    ensures meet { IfOk result (λ J. IsMeet K.field a.now.given b.now.given J.given) }
    ensures ideal { IfOk result (IsIdeal K.field) }
    ensures given { IfOk result (λ J. IsEliminated K.field a.now.members b.now.members J.given) }
    ensures members { IfOk result (λ J. J.members ≡ J.given) }
    ensures variables { IfOk result (λ J. All (UsesFirst 7) J.members) }
    ensures stop { StopsExactlyWith K.field (RunFor orders.Elim (IsMeetList K.field a.now.members b.now.members)) (IsHighInMeet K.field a.now.members b.now.members) pairs result }
{
    let list = eliminated(alloc, a.members(), b.members(), pairs)?;
    Ok(Ideal::of_reduced(alloc, list)?)
}
