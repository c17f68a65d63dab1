//! Quotients of ideals, told by lists: the quotients that are formed, and the reduced basis alone.
ghost use Rattle.std.specs.Prelude.{◌≡◌, ◌≢◌, ◌∷◌, [], IfOk, All};
ghost use Rattle.std.specs.FinMap.{empty};
ghost use Rattle.fj_theory.specs.Colon.{IsColon};
ghost use Rattle.fj_theory.specs.Ideal.{ArePolynomials, Member, multiples};
ghost use Rattle.fj_theory.specs.PointIdeal.{UsesFirst};
ghost use Rattle.fj_theory.specs.Polynomial.{IsPolynomial, product};
ghost use Rattle.fj_ideal.specs.Stop.{StopsOnlyWith};
ghost use Rattle.fj_elim.specs.Lists.{IsColonBasis, IsColonList, IsHighInColon, IsQuotientList};

use crate::elimination::eliminated;
use fj_basis::{Stop, divide, look_over, reduced_basis};
use fj_coeff::Coeff;
use fj_poly::{GPoly, PolyFault};
use std::alloc::{AllocError, Global};
use std::slice;

// The quotient of a multiple of g by g.
fn quotient<K: Coeff>(alloc: Global, h: &GPoly<K>, g: &GPoly<K>) -> Result<GPoly<K>, AllocError>
    requires nonzero { g.now ≢ empty }
    requires multiple { Member K.field (g.now ∷ []) h.now }
    ensures value { IfOk result (λ q. h.now ≡ product K.field g.now q) }
    ensures polynomial { IfOk result (IsPolynomial K.field) }
{
    // g is a polynomial over K.
    let _ = g.is_zero();
    match divide(alloc, h, slice::from_ref(g)) {
        Ok((mut quotients, _)) => Ok(quotients.pop().unwrap()),
        Err(PolyFault::High) => unreachable!(),
        Err(PolyFault::Memory) => Err(AllocError),
    }
}

// The quotients by g of multiples of g, in order.
fn quotients<K: Coeff>(
    alloc: Global,
    list: &[GPoly<K>],
    g: &GPoly<K>,
) -> Result<Vec<GPoly<K>>, AllocError>
    requires nonzero { g.now ≢ empty }
    requires multiples { All (Member K.field (g.now ∷ [])) list.now }
    ensures value { IfOk result (λ quotients. multiples K.field g.now quotients.items ≡ list.now) }
    ensures polynomials { IfOk result (λ quotients. ArePolynomials K.field quotients.items) }
{
    let mut quotients = Vec::with_capacity(alloc, list.len())?;
    for h in list {
        quotients.push(quotient(alloc, h, g)?)?;
    }
    Ok(quotients)
}

/// The list that the quotient by a polynomial g is made of: the members without t of the basis for a list and g, each divided
/// by g.
pub(crate) fn quotient_list<K: Coeff>(
    alloc: Global,
    list: &[GPoly<K>],
    g: &GPoly<K>,
    pairs: u64,
) -> Result<Vec<GPoly<K>>, Stop>
    requires nonzero { g.now ≢ empty }
    requires first { All (UsesFirst 7) list.now }
    requires second { UsesFirst 7 g.now }
    ensures list { IfOk result (λ Q. IsQuotientList K.field list.now g.now Q.items) }
    ensures colon { IfOk result (λ Q. IsColon K.field list.now (g.now ∷ []) Q.items) }
    ensures variables { IfOk result (λ Q. All (UsesFirst 7) Q.items) }
    ensures stop { StopsOnlyWith K.field (IsColonList K.field list.now (g.now ∷ [])) (IsHighInColon K.field list.now (g.now ∷ [])) pairs result }
{
    // They are polynomials over K.
    let _ = g.is_zero();
    look_over(list);
    let multiples = eliminated(alloc, list, slice::from_ref(g), pairs)?;
    Ok(quotients(alloc, &multiples, g)?)
}

// The reduced basis of the quotient by one polynomial.
fn basis_by_one<K: Coeff>(
    alloc: Global,
    list: &[GPoly<K>],
    g: &GPoly<K>,
    pairs: u64,
) -> Result<Vec<GPoly<K>>, Stop>
    requires nonzero { g.now ≢ empty }
    requires first { All (UsesFirst 7) list.now }
    requires second { UsesFirst 7 g.now }
    ensures basis { IfOk result (λ C. IsColonBasis K.field list.now (g.now ∷ []) C.items) }
    ensures variables { IfOk result (λ C. All (UsesFirst 7) C.items) }
    ensures stop { StopsOnlyWith K.field (IsColonList K.field list.now (g.now ∷ [])) (IsHighInColon K.field list.now (g.now ∷ [])) pairs result }
{
    // They are polynomials over K.
    let _ = g.is_zero();
    look_over(list);
    let quotients = quotient_list(alloc, list, g, pairs)?;
    reduced_basis(alloc, &quotients, pairs)
}

/// The reduced Grevlex basis alone of the quotient of two ideals, each told by a list of polynomials in the first seven
/// variables, the second list without zero and not empty: as `colon` finds it, with the same stops, and no cofactor formed.
pub fn colon_basis<K: Coeff>(
    alloc: Global,
    list: &[GPoly<K>],
    others: &[GPoly<K>],
    pairs: u64,
) -> Result<Vec<GPoly<K>>, Stop>
    requires some { others.now ≢ [] }
    requires nonzero { All (λ g. g ≢ empty) others.now }
    requires first { All (UsesFirst 7) list.now }
    requires second { All (UsesFirst 7) others.now }
    ensures basis { IfOk result (λ C. IsColonBasis K.field list.now others.now C.items) }
    ensures variables { IfOk result (λ C. All (UsesFirst 7) C.items) }
    ensures stop { StopsOnlyWith K.field (IsColonList K.field list.now others.now) (IsHighInColon K.field list.now others.now) pairs result }
{
    // They are polynomials over K.
    look_over(list);
    look_over(others);
    let mut colon = basis_by_one(alloc, list, &others[0], pairs)?;
    for k in 1..others.len() {
        let next = basis_by_one(alloc, list, &others[k], pairs)?;
        colon = eliminated(alloc, &colon, &next, pairs)?;
    }
    Ok(colon)
}
