//! Thinning: fewer and simpler generators of the ideal of a list, from which its reduced basis is quickly found.
ghost use Rattle.std.specs.Prelude.{◌≢◌, All, IfOk, IfSome};
ghost use Rattle.std.specs.FinMap.{empty};
ghost use Rattle.std.specs.List.Sorted.{IsPermutation};
ghost use Rattle.fj_theory.specs.Ideal.{SameIdeal};
ghost use Rattle.fj_theory.specs.MonomialOrder.{grevlex_key};
ghost use Rattle.fj_groebner.specs.ReducedBasis.{IsReducedBasis};
ghost use Rattle.fj_ideal.specs.Congruent.{AreCongruent};

use fj_basis::{Stop, copy_list, divide, look_over, reduced_basis};
use fj_coeff::Coeff;
use fj_poly::{GPoly, PolyFault};
use std::alloc::{AllocError, Global};

/// The reduced Grevlex basis of the ideal of a list, by a run with at most `pairs` turns on the thinned list. `None` where that
/// run stops.
pub(crate) fn thinned_basis<K: Coeff>(
    alloc: Global,
    list: &[GPoly<K>],
    pairs: u64,
) -> Result<Option<Vec<GPoly<K>>>, AllocError>
    ensures { IfOk result (λ found. IfSome found (λ members. IsReducedBasis K.field grevlex_key list.now members.items)) }
{
    look_over(list);
    let few = thinned(alloc, list)?;
    look_over(&few);
    match reduced_basis(alloc, &few, pairs) {
        Ok(members) => Ok(Some(members)),
        Err(Stop::Memory) => Err(AllocError),
        Err(_) => Ok(None),
    }
}

// The remainders of the polynomials of a list, the simplest first, each by those before it that aren't zero.
fn thinned<K: Coeff>(alloc: Global, list: &[GPoly<K>]) -> Result<Vec<GPoly<K>>, AllocError>
    ensures { IfOk result (λ few. SameIdeal K.field few.items list.now) }
{
    look_over(list);
    let sorted = simplest_first(alloc, list)?;
    let mut few = Vec::new(alloc);
    for g in &sorted {
        let rest = remainder(alloc, g, &few)?;
        if !rest.is_zero() {
            few.push(rest)?;
        }
    }
    Ok(few)
}

// The polynomials of a list, rising by degree and then by the number of their terms.
fn simplest_first<K: Coeff>(alloc: Global, list: &[GPoly<K>]) -> Result<Vec<GPoly<K>>, AllocError>
    ensures { IfOk result (λ sorted. IsPermutation list.now sorted.items) }
{
    let mut sorted = copy_list(alloc, list)?;
    sorted.sort_by_key(|g| (g.lead_degree(), g.len()))?;
    Ok(sorted)
}

// The remainder of the division of h by a list of polynomials, none of them zero.
fn remainder<K: Coeff>(
    alloc: Global,
    h: &GPoly<K>,
    list: &[GPoly<K>],
) -> Result<GPoly<K>, AllocError>
    requires { All (λ g. g ≢ empty) list.now }
    ensures { IfOk result (AreCongruent K.field list.now h.now) }
{
    // h and the polynomials of the list are polynomials over K.
    let _ = h.is_zero();
    look_over(list);
    match divide(alloc, h, list) {
        Ok((_, rest)) => Ok(rest),
        Err(PolyFault::High) => unreachable!(),
        Err(PolyFault::Memory) => Err(AllocError),
    }
}
