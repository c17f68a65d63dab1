//! The list whose elimination basis gives a meet.
ghost use Rattle.std.specs.Prelude.{◌≡◌, ◌∷◌, [], IfOk};
ghost use Rattle.fj_theory.specs.Ideal.{multiples};
ghost use Rattle.fj_theory.specs.Polynomial.{product};
ghost use Rattle.fj_groebner.specs.Elimination.{eighth_variable};
ghost use Rattle.fj_poly.specs.Limit.{IsHigh};
ghost use Rattle.fj_ideal.specs.Lists.{AreLow, NoList};
ghost use Rattle.fj_ideal.specs.Stop.{StopsOnlyWith};
ghost use Rattle.fj_elim.specs.Lists.{IsHighInMeet, IsHighTimes, IsMeetList, one_less_eighth};

use fj_basis::{Stop, kept};
use fj_coeff::Coeff;
use fj_mono::{Elim, Mono};
use fj_poly::{GPoly, Poly, PolyFault};
use std::alloc::{AllocError, Global};
use std::slice;

// The eighth variable t.
fn eighth_variable<K: Coeff>(alloc: Global) -> Result<Poly<K, Elim>, AllocError>
    ensures { IfOk result (λ t. t ≡ eighth_variable) }
{
    let t = Mono::new([0, 0, 0, 0, 0, 0, 0, 1]).unwrap();
    Poly::term(alloc, K::one(), &t)
}

// The polynomial 1 - t.
fn one_less_eighth<K: Coeff>(alloc: Global) -> Result<Poly<K, Elim>, AllocError>
    ensures { IfOk result (λ f. f ≡ one_less_eighth K.field) }
{
    let t = eighth_variable(alloc)?;
    let one = Poly::term(alloc, K::one(), &Mono::one())?;
    one.sub(alloc, &t)
}

// The product of f with g, for the elimination order.
fn times<K: Coeff>(alloc: Global, f: &Poly<K, Elim>, g: &GPoly<K>) -> Result<Poly<K, Elim>, Stop>
    ensures value { IfOk result (λ p. p ≡ product K.field f.now g.now) }
    ensures low { IfOk result (λ p. IsHigh p → ⊥) }
    ensures stop { StopsOnlyWith K.field NoList (IsHighTimes K.field f.now (g.now ∷ [])) 0 result }
{
    match f.mul(alloc, &g.reorder(alloc)?) {
        Ok(product) => Ok(product),
        Err(PolyFault::High) => Err(Stop::Product(kept(alloc, slice::from_ref(g))?)),
        Err(PolyFault::Memory) => Err(Stop::Memory),
    }
}

// The products of f with the polynomials of a list, in order.
fn multiples<K: Coeff>(
    alloc: Global,
    f: &Poly<K, Elim>,
    list: &[GPoly<K>],
) -> Result<Vec<Poly<K, Elim>>, Stop>
    ensures value { IfOk result (λ products. products.items ≡ multiples K.field f.now list.now) }
    ensures low { IfOk result (λ products. AreLow products.items) }
    ensures stop { StopsOnlyWith K.field NoList (IsHighTimes K.field f.now list.now) 0 result }
{
    let mut products = Vec::with_capacity(alloc, list.len())?;
    for g in list {
        products.push(times(alloc, f, g)?)?;
    }
    Ok(products)
}

/// The list t*g, g in the first list, then (1 - t)*h, h in the second.
pub(crate) fn meet_list<K: Coeff>(
    alloc: Global,
    list: &[GPoly<K>],
    others: &[GPoly<K>],
) -> Result<Vec<Poly<K, Elim>>, Stop>
    ensures list { IfOk result (λ all. IsMeetList K.field list.now others.now all.items) }
    ensures stop { StopsOnlyWith K.field NoList (IsHighInMeet K.field list.now others.now) 0 result }
{
    let t = eighth_variable(alloc)?;
    let mut all = multiples(alloc, &t, list)?;
    let rest = one_less_eighth(alloc)?;
    let mut more = multiples(alloc, &rest, others)?;
    all.append(&mut more)?;
    Ok(all)
}
