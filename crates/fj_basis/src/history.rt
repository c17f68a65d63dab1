//! How the members of a run, and those that replace them in finishing, are made: what cofactors are formed from at the end.
ghost use Rattle.std.specs.Prelude.{◌≡◌, ◌+◌, ◌<◌, ◌^◌, [], IfOk, OnOk, length};
ghost use Rattle.fj_theory.specs.Exponents.{origin};
ghost use Rattle.fj_theory.specs.Ideal.{ArePolynomials};
ghost use Rattle.fj_theory.specs.Polynomial.{term};
ghost use Rattle.fj_basis.specs.History.{HasRecorded, IsWithNegatives};

use fj_coeff::Coeff;
use fj_mono::{Mono, Order};
use fj_poly::Poly;
use std::alloc::{AllocError, Global};

/// A multiple of the polynomial at a place of a history.
#[derive(Drop)]
pub(crate) struct Summand<K: Coeff, O: Order> {
    pub(crate) place: usize,
    pub(crate) factor: Poly<K, O>,
}

/// What a constant is multiplied with: the polynomial at a place of the given list, or a sum of multiples of polynomials
/// that were made before.
#[derive(Drop)]
pub(crate) enum Source<K: Coeff, O: Order> {
    Given(usize),
    Combined(Vec<Summand<K, O>>),
}

/// How a polynomial is made.
#[derive(Drop)]
pub(crate) struct Making<K: Coeff, O: Order> {
    pub(crate) constant: Poly<K, O>,
    pub(crate) source: Source<K, O>,
}

/// How each polynomial of a calculation is made, in order, or nothing where cofactors aren't asked for.
#[derive(Drop)]
pub(crate) struct History<K: Coeff, O: Order> {
    pub(crate) is_kept: bool,
    pub(crate) makings: Vec<Making<K, O>>,
}

impl<K: Coeff, O: Order> History<K, O> {
    /// Nothing is made so far.
    pub(crate) fn new(alloc: Global, is_kept: bool) -> History<K, O>
        ensures kept { result.is_kept ≡ is_kept }
        ensures none { result.makings.items ≡ [] }
    {
        History {
            is_kept,
            makings: Vec::new(alloc),
        }
    }

    /// Records that c times this source is made, where it is asked for.
    pub(crate) fn push(
        &mut self,
        alloc: Global,
        c: K,
        source: Source<K, O>,
    ) -> Result<(), AllocError>
        ensures { OnOk result (HasRecorded (term (K.rank c) origin) source self.old self.new) }
    {
        if self.is_kept {
            let constant = Poly::term(alloc, c, &Mono::one())?;
            self.makings.push(Making { constant, source })?;
        }
        Ok(())
    }
}

/// Some multiples, and those of the polynomials from a place on by the negatives of the quotients.
pub(crate) fn with_negatives<K: Coeff, O: Order>(
    alloc: Global,
    first: Vec<Summand<K, O>>,
    quotients: &[Poly<K, O>],
    from: usize,
) -> Result<Vec<Summand<K, O>>, AllocError>
    requires polynomials { ArePolynomials K.field quotients.now }
    requires fits { from + length quotients.now < 2 ^ 64 }
    ensures { IfOk result (λ all. IsWithNegatives K.field first.items from quotients.now all.items) }
{
    let minus_one = K::one().neg();
    let mut summands = first;
    for k in 0..quotients.len() {
        if !quotients[k].is_zero() {
            summands.push(Summand {
                place: from + k,
                factor: quotients[k].scale(alloc, minus_one)?,
            })?;
        }
    }
    Ok(summands)
}
