//! Members of a run: what divides, with its sugar and its place.
ghost use Rattle.std.specs.Prelude.{◌≡◌, ◌≢◌, IfOk, map};
ghost use Rattle.std.specs.FinMap.{empty};
ghost use Rattle.fj_theory.specs.Lead.{lead_exponents};
ghost use Rattle.fj_basis.specs.Members.{sugared};

use crate::divisor::Divisor;
use fj_coeff::Coeff;
use fj_mono::{Mono, Order};
use fj_poly::Poly;
use std::alloc::{AllocError, Global};

/// The cofactors by which a polynomial is a combination of a list.
pub(crate) type Row<K, O> = Vec<Poly<K, O>>;

/// A member of a run, or what replaces it in finishing, with its sugar and the member's place in the run.
#[derive(Drop)]
pub(crate) struct Member<K: Coeff, O: Order> {
    pub(crate) polynomial: Poly<K, O>,
    pub(crate) sugar: u64,
    pub(crate) place: usize,
}

impl<K: Coeff, O: Order> Member<K, O> {
    /// The monomial of the lead of a member that isn't zero.
    pub(crate) fn lead(&self) -> Mono
        requires { self.now.polynomial ≢ empty }
        ensures { result.exponents ≡ lead_exponents O.key self.now.polynomial }
    {
        let (_, m) = self.polynomial.lead().unwrap();
        m
    }
}

impl<K: Coeff, O: Order> Divisor<K, O> for Member<K, O> {
    ghost sugared = { sugared };

    fn polynomial(&self) -> &Poly<K, O> {
        &self.polynomial
    }

    fn sugar(&self) -> u64 {
        self.sugar
    }
}

/// The polynomials of some members.
pub(crate) fn polynomials<K: Coeff, O: Order>(
    alloc: Global,
    members: Vec<Member<K, O>>,
) -> Result<Vec<Poly<K, O>>, AllocError>
    ensures { IfOk result (λ fs. fs.items ≡ map (λ m. m.polynomial) members.items) }
{
    let mut polynomials = Vec::with_capacity(alloc, members.len())?;
    for member in members {
        polynomials.push(member.polynomial)?;
    }
    Ok(polynomials)
}
