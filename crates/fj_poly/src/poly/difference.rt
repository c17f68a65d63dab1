//! Differences of polynomials.
ghost use Rattle.std.specs.Prelude.{◌≡◌, IfOk};
ghost use Rattle.fj_theory.specs.Polynomial.{IsPolynomial, negation, sum};

use super::{Poly, Term};
use fj_coeff::Coeff;
use fj_mono::Order;
use std::alloc::{AllocError, Global};
use std::marker::PhantomData;

#[tactic(auto, using(crate::proofs::View::polynomial_seen))]
impl<K: Coeff, O: Order> Poly<K, O> {
    /// The difference.
    pub fn sub(&self, alloc: Global, o: &Poly<K, O>) -> Result<Poly<K, O>, AllocError>
        ensures value { IfOk result (λ p. p ≡ sum K.field self.now (negation K.field o.now)) }
        ensures polynomial { IfOk result (IsPolynomial K.field) }
    {
        let negative = o.negated(alloc)?;
        self.add(alloc, &negative)
    }

    // The polynomial with the opposite coefficients.
    fn negated(&self, alloc: Global) -> Result<Poly<K, O>, AllocError>
        ensures { IfOk result (λ p. p ≡ negation K.field self.now) }
    {
        let mut terms = Vec::with_capacity(alloc, self.terms.len())?;
        for t in self.terms.as_slice() {
            terms.push(Term {
                coefficient: t.coefficient.neg(),
                monomial: t.monomial,
            })?;
        }
        Ok(Poly {
            terms,
            order: PhantomData,
        })
    }
}
