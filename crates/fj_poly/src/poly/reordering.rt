//! The same polynomial with its terms in another order.
ghost use Rattle.std.specs.Prelude.{◌≡◌, IfOk};
ghost use Rattle.std.specs.FinMap.{from_entries};
ghost use Rattle.fj_theory.specs.Polynomial.{IsFalling, IsPolynomial};
ghost use Rattle.fj_poly.specs.Terms.{AreTerms, entries};

use super::{Poly, Term};
use fj_coeff::Coeff;
use fj_mono::Order;
use std::alloc::{AllocError, Global};

#[tactic(auto, using(crate::proofs::View::polynomial_seen))]
impl<K: Coeff, O: Order> Poly<K, O> {
    /// The same polynomial with its terms in another order.
    pub fn reorder<O2: Order>(&self, alloc: Global) -> Result<Poly<K, O2>, AllocError>
        ensures value { IfOk result (λ p. p ≡ self.now) }
        ensures polynomial { IsPolynomial K.field self.now }
    {
        Poly::<K, O>::gathered(alloc, self.terms.as_slice())
    }

    // The polynomial of a list of terms that falls in O: half the list and the other half.
    fn gathered<O2: Order>(alloc: Global, list: &[Term<K>]) -> Result<Poly<K, O2>, AllocError>
        requires falls { IsFalling O.key (entries K.rank list.now) }
        requires terms { AreTerms K.field (entries K.rank list.now) }
        ensures { IfOk result (λ p. p ≡ from_entries (entries K.rank list.now)) }
    {
        match list {
            [] => Ok(Poly::zero(alloc)),
            [t] => Poly::term(alloc, t.coefficient, &t.monomial),
            _ => {
                let (front, back) = list.split_at(list.len() / 2);
                let first = Poly::<K, O>::gathered::<O2>(alloc, front)?;
                let second = Poly::<K, O>::gathered::<O2>(alloc, back)?;
                first.add(alloc, &second)
            }
        }
    }
}
