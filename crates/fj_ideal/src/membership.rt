//! Whether a polynomial or an ideal is in an ideal, with cofactors.
ghost use Rattle.std.specs.Prelude.{◌↔◌, IfOk, IsTrue, MatchOption};
ghost use Rattle.fj_theory.specs.Ideal.{Inside, Member};
ghost use Rattle.fj_groebner.specs.Rows.{IsRow};

use crate::ideal::Ideal;
use fj_basis::divide;
use fj_coeff::Coeff;
use fj_poly::{GPoly, PolyFault};
use std::alloc::{AllocError, Global};

impl<K: Coeff> Ideal<K> {
    /// Where h is in the ideal, cofactors of the members: as many as there are members, and h is the sum of each cofactor
    /// times its member. `None` exactly where h isn't in the ideal.
    ///
    /// h is divided by the members, and it is in the ideal exactly where the remainder is zero (Cox, Little and O'Shea 2015,
    /// chapter 2, section 6).
    pub fn member(&self, alloc: Global, h: &GPoly<K>) -> Result<Option<Vec<GPoly<K>>>, AllocError>
        ensures { IfOk result (λ found. MatchOption found (Member K.field self.now.given h.now → ⊥) (λ cofactors. Member K.field self.now.given h.now × IsRow K.field self.now.members h.now cofactors.items)) }
    {
        // h is a polynomial over K.
        let _ = h.is_zero();
        match divide(alloc, h, self.members()) {
            Ok((cofactors, remainder)) => Ok(remainder.is_zero().then_some(cofactors)),
            Err(PolyFault::High) => unreachable!(),
            Err(PolyFault::Memory) => Err(AllocError),
        }
    }

    /// Whether the other ideal is inside this one.
    pub fn contains(&self, alloc: Global, o: &Ideal<K>) -> Result<bool, AllocError>
        ensures { IfOk result (λ b. IsTrue b ↔ Inside K.field o.now.given self.now.given) }
    {
        // What is given of this ideal are polynomials.
        let _ = self.given();
        self.has_all(alloc, o.members())
    }

    /// Whether each polynomial of a list is in the ideal.
    pub fn has_all(&self, alloc: Global, list: &[GPoly<K>]) -> Result<bool, AllocError>
        ensures { IfOk result (λ b. IsTrue b ↔ Inside K.field list.now self.now.given) }
    {
        for g in list {
            if self.member(alloc, g)?.is_none() {
                return Ok(false);
            }
        }
        Ok(true)
    }
}
