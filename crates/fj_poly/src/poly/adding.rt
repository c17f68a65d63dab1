//! A term added in place.
ghost use Rattle.std.specs.Prelude.{◌≡◌, ◌<◌, ℕ, List, IfErr, IfOk, Some, length, slice_get};
ghost use Rattle.std.specs.FinMap.{from_entries};
ghost use Rattle.std.specs.Option.{option_map};
ghost use Rattle.fj_theory.specs.MonomialOrder.{compare_by};
ghost use Rattle.fj_theory.specs.Polynomial.{IsFalling, IsPolynomial, sum, term};
ghost use Rattle.fj_poly.specs.Place.{IsPlace};
ghost use Rattle.fj_poly.specs.Terms.{AreTerms, entries};

use super::{Poly, Term};
use fj_coeff::Coeff;
use fj_mono::{Mono, Order};
use std::alloc::AllocError;
use std::cmp::Ordering;

#[tactic(auto, using(crate::proofs::View::polynomial_seen))]
impl<K: Coeff, O: Order> Poly<K, O> {
    /// Adds the term c*m in place: its place is found by halving. After want of memory the polynomial is as before.
    pub fn add_term(&mut self, c: K, m: &Mono) -> Result<(), AllocError>
        ensures value { IfOk result (λ _. self.new ≡ sum K.field self.old (term (K.rank c) m.now.exponents)) }
        ensures unchanged { IfErr result (λ _. self.new ≡ self.old) }
        ensures polynomial { IsPolynomial K.field self.new }
    {
        match place_in::<K, O>(self.terms.as_slice(), m) {
            Ok(i) => {
                change_at::<K, O>(&mut self.terms, i, c);
                Ok(())
            }
            Err(i) => {
                if c == K::zero() {
                    return Ok(());
                }
                self.terms.insert(
                    i,
                    Term {
                        coefficient: c,
                        monomial: *m,
                    },
                )?;
                Ok(())
            }
        }
    }
}

// The place of the term at m in a falling list, or where it is missing.
fn place_in<K: Coeff, O: Order>(terms: &[Term<K>], m: &Mono) -> Result<usize, usize>
    requires falls { IsFalling O.key (entries K.rank terms.now) }
    requires terms { AreTerms K.field (entries K.rank terms.now) }
    ensures { IsPlace O.key m.now.exponents (entries K.rank terms.now) result }
{
    let place = |t: &Term<K>| -> Ordering
        ensures { result ≡ compare_by O.key m.entry.now.exponents t.now.monomial.exponents }
    { O::cmp(m, &t.monomial) };
    terms.binary_search_by(place)
}

// Adds to the coefficient at a place of a falling list. A term that cancels is taken out.
fn change_at<K: Coeff, O: Order>(terms: &mut Vec<Term<K>>, i: usize, c: K)
    requires place { i < length terms.old.items }
    requires falls { IsFalling O.key (entries K.rank terms.old.items) }
    requires terms { AreTerms K.field (entries K.rank terms.old.items) }
    ensures value { (m : List ℕ) → option_map (λ t. t.0) (slice_get (entries K.rank terms.old.items) i) ≡ Some m
        → from_entries (entries K.rank terms.new.items) ≡ sum K.field (from_entries (entries K.rank terms.old.items)) (term (K.rank c) m) }
    ensures falls { IsFalling O.key (entries K.rank terms.new.items) }
    ensures terms { AreTerms K.field (entries K.rank terms.new.items) }
{
    let t = terms[i];
    let coefficient = t.coefficient.add(c);
    if coefficient == K::zero() {
        terms.remove(i);
    } else {
        terms[i] = Term {
            coefficient,
            monomial: t.monomial,
        };
    }
}
