//! Multiples, products and powers.
ghost use Rattle.std.specs.Prelude.{◌≡◌, ◌≢◌, ◌↔◌, All, IfOk, IsTrue, OnOk};
ghost use Rattle.std.specs.FinMap.{from_entries};
ghost use Rattle.fj_coeff.specs.Field as field;
ghost use Rattle.fj_theory.specs.Exponents.{origin};
ghost use Rattle.fj_theory.specs.Polynomial.{IsFalling, IsPolynomial, power, product, term};
ghost use Rattle.fj_poly.specs.Limit.{IsHigh, IsHighWhere};
ghost use Rattle.fj_poly.specs.Terms.{AreTerms, entries};

use super::{Poly, Term};
use crate::fault::PolyFault;
use fj_coeff::Coeff;
use fj_mono::{DEGREE_LIMIT, Mono, Order};
use std::alloc::{AllocError, Global};
use std::marker::PhantomData;

#[tactic(auto, using(crate::proofs::View::polynomial_seen))]
impl<K: Coeff, O: Order> Poly<K, O> {
    /// The same polynomial again.
    pub fn copy(&self, alloc: Global) -> Result<Poly<K, O>, AllocError>
        ensures value { IfOk result (λ p. p ≡ self.now) }
        ensures polynomial { IsPolynomial K.field self.now }
    {
        let mut terms = Vec::new(alloc);
        terms.extend_from_slice(self.terms.as_slice())?;
        Ok(Poly {
            terms,
            order: PhantomData,
        })
    }

    /// The product with the constant c.
    pub fn scale(&self, alloc: Global, c: K) -> Result<Poly<K, O>, AllocError>
        ensures value { IfOk result (λ p. p ≡ product K.field (term (K.rank c) origin) self.now) }
        ensures factor { IsPolynomial K.field self.now }
        ensures polynomial { IfOk result (IsPolynomial K.field) }
    {
        let Some(_) = self.degree() else {
            return Ok(Poly::zero(alloc));
        };
        if c == K::zero() {
            return Ok(Poly::zero(alloc));
        }
        self.times_term(alloc, c, &Mono::one())
    }

    /// The product with the monomial m. `High` exactly where a term of it passes total degree 2^40.
    pub fn shift(&self, alloc: Global, m: &Mono) -> Result<Poly<K, O>, PolyFault>
        ensures value { IfOk result (λ p. p ≡ product K.field (term 1 m.now.exponents) self.now) }
        ensures high { IsHighWhere (IsHigh (product K.field (term 1 m.now.exponents) self.now)) result }
        ensures factor { IsPolynomial K.field self.now }
        ensures polynomial { IfOk result (IsPolynomial K.field) }
    {
        if self.shift_is_high(m) {
            return Err(PolyFault::High);
        }
        let shifted = self.times_term(alloc, K::one(), m)?;
        Ok(shifted)
    }

    /// The product. `High` exactly where a term of it passes total degree 2^40.
    pub fn mul(&self, alloc: Global, o: &Poly<K, O>) -> Result<Poly<K, O>, PolyFault>
        ensures value { IfOk result (λ p. p ≡ product K.field self.now o.now) }
        ensures high { IsHighWhere (IsHigh (product K.field self.now o.now)) result }
        ensures first { IsPolynomial K.field self.now }
        ensures second { IsPolynomial K.field o.now }
        ensures polynomial { IfOk result (IsPolynomial K.field) }
    {
        if self.product_is_high(o) {
            return Err(PolyFault::High);
        }
        let product = self.product_within(alloc, o)?;
        Ok(product)
    }

    /// The k-th power. `High` exactly where a term of it passes total degree 2^40.
    pub fn pow(&self, alloc: Global, k: u64) -> Result<Poly<K, O>, PolyFault>
        ensures value { IfOk result (λ p. p ≡ power K.field self.now k) }
        ensures high { IsHighWhere (IsHigh (power K.field self.now k)) result }
        ensures base { IsPolynomial K.field self.now }
        ensures polynomial { IfOk result (IsPolynomial K.field) }
    {
        if self.power_is_high(k) {
            return Err(PolyFault::High);
        }
        let power = self.power_within(alloc, k)?;
        Ok(power)
    }

    // Whether a term of the product passes the limit: the degree of a product is the sum of the degrees.
    fn product_is_high(&self, o: &Poly<K, O>) -> bool
        ensures high { IsTrue result ↔ IsHigh (product K.field self.now o.now) }
        ensures first { IsPolynomial K.field self.now }
        ensures second { IsPolynomial K.field o.now }
    {
        let degree = o.degree();
        match self.degree() {
            Some(first) => match degree {
                Some(second) => first.saturating_add(second) > DEGREE_LIMIT,
                None => false,
            },
            None => false,
        }
    }

    fn shift_is_high(&self, m: &Mono) -> bool
        ensures high { IsTrue result ↔ IsHigh (product K.field (term 1 m.now.exponents) self.now) }
        ensures factor { IsPolynomial K.field self.now }
    {
        match self.degree() {
            Some(degree) => m.total().saturating_add(degree) > DEGREE_LIMIT,
            None => false,
        }
    }

    fn power_is_high(&self, k: u64) -> bool
        ensures high { IsTrue result ↔ IsHigh (power K.field self.now k) }
        ensures base { IsPolynomial K.field self.now }
    {
        match self.degree() {
            Some(degree) => k.saturating_mul(degree) > DEGREE_LIMIT,
            None => false,
        }
    }

    // The product with a term, of which no term is high.
    fn times_term(&self, alloc: Global, c: K, m: &Mono) -> Result<Poly<K, O>, AllocError>
        requires nonzero { K.rank c ≢ 0 }
        requires within { IsHigh (product K.field (term (K.rank c) m.now.exponents) self.now) → ⊥ }
        ensures { IfOk result (λ p. p ≡ product K.field (term (K.rank c) m.now.exponents) self.now) }
    {
        let mut terms = Vec::with_capacity(alloc, self.terms.len())?;
        fill_multiple::<K, O>(&mut terms, c, m, self.terms.as_slice())?;
        Ok(Poly {
            terms,
            order: PhantomData,
        })
    }

    // The P-th power, of which no term is high: on terms alone.
    fn frobenius(&self, alloc: Global) -> Result<Poly<K, O>, AllocError>
        requires { IsHigh (power K.field self.now K.P) → ⊥ }
        ensures { IfOk result (λ p. p ≡ power K.field self.now K.P) }
    {
        let mut terms = Vec::with_capacity(alloc, self.terms.len())?;
        for t in self.terms.as_slice() {
            terms.push(Term {
                coefficient: coefficient_power(t.coefficient, K::P),
                monomial: t.monomial.try_scale(K::P).unwrap(),
            })?;
        }
        Ok(Poly {
            terms,
            order: PhantomData,
        })
    }

    // The sum of the products of the terms of a falling list with a polynomial: half the list and the other half.
    fn rows(alloc: Global, left: &[Term<K>], right: &Poly<K, O>) -> Result<Poly<K, O>, AllocError>
        requires factor { IsPolynomial K.field right.now }
        requires falls { IsFalling O.key (entries K.rank left.now) }
        requires terms { AreTerms K.field (entries K.rank left.now) }
        requires within { All (λ t. IsHigh (product K.field (term t.1 t.0) right.now) → ⊥) (entries K.rank left.now) }
        ensures { IfOk result (λ p. p ≡ product K.field (from_entries (entries K.rank left.now)) right.now) }
    {
        match left {
            [] => Ok(Poly::zero(alloc)),
            [t] => right.times_term(alloc, t.coefficient, &t.monomial),
            _ => {
                let (front, back) = left.split_at(left.len() / 2);
                let first = Poly::rows(alloc, front, right)?;
                let second = Poly::rows(alloc, back, right)?;
                first.add(alloc, &second)
            }
        }
    }

    // The product, of which no term is high.
    fn product_within(&self, alloc: Global, o: &Poly<K, O>) -> Result<Poly<K, O>, AllocError>
        requires { IsHigh (product K.field self.now o.now) → ⊥ }
        ensures { IfOk result (λ p. p ≡ product K.field self.now o.now) }
    {
        if o.terms.len() < self.terms.len() {
            Poly::rows(alloc, o.terms.as_slice(), self)
        } else {
            Poly::rows(alloc, self.terms.as_slice(), o)
        }
    }

    // The k-th power by repeated product, of which no term is high.
    fn digit_power(&self, alloc: Global, k: u64) -> Result<Poly<K, O>, AllocError>
        requires base { IsPolynomial K.field self.now }
        requires within { IsHigh (power K.field self.now k) → ⊥ }
        ensures { IfOk result (λ p. p ≡ power K.field self.now k) }
    {
        let mut result = Poly::term(alloc, K::one(), &Mono::one())?;
        for _ in 0..k {
            result = self.product_within(alloc, &result)?;
        }
        Ok(result)
    }

    // The k-th power by the digits of k in base P, of which no term is high.
    fn power_within(&self, alloc: Global, k: u64) -> Result<Poly<K, O>, AllocError>
        requires base { IsPolynomial K.field self.now }
        requires within { IsHigh (power K.field self.now k) → ⊥ }
        ensures { IfOk result (λ p. p ≡ power K.field self.now k) }
    {
        if k < K::P {
            return self.digit_power(alloc, k);
        }
        let power = self.power_within(alloc, k / K::P)?.frobenius(alloc)?;
        let digit = self.digit_power(alloc, k % K::P)?;
        power.product_within(alloc, &digit)
    }
}

/// Fills a list, emptied first, with the terms of the product of a term and a polynomial, given by its falling list of
/// terms, of which no term is high.
pub(crate) fn fill_multiple<K: Coeff, O: Order>(
    multiple: &mut Vec<Term<K>>,
    c: K,
    m: &Mono,
    terms: &[Term<K>],
) -> Result<(), AllocError>
    requires nonzero { K.rank c ≢ 0 }
    requires falls { IsFalling O.key (entries K.rank terms.now) }
    requires terms { AreTerms K.field (entries K.rank terms.now) }
    requires within { IsHigh (product K.field (term (K.rank c) m.now.exponents) (from_entries (entries K.rank terms.now))) → ⊥ }
    ensures value { OnOk result (from_entries (entries K.rank multiple.new.items) ≡ product K.field (term (K.rank c) m.now.exponents) (from_entries (entries K.rank terms.now))) }
    ensures falls { OnOk result (IsFalling O.key (entries K.rank multiple.new.items)) }
    ensures terms { OnOk result (AreTerms K.field (entries K.rank multiple.new.items)) }
{
    multiple.clear();
    for t in terms {
        multiple.push(Term {
            coefficient: c.mul(t.coefficient),
            monomial: m.try_mul(&t.monomial).unwrap(),
        })?;
    }
    Ok(())
}

// The k-th power of a coefficient, by repeated squares.
pub(super) fn coefficient_power<K: Coeff>(c: K, k: u64) -> K
    ensures { K.rank result ≡ field.power K.field (K.rank c) k }
{
    if k == 0 {
        return K::one();
    }
    let half = coefficient_power(c, k / 2);
    let square = half.mul(half);
    if k % 2 == 0 { square } else { c.mul(square) }
}
