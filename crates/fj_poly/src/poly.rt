//! Polynomials as lists of terms that fall in an order.
ghost use Rattle.std.specs.Prelude.{◌≡◌, ◌≢◌, ◌<◌, ◌↔◌, ◌++◌, ◌∷◌, [], All, IfOk, IfErr, IsTrue, length, slice_get};
ghost use Rattle.std.specs.Option.{option_map};
ghost use Rattle.std.specs.declared.cmp.Ordering.TheVariants.{Greater};
ghost use Rattle.std.specs.FinMap.{empty, from_entries, len};
ghost use Rattle.fj_theory.specs.MonomialOrder.{compare_by};
ghost use Rattle.fj_theory.specs.Polynomial.{IsFalling, IsPolynomial, coefficient, degree, lead, sum, term, terms_falling};
ghost use Rattle.fj_poly.specs.Limit.{IsHigh};
ghost use Rattle.fj_poly.specs.Slots.{without_lead};
ghost use Rattle.fj_poly.specs.Terms.{AreTerms, entries};

mod adding;
mod difference;
mod graded;
pub(crate) mod merge;
mod plain;
pub(crate) mod point;
pub(crate) mod product;
mod reordering;

use self::merge::merge_terms;
use fj_coeff::Coeff;
use fj_mono::{Grevlex, Mono, Order};
use std::alloc::{AllocError, Global};
use std::cmp::Ordering;
use std::marker::{Model, PhantomData};

/// A term: a nonzero coefficient times a monomial.
#[derive(Clone, Copy, PartialEq, Eq)]
pub(crate) struct Term<K: Coeff> {
    pub(crate) coefficient: K,
    pub(crate) monomial: Mono,
}

/// A polynomial in eight variables over K, a finite map from exponent lists to nonzero coefficients. Its terms are kept
/// falling in the order O.
#[derive(Drop)]
pub struct Poly<K: Coeff, O: Order> {
    terms: Vec<Term<K>>,
    order: PhantomData<O>,
}

/// A polynomial whose terms fall in Grevlex.
pub type GPoly<K> = Poly<K, Grevlex>;

impl<K: Coeff, O: Order> Model for Poly<K, O> {
    ghost use Rattle.std.specs.Prelude.{ℕ};
    ghost use Rattle.std.specs.Coded.{coded_ℕ, coded_list};
    ghost use Rattle.std.specs.FinMap.{code, from_entries};
    ghost use Rattle.fj_theory.specs.Polynomial.{Polynomial, IsFalling};
    ghost use Rattle.fj_poly.specs.Terms.{AreTerms, entries};

    ghost Value = { Polynomial };

    ghost coded = { code (coded_list coded_ℕ) coded_ℕ };

    ghost view = { λ p. from_entries (entries K.rank p.terms.items) };

    ghost invariant = { λ p. IsFalling O.key (entries K.rank p.terms.items) × AreTerms K.field (entries K.rank p.terms.items) };
}

#[tactic(auto, using(crate::proofs::View::polynomial_seen))]
impl<K: Coeff, O: Order> Poly<K, O> {
    /// The zero polynomial.
    pub fn zero(alloc: Global) -> Poly<K, O>
        ensures { result ≡ empty }
    {
        Poly {
            terms: Vec::new(alloc),
            order: PhantomData,
        }
    }

    /// The polynomial c*m, which is zero where c is zero.
    pub fn term(alloc: Global, c: K, m: &Mono) -> Result<Poly<K, O>, AllocError>
        ensures value { IfOk result (λ p. p ≡ term (K.rank c) m.now.exponents) }
        ensures polynomial { IfOk result (IsPolynomial K.field) }
    {
        let mut terms = Vec::new(alloc);
        if c != K::zero() {
            terms.push(Term {
                coefficient: c,
                monomial: *m,
            })?;
        }
        Ok(Poly {
            terms,
            order: PhantomData,
        })
    }

    /// Puts the term c*m, which is below all terms in O, at the end.
    pub fn push_term(&mut self, c: K, m: &Mono) -> Result<(), AllocError>
        requires nonzero { K.rank c ≢ 0 }
        requires below { All (λ t. compare_by O.key t.0 m.now.exponents ≡ Greater) (terms_falling O.key self.old) }
        ensures value { IfOk result (λ _. self.new ≡ sum K.field self.old (term (K.rank c) m.now.exponents)) }
        ensures terms { IfOk result (λ _. terms_falling O.key self.new ≡ terms_falling O.key self.old ++ (m.now.exponents, K.rank c) ∷ []) }
        ensures unchanged { IfErr result (λ _. self.new ≡ self.old) }
        ensures polynomial { IsPolynomial K.field self.new }
    {
        self.terms.push(Term {
            coefficient: c,
            monomial: *m,
        })?;
        Ok(())
    }

    /// The sum.
    pub fn add(&self, alloc: Global, o: &Poly<K, O>) -> Result<Poly<K, O>, AllocError>
        ensures value { IfOk result (λ p. p ≡ sum K.field self.now o.now) }
        ensures first { IsPolynomial K.field self.now }
        ensures second { IsPolynomial K.field o.now }
        ensures polynomial { IfOk result (IsPolynomial K.field) }
    {
        let count = self.terms.len().saturating_add(o.terms.len());
        let mut terms = Vec::with_capacity(alloc, count)?;
        merge_terms::<K, O>(&mut terms, self.terms.as_slice(), o.terms.as_slice())?;
        Ok(Poly {
            terms,
            order: PhantomData,
        })
    }

    // The terms, falling.
    pub(crate) fn terms(&self) -> &[Term<K>]
        ensures value { from_entries (entries K.rank result.now) ≡ self.now }
        ensures falls { IsFalling O.key (entries K.rank result.now) }
        ensures terms { AreTerms K.field (entries K.rank result.now) }
    {
        self.terms.as_slice()
    }

    // The terms after the first, falling.
    pub(crate) fn later_terms(&self) -> &[Term<K>]
        requires { self.now ≢ empty }
        ensures value { from_entries (entries K.rank result.now) ≡ without_lead K.field O.key self.now }
        ensures falls { IsFalling O.key (entries K.rank result.now) }
        ensures terms { AreTerms K.field (entries K.rank result.now) }
    {
        &self.terms[1..]
    }

    /// The lead: the coefficient and the monomial of the greatest term in O. `None` exactly for zero.
    pub fn lead(&self) -> Option<(K, Mono)>
        ensures lead { option_map (λ found. (found.1.exponents, K.rank found.0)) result ≡ lead O.key self.now }
        ensures polynomial { IsPolynomial K.field self.now }
    {
        let t = self.terms.first()?;
        Some((t.coefficient, t.monomial))
    }

    /// The coefficient at m, zero where there is no such term.
    pub fn coeff(&self, m: &Mono) -> K
        ensures { K.rank result ≡ coefficient self.now m.now.exponents }
    {
        let place = |t: &Term<K>| -> Ordering
            ensures { result ≡ compare_by O.key m.entry.now.exponents t.now.monomial.exponents }
        { O::cmp(m, &t.monomial) };
        match self.terms.binary_search_by(place) {
            Ok(i) => self.terms[i].coefficient,
            Err(_) => K::zero(),
        }
    }

    /// Whether the polynomial is zero.
    pub fn is_zero(&self) -> bool
        ensures zero { IsTrue result ↔ (self.now ≡ empty) }
        ensures polynomial { IsPolynomial K.field self.now }
    {
        self.terms.is_empty()
    }

    /// The total degree, in eight variables. `None` exactly for zero.
    pub fn degree(&self) -> Option<u64>
        ensures value { result ≡ degree self.now }
        ensures limit { IsHigh self.now → ⊥ }
        ensures polynomial { IsPolynomial K.field self.now }
    {
        let mut greatest = None;
        for t in self.terms.as_slice() {
            let total = t.monomial.total();
            greatest = Some(greatest.map_or(total, |highest| total.max(highest)));
        }
        greatest
    }

    /// Whether the two polynomials are equal.
    pub fn same(&self, o: &Poly<K, O>) -> bool
        ensures { IsTrue result ↔ (self.now ≡ o.now) }
    {
        self.terms == o.terms
    }

    /// The number of terms.
    pub fn len(&self) -> usize
        ensures count { result ≡ len self.now }
        ensures terms { result ≡ length (terms_falling O.key self.now) }
        ensures polynomial { IsPolynomial K.field self.now }
    {
        self.terms.len()
    }

    /// The coefficient and the monomial of the term at place i, counted from 0, the terms falling in O.
    pub fn at(&self, i: usize) -> (K, Mono)
        requires { i < len self.now }
        ensures term { slice_get (terms_falling O.key self.now) i ≡ Some (result.1.exponents, K.rank result.0) }
        ensures polynomial { IsPolynomial K.field self.now }
    {
        let t = &self.terms[i];
        (t.coefficient, t.monomial)
    }
}
