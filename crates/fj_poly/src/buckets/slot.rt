//! A polynomial that is used up from its lead on.

ghost use Rattle.std.specs.Prelude.{◌≡◌, ◌≢◌, ◌<◌, ◌≤◌, IfErr, OnOk, IsTrue, ◌↔◌};
ghost use Rattle.std.specs.FinMap.{empty, from_entries, len};
ghost use Rattle.std.specs.Option.{option_map};
ghost use Rattle.fj_theory.specs.Polynomial.{IsFalling, IsPolynomial, lead, sum, term};
ghost use Rattle.fj_poly.specs.Slots.{IsBelow, IsUpTo};
ghost use Rattle.fj_poly.specs.Terms.{AreTerms, entries};

use crate::poly::Term;
use crate::poly::merge::merge_terms;
use fj_coeff::Coeff;
use fj_mono::{Mono, Order};
use std::alloc::{AllocError, Global};
use std::marker::{Model, PhantomData};
use std::mem;

/// A polynomial as a falling list of terms of which those before the place `start` are gone.
#[derive(Drop)]
pub(crate) struct Slot<K: Coeff, O: Order> {
    terms: Vec<Term<K>>,
    start: usize,
    order: PhantomData<O>,
}

impl<K: Coeff, O: Order> Model for Slot<K, O> {
    ghost use Rattle.std.specs.Prelude.{ℕ, ◌≤◌, drop, length};
    ghost use Rattle.std.specs.Coded.{coded_ℕ, coded_list};
    ghost use Rattle.std.specs.FinMap.{code, from_entries};
    ghost use Rattle.fj_theory.specs.Polynomial.{Polynomial, IsFalling};
    ghost use Rattle.fj_poly.specs.Terms.{AreTerms, entries};

    ghost Value = { Polynomial };

    ghost coded = { code (coded_list coded_ℕ) coded_ℕ };

    ghost view = { λ s. from_entries (entries K.rank (drop s.start s.terms.items)) };

    ghost invariant = { λ s. (s.start ≤ length s.terms.items) × IsFalling O.key (entries K.rank (drop s.start s.terms.items)) × AreTerms K.field (entries K.rank (drop s.start s.terms.items)) };
}

impl<K: Coeff, O: Order> Slot<K, O> {
    /// The slot that holds zero.
    pub(crate) fn new(alloc: Global) -> Slot<K, O>
        ensures { result ≡ empty }
    {
        Slot {
            terms: Vec::new(alloc),
            start: 0,
            order: PhantomData,
        }
    }

    /// The terms that are left, falling.
    pub(crate) fn terms(&self) -> &[Term<K>]
        ensures value { from_entries (entries K.rank result.now) ≡ self.now }
        ensures falls { IsFalling O.key (entries K.rank result.now) }
        ensures terms { AreTerms K.field (entries K.rank result.now) }
    {
        &self.terms[self.start..]
    }

    /// The monomial of the lead. `None` exactly for zero.
    pub(crate) fn lead(&self) -> Option<&Mono>
        ensures lead { option_map (λ m. m.now.exponents) result ≡ option_map (λ t. t.0) (lead O.key self.now) }
        ensures polynomial { IsPolynomial K.field self.now }
    {
        let t = self.terms().first()?;
        Some(&t.monomial)
    }

    // Whether the lead's monomial is m.
    fn has_lead(&self, m: &Mono) -> bool
        ensures lead { IsTrue result ↔ (option_map (λ t. t.0) (lead O.key self.now) ≡ Some m.now.exponents) }
        ensures polynomial { IsPolynomial K.field self.now }
    {
        match self.lead() {
            Some(lead) => lead == m,
            None => false,
        }
    }

    /// Makes the polynomial zero.
    pub(crate) fn clear(&mut self)
        ensures { self.new ≡ empty }
    {
        self.terms.clear();
        self.start = 0;
    }

    /// Takes the leading term out and answers it.
    pub(crate) fn pop(&mut self) -> (K, Mono)
        requires { self.old ≢ empty }
        ensures lead { lead O.key self.old ≡ Some (result.1.exponents, K.rank result.0) }
        ensures value { self.old ≡ sum K.field (term (K.rank result.0) result.1.exponents) self.new }
        ensures below { IsBelow O.key result.1.exponents self.new }
        ensures fewer { len self.new < len self.old }
        ensures polynomial { IsPolynomial K.field self.new }
    {
        prove!(self.start < self.terms.len());
        let t = self.terms[self.start];
        self.start += 1;
        (t.coefficient, t.monomial)
    }

    /// Takes out the term at the monomial, which no term is above, and answers its coefficient, zero where there is none.
    pub(crate) fn take(&mut self, m: &Mono) -> K
        requires { IsUpTo O.key m.now.exponents self.old }
        ensures value { self.old ≡ sum K.field (term (K.rank result) m.now.exponents) self.new }
        ensures below { IsBelow O.key m.now.exponents self.new }
        ensures fewer { len self.new ≤ len self.old }
        ensures polynomial { IsPolynomial K.field self.new }
    {
        if self.has_lead(m) {
            let (coefficient, _) = self.pop();
            coefficient
        } else {
            K::zero()
        }
    }

    /// Adds the polynomial of a falling list of terms. The list `spare` gives and gets memory. After want of memory the
    /// polynomial is as before.
    pub(crate) fn merge(
        &mut self,
        spare: &mut Vec<Term<K>>,
        others: &[Term<K>],
    ) -> Result<(), AllocError>
        requires falls { IsFalling O.key (entries K.rank others.now) }
        requires terms { AreTerms K.field (entries K.rank others.now) }
        ensures value { OnOk result (self.new ≡ sum K.field self.old (from_entries (entries K.rank others.now))) }
        ensures unchanged { IfErr result (λ _. self.new ≡ self.old) }
        ensures polynomial { IsPolynomial K.field self.new }
        ensures others { IsPolynomial K.field (from_entries (entries K.rank others.now)) }
    {
        merge_terms::<K, O>(spare, self.terms(), others)?;
        mem::swap(&mut self.terms, spare);
        self.start = 0;
        Ok(())
    }
}
