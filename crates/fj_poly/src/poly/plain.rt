//! Polynomials from and to plain ones.
ghost use Rattle.std.specs.Prelude.{◌≡◌, ◌<◌, ◌≤◌, ◌^◌, All, IfOk};
ghost use Rattle.std.specs.List.Sorted.{IsPermutation, IsSortedBy};
ghost use Rattle.std.specs.Ordering.{is_lt};
ghost use Rattle.fj_theory.specs.Exponents.{total};
ghost use Rattle.fj_theory.specs.MonomialOrder.{compare_by};
ghost use Rattle.fj_theory.specs.Plain.{HasRanksBelow, polynomial};
ghost use Rattle.fj_theory.specs.Polynomial.{IsPolynomial, terms_falling};
ghost use Rattle.fj_plain.specs.Terms as plain;
ghost use Rattle.fj_poly.specs.Terms.{entries, entry};

use super::{Poly, Term};
use fj_coeff::Coeff;
use fj_mono::{Mono, Order};
use fj_plain::{PlainPoly, PlainTerm};
use std::alloc::{AllocError, Global};
use std::array;
use std::marker::PhantomData;

#[tactic(auto, using(crate::proofs::View::polynomial_seen))]
impl<K: Coeff, O: Order> Poly<K, O> {
    /// The plain polynomial with the same terms, falling in O. Its ranks are below `SIZE` and its totals at most 2^40, so
    /// that `from_plain` reads it back, in whatever order.
    pub fn to_plain(&self, alloc: Global) -> Result<PlainPoly, AllocError>
        ensures terms { IfOk result (λ h. h.terms ≡ terms_falling O.key self.now) }
        ensures value { IfOk result (λ h. polynomial h ≡ self.now) }
        ensures ranks { IfOk result (HasRanksBelow K.field.size) }
        ensures totals { IfOk result (λ h. All (λ t. total t.0 ≤ 2 ^ 40) h.terms) }
        ensures polynomial { IsPolynomial K.field self.now }
    {
        let terms = plain_terms(alloc, self.terms.as_slice())?;
        Ok(PlainPoly::of(terms, K::SIZE).unwrap())
    }

    /// The polynomial with the terms of a plain one, given in any order. The ranks are those of coefficients of K, and no
    /// total is above 2^40.
    pub fn from_plain(alloc: Global, h: &PlainPoly) -> Result<Poly<K, O>, AllocError>
        requires ranks { HasRanksBelow K.field.size h.now }
        requires totals { All (λ t. total t.0 ≤ 2 ^ 40) h.now.terms }
        ensures value { IfOk result (λ p. p ≡ polynomial h.now) }
        ensures polynomial { IfOk result (IsPolynomial K.field) }
    {
        let mut terms = terms_of(alloc, h)?;
        sort_falling::<K, O>(&mut terms);
        Ok(Poly {
            terms,
            order: PhantomData,
        })
    }
}

// The terms with their coefficients as ranks.
fn plain_terms<K: Coeff>(alloc: Global, list: &[Term<K>]) -> Result<Vec<PlainTerm>, AllocError>
    ensures { IfOk result (λ v. plain.entries v.items ≡ entries K.rank list.now) }
{
    let mut terms = Vec::with_capacity(alloc, list.len())?;
    for t in list {
        terms.push(PlainTerm {
            exps: exponents(&t.monomial),
            rank: t.coefficient.rank(),
        })?;
    }
    Ok(terms)
}

// The eight exponents of a monomial.
fn exponents(m: &Mono) -> [u64; 8]
    ensures { result ≡ m.now.exponents }
{
    array::from_fn(|k| m.exp(k))
}

// The terms of a plain polynomial with ranks as coefficients.
fn terms_of<K: Coeff>(alloc: Global, h: &PlainPoly) -> Result<Vec<Term<K>>, AllocError>
    requires ranks { HasRanksBelow K.field.size h.now }
    requires totals { All (λ t. total t.0 ≤ 2 ^ 40) h.now.terms }
    ensures { IfOk result (λ v. entries K.rank v.items ≡ h.now.terms) }
{
    let mut terms = Vec::with_capacity(alloc, h.len())?;
    for i in 0..h.len() {
        terms.push(term_of(h.get(i)))?;
    }
    Ok(terms)
}

// A plain term as a term.
fn term_of<K: Coeff>(t: &PlainTerm) -> Term<K>
    requires rank { t.now.rank < K.field.size }
    requires total { total t.now.exps ≤ 2 ^ 40 }
    ensures { entry K.rank result ≡ plain.entry t.now }
{
    Term {
        coefficient: K::of_rank(t.rank),
        monomial: Mono::new(t.exps).unwrap(),
    }
}

// The same terms, falling in O.
fn sort_falling<K: Coeff, O: Order>(terms: &mut Vec<Term<K>>)
    ensures same { IsPermutation terms.old.items terms.new.items }
    ensures falls { IsSortedBy (λ s t. is_lt (compare_by O.key t.monomial.exponents s.monomial.exponents)) terms.new.items }
{
    terms.sort_unstable_by(|s, t| O::cmp(&t.monomial, &s.monomial));
}
