//! Polynomials that anyone may make: terms with ranks, in any order.
ghost use Rattle.std.specs.Prelude.{◌≡◌, ◌≢◌, ◌<◌, ◌≤◌, ◌^◌, ◌↔◌, length, sum, slice_get, All, AllPairs, IfSome, IsSome, IsTrue, Some};
ghost use Rattle.fj_theory.specs.Plain.{IsPlain, HasRanksBelow};
ghost use Rattle.fj_theory.specs.Certificate.{IsResidue};
ghost use Rattle.fj_theory.specs.MonomialOrder.{compare_by};
ghost use Rattle.fj_plain.specs.Terms.{entry, entries};
ghost use Rattle.fj_plain.specs.TermKey.{term_key};

use crate::order_name::OrderName;
use crate::term::{PlainTerm, TOTAL_LIMIT};
use std::cmp::Ordering;
use std::marker::Model;

/// A polynomial over a field GF(p) that isn't named here, as a list of terms in any order: no total is above 2^41, no
/// rank is zero, and no two terms have the same exponents.
#[derive(Debug, Drop)]
pub struct PlainPoly {
    terms: Vec<PlainTerm>,
    ghost plain: { IsPlain (entries terms.items) },
}

impl Model for PlainPoly {
    ghost use Rattle.fj_theory.specs.Plain.{PlainPolynomial};
    ghost use Rattle.fj_plain.specs.PlainCode.{plain_code};
    ghost use Rattle.fj_plain.specs.Terms.{entries};

    ghost Value = { PlainPolynomial };

    ghost coded = { plain_code };

    ghost view = { λ f. record { terms = entries f.terms.items; plain = f.plain } };
}

impl PlainPoly {
    /// The polynomial with these terms, in this order, whose ranks are those of coefficients in GF(p). `None` exactly
    /// where a total is above 2^41, two terms have the same exponents, or a rank is 0 or at least p.
    pub fn of(terms: Vec<PlainTerm>, p: u64) -> Option<PlainPoly>
        ensures plain { IsSome result ↔ (IsPlain (entries terms.items) × All (λ t. t.rank < p) terms.items) }
        ensures same { IfSome result (λ f. f.terms ≡ entries terms.items) }
        ensures below { IfSome result (HasRanksBelow p) }
    {
        if !are_terms(&terms, p) {
            return None;
        }
        if !are_distinct(&terms) {
            return None;
        }
        Some(PlainPoly { terms })
    }

    /// The number of terms.
    pub fn len(&self) -> usize
        ensures { result ≡ length self.now.terms }
    {
        self.terms.len()
    }

    /// The term at place i.
    pub fn get(&self, i: usize) -> &PlainTerm
        requires { i < length self.now.terms }
        ensures { slice_get self.now.terms i ≡ Some (entry result.now) }
    {
        &self.terms[i]
    }

    /// Whether all ranks are those of coefficients in GF(p).
    pub(crate) fn has_ranks_below(&self, p: u64) -> bool
        ensures { IsTrue result ↔ HasRanksBelow p self.now }
    {
        are_below(&self.terms, p)
    }

    /// Whether the polynomial is one term of rank 1 with exponents below q.
    pub(crate) fn is_residue(&self, q: u64) -> bool
        ensures { IsTrue result ↔ IsResidue q self.now }
    {
        match self.terms.as_slice() {
            [term] => term.rank == 1 && term.exps.iter().all(|k| *k < q),
            _ => false,
        }
    }
}

// Whether all ranks are below p.
fn are_below(terms: &[PlainTerm], p: u64) -> bool
    ensures { IsTrue result ↔ All (λ t. t.rank < p) terms.now }
{
    terms.iter().all(|term| term.rank < p)
}

// Whether each total is at most 2^41, and each rank that of a coefficient in GF(p) that isn't zero.
fn are_terms(terms: &[PlainTerm], p: u64) -> bool
    ensures { IsTrue result ↔ All (λ t. (sum t.exps ≤ 2 ^ 41) × (0 < t.rank) × (t.rank < p)) terms.now }
{
    terms.iter().all(|term| is_term(term, p))
}

// Whether the total is at most 2^41, and the rank is that of a coefficient in GF(p) that isn't zero.
fn is_term(term: &PlainTerm, p: u64) -> bool
    ensures { IsTrue result ↔ ((sum term.now.exps ≤ 2 ^ 41) × (0 < term.now.rank) × (term.now.rank < p)) }
{
    let total: u128 = term.exps.iter().map(|k| u128::from(*k)).sum();
    total <= u128::from(TOTAL_LIMIT) && term.rank > 0 && term.rank < p
}

// Whether no two terms have the same exponents. In a list that falls or rises in an order, neighbours are compared
// alone.
fn are_distinct(terms: &[PlainTerm]) -> bool
    requires { All (λ t. sum t.exps ≤ 2 ^ 41) terms.now }
    ensures { IsTrue result ↔ AllPairs (λ s t. s.exps ≢ t.exps) terms.now }
{
    falls_or_rises(OrderName::Grevlex, terms)
        || falls_or_rises(OrderName::Lex, terms)
        || falls_or_rises(OrderName::Grlex, terms)
        || falls_or_rises(OrderName::Elim, terms)
        || differ_pairwise(terms)
}

// Whether the exponents fall or rise strictly in an order, so that no two are the same.
fn falls_or_rises(order: OrderName, terms: &[PlainTerm]) -> bool
    requires { All (λ t. sum t.exps ≤ 2 ^ 41) terms.now }
    ensures { IsTrue result → AllPairs (λ s t. s.exps ≢ t.exps) terms.now }
{
    if terms.len() < 2 {
        return true;
    }
    let direction = compare(order, terms[0].exps, terms[1].exps);
    if direction == Ordering::Equal {
        return false;
    }
    for i in 1..terms.len() {
        let last = terms[i - 1];
        let next = terms[i];
        if compare(order, last.exps, next.exps) != direction {
            return false;
        }
    }
    true
}

// How two exponent lists compare by their keys.
fn compare(order: OrderName, a: [u64; 8], b: [u64; 8]) -> Ordering
    requires first { sum a ≤ 2 ^ 41 }
    requires second { sum b ≤ 2 ^ 41 }
    ensures { result ≡ compare_by (term_key order) a b }
{
    key(order, a).cmp(&key(order, b))
}

// The key of an exponent list in an order.
fn key(order: OrderName, exps: [u64; 8]) -> [u64; 9]
    requires { sum exps ≤ 2 ^ 41 }
    ensures { result ≡ term_key order exps }
{
    let total: u64 = exps.iter().sum();
    let [a, b, c, d, e, f, g, h] = exps;
    match order {
        OrderName::Lex => [a, b, c, d, e, f, g, h, 0],
        OrderName::Grlex => [total, a, b, c, d, e, f, g, h],
        OrderName::Grevlex => [TOTAL_LIMIT - total, h, g, f, e, d, c, b, a],
        OrderName::Elim => [u64::MAX - h, TOTAL_LIMIT - total, g, f, e, d, c, b, a],
    }
}

// Whether no two terms have the same exponents, by comparing each two.
fn differ_pairwise(terms: &[PlainTerm]) -> bool
    ensures { IsTrue result ↔ AllPairs (λ s t. s.exps ≢ t.exps) terms.now }
{
    for (i, term) in terms.iter().enumerate() {
        if !lacks_exponents(&terms[..i], term.exps) {
            return false;
        }
    }
    true
}

// Whether no term has these exponents.
fn lacks_exponents(terms: &[PlainTerm], exps: [u64; 8]) -> bool
    ensures { IsTrue result ↔ All (λ t. t.exps ≢ exps) terms.now }
{
    terms.iter().all(|term| term.exps != exps)
}
