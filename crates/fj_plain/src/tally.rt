//! Sums over GF(p) to which terms are added one by one.
ghost use Rattle.std.specs.Prelude.{◌≡◌, ◌<◌, ◌↔◌, ◌^◌, All, Contains, IfOk, IsTrue, OnOk};
ghost use Rattle.fj_plain.specs.Terms.{entries};
ghost use Rattle.std.specs.FinMap.{empty};
ghost use Rattle.fj_coeff.specs.Field.{primes};
ghost use Rattle.fj_coeff.specs.PrimeField.{prime_field};
ghost use Rattle.fj_theory.specs.Exponents.{origin, plus, times};
ghost use Rattle.fj_theory.specs.Polynomial.{IsPolynomial, sum, product, power, term, negation};
ghost use Rattle.fj_theory.specs.Plain.{polynomial, rising_terms, HasRanksBelow};

use crate::plain::PlainPoly;
use crate::ranks::Ranks;
use crate::term::PlainTerm;
use std::alloc::{AllocError, Global};
use std::array;
use std::marker::Model;

/// A sum over GF(p) to which terms are added, seen as its polynomial. Exponents may be those of p^e-th powers.
#[derive(Drop)]
pub(crate) struct Tally {
    alloc: Global,
    ranks: Ranks,
}

impl Model for Tally {
    ghost use Rattle.std.specs.Coded.{coded_list, coded_ℕ};
    ghost use Rattle.std.specs.FinMap.{code};
    ghost use Rattle.fj_theory.specs.Exponents.{origin, plus, times};
    ghost use Rattle.fj_theory.specs.Polynomial.{Polynomial};
    ghost use Rattle.fj_plain.specs.Tallied.{by_exponents, tallied};

    ghost Value = { Polynomial };

    ghost coded = { code (coded_list coded_ℕ) coded_ℕ };

    ghost view = { λ t. tallied (by_exponents t.ranks) };
}

impl Tally {
    /// The sum of no terms.
    pub(crate) fn new(alloc: Global) -> Tally
        ensures { result ≡ empty }
    {
        Tally {
            alloc,
            ranks: Ranks::new(alloc),
        }
    }

    /// Adds a term.
    pub(crate) fn add_term(&mut self, p: u64, exps: [u128; 8], rank: u64) -> Result<(), AllocError>
        requires prime { Contains primes p }
        requires below { rank < p }
        requires over { IsPolynomial (prime_field p) self.old }
        ensures { OnOk result (self.new ≡ sum (prime_field p) self.old (term rank exps)) }
    {
        self.ranks.add(self.alloc, p, exps, rank)
    }

    /// Adds a term times the q-th power of a polynomial, where q is p^e.
    pub(crate) fn add_multiple(
        &mut self,
        p: u64,
        e: u32,
        q: u64,
        factor: &PlainTerm,
        f: &PlainPoly,
    ) -> Result<(), AllocError>
        requires prime { Contains primes p }
        requires power { q ≡ p ^ e }
        requires factor { factor.now.rank < p }
        requires below { HasRanksBelow p f.now }
        requires over { IsPolynomial (prime_field p) self.old }
        ensures { OnOk result (self.new ≡ sum (prime_field p) self.old (product (prime_field p) (term factor.now.rank factor.now.exps) (power (prime_field p) (polynomial f.now) q))) }
    {
        for i in 0..f.len() {
            let t = f.get(i);
            let exps = raised(factor.exps, q, t.exps);
            self.add_term(p, exps, factor.rank * t.rank % p)?;
        }
        Ok(())
    }

    /// Adds a polynomial.
    pub(crate) fn add(&mut self, p: u64, f: &PlainPoly) -> Result<(), AllocError>
        requires prime { Contains primes p }
        requires below { HasRanksBelow p f.now }
        requires over { IsPolynomial (prime_field p) self.old }
        ensures { OnOk result (self.new ≡ sum (prime_field p) self.old (polynomial f.now)) }
    {
        self.add_multiple(p, 0, 1, &constant(1), f)
    }

    /// Subtracts a polynomial.
    pub(crate) fn subtract(&mut self, p: u64, f: &PlainPoly) -> Result<(), AllocError>
        requires prime { Contains primes p }
        requires below { HasRanksBelow p f.now }
        requires over { IsPolynomial (prime_field p) self.old }
        ensures { OnOk result (self.new ≡ sum (prime_field p) self.old (negation (prime_field p) (polynomial f.now))) }
    {
        self.add_multiple(p, 0, 1, &constant(p - 1), f)
    }

    /// Adds the product of two polynomials.
    pub(crate) fn add_product(
        &mut self,
        p: u64,
        f: &PlainPoly,
        g: &PlainPoly,
    ) -> Result<(), AllocError>
        requires prime { Contains primes p }
        requires first { HasRanksBelow p f.now }
        requires second { HasRanksBelow p g.now }
        requires over { IsPolynomial (prime_field p) self.old }
        ensures { OnOk result (self.new ≡ sum (prime_field p) self.old (product (prime_field p) (polynomial f.now) (polynomial g.now))) }
    {
        for i in 0..f.len() {
            self.add_multiple(p, 0, 1, f.get(i), g)?;
        }
        Ok(())
    }

    /// The terms, by rising exponents in Lex.
    pub(crate) fn terms(&self, alloc: Global) -> Result<Vec<PlainTerm>, AllocError>
        requires { All (λ t. All (λ k. k < 2 ^ 64) t.0) (rising_terms self.now) }
        ensures { IfOk result (λ v. entries v.items ≡ rising_terms self.now) }
    {
        self.ranks.nonzero_terms(alloc)
    }

    /// Whether the sum is zero.
    pub(crate) fn is_zero(&self) -> bool
        ensures { IsTrue result ↔ (self.now ≡ empty) }
    {
        self.ranks.are_zero()
    }
}

// A rank times the monomial 1.
#[tactic(auto, unfolding(fj_theory::specs::Exponents::origin))]
fn constant(rank: u64) -> PlainTerm
    ensures exps { result.exps ≡ origin }
    ensures rank { result.rank ≡ rank }
{
    PlainTerm { exps: [0; 8], rank }
}

// The exponents of a term with exponents a times the q-th power of a term with exponents b.
fn raised(a: [u64; 8], q: u64, b: [u64; 8]) -> [u128; 8]
    ensures { result ≡ plus a (times q b) }
{
    array::from_fn(|k| u128::from(a[k]) + u128::from(q) * u128::from(b[k]))
}
