//! Sums and products of plain polynomials.
ghost use Rattle.std.specs.Prelude.{◌≡◌, Contains, IfOk};
ghost use Rattle.fj_coeff.specs.Field.{primes};
ghost use Rattle.fj_theory.specs.Plain.{HasRanksBelow, plain_sum as sum_terms, plain_product as product_terms};
ghost use Rattle.fj_plain.specs.Terms.{entries};

use crate::plain::PlainPoly;
use crate::tally::Tally;
use crate::term::PlainTerm;
use std::alloc::{AllocError, Global};

/// The terms of the sum over GF(p), by rising exponents in Lex.
pub fn plain_sum(
    alloc: Global,
    p: u64,
    a: &PlainPoly,
    b: &PlainPoly,
) -> Result<Vec<PlainTerm>, AllocError>
    requires prime { Contains primes p }
    requires first { HasRanksBelow p a.now }
    requires second { HasRanksBelow p b.now }
    ensures { IfOk result (λ v. entries v.items ≡ sum_terms p a.now b.now) }
{
    let mut sum = Tally::new(alloc);
    sum.add(p, a)?;
    sum.add(p, b)?;
    sum.terms(alloc)
}

/// The terms of the product over GF(p), by rising exponents in Lex.
pub fn plain_product(
    alloc: Global,
    p: u64,
    a: &PlainPoly,
    b: &PlainPoly,
) -> Result<Vec<PlainTerm>, AllocError>
    requires prime { Contains primes p }
    requires first { HasRanksBelow p a.now }
    requires second { HasRanksBelow p b.now }
    ensures { IfOk result (λ v. entries v.items ≡ product_terms p a.now b.now) }
{
    let mut sum = Tally::new(alloc);
    sum.add_product(p, a, b)?;
    sum.terms(alloc)
}
