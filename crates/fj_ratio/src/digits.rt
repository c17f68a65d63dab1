//! The digits of a fraction in base p: those before the period, and the period.
ghost use Rattle.std.specs.Prelude.{◌≡◌, ◌+◌, ◌*◌, ◌<◌, ◌≤◌, ◌^◌, length, All, Any, Contains, IfOk};
ghost use Rattle.std.specs.Int.{IsGcd};
ghost use Rattle.fj_coeff.specs.Field.{primes};
ghost use Rattle.fj_theory.specs.Fraction.{IsInUnitInterval};
ghost use Rattle.fj_theory.specs.Digits.{IsExpansion, IsOrder};

use crate::ratio::Ratio;
use smallvec::SmallVec;
use std::alloc::{AllocError, Global};
use std::marker::Model;

/// The digits of a fraction of (0, 1] in base p, in the expansion that doesn't end in zeros: those of a pre-period, and
/// those of a period that goes on for ever.
#[derive(Drop)]
pub struct Digits {
    prime: u64,
    pre: SmallVec<u8, 16>,
    period: SmallVec<u8, 16>,
}

impl Model for Digits {
    ghost use Rattle.fj_theory.specs.Digits.{Expansion};
    ghost use Rattle.fj_ratio.specs.ExpansionDigits.{AreDigits};

    ghost Value = { Expansion };

    ghost view = { λ d. record { prime = d.prime; pre = d.pre.items; period = d.period.items } };

    ghost invariant = { λ d. AreDigits (record { prime = d.prime; pre = d.pre.items; period = d.period.items }) };
}

impl Digits {
    /// The digits of t in base p.
    pub fn of(alloc: Global, p: u64, t: &Ratio) -> Result<Digits, AllocError>
        requires prime { Contains primes p }
        requires unit { IsInUnitInterval t.now }
        ensures { IfOk result (IsExpansion p t.now) }
    {
        let den = t.den();
        let (pre_count, rest) = split_power(p, den);
        let period_count = order(p, rest);
        let mut remainder = t.num();
        let mut pre = SmallVec::new(alloc);
        'pre_digits: for _ in 0..pre_count {
            let digit = next_digit(p, den, &mut remainder);
            pre.push(digit)?;
        }
        let mut period = SmallVec::new(alloc);
        'period_digits: for _ in 0..period_count {
            let digit = next_digit(p, den, &mut remainder);
            period.push(digit)?;
        }
        Ok(Digits {
            prime: p,
            pre,
            period,
        })
    }

    /// The prime p.
    pub fn prime(&self) -> u64
        ensures value { result ≡ self.now.prime }
        ensures prime { Contains primes self.now.prime }
    {
        self.prime
    }

    /// The digits of the pre-period, the most significant first.
    pub fn pre(&self) -> &[u8]
        ensures value { result.now ≡ self.now.pre }
        ensures below { All (λ k. k < self.now.prime) self.now.pre }
    {
        self.pre.as_slice()
    }

    /// The digits of the period, the most significant first.
    pub fn period(&self) -> &[u8]
        ensures value { result.now ≡ self.now.period }
        ensures below { All (λ k. k < self.now.prime) self.now.period }
        ensures not_empty { 0 < length self.now.period }
        ensures nonzero { Any (λ k. 0 < k) self.now.period }
    {
        self.period.as_slice()
    }
}

// The exponent of p in n, and what is left of n without it.
fn split_power(p: u64, n: u64) -> (u64, u64)
    requires prime { Contains primes p }
    requires positive { 0 < n }
    ensures split { n ≡ p ^ result.0 * result.1 }
    ensures prime_to { IsGcd p result.1 1 }
    ensures rest_positive { 0 < result.1 }
    ensures rest_below { result.1 ≤ n }
{
    let mut count = 0;
    let mut rest = n;
    while rest % p == 0 {
        rest /= p;
        count += 1;
    }
    (count, rest)
}

// The order of p modulo n.
fn order(p: u64, n: u64) -> u64
    requires prime { Contains primes p }
    requires prime_to { IsGcd p n 1 }
    requires positive { 0 < n }
    requires narrow { n < 2 ^ 16 }
    ensures { IsOrder p n result }
{
    let mut power = p % n;
    for k in 1..n + 1 {
        if power == 1 % n {
            return k;
        }
        power = power * p % n;
    }
    unreachable!()
}

// The next digit of remainder/n, and the remainder that it leaves.
fn next_digit(p: u64, n: u64, remainder: &mut u64) -> u8
    requires prime { Contains primes p }
    requires narrow { n < 2 ^ 16 }
    requires above_zero { 0 < remainder.old }
    requires at_most_one { remainder.old ≤ n }
    ensures step { p * remainder.old ≡ n * result + remainder.new }
    ensures above_zero { 0 < remainder.new }
    ensures at_most_one { remainder.new ≤ n }
{
    let product = p * *remainder;
    let digit = (product - 1) / n;
    *remainder = product - digit * n;
    digit as u8
}
