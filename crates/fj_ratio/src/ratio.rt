//! Fractions in lowest terms.
ghost use Rattle.std.specs.Prelude.{◌≡◌, ◌+◌, ◌*◌, ◌<◌, ◌≤◌, ◌^◌, ◌↔◌, ℕ, IfOk, IsErrOf};
ghost use Rattle.std.specs.Int.{IsGcd};
ghost use Rattle.fj_theory.specs.Fraction.{IsInUnitInterval, IsLowest, ceil_times, compare, plus_whole};
ghost use Rattle.fj_ratio.specs.Lowest.{IsLowestForm, IsTooWide};

use std::cmp::Ordering;
use std::marker::Model;
use thiserror::Error;

/// Why two numbers are no `Ratio`.
#[derive(Clone, Copy, Debug, PartialEq, Eq, Error)]
pub enum RatioFault {
    #[error("the denominator is zero")]
    Zero,
    #[error("in lowest terms the numerator or the denominator is too large")]
    TooWide,
}

/// A nonnegative fraction in lowest terms, with a numerator below 2^32 and a denominator below 2^16.
#[derive(Clone, Copy, Debug)]
pub struct Ratio {
    num: u32,
    den: u16,
    ghost positive: { 0 < den },
}

impl Model for Ratio {
    ghost use Rattle.std.specs.Int.{IsGcd};
    ghost use Rattle.fj_theory.specs.Fraction.{Fraction};
    ghost use Rattle.fj_ratio.specs.FractionCode.{fraction_code};

    ghost Value = { Fraction };

    ghost coded = { fraction_code };

    ghost view = { λ t. record { numerator = t.num; denominator = t.den; positive = t.positive } };

    ghost invariant = { λ t. IsGcd t.num t.den 1 };

    ghost inverse = { λ v. record { num = v.numerator; den = v.denominator; positive = v.positive } };
}

impl Ratio {
    /// The fraction num/den. `Zero` exactly where the denominator is 0; else `TooWide` exactly where in lowest terms the
    /// denominator is above 65,535 or the numerator above 2^32 - 1.
    pub fn new(num: u64, den: u64) -> Result<Ratio, RatioFault>
        ensures value { IfOk result (IsLowestForm num den) }
        ensures zero { IsErrOf result RatioFault.Zero ↔ (den ≡ 0) }
        ensures wide { IsErrOf result RatioFault.TooWide ↔ IsTooWide num den }
    {
        if den == 0 {
            return Err(RatioFault::Zero);
        }
        let (num, den) = lowest_terms(num, den);
        if num > u64::from(u32::MAX) || den > u64::from(u16::MAX) {
            return Err(RatioFault::TooWide);
        }
        Ok(Ratio {
            num: num as u32,
            den: den as u16,
        })
    }

    /// The fraction num/den.
    pub(crate) fn of(num: u32, den: u16) -> Ratio
        requires { 0 < den }
        ensures { IsLowestForm num den result }
    {
        let (num, den) = lowest_terms(u64::from(num), u64::from(den));
        Ratio {
            num: num as u32,
            den: den as u16,
        }
    }

    /// The numerator in lowest terms.
    pub fn num(&self) -> u64
        ensures value { result ≡ self.now.numerator }
        ensures narrow { result < 2 ^ 32 }
    {
        u64::from(self.num)
    }

    /// The denominator in lowest terms.
    pub fn den(&self) -> u64
        ensures value { result ≡ self.now.denominator }
        ensures narrow { result < 2 ^ 16 }
        ensures lowest { IsLowest self.now }
    {
        u64::from(self.den)
    }

    /// For a fraction t above 0, the whole number k and the fraction t' of (0, 1] with t = k + t'.
    pub fn split_whole(&self) -> (u64, Ratio)
        requires { 0 < self.now.numerator }
        ensures sum { self.now ≡ plus_whole result.1 result.0 }
        ensures unit { IsInUnitInterval result.1 }
    {
        let den = u32::from(self.den);
        let whole = (self.num - 1) / den;
        let rest = Ratio {
            num: self.num - whole * den,
            den: self.den,
        };
        (u64::from(whole), rest)
    }

    /// The least whole number that isn't below q times the fraction.
    #[tactic(auto, unfolding(fj_theory::specs::Fraction::ceil_times))]
    pub fn ceil_times(&self, q: u64) -> u128
        ensures { result ≡ ceil_times self.now q }
    {
        (u128::from(self.num) * u128::from(q)).div_ceil(u128::from(self.den))
    }
}

// The greatest common divisor.
fn gcd(mut a: u64, mut b: u64) -> u64
    ensures { IsGcd a b result }
{
    while b != 0 {
        let rest = a % b;
        a = b;
        b = rest;
    }
    a
}

// Numerator and denominator of num/den in lowest terms.
fn lowest_terms(num: u64, den: u64) -> (u64, u64)
    requires { 0 < den }
    ensures positive { 0 < result.1 }
    ensures lowest { IsGcd result.0 result.1 1 }
    ensures value { result.0 * den ≡ num * result.1 }
    ensures num_below { result.0 ≤ num }
    ensures den_below { result.1 ≤ den }
{
    let divisor = gcd(num, den);
    (num / divisor, den / divisor)
}

impl PartialEq for Ratio {
    ghost use Rattle.std.specs.Ordering.{eq_by_cmp};
    ghost use Rattle.std.specs.Cmp.{eq_by_cmp_equiv, partial_equiv_from_equiv};
    ghost use Rattle.fj_theory.specs.Fraction.{compare};
    ghost use Rattle.fj_ratio.specs.RatioLaws.{compare-IsTotalOrder};

    ghost eq = { eq_by_cmp compare };

    ghost laws = { partial_equiv_from_equiv (eq_by_cmp_equiv compare-IsTotalOrder) };

    fn eq(&self, other: &Ratio) -> bool {
        self.cmp(other) == Ordering::Equal
    }
}

impl Eq for Ratio {
    ghost use Rattle.std.specs.Cmp.{eq_by_cmp_equiv};
    ghost use Rattle.fj_ratio.specs.RatioLaws.{compare-IsTotalOrder};

    ghost laws = { eq_by_cmp_equiv compare-IsTotalOrder };
}

impl PartialOrd for Ratio {
    ghost use Rattle.std.specs.Ordering.{as_partial_cmp};
    ghost use Rattle.std.specs.Cmp.{partial_order_from_total};
    ghost use Rattle.fj_theory.specs.Fraction.{compare};
    ghost use Rattle.fj_ratio.specs.RatioLaws.{compare-IsTotalOrder};

    ghost partial_cmp = { as_partial_cmp compare };

    ghost laws = { partial_order_from_total compare-IsTotalOrder };

    fn partial_cmp(&self, other: &Ratio) -> Option<Ordering> {
        Some(self.cmp(other))
    }
}

impl Ord for Ratio {
    ghost use Rattle.std.specs.Prelude.{refl};
    ghost use Rattle.fj_theory.specs.Fraction.{compare};
    ghost use Rattle.fj_ratio.specs.RatioLaws.{compare-IsTotalOrder};

    ghost cmp = { compare };

    ghost total = { compare-IsTotalOrder };

    ghost matches_partial_cmp = { λ _ _. refl };

    ghost matches_eq = { λ _ _. refl };

    fn cmp(&self, other: &Ratio) -> Ordering {
        (u64::from(self.num) * u64::from(other.den)).cmp(
            &(u64::from(other.num) * u64::from(self.den)),
        )
    }
}
