//! The numbers of questions, and their limits.
ghost use Rattle.std.specs.Prelude.{◌≡◌, ◌<◌, ◌≤◌, ◌^◌, nat_lt, Contains, IfOk};
ghost use Rattle.fj_coeff.specs.Field.{primes};
ghost use Rattle.fj_script.specs.Numbers.{exponent, level, ratio, ratio_of, within};
ghost use Rattle.fj_script.specs.Seen.{Gives};

use super::fault::{FaultKind, LineFault, fault_at};
use super::items::narrow;
use fj_ratio::Ratio;
use fj_text::Reader;

/// The greatest e.
const MAX_EXPONENT: u64 = 12;

/// The most candidates' denominators: the greatest p^E.
const MAX_POWER: u64 = 65536;

/// The greatest t.
const MAX_RATIO: u64 = 8;

/// The number that has to be next, from low to high.
#[tactic(auto, unfolding(crate::specs::Numbers::within))]
pub(crate) fn within(low: u64, high: u64, reader: &mut Reader) -> Result<u64, LineFault>
    ensures gives { Gives (λ n. n) result reader.new (within low high reader.old) }
    ensures low { IfOk result (λ n. low ≤ n) }
    ensures high { IfOk result (λ n. n ≤ high) }
{
    let n = narrow(reader)?;
    if n < low || n > high {
        return Err(fault_at(FaultKind::Range, reader));
    }
    Ok(n)
}

/// e, from 0 to 12.
#[tactic(auto, unfolding(crate::specs::Numbers::exponent))]
pub(crate) fn exponent(reader: &mut Reader) -> Result<u32, LineFault>
    ensures { Gives (λ n. n) result reader.new (exponent reader.old) }
{
    let e = within(0, MAX_EXPONENT, reader)?;
    Ok(e as u32)
}

/// Whether p^n is above 65,536.
fn is_high(p: u64, n: u32) -> bool
    requires { Contains primes p }
    ensures { result ≡ nat_lt 65536 (p ^ n) }
{
    match p.checked_pow(n) {
        Some(power) => power > MAX_POWER,
        None => true,
    }
}

/// E, at least 1, with p^E at most 65,536.
#[tactic(auto, unfolding(crate::specs::Numbers::level))]
pub(crate) fn level(p: u64, reader: &mut Reader) -> Result<u32, LineFault>
    requires { Contains primes p }
    ensures { Gives (λ n. n) result reader.new (level p reader.old) }
{
    let n = narrow(reader)? as u32;
    if n == 0 || is_high(p, n) {
        return Err(fault_at(FaultKind::Range, reader));
    }
    Ok(n)
}

/// The fraction of two numbers, from 0 to 8, or above 0, where its denominator in lowest terms is at most 65,535.
#[tactic(auto, unfolding(crate::specs::Numbers::ratio_of))]
fn ratio_of(positive: bool, m: u64, n: u64, reader: &Reader) -> Result<Ratio, LineFault>
    requires first { m < 2 ^ 32 }
    requires last { n < 2 ^ 32 }
    ensures { Gives (λ t. t) result reader.now (ratio_of positive m n reader.now) }
{
    let Ok(t) = Ratio::new(m, n) else {
        return Err(fault_at(FaultKind::Range, reader));
    };
    if t.num() > MAX_RATIO * t.den() || positive && t.num() == 0 {
        return Err(fault_at(FaultKind::Range, reader));
    }
    Ok(t)
}

/// t, a number, or two with a `/` between them.
#[tactic(auto, unfolding(crate::specs::Numbers::ratio))]
pub(crate) fn ratio(positive: bool, reader: &mut Reader) -> Result<Ratio, LineFault>
    ensures { Gives (λ t. t) result reader.new (ratio positive reader.old) }
{
    let m = narrow(reader)?;
    if !reader.take_sign(b'/') {
        return ratio_of(positive, m, 1, reader);
    }
    let n = narrow(reader)?;
    ratio_of(positive, m, n, reader)
}
