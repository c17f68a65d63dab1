//! Fractions, their digits, and the candidates.
ghost use Rattle.std.specs.Prelude.{◌≤◌, ◌^◌, Contains};
ghost use Rattle.fj_coeff.specs.Field.{primes};

use fj_coeff::is_prime;
use fj_ratio::{Digits, Ratio, RatioFault, candidates};
use std::alloc::Global;
use std::cmp::Ordering;
use std::process::Abort;
use std::test::Fail;

fn ratio(rt: &impl Abort, num: u64, den: u64) -> Ratio {
    Ratio::new(num, den).expect(rt, "a narrow fraction")
}

// Each row: a numerator and a denominator, and those in lowest terms.
#[test]
fn lowest_forms(rt: HostRuntime) {
    for (num, den, lowest_num, lowest_den) in [
        (6, 8, 3, 4),
        (2, 131_070, 1, 65_535),
        (0, 5, 0, 1),
        (8, 1, 8, 1),
        (u64::MAX, u64::MAX, 1, 1),
        (4_294_967_295, 1, 4_294_967_295, 1),
    ] {
        let t = ratio(&rt, num, den);
        assert_eq!(rt; (t.num(), t.den()), (lowest_num, lowest_den));
    }
}

#[test]
fn faults(rt: HostRuntime) {
    for (num, den, fault) in [
        (1, 0, RatioFault::Zero),
        (0, 0, RatioFault::Zero),
        (1, 65_536, RatioFault::TooWide),
        (4_294_967_296, 1, RatioFault::TooWide),
        (u64::MAX, 2, RatioFault::TooWide),
    ] {
        assert!(rt; Ratio::new(num, den).is_err_and(|found| found == fault));
    }
}

// Each row: a fraction, a whole number q, and the least whole number not below their product.
#[test]
fn ceilings(rt: HostRuntime) {
    for (num, den, q, ceiling) in [
        (4, 5, 25, 20),
        (4, 5, 24, 20),
        (4, 5, 26, 21),
        (1, 3, 0, 0),
        (0, 1, 7, 0),
    ] {
        assert_eq!(rt; ratio(&rt, num, den).ceil_times(q), ceiling);
    }
    let product = u128::from(u32::MAX) * u128::from(u64::MAX);
    assert_eq!(rt; ratio(&rt, 4_294_967_295, 1).ceil_times(u64::MAX), product);
}

#[test]
fn order_by_value(rt: HostRuntime) {
    let third = ratio(&rt, 1, 3);
    let half = ratio(&rt, 1, 2);
    assert!(rt; third < half);
    assert!(rt; half < ratio(&rt, 2, 3));
    assert!(rt; half == ratio(&rt, 4, 8));
    assert!(rt; half != third);
    assert!(rt; third.cmp(&ratio(&rt, 2, 6)) == Ordering::Equal);
}

// A fraction has these digits in base p: those of the pre-period and those of the period.
fn expands(
    rt: &impl Abort,
    alloc: Global,
    p: u64,
    t: &Ratio,
    pre: &[u8],
    period: &[u8],
) -> Result<(), Fail> {
    assert!(rt; is_prime(p));
    assert!(rt; 0 < t.num());
    assert!(rt; t.num() <= t.den());
    let digits = Digits::of(alloc, p, t)?;
    assert_eq!(rt; digits.prime(), p);
    assert!(rt; digits.pre() == pre);
    assert!(rt; digits.period() == period);
    Ok(())
}

#[test]
fn expansions(rt: HostRuntime) -> Result<(), Fail> {
    let rows: &[(u64, u64, u64, &[u8], &[u8])] = &[
        (2, 1, 2, &[0], &[1]),
        (2, 1, 3, &[], &[0, 1]),
        (2, 2, 3, &[], &[1, 0]),
        (2, 1, 6, &[0], &[0, 1]),
        (5, 4, 5, &[3], &[4]),
        (7, 5, 6, &[], &[5]),
        (13, 1, 1, &[], &[12]),
        (17, 14, 17, &[13], &[16]),
        (19, 1, 3, &[], &[6]),
        (23, 2, 3, &[], &[15, 7]),
        (29, 5, 6, &[], &[24, 4]),
        (31, 1, 62, &[0], &[15]),
    ];
    for (p, num, den, pre, period) in rows {
        expands(&rt, rt.alloc(), *p, &ratio(&rt, *num, *den), pre, period)?;
    }
    Ok(())
}

// The candidates over GF(p) at e, rising.
fn lists(rt: &impl Abort, alloc: Global, p: u64, e: u32, members: &[(u64, u64)]) -> Result<(), Fail>
    requires { p ^ e ≤ 65536 }
{
    assert!(rt; is_prime(p));
    assert!(rt; 1 <= e);
    let list = candidates(alloc, p, e)?;
    assert_eq!(rt; list.len(), members.len());
    for (t, (num, den)) in list.iter().zip(members) {
        assert_eq!(rt; (t.num(), t.den()), (*num, *den));
    }
    Ok(())
}

#[test]
fn small_lists(rt: HostRuntime) -> Result<(), Fail> {
    let alloc = rt.alloc();
    lists(&rt, alloc, 2, 1, &[(1, 1)])?;
    lists(&rt, alloc, 2, 2, &[(1, 3), (1, 2), (2, 3), (1, 1)])?;
    lists(&rt, alloc, 3, 1, &[(1, 2), (1, 1)])?;
    lists(&rt, alloc, 5, 1, &[(1, 4), (1, 2), (3, 4), (1, 1)])?;
    let sixths = [(1, 6), (1, 3), (1, 2), (2, 3), (5, 6), (1, 1)];
    lists(&rt, alloc, 7, 1, &sixths)
}

// So many candidates over GF(p) at 3.
fn has_count(rt: &impl Abort, alloc: Global, p: u64, count: usize) -> Result<(), Fail>
    requires { p ^ 3 ≤ 65536 }
{
    assert!(rt; is_prime(p));
    let list = candidates(alloc, p, 3)?;
    assert_eq!(rt; list.len(), count);
    Ok(())
}

// The multiples of 1/(p^3 - 1), 1/(p^3 - p) and 1/(p^3 - p^2), of which p - 1 are in all three and p^2 - p in the last two:
// 3*p^3 - 2*p^2 - p.
#[test]
fn lists_of_great_primes(rt: HostRuntime) -> Result<(), Fail> {
    let alloc = rt.alloc();
    has_count(&rt, alloc, 17, 14_144)?;
    has_count(&rt, alloc, 19, 19_836)?;
    has_count(&rt, alloc, 23, 35_420)?;
    has_count(&rt, alloc, 29, 71_456)?;
    has_count(&rt, alloc, 31, 87_420)
}

// The longest list.
#[test]
fn longest_list(rt: HostRuntime) -> Result<(), Fail> {
    assert!(rt; is_prime(2));
    let list = candidates(rt.alloc(), 2, 16)?;
    assert_eq!(rt; list.len(), 925_468);
    Ok(())
}
