//! Sums taken out of buckets term by term, and indices of leads.

use crate::rows::{mono, number, poly};
use fj_basis::Leads;
use fj_coeff::{Coeff, Fp};
use fj_mono::{Grevlex, Lex, Order};
use fj_poly::Buckets;
use std::alloc::Global;
use std::process::Abort;
use std::test::Fail;

// A polynomial in x and y: the exponents and the coefficient of each term.
type Terms<'a> = &'a [([u64; 2], u64)];

// The sum of these polynomials is taken out of buckets in these terms, and then nothing is left.
fn are_taken<K: Coeff, O: Order>(
    rt: &impl Abort,
    alloc: Global,
    summands: &[Terms],
    terms: Terms,
) -> Result<(), Fail> {
    let mut buckets: Buckets<K, O> = Buckets::new(alloc);
    for summand in summands {
        buckets.add(poly(rt, alloc, summand)?)?;
    }
    for (e, n) in terms {
        let lead = buckets.take_lead()?;
        assert!(rt; lead == Some((number(*n), mono(rt, e))));
    }
    assert!(rt; buckets.take_lead()?.is_none());
    Ok(())
}

// Modulo 2 x added twice is zero, and so is the sum of two equal sums.
#[test]
fn cancelled_terms(rt: HostRuntime) -> Result<(), Fail> {
    let alloc = rt.alloc();
    let x: Terms = &[([1, 0], 1)];
    let sum: Terms = &[([1, 0], 1), ([0, 1], 1), ([0, 0], 1)];
    are_taken::<Fp<2>, Grevlex>(&rt, alloc, &[x, x], &[])?;
    are_taken::<Fp<2>, Grevlex>(&rt, alloc, &[sum, sum], &[])?;
    are_taken::<Fp<2>, Grevlex>(&rt, alloc, &[x, sum, x], sum)
}

// Modulo 5 (x^2 + 2*x*y + y^2) + (4*x^2 + 3*y + 1) + (x*y + 2*y^3) is 2*y^3 + 3*x*y + y^2 + 3*y + 1: x^2 cancels.
#[test]
fn sums_of_several(rt: HostRuntime) -> Result<(), Fail> {
    let alloc = rt.alloc();
    let square: Terms = &[([2, 0], 1), ([1, 1], 2), ([0, 2], 1)];
    let second: Terms = &[([2, 0], 4), ([0, 1], 3), ([0, 0], 1)];
    let third: Terms = &[([1, 1], 1), ([0, 3], 2)];
    let by_degree: Terms = &[
        ([0, 3], 2),
        ([1, 1], 3),
        ([0, 2], 1),
        ([0, 1], 3),
        ([0, 0], 1),
    ];
    let by_words: Terms = &[
        ([1, 1], 3),
        ([0, 3], 2),
        ([0, 2], 1),
        ([0, 1], 3),
        ([0, 0], 1),
    ];
    are_taken::<Fp<5>, Grevlex>(&rt, alloc, &[square, second, third], by_degree)?;
    are_taken::<Fp<5>, Lex>(&rt, alloc, &[third, square, second], by_words)
}

// Many short summands go from slot to slot: 1 + x + .. + x^39, added one by one, falls from x^39 to 1.
#[test]
fn sums_of_many(rt: HostRuntime) -> Result<(), Fail> {
    let alloc = rt.alloc();
    let mut buckets: Buckets<Fp<7>, Grevlex> = Buckets::new(alloc);
    for k in 0..40 {
        buckets.add(poly(&rt, alloc, &[([k, 0], 1)])?)?;
    }
    for k in 1..41 {
        assert!(rt; buckets.take_lead()? == Some((number(1), mono(&rt, &[40 - k, 0]))));
    }
    assert!(rt; buckets.take_lead()?.is_none());
    Ok(())
}

// Of x^2, x*y and x the first divides x^2*y, the second x*y and none y^2, which y does when it is appended.
#[test]
fn first_divisors(rt: HostRuntime) -> Result<(), Fail> {
    let list = [mono(&rt, &[2, 0]), mono(&rt, &[1, 1]), mono(&rt, &[1, 0])];
    let mut leads = Leads::of(rt.alloc(), &list)?;
    assert_eq!(rt; leads.first(&mono(&rt, &[2, 1])), Some(0));
    assert_eq!(rt; leads.next(1, &mono(&rt, &[2, 1])), Some(1));
    assert_eq!(rt; leads.first(&mono(&rt, &[1, 1])), Some(1));
    assert_eq!(rt; leads.next(3, &mono(&rt, &[1, 1])), None);
    assert_eq!(rt; leads.first(&mono(&rt, &[0, 2])), None);
    leads.push(&mono(&rt, &[0, 1]))?;
    assert_eq!(rt; leads.first(&mono(&rt, &[0, 2])), Some(3));
    Ok(())
}
