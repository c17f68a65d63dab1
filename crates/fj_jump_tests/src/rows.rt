//! Polynomials, limits and exponents from rows.
ghost use Rattle.std.specs.Prelude.{IsTrue};
ghost use Rattle.fj_theory.specs.Fraction.{IsInUnitInterval};
ghost use Rattle.fj_chain.specs.Admissible.{IsAdmissible};

use fj_coeff::Coeff;
use fj_elim::lacks_eighth;
use fj_ideal::Ideal;
use fj_jump::Limits;
use fj_mono::Mono;
use fj_poly::{GPoly, Poly};
use fj_ratio::Ratio;
use std::alloc::{AllocError, Global};
use std::process::Abort;
use std::test::Fail;

/// A polynomial in x, y and z: the exponents and the coefficient of each term, over GF(p) a number below p.
pub type Terms<'a> = &'a [([u64; 3], u64)];

pub const ONE: Terms<'static> = &[([0, 0, 0], 1)];

pub const X: Terms<'static> = &[([1, 0, 0], 1)];

pub const Y: Terms<'static> = &[([0, 1, 0], 1)];

pub const FIFTH: Terms<'static> = &[([5, 0, 0], 1)];

// The sum of n ones.
fn number<K: Coeff>(n: u64) -> K {
    let mut sum = K::zero();
    for _ in 0..n {
        sum = sum.add(K::one());
    }
    sum
}

fn poly<K: Coeff>(rt: &impl Abort, alloc: Global, terms: Terms) -> Result<GPoly<K>, AllocError> {
    let mut sum = Poly::zero(alloc);
    for ([x, y, z], n) in terms {
        let m = Mono::new([*x, *y, *z, 0, 0, 0, 0, 0]).expect(rt, "a degree within the limit");
        sum = sum.add(alloc, &Poly::term(alloc, number(*n), &m)?)?;
    }
    Ok(sum)
}

// Whether limits of the polynomial may be asked for.
fn is_admissible<K: Coeff>(f: &GPoly<K>) -> bool
    ensures { IsTrue result → IsAdmissible f.now }
{
    match f.degree() {
        Some(degree) => 1 <= degree && degree <= 1000 && lacks_eighth(f),
        None => false,
    }
}

/// The limits of the polynomial with these terms.
pub fn limits<K: Coeff>(
    rt: &impl Abort,
    alloc: Global,
    terms: Terms,
    pairs: u64,
) -> Result<Limits<K>, Fail> {
    let f = poly::<K>(rt, alloc, terms)?;
    assert!(rt; is_admissible(&f));
    Ok(Limits::of(alloc, f, pairs))
}

/// The fraction num/den of (0, 1].
pub fn exponent(rt: &impl Abort, num: u64, den: u64) -> Ratio
    ensures { IsInUnitInterval result }
{
    let t = Ratio::new(num, den).expect(rt, "a narrow fraction");
    assert!(rt; 0 < t.num());
    assert!(rt; t.num() <= t.den());
    t
}

/// The reduced basis of the ideal has these members, in this order.
pub fn has_members<K: Coeff>(
    rt: &impl Abort,
    alloc: Global,
    ideal: &Ideal<K>,
    rows: &[Terms],
) -> Result<(), Fail> {
    let members = ideal.members();
    assert_eq!(rt; members.len(), rows.len());
    for (f, row) in members.iter().zip(rows) {
        assert!(rt; f.same(&poly(rt, alloc, row)?));
    }
    Ok(())
}
