//! Polynomials and ideals by their terms.
ghost use Rattle.std.specs.Prelude.{◌≡◌, IsTrue, All};
ghost use Rattle.fj_theory.specs.PointIdeal.{UsesFirst};

use fj_coeff::Coeff;
use fj_elim::lacks_eighth;
use fj_ideal::Ideal;
use fj_mono::Mono;
use fj_poly::{GPoly, Poly};
use std::alloc::{AllocError, Global};
use std::process::Abort;
use std::test::Fail;

/// A polynomial in x, y and z: the exponents of each term, whose coefficients are 1.
pub(crate) type Terms<'a> = &'a [[u64; 3]];

pub(crate) const ONE: Terms<'static> = &[[0, 0, 0]];

pub(crate) const X: Terms<'static> = &[[1, 0, 0]];

pub(crate) const SQUARE: Terms<'static> = &[[2, 0, 0]];

pub(crate) const XY: Terms<'static> = &[[1, 1, 0]];

pub(crate) const XZ: Terms<'static> = &[[1, 0, 1]];

pub(crate) const YZ: Terms<'static> = &[[0, 1, 1]];

pub(crate) fn poly<K: Coeff>(
    rt: &impl Abort,
    alloc: Global,
    terms: Terms,
) -> Result<GPoly<K>, AllocError> {
    let mut sum = Poly::zero(alloc);
    for [x, y, z] in terms {
        let m = Mono::new([*x, *y, *z, 0, 0, 0, 0, 0]).expect(rt, "a degree within the limit");
        sum = sum.add(alloc, &Poly::term(alloc, K::one(), &m)?)?;
    }
    Ok(sum)
}

pub(crate) fn ideal<K: Coeff>(
    rt: &impl Abort,
    alloc: Global,
    rows: &[Terms],
) -> Result<Ideal<K>, Fail> {
    let mut list = Vec::new(alloc);
    for row in rows {
        list.push(poly(rt, alloc, row)?)?;
    }
    Ok(Ideal::of_owned(alloc, list, 100)?)
}

/// The ideal of the sum of the n-th powers of the first five variables.
pub(crate) fn fermat<K: Coeff>(rt: &impl Abort, alloc: Global, n: u64) -> Result<Ideal<K>, Fail> {
    let mut sum = Poly::zero(alloc);
    for i in 0..5 {
        let mut exponents = [0; 8];
        exponents[i] = n;
        let m = Mono::new(exponents).expect(rt, "a degree within the limit");
        sum = sum.add(alloc, &Poly::term(alloc, K::one(), &m)?)?;
    }
    Ok(Ideal::of_owned(alloc, vec![in alloc; sum]?, 100)?)
}

/// Whether no polynomial of the list has the eighth variable.
pub(crate) fn lack_eighth<K: Coeff>(list: &[GPoly<K>]) -> bool
    ensures { IsTrue result → All (UsesFirst 7) list.now }
{
    list.iter().all(|g| lacks_eighth(g))
}
