//! Polynomials and lists of them from rows: for each term the exponents of its first variables, and a number for its
//! coefficient.

use fj_coeff::Coeff;
use fj_mono::{Mono, Order};
use fj_poly::Poly;
use std::alloc::{AllocError, Global};
use std::process::Abort;
use std::test::Fail;

// The sum of n ones.
pub fn number<K: Coeff>(n: u64) -> K {
    let mut sum = K::zero();
    for _ in 0..n {
        sum = sum.add(K::one());
    }
    sum
}

// The monomial with these exponents of the first variables.
pub fn mono<const N: usize>(rt: &impl Abort, first: &[u64; N]) -> Mono {
    let mut exponents = [0; 8];
    for (exponent, e) in exponents.iter_mut().zip(first) {
        *exponent = *e;
    }
    Mono::new(exponents).expect(rt, "a degree within the limit")
}

// The polynomial with these terms.
pub fn poly<K: Coeff, O: Order, const N: usize>(
    rt: &impl Abort,
    alloc: Global,
    terms: &[([u64; N], u64)],
) -> Result<Poly<K, O>, AllocError> {
    let mut sum = Poly::zero(alloc);
    for (e, n) in terms {
        let term = Poly::term(alloc, number(*n), &mono(rt, e))?;
        sum = sum.add(alloc, &term)?;
    }
    Ok(sum)
}

// The polynomials with these terms.
pub fn polys<K: Coeff, O: Order, const N: usize>(
    rt: &impl Abort,
    alloc: Global,
    rows: &[&[([u64; N], u64)]],
) -> Result<Vec<Poly<K, O>>, AllocError> {
    let mut list = Vec::new(alloc);
    for row in rows {
        list.push(poly(rt, alloc, row)?)?;
    }
    Ok(list)
}

// The polynomials of the list have these terms, in this order.
pub fn have_terms<K: Coeff, O: Order, const N: usize>(
    rt: &impl Abort,
    alloc: Global,
    list: &[Poly<K, O>],
    rows: &[&[([u64; N], u64)]],
) -> Result<(), Fail> {
    assert_eq!(rt; list.len(), rows.len());
    for (f, row) in list.iter().zip(rows) {
        assert!(rt; f.same(&poly(rt, alloc, row)?));
    }
    Ok(())
}
