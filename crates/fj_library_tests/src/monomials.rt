//! Monomials and their orders.

use crate::rows::mono;
use fj_mono::{DEGREE_LIMIT, Elim, Grevlex, Grlex, High, Lex, Mono, Order};
use std::cmp::Ordering;
use std::process::Abort;

#[test]
fn limit_of_the_degree(rt: HostRuntime) {
    assert!(rt; Mono::new([DEGREE_LIMIT, 0, 0, 0, 0, 0, 0, 0]).is_ok());
    assert!(rt; Mono::new([DEGREE_LIMIT, 0, 0, 0, 0, 0, 0, 1]).is_err());
    assert!(rt; Mono::new([u64::MAX; 8]).is_err());
    assert!(rt; Mono::new([1, 0, 2, 0, 0, 0, 0, 4]).is_ok_and(|m| m.total() == 7));
    assert_eq!(rt; Mono::one().total(), 0);
}

// x^14*y*z^6 is the cube of x^4*z^2 times x^2*y.
#[test]
fn division_with_residue(rt: HostRuntime) {
    let (quotient, residue) = mono(&rt, &[14, 1, 6]).split(3);
    assert!(rt; quotient == mono(&rt, &[4, 0, 2]));
    assert!(rt; residue == mono(&rt, &[2, 1]));
    for (i, e) in [4, 0, 2, 0, 0, 0, 0, 0].into_iter().enumerate() {
        assert_eq!(rt; quotient.exp(i), e);
    }
}

// x^3*y*z^2 and x*y^4: product, powers, quotient and least common multiple.
#[test]
fn products_and_quotients(rt: HostRuntime) -> Result<(), High> {
    let a = mono(&rt, &[3, 1, 2]);
    let b = mono(&rt, &[1, 4]);
    let product = mono(&rt, &[4, 5, 2]);
    assert!(rt; a.try_mul(&b)? == product);
    assert!(rt; a.try_scale(3)? == mono(&rt, &[9, 3, 6]));
    assert!(rt; a.try_scale(0)? == Mono::one());
    assert!(rt; a.lcm(&b)? == mono(&rt, &[3, 4, 2]));
    assert!(rt; !a.divides(&b));
    assert!(rt; b.divides(&product));
    assert!(rt; product.quot(&b) == a);
    Ok(())
}

#[test]
fn monomials_that_are_too_high(rt: HostRuntime) -> Result<(), High> {
    let high = mono(&rt, &[DEGREE_LIMIT]);
    let low = mono(&rt, &[1, 4]);
    assert!(rt; high.try_mul(&Mono::one())? == high);
    assert!(rt; high.try_mul(&low).is_err());
    assert!(rt; high.try_scale(u64::MAX).is_err());
    assert!(rt; high.lcm(&high)? == high);
    assert!(rt; high.lcm(&low).is_err());
    Ok(())
}

// The first of two monomials is the greater one.
fn is_above<O: Order, const N: usize>(rt: &impl Abort, first: &[u64; N], second: &[u64; N]) {
    let a = mono(rt, first);
    let b = mono(rt, second);
    assert!(rt; O::cmp(&a, &b) == Ordering::Greater);
    assert!(rt; O::cmp(&b, &a) == Ordering::Less);
    assert!(rt; O::cmp(&a, &a) == Ordering::Equal);
}

// The examples of Cox, Little and O'Shea: in Lex x^3*y^2*z^4 is above x^3*y^2*z; in Grevlex x^4*y^7*z is above
// x^4*y^2*z^3, and x^5*y*z above x^4*y*z^2. In Grlex x*y^2*z^4 is above x*y*z^5, and both are above x^5*y.
#[test]
fn textbook_orders(rt: HostRuntime) {
    is_above::<Lex, 3>(&rt, &[3, 2, 4], &[3, 2, 1]);
    is_above::<Lex, 3>(&rt, &[3, 2, 1], &[0, 9, 9]);
    is_above::<Grevlex, 3>(&rt, &[4, 7, 1], &[4, 2, 3]);
    is_above::<Grevlex, 3>(&rt, &[5, 1, 1], &[4, 1, 2]);
    is_above::<Grlex, 3>(&rt, &[1, 2, 4], &[1, 1, 5]);
    is_above::<Grlex, 3>(&rt, &[1, 1, 5], &[5, 1, 0]);
}

// The eighth variable is above each power of the others, which are in Grevlex.
#[test]
fn elimination_order(rt: HostRuntime) {
    let low = [4, 2, 3, 0, 0, 0, 0, 1];
    is_above::<Elim, 8>(&rt, &[0, 0, 0, 0, 0, 0, 0, 2], &low);
    is_above::<Elim, 8>(&rt, &low, &[4, 1, 4, 0, 0, 0, 0, 1]);
    assert_eq!(rt;
        (Lex::ROW, Grlex::ROW, Grevlex::ROW, Elim::ROW),
        (0, 1, 2, 3)
    );
}
