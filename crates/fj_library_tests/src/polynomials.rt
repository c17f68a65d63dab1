//! Sums, products, powers, orders and values of polynomials.

use crate::rows::{mono, number, poly};
use fj_coeff::{Coeff, Fp};
use fj_mono::{Grevlex, Grlex, Lex, Order};
use fj_poly::{Point, Poly, PolyFault};
use std::alloc::Global;
use std::process::Abort;
use std::test::Fail;

// A polynomial in x, y and z: the exponents and the coefficient of each term.
type Terms<'a> = &'a [([u64; 3], u64)];

// The polynomial has these terms, falling, and this degree.
fn has_terms<K: Coeff, O: Order>(
    rt: &impl Abort,
    f: &Poly<K, O>,
    degree: Option<u64>,
    terms: Terms,
) {
    assert_eq!(rt; f.len(), terms.len());
    assert_eq!(rt; f.is_zero(), terms.is_empty());
    assert_eq!(rt; f.degree(), degree);
    let lead = terms.first().map(|(e, n)| (number::<K>(*n), mono(rt, e)));
    assert!(rt; f.lead() == lead);
    for (i, (e, n)) in terms.iter().enumerate() {
        has_term(rt, f, i, e, *n);
    }
}

// The term at this place has these exponents and this coefficient.
fn has_term<K: Coeff, O: Order>(
    rt: &impl Abort,
    f: &Poly<K, O>,
    place: usize,
    exponents: &[u64; 3],
    n: u64,
) {
    let m = mono(rt, exponents);
    assert!(rt; f.coeff(&m) == number(n));
    assert!(rt; place < f.len());
    assert!(rt; f.at(place) == (number(n), m));
}

// The sum, both ways.
fn has_sum<K: Coeff, O: Order>(
    rt: &impl Abort,
    alloc: Global,
    first: Terms,
    second: Terms,
    degree: Option<u64>,
    sum: Terms,
) -> Result<(), Fail> {
    let first: Poly<K, O> = poly(rt, alloc, first)?;
    let second: Poly<K, O> = poly(rt, alloc, second)?;
    has_terms(rt, &first.add(alloc, &second)?, degree, sum);
    has_terms(rt, &second.add(alloc, &first)?, degree, sum);
    assert!(rt; first.same(&first));
    assert!(rt; !first.same(&second));
    assert!(rt; first.coeff(&mono(rt, &[9, 9, 9])) == K::zero());
    Ok(())
}

// Modulo 3 x^2*y + 2*z and 2*x^2*y + z + 1 add up to 1. Modulo 5 they are 3*x^2*y + 3*z + 1, and 3*x and 2*x are 0.
#[test]
fn textbook_sums(rt: HostRuntime) -> Result<(), Fail> {
    let alloc = rt.alloc();
    let first: Terms = &[([2, 1, 0], 1), ([0, 0, 1], 2)];
    let second: Terms = &[([0, 0, 0], 1), ([2, 1, 0], 2), ([0, 0, 1], 1)];
    let one: Terms = &[([0, 0, 0], 1)];
    let sum: Terms = &[([2, 1, 0], 3), ([0, 0, 1], 3), ([0, 0, 0], 1)];
    has_sum::<Fp<3>, Grevlex>(&rt, alloc, first, second, Some(0), one)?;
    has_sum::<Fp<3>, Lex>(&rt, alloc, first, second, Some(0), one)?;
    has_sum::<Fp<5>, Grevlex>(&rt, alloc, first, second, Some(3), sum)?;
    let three_x: Terms = &[([1, 0, 0], 3)];
    let two_x: Terms = &[([1, 0, 0], 2)];
    has_sum::<Fp<5>, Lex>(&rt, alloc, three_x, two_x, None, &[])
}

// Lex takes x before y^2, Grevlex y^2 before x.
#[test]
fn orders_of_sums(rt: HostRuntime) -> Result<(), Fail> {
    let alloc = rt.alloc();
    let first: Terms = &[([0, 2, 0], 1)];
    let second: Terms = &[([1, 0, 0], 4)];
    let by_name: Terms = &[([1, 0, 0], 4), ([0, 2, 0], 1)];
    let by_degree: Terms = &[([0, 2, 0], 1), ([1, 0, 0], 4)];
    has_sum::<Fp<5>, Lex>(&rt, alloc, first, second, Some(2), by_name)?;
    has_sum::<Fp<5>, Grevlex>(&rt, alloc, first, second, Some(2), by_degree)
}

// Modulo 5 (x + 2*y)*(x + y) is x^2 + 3*x*y + 2*y^2; then differences, multiples and copies of the two.
#[test]
fn textbook_products(rt: HostRuntime) -> Result<(), Fail> {
    let alloc = rt.alloc();
    let first: Poly<Fp<5>, Lex> = poly(&rt, alloc, &[([1, 0, 0], 1), ([0, 1, 0], 2)])?;
    let second: Poly<Fp<5>, Lex> = poly(&rt, alloc, &[([1, 0, 0], 1), ([0, 1, 0], 1)])?;
    let product: Terms = &[([2, 0, 0], 1), ([1, 1, 0], 3), ([0, 2, 0], 2)];
    has_terms(&rt, &first.mul(alloc, &second)?, Some(2), product);
    has_terms(&rt, &second.mul(alloc, &first)?, Some(2), product);
    let twice: Terms = &[([1, 0, 0], 2), ([0, 1, 0], 2)];
    has_terms(&rt, &second.scale(alloc, number(2))?, Some(1), twice);
    let shifted: Terms = &[([1, 1, 2], 1), ([0, 2, 2], 1)];
    let m = mono(&rt, &[0, 1, 2]);
    has_terms(&rt, &second.shift(alloc, &m)?, Some(4), shifted);
    let difference: Terms = &[([0, 1, 0], 1)];
    has_terms(&rt, &first.sub(alloc, &second)?, Some(1), difference);
    assert!(rt; first.copy(alloc)?.same(&first));
    Ok(())
}

#[test]
fn products_that_are_zero(rt: HostRuntime) -> Result<(), Fail> {
    let alloc = rt.alloc();
    let zero: Poly<Fp<3>, Grevlex> = Poly::zero(alloc);
    let line: Poly<Fp<3>, Grevlex> = poly(&rt, alloc, &[([1, 0, 0], 1), ([0, 1, 0], 2)])?;
    has_terms(&rt, &line.mul(alloc, &zero)?, None, &[]);
    has_terms(&rt, &line.scale(alloc, number(0))?, None, &[]);
    has_terms(&rt, &line.sub(alloc, &line)?, None, &[]);
    has_terms(&rt, &zero.pow(alloc, 2)?, None, &[]);
    has_terms(&rt, &zero.pow(alloc, 0)?, Some(0), &[([0, 0, 0], 1)]);
    Ok(())
}

// (x + 1)^10 modulo 3 is (x^9 + 1)*(x + 1). y^2 + x: Lex takes x first, Grevlex y^2.
#[test]
fn powers_and_orders(rt: HostRuntime) -> Result<(), Fail> {
    let alloc = rt.alloc();
    let base: Poly<Fp<3>, Lex> = poly(&rt, alloc, &[([1, 0, 0], 1), ([0, 0, 0], 1)])?;
    let power: Terms = &[
        ([10, 0, 0], 1),
        ([9, 0, 0], 1),
        ([1, 0, 0], 1),
        ([0, 0, 0], 1),
    ];
    has_terms(&rt, &base.pow(alloc, 10)?, Some(10), power);
    let mixed: Poly<Fp<3>, Lex> = poly(&rt, alloc, &[([0, 2, 0], 1), ([1, 0, 0], 1)])?;
    let by_degree: Poly<Fp<3>, Grevlex> = mixed.reorder(alloc)?;
    let terms: Terms = &[([0, 2, 0], 1), ([1, 0, 0], 1)];
    has_terms(&rt, &by_degree, Some(2), terms);
    Ok(())
}

fn is_high<K: Coeff, O: Order>(answer: Result<Poly<K, O>, PolyFault>) -> bool {
    matches!(answer, Err(PolyFault::High))
}

// The degree 2^40 is within the limit, and the next one isn't.
#[test]
fn limit_of_the_degree(rt: HostRuntime) -> Result<(), Fail> {
    let alloc = rt.alloc();
    let half: Poly<Fp<3>, Lex> = poly(&rt, alloc, &[([1 << 39, 0, 0], 1)])?;
    assert_eq!(rt; half.mul(alloc, &half)?.degree(), Some(1 << 40));
    assert_eq!(rt; half.pow(alloc, 2)?.degree(), Some(1 << 40));
    assert!(rt; is_high(half.pow(alloc, 3)));
    assert!(rt; is_high(half.shift(alloc, &mono(&rt, &[1 << 39, 1, 0]))));
    let more: Poly<Fp<3>, Lex> = poly(&rt, alloc, &[([1 << 39, 1, 0], 1), ([0, 0, 0], 1)])?;
    assert!(rt; is_high(more.mul(alloc, &half)));
    Ok(())
}

// x^2*y + 2*z + 1 at (2, 3) and at (2, 3, 4), modulo 5: 12 + 1 and 12 + 8 + 1.
#[test]
fn textbook_values(rt: HostRuntime) -> Result<(), Fail> {
    let alloc = rt.alloc();
    let terms: Terms = &[([2, 1, 0], 1), ([0, 0, 1], 2), ([0, 0, 0], 1)];
    let f: Poly<Fp<5>, Grevlex> = poly(&rt, alloc, terms)?;
    let plane = Point::of(alloc, &[number(2), number(3)])?;
    assert!(rt; f.eval(&plane) == number(3));
    let space = Point::of(alloc, &[number(2), number(3), number(4)])?;
    assert!(rt; f.eval(&space) == number(1));
    let zero: Poly<Fp<5>, Lex> = Poly::zero(alloc);
    assert!(rt; zero.eval(&plane) == number(0));
    Ok(())
}

// The plain terms of a polynomial are these, and they are read back in its order and in Lex.
fn has_plain_terms<K: Coeff, O: Order>(
    rt: &impl Abort,
    alloc: Global,
    f: &Poly<K, O>,
    terms: Terms,
) -> Result<(), Fail> {
    let plain = f.to_plain(alloc)?;
    assert_eq!(rt; plain.len(), terms.len());
    for (i, ([x, y, z], n)) in terms.iter().enumerate() {
        assert!(rt; i < plain.len());
        let term = plain.get(i);
        assert_eq!(rt; term.exps, [*x, *y, *z, 0, 0, 0, 0, 0]);
        assert_eq!(rt; term.rank, *n);
    }
    let back: Poly<K, O> = Poly::from_plain(alloc, &plain)?;
    assert!(rt; back.same(f));
    let lex: Poly<K, Lex> = Poly::from_plain(alloc, &plain)?;
    assert!(rt; lex.same(&f.reorder(alloc)?));
    Ok(())
}

// x*z + y^2: Grevlex takes y^2 first, Grlex x*z.
#[test]
fn plain_terms(rt: HostRuntime) -> Result<(), Fail> {
    let alloc = rt.alloc();
    let terms: Terms = &[([1, 0, 1], 1), ([0, 2, 0], 1)];
    let f: Poly<Fp<5>, Grevlex> = poly(&rt, alloc, terms)?;
    has_plain_terms(&rt, alloc, &f, &[([0, 2, 0], 1), ([1, 0, 1], 1)])?;
    let g: Poly<Fp<5>, Grlex> = f.reorder(alloc)?;
    has_plain_terms(&rt, alloc, &g, terms)?;
    let zero: Poly<Fp<5>, Grlex> = Poly::zero(alloc);
    has_plain_terms(&rt, alloc, &zero, &[])
}
