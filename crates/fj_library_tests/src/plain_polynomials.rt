//! Plain polynomials, their lists, sums and products.
ghost use Rattle.std.specs.Prelude.{IfOk};
ghost use Rattle.fj_theory.specs.Plain.{HasRanksBelow};

use fj_coeff::is_prime;
use fj_plain::{
    Kept, OrderName, PlainList, PlainPoint, PlainPoly, PlainTable, PlainTerm, plain_product,
    plain_sum,
};
use std::alloc::{AllocError, Global};
use std::process::Abort;

// The plain polynomial over GF(5) of x and a second term, which has these exponents of x and y.
fn second_term(alloc: Global, x: u64, y: u64, rank: u64) -> Result<Option<PlainPoly>, AllocError> {
    let mut terms = Vec::new(alloc);
    terms.push(PlainTerm {
        exps: [1, 0, 0, 0, 0, 0, 0, 0],
        rank: 1,
    })?;
    terms.push(PlainTerm {
        exps: [x, y, 0, 0, 0, 0, 0, 0],
        rank,
    })?;
    Ok(PlainPoly::of(terms, 5))
}

// Each row: the second term, and whether the two make a polynomial.
#[test]
fn terms_that_make_a_polynomial(rt: HostRuntime) -> Result<(), AllocError> {
    let half = 1 << 40;
    for (x, y, rank, wanted) in [
        (0, 1, 4, true),
        (half, half, 1, true),
        (half, half + 1, 1, false),
        (u64::MAX, u64::MAX, 1, false),
        (1, 0, 1, false),
        (0, 1, 0, false),
        (0, 1, 5, false),
    ] {
        let made = second_term(rt.alloc(), x, y, rank)?;
        assert_eq!(rt; made.is_some(), wanted);
        assert!(rt; made.is_none_or(|f| f.len() == 2));
    }
    Ok(())
}

#[test]
fn lists(rt: HostRuntime) -> Result<(), AllocError> {
    let point = PlainPoint::of(vec![in rt.alloc(); 0, 3]?);
    assert_eq!(rt; point.len(), 2);
    assert_eq!(rt; *point.get(1), 3);
    let table = PlainTable::of(Vec::new(rt.alloc()));
    assert_eq!(rt; table.len(), 0);
    let kept = Kept {
        order: OrderName::of(3),
        list: PlainList::of(Vec::new(rt.alloc())),
    };
    assert!(rt; kept.order == OrderName::Elim);
    assert_eq!(rt; kept.list.len(), 0);
    Ok(())
}

// The polynomial in x over GF(p) with these exponents, all its coefficients 1.
fn sum_of_powers(
    rt: &impl Abort,
    alloc: Global,
    p: u64,
    exponents: &[u64],
) -> Result<PlainPoly, AllocError>
    ensures { IfOk result (λ f. HasRanksBelow p f) }
{
    let mut terms = Vec::new(alloc);
    for e in exponents {
        terms.push(PlainTerm {
            exps: [*e, 0, 0, 0, 0, 0, 0, 0],
            rank: 1,
        })?;
    }
    Ok(PlainPoly::of(terms, p).expect(rt, "a plain polynomial"))
}

// Two polynomials over GF(2) have this sum and this product, in rising order.
fn have(
    rt: &impl Abort,
    alloc: Global,
    first: &[u64],
    second: &[u64],
    sum: &[u64],
    product: &[u64],
) -> Result<(), AllocError> {
    assert!(rt; is_prime(2));
    let a = sum_of_powers(rt, alloc, 2, first)?;
    let b = sum_of_powers(rt, alloc, 2, second)?;
    let terms = plain_sum(alloc, 2, &a, &b)?;
    assert!(rt; terms.iter().map(|t| t.exps[0]).eq(sum.iter().copied()));
    let terms = plain_product(alloc, 2, &a, &b)?;
    assert!(rt; terms.iter().map(|t| t.exps[0]).eq(product.iter().copied()));
    Ok(())
}

// Over GF(2), x + x = 0 and x*x = x^2, and (x^3 + 1) + (x + 1) and their product in rising order.
#[test]
fn sums_and_products(rt: HostRuntime) -> Result<(), AllocError> {
    let alloc = rt.alloc();
    have(&rt, alloc, &[1], &[1], &[], &[2])?;
    have(&rt, alloc, &[3, 0], &[1, 0], &[1, 3], &[0, 1, 3, 4])
}
