//! Small sums, products, parts and reduced bases, calculated by a plain program as they are defined. They are compared
//! with rows that were worked by hand.

ghost use Rattle.std.specs.Prelude.{◌<◌};

mod plain;

use fj_coeff::{Coeff, Fp};
use plain::{List, Made, Order, Polynomial, reduced_basis};
use std::alloc::{AllocError, Global};
use std::process::Abort;
use std::test::Fail;

// The exponents of x, y, z in each term, and a number for its coefficient.
type Row<'a> = &'a [([u64; 3], u64)];

fn poly<K: Coeff>(alloc: Global, row: Row<'_>) -> Made<K> {
    let mut sum = Polynomial::zero(alloc);
    for ([x, y, z], n) in row {
        let mut c = K::zero();
        for _ in 0..*n {
            c = c.add(K::one());
        }
        sum.put(&[*x, *y, *z, 0, 0, 0, 0, 0], c)?;
    }
    Ok(sum)
}

fn list<K: Coeff>(alloc: Global, rows: &[Row<'_>]) -> Result<List<K>, AllocError> {
    let mut list = Vec::new(alloc);
    for row in rows {
        list.push(poly(alloc, row)?)?;
    }
    Ok(list)
}

// The reduced basis of the list has these members, in this order.
fn has_basis<K: Coeff>(
    rt: &(impl AllocGlobal + Abort),
    order: Order,
    list: List<K>,
    rows: &[Row<'_>],
) -> Result<(), Fail> {
    let basis = reduced_basis(order, list)?;
    assert_eq!(rt; basis.len(), rows.len());
    for (f, row) in basis.iter().zip(rows) {
        assert!(rt; f.same(&poly(rt.alloc(), row)?));
    }
    Ok(())
}

const X: Row<'static> = &[([1, 0, 0], 1)];

const Y: Row<'static> = &[([0, 1, 0], 1)];

const XY: Row<'static> = &[([1, 1, 0], 1)];

#[test]
fn sums_and_products(rt: HostRuntime) -> Result<(), Fail> {
    let alloc = rt.alloc();
    // Over GF(2), x + x is 0. Over GF(5), (x + y)^2 is x^2 + 2*x*y + y^2.
    let x: Polynomial<Fp<2>> = poly(alloc, X)?;
    assert!(rt; x.sum(&x)?.terms.is_empty());
    let line: Polynomial<Fp<5>> = poly(alloc, X)?.sum(&poly(alloc, Y)?)?;
    let square = poly(alloc, &[([2, 0, 0], 1), ([1, 1, 0], 2), ([0, 2, 0], 1)])?;
    assert!(rt; line.power(2)?.same(&square));
    // Over GF(3), (x + y + z)^3 is x^3 + y^3 + z^3.
    let plane: Polynomial<Fp<3>> = poly(alloc, &[([1, 0, 0], 1), ([0, 1, 0], 1), ([0, 0, 1], 1)])?;
    let cube = poly(alloc, &[([3, 0, 0], 1), ([0, 3, 0], 1), ([0, 0, 3], 1)])?;
    assert!(rt; plane.power(3)?.same(&cube));
    Ok(())
}

// Over GF(3), 2*x^4*y + x*y + y^3 is y^3 * 1 + (2*x + 1)^3 * x*y.
#[test]
fn parts(rt: HostRuntime) -> Result<(), Fail> {
    let alloc = rt.alloc();
    let f: Polynomial<Fp<3>> = poly(alloc, &[([4, 1, 0], 2), ([1, 1, 0], 1), ([0, 3, 0], 1)])?;
    let mut whole = Polynomial::zero(alloc);
    for ([x, y], row) in [([0, 0], Y), ([1, 1], &[([1, 0, 0], 2), ([0, 0, 0], 1)])] {
        let residue = [x, y, 0, 0, 0, 0, 0, 0];
        let part = f.part(3, &residue)?;
        assert!(rt; part.same(&poly(alloc, row)?));
        let summand = part.power(3)?.multiple(Fp::one(), &residue)?;
        whole = whole.sum(&summand)?;
    }
    // There is no other part.
    assert!(rt; whole.same(&f));
    Ok(())
}

// Over GF(2), the ideal of x^2 + y and x*y + 1 in two orders; over GF(5), that of x*y and x^2 + x*y.
#[test]
fn reduced_bases(rt: HostRuntime) -> Result<(), Fail> {
    let alloc = rt.alloc();
    let first: Row<'_> = &[([2, 0, 0], 1), ([0, 1, 0], 1)];
    let second: Row<'_> = &[([1, 1, 0], 1), ([0, 0, 0], 1)];
    let third: Row<'_> = &[([0, 2, 0], 1), ([1, 0, 0], 1)];
    let by_degree: List<Fp<2>> = list(alloc, &[first, second])?;
    has_basis(&rt, Order::Grevlex, by_degree, &[third, second, first])?;
    let cube: Row<'_> = &[([0, 3, 0], 1), ([0, 0, 0], 1)];
    let by_name: List<Fp<2>> = list(alloc, &[first, second])?;
    has_basis(&rt, Order::Lex, by_name, &[cube, third])?;
    let sum: Row<'_> = &[([2, 0, 0], 1), ([1, 1, 0], 1)];
    let mixed: List<Fp<5>> = list(alloc, &[XY, sum])?;
    has_basis(&rt, Order::Grevlex, mixed, &[XY, &[([2, 0, 0], 1)]])
}

// The root at 1 of f^(p - 1) for the f of the row, that is, of I^[p] : I for the ideal I of f.
fn root_of_quotient<K: Coeff>(alloc: Global, p: u64, row: Row<'_>) -> Result<List<K>, AllocError>
    requires { 0 < p }
{
    let f: Polynomial<K> = poly(alloc, row)?;
    f.power(p - 1)?.parts(p)
}

// x^3 + y^3 + z^3 is F-pure over GF(7), where this root is (1), and not over GF(5), where it is (x, y, z). x^2 isn't over
// GF(2), and x^2*y + x^2 is so at (1, 1) and not at (0, 0): their root is (x). x*y^2 + x is F-pure at (0, 0) over GF(2), but
// isn't F-pure: its root is (y + 1), which isn't (1), and y + 1 isn't zero at (0, 0).
#[test]
fn splittings(rt: HostRuntime) -> Result<(), Fail> {
    let alloc = rt.alloc();
    let cubes: Row<'_> = &[([3, 0, 0], 1), ([0, 3, 0], 1), ([0, 0, 3], 1)];
    let one: Row<'_> = &[([0, 0, 0], 1)];
    has_basis::<Fp<7>>(
        &rt,
        Order::Grevlex,
        root_of_quotient(alloc, 7, cubes)?,
        &[one],
    )?;
    let z: Row<'_> = &[([0, 0, 1], 1)];
    has_basis::<Fp<5>>(
        &rt,
        Order::Grevlex,
        root_of_quotient(alloc, 5, cubes)?,
        &[z, Y, X],
    )?;
    let square: Row<'_> = &[([2, 0, 0], 1)];
    has_basis::<Fp<2>>(
        &rt,
        Order::Grevlex,
        root_of_quotient(alloc, 2, square)?,
        &[X],
    )?;
    let curve: Row<'_> = &[([2, 1, 0], 1), ([2, 0, 0], 1)];
    has_basis::<Fp<2>>(
        &rt,
        Order::Grevlex,
        root_of_quotient(alloc, 2, curve)?,
        &[X],
    )?;
    let lines: Row<'_> = &[([1, 2, 0], 1), ([1, 0, 0], 1)];
    let line: Row<'_> = &[([0, 1, 0], 1), ([0, 0, 0], 1)];
    has_basis::<Fp<2>>(
        &rt,
        Order::Grevlex,
        root_of_quotient(alloc, 2, lines)?,
        &[line],
    )
}

// Over GF(3), (x) is compatible with x^2*y^2 at 1, and (x + y) isn't: the roots of the multiples are (x) and (x, y).
#[test]
fn compatible_ideals(rt: HostRuntime) -> Result<(), Fail> {
    let alloc = rt.alloc();
    let u: Polynomial<Fp<3>> = poly(alloc, &[([2, 2, 0], 1)])?;
    let x: Polynomial<Fp<3>> = poly(alloc, X)?;
    has_basis(&rt, Order::Grevlex, u.product(&x)?.parts(3)?, &[X])?;
    let line = x.sum(&poly(alloc, Y)?)?;
    has_basis(&rt, Order::Grevlex, u.product(&line)?.parts(3)?, &[Y, X])
}
