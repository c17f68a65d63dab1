//! Expressions and their values or faults.
use fj_coeff::{Coeff, Fp};
use fj_mono::Mono;
use fj_poly::{GPoly, Poly};
use fj_text::TextFault::{Byte, Large, Syntax, UnknownVar, Wide};
use fj_text::{Names, TextFault, read_expr};
use std::alloc::{AllocError, Global};
use std::process::Abort;
use std::test::Fail;

// A term: its coefficient, and its exponents in x, y, z, w.
type Term = (u64, [u64; 4]);

// What stands in a line from its first column on: the terms of a value and the column behind it, or a fault.
#[derive(Clone, Copy, Debug)]
enum Wanted {
    Value(&'static [Term], usize),
    Fault(TextFault),
}

use Wanted::{Fault, Value};

type Row = (&'static str, usize, Wanted);

const ONE: [u64; 4] = [0, 0, 0, 0];

const X: [u64; 4] = [1, 0, 0, 0];

const Y: [u64; 4] = [0, 1, 0, 0];

const Z: [u64; 4] = [0, 0, 1, 0];

// The sum of n ones.
fn number<K: Coeff>(n: u64) -> K {
    let mut sum = K::zero();
    for _ in 0..n {
        sum = sum.add(K::one());
    }
    sum
}

fn poly<K: Coeff>(rt: &impl Abort, alloc: Global, terms: &[Term]) -> Result<GPoly<K>, Fail> {
    let mut sum = Poly::zero(alloc);
    for (n, e) in terms {
        let mono = Mono::new([e[0], e[1], e[2], e[3], 0, 0, 0, 0]).expect(rt, "a small degree");
        let term = Poly::term(alloc, number(*n), &mono)?;
        sum = sum.add(alloc, &term)?;
    }
    Ok(sum)
}

// Each row: a line, a column, and what is read there.
fn reads<K: Coeff>(rt: &impl Abort, alloc: Global, rows: &[Row]) -> Result<(), Fail> {
    let names = Names::of(alloc, &["x", "y", "z", "w"])?;
    for (line, from, wanted) in rows {
        assert!(rt; *from <= line.len());
        let found = read_expr::<K>(alloc, line.as_bytes(), *from, &names);
        match (found, *wanted) {
            (Ok((f, end)), Value(terms, place)) => {
                assert!(rt; f.same(&poly(rt, alloc, terms)?), "{line:?}");
                assert_eq!(rt; end, place, "{line:?}");
            }
            (Err(found), Fault(fault)) => assert_eq!(rt; found, fault, "{line:?}"),
            (_, _) => assert!(rt; false, "{line:?}"),
        }
    }
    Ok(())
}

#[test]
fn tokens_and_values(rt: HostRuntime) -> Result<(), Fail> {
    let square = Value(
        &[(1, [2, 0, 0, 0]), (2, [1, 1, 0, 0]), (1, [0, 2, 0, 0])],
        16,
    );
    let rows: [Row; 32] = [
        ("poly f = (x+y)^2, z", 9, square),
        ("2x", 0, Value(&[(2, ONE)], 1)),
        ("1x1", 0, Value(&[(1, ONE)], 1)),
        ("x1", 0, Fault(UnknownVar(0))),
        ("x^0003", 0, Value(&[(1, [3, 0, 0, 0])], 6)),
        ("x\r+\ty", 0, Value(&[(1, X), (1, Y)], 5)),
        ("  x  ", 0, Value(&[(1, X)], 3)),
        ("x#y", 0, Value(&[(1, X)], 1)),
        ("x # &", 0, Value(&[(1, X)], 1)),
        ("x^#2", 0, Fault(Syntax(2))),
        ("(x # )", 0, Fault(Syntax(2))),
        ("", 0, Fault(Syntax(0))),
        ("   ", 2, Fault(Syntax(2))),
        ("  # x", 1, Fault(Syntax(1))),
        ("x+  ", 4, Fault(Syntax(2))),
        ("x  ", 3, Fault(Syntax(1))),
        ("\u{b}x", 0, Fault(Byte(0))),
        ("\u{feff}x", 0, Fault(Byte(0))),
        ("x;", 0, Fault(Byte(1))),
        ("x & y", 0, Fault(Byte(2))),
        ("x y &", 0, Value(&[(1, X)], 1)),
        ("x 4294967296", 0, Value(&[(1, X)], 1)),
        ("x/2", 0, Value(&[(1, X)], 1)),
        ("x)", 0, Value(&[(1, X)], 1)),
        ("-x^2*y+z", 0, Value(&[(4, [2, 1, 0, 0]), (1, Z)], 8)),
        ("x-y-z", 0, Value(&[(1, X), (4, Y), (4, Z)], 5)),
        ("x-(y-z)", 0, Value(&[(1, X), (4, Y), (1, Z)], 7)),
        ("-(-x)", 0, Value(&[(1, X)], 5)),
        ("2^3", 0, Value(&[(3, ONE)], 3)),
        ("(x^2)^3", 0, Value(&[(1, [6, 0, 0, 0])], 7)),
        ("x^2^3", 0, Value(&[(1, [2, 0, 0, 0])], 3)),
        ("0^0", 0, Value(&[(1, ONE)], 3)),
    ];
    reads::<Fp<5>>(&rt, rt.alloc(), &rows)
}

#[test]
fn faults_and_limits(rt: HostRuntime) -> Result<(), Fail> {
    let rows: [Row; 48] = [
        ("x+", 0, Fault(Syntax(2))),
        ("x+v", 0, Fault(UnknownVar(2))),
        ("x&", 0, Fault(Byte(1))),
        ("x^1001", 0, Fault(Large(2))),
        ("4294967296", 0, Fault(Wide(0))),
        ("00000000004294967295", 0, Value(&[(3, ONE)], 20)),
        ("99999999999999999999999999", 0, Fault(Wide(0))),
        ("x*4294967296", 0, Fault(Wide(2))),
        ("x^4294967296", 0, Fault(Wide(2))),
        ("4294967296^1001", 0, Fault(Wide(0))),
        ("1^1001", 0, Fault(Large(2))),
        ("0^1001", 0, Fault(Large(2))),
        ("x^", 0, Fault(Syntax(2))),
        ("x^&", 0, Fault(Byte(2))),
        ("x^y", 0, Fault(Syntax(2))),
        ("x^-1", 0, Fault(Syntax(2))),
        ("x*-y", 0, Fault(Syntax(2))),
        ("x--y", 0, Fault(Syntax(2))),
        ("--x", 0, Fault(Syntax(1))),
        ("+x", 0, Fault(Syntax(0))),
        ("=", 0, Fault(Syntax(0))),
        ("x*&", 0, Fault(Byte(2))),
        ("()", 0, Fault(Syntax(1))),
        ("(", 0, Fault(Syntax(1))),
        ("(x y)", 0, Fault(Syntax(3))),
        ("(x&)", 0, Fault(Byte(2))),
        ("x^1000*x&", 0, Fault(Large(7))),
        ("x^1000*x y", 0, Fault(Large(7))),
        ("x^1000*x+v", 0, Fault(Large(7))),
        ("x^1000*x^", 0, Fault(Syntax(9))),
        ("x^1000*x^&", 0, Fault(Byte(9))),
        ("x^1000*x^y", 0, Fault(Syntax(9))),
        ("x^1000*x^2", 0, Fault(Large(9))),
        ("x^1000*x^0", 0, Value(&[(1, [1000, 0, 0, 0])], 10)),
        ("x^1000*(x", 0, Fault(Syntax(9))),
        ("x^1000*(x)", 0, Fault(Large(9))),
        ("(x^1000*x)", 0, Fault(Large(8))),
        ("x^1000*v", 0, Fault(UnknownVar(7))),
        ("x^1000*x*0", 0, Fault(Large(7))),
        ("x^1000*0*x^1000", 0, Value(&[], 15)),
        ("(x-x)*x^1000*x", 0, Value(&[], 14)),
        ("(x^1000)^0*x", 0, Value(&[(1, X)], 12)),
        ("(x^1000)^1", 0, Value(&[(1, [1000, 0, 0, 0])], 10)),
        ("(x^1000)^2", 0, Fault(Large(9))),
        ("(x*y)^500", 0, Value(&[(1, [500, 500, 0, 0])], 9)),
        ("(x*y)^501", 0, Fault(Large(6))),
        ("x^999*y^2", 0, Fault(Large(8))),
        ("x^1000+x", 0, Value(&[(1, [1000, 0, 0, 0]), (1, X)], 8)),
    ];
    reads::<Fp<7>>(&rt, rt.alloc(), &rows)
}

// Powers are formed by products, each of which is judged: over GF(2) the 31st power of the sum of four variables has
// 1,024 terms, though the 32nd has four.
#[test]
fn powers_by_products(rt: HostRuntime) -> Result<(), Fail> {
    let thirty_second = Value(
        &[
            (1, [32, 0, 0, 0]),
            (1, [0, 32, 0, 0]),
            (1, [0, 0, 32, 0]),
            (1, [0, 0, 0, 32]),
        ],
        25,
    );
    let twos: [Row; 3] = [
        ("(x+y+z+w)^32", 0, Fault(Large(10))),
        ("(x+y+z+w)^16*(x+y+z+w)^16", 0, thirty_second),
        ("x+x", 0, Value(&[], 3)),
    ];
    reads::<Fp<2>>(&rt, rt.alloc(), &twos)?;
    let threes: [Row; 2] = [
        (
            "(x+y)^3",
            0,
            Value(&[(1, [3, 0, 0, 0]), (1, [0, 3, 0, 0])], 7),
        ),
        ("2-3*x", 0, Value(&[(2, ONE)], 5)),
    ];
    reads::<Fp<3>>(&rt, rt.alloc(), &threes)
}

// Over GF(13) the 12th, 11th and 10th powers of the sum of four variables have 455, 364 and 286 terms. A sum of ten
// powers in each of three variables has 1,000.
#[test]
fn sums_of_many_terms(rt: HostRuntime) -> Result<(), Fail> {
    let rows: [Row; 4] = [
        (
            "(x+y+z+w)^12+(x+y+z+w)^11+(x+y+z+w)^10",
            0,
            Fault(Large(36)),
        ),
        (
            "(x+y+z+w)^12+(x+y+z+w)^11+(x+y+z+w)^10-(x+y+z+w)^10&",
            0,
            Fault(Large(36)),
        ),
        ("12*x+x", 0, Value(&[], 6)),
        (
            "(1+x+x^2+x^3+x^4+x^5+x^6+x^7+x^8+x^9)*(1+y+y^2+y^3+y^4+y^5+y^6+y^7+y^8+y^9)*(1+z+z^2+z^3+z^4+z^5+z^6+z^7+z^8+z^9)+w",
            0,
            Fault(Large(114)),
        ),
    ];
    reads::<Fp<13>>(&rt, rt.alloc(), &rows)?;
    let thousand =
        "(1+x+x^2+x^3+x^4+x^5+x^6+x^7+x^8+x^9)*(1+y+y^2+y^3+y^4+y^5+y^6+y^7+y^8+y^9)*(1+z+z^2+z^3+z^4+z^5+z^6+z^7+z^8+z^9)";
    let names = Names::of(rt.alloc(), &["x", "y", "z"])?;
    let (f, _end) = read_expr::<Fp<13>>(rt.alloc(), thousand.as_bytes(), 0, &names)?;
    assert_eq!(rt; f.len(), 1000);
    Ok(())
}

// So many parentheses around x, of which the given number are closed.
fn nested(alloc: Global, open: usize, closed: usize) -> Result<Vec<u8>, AllocError> {
    let mut line = Vec::new(alloc);
    for _ in 0..open {
        line.push(b'(')?;
    }
    line.push(b'x')?;
    for _ in 0..closed {
        line.push(b')')?;
    }
    Ok(line)
}

#[test]
fn nested_parentheses(rt: HostRuntime) -> Result<(), Fail> {
    let alloc = rt.alloc();
    let names = Names::of(alloc, &["x", "y"])?;
    let deep = nested(alloc, 64, 64)?;
    let (f, end) = read_expr::<Fp<5>>(alloc, &deep, 0, &names)?;
    assert!(rt; f.same(&poly(&rt, alloc, &[(1, X)])?));
    assert_eq!(rt; end, 129);
    let deeper = nested(alloc, 65, 0)?;
    let refused = read_expr::<Fp<5>>(alloc, &deeper, 0, &names);
    assert!(rt; refused.is_err_and(|fault| fault == Large(64)));
    let open = nested(alloc, 64, 63)?;
    let refused = read_expr::<Fp<5>>(alloc, &open, 0, &names);
    assert!(rt; refused.is_err_and(|fault| fault == Syntax(128)));
    // z is none of these names.
    let refused = read_expr::<Fp<5>>(alloc, b"x+z", 0, &names);
    assert!(rt; refused.is_err_and(|fault| fault == UnknownVar(2)));
    Ok(())
}
