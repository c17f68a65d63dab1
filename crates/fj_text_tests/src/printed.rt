//! The texts of polynomials, lists and fractions.
ghost use Rattle.std.specs.Prelude.{IfOk};
ghost use Rattle.fj_theory.specs.Plain.{polynomial};
ghost use Rattle.fj_theory.specs.PointIdeal.{UsesFirst};

use fj_coeff::{Coeff, Fp};
use fj_mono::{Grevlex, Mono};
use fj_plain::{PlainList, PlainPoly, PlainTerm};
use fj_poly::Poly;
use fj_ratio::Ratio;
use fj_text::{Names, print_list, print_poly, print_ratio};
use std::alloc::{AllocError, Global};
use std::process::Abort;
use std::test::Fail;

// The polynomial over GF(13) with these terms: exponents of the first three variables, and a rank.
fn polynomial(
    rt: &impl Abort,
    alloc: Global,
    terms: &[([u64; 3], u64)],
) -> Result<PlainPoly, AllocError>
    ensures { IfOk result (λ f. UsesFirst 3 (polynomial f)) }
{
    let mut list = Vec::new(alloc);
    for ([x, y, z], rank) in terms {
        list.push(PlainTerm {
            exps: [*x, *y, *z, 0, 0, 0, 0, 0],
            rank: *rank,
        })?;
    }
    Ok(PlainPoly::of(list, 13).expect(rt, "the terms of a polynomial"))
}

// Each row: the terms of a polynomial in x, y and z2, and its text.
#[test]
fn prints_polynomials(rt: HostRuntime) -> Result<(), Fail> {
    let alloc = rt.alloc();
    let names = Names::of(alloc, &["x", "y", "z2"])?;
    let rows: [(&[([u64; 3], u64)], &[u8]); 8] = [
        (&[], b"0"),
        (&[([0, 0, 0], 1)], b"1"),
        (&[([0, 0, 0], 12)], b"12"),
        (&[([1, 0, 0], 1)], b"x"),
        (&[([4, 1, 0], 2)], b"2*x^4*y"),
        (&[([1, 0, 0], 2), ([0, 0, 0], 1)], b"2*x+1"),
        (&[([0, 2, 0], 1), ([1, 0, 1], 1)], b"y^2+x*z2"),
        (
            &[([123_456_789_012, 1, 999_999_999_999], 10)],
            b"10*x^123456789012*y*z2^999999999999",
        ),
    ];
    for (terms, text) in rows {
        let h = polynomial(&rt, alloc, terms)?;
        assert_eq!(rt; print_poly(alloc, &h, &names)?.as_slice(), text);
    }
    Ok(())
}

// x*z + y^2 over GF(5), its terms falling in Grevlex.
#[test]
fn prints_in_grevlex(rt: HostRuntime) -> Result<(), Fail> {
    let alloc = rt.alloc();
    let names = Names::of(alloc, &["x", "y", "z"])?;
    let mut f = Poly::<Fp<5>, Grevlex>::zero(alloc);
    for exponents in [[1, 0, 1, 0, 0, 0, 0, 0], [0, 2, 0, 0, 0, 0, 0, 0]] {
        let m = Mono::new(exponents).expect(&rt, "a small degree");
        f = f.add(alloc, &Poly::term(alloc, Fp::one(), &m)?)?;
    }
    let mut terms = Vec::new(alloc);
    for i in 0..f.len() {
        let (c, m) = f.at(i);
        terms.push(([m.exp(0), m.exp(1), m.exp(2)], c.rank()))?;
    }
    let h = polynomial(&rt, alloc, &terms)?;
    assert_eq!(rt;
        print_poly(alloc, &h, &names)?.as_slice(),
        b"y^2+x*z".as_slice()
    );
    Ok(())
}

#[test]
fn prints_lists(rt: HostRuntime) -> Result<(), Fail> {
    let alloc = rt.alloc();
    let names = Names::of(alloc, &["x", "y", "z"])?;
    let none = PlainList::of(Vec::new(alloc));
    assert_eq!(rt;
        print_list(alloc, &none, &names)?.as_slice(),
        b"(0)".as_slice()
    );
    let zero = PlainList::of(vec![in alloc; polynomial(&rt, alloc, &[])?]?);
    assert_eq!(rt;
        print_list(alloc, &zero, &names)?.as_slice(),
        b"(0)".as_slice()
    );
    let y = polynomial(&rt, alloc, &[([0, 1, 0], 1)])?;
    let x = polynomial(&rt, alloc, &[([1, 0, 0], 1)])?;
    let both = PlainList::of(vec![in alloc; y, x]?);
    assert_eq!(rt;
        print_list(alloc, &both, &names)?.as_slice(),
        b"(y, x)".as_slice()
    );
    Ok(())
}

#[test]
fn prints_ratios(rt: HostRuntime) -> Result<(), Fail> {
    let rows: [(u64, u64, &[u8]); 5] = [
        (6, 8, b"3/4"),
        (0, 7, b"0"),
        (8, 1, b"8"),
        (2, 131_070, b"1/65535"),
        (4_294_967_295, 2, b"4294967295/2"),
    ];
    for (num, den, text) in rows {
        let t = Ratio::new(num, den).expect(&rt, "a narrow fraction");
        assert_eq!(rt; print_ratio(rt.alloc(), &t)?.as_slice(), text);
    }
    Ok(())
}
