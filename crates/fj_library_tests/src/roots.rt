//! Parts, Frobenius roots and Frobenius powers.

use crate::rows::{have_terms, mono, poly, polys};
use fj_coeff::{Coeff, Fp};
use fj_mono::{Grevlex, Lex, Order};
use fj_poly::{Poly, PolyFault};
use fj_root::{frob_power, parts, root_gens, root_list};
use std::alloc::Global;
use std::process::Abort;
use std::test::Fail;

// A polynomial in x and y: the exponents and the coefficient of each term.
type Terms<'a> = &'a [([u64; 2], u64)];

// The polynomial has these parts at e, each with its residue, in this order. Over GF(p) the q-th power of a coefficient is
// the coefficient.
fn has_parts<K: Coeff, O: Order>(
    rt: &impl Abort,
    alloc: Global,
    terms: Terms,
    e: u32,
    wanted: &[([u64; 2], Terms)],
) -> Result<(), Fail> {
    assert!(rt; e <= 12);
    let h: Poly<K, O> = poly(rt, alloc, terms)?;
    let found = parts(alloc, e, &h)?;
    assert_eq!(rt; found.len(), wanted.len());
    for (part, (residue, part_terms)) in found.iter().zip(wanted) {
        assert!(rt; part.residue == mono(rt, residue));
        assert!(rt; part.poly.same(&poly(rt, alloc, part_terms)?));
    }
    Ok(())
}

// The polynomial has these parts at each e of the rows.
fn have_parts<K: Coeff, O: Order>(
    rt: &impl Abort,
    alloc: Global,
    terms: Terms,
    rows: &[(u32, &[([u64; 2], Terms)])],
) -> Result<(), Fail> {
    for (e, wanted) in rows {
        has_parts::<K, O>(rt, alloc, terms, *e, wanted)?;
    }
    Ok(())
}

// 4097 = 2*2048 + 1 = 4*1024 + 1 = 2^12 + 1, 3 = 2 + 1, 6 = 2*3 = 4 + 2.
#[test]
fn parts_over_two(rt: HostRuntime) -> Result<(), Fail> {
    let h: Terms = &[([4097, 2], 1), ([3, 0], 1), ([0, 6], 1)];
    have_parts::<Fp<2>, Grevlex>(
        &rt,
        rt.alloc(),
        h,
        &[
            (0, &[([0, 0], h)]),
            (
                1,
                &[
                    ([0, 0], &[([0, 3], 1)]),
                    ([1, 0], &[([2048, 1], 1), ([1, 0], 1)]),
                ],
            ),
            (
                2,
                &[
                    ([0, 2], &[([0, 1], 1)]),
                    ([1, 2], &[([1024, 0], 1)]),
                    ([3, 0], &[([0, 0], 1)]),
                ],
            ),
            (
                12,
                &[
                    ([0, 6], &[([0, 0], 1)]),
                    ([1, 2], &[([1, 0], 1)]),
                    ([3, 0], &[([0, 0], 1)]),
                ],
            ),
        ],
    )
}

// 531442 = 3*177147 + 1 = 9*59049 + 1 = 3^12 + 1, 4 = 3 + 1.
#[test]
fn parts_over_three(rt: HostRuntime) -> Result<(), Fail> {
    let h: Terms = &[([531442, 1], 2), ([1, 4], 1), ([0, 3], 1)];
    have_parts::<Fp<3>, Grevlex>(
        &rt,
        rt.alloc(),
        h,
        &[
            (0, &[([0, 0], h)]),
            (
                1,
                &[
                    ([0, 0], &[([0, 1], 1)]),
                    ([1, 1], &[([177147, 0], 2), ([0, 1], 1)]),
                ],
            ),
            (
                2,
                &[
                    ([0, 3], &[([0, 0], 1)]),
                    ([1, 1], &[([59049, 0], 2)]),
                    ([1, 4], &[([0, 0], 1)]),
                ],
            ),
            (
                12,
                &[
                    ([0, 3], &[([0, 0], 1)]),
                    ([1, 1], &[([1, 0], 2)]),
                    ([1, 4], &[([0, 0], 1)]),
                ],
            ),
        ],
    )
}

// 244140627 = 5*48828125 + 2 = 25*9765625 + 2 = 5^12 + 2.
#[test]
fn parts_over_five(rt: HostRuntime) -> Result<(), Fail> {
    let h: Terms = &[([244140627, 0], 3), ([2, 5], 4), ([0, 0], 2)];
    have_parts::<Fp<5>, Grevlex>(
        &rt,
        rt.alloc(),
        h,
        &[
            (0, &[([0, 0], h)]),
            (
                1,
                &[
                    ([0, 0], &[([0, 0], 2)]),
                    ([2, 0], &[([48828125, 0], 3), ([0, 1], 4)]),
                ],
            ),
            (
                2,
                &[
                    ([0, 0], &[([0, 0], 2)]),
                    ([2, 0], &[([9765625, 0], 3)]),
                    ([2, 5], &[([0, 0], 4)]),
                ],
            ),
            (
                12,
                &[
                    ([0, 0], &[([0, 0], 2)]),
                    ([2, 0], &[([1, 0], 3)]),
                    ([2, 5], &[([0, 0], 4)]),
                ],
            ),
        ],
    )
}

// 13841287202 = 7*1977326743 + 1 = 49*282475249 + 1 = 7^12 + 1, 14 = 7*2.
#[test]
fn parts_over_seven(rt: HostRuntime) -> Result<(), Fail> {
    let h: Terms = &[([13841287202, 7], 6), ([1, 14], 1), ([0, 3], 5)];
    have_parts::<Fp<7>, Grevlex>(
        &rt,
        rt.alloc(),
        h,
        &[
            (0, &[([0, 0], h)]),
            (
                1,
                &[
                    ([0, 3], &[([0, 0], 5)]),
                    ([1, 0], &[([1977326743, 1], 6), ([0, 2], 1)]),
                ],
            ),
            (
                2,
                &[
                    ([0, 3], &[([0, 0], 5)]),
                    ([1, 7], &[([282475249, 0], 6)]),
                    ([1, 14], &[([0, 0], 1)]),
                ],
            ),
            (
                12,
                &[
                    ([0, 3], &[([0, 0], 5)]),
                    ([1, 7], &[([1, 0], 6)]),
                    ([1, 14], &[([0, 0], 1)]),
                ],
            ),
        ],
    )
}

// 125 = 11*11 + 4 = 121 + 4, 12 = 11 + 1, and 11^12 is above 2^40.
#[test]
fn parts_over_eleven(rt: HostRuntime) -> Result<(), Fail> {
    let h: Terms = &[([125, 1], 10), ([4, 12], 7), ([0, 1], 1)];
    have_parts::<Fp<11>, Grevlex>(
        &rt,
        rt.alloc(),
        h,
        &[
            (0, &[([0, 0], h)]),
            (
                1,
                &[
                    ([0, 1], &[([0, 0], 1)]),
                    ([4, 1], &[([11, 0], 10), ([0, 1], 7)]),
                ],
            ),
            (
                2,
                &[
                    ([0, 1], &[([0, 0], 1)]),
                    ([4, 1], &[([1, 0], 10)]),
                    ([4, 12], &[([0, 0], 7)]),
                ],
            ),
            (
                12,
                &[
                    ([0, 1], &[([0, 0], 1)]),
                    ([4, 12], &[([0, 0], 7)]),
                    ([125, 1], &[([0, 0], 10)]),
                ],
            ),
        ],
    )
}

// 169 = 13*13, 26 = 13*2, and 13^12 is above 2^40.
#[test]
fn parts_over_thirteen(rt: HostRuntime) -> Result<(), Fail> {
    let h: Terms = &[([169, 13], 12), ([0, 26], 2), ([12, 0], 11)];
    have_parts::<Fp<13>, Grevlex>(
        &rt,
        rt.alloc(),
        h,
        &[
            (0, &[([0, 0], h)]),
            (
                1,
                &[
                    ([0, 0], &[([13, 1], 12), ([0, 2], 2)]),
                    ([12, 0], &[([0, 0], 11)]),
                ],
            ),
            (
                2,
                &[
                    ([0, 13], &[([1, 0], 12)]),
                    ([0, 26], &[([0, 0], 2)]),
                    ([12, 0], &[([0, 0], 11)]),
                ],
            ),
            (
                12,
                &[
                    ([0, 26], &[([0, 0], 2)]),
                    ([12, 0], &[([0, 0], 11)]),
                    ([169, 13], &[([0, 0], 12)]),
                ],
            ),
        ],
    )
}

// Modulo 3 2*x^4*y + x*y + y^3 is y^3 + (2*x + 1)^3 * x*y.
#[test]
fn parts_in_lex(rt: HostRuntime) -> Result<(), Fail> {
    let h: Terms = &[([4, 1], 2), ([1, 1], 1), ([0, 3], 1)];
    have_parts::<Fp<3>, Lex>(
        &rt,
        rt.alloc(),
        h,
        &[(
            1,
            &[
                ([0, 0], &[([0, 1], 1)]),
                ([1, 1], &[([1, 0], 2), ([0, 0], 1)]),
            ],
        )],
    )?;
    have_parts::<Fp<3>, Lex>(&rt, rt.alloc(), &[], &[(1, &[])])
}

// The list has this root at e.
fn has_root<K: Coeff>(
    rt: &impl Abort,
    alloc: Global,
    e: u32,
    list: &[Terms],
    root: &[Terms],
) -> Result<(), Fail> {
    assert!(rt; e <= 12);
    let list: Vec<Poly<K, Grevlex>> = polys(rt, alloc, list)?;
    have_terms(rt, alloc, &root_list(alloc, e, &list)?, root)
}

#[test]
fn roots_over_small_primes(rt: HostRuntime) -> Result<(), Fail> {
    let alloc = rt.alloc();
    // x^3 = x^2 * x and x*y^2 = y^2 * x.
    has_root::<Fp<2>>(
        &rt,
        alloc,
        1,
        &[&[([3, 0], 1)], &[([1, 2], 1)]],
        &[&[([1, 0], 1)], &[([0, 1], 1)]],
    )?;
    // x^4 = x^3 * x and 2*y^3 + x = (2*y)^3 + 1^3 * x.
    has_root::<Fp<3>>(
        &rt,
        alloc,
        1,
        &[&[([4, 0], 1)], &[([0, 3], 2), ([1, 0], 1)]],
        &[&[([1, 0], 1)], &[([0, 1], 2)], &[([0, 0], 1)]],
    )?;
    // x^6*y^5 = (x*y)^5 * x and x^5 + y^6 = x^5 + y^5 * y.
    has_root::<Fp<5>>(
        &rt,
        alloc,
        1,
        &[&[([6, 5], 1)], &[([5, 0], 1), ([0, 6], 1)]],
        &[&[([1, 1], 1)], &[([1, 0], 1)], &[([0, 1], 1)]],
    )?;
    // 3*x^7 + 2*x^8 = (3*x)^7 + (2*x)^7 * x.
    has_root::<Fp<7>>(
        &rt,
        alloc,
        1,
        &[&[([7, 0], 3), ([8, 0], 2)]],
        &[&[([1, 0], 3)], &[([1, 0], 2)]],
    )
}

#[test]
fn roots_over_great_primes(rt: HostRuntime) -> Result<(), Fail> {
    let alloc = rt.alloc();
    // x^22 + 10*y^11 = (x^2 + 10*y)^11.
    has_root::<Fp<11>>(
        &rt,
        alloc,
        1,
        &[&[([22, 0], 1), ([0, 11], 10)]],
        &[&[([2, 0], 1), ([0, 1], 10)]],
    )?;
    // 170 = 13^2 + 1.
    has_root::<Fp<13>>(&rt, alloc, 2, &[&[], &[([170, 0], 1)]], &[&[([1, 0], 1)]])?;
    has_root::<Fp<13>>(&rt, alloc, 12, &[&[([170, 0], 7)]], &[&[([0, 0], 7)]])?;
    has_root::<Fp<13>>(
        &rt,
        alloc,
        0,
        &[&[([1, 0], 2)], &[([0, 1], 1)]],
        &[&[([1, 0], 2)], &[([0, 1], 1)]],
    )?;
    has_root::<Fp<13>>(&rt, alloc, 1, &[], &[])
}

// The list of multiples by f^d has this root at 1, and `None` is a refusal.
fn has_root_of_multiples<K: Coeff>(
    rt: &impl Abort,
    alloc: Global,
    d: u64,
    f: Terms,
    list: &[Terms],
    root: Option<&[Terms]>,
) -> Result<(), Fail> {
    let f: Poly<K, Grevlex> = poly(rt, alloc, f)?;
    let list = polys(rt, alloc, list)?;
    let answer = root_gens(alloc, d, &f, &list);
    match root {
        Some(root) => have_terms(rt, alloc, &answer?, root)?,
        None => assert!(rt; matches!(answer, Err(PolyFault::High))),
    }
    Ok(())
}

#[test]
fn roots_of_small_multiples(rt: HostRuntime) -> Result<(), Fail> {
    let alloc = rt.alloc();
    let x = [([1, 0], 1)];
    has_root_of_multiples::<Fp<2>>(
        &rt,
        alloc,
        1,
        &x,
        &[&[([1, 0], 1)]],
        Some(&[&[([1, 0], 1)]]),
    )?;
    // (x + y)^2 * x = x^3 + 1^3 * x*y^2 + 2^3 * x^2*y modulo 3.
    has_root_of_multiples::<Fp<3>>(
        &rt,
        alloc,
        2,
        &[([1, 0], 1), ([0, 1], 1)],
        &[&[([1, 0], 1)]],
        Some(&[&[([1, 0], 1)], &[([0, 0], 1)], &[([0, 0], 2)]]),
    )?;
    // 0^0 is 1.
    has_root_of_multiples::<Fp<5>>(
        &rt,
        alloc,
        0,
        &[],
        &[&[([0, 5], 1)]],
        Some(&[&[([0, 1], 1)]]),
    )?;
    has_root_of_multiples::<Fp<5>>(&rt, alloc, 1 << 63, &[], &[&[([0, 5], 1)]], Some(&[]))
}

#[test]
fn roots_of_great_multiples(rt: HostRuntime) -> Result<(), Fail> {
    let alloc = rt.alloc();
    let x = [([1, 0], 1)];
    let one = [([0, 0], 1)];
    // 2^40 = 7*157073089682 + 2.
    has_root_of_multiples::<Fp<7>>(
        &rt,
        alloc,
        1 << 40,
        &x,
        &[&[([0, 0], 1)]],
        Some(&[&[([157073089682, 0], 1)]]),
    )?;
    has_root_of_multiples::<Fp<7>>(
        &rt,
        alloc,
        1 << 40,
        &x,
        &[&[], &[([0, 0], 1)], &[([1, 0], 1)]],
        None,
    )?;
    has_root_of_multiples::<Fp<11>>(
        &rt,
        alloc,
        1 << 63,
        &one,
        &[&[([11, 0], 4)]],
        Some(&[&[([1, 0], 4)]]),
    )?;
    has_root_of_multiples::<Fp<13>>(&rt, alloc, 1 << 63, &x, &[&[], &[]], Some(&[]))?;
    has_root_of_multiples::<Fp<13>>(&rt, alloc, 1 << 63, &x, &[&[], &[([0, 0], 1)]], None)
}

// The list has this Frobenius power at e, and `None` is a refusal.
fn has_power<K: Coeff>(
    rt: &impl Abort,
    alloc: Global,
    e: u32,
    list: &[Terms],
    power: Option<&[Terms]>,
) -> Result<(), Fail> {
    assert!(rt; e <= 12);
    let list: Vec<Poly<K, Grevlex>> = polys(rt, alloc, list)?;
    let answer = frob_power(alloc, e, &list);
    match power {
        Some(power) => have_terms(rt, alloc, &answer?, power)?,
        None => assert!(rt; matches!(answer, Err(PolyFault::High))),
    }
    Ok(())
}

#[test]
fn frobenius_powers(rt: HostRuntime) -> Result<(), Fail> {
    let alloc = rt.alloc();
    has_power::<Fp<2>>(
        &rt,
        alloc,
        1,
        &[&[([1, 0], 1), ([0, 1], 1)]],
        Some(&[&[([2, 0], 1), ([0, 2], 1)]]),
    )?;
    has_power::<Fp<2>>(
        &rt,
        alloc,
        10,
        &[&[([1 << 30, 0], 1)]],
        Some(&[&[([1 << 40, 0], 1)]]),
    )?;
    has_power::<Fp<2>>(&rt, alloc, 10, &[&[], &[([1 << 30, 1], 1)]], None)?;
    // 2^5 is 2 and 3^5 is 3 modulo 5.
    has_power::<Fp<5>>(
        &rt,
        alloc,
        1,
        &[&[([1, 0], 2), ([0, 0], 3)], &[]],
        Some(&[&[([5, 0], 2), ([0, 0], 3)], &[]]),
    )?;
    // 13^9 is above 10^10.
    has_power::<Fp<13>>(&rt, alloc, 9, &[&[([1000, 0], 1)]], None)
}
