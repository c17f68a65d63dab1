//! Both limits at single exponents.

use crate::rows::{FIFTH, ONE, Terms, X, exponent, has_members, limits};
use fj_coeff::Fp;
use std::test::Fail;

// Of x^5 over GF(2): the exponent, the test ideal and the left limit there, and the count after. 1/6 has the period of 1/3.
#[test]
fn limits_of_a_fifth_power(rt: HostRuntime) -> Result<(), Fail> {
    let alloc = rt.alloc();
    let mut limits = limits::<Fp<2>>(&rt, alloc, FIFTH, 100)?;
    let rows: [(u64, Terms, Terms, u64); 3] = [(3, X, X, 1), (6, ONE, ONE, 2), (5, X, ONE, 3)];
    for (den, test_ideal, left_limit, count) in rows {
        let (at, left) = limits.evaluate(&exponent(&rt, 1, den))?;
        has_members(&rt, alloc, &at, &[test_ideal])?;
        has_members(&rt, alloc, &left, &[left_limit])?;
        assert_eq!(rt; limits.evaluated(), count);
    }
    Ok(())
}
