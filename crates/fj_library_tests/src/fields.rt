//! Prime fields, and their choice.
ghost use Rattle.std.specs.Prelude.{◌≡◌, ◌≢◌, ◌<◌};

use fj_coeff::{Coeff, Fp, OverField, PRIMES, is_prime, over_prime_field};
use std::process::Abort;

// Each row: two numbers below a prime, their sum, the negative of the first, their product, and the inverse of the second.
fn agrees<K: Coeff>(rt: &impl Abort, row: (u64, u64, u64, u64, u64, u64))
    requires first { row.0 < K.field.size }
    requires second { row.1 < K.field.size }
    requires not_zero { row.1 ≢ 0 }
{
    let a = K::of_rank(row.0);
    let b = K::of_rank(row.1);
    assert_eq!(rt; a.add(b).rank(), row.2);
    assert_eq!(rt; a.neg().rank(), row.3);
    assert_eq!(rt; a.mul(b).rank(), row.4);
    assert_eq!(rt; b.inv().rank(), row.5);
    assert_eq!(rt; a.root().rank(), row.0);
    assert!(rt; b.mul(b.inv()) == K::one());
    assert!(rt; a.add(a.neg()) == K::zero());
}

#[test]
fn each_prime(rt: HostRuntime) {
    agrees::<Fp<2>>(&rt, (1, 1, 0, 1, 1, 1));
    agrees::<Fp<3>>(&rt, (2, 2, 1, 1, 1, 2));
    agrees::<Fp<5>>(&rt, (4, 3, 2, 1, 2, 2));
    agrees::<Fp<7>>(&rt, (3, 5, 1, 4, 1, 3));
    agrees::<Fp<11>>(&rt, (10, 7, 6, 1, 4, 8));
    agrees::<Fp<13>>(&rt, (12, 5, 4, 1, 8, 8));
    agrees::<Fp<17>>(&rt, (16, 5, 4, 1, 12, 7));
    agrees::<Fp<19>>(&rt, (18, 7, 6, 1, 12, 11));
    agrees::<Fp<23>>(&rt, (20, 9, 6, 3, 19, 18));
    agrees::<Fp<29>>(&rt, (28, 12, 11, 1, 17, 17));
    agrees::<Fp<31>>(&rt, (30, 11, 10, 1, 20, 17));
}

// Tells the size of a field.
#[derive(Drop)]
struct Size;

impl OverField for Size {
    type Output = u64;

    ghost can = { λ _ _. Unit {0} };

    ghost does = { λ _ F size _. size ≡ F.size };

    fn over<K: Coeff>(&mut self) -> u64 {
        K::SIZE
    }
}

#[test]
fn table(rt: HostRuntime) {
    for p in PRIMES {
        assert!(rt; is_prime(p));
        assert_eq!(rt; over_prime_field(p, &mut Size), p);
    }
    for n in [0, 1, 4, 9, 15, 25, 37] {
        assert!(rt; !is_prime(n));
    }
}
