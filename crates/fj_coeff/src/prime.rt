//! GF(p), the numbers below a prime.
ghost use Rattle.std.specs.Prelude.{◌<◌, refl};

use crate::coeff::Coeff;
use crate::table::{Primes, TablePrime};

/// An element of GF(P): a number below P, which is also its rank.
#[derive(Clone, Copy, Debug, PartialEq, Eq)]
pub struct Fp<const P: u64> {
    value: u64,
    ghost reduced: { value < P },
}

impl<const P: u64> Coeff for Fp<P>
where
    Primes: TablePrime<P>,
{
    ghost use Rattle.std.proofs.Common.{rules};
    ghost use Rattle.fj_coeff.specs.PrimeField.{prime_field};
    ghost use Rattle.fj_coeff.specs.PrimeFieldLaws.{IsField-prime_field, same_below};

    ghost field = { prime_field P };

    ghost rank = { λ c. c.value };

    ghost P = { P };

    ghost SIZE = { P };

    const P: u64 = P;

    const SIZE: u64 = P;

    fn zero() -> Self {
        Fp { value: 0 }
    }

    fn one() -> Self {
        Fp { value: 1 }
    }

    fn add(self, o: Self) -> Self {
        Fp {
            value: (self.value + o.value) % P,
        }
    }

    fn neg(self) -> Self {
        Fp {
            value: (P - self.value) % P,
        }
    }

    fn mul(self, o: Self) -> Self {
        Fp {
            value: self.value * o.value % P,
        }
    }

    fn inv(self) -> Self {
        let mut value = 1;
        'powers: for _ in 2..P {
            value = value * self.value % P;
        }
        Fp { value }
    }

    fn root(self) -> Self {
        self
    }

    fn rank(self) -> u64 {
        self.value
    }

    fn of_rank(r: u64) -> Self {
        Fp { value: r }
    }

    ghost lawful = { IsField-prime_field P ⟦<Primes as TablePrime<P>>⟧.is_prime };

    ghost characteristic_is = { refl };

    ghost size_is = { refl };

    ghost rank_below = { λ c. c.reduced };

    ghost same_rank = { λ c d e. let pairs = same_below P c.value d.value c.reduced d.reduced e in λ i. record { value = (pairs i).0; reduced = (pairs i).1 } };

    ghost eq_is_rank = { λ _ _. refl };
}
