//! The table of the primes of the coefficient fields. A prime more is a number in `PRIMES` and in the definition `primes`,
//! an impl of `TablePrime` with its law, and a case of `over_prime_field`.
ghost use Rattle.std.specs.Prelude.{◌≡◌, ◌↔◌, Contains, IsTrue};
ghost use Rattle.fj_coeff.specs.Field.{is_prime, primes};
ghost use Rattle.fj_coeff.specs.PrimeFieldLaws.{prime_2, prime_3, prime_5, prime_7, prime_11, prime_13, prime_17, prime_19, prime_23, prime_29, prime_31};

/// The primes of the coefficient fields, rising: the primes up to 31.
pub const PRIMES: [u64; 11] = [2, 3, 5, 7, 11, 13, 17, 19, 23, 29, 31];

/// Whether p is one of the primes of the coefficient fields.
pub fn is_prime(p: u64) -> bool
    ensures in_table { IsTrue result ↔ Contains primes p }
    ensures value { result ≡ is_prime p }
{
    PRIMES.contains(&p)
}

/// That a number is one of `PRIMES`: `Primes` implements it for these alone.
pub trait TablePrime<const P: u64> {
    ghost is_prime: { Contains primes P };
}

/// The bearer of `TablePrime`.
pub struct Primes;

impl TablePrime<2> for Primes {
    ghost is_prime = { prime_2 };
}

impl TablePrime<3> for Primes {
    ghost is_prime = { prime_3 };
}

impl TablePrime<5> for Primes {
    ghost is_prime = { prime_5 };
}

impl TablePrime<7> for Primes {
    ghost is_prime = { prime_7 };
}

impl TablePrime<11> for Primes {
    ghost is_prime = { prime_11 };
}

impl TablePrime<13> for Primes {
    ghost is_prime = { prime_13 };
}

impl TablePrime<17> for Primes {
    ghost is_prime = { prime_17 };
}

impl TablePrime<19> for Primes {
    ghost is_prime = { prime_19 };
}

impl TablePrime<23> for Primes {
    ghost is_prime = { prime_23 };
}

impl TablePrime<29> for Primes {
    ghost is_prime = { prime_29 };
}

impl TablePrime<31> for Primes {
    ghost is_prime = { prime_31 };
}
