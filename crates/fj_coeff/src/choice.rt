//! The choice of the field for a prime that is known only when the program runs.
ghost use Rattle.std.specs.Prelude.{◌≡◌, Contains};
ghost use Rattle.fj_coeff.specs.Field.{Field, primes};
ghost use Rattle.fj_coeff.specs.PrimeField.{prime_field};

use crate::coeff::Coeff;
use crate::prime::Fp;

/// Work that is written once for all fields, and done over the one that is chosen.
pub trait OverField {
    /// What the work makes.
    type Output;

    /// When the work may be done over a field.
    ghost can: { Self → Field → Type 0 };

    /// What the work does: what it was before, the field, its output, and what it is afterwards.
    ghost does: { Self → Field → Self.Output → Self → Type 0 };

    /// Does the work over the field `K`.
    fn over<K: Coeff>(&mut self) -> Self::Output
        requires { can self.old K.field }
        ensures { does self.old K.field result self.new };
}

/// Does the work over GF(p).
///
/// Condition: p is one of the primes of the coefficient fields.
pub fn over_prime_field<W: OverField>(p: u64, work: &mut W) -> W::Output
    requires prime { Contains primes p }
    requires can { W.can work.old (prime_field p) }
    ensures { W.does work.old (prime_field p) result work.new }
{
    if p == 2 {
        work.over::<Fp<2>>()
    } else if p == 3 {
        work.over::<Fp<3>>()
    } else if p == 5 {
        work.over::<Fp<5>>()
    } else if p == 7 {
        work.over::<Fp<7>>()
    } else if p == 11 {
        work.over::<Fp<11>>()
    } else if p == 13 {
        work.over::<Fp<13>>()
    } else if p == 17 {
        work.over::<Fp<17>>()
    } else if p == 19 {
        work.over::<Fp<19>>()
    } else if p == 23 {
        work.over::<Fp<23>>()
    } else if p == 29 {
        work.over::<Fp<29>>()
    } else if p == 31 {
        work.over::<Fp<31>>()
    } else {
        unreachable!()
    }
}
