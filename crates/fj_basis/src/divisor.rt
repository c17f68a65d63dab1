ghost use Rattle.std.specs.Prelude.{◌≡◌};
ghost use Rattle.fj_groebner.specs.Division.{Sugared};
ghost use Rattle.fj_theory.specs.Polynomial.{IsPolynomial};

use fj_coeff::Coeff;
use fj_mono::Order;
use fj_poly::Poly;

/// What divides: a polynomial with its sugar.
pub(crate) trait Divisor<K: Coeff, O: Order> {
    ghost sugared: { Self → Sugared };

    /// The polynomial.
    fn polynomial(&self) -> &Poly<K, O>
        ensures { result.now ≡ (sugared self.now).polynomial };

    /// Its sugar.
    fn sugar(&self) -> u64
        ensures { result ≡ (sugared self.now).sugar };
}
