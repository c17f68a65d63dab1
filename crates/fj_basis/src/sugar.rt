//! The sugars of polynomials that are handed in, and that they are polynomials.
ghost use Rattle.std.specs.Prelude.{◌≡◌, ◌≤◌};
ghost use Rattle.fj_groebner.specs.Division.{degree_limit};
ghost use Rattle.fj_theory.specs.Ideal.{ArePolynomials};
ghost use Rattle.fj_theory.specs.Polynomial.{IsPolynomial};
ghost use Rattle.fj_groebner.specs.Run.{given};

use crate::divisor::Divisor;
use fj_coeff::Coeff;
use fj_mono::Order;
use fj_poly::Poly;

/// The sugar of a polynomial that is handed in: its total degree, 0 for zero.
pub(crate) fn sugar_of<K: Coeff, O: Order>(f: &Poly<K, O>) -> u64
    ensures value { result ≡ (given f.now).sugar }
    ensures low { result ≤ degree_limit }
    ensures polynomial { IsPolynomial K.field f.now }
{
    f.degree().unwrap_or(0)
}

/// A look at each polynomial of a list, which tells that it is one over the field.
pub fn look_over<K: Coeff, O: Order>(list: &[Poly<K, O>])
    ensures { ArePolynomials K.field list.now }
{
    for f in list {
        let _ = f.is_zero();
    }
}

/// A polynomial that is handed in has its total degree as its sugar.
impl<K: Coeff, O: Order> Divisor<K, O> for Poly<K, O> {
    ghost sugared = { given };

    fn polynomial(&self) -> &Poly<K, O> {
        self
    }

    fn sugar(&self) -> u64 {
        sugar_of(self)
    }
}
