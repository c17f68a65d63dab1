//! Polynomials whose terms fall by their degrees first.
ghost use Rattle.std.specs.Prelude.{◌≡◌};
ghost use Rattle.fj_theory.specs.Polynomial.{IsPolynomial, degree};

use super::Poly;
use fj_coeff::Coeff;
use fj_mono::Grevlex;

impl<K: Coeff> Poly<K, Grevlex> {
    /// The total degree, which is that of the lead. `None` exactly for zero.
    pub fn lead_degree(&self) -> Option<u64>
        ensures value { result ≡ degree self.now }
        ensures polynomial { IsPolynomial K.field self.now }
    {
        let (_, m) = self.lead()?;
        Some(m.total())
    }
}
