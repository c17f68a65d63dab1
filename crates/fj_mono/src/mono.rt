//! Monomials in eight variables, of total degree at most 2^40.
ghost use Rattle.std.specs.Prelude.{◌≡◌, ◌+◌, ◌<◌, ◌≤◌, ◌^◌, ◌↔◌, ℕ, List, length, take, sum, slice_index, All, IfOk, IsErr, IsTrue};
ghost use Rattle.fj_theory.specs.Exponents.{divides, least_common_multiple, minus, origin, plus, times, total};

use std::marker::Model;

/// The greatest total degree of a monomial, 2^40.
pub const DEGREE_LIMIT: u64 = 1 << 40;

/// A total degree above 2^40.
#[derive(Clone, Copy, Debug, PartialEq, Eq)]
pub struct High;

/// A monomial in eight variables, of total degree at most 2^40. The eighth variable is auxiliary.
#[derive(Clone, Copy, Debug, PartialEq, Eq, PartialOrd, Ord)]
pub struct Mono {
    exponents: [u64; 8],
    ghost eight: { length exponents ≡ 8 },
    ghost bounded: { sum exponents ≤ 2 ^ 40 },
}

impl Model for Mono {
    ghost use Rattle.fj_mono.specs.Monomial.{Monomial, monomial_code};

    ghost Value = { Monomial };

    ghost coded = { monomial_code };

    ghost view = { λ m. record { exponents = m.exponents; eight = m.eight; bounded = m.bounded } };

    ghost inverse = { λ v. record { exponents = v.exponents; eight = v.eight; bounded = v.bounded } };
}

impl Mono {
    /// The monomial 1.
    #[tactic(auto, unfolding(fj_theory::specs::Exponents::origin))]
    pub fn one() -> Mono
        ensures { result.exponents ≡ origin }
    {
        Mono { exponents: [0; 8] }
    }

    /// The monomial with these exponents. `High` exactly where their sum is above 2^40.
    pub fn new(e: [u64; 8]) -> Result<Mono, High>
        ensures value { IfOk result (λ m. m.exponents ≡ e) }
        ensures high { IsErr result ↔ (2 ^ 40 < sum e) }
    {
        let mut total = 0;
        for exponent in e {
            if exponent > DEGREE_LIMIT - total {
                return Err(High);
            }
            total += exponent;
        }
        Ok(Mono { exponents: e })
    }

    /// The exponent of the variable at place i, counted from 0.
    pub fn exp(&self, i: usize) -> u64
        requires { i < 8 }
        ensures { result ≡ slice_index self.now.exponents i }
    {
        self.exponents[i]
    }

    /// The total degree.
    pub fn total(&self) -> u64
        ensures { result ≡ sum self.now.exponents }
    {
        self.exponents.iter().sum()
    }

    /// The sum of the first exponents.
    pub(crate) fn front(&self, count: usize) -> u64
        requires { count ≤ 8 }
        ensures { result ≡ sum (take count self.now.exponents) }
    {
        let mut sum = 0;
        for i in 0..count {
            sum += self.exponents[i];
        }
        sum
    }

    /// The product: the exponents are added. `High` exactly where the total passes 2^40.
    pub fn try_mul(&self, o: &Mono) -> Result<Mono, High>
        ensures value { IfOk result (λ m. m.exponents ≡ plus self.now.exponents o.now.exponents) }
        ensures high { IsErr result ↔ (2 ^ 40 < total (plus self.now.exponents o.now.exponents)) }
    {
        let mut exponents = [0; 8];
        for i in 0..8 {
            exponents[i] = self.exponents[i] + o.exponents[i];
        }
        Mono::new(exponents)
    }

    /// The q-th power: the exponents are multiplied by q. `High` exactly where the total passes 2^40.
    pub fn try_scale(&self, q: u64) -> Result<Mono, High>
        ensures value { IfOk result (λ m. m.exponents ≡ times q self.now.exponents) }
        ensures high { IsErr result ↔ (2 ^ 40 < total (times q self.now.exponents)) }
    {
        let degree = self.total().saturating_mul(q);
        if degree > DEGREE_LIMIT {
            return Err(High);
        }
        let mut exponents = [0; 8];
        for i in 0..8 {
            exponents[i] = self.exponents[i] * q;
        }
        Ok(Mono { exponents })
    }

    /// Whether the monomial divides o: each exponent is at most that of o.
    pub fn divides(&self, o: &Mono) -> bool
        ensures { result ≡ divides self.now.exponents o.now.exponents }
    {
        for i in 0..8 {
            if self.exponents[i] > o.exponents[i] {
                return false;
            }
        }
        true
    }

    /// The quotient by o, which divides the monomial.
    pub fn quot(&self, o: &Mono) -> Mono
        requires { IsTrue (divides o.now.exponents self.now.exponents) }
        ensures { result.exponents ≡ minus self.now.exponents o.now.exponents }
    {
        let mut exponents = [0; 8];
        for i in 0..8 {
            exponents[i] = self.exponents[i] - o.exponents[i];
        }
        Mono { exponents }
    }

    /// The least common multiple: the greater exponents. `High` exactly where the total passes 2^40.
    pub fn lcm(&self, o: &Mono) -> Result<Mono, High>
        ensures value { IfOk result (λ m. m.exponents ≡ least_common_multiple self.now.exponents o.now.exponents) }
        ensures high { IsErr result ↔ (2 ^ 40 < total (least_common_multiple self.now.exponents o.now.exponents)) }
    {
        let mut exponents = [0; 8];
        for i in 0..8 {
            exponents[i] = self.exponents[i].max(o.exponents[i]);
        }
        Mono::new(exponents)
    }

    /// The quotient b and the residue a of division by q in each exponent: the monomial is the product of the q-th
    /// power of b and of a, and the exponents of a are below q.
    pub fn split(&self, q: u64) -> (Mono, Mono)
        requires { 1 ≤ q }
        ensures whole { self.now.exponents ≡ plus (times q result.0.exponents) result.1.exponents }
        ensures residue { All (λ k. k < q) result.1.exponents }
    {
        let quotient = self.exponents.map(|k| k / q);
        let residue = self.exponents.map(|k| k % q);
        (
            Mono {
                exponents: quotient,
            },
            Mono { exponents: residue },
        )
    }
}
