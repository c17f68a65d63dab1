//! The limits of a polynomial at exponents, with a count of the exponents that were asked for. Exponents whose digits end in
//! one period share the limits of its chains, which are kept.
ghost use Rattle.std.specs.Prelude.{◌≡◌, ◌≤◌, IfOk};
ghost use Rattle.fj_theory.specs.Fraction.{IsInUnitInterval};
ghost use Rattle.fj_theory.specs.Polynomial.{IsPolynomial};
ghost use Rattle.fj_plain.specs.declared.order_name.OrderName.TheVariants as orders;
ghost use Rattle.fj_ideal.specs.Ideal.{IsIdeal};
ghost use Rattle.fj_ideal.specs.Lists.{RunFor};
ghost use Rattle.fj_ideal.specs.Stop.{StopsOnlyWith};
ghost use Rattle.fj_testideal.specs.TestIdeal.{IsLeftLimit, IsTestIdeal};
ghost use Rattle.fj_chain.specs.Admissible.{IsAdmissible};
ghost use Rattle.fj_chain.specs.Lists.{IsHighInJump, IsJumpList, IsLastLeftList, IsLastTestList};
ghost use Rattle.fj_jump.specs.Limits.{next_count};

use crate::period_limits::{PeriodLimits, keep, place_of};
use fj_basis::Stop;
use fj_coeff::Coeff;
use fj_ideal::Ideal;
use fj_poly::GPoly;
use fj_ratio::{Digits, Ratio};
use std::alloc::Global;
use std::marker::Model;

/// A polynomial f, the turn budget of the runs for its limits, and the number of exponents at which both limits were asked
/// for. f isn't constant, has a degree of at most 1,000, and doesn't use the eighth variable.
/// Within it are kept the limits of both chains of the first 1,024 periods that came up.
#[derive(Drop)]
pub struct Limits<K: Coeff> {
    alloc: Global,
    f: GPoly<K>,
    pairs: u64,
    evaluated: u64,
    periods: Vec<PeriodLimits<K>>,
}

impl<K: Coeff> Model for Limits<K> {
    ghost use Rattle.std.specs.Prelude.{All};
    ghost use Rattle.fj_chain.specs.Admissible.{IsAdmissible};
    ghost use Rattle.fj_jump.specs.Limits.{CountedLimits, limits_code};
    ghost use Rattle.fj_jump.specs.PeriodLimits.{AreLimitsOfPeriod};

    ghost Value = { CountedLimits };

    ghost coded = { limits_code };

    ghost view = { λ l. record { f = l.f; pairs = l.pairs; evaluated = l.evaluated } };

    ghost invariant = { λ l. IsAdmissible l.f × All (λ limits. AreLimitsOfPeriod K.field l.f limits.period.items limits.rising.given limits.falling.given) l.periods.items };
}

impl<K: Coeff> Limits<K> {
    /// The limits of f, with at most `pairs` turns in each run. f isn't constant, has a degree of at most 1,000, and doesn't
    /// use the eighth variable. It takes no memory.
    pub fn of(alloc: Global, f: GPoly<K>, pairs: u64) -> Limits<K>
        requires admissible { IsAdmissible f }
        ensures f { result.f ≡ f }
        ensures pairs { result.pairs ≡ pairs }
        ensures evaluated { result.evaluated ≡ 0 }
    {
        Limits {
            alloc,
            f,
            pairs,
            evaluated: 0,
            periods: Vec::new(alloc),
        }
    }

    /// The test ideal of f^t and the limit from the left of the test ideals at t, for 0 < t <= 1 (Blickle, Mustață and
    /// Smith 2008, section 2). The count rises by one, with a refusal too, and stays at its greatest value.
    ///
    /// `Pairs` and `High` only where a run is unfinished or too high on one of the test lists or the left lists of t, which
    /// they keep, and `Product` only where a product for such a list has a term of total degree above 2^40. It keeps f and
    /// the other polynomial.
    pub fn evaluate(&mut self, t: &Ratio) -> Result<(Ideal<K>, Ideal<K>), Stop>
        requires { IsInUnitInterval t.now }
        ensures test_ideal { IfOk result (λ r. IsTestIdeal K.field self.old.f t.now r.0.given) }
        ensures left_limit { IfOk result (λ r. IsLeftLimit K.field self.old.f t.now r.1.given) }
        ensures test_list { IfOk result (λ r. IsLastTestList K.field self.old.f t.now r.0.given) }
        ensures left_list { IfOk result (λ r. IsLastLeftList K.field self.old.f t.now r.1.given) }
        ensures ideals { IfOk result (λ r. IsIdeal K.field r.0 × IsIdeal K.field r.1) }
        ensures polynomial { IsPolynomial K.field self.old.f }
        ensures f { self.new.f ≡ self.old.f }
        ensures pairs { self.new.pairs ≡ self.old.pairs }
        ensures counted { self.new.evaluated ≡ next_count self.old.evaluated }
        ensures not_below { self.old.evaluated ≤ self.new.evaluated }
        ensures stop { StopsOnlyWith K.field (RunFor orders.Grevlex (IsJumpList K.field self.old.f t.now)) (IsHighInJump K.field self.old.f t.now) self.old.pairs result }
    {
        // f is a polynomial over K.
        let _ = self.f.is_zero();
        self.evaluated = self.evaluated.saturating_add(1);
        let digits = Digits::of(self.alloc, K::P, t)?;
        match place_of(&self.periods, &digits) {
            Ok(place) => self.periods[place].lead_on(self.alloc, &self.f, &digits, self.pairs),
            Err(place) => {
                let limits = PeriodLimits::of(self.alloc, &self.f, &digits, self.pairs)?;
                let reached = limits.lead_on(self.alloc, &self.f, &digits, self.pairs)?;
                keep(&mut self.periods, place, limits)?;
                Ok(reached)
            }
        }
    }

    /// The number of exponents at which both limits were asked for. It takes no memory.
    pub fn evaluated(&self) -> u64
        ensures { result ≡ self.now.evaluated }
    {
        self.evaluated
    }
}
