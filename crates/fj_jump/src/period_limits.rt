//! The limits of a period's two chains, from which the limits at each exponent with that period are reached.
ghost use Rattle.std.specs.Prelude.{◌≡◌, ◌≤◌, IfOk, length};
ghost use Rattle.std.specs.List.{HoldsAt};
ghost use Rattle.std.specs.List.Sorted.{IsSearchInRange};
ghost use Rattle.fj_theory.specs.Exponents.{origin};
ghost use Rattle.fj_theory.specs.Polynomial.{term};
ghost use Rattle.fj_plain.specs.declared.order_name.OrderName.TheVariants as orders;
ghost use Rattle.fj_ideal.specs.Ideal.{IsIdeal};
ghost use Rattle.fj_ideal.specs.Lists.{RunFor};
ghost use Rattle.fj_ideal.specs.Stop.{StopsOnlyWith};
ghost use Rattle.fj_chain.specs.Admissible.{IsAdmissible};
ghost use Rattle.fj_chain.specs.Lists.{LeadTo};
ghost use Rattle.fj_jump.specs.PeriodLimits.{AreLimitsOfPeriod, IsHighFrom, IsHighFromBoth, IsHighInChains, IsListFrom, IsListFromBoth, IsListOfChains, IsSameOrHas};

use fj_basis::Stop;
use fj_chain::{chain_from, follow};
use fj_coeff::Coeff;
use fj_ideal::{Ideal, Reduced};
use fj_mono::Mono;
use fj_poly::{GPoly, Poly};
use fj_ratio::Digits;
use std::alloc::{AllocError, Global};
use std::cmp::Ordering;

/// How many periods are kept at most.
const MOST_PERIODS: usize = 1024;

/// The digits of a period, with the limits of its chains from (f), which rises, and from (1), which falls.
#[derive(Drop)]
pub(crate) struct PeriodLimits<K: Coeff> {
    period: Vec<u8>,
    rising: Reduced<K>,
    falling: Reduced<K>,
}

impl<K: Coeff> PeriodLimits<K> {
    /// The limits for the period of these digits.
    pub(crate) fn of(
        alloc: Global,
        f: &GPoly<K>,
        digits: &Digits,
        pairs: u64,
    ) -> Result<PeriodLimits<K>, Stop>
        requires prime { digits.now.prime ≡ K.P }
        requires admissible { IsAdmissible f.now }
        ensures period { IfOk result (λ r. r.period.items ≡ digits.now.period) }
        ensures limits { IfOk result (λ r. AreLimitsOfPeriod K.field f.now digits.now.period r.rising.given r.falling.given) }
        ensures stop { StopsOnlyWith K.field (RunFor orders.Grevlex (IsListOfChains K.field f.now digits.now.period)) (IsHighInChains K.field f.now digits.now.period) pairs result }
    {
        let period = Vec::from_slice(alloc, digits.period())?;
        let (rising, _) = chain_from(alloc, f, f, digits, pairs)?;
        let unit = one(alloc)?;
        let (falling, _) = chain_from(alloc, &unit, f, digits, pairs)?;
        Ok(PeriodLimits {
            period,
            rising,
            falling,
        })
    }

    /// What the steps for the digits before the period reach from both limits: the test ideal, and the limit from the left,
    /// at the exponent with these digits.
    pub(crate) fn lead_on(
        &self,
        alloc: Global,
        f: &GPoly<K>,
        digits: &Digits,
        pairs: u64,
    ) -> Result<(Ideal<K>, Ideal<K>), Stop>
        ensures rising { IfOk result (λ r. LeadTo K.field f.now digits.now.pre self.now.rising.given r.0.given) }
        ensures falling { IfOk result (λ r. LeadTo K.field f.now digits.now.pre self.now.falling.given r.1.given) }
        ensures ideals { IfOk result (λ r. IsIdeal K.field r.0 × IsIdeal K.field r.1) }
        ensures stop { StopsOnlyWith K.field (RunFor orders.Grevlex (IsListFromBoth K.field f.now digits.now.pre self.now.rising.given self.now.falling.given)) (IsHighFromBoth K.field f.now digits.now.pre self.now.rising.given self.now.falling.given) pairs result }
    {
        let at = ideal_after(alloc, f, digits, &self.rising, pairs)?;
        let left = ideal_after(alloc, f, digits, &self.falling, pairs)?;
        Ok((at, left))
    }
}

// The polynomial 1.
fn one<K: Coeff>(alloc: Global) -> Result<GPoly<K>, AllocError>
    ensures { IfOk result (λ p. p ≡ term 1 origin) }
{
    Poly::term(alloc, K::one(), &Mono::one())
}

// What the steps for the digits before the period reach from a limit.
fn ideal_after<K: Coeff>(
    alloc: Global,
    f: &GPoly<K>,
    digits: &Digits,
    limit: &Reduced<K>,
    pairs: u64,
) -> Result<Ideal<K>, Stop>
    ensures list { IfOk result (λ J. LeadTo K.field f.now digits.now.pre limit.now.given J.given) }
    ensures ideal { IfOk result (IsIdeal K.field) }
    ensures stop { StopsOnlyWith K.field (RunFor orders.Grevlex (IsListFrom K.field f.now digits.now.pre limit.now.given)) (IsHighFrom K.field f.now digits.now.pre limit.now.given) pairs result }
{
    let reached = follow(alloc, f, digits.pre(), limit, pairs)?;
    reached.with_cofactors(alloc, pairs)
}

/// The place of the period of these digits, or the place for it among the periods, which rise.
pub(crate) fn place_of<K: Coeff>(
    periods: &[PeriodLimits<K>],
    digits: &Digits,
) -> Result<usize, usize>
    ensures found { IfOk result (HoldsAt (λ limits. limits.period.items ≡ digits.now.period) periods.now) }
    ensures range { IsSearchInRange result (length periods.now) }
{
    let period = digits.period();
    let mut low = 0;
    let mut high = periods.len();
    while low < high {
        let middle = low + (high - low) / 2;
        match periods[middle].period.as_slice().cmp(period) {
            Ordering::Less => low = middle + 1,
            Ordering::Equal => return Ok(middle),
            Ordering::Greater => high = middle,
        }
    }
    Err(low)
}

/// Keeps limits at their place, where there is room for one more period. After want of memory nothing is changed.
pub(crate) fn keep<K: Coeff>(
    periods: &mut Vec<PeriodLimits<K>>,
    place: usize,
    limits: PeriodLimits<K>,
) -> Result<(), AllocError>
    requires { place ≤ length periods.old.items }
    ensures { IsSameOrHas periods.old.items place limits periods.new.items }
{
    if periods.len() < MOST_PERIODS {
        periods.insert(place, limits)?;
    }
    Ok(())
}
