//! The chains of a period: from (f), which rises, and from (1), which falls, up to their first repeat.
ghost use Rattle.std.specs.Prelude.{◌≡◌, ◌⊎◌, ◌+◌, ◌<◌, ◌≤◌, ◌∷◌, [], All, IfOk, Some, ℕ};
ghost use Rattle.fj_algebra.specs.StrictSteps.{monomial_count};
ghost use Rattle.fj_theory.specs.Exponents.{origin};
ghost use Rattle.fj_theory.specs.Polynomial.{IsPolynomial, degree, term};
ghost use Rattle.fj_plain.specs.declared.order_name.OrderName.TheVariants as orders;
ghost use Rattle.fj_ideal.specs.Ideal.{IsIdeal};
ghost use Rattle.fj_ideal.specs.Lists.{RunFor};
ghost use Rattle.fj_ideal.specs.Reduced.{IsReduced};
ghost use Rattle.fj_ideal.specs.Stop.{StopsOnlyWith};
ghost use Rattle.fj_testideal.specs.BoundedIdeal.{number_of, occurs_in};
ghost use Rattle.fj_testideal.specs.Chain.{IsLimit, IsNumberOfFallingPeriods, IsNumberOfRisingPeriods};
ghost use Rattle.fj_chain.specs.Admissible.{IsAdmissible};
ghost use Rattle.fj_chain.specs.Lists.{ChainEndsWith, IsChainList, IsHighInChain};

use crate::steps::follow;
use fj_basis::Stop;
use fj_coeff::Coeff;
use fj_ideal::{Ideal, Reduced};
use fj_mono::Mono;
use fj_poly::{GPoly, Poly};
use fj_ratio::Digits;
use std::alloc::{AllocError, Global};
use std::slice;

/// The limit of the period's chain from (f), the period being that of these digits, and the number of periods applied, the
/// repeating one included: the least k >= 1 for which the chain is at one ideal after k and after k - 1 periods. With n the
/// number of variables that occur in f, it is at most C(n + deg f, n) + 1. Each list is run with at most `pairs` turns. f
/// isn't constant, has a degree of at most 1,000, and doesn't use the eighth variable.
///
/// `Pairs` and `High` only where such a run is unfinished or too high on [f] or on the list of a step, which they keep, and
/// `Product` only where a product of a step has a term of total degree above 2^40. It keeps f and the other polynomial.
pub fn rising<K: Coeff>(
    alloc: Global,
    f: &GPoly<K>,
    u: &Digits,
    pairs: u64,
) -> Result<(Ideal<K>, u64), Stop>
    requires prime { u.now.prime ≡ K.P }
    requires admissible { IsAdmissible f.now }
    ensures limit { IfOk result (λ r. IsLimit K.field f.now u.now.period (f.now ∷ []) r.0.given) }
    ensures periods { IfOk result (λ r. IsNumberOfRisingPeriods K.field f.now u.now.period r.1) }
    ensures few { IfOk result (λ r. (d : ℕ) → degree f.now ≡ Some d → r.1 ≤ monomial_count (number_of (occurs_in f.now)) d + 1) }
    ensures list { IfOk result (λ r. ChainEndsWith K.field f.now u.now.period (f.now ∷ []) r.0.given) }
    ensures ideal { IfOk result (λ r. IsIdeal K.field r.0) }
    ensures stop { StopsOnlyWith K.field (RunFor orders.Grevlex (IsChainList K.field f.now u.now.period f.now)) (IsHighInChain K.field f.now u.now.period f.now) pairs result }
{
    let (limit, periods) = chain_from(alloc, f, f, u, pairs)?;
    let ideal = limit.with_cofactors(alloc, pairs)?;
    Ok((ideal, periods))
}

/// The same for the period's chain from (1).
pub fn falling<K: Coeff>(
    alloc: Global,
    f: &GPoly<K>,
    u: &Digits,
    pairs: u64,
) -> Result<(Ideal<K>, u64), Stop>
    requires prime { u.now.prime ≡ K.P }
    requires admissible { IsAdmissible f.now }
    ensures limit { IfOk result (λ r. IsLimit K.field f.now u.now.period (term 1 origin ∷ []) r.0.given) }
    ensures periods { IfOk result (λ r. IsNumberOfFallingPeriods K.field f.now u.now.period r.1) }
    ensures few { IfOk result (λ r. (d : ℕ) → degree f.now ≡ Some d → r.1 ≤ monomial_count (number_of (occurs_in f.now)) d + 1) }
    ensures list { IfOk result (λ r. ChainEndsWith K.field f.now u.now.period (term 1 origin ∷ []) r.0.given) }
    ensures ideal { IfOk result (λ r. IsIdeal K.field r.0) }
    ensures stop { StopsOnlyWith K.field (RunFor orders.Grevlex (IsChainList K.field f.now u.now.period (term 1 origin))) (IsHighInChain K.field f.now u.now.period (term 1 origin)) pairs result }
{
    let unit = one(alloc)?;
    let (limit, periods) = chain_from(alloc, &unit, f, u, pairs)?;
    let ideal = limit.with_cofactors(alloc, pairs)?;
    Ok((ideal, periods))
}

/// The polynomial 1.
pub(crate) fn one<K: Coeff>(alloc: Global) -> Result<GPoly<K>, AllocError>
    ensures { IfOk result (λ p. p ≡ term 1 origin) }
{
    Poly::term(alloc, K::one(), &Mono::one())
}

/// The chain of the period from (first), which is (f) or (1), up to its first repeat: its last ideal, and the number of
/// periods applied, as `rising` and `falling` tell them. No cofactor is formed. f isn't constant, has a degree of at most
/// 1,000, and doesn't use the eighth variable.
///
/// `Pairs` and `High` only where a run is unfinished or too high on [first] or on the list of a step, which they keep, and
/// `Product` only where a product of a step has a term of total degree above 2^40. It keeps f and the other polynomial.
pub fn chain_from<K: Coeff>(
    alloc: Global,
    first: &GPoly<K>,
    f: &GPoly<K>,
    u: &Digits,
    pairs: u64,
) -> Result<(Reduced<K>, u64), Stop>
    requires prime { u.now.prime ≡ K.P }
    requires admissible { IsAdmissible f.now }
    requires first { (first.now ≡ f.now) ⊎ (first.now ≡ term 1 origin) }
    ensures chain { IfOk result (λ r. (end : ChainEndsWith K.field f.now u.now.period (first.now ∷ []) r.0.given) × (r.1 ≡ end.periods + 1)) }
    ensures polynomial { IsPolynomial K.field f.now }
    ensures below { All (λ d. d < K.field.characteristic) u.now.period }
    ensures ideal { IfOk result (λ r. IsReduced K.field r.0) }
    ensures stop { StopsOnlyWith K.field (RunFor orders.Grevlex (IsChainList K.field f.now u.now.period first.now)) (IsHighInChain K.field f.now u.now.period first.now) pairs result }
{
    // f is a polynomial over K.
    let _ = f.is_zero();
    let period = u.period();
    let mut last = Reduced::of(alloc, slice::from_ref(first), pairs)?;
    for periods in 0..u64::MAX {
        let next = follow(alloc, f, period, &last, pairs)?;
        if next.same(&last) {
            return Ok((next, periods + 1));
        }
        last = next;
    }
    unreachable!()
}
