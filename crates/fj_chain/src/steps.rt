//! Steps: one Frobenius root for each digit of an exponent.
ghost use Rattle.std.specs.Prelude.{◌^◌, IfOk};
ghost use Rattle.fj_theory.specs.Ideal.{multiples};
ghost use Rattle.fj_theory.specs.Polynomial.{power};
ghost use Rattle.fj_theory.specs.Root.{IsRoot};
ghost use Rattle.fj_plain.specs.declared.order_name.OrderName.TheVariants as orders;
ghost use Rattle.fj_ideal.specs.Ideal.{IsIdeal};
ghost use Rattle.fj_ideal.specs.Lists.{RunFor};
ghost use Rattle.fj_ideal.specs.Reduced.{IsReduced};
ghost use Rattle.fj_ideal.specs.Stop.{StopsOnlyWith};
ghost use Rattle.fj_frobenius.specs.Lists.{IsHighMultiple, IsStepList};
ghost use Rattle.fj_chain.specs.Lists.{IsHighInStep, IsListOfStep, IsStepFor, LeadTo};

use fj_basis::Stop;
use fj_coeff::Coeff;
use fj_frobenius::{reduced_root_of_multiples, root_of_multiples};
use fj_ideal::{Ideal, Reduced};
use fj_poly::GPoly;
use std::alloc::Global;

/// The step of an ideal J with the digit d: the Frobenius root I_1(f^d*J), made of the parts at 1 of f^d*g for the members g
/// of J, in order, with at most `pairs` turns.
///
/// `Product` only where such a product has a term of total degree above 2^40, and it keeps f and such a member g. `Pairs`
/// only where that many turns were made on the list of the parts and pairs are pending, `High` only where a sugar above
/// 2^40 arises in the run on it. Both keep this list.
pub fn step<K: Coeff>(
    alloc: Global,
    d: u64,
    f: &GPoly<K>,
    ideal: &Ideal<K>,
    pairs: u64,
) -> Result<Ideal<K>, Stop>
    ensures list { IfOk result (λ J. IsStepList K.field d f.now ideal.now.members J.given) }
    ensures ideal { IfOk result (IsIdeal K.field) }
    ensures root { IfOk result (λ J. IsRoot K.field (K.field.characteristic ^ 1) (multiples K.field (power K.field f.now d) ideal.now.given) J.given) }
    ensures stop { StopsOnlyWith K.field (RunFor orders.Grevlex (IsStepList K.field d f.now ideal.now.members)) (IsHighMultiple K.field d f.now ideal.now.members) pairs result }
{
    root_of_multiples(alloc, d, f, ideal, pairs)
}

/// The steps of an ideal for the digits of a number, which come the highest first: the last one is used first. So it goes on
/// from the limit of a chain over the digits before the period. Each list is run with at most `pairs` turns, and no cofactor
/// is formed.
///
/// `Pairs` and `High` only where a run is unfinished or too high on the list of a step, which they keep, and `Product` only
/// where a product of a step has a term of total degree above 2^40. It keeps f and the other polynomial.
pub fn follow<K: Coeff>(
    alloc: Global,
    f: &GPoly<K>,
    digits: &[u8],
    start: &Reduced<K>,
    pairs: u64,
) -> Result<Reduced<K>, Stop>
    ensures list { IfOk result (λ J. LeadTo K.field f.now digits.now start.now.given J.given) }
    ensures ideal { IfOk result (IsReduced K.field) }
    ensures stop { StopsOnlyWith K.field (RunFor orders.Grevlex (IsListOfStep K.field f.now (IsStepFor K.field f.now digits.now start.now.given))) (IsHighInStep K.field f.now (IsStepFor K.field f.now digits.now start.now.given)) pairs result }
{
    // The members of the start are its reduced basis.
    let _ = start.given();
    let [others @ .., lowest] = digits else {
        return Ok(start.copy(alloc)?);
    };
    let mut reached = reduced_root_of_multiples(alloc, u64::from(*lowest), f, start, pairs)?;
    let mut left = others;
    while let [higher @ .., digit] = left {
        reached = reduced_root_of_multiples(alloc, u64::from(*digit), f, &reached, pairs)?;
        left = higher;
    }
    Ok(reached)
}
