//! Frobenius powers.
ghost use Rattle.std.specs.Prelude.{◌≡◌, ◌∷◌, [], ◌≤◌, ◌^◌, IfOk};
ghost use Rattle.fj_theory.specs.FrobeniusPower as theory;
ghost use Rattle.fj_theory.specs.Ideal.{ArePolynomials, SameIdeal};
ghost use Rattle.fj_theory.specs.Polynomial.{power};
ghost use Rattle.fj_plain.specs.declared.order_name.OrderName.TheVariants as orders;
ghost use Rattle.fj_ideal.specs.Ideal.{IsIdealOf};
ghost use Rattle.fj_ideal.specs.Lists.{AreLow, NoList, RunFor};
ghost use Rattle.fj_ideal.specs.Reduced.{IsReducedOf};
ghost use Rattle.fj_ideal.specs.Stop.{StopsExactlyWith, StopsOnlyWith};
ghost use Rattle.fj_frobenius.specs.Lists.{IsHighMember, IsPowerList};

use fj_basis::{Stop, kept};
use fj_coeff::Coeff;
use fj_ideal::{Ideal, Reduced};
use fj_poly::{GPoly, PolyFault};
use fj_root::frob_power;
use std::alloc::Global;
use std::slice;

/// The Frobenius power I^[q] of an ideal, q = p^e, made of the q-th powers of its members, with at most `pairs` turns
/// (Hochster and Huneke 1990). There e is at most 12.
///
/// `Product` exactly where such a power has a term of total degree above 2^40, and it keeps such a member alone. Else
/// `Pairs` exactly where that many turns were made and pairs are pending, `High` exactly where a sugar above 2^40 arises
/// within these turns or, where no pair is then pending, in finishing. Both keep the list of the powers.
pub fn frobenius_power<K: Coeff>(
    alloc: Global,
    e: u32,
    ideal: &Ideal<K>,
    pairs: u64,
) -> Result<Ideal<K>, Stop>
    requires { e ≤ 12 }
    ensures value { IfOk result (IsIdealOf K.field (theory.frobenius_power K.field (K.field.characteristic ^ e) ideal.now.members)) }
    ensures ideal { IfOk result (λ J. SameIdeal K.field (theory.frobenius_power K.field (K.field.characteristic ^ e) ideal.now.given) J.given) }
    ensures stop { StopsExactlyWith K.field (RunFor orders.Grevlex (IsPowerList K.field (K.field.characteristic ^ e) ideal.now.members)) (IsHighMember K.field (K.field.characteristic ^ e) ideal.now.members) pairs result }
{
    let list = powers(alloc, e, ideal.members())?;
    Ideal::of_owned(alloc, list, pairs)
}

/// The same power, kept without cofactors. It stops exactly where `frobenius_power` does.
pub fn reduced_frobenius_power<K: Coeff>(
    alloc: Global,
    e: u32,
    ideal: &Ideal<K>,
    pairs: u64,
) -> Result<Reduced<K>, Stop>
    requires { e ≤ 12 }
    ensures value { IfOk result (IsReducedOf K.field (theory.frobenius_power K.field (K.field.characteristic ^ e) ideal.now.members)) }
    ensures ideal { IfOk result (λ J. SameIdeal K.field (theory.frobenius_power K.field (K.field.characteristic ^ e) ideal.now.given) J.given) }
    ensures stop { StopsExactlyWith K.field (RunFor orders.Grevlex (IsPowerList K.field (K.field.characteristic ^ e) ideal.now.members)) (IsHighMember K.field (K.field.characteristic ^ e) ideal.now.members) pairs result }
{
    let list = powers(alloc, e, ideal.members())?;
    Reduced::of_owned(alloc, list, pairs)
}

// The q-th powers of polynomials, q = p^e.
fn powers<K: Coeff>(alloc: Global, e: u32, list: &[GPoly<K>]) -> Result<Vec<GPoly<K>>, Stop>
    requires { e ≤ 12 }
    ensures value { IfOk result (λ powers. powers.items ≡ theory.frobenius_power K.field (K.field.characteristic ^ e) list.now) }
    ensures low { IfOk result (λ powers. AreLow powers.items) }
    ensures stop { StopsOnlyWith K.field NoList (IsHighMember K.field (K.field.characteristic ^ e) list.now) 0 result }
{
    let mut powers = Vec::with_capacity(alloc, list.len())?;
    for g in list {
        powers.append(&mut power_of(alloc, e, g)?)?;
    }
    Ok(powers)
}

// The list of the q-th power of one polynomial, q = p^e.
fn power_of<K: Coeff>(alloc: Global, e: u32, g: &GPoly<K>) -> Result<Vec<GPoly<K>>, Stop>
    requires { e ≤ 12 }
    ensures value { IfOk result (λ powers. powers.items ≡ power K.field g.now (K.field.characteristic ^ e) ∷ []) }
    ensures low { IfOk result (λ powers. AreLow powers.items) }
    ensures stop { StopsOnlyWith K.field NoList (IsHighMember K.field (K.field.characteristic ^ e) (g.now ∷ [])) 0 result }
{
    match frob_power(alloc, e, slice::from_ref(g)) {
        Ok(powers) => Ok(powers),
        Err(PolyFault::High) => Err(Stop::Product(kept(alloc, slice::from_ref(g))?)),
        Err(PolyFault::Memory) => Err(Stop::Memory),
    }
}
