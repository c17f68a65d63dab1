//! Frobenius roots.
ghost use Rattle.std.specs.Prelude.{◌≤◌, ◌^◌, IfOk};
ghost use Rattle.std.specs.List.{Any};
ghost use Rattle.fj_theory.specs.Ideal.{multiples};
ghost use Rattle.fj_theory.specs.Polynomial.{power};
ghost use Rattle.fj_theory.specs.Root.{IsRoot};
ghost use Rattle.fj_plain.specs.declared.order_name.OrderName.TheVariants as orders;
ghost use Rattle.fj_poly.specs.Limit.{IsHigh};
ghost use Rattle.fj_basis.specs.Outcome.{AreWritten};
ghost use Rattle.fj_ideal.specs.Ideal.{IsIdeal};
ghost use Rattle.fj_ideal.specs.Lists.{NoList, NoProduct, RunFor};
ghost use Rattle.fj_ideal.specs.Reduced.{IsReduced};
ghost use Rattle.fj_ideal.specs.Stop.{IsProductOf, StopsOnlyWith, key_of};
ghost use Rattle.fj_frobenius.specs.Lists.{IsHighMultiple, IsRootList, IsStepList};

use fj_basis::Stop;
use fj_coeff::Coeff;
use fj_ideal::{Ideal, Reduced, kept_pair};
use fj_plain::Kept;
use fj_poly::{GPoly, PolyFault};
use fj_root::{root_gens, root_list};
use std::alloc::{AllocError, Global};
use std::slice;

/// The Frobenius root I_e(J) of an ideal, the smallest ideal whose Frobenius power has it inside, made of the parts at e of
/// its members, with at most `pairs` turns (Blickle, Mustață and Smith 2008). There e is at most 12.
///
/// `Pairs` only where that many turns were made on the list of these parts and pairs are pending, `High` only where a sugar
/// above 2^40 arises in the run on it. Both keep this list. `Product` never comes.
pub fn frobenius_root<K: Coeff>(
    alloc: Global,
    e: u32,
    ideal: &Ideal<K>,
    pairs: u64,
) -> Result<Ideal<K>, Stop>
    requires { e ≤ 12 }
    ensures list { IfOk result (λ J. IsRootList K.field (K.field.characteristic ^ e) ideal.now.members J.given) }
    ensures ideal { IfOk result (IsIdeal K.field) }
    ensures root { IfOk result (λ J. IsRoot K.field (K.field.characteristic ^ e) ideal.now.given J.given) }
    ensures stop { StopsOnlyWith K.field (RunFor orders.Grevlex (IsRootList K.field (K.field.characteristic ^ e) ideal.now.members)) NoProduct pairs result }
{
    let list = root_list(alloc, e, ideal.members())?;
    Ideal::of_owned(alloc, list, pairs)
}

/// The Frobenius root at 1 of the multiples f^d*J, made of the parts at 1 of f^d*g for the members g of J, in order, with at
/// most `pairs` turns: one step of a chain that leads to a test ideal (Blickle, Mustață and Smith 2008).
///
/// `Product` only where such a product has a term of total degree above 2^40, and it keeps f and such a member g. `Pairs`
/// only where that many turns were made on the list of the parts and pairs are pending, `High` only where a sugar above
/// 2^40 arises in the run on it. Both keep this list.
pub fn root_of_multiples<K: Coeff>(
    alloc: Global,
    d: u64,
    f: &GPoly<K>,
    ideal: &Ideal<K>,
    pairs: u64,
) -> Result<Ideal<K>, Stop>
    ensures list { IfOk result (λ J. IsStepList K.field d f.now ideal.now.members J.given) }
    ensures ideal { IfOk result (IsIdeal K.field) }
    ensures root { IfOk result (λ J. IsRoot K.field (K.field.characteristic ^ 1) (multiples K.field (power K.field f.now d) ideal.now.given) J.given) }
    ensures stop { StopsOnlyWith K.field (RunFor orders.Grevlex (IsStepList K.field d f.now ideal.now.members)) (IsHighMultiple K.field d f.now ideal.now.members) pairs result }
{
    // f is a polynomial over K.
    let _ = f.is_zero();
    let list = step_list(alloc, d, f, ideal.members())?;
    Ideal::of_owned(alloc, list, pairs)
}

/// The same step among ideals that are kept without cofactors: the Frobenius root at 1 of the multiples f^d*J, made of the
/// parts at 1 of f^d*g for the members g of J, in order, with at most `pairs` turns.
///
/// It stops only where `root_of_multiples` may, and seldom as soon, since its basis is found from fewer generators.
pub fn reduced_root_of_multiples<K: Coeff>(
    alloc: Global,
    d: u64,
    f: &GPoly<K>,
    ideal: &Reduced<K>,
    pairs: u64,
) -> Result<Reduced<K>, Stop>
    ensures list { IfOk result (λ J. IsStepList K.field d f.now ideal.now.members J.given) }
    ensures ideal { IfOk result (IsReduced K.field) }
    ensures root { IfOk result (λ J. IsRoot K.field (K.field.characteristic ^ 1) (multiples K.field (power K.field f.now d) ideal.now.given) J.given) }
    ensures stop { StopsOnlyWith K.field (RunFor orders.Grevlex (IsStepList K.field d f.now ideal.now.members)) (IsHighMultiple K.field d f.now ideal.now.members) pairs result }
{
    // f is a polynomial over K.
    let _ = f.is_zero();
    let members = ideal.members();
    let list = step_list(alloc, d, f, members)?;
    Reduced::by_thinning(alloc, list, pairs)
}

// The parts at 1 of f^d*g for the polynomials g of a list, in order.
fn step_list<K: Coeff>(
    alloc: Global,
    d: u64,
    f: &GPoly<K>,
    list: &[GPoly<K>],
) -> Result<Vec<GPoly<K>>, Stop>
    ensures list { IfOk result (λ parts. IsStepList K.field d f.now list.now parts.items) }
    ensures root { IfOk result (λ parts. IsRoot K.field (K.field.characteristic ^ 1) (multiples K.field (power K.field f.now d) list.now) parts.items) }
    ensures stop { StopsOnlyWith K.field NoList (IsHighMultiple K.field d f.now list.now) 0 result }
{
    match root_gens(alloc, d, f, list) {
        Ok(parts) => Ok(parts),
        Err(PolyFault::High) => Err(Stop::Product(high_multiple(alloc, d, f, list)?)),
        Err(PolyFault::Memory) => Err(Stop::Memory),
    }
}

// f and the first polynomial g of the list for which f^d*g passes degree 2^40, as a stop keeps them.
fn high_multiple<K: Coeff>(
    alloc: Global,
    d: u64,
    f: &GPoly<K>,
    list: &[GPoly<K>],
) -> Result<Kept, AllocError>
    requires { Any IsHigh (multiples K.field (power K.field f.now d) list.now) }
    ensures product { IfOk result (IsProductOf (IsHighMultiple K.field d f.now list.now)) }
    ensures written { IfOk result (λ k. AreWritten K.field (key_of k.order) k.list) }
{
    for g in list {
        match root_gens(alloc, d, f, slice::from_ref(g)) {
            Ok(_) => {}
            Err(PolyFault::High) => return kept_pair(alloc, f, g),
            Err(PolyFault::Memory) => return Err(AllocError),
        }
    }
    unreachable!()
}
