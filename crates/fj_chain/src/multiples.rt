//! Multiples of an ideal by a power of f.
ghost use Rattle.std.specs.Prelude.{◌≤◌, IfOk};
ghost use Rattle.fj_plain.specs.declared.order_name.OrderName.TheVariants as orders;
ghost use Rattle.fj_ideal.specs.Lists.{NoList, RunFor};
ghost use Rattle.fj_ideal.specs.Reduced.{IsReduced};
ghost use Rattle.fj_ideal.specs.Stop.{StopsOnlyWith};
ghost use Rattle.fj_frobenius.specs.Lists.{IsHighMultiple};
ghost use Rattle.fj_chain.specs.Admissible.{IsAdmissible};
ghost use Rattle.fj_chain.specs.Lists.{IsMultipleList};

use fj_basis::Stop;
use fj_coeff::Coeff;
use fj_ideal::{Reduced, kept_pair};
use fj_poly::{GPoly, PolyFault};
use std::alloc::Global;

/// The ideal of the multiples f^k*g of the members g of an ideal, in order.
pub(crate) fn ideal_of_multiples<K: Coeff>(
    alloc: Global,
    k: u64,
    f: &GPoly<K>,
    ideal: &Reduced<K>,
    pairs: u64,
) -> Result<Reduced<K>, Stop>
    requires small { k ≤ 8 }
    requires admissible { IsAdmissible f.now }
    ensures list { IfOk result (λ J. IsMultipleList K.field k f.now ideal.now.members J.given) }
    ensures ideal { IfOk result (IsReduced K.field) }
    ensures stop { StopsOnlyWith K.field (RunFor orders.Grevlex (IsMultipleList K.field k f.now ideal.now.members)) (IsHighMultiple K.field k f.now ideal.now.members) pairs result }
{
    let list = multiples(alloc, k, f, ideal.members())?;
    Reduced::of_owned(alloc, list, pairs)
}

// The multiples f^k*g of the polynomials g of a list, in order.
fn multiples<K: Coeff>(
    alloc: Global,
    k: u64,
    f: &GPoly<K>,
    list: &[GPoly<K>],
) -> Result<Vec<GPoly<K>>, Stop>
    requires small { k ≤ 8 }
    requires admissible { IsAdmissible f.now }
    ensures list { IfOk result (λ multiples. IsMultipleList K.field k f.now list.now multiples.items) }
    ensures stop { StopsOnlyWith K.field NoList (IsHighMultiple K.field k f.now list.now) 0 result }
{
    let factor = match f.pow(alloc, k) {
        Ok(factor) => factor,
        Err(PolyFault::High) => unreachable!(),
        Err(PolyFault::Memory) => return Err(Stop::Memory),
    };
    let mut multiples = Vec::with_capacity(alloc, list.len())?;
    for g in list {
        match factor.mul(alloc, g) {
            Ok(product) => multiples.push(product)?,
            Err(PolyFault::High) => return Err(Stop::Product(kept_pair(alloc, f, g)?)),
            Err(PolyFault::Memory) => return Err(Stop::Memory),
        }
    }
    Ok(multiples)
}
