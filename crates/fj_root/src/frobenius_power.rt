//! Frobenius powers of lists.
ghost use Rattle.std.specs.Prelude.{◌≡◌, ◌≤◌, ◌^◌, IfOk};
ghost use Rattle.std.specs.List.{Any};
ghost use Rattle.fj_theory.specs.FrobeniusPower.{frobenius_power};
ghost use Rattle.fj_poly.specs.Limit.{IsHigh, IsHighWhere};

use fj_coeff::Coeff;
use fj_mono::Order;
use fj_poly::{Poly, PolyFault};
use std::alloc::Global;

/// The power p^e of the characteristic, e at most 12.
pub(crate) fn frobenius_exponent<K: Coeff>(e: u32) -> u64
    requires { e ≤ 12 }
    ensures { result ≡ K.field.characteristic ^ e }
{
    K::P.pow(e)
}

/// The q-th power of each polynomial of the list, in order, q = p^e: the list generates the Frobenius power of the ideal
/// (Hochster and Huneke 1990). Both the exponents and the coefficients go to their q-th powers. There e is at most 12.
/// `High` exactly where a term of a power passes total degree 2^40.
pub fn frob_power<K: Coeff, O: Order>(
    alloc: Global,
    e: u32,
    list: &[Poly<K, O>],
) -> Result<Vec<Poly<K, O>>, PolyFault>
    requires { e ≤ 12 }
    ensures value { IfOk result (λ powers. powers.items ≡ frobenius_power K.field (K.field.characteristic ^ e) list.now) }
    ensures high { IsHighWhere (Any IsHigh (frobenius_power K.field (K.field.characteristic ^ e) list.now)) result }
{
    let q = frobenius_exponent::<K>(e);
    let mut powers = Vec::with_capacity(alloc, list.len())?;
    for g in list {
        powers.push(g.pow(alloc, q)?)?;
    }
    Ok(powers)
}
