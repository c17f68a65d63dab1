//! Compatibility, by a Frobenius root.
ghost use Rattle.std.specs.Prelude.{◌≤◌, ◌↔◌, ◌∷◌, [], IfOk, IsTrue};
ghost use Rattle.fj_theory.specs.Ideal.{Inside};
ghost use Rattle.fj_theory.specs.Splitting.{IsCompatible};
ghost use Rattle.fj_ideal.specs.Lists.{IsHighPair, NoList};
ghost use Rattle.fj_ideal.specs.Stop.{StopsExactlyWith};

use crate::products::multiples;
use fj_basis::Stop;
use fj_coeff::Coeff;
use fj_ideal::Ideal;
use fj_poly::GPoly;
use fj_root::root_list;
use std::alloc::{AllocError, Global};

/// Whether the ideal J is compatible with u at e: whether the map that sends h to the part of u*h at (q - 1, .., q - 1) over
/// q-th powers, q = p^e, sends J into J (Schwede 2009). There e is at most 12.
///
/// It is so exactly where the Frobenius root at e of the multiples u*J is inside J (Blickle, Mustață and Smith 2008, section
/// 2): where each part at e of u*g is in J, for the members g of J. `Product` exactly where such a product u*g has a term of
/// total degree above 2^40, and it keeps u and such a member g. Nothing is run: `Pairs` and `High` never come.
pub fn compatible<K: Coeff>(alloc: Global, e: u32, u: &GPoly<K>, j: &Ideal<K>) -> Result<bool, Stop>
    requires { e ≤ 12 }
    ensures value { IfOk result (λ b. IsTrue b ↔ IsCompatible K.field e u.now j.now.given) }
    ensures stop { StopsExactlyWith K.field NoList (IsHighPair K.field (u.now ∷ []) j.now.members) 0 result }
{
    // u is a polynomial over K.
    let _ = u.is_zero();
    let products = multiples(alloc, u, j.members())?;
    let root = root_list(alloc, e, &products)?;
    Ok(has_all(alloc, j, &root)?)
}

// Whether each polynomial of the list is in the ideal.
fn has_all<K: Coeff>(alloc: Global, ideal: &Ideal<K>, list: &[GPoly<K>]) -> Result<bool, AllocError>
    ensures { IfOk result (λ b. IsTrue b ↔ Inside K.field list.now ideal.now.given) }
{
    for h in list {
        if ideal.member(alloc, h)?.is_none() {
            return Ok(false);
        }
    }
    Ok(true)
}
