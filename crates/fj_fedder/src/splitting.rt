//! The ideal of the values at 1 of splittings.
ghost use Rattle.std.specs.Prelude.{◌≡◌, ◌^◌, ◌∷◌, [], IfOk, All};
ghost use Rattle.fj_theory.specs.FrobeniusPower as theory;
ghost use Rattle.fj_theory.specs.Lead.{lead_coefficient};
ghost use Rattle.fj_theory.specs.MonomialOrder.{grevlex_key};
ghost use Rattle.fj_theory.specs.PointIdeal.{UsesFirst};
ghost use Rattle.fj_theory.specs.Polynomial.{power};
ghost use Rattle.fj_poly.specs.Limit.{IsHigh};
ghost use Rattle.fj_ideal.specs.Ideal.{IsIdeal};
ghost use Rattle.fj_ideal.specs.Stop.{StopsOnlyWith};
ghost use Rattle.fj_elim.specs.Lists.{IsColonBasis};
ghost use Rattle.fj_fedder.specs.Fedder.{IsFedderColon, IsSplitIdeal};
ghost use Rattle.fj_fedder.specs.Lists.{IsFedderColonBasis, IsHighInSplit, IsListForColon, IsSplitGiven, IsSplitList};

use fj_basis::Stop;
use fj_coeff::Coeff;
use fj_elim::colon_basis;
use fj_frobenius::reduced_frobenius_power;
use fj_ideal::Ideal;
use fj_mono::Mono;
use fj_poly::{GPoly, Poly, PolyFault};
use fj_root::root_list;
use std::alloc::{AllocError, Global};

// The reduced basis of the quotient of (f^p) by (f) for a monic f, p the characteristic: f cancels, and so it is f^(p-1).
fn principal_colon<K: Coeff>(alloc: Global, f: &GPoly<K>) -> Result<GPoly<K>, AllocError>
    requires monic { lead_coefficient grevlex_key f.now ≡ 1 }
    requires low { IsHigh (power K.field f.now (K.field.characteristic ^ 1)) → ⊥ }
    requires variables { UsesFirst 7 f.now }
    ensures basis { IfOk result (λ h. IsColonBasis K.field (theory.frobenius_power K.field (K.field.characteristic ^ 1) (f.now ∷ [])) (f.now ∷ []) (h ∷ [])) }
    ensures variables { IfOk result (UsesFirst 7) }
{
    // f is a polynomial over K.
    let _ = f.is_zero();
    match f.pow(alloc, K::P - 1) {
        Ok(power) => Ok(power),
        Err(PolyFault::High) => unreachable!(),
        Err(PolyFault::Memory) => Err(AllocError),
    }
}

/// The reduced basis of the quotient I^[p] : I of an ideal I, p the characteristic, with at most `pairs` turns in each run.
/// For an ideal of one polynomial no pair is run, and no cofactor is formed.
pub(crate) fn fedder_colon<K: Coeff>(
    alloc: Global,
    i: &Ideal<K>,
    pairs: u64,
) -> Result<Vec<GPoly<K>>, Stop>
    requires { All (UsesFirst 7) i.now.members }
    ensures colon { IfOk result (λ C. IsFedderColon K.field i.now.given C.items) }
    ensures basis { IfOk result (λ C. IsFedderColonBasis K.field i.now.members C.items) }
    ensures variables { IfOk result (λ C. All (UsesFirst 7) C.items) }
    ensures stop { StopsOnlyWith K.field (IsListForColon K.field i.now.members) (IsHighInSplit K.field i.now.members) pairs result }
{
    // What is given of the ideal are polynomials.
    let _ = i.given();
    let power = reduced_frobenius_power(alloc, 1, i, pairs)?;
    match i.members() {
        [] => Ok(vec![in alloc; Poly::term(alloc, K::one(), &Mono::one())?]?),
        [f] => Ok(vec![in alloc; principal_colon(alloc, f)?]?),
        members => colon_basis(alloc, power.members(), members, pairs),
    }
}

/// The Frobenius root at 1 of the quotient I^[p] : I, p the characteristic, of an ideal I in the first seven variables, with
/// at most `pairs` turns in each run. By Fedder's criterion it decides whether the polynomials modulo I are
/// F-pure (Fedder 1983, section 1). It is made of the parts at 1 of the members of the quotient, in order.
///
/// The lists are the p-th powers of the members of I, those of `colon` for the ideal of these powers and I, and the parts.
/// `Pairs` only where that many turns were made on one of the lists and pairs are pending, `High` only where a sugar above
/// 2^40 arises in the run on one. Both keep this list. `Product` only where such a p-th power, or a product for the quotient,
/// has a term of total degree above 2^40, and it keeps the member, or the one factor that isn't t or 1 - t.
pub fn split_ideal<K: Coeff>(alloc: Global, i: &Ideal<K>, pairs: u64) -> Result<Ideal<K>, Stop>
    requires { All (UsesFirst 7) i.now.members }
    ensures split { IfOk result (λ J. IsSplitIdeal K.field i.now.given J.given) }
    ensures ideal { IfOk result (IsIdeal K.field) }
    ensures given { IfOk result (λ J. IsSplitGiven K.field i.now.members J.given) }
    ensures variables { IfOk result (λ J. All (UsesFirst 7) J.members) }
    ensures stop { StopsOnlyWith K.field (IsSplitList K.field i.now.members) (IsHighInSplit K.field i.now.members) pairs result }
{
    let colon = fedder_colon(alloc, i, pairs)?;
    let parts = root_list(alloc, 1, &colon)?;
    Ideal::of_owned(alloc, parts, pairs)
}
