//! Quotients of ideals.
ghost use Rattle.std.specs.Prelude.{◌≡◌, ◌≢◌, ◌∷◌, [], IfOk, All};
ghost use Rattle.std.specs.FinMap.{empty};
ghost use Rattle.fj_theory.specs.Colon.{IsColon};
ghost use Rattle.fj_theory.specs.Exponents.{origin};
ghost use Rattle.fj_theory.specs.PointIdeal.{UsesFirst};
ghost use Rattle.fj_theory.specs.Polynomial.{term};
ghost use Rattle.fj_ideal.specs.Ideal.{IsIdeal, of_itself};
ghost use Rattle.fj_ideal.specs.Stop.{StopsOnlyWith};
ghost use Rattle.fj_elim.specs.Lists.{IsColonGiven, IsColonList, IsHighInColon};

use crate::bases::{colon_basis, quotient_list};
use fj_basis::Stop;
use fj_coeff::Coeff;
use fj_ideal::Ideal;
use fj_mono::Mono;
use fj_poly::{GPoly, Poly};
use std::alloc::{AllocError, Global};

// The unit ideal, made of [1].
fn unit<K: Coeff>(alloc: Global) -> Result<Ideal<K>, AllocError>
    ensures value { IfOk result (λ J. J ≡ of_itself (term 1 origin ∷ [])) }
    ensures ideal { IfOk result (IsIdeal K.field) }
{
    let one = Poly::term(alloc, K::one(), &Mono::one())?;
    Ideal::of_reduced(alloc, vec![in alloc; one]?)
}

/// The quotient of an ideal by a polynomial g, both in the first seven variables, by elimination of the eighth, t, with at
/// most `pairs` turns in each of two runs (Cox, Little and O'Shea 2015, chapter 4, section 4). By zero it is the unit ideal,
/// made of [1] without a run.
///
/// The first list has t*a for the members a, then (1 - t)*g, and is run for the order that eliminates t. The second list, of
/// which the quotient is made, has the members without t of its basis, each divided by g. `Product` only where a product of
/// the first list has a term of total degree above 2^40, and it keeps that member, or g, alone. `Pairs` only where that many
/// turns were made on one of the lists and pairs are pending, `High` only where a sugar above 2^40 arises in the run on one.
/// Both keep this list.
pub fn colon_by<K: Coeff>(
    alloc: Global,
    a: &Ideal<K>,
    g: &GPoly<K>,
    pairs: u64,
) -> Result<Ideal<K>, Stop>
    requires first { All (UsesFirst 7) a.now.members }
    requires second { UsesFirst 7 g.now }
    ensures colon { IfOk result (λ J. IsColon K.field a.now.given (g.now ∷ []) J.given) }
    ensures ideal { IfOk result (IsIdeal K.field) }
    ensures zero { g.now ≡ empty → IfOk result (λ J. IsColonGiven K.field a.now.members [] J.given) }
    ensures given { g.now ≢ empty → IfOk result (λ J. IsColonGiven K.field a.now.members (g.now ∷ []) J.given) }
    ensures variables { IfOk result (λ J. All (UsesFirst 7) J.members) }
    ensures stop { StopsOnlyWith K.field (IsColonList K.field a.now.members (g.now ∷ [])) (IsHighInColon K.field a.now.members (g.now ∷ [])) pairs result }
{
    let members = a.members();
    if g.is_zero() {
        return Ok(unit(alloc)?);
    }
    let list = quotient_list(alloc, members, g, pairs)?;
    Ideal::of_owned(alloc, list, pairs)
}

/// The quotient of two ideals in the first seven variables, by elimination of the eighth, t, with at most `pairs` turns in
/// each run (Cox, Little and O'Shea 2015, chapter 4, section 4). By zero it is the unit ideal, made of [1] without a run.
///
/// It is the meet of the quotients by the members of the second ideal, taken one after another: each as in `colon_by`, and
/// from the second on the meet, as in `meet`, of the quotient so far with that by the next member. By one member the
/// quotient is made of the last list of `colon_by`, by more of the members without t of the last meet. `Product` only where
/// a product that is formed on the way has a term of total degree above 2^40, and it keeps the one factor that isn't t or
/// 1 - t. `Pairs` only where that many turns were made on one of the lists and pairs are pending, `High` only where a sugar
/// above 2^40 arises in the run on one. Both keep this list.
pub fn colon<K: Coeff>(
    alloc: Global,
    a: &Ideal<K>,
    b: &Ideal<K>,
    pairs: u64,
) -> Result<Ideal<K>, Stop>
    requires first { All (UsesFirst 7) a.now.members }
    requires second { All (UsesFirst 7) b.now.members }
    ensures colon { IfOk result (λ J. IsColon K.field a.now.given b.now.given J.given) }
    ensures ideal { IfOk result (IsIdeal K.field) }
    ensures given { IfOk result (λ J. IsColonGiven K.field a.now.members b.now.members J.given) }
    ensures variables { IfOk result (λ J. All (UsesFirst 7) J.members) }
    ensures stop { StopsOnlyWith K.field (IsColonList K.field a.now.members b.now.members) (IsHighInColon K.field a.now.members b.now.members) pairs result }
{
    // What is given of the first ideal are polynomials.
    let _ = a.given();
    match b.members() {
        [] => Ok(unit(alloc)?),
        [g] => colon_by(alloc, a, g, pairs),
        members => {
            let list = colon_basis(alloc, a.members(), members, pairs)?;
            Ok(Ideal::of_reduced(alloc, list)?)
        }
    }
}
