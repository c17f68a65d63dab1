//! F-purity, over the whole quotient and at a point.
ghost use Rattle.std.specs.Prelude.{◌≡◌, ◌≢◌, ◌↔◌, IfOk, IsTrue, All, Any, Some};
ghost use Rattle.fj_theory.specs.Evaluation.{value};
ghost use Rattle.fj_theory.specs.PointIdeal.{UsesFirst};
ghost use Rattle.fj_theory.specs.Polynomial.{degree};
ghost use Rattle.fj_theory.specs.Splitting.{IsFPure};
ghost use Rattle.fj_ideal.specs.Stop.{StopsOnlyWith};
ghost use Rattle.fj_fedder.specs.Fedder.{IsVerdictAt};
ghost use Rattle.fj_fedder.specs.Lists.{IsHighInSplit, IsListForColon, IsSplitList};

use crate::splitting::fedder_colon;
use fj_basis::Stop;
use fj_coeff::Coeff;
use fj_ideal::{Ideal, Reduced};
use fj_poly::{GPoly, Point};
use fj_root::root_list;
use std::alloc::Global;

/// Whether the polynomials modulo an ideal are F-pure at a point.
#[derive(Clone, Copy, Debug, PartialEq, Eq)]
pub enum PureAt {
    Yes,
    No,
    /// The point isn't a zero of the ideal.
    Off,
}

/// Whether the ring of polynomials modulo an ideal I in the first seven variables is F-pure: whether some p^-1-linear map
/// keeps I and sends 1 to 1 modulo I (Hochster and Roberts 1976, Fedder 1983). Each list is run with at most `pairs` turns.
///
/// By Fedder's criterion it is so exactly where `split_ideal` of I is the whole ring. It stops only as `split_ideal` does. The
/// parts are run without cofactors, and not at all where one of them is a constant.
pub fn is_pure<K: Coeff>(alloc: Global, i: &Ideal<K>, pairs: u64) -> Result<bool, Stop>
    requires { All (UsesFirst 7) i.now.members }
    ensures value { IfOk result (λ b. IsTrue b ↔ IsFPure K.field i.now.given) }
    ensures stop { StopsOnlyWith K.field (IsSplitList K.field i.now.members) (IsHighInSplit K.field i.now.members) pairs result }
{
    // What is given of the ideal are polynomials.
    let _ = i.given();
    let colon = fedder_colon(alloc, i, pairs)?;
    let parts = root_list(alloc, 1, &colon)?;
    if has_constant(&parts) {
        return Ok(true);
    }
    let split = Reduced::by_thinning(alloc, parts, pairs)?;
    Ok(split.is_unit())
}

/// Whether the ring of polynomials modulo an ideal I in the first seven variables is F-pure at a point: whether some
/// p^-1-linear map keeps I and sends 1 to a polynomial that isn't zero there (Fedder 1983). `Off` exactly where a polynomial
/// of I isn't zero at the point. Each list is run with at most `pairs` turns.
///
/// By Fedder's criterion it is so exactly where some part at 1 of a member of I^[p] : I isn't zero at the point. It stops as
/// `split_ideal` does, but runs the lists for this quotient alone, and none at all where it answers `Off`.
pub fn is_pure_at<K: Coeff>(
    alloc: Global,
    i: &Ideal<K>,
    at: &Point<K>,
    pairs: u64,
) -> Result<PureAt, Stop>
    requires { All (UsesFirst 7) i.now.members }
    ensures value { IfOk result (IsVerdictAt K.field i.now.given at.now) }
    ensures stop { StopsOnlyWith K.field (IsListForColon K.field i.now.members) (IsHighInSplit K.field i.now.members) pairs result }
{
    // What is given of the ideal are polynomials, and the coordinates are elements of the field.
    let _ = i.given();
    let _ = at.len();
    if !i.vanishes_at(at) {
        return Ok(PureAt::Off);
    }
    let colon = fedder_colon(alloc, i, pairs)?;
    let root = root_list(alloc, 1, &colon)?;
    if has_nonzero(&root, at) {
        Ok(PureAt::Yes)
    } else {
        Ok(PureAt::No)
    }
}

// Whether a polynomial of the list is a constant, which isn't zero.
fn has_constant<K: Coeff>(list: &[GPoly<K>]) -> bool
    ensures { IsTrue result → Any (λ g. degree g ≡ Some 0) list.now }
{
    list.iter().any(|g| g.degree() == Some(0))
}

// Whether a polynomial of the list isn't zero at the point.
fn has_nonzero<K: Coeff>(list: &[GPoly<K>], at: &Point<K>) -> bool
    ensures { IsTrue result ↔ Any (λ g. value K.field g at.now ≢ 0) list.now }
{
    list.iter().any(|g| g.eval(at).rank() != 0)
}
