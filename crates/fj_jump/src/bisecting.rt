//! The search for F-jumping numbers among the candidates, by bisection.
ghost use Rattle.std.specs.Prelude.{◌≡◌, ◌+◌, ◌<◌, ◌≤◌, ◌^◌, ◌↔◌, ◌∷◌, ◌++◌, [], All, Any, Contains, IfOk, IsTrue, OnOk, length, map};
ghost use Rattle.std.specs.List.Sorted.{IsStrictlySortedBy};
ghost use Rattle.fj_theory.specs.Exponents.{origin};
ghost use Rattle.fj_theory.specs.Fraction.{Fraction, IsInUnitInterval, SameValue, compare};
ghost use Rattle.fj_theory.specs.Ideal.{SameIdeal};
ghost use Rattle.fj_theory.specs.Polynomial.{IsPolynomial, term};
ghost use Rattle.fj_plain.specs.declared.order_name.OrderName.TheVariants as orders;
ghost use Rattle.fj_ideal.specs.Ideal.{IsIdeal, of_itself};
ghost use Rattle.fj_ideal.specs.Lists.{RunFor};
ghost use Rattle.fj_ideal.specs.Stop.{IsAnswered, NothingStops, StopsOnlyWith};
ghost use Rattle.fj_testideal.specs.Jump.{IsJump};
ghost use Rattle.fj_testideal.specs.JumpList.{AreJumps, AreOpenGaps};
ghost use Rattle.fj_testideal.specs.TestIdeal.{IsLeftLimit, IsTestIdeal};
ghost use Rattle.fj_jump.specs.Count.{RisesByFew, RisesByFewAmong, RisesWithinLength};
ghost use Rattle.fj_jump.specs.Lists.{IsHighAtOne, IsHighInSearch, IsListAtOne, IsSearchList};
ghost use Rattle.fj_jump.specs.Rows.{gap_of, jump_of};
ghost use Rattle.fj_jump.specs.Search.{AreFoundBetween, HasRowWhereChanged, IsMadeOfLastList, RiseBetween, zero_fraction};

use crate::limits::Limits;
use crate::rows::{GapList, GapRow, JumpList, JumpRow, Jumps};
use fj_basis::Stop;
use fj_coeff::Coeff;
use fj_ideal::Ideal;
use fj_mono::Mono;
use fj_poly::Poly;
use fj_ratio::{Ratio, candidates};
use std::alloc::{AllocError, Global};

/// The F-jumping numbers among the candidates C_e, rising, each with its test ideal, and the gaps between neighbours in 0 and
/// C_e on which the test ideal isn't constant, rising (Blickle, Mustață and Smith 2008, section 2). Where there is no such
/// gap, the numbers are all F-jumping numbers in (0, 1]. It bisects: with s rows in all, and k the number of binary digits of
/// the length of C_e, both limits are asked for at 1 + s*k candidates at most. e >= 1 and P^e <= 65,536.
///
/// `Pairs` and `High` only where a run is unfinished or too high on one of the test lists or the left lists of a candidate,
/// which they keep, and `Product` only where a product for such a list has a term of total degree above 2^40. It keeps f and
/// the other polynomial.
pub fn search<K: Coeff>(alloc: Global, limits: &mut Limits<K>, e: u32) -> Result<Jumps<K>, Stop>
    requires positive { 1 ≤ e }
    requires small { K.P ^ e ≤ 65536 }
    ensures jumps { IfOk result (λ r. AreJumps K.field limits.old.f e (map jump_of r.jumps)) }
    ensures unsettled { IfOk result (λ r. AreOpenGaps K.field limits.old.f e (map gap_of r.unsettled)) }
    ensures complete { IfOk result (λ r. IsTrue r.complete ↔ (r.unsettled ≡ [])) }
    ensures all { IfOk result (λ r. IsTrue r.complete → (t : Fraction) → IsInUnitInterval t → IsJump K.field limits.old.f t ↔ Any (λ row. SameValue t row.at) r.jumps) }
    ensures ideals { IfOk result (λ r. All (IsMadeOfLastList K.field limits.old.f) r.jumps) }
    ensures few { IfOk result (λ r. RisesByFew K.P e (length r.jumps + length r.unsettled) limits.old.evaluated limits.new.evaluated) }
    ensures within { RisesWithinLength K.P e limits.old.evaluated limits.new.evaluated }
    ensures f { limits.new.f ≡ limits.old.f }
    ensures pairs { limits.new.pairs ≡ limits.old.pairs }
    ensures stop { StopsOnlyWith K.field (RunFor orders.Grevlex (IsSearchList K.field limits.old.f e)) (IsHighInSearch K.field limits.old.f e) limits.old.pairs result }
    ensures answered { NothingStops K.field (RunFor orders.Grevlex (IsSearchList K.field limits.old.f e)) (IsHighInSearch K.field limits.old.f e) limits.old.pairs → IsAnswered result }
{
    let list = candidates(alloc, K::P, e)?;
    let [inner @ .., last] = list.as_slice() else {
        unreachable!()
    };
    let whole = unit(alloc)?;
    let (at, left) = limits.evaluate(last)?;
    let mut found = settle(alloc, limits, &zero(), &whole, inner, last, &left)?;
    push_where_changed(&mut found.jumps, last, at, &left)?;
    let complete = found.gaps.is_empty();
    Ok(Jumps {
        jumps: JumpList::of(found.jumps),
        unsettled: GapList::of(found.gaps),
        complete,
    })
}

// The rows of an interval.
#[derive(Drop)]
struct Found<K: Coeff> {
    jumps: Vec<JumpRow<K>>,
    gaps: Vec<GapRow>,
}

// What there is between two exponents, by the test ideal at the lower one, the candidates between them, and the left limit at
// the upper one. Where the two ideals are equal there is nothing, and where they differ on neighbours the gap is open.
fn settle<K: Coeff>(
    alloc: Global,
    limits: &mut Limits<K>,
    from: &Ratio,
    test_ideal: &Ideal<K>,
    inner: &[Ratio],
    to: &Ratio,
    left_limit: &Ideal<K>,
) -> Result<Found<K>, Stop>
    requires polynomial { IsPolynomial K.field limits.old.f }
    requires rising { RiseBetween from.now inner.now to.now }
    requires unit { All IsInUnitInterval inner.now }
    requires test_ideal { IsTestIdeal K.field limits.old.f from.now test_ideal.now.given }
    requires left_limit { IsLeftLimit K.field limits.old.f to.now left_limit.now.given }
    ensures found { IfOk result (λ r. AreFoundBetween K.field limits.old.f from.now inner.now to.now r.jumps.items r.gaps.items) }
    ensures none { IfOk result (λ r. length r.jumps.items + length r.gaps.items ≡ 0 → SameIdeal K.field test_ideal.now.given left_limit.now.given) }
    ensures few { IfOk result (λ r. RisesByFewAmong (length inner.now) (length r.jumps.items + length r.gaps.items) limits.old.evaluated limits.new.evaluated) }
    ensures not_below { limits.old.evaluated ≤ limits.new.evaluated }
    ensures at_most { limits.new.evaluated ≤ limits.old.evaluated + length inner.now }
    ensures f { limits.new.f ≡ limits.old.f }
    ensures pairs { limits.new.pairs ≡ limits.old.pairs }
    ensures stop { StopsOnlyWith K.field (RunFor orders.Grevlex (IsListAtOne K.field limits.old.f (Contains inner.now))) (IsHighAtOne K.field limits.old.f (Contains inner.now)) limits.old.pairs result }
{
    if test_ideal.same(left_limit) {
        return Ok(nothing(alloc));
    }
    let (below, rest) = inner.split_at(inner.len() / 2);
    let [middle, above @ ..] = rest else {
        return Ok(open_gap(alloc, from, to)?);
    };
    let (at, left) = limits.evaluate(middle)?;
    let mut found = settle(alloc, limits, from, test_ideal, below, middle, &left)?;
    let others = settle(alloc, limits, middle, &at, above, to, left_limit)?;
    push_where_changed(&mut found.jumps, middle, at, &left)?;
    Ok(joined(found, others)?)
}

// No row.
fn nothing<K: Coeff>(alloc: Global) -> Found<K>
    ensures jumps { result.jumps.items ≡ [] }
    ensures gaps { result.gaps.items ≡ [] }
{
    Found {
        jumps: Vec::new(alloc),
        gaps: Vec::new(alloc),
    }
}

// The row of an open gap alone.
fn open_gap<K: Coeff>(alloc: Global, from: &Ratio, to: &Ratio) -> Result<Found<K>, AllocError>
    ensures jumps { IfOk result (λ r. r.jumps.items ≡ []) }
    ensures gaps { IfOk result (λ r. r.gaps.items ≡ record { from = from.now; to = to.now } ∷ []) }
{
    let mut found = nothing(alloc);
    found.gaps.push(GapRow {
        from: *from,
        to: *to,
    })?;
    Ok(found)
}

// The rows of two intervals, one after the other.
fn joined<K: Coeff>(mut found: Found<K>, mut others: Found<K>) -> Result<Found<K>, AllocError>
    ensures jumps { IfOk result (λ r. r.jumps.items ≡ found.jumps.items ++ others.jumps.items) }
    ensures gaps { IfOk result (λ r. r.gaps.items ≡ found.gaps.items ++ others.gaps.items) }
{
    found.jumps.append(&mut others.jumps)?;
    found.gaps.append(&mut others.gaps)?;
    Ok(found)
}

// Adds the row of t, where the test ideal there isn't the left limit.
fn push_where_changed<K: Coeff>(
    rows: &mut Vec<JumpRow<K>>,
    t: &Ratio,
    test_ideal: Ideal<K>,
    left_limit: &Ideal<K>,
) -> Result<(), AllocError>
    ensures { OnOk result (HasRowWhereChanged K.field t.now left_limit.now.given test_ideal rows.old.items rows.new.items) }
{
    if !left_limit.same(&test_ideal) {
        rows.push(JumpRow {
            at: *t,
            ideal: test_ideal,
        })?;
    }
    Ok(())
}

// The fraction 0.
fn zero() -> Ratio
    ensures { result ≡ zero_fraction }
{
    Ratio::new(0, 1).unwrap()
}

// The unit ideal, made of [1].
fn unit<K: Coeff>(alloc: Global) -> Result<Ideal<K>, AllocError>
    ensures { IfOk result (λ J. J ≡ of_itself (term 1 origin ∷ [])) }
{
    let one = Poly::term(alloc, K::one(), &Mono::one())?;
    Ideal::of_reduced(alloc, vec![in alloc; one]?)
}
