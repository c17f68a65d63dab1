//! The acts of finishing: superfluous members are left out, the others are replaced by their remainders, and the given list
//! is divided by the result.
ghost use Rattle.std.specs.Prelude.{◌≡◌, ◌≢◌, ◌+◌, ◌<◌, ◌≤◌, ◌++◌, true, ◌∷◌, ◌&&◌, ◌||◌, not, [], List, IfOk, OnOk, All, Any, Contains, length, map};
ghost use Rattle.std.specs.List.{range_with_len};
ghost use Rattle.std.specs.FinMap.{empty};
ghost use Rattle.fj_theory.specs.Exponents.{divides};
ghost use Rattle.fj_theory.specs.Ideal.{ArePolynomials};
ghost use Rattle.fj_theory.specs.Polynomial.{IsPolynomial, Polynomial};
ghost use Rattle.fj_groebner.specs.Division.{AreWithinSugars, DegreeAtMost, Division, IsHighDivision, IsLowDivision, Sugared, degree_limit, member_at, polynomials_of};
ghost use Rattle.fj_groebner.specs.Run.{IsReplacing, given, is_left_out, kept_members, place_by_lead, sort_by_lead};
ghost use Rattle.fj_basis.specs.Finished.{AreDivisors, AreMembersOfRun, AreQuotients, IsHighReplacing, IsQuotients, IsReplacementOf};
ghost use Rattle.fj_basis.specs.History.{HasRecordedMember, IsHistoryOf};
ghost use Rattle.fj_basis.specs.Members.{sugared, sugared_members};
ghost use Rattle.fj_basis.specs.Outcome.{IsHighOnlyWhere};

use crate::division::divide_sugared;
use crate::history::{History, Source, Summand, with_negatives};
use crate::members::{Member, Row};
use crate::sugar::sugar_of;
use fj_coeff::Coeff;
use fj_mono::{Mono, Order};
use fj_poly::{Poly, PolyFault};
use std::alloc::{AllocError, Global};
use std::cmp::Ordering;

// Whether a lead makes another one superfluous, being before it or not.
fn makes_superfluous(other: &Mono, own: &Mono, is_before: bool) -> bool
    ensures { result ≡ (divides other.now.exponents own.now.exponents && (not (divides own.now.exponents other.now.exponents) || is_before)) }
{
    other.divides(own) && (!own.divides(other) || is_before)
}

// The first act: whether a member is left out, since the lead of another divides its lead. Of members with equal leads
// the first is kept.
fn is_left_out<K: Coeff, O: Order>(members: &[Member<K, O>], i: usize) -> bool
    requires nonzero { All (λ m. m.polynomial ≢ empty) members.now }
    requires place { i < length members.now }
    ensures { result ≡ is_left_out O.key (sugared_members members.now) i }
{
    let own = members[i].lead();
    for j in 0..members.len() {
        if makes_superfluous(&members[j].lead(), &own, j < i) {
            return true;
        }
    }
    false
}

// For each member whether it is left out.
fn left_out<K: Coeff, O: Order>(
    alloc: Global,
    members: &[Member<K, O>],
) -> Result<Vec<bool>, AllocError>
    requires { All (λ m. m.polynomial ≢ empty) members.now }
    ensures { IfOk result (λ out. out.items ≡ map (is_left_out O.key (sugared_members members.now)) (range_with_len 0 (length members.now))) }
{
    let mut out = Vec::with_capacity(alloc, members.len())?;
    for i in 0..members.len() {
        out.push(is_left_out(members, i))?;
    }
    Ok(out)
}

// Puts a member in front of the first whose lead isn't less.
fn place_by_lead<K: Coeff, O: Order>(
    sorted: &mut Vec<Member<K, O>>,
    member: Member<K, O>,
) -> Result<(), AllocError>
    requires nonzero { All (λ m. m.polynomial ≢ empty) sorted.old.items }
    requires member { member.polynomial ≢ empty }
    ensures value { OnOk result (sugared_members sorted.new.items ≡ place_by_lead O.key (sugared member) (sugared_members sorted.old.items)) }
    ensures among { OnOk result (All (Contains (member ∷ sorted.old.items)) sorted.new.items) }
{
    let own = member.lead();
    let mut place = 0;
    while place < sorted.len() && O::cmp(&own, &sorted[place].lead()) == Ordering::Greater {
        place += 1;
    }
    sorted.insert(place, member)?;
    Ok(())
}

// The members that the first act keeps, rising by lead.
fn sorted_by_lead<K: Coeff, O: Order>(
    alloc: Global,
    mut members: Vec<Member<K, O>>,
) -> Result<Vec<Member<K, O>>, AllocError>
    requires { All (λ m. m.polynomial ≢ empty) members.items }
    ensures value { IfOk result (λ sorted. sugared_members sorted.items ≡ sort_by_lead O.key (kept_members O.key (sugared_members members.items))) }
    ensures among { IfOk result (λ sorted. All (Contains members.items) sorted.items) }
{
    let out = left_out(alloc, &members)?;
    let mut sorted = Vec::new(alloc);
    while let Some(member) = members.pop() {
        if !out[members.len()] {
            place_by_lead(&mut sorted, member)?;
        }
    }
    Ok(sorted)
}

/// The first two acts of finishing: the members that are kept, rising by lead, each replaced by its remainder by those
/// before it.
pub(crate) fn replaced<K: Coeff, O: Order>(
    alloc: Global,
    members: Vec<Member<K, O>>,
    history: &mut History<K, O>,
) -> Result<Vec<Member<K, O>>, PolyFault>
    requires run { AreMembersOfRun K.field O.key members.items }
    requires recorded { history.old.is_kept ≡ true → length history.old.makings.items ≡ length members.items }
    ensures value { IfOk result (λ basis. IsReplacing K.field O.key (sugared_members members.items) (record { replaced = sugared_members basis.items; rest = [] })) }
    ensures history { IfOk result (λ basis. (L : List Polynomial) → IsHistoryOf K.field L (sugared_members members.items) history.old → IsHistoryOf K.field L (sugared_members members.items ++ sugared_members basis.items) history.new) }
    ensures kept { IfOk result (λ _. history.new.is_kept ≡ history.old.is_kept) }
    ensures high { IsHighOnlyWhere (IsHighReplacing K.field O.key (sugared_members members.items)) result }
{
    let from = members.len();
    let mut replaced = Vec::new(alloc);
    for member in sorted_by_lead(alloc, members)? {
        let next = replacement(alloc, member, &replaced, from, history)?;
        append_member(&mut replaced, next)?;
    }
    Ok(replaced)
}

fn append_member<K: Coeff, O: Order>(
    members: &mut Vec<Member<K, O>>,
    member: Member<K, O>,
) -> Result<(), AllocError>
    ensures { OnOk result (members.new.items ≡ members.old.items ++ member ∷ []) }
{
    members.push(member)?;
    Ok(())
}

// The remainder of a member by those that are replaced already, with its sugar, recorded in the history, where these stand
// from the place `from` on.
fn replacement<K: Coeff, O: Order>(
    alloc: Global,
    member: Member<K, O>,
    replaced: &[Member<K, O>],
    from: usize,
    history: &mut History<K, O>,
) -> Result<Member<K, O>, PolyFault>
    requires polynomials { ArePolynomials K.field (polynomials_of (sugared_members replaced.now)) }
    requires nonzero { All (λ f. f ≢ empty) (polynomials_of (sugared_members replaced.now)) }
    requires within { AreWithinSugars (sugared_members replaced.now) }
    requires polynomial { IsPolynomial K.field member.polynomial }
    requires bound { DegreeAtMost member.sugar member.polynomial }
    requires low { member.sugar ≤ degree_limit }
    requires recorded { history.old.is_kept ≡ true → length history.old.makings.items ≡ from + length replaced.now }
    ensures value { IfOk result (IsReplacementOf K.field O.key replaced.now member) }
    ensures recorded { IfOk result (λ next. (G : List Sugared) → length G ≡ from → ArePolynomials K.field (polynomials_of G) → member.place < from → member_at G member.place ≡ sugared member → HasRecordedMember K.field (G ++ sugared_members replaced.now) (sugared next) history.old history.new) }
    ensures high { IsHighOnlyWhere (IsHighDivision K.field O.key (sugared_members replaced.now) (sugared member)) result }
{
    let division = divide_sugared(alloc, &member.polynomial, member.sugar, replaced)?;
    record(alloc, member.place, division.quotients(), from, history)?;
    let (_, polynomial, sugar) = division.into_parts();
    Ok(Member {
        polynomial,
        sugar,
        place: member.place,
    })
}

// Records that the polynomial at a place less the multiples by the quotients is made.
fn record<K: Coeff, O: Order>(
    alloc: Global,
    place: usize,
    quotients: &[Poly<K, O>],
    from: usize,
    history: &mut History<K, O>,
) -> Result<(), AllocError>
    requires quotients { ArePolynomials K.field quotients.now }
    requires recorded { history.old.is_kept ≡ true → length history.old.makings.items ≡ from + length quotients.now }
    ensures { OnOk result ((G B : List Sugared) (last : Division) → length G ≡ from → place < from → ArePolynomials K.field (polynomials_of G) → AreDivisors K.field B → DegreeAtMost (member_at G place).sugar (member_at G place).polynomial → IsLowDivision K.field O.key B (member_at G place) last → quotients.now ≡ last.quotients → HasRecordedMember K.field (G ++ B) (record { polynomial = last.remainder; sugar = last.sugar }) history.old history.new) }
{
    if history.is_kept {
        let factor = Poly::term(alloc, K::one(), &Mono::one())?;
        let member = vec![in alloc; Summand { place, factor }]?;
        let summands = with_negatives(alloc, member, quotients, from)?;
        history.push(alloc, K::one(), Source::Combined(summands))?;
    }
    Ok(())
}

/// The third act: each polynomial of the list is divided by the result. The quotients are its cofactors.
pub(crate) fn given_rows<K: Coeff, O: Order>(
    alloc: Global,
    list: &[Poly<K, O>],
    basis: &[Member<K, O>],
) -> Result<Vec<Row<K, O>>, PolyFault>
    requires polynomials { ArePolynomials K.field (polynomials_of (sugared_members basis.now)) }
    requires nonzero { All (λ f. f ≢ empty) (polynomials_of (sugared_members basis.now)) }
    requires within { AreWithinSugars (sugared_members basis.now) }
    ensures rows { IfOk result (λ rows. AreQuotients K.field O.key (sugared_members basis.now) list.now (map (λ row. row.items) rows.items)) }
    ensures high { IsHighOnlyWhere (Any (λ f. IsHighDivision K.field O.key (sugared_members basis.now) (given f)) list.now) result }
{
    let mut rows = Vec::with_capacity(alloc, list.len())?;
    for f in list {
        let row = given_row(alloc, f, basis)?;
        append_row(&mut rows, row)?;
    }
    Ok(rows)
}

// The cofactors of a polynomial that the basis divides.
fn given_row<K: Coeff, O: Order>(
    alloc: Global,
    f: &Poly<K, O>,
    basis: &[Member<K, O>],
) -> Result<Row<K, O>, PolyFault>
    requires polynomials { ArePolynomials K.field (polynomials_of (sugared_members basis.now)) }
    requires nonzero { All (λ f. f ≢ empty) (polynomials_of (sugared_members basis.now)) }
    requires within { AreWithinSugars (sugared_members basis.now) }
    ensures row { IfOk result (λ row. IsQuotients K.field O.key (sugared_members basis.now) f.now row.items) }
    ensures high { IsHighOnlyWhere (IsHighDivision K.field O.key (sugared_members basis.now) (given f.now)) result }
{
    let division = divide_sugared(alloc, f, sugar_of(f), basis)?;
    let (quotients, _, _) = division.into_parts();
    Ok(quotients)
}

fn append_row<K: Coeff, O: Order>(
    rows: &mut Vec<Row<K, O>>,
    row: Row<K, O>,
) -> Result<(), AllocError>
    ensures { OnOk result (rows.new.items ≡ rows.old.items ++ row ∷ []) }
{
    rows.push(row)?;
    Ok(())
}
