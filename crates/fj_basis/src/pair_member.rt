//! The member that a pair of a run gives, and how it is made.
ghost use Rattle.std.specs.Prelude.{◌≡◌, ◌≢◌, ◌+◌, ◌-◌, ◌<◌, ◌≤◌, IfOk, OnOk, IsTrue, All, length};
ghost use Rattle.std.specs.FinMap.{empty};
ghost use Rattle.fj_theory.specs.Exponents.{divides, minus, total};
ghost use Rattle.fj_theory.specs.Ideal.{ArePolynomials};
ghost use Rattle.fj_theory.specs.Lead.{lead_coefficient};
ghost use Rattle.fj_theory.specs.Polynomial.{product, term};
ghost use Rattle.fj_groebner.specs.Division.{Division, IsHighDivision, IsLowDivision, degree_limit, member_at};
ghost use Rattle.fj_groebner.specs.Run.{are_coprime, has_coprime_leads, lead_of, monic_member, s_polynomial};
ghost use Rattle.fj_basis.specs.Members.{AreMonicMembers, sugared_members};
ghost use Rattle.fj_basis.specs.Outcome.{IsHighOnlyWhere};
ghost use Rattle.fj_basis.specs.History.{ArePairSummands, HasRecordedMember};
ghost use Rattle.fj_basis.specs.State.{IsNextMember, IsPairOf};

use crate::division::divide_sugared;
use crate::history::{History, Source, Summand, with_negatives};
use crate::members::Member;
use crate::pairs::Pair;
use fj_coeff::Coeff;
use fj_mono::{DEGREE_LIMIT, Mono, Order};
use fj_poly::{Poly, PolyFault};
use std::alloc::{AllocError, Global};

/// The member that the pair gives, if the remainder of its S-polynomial isn't zero, recorded in the history.
pub(crate) fn next_member<K: Coeff, O: Order>(
    alloc: Global,
    members: &[Member<K, O>],
    pair: &Pair<O>,
    history: &mut History<K, O>,
) -> Result<Option<Member<K, O>>, PolyFault>
    requires members { AreMonicMembers K.field O.key (sugared_members members.now) }
    requires pair { IsPairOf O.key (sugared_members members.now) pair.now }
    requires first { pair.now.i < pair.now.j }
    requires second { pair.now.j < length members.now }
    ensures value { IfOk result (IsNextMember K.field O.key members.now (pair.now.i, pair.now.j) history.old history.new) }
    ensures high { IsHighOnlyWhere (IsHighDivision K.field O.key (sugared_members members.now) (s_polynomial K.field O.key (sugared_members members.now) (pair.now.i, pair.now.j))) result }
{
    let (s, sugar) = s_polynomial(alloc, members, pair)?;
    let division = divide_sugared(alloc, &s, sugar, members)?;
    let Some((coefficient, _)) = division.remainder().lead() else {
        return Ok(None);
    };
    let inverse = coefficient.inv();
    record(alloc, members, inverse, pair, division.quotients(), history)?;
    let (_, remainder, sugar) = division.into_parts();
    Ok(Some(Member {
        polynomial: remainder.scale(alloc, inverse)?,
        sugar,
        place: members.len(),
    }))
}

// Records that the remainder of the S-polynomial of a pair is made with these quotients, times c.
fn record<K: Coeff, O: Order>(
    alloc: Global,
    members: &[Member<K, O>],
    c: K,
    pair: &Pair<O>,
    quotients: &[Poly<K, O>],
    history: &mut History<K, O>,
) -> Result<(), AllocError>
    requires members { AreMonicMembers K.field O.key (sugared_members members.now) }
    requires pair { IsPairOf O.key (sugared_members members.now) pair.now }
    requires first { pair.now.i < pair.now.j }
    requires second { pair.now.j < length members.now }
    requires low { (s_polynomial K.field O.key (sugared_members members.now) (pair.now.i, pair.now.j)).sugar ≤ degree_limit }
    requires quotients { ArePolynomials K.field quotients.now }
    ensures { OnOk result ((last : Division) → IsLowDivision K.field O.key (sugared_members members.now) (s_polynomial K.field O.key (sugared_members members.now) (pair.now.i, pair.now.j)) last → quotients.now ≡ last.quotients → last.remainder ≢ empty → K.rank c ≡ K.field.inverse (lead_coefficient O.key last.remainder) → HasRecordedMember K.field (sugared_members members.now) (monic_member K.field O.key (record { polynomial = last.remainder; sugar = last.sugar })) history.old history.new) }
{
    if history.is_kept {
        let both = pair_summands(alloc, members, pair)?;
        let summands = with_negatives(alloc, both, quotients, 0)?;
        history.push(alloc, c, Source::Combined(summands))?;
    }
    Ok(())
}

/// Whether the leads of a pair have no variable in common.
pub(crate) fn has_coprime_leads<K: Coeff, O: Order>(
    members: &[Member<K, O>],
    pair: &Pair<O>,
) -> bool
    requires nonzero { All (λ m. m.polynomial ≢ empty) members.now }
    requires first { pair.now.i < length members.now }
    requires second { pair.now.j < length members.now }
    ensures { result ≡ has_coprime_leads O.key (sugared_members members.now) (pair.now.i, pair.now.j) }
{
    let first = members[pair.first()].lead();
    let second = members[pair.second()].lead();
    are_coprime(&first, &second)
}

// The S-polynomial of a pair, with its sugar.
fn s_polynomial<K: Coeff, O: Order>(
    alloc: Global,
    members: &[Member<K, O>],
    pair: &Pair<O>,
) -> Result<(Poly<K, O>, u64), PolyFault>
    requires members { AreMonicMembers K.field O.key (sugared_members members.now) }
    requires pair { IsPairOf O.key (sugared_members members.now) pair.now }
    requires first { pair.now.i < length members.now }
    requires second { pair.now.j < length members.now }
    ensures value { IfOk result (λ s. record { polynomial = s.0; sugar = s.1 } ≡ s_polynomial K.field O.key (sugared_members members.now) (pair.now.i, pair.now.j)) }
    ensures low { IfOk result (λ s. s.1 ≤ degree_limit) }
    ensures high { IsHighOnlyWhere (degree_limit < (s_polynomial K.field O.key (sugared_members members.now) (pair.now.i, pair.now.j)).sugar) result }
{
    let Some(multiple) = pair.lcm() else {
        return Err(PolyFault::High);
    };
    let above = above(members, pair.first()).max(above(members, pair.second()));
    let sugar = multiple.total().saturating_add(above);
    if sugar > DEGREE_LIMIT {
        return Err(PolyFault::High);
    }
    let first = multiple_of(alloc, members, pair.first(), &multiple)?;
    let second = multiple_of(alloc, members, pair.second(), &multiple)?;
    Ok((first.sub(alloc, &second)?, sugar))
}

// By how much the sugar of a member is above the total of its lead.
fn above<K: Coeff, O: Order>(members: &[Member<K, O>], k: usize) -> u64
    requires place { k < length members.now }
    requires nonzero { All (λ m. m.polynomial ≢ empty) members.now }
    ensures { result ≡ (member_at (sugared_members members.now) k).sugar - total (lead_of O.key (sugared_members members.now) k) }
{
    members[k].sugar.saturating_sub(members[k].lead().total())
}

// The multiple of a member whose lead is the monomial.
fn multiple_of<K: Coeff, O: Order>(
    alloc: Global,
    members: &[Member<K, O>],
    k: usize,
    m: &Mono,
) -> Result<Poly<K, O>, PolyFault>
    requires members { AreMonicMembers K.field O.key (sugared_members members.now) }
    requires place { k < length members.now }
    requires divisor { IsTrue (divides (lead_of O.key (sugared_members members.now) k) m.now.exponents) }
    requires low { (member_at (sugared_members members.now) k).sugar - total (lead_of O.key (sugared_members members.now) k) + total m.now.exponents ≤ degree_limit }
    ensures value { IfOk result (λ f. f ≡ product K.field (term 1 (minus m.now.exponents (lead_of O.key (sugared_members members.now) k))) (member_at (sugared_members members.now) k).polynomial) }
    ensures high { IsHighOnlyWhere ⊥ result }
{
    let factor = m.quot(&members[k].lead());
    members[k].polynomial.shift(alloc, &factor)
}

// The multiples of the members whose sum is the S-polynomial of a pair.
fn pair_summands<K: Coeff, O: Order>(
    alloc: Global,
    members: &[Member<K, O>],
    pair: &Pair<O>,
) -> Result<Vec<Summand<K, O>>, AllocError>
    requires members { AreMonicMembers K.field O.key (sugared_members members.now) }
    requires pair { IsPairOf O.key (sugared_members members.now) pair.now }
    requires first { pair.now.i < pair.now.j }
    requires second { pair.now.j < length members.now }
    requires low { (s_polynomial K.field O.key (sugared_members members.now) (pair.now.i, pair.now.j)).sugar ≤ degree_limit }
    ensures { IfOk result (λ both. ArePairSummands K.field O.key (sugared_members members.now) (pair.now.i, pair.now.j) both.items) }
{
    let multiple = pair.lcm().unwrap();
    let first = summand(alloc, members, K::one(), pair.first(), &multiple)?;
    let second = summand(alloc, members, K::one().neg(), pair.second(), &multiple)?;
    Ok(vec![in alloc; first, second]?)
}

// The multiple of a member by c and the monomial by which its lead becomes m.
fn summand<K: Coeff, O: Order>(
    alloc: Global,
    members: &[Member<K, O>],
    c: K,
    k: usize,
    m: &Mono,
) -> Result<Summand<K, O>, AllocError>
    requires nonzero { All (λ m. m.polynomial ≢ empty) members.now }
    requires place { k < length members.now }
    requires divisor { IsTrue (divides (lead_of O.key (sugared_members members.now) k) m.now.exponents) }
    ensures place { IfOk result (λ s. s.place ≡ k) }
    ensures factor { IfOk result (λ s. s.factor ≡ term (K.rank c) (minus m.now.exponents (lead_of O.key (sugared_members members.now) k))) }
{
    let monomial = m.quot(&members[k].lead());
    Ok(Summand {
        place: k,
        factor: Poly::term(alloc, c, &monomial)?,
    })
}

// Whether two monomials have no variable in common.
pub(crate) fn are_coprime(a: &Mono, b: &Mono) -> bool
    ensures { result ≡ are_coprime a.now.exponents b.now.exponents }
{
    for i in 0..8 {
        if a.exp(i) != 0 && b.exp(i) != 0 {
            return false;
        }
    }
    true
}
