//! Maps from exponents to ranks.
ghost use Rattle.std.specs.Prelude.{◌≡◌, ◌<◌, ◌↔◌, ◌+◌, ◌%◌, ◌^◌, ℕ, List, All, IfOk, IsTrue, OnOk, if◌then◌else◌};
ghost use Rattle.std.specs.Ordering.{nat_cmp, eq_by_cmp};
ghost use Rattle.std.specs.BTreeMap.{IsOrdered, values};
ghost use Rattle.std.specs.Cmp.Lexicographic.{slice_cmp};
ghost use Rattle.fj_plain.specs.Packing.{unpacked_entries};
ghost use Rattle.fj_theory.specs.Plain.{rising_terms};
ghost use Rattle.fj_plain.specs.Tallied.{rank_at, rank_by, by_exponents, nonzero_entries, tallied};
ghost use Rattle.fj_plain.specs.Terms.{entries};

use crate::packing::{are_narrow, packed, unpacked};
use crate::term::PlainTerm;
use std::alloc::{AllocError, Global};
use std::array;
use std::collections::BTreeMap;

type WideRanks = BTreeMap<[u128; 8], u64>;

/// Ranks by exponents, which are packed until there are some that aren't below 2^16: packed keys are an eighth as long.
#[derive(Drop)]
pub(crate) enum Ranks {
    Packed(BTreeMap<u128, u64>),
    Wide(WideRanks),
}

impl Ranks {
    /// No ranks.
    pub(crate) fn new(alloc: Global) -> Ranks
        ensures { (a : List ℕ) → rank_at (by_exponents result) a ≡ 0 }
    {
        Ranks::Packed(BTreeMap::new(alloc))
    }

    /// Adds a rank to the one at some exponents.
    pub(crate) fn add(
        &mut self,
        alloc: Global,
        p: u64,
        exps: [u128; 8],
        rank: u64,
    ) -> Result<(), AllocError>
        requires positive { 0 < p }
        requires fits { rank_at (by_exponents self.old) exps + rank < 2 ^ 64 }
        ensures { OnOk result ((a : List ℕ) → rank_at (by_exponents self.new) a ≡ (if eq_by_cmp (slice_cmp nat_cmp) exps a then (rank_at (by_exponents self.old) exps + rank) % p else rank_at (by_exponents self.old) a)) }
    {
        match self {
            Ranks::Wide(ranks) => add_rank(ranks, p, exps, rank),
            Ranks::Packed(ranks) => {
                if are_narrow(&exps) {
                    return add_rank(ranks, p, packed(exps), rank);
                }
                let mut wide = widened(alloc, ranks)?;
                add_rank(&mut wide, p, exps, rank)?;
                *self = Ranks::Wide(wide);
                Ok(())
            }
        }
    }

    /// The terms whose ranks aren't zero, by rising exponents in Lex.
    pub(crate) fn nonzero_terms(&self, alloc: Global) -> Result<Vec<PlainTerm>, AllocError>
        requires { (a : List ℕ) → 0 < rank_at (by_exponents self.now) a → All (λ k. k < 2 ^ 64) a }
        ensures { IfOk result (λ v. entries v.items ≡ rising_terms (tallied (by_exponents self.now))) }
    {
        match self {
            Ranks::Wide(ranks) => nonzero_terms(alloc, ranks),
            Ranks::Packed(ranks) => nonzero_terms(alloc, &widened(alloc, ranks)?),
        }
    }

    /// Whether each rank is zero.
    pub(crate) fn are_zero(&self) -> bool
        ensures { IsTrue result ↔ ((a : List ℕ) → rank_at (by_exponents self.now) a ≡ 0) }
    {
        match self {
            Ranks::Wide(ranks) => are_zero(ranks),
            Ranks::Packed(ranks) => are_zero(ranks),
        }
    }
}

// Adds a rank to the one at a key.
fn add_rank<K: Ord + Drop>(
    ranks: &mut BTreeMap<K, u64>,
    p: u64,
    key: K,
    rank: u64,
) -> Result<(), AllocError>
    requires positive { 0 < p }
    requires fits { rank_by K.cmp ranks.old key + rank < 2 ^ 64 }
    ensures { OnOk result ((k : K) → rank_by K.cmp ranks.new k ≡ (if eq_by_cmp K.cmp key k then (rank_by K.cmp ranks.old key + rank) % p else rank_by K.cmp ranks.old k)) }
{
    let held = ranks.entry(key)?.or_insert(0);
    *held = (*held + rank) % p;
    Ok(())
}

// The same ranks, by exponents that aren't packed.
fn widened(alloc: Global, ranks: &BTreeMap<u128, u64>) -> Result<WideRanks, AllocError>
    ensures { IfOk result (λ wide. (a : List ℕ) → rank_at wide.entries a ≡ rank_at (unpacked_entries ranks.now.entries) a) }
{
    let mut wide = BTreeMap::new(alloc);
    for (key, rank) in ranks.iter() {
        wide.insert(unpacked(*key), *rank)?;
    }
    Ok(wide)
}

// The terms whose ranks aren't zero, in order.
fn nonzero_terms(alloc: Global, ranks: &WideRanks) -> Result<Vec<PlainTerm>, AllocError>
    requires { (a : List ℕ) → 0 < rank_at ranks.now.entries a → All (λ k. k < 2 ^ 64) a }
    ensures terms { IfOk result (λ v. entries v.items ≡ nonzero_entries ranks.now.entries) }
    ensures ordered { IsOrdered (slice_cmp nat_cmp) ranks.now }
{
    let mut terms = Vec::new(alloc);
    for (exps, rank) in ranks.iter() {
        if *rank > 0 {
            terms.push(PlainTerm {
                exps: narrowed(*exps),
                rank: *rank,
            })?;
        }
    }
    Ok(terms)
}

// The same exponents, which fit.
fn narrowed(exps: [u128; 8]) -> [u64; 8]
    requires { All (λ k. k < 2 ^ 64) exps }
    ensures { result ≡ exps }
{
    array::from_fn(|k| exps[k] as u64)
}

// Whether each rank is zero.
fn are_zero<K: Ord>(ranks: &BTreeMap<K, u64>) -> bool
    ensures zero { IsTrue result ↔ All (λ c. c ≡ 0) (values ranks.now) }
    ensures ordered { IsOrdered K.cmp ranks.now }
{
    ranks.values().all(|rank| *rank == 0)
}
