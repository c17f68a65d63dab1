//! The pending pairs of a run: which is the next, whether two places are one of them, and which the chain criterion spares.

ghost use Rattle.std.specs.Prelude.{◌≡◌, ◌≢◌, ◌<◌, ◌↔◌, ◌++◌, ◌∷◌, ℕ, [], ◌⊎◌, All, IsTrue, OnOk, length};
ghost use Rattle.std.specs.BTreeSet.{insert_key};
ghost use Rattle.std.specs.Ordering.{nat_cmp, on};
ghost use Rattle.std.specs.Cmp.Lexicographic.{slice_cmp};
ghost use Rattle.std.specs.declared.cmp.Ordering.TheVariants.{Less};
ghost use Rattle.fj_theory.specs.Exponents.{divides, least_common_multiple};
ghost use Rattle.fj_groebner.specs.Run.{AreRemovals, IsNext, IsSpared};
ghost use Rattle.fj_groebner.specs.Run as definition;
ghost use Rattle.fj_basis.specs.Pending.{HasPair, HasPairsWith, IsPairOver};
ghost use Rattle.fj_basis.specs.Place.{place};
ghost use Rattle.fj_basis.specs.State.{IsPendingOf};

use crate::pairs::Pair;
use fj_mono::{Mono, Order};
use std::alloc::{AllocError, Global};
use std::collections::BTreeSet;
use std::marker::Model;

/// The leads of the members of a run, and the pending pairs of their places in the order in which the run takes them.
#[derive(Drop)]
pub(crate) struct Pending<O: Order> {
    leads: Vec<Mono>,
    pairs: BTreeSet<Pair<O>>,
    // Row j says for each i below j whether the pair (i, j) is pending.
    rows: Vec<Vec<bool>>,
}

impl<O: Order> Model for Pending<O> {
    ghost use Rattle.std.specs.Prelude.{map};
    ghost use Rattle.fj_basis.specs.Pending.{IsIndexed, PendingPairs};

    ghost Value = { PendingPairs O };

    ghost view = { λ p. record { leads = map (λ m. m.exponents) p.leads.items; pairs = p.pairs.keys } };

    ghost invariant = { λ p. IsIndexed (map (λ m. m.exponents) p.leads.items) p.pairs.keys (map (λ row. row.items) p.rows.items) };
}

impl<O: Order> Pending<O> {
    /// No place, and no pair.
    pub(crate) fn new(alloc: Global) -> Pending<O>
        ensures leads { result.leads ≡ [] }
        ensures pairs { result.pairs ≡ [] }
    {
        Pending {
            leads: Vec::new(alloc),
            pairs: BTreeSet::new(alloc),
            rows: Vec::new(alloc),
        }
    }

    /// Whether no pair is pending.
    pub(crate) fn is_empty(&self) -> bool
        ensures { IsTrue result ↔ (self.now.pairs ≡ []) }
    {
        self.pairs.is_empty()
    }

    /// Adds a place with this lead, and its pairs with all earlier places.
    pub(crate) fn add(&mut self, alloc: Global, lead: Mono) -> Result<(), AllocError>
        ensures leads { OnOk result (self.new.leads ≡ self.old.leads ++ lead.exponents ∷ []) }
        ensures pairs { OnOk result (HasPairsWith self.new.leads (length self.old.leads) self.old.pairs self.new.pairs) }
    {
        let j = self.leads.len();
        self.add_place(alloc, lead)?;
        for i in 0..j {
            let pair = Pair::new(i, j, &self.leads[i], &lead);
            self.insert(pair)?;
        }
        Ok(())
    }

    /// Takes the next pair, which is pending no longer.
    pub(crate) fn take_next(&mut self) -> Pair<O>
        requires { self.old.pairs ≢ [] }
        ensures pairs { self.old.pairs ≡ result ∷ self.new.pairs }
        ensures above { All (λ q. on (place O.key) (slice_cmp nat_cmp) result q ≡ Less) self.new.pairs }
        ensures leads { self.new.leads ≡ self.old.leads }
    {
        let pair = self.pairs.pop_first().unwrap();
        self.rows[pair.second()][pair.first()] = false;
        pair
    }

    /// Removes the next pair as long as the chain criterion spares it.
    pub(crate) fn remove_spared(&mut self)
        ensures { (s : definition.Run) → IsPendingOf O.key s self.old → (t : definition.Run) × AreRemovals O.key s t × (t.members ≡ s.members) × IsPendingOf O.key t self.new }
    {
        while self.is_next_spared() {
            self.take_next();
        }
    }

    // Whether there is a next pair, and the chain criterion spares it.
    fn is_next_spared(&self) -> bool
        ensures some { IsTrue result → self.now.pairs ≢ [] }
        ensures spared { (s : definition.Run) → IsPendingOf O.key s self.now → IsTrue result ↔ ((pair : ℕ × ℕ) × IsNext O.key s pair × IsSpared O.key s pair) }
    {
        match self.pairs.first() {
            Some(pair) => self.is_spared(pair),
            None => false,
        }
    }

    // Whether the chain criterion spares a pair.
    fn is_spared(&self, pair: &Pair<O>) -> bool
        requires first { pair.now.i < pair.now.j }
        requires second { pair.now.j < length self.now.leads }
        ensures { (s : definition.Run) → IsPendingOf O.key s self.now → IsTrue result ↔ IsSpared O.key s (pair.now.i, pair.now.j) }
    {
        for k in 0..self.leads.len() {
            if self.spares(k, pair) {
                return true;
            }
        }
        false
    }

    // Whether it spares the pair for the place k.
    fn spares(&self, k: usize, pair: &Pair<O>) -> bool
        requires place { k < length self.now.leads }
        requires first { pair.now.i < pair.now.j }
        requires second { pair.now.j < length self.now.leads }
        ensures { (s : definition.Run) → IsPendingOf O.key s self.now → IsTrue result ↔ ((spared : IsSpared O.key s (pair.now.i, pair.now.j)) × (spared.place ≡ k)) }
    {
        let (i, j) = (pair.first(), pair.second());
        if k == i || k == j {
            return false;
        }
        if self.has(i, k) || self.has(j, k) {
            return false;
        }
        divides_multiple(&self.leads[k], &self.leads[i], &self.leads[j])
    }

    // Whether the pair of two places is pending.
    fn has(&self, i: usize, j: usize) -> bool
        requires first { i < length self.now.leads }
        requires second { j < length self.now.leads }
        ensures { IsTrue result ↔ (HasPair self.now.pairs i j ⊎ HasPair self.now.pairs j i) }
    {
        if i < j {
            self.rows[j][i]
        } else if j < i {
            self.rows[i][j]
        } else {
            false
        }
    }

    // Adds a place with this lead.
    fn add_place(&mut self, alloc: Global, lead: Mono) -> Result<(), AllocError>
        ensures leads { OnOk result (self.new.leads ≡ self.old.leads ++ lead.exponents ∷ []) }
        ensures pairs { OnOk result (self.new.pairs ≡ self.old.pairs) }
    {
        let row = vec![in alloc; false; self.rows.len()]?;
        self.rows.push(row)?;
        self.leads.push(lead)?;
        Ok(())
    }

    // The pair becomes pending.
    fn insert(&mut self, pair: Pair<O>) -> Result<(), AllocError>
        requires first { pair.i < pair.j }
        requires second { pair.j < length self.old.leads }
        requires pair { IsPairOver self.old.leads pair }
        ensures leads { OnOk result (self.new.leads ≡ self.old.leads) }
        ensures pairs { OnOk result (self.new.pairs ≡ insert_key (on (place O.key) (slice_cmp nat_cmp)) self.old.pairs pair) }
    {
        let (i, j) = (pair.first(), pair.second());
        self.pairs.insert(pair)?;
        self.rows[j][i] = true;
        Ok(())
    }
}

// Whether the monomial divides the least common multiple of a and b, which may be above the limit.
fn divides_multiple(m: &Mono, a: &Mono, b: &Mono) -> bool
    ensures { result ≡ divides m.now.exponents (least_common_multiple a.now.exponents b.now.exponents) }
{
    for i in 0..8 {
        if m.exp(i) > a.exp(i).max(b.exp(i)) {
            return false;
        }
    }
    true
}
