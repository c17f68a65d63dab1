//! The pairs of a run by the sugar strategy. Nothing is proved of which pairs are left: the run that takes them may end
//! without a Gröbner basis.
ghost use Rattle.std.specs.Prelude.{◌<◌, length};

use crate::pair_member::are_coprime;
use fj_mono::{Mono, Order};
use std::alloc::{AllocError, Global};
use std::cmp::Ordering;
use std::marker::PhantomData;
use std::mem;

/// The lead of a member, by how much the member's sugar is above its total, and whether no later lead divides it.
#[derive(Clone, Copy)]
struct Lead {
    monomial: Mono,
    above: u64,
    is_least: bool,
}

/// A pair of places, with the least common multiple of their leads and the sugar of its S-polynomial.
#[derive(Clone, Copy)]
struct SugaredPair {
    first: usize,
    second: usize,
    multiple: Mono,
    sugar: u64,
    is_coprime: bool,
}

/// The leads of the members of a run, and the pairs that are left, without those that the criteria of Gebauer and Möller
/// (1988) spare.
#[derive(Drop)]
pub(crate) struct SugaredPairs<O: Order> {
    leads: Vec<Lead>,
    pairs: Vec<SugaredPair>,
    order: PhantomData<O>,
}

impl<O: Order> SugaredPairs<O> {
    /// No lead, and no pair.
    pub(crate) fn new(alloc: Global) -> SugaredPairs<O> {
        SugaredPairs {
            leads: Vec::new(alloc),
            pairs: Vec::new(alloc),
            order: PhantomData,
        }
    }

    /// Adds a lead, the sugar of whose member is so much above its total, and its pairs with those that no later lead divides.
    pub(crate) fn add(&mut self, alloc: Global, lead: Mono, above: u64) -> Result<(), AllocError> {
        self.drop_covered(alloc, &lead)?;
        let found = self.pairs_with(alloc, &lead, above)?;
        for k in 0..found.len() {
            if !found[k].is_coprime && !is_superfluous(&found, k) {
                self.pairs.push(found[k])?;
            }
        }
        for earlier in self.leads.iter_mut() {
            if lead.divides(&earlier.monomial) {
                earlier.is_least = false;
            }
        }
        self.leads.push(Lead {
            monomial: lead,
            above,
            is_least: true,
        })?;
        Ok(())
    }

    /// Takes the pair of the least sugar, and of these that of the least multiple.
    pub(crate) fn take_next(&mut self) -> Option<(usize, usize)> {
        if self.pairs.is_empty() {
            return None;
        }
        let mut next = 0;
        for k in 1..self.pairs.len() {
            if is_before::<O>(&self.pairs[k], &self.pairs[next]) {
                next = k;
            }
        }
        let pair = self.pairs.swap_remove(next);
        Some((pair.first, pair.second))
    }

    // Drops the pairs that are left whose multiple the lead divides, and is a proper part of it beside both of their leads.
    fn drop_covered(&mut self, alloc: Global, lead: &Mono) -> Result<(), AllocError> {
        let pairs = mem::replace(&mut self.pairs, Vec::new(alloc));
        for pair in pairs {
            if !self.is_covered(&pair, lead) {
                self.pairs.push(pair)?;
            }
        }
        Ok(())
    }

    // Whether the lead covers a pair: its pairs with both of the leads have other multiples, which divide that of the pair.
    fn is_covered(&self, pair: &SugaredPair, lead: &Mono) -> bool {
        lead.divides(&pair.multiple)
            && self.has_other_multiple(pair.first, pair, lead)
            && self.has_other_multiple(pair.second, pair, lead)
    }

    fn has_other_multiple(&self, place: usize, pair: &SugaredPair, lead: &Mono) -> bool {
        match self.leads.get(place) {
            Some(own) => own.monomial.lcm(lead) != Ok(pair.multiple),
            None => false,
        }
    }

    // The pairs of a new lead with those that no later one divides.
    fn pairs_with(
        &self,
        alloc: Global,
        lead: &Mono,
        above: u64,
    ) -> Result<Vec<SugaredPair>, AllocError> {
        let mut found = Vec::new(alloc);
        for first in 0..self.leads.len() {
            let earlier = self.leads[first];
            if !earlier.is_least {
                continue;
            }
            if let Ok(multiple) = earlier.monomial.lcm(lead) {
                found.push(SugaredPair {
                    first,
                    second: self.leads.len(),
                    multiple,
                    sugar: multiple.total().saturating_add(above.max(earlier.above)),
                    is_coprime: are_coprime(&earlier.monomial, lead),
                })?;
            }
        }
        Ok(found)
    }
}

// Whether another pair of the same new lead makes this one superfluous: its multiple divides that of the pair. Of pairs with
// one multiple one is left, a coprime one before others.
fn is_superfluous(pairs: &[SugaredPair], k: usize) -> bool
    requires { k < length pairs.now }
{
    let own = &pairs[k];
    for j in 0..pairs.len() {
        let other = &pairs[j];
        if j != k && other.multiple.divides(&own.multiple) {
            if other.multiple != own.multiple || other.is_coprime || j < k {
                return true;
            }
        }
    }
    false
}

// Whether a pair stands before another one.
fn is_before<O: Order>(pair: &SugaredPair, other: &SugaredPair) -> bool {
    match pair.sugar.cmp(&other.sugar) {
        Ordering::Less => true,
        Ordering::Greater => false,
        Ordering::Equal => match O::cmp(&pair.multiple, &other.multiple) {
            Ordering::Less => true,
            Ordering::Greater => false,
            Ordering::Equal => pair.second < other.second,
        },
    }
}
