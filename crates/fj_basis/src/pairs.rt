ghost use Rattle.std.specs.Prelude.{◌≡◌, ◌∷◌, [], refl};
ghost use Rattle.std.specs.Ordering.{as_partial_cmp, eq_by_cmp, nat_cmp, on};
ghost use Rattle.std.specs.Cmp.Lexicographic.{slice_cmp};
ghost use Rattle.fj_theory.specs.Exponents.{least_common_multiple};
ghost use Rattle.fj_basis.specs.Place.{IsWithinLimit, place};
ghost use Rattle.fj_basis.specs.PlaceLaws.{places_equiv, places_per, places_po, places_total};

use fj_mono::{Mono, Order};
use std::cmp::Ordering;
use std::marker::PhantomData;

/// The pair of the members at the places i and j, i < j, with the least common multiple of their leads where that has a
/// total of at most 2^40. Pairs are in the order in which a run takes them.
#[derive(Drop)]
pub(crate) struct Pair<O: Order> {
    i: usize,
    j: usize,
    lcm: Option<Mono>,
    order: PhantomData<O>,
}

impl<O: Order> Pair<O> {
    /// The pair of the places i and j, at which the leads are a and b.
    pub(crate) fn new(i: usize, j: usize, a: &Mono, b: &Mono) -> Pair<O>
        ensures first { result.i ≡ i }
        ensures second { result.j ≡ j }
        ensures lcm { IsWithinLimit (least_common_multiple a.now.exponents b.now.exponents) result.lcm }
    {
        Pair {
            i,
            j,
            lcm: a.lcm(b).ok(),
            order: PhantomData,
        }
    }

    pub(crate) fn first(&self) -> usize
        ensures { result ≡ self.now.i }
    {
        self.i
    }

    pub(crate) fn second(&self) -> usize
        ensures { result ≡ self.now.j }
    {
        self.j
    }

    /// The least common multiple of the leads, where it is not above the limit.
    pub(crate) fn lcm(&self) -> Option<Mono>
        ensures { result ≡ self.now.lcm }
    {
        self.lcm
    }

    // The order by the places alone.
    fn compare_places(&self, o: &Pair<O>) -> Ordering
        ensures { result ≡ slice_cmp nat_cmp (self.now.j ∷ self.now.i ∷ []) (o.now.j ∷ o.now.i ∷ []) }
    {
        self.j.cmp(&o.j).then(self.i.cmp(&o.i))
    }
}

impl<O: Order> PartialEq for Pair<O> {
    ghost eq = { eq_by_cmp (on (place O.key) (slice_cmp nat_cmp)) };

    ghost laws = { places_per (place O.key) };

    fn eq(&self, o: &Pair<O>) -> bool {
        self.cmp(o) == Ordering::Equal
    }
}

impl<O: Order> Eq for Pair<O> {
    ghost laws = { places_equiv (place O.key) };
}

impl<O: Order> PartialOrd for Pair<O> {
    ghost partial_cmp = { as_partial_cmp (on (place O.key) (slice_cmp nat_cmp)) };

    ghost laws = { places_po (place O.key) };

    fn partial_cmp(&self, o: &Pair<O>) -> Option<Ordering> {
        Some(self.cmp(o))
    }
}

impl<O: Order> Ord for Pair<O> {
    ghost cmp = { on (place O.key) (slice_cmp nat_cmp) };

    ghost total = { places_total (place O.key) };

    ghost matches_partial_cmp = { λ a b. refl };

    ghost matches_eq = { λ a b. refl };

    fn cmp(&self, o: &Pair<O>) -> Ordering {
        match (&self.lcm, &o.lcm) {
            (Some(a), Some(b)) => O::cmp(a, b).then(self.compare_places(o)),
            (Some(_), None) => Ordering::Less,
            (None, Some(_)) => Ordering::Greater,
            (None, None) => self.compare_places(o),
        }
    }
}
