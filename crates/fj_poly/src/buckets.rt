//! Sums of many polynomials, of which leading terms are taken out.

ghost use Rattle.std.specs.Prelude.{◌≡◌, ◌≢◌, ◌+◌, ◌<◌, ◌≤◌, All, IfErr, IfOk, OnOk, length};
ghost use Rattle.std.specs.FinMap.{empty};
ghost use Rattle.std.specs.Option.{option_map};
ghost use Rattle.fj_theory.specs.Ideal.{ArePolynomials};
ghost use Rattle.fj_theory.specs.Polynomial.{IsPolynomial, lead, product, sum, term};
ghost use Rattle.fj_poly.specs.Slots.{IsBelow, IsGreatest, IsGreatestPlace, IsUpTo, count_terms, sum_all, without_lead};
ghost use Rattle.fj_poly.specs.Limit.{IsHigh};

mod slot;

use crate::poly::product::fill_multiple;
use crate::poly::{Poly, Term};
use fj_coeff::Coeff;
use fj_mono::{Mono, Order};
use slot::Slot;
use std::alloc::{AllocError, Global};
use std::cmp::Ordering;
use std::marker::Model;

/// A slot holds this many times as many terms as the one before it.
const GROWTH: usize = 4;

/// A polynomial in eight variables over K, a finite map as `Poly` is, kept as the sum of polynomials in slots of
/// geometrically growing length (Yan 1998, "The geobucket data structure for polynomials"), so that adding a short
/// polynomial to a long one doesn't copy the long one.
#[derive(Drop)]
pub struct Buckets<K: Coeff, O: Order> {
    alloc: Global,
    slots: Vec<Slot<K, O>>,
    carried: Vec<Term<K>>,
    spare: Vec<Term<K>>,
}

impl<K: Coeff, O: Order> Model for Buckets<K, O> {
    ghost use Rattle.std.specs.Prelude.{ℕ};
    ghost use Rattle.std.specs.Coded.{coded_ℕ, coded_list};
    ghost use Rattle.std.specs.FinMap.{code};
    ghost use Rattle.fj_theory.specs.Ideal.{ArePolynomials};
    ghost use Rattle.fj_theory.specs.Polynomial.{Polynomial};
    ghost use Rattle.fj_poly.specs.Slots.{sum_all};

    ghost Value = { Polynomial };

    ghost coded = { code (coded_list coded_ℕ) coded_ℕ };

    ghost view = { λ b. sum_all K.field b.slots.items };

    ghost invariant = { λ b. ArePolynomials K.field b.slots.items };
}

impl<K: Coeff, O: Order> Buckets<K, O> {
    /// The zero polynomial.
    pub fn new(alloc: Global) -> Buckets<K, O>
        ensures { result ≡ empty }
    {
        Buckets {
            alloc,
            slots: Vec::new(alloc),
            carried: Vec::new(alloc),
            spare: Vec::new(alloc),
        }
    }

    /// Adds h. After want of memory the polynomial is as before.
    pub fn add(&mut self, h: Poly<K, O>) -> Result<(), AllocError>
        ensures value { OnOk result (self.new ≡ sum K.field self.old h) }
        ensures unchanged { IfErr result (λ _. self.new ≡ self.old) }
        ensures polynomial { IsPolynomial K.field self.new }
        ensures summand { IsPolynomial K.field h }
    {
        let place = place_of(h.len());
        let (carried, spare) = (&mut self.carried, &mut self.spare);
        make_room(self.alloc, &mut self.slots, carried, spare, place)?;
        self.slots[place].merge(&mut self.spare, h.terms())?;
        Ok(())
    }

    /// Adds the product of the term c*m, c being nonzero, and what is left of g, which isn't zero, without its leading term.
    /// No term of this product may have a total degree above 2^40. After want of memory the polynomial is as before.
    pub fn add_multiple_of_rest(&mut self, c: K, m: &Mono, g: &Poly<K, O>) -> Result<(), AllocError>
        requires nonzero { K.rank c ≢ 0 }
        requires factor { g.now ≢ empty }
        requires within { IsHigh (product K.field (term (K.rank c) m.now.exponents) (without_lead K.field O.key g.now)) → ⊥ }
        ensures value { OnOk result (self.new ≡ sum K.field self.old (product K.field (term (K.rank c) m.now.exponents) (without_lead K.field O.key g.now))) }
        ensures unchanged { IfErr result (λ _. self.new ≡ self.old) }
        ensures polynomial { IsPolynomial K.field self.new }
    {
        let terms = g.later_terms();
        let place = place_of(terms.len());
        let (carried, spare) = (&mut self.carried, &mut self.spare);
        make_room(self.alloc, &mut self.slots, carried, spare, place)?;
        fill_multiple::<K, O>(&mut self.carried, c, m, terms)?;
        self.slots[place].merge(&mut self.spare, self.carried.as_slice())?;
        Ok(())
    }

    /// Takes the leading term out and answers it. `None` exactly for zero. Nothing here takes memory.
    pub fn take_lead(&mut self) -> Result<Option<(K, Mono)>, AllocError>
        ensures lead { IfOk result (λ r. option_map (λ found. (found.1.exponents, K.rank found.0)) r ≡ lead O.key self.old) }
        ensures rest { OnOk result (self.new ≡ without_lead K.field O.key self.old) }
        ensures unchanged { IfErr result (λ _. self.new ≡ self.old) }
        ensures old_polynomial { IsPolynomial K.field self.old }
        ensures polynomial { IsPolynomial K.field self.new }
    {
        while let Some(place) = greatest(self.slots.as_slice()) {
            let (coefficient, m) = take_greatest(&mut self.slots, place);
            if coefficient != K::zero() {
                return Ok(Some((coefficient, m)));
            }
        }
        Ok(None)
    }
}

// The place of the slot for so many terms.
fn place_of(count: usize) -> usize {
    let mut place = 0;
    let mut room = GROWTH;
    while room < count {
        room = room.saturating_mul(GROWTH);
        place += 1;
    }
    place
}

// The place of a slot with the greatest lead, none where all are zero.
fn greatest<K: Coeff, O: Order>(slots: &[Slot<K, O>]) -> Option<usize>
    ensures { IsGreatestPlace O.key slots.now (length slots.now) result }
{
    let mut place = None;
    for i in 0..slots.len() {
        place = greater(slots, place, i);
    }
    place
}

// The place of the greatest lead among the first i slots and the one at the place i.
fn greater<K: Coeff, O: Order>(
    slots: &[Slot<K, O>],
    place: Option<usize>,
    i: usize,
) -> Option<usize>
    requires inside { i < length slots.now }
    requires before { IsGreatestPlace O.key slots.now i place }
    ensures { IsGreatestPlace O.key slots.now (i + 1) result }
{
    let Some(m) = slots[i].lead() else {
        return place;
    };
    let Some(k) = place else {
        return Some(i);
    };
    let n = slots[k].lead().unwrap();
    match O::cmp(m, n) {
        Ordering::Greater => Some(i),
        _ => Some(k),
    }
}

// Takes the terms at the greatest lead, that of the slot at the place, out of all slots and answers their sum, which may
// have the coefficient zero.
fn take_greatest<K: Coeff, O: Order>(slots: &mut Vec<Slot<K, O>>, place: usize) -> (K, Mono)
    requires polynomials { ArePolynomials K.field slots.old.items }
    requires greatest { IsGreatest O.key slots.old.items (length slots.old.items) place }
    ensures value { sum_all K.field slots.old.items ≡ sum K.field (term (K.rank result.0) result.1.exponents) (sum_all K.field slots.new.items) }
    ensures below { IsBelow O.key result.1.exponents (sum_all K.field slots.new.items) }
    ensures fewer { count_terms slots.new.items < count_terms slots.old.items }
    ensures polynomials { ArePolynomials K.field slots.new.items }
{
    let (first, m) = slots[place].pop();
    let others = take_all(slots, &m);
    (first.add(others), m)
}

// Takes the terms at the monomial, which no term is above, out of all slots and answers the sum of their coefficients.
fn take_all<K: Coeff, O: Order>(slots: &mut Vec<Slot<K, O>>, m: &Mono) -> K
    requires polynomials { ArePolynomials K.field slots.old.items }
    requires up_to { All (IsUpTo O.key m.now.exponents) slots.old.items }
    ensures value { sum_all K.field slots.old.items ≡ sum K.field (term (K.rank result) m.now.exponents) (sum_all K.field slots.new.items) }
    ensures below { All (IsBelow O.key m.now.exponents) slots.new.items }
    ensures fewer { count_terms slots.new.items ≤ count_terms slots.old.items }
    ensures polynomials { ArePolynomials K.field slots.new.items }
{
    let mut coefficient = K::zero();
    for i in 0..slots.len() {
        coefficient = coefficient.add(slots[i].take(m));
    }
    coefficient
}

// Makes the slot at the place one that has room for more, the sum staying as it is: the terms of slots that are too long
// go to the next ones.
fn make_room<K: Coeff, O: Order>(
    alloc: Global,
    slots: &mut Vec<Slot<K, O>>,
    carried: &mut Vec<Term<K>>,
    spare: &mut Vec<Term<K>>,
    place: usize,
) -> Result<(), AllocError>
    requires { ArePolynomials K.field slots.old.items }
    ensures place { OnOk result (place < length slots.new.items) }
    ensures sum { sum_all K.field slots.new.items ≡ sum_all K.field slots.old.items }
    ensures polynomials { ArePolynomials K.field slots.new.items }
{
    'grow: while slots.len() <= place {
        slots.push(Slot::new(alloc))?;
    }
    let mut free = place;
    'seek: while free < slots.len() && place_of(slots[free].terms().len()) > free {
        free += 1;
    }
    if free == slots.len() {
        slots.push(Slot::new(alloc))?;
    }
    'carry: while free > place {
        free -= 1;
        move_up(slots, carried, spare, free)?;
    }
    Ok(())
}

// Moves the terms of a slot to the next one, the sum staying as it is.
fn move_up<K: Coeff, O: Order>(
    slots: &mut Vec<Slot<K, O>>,
    carried: &mut Vec<Term<K>>,
    spare: &mut Vec<Term<K>>,
    place: usize,
) -> Result<(), AllocError>
    requires next { place + 1 < length slots.old.items }
    requires polynomials { ArePolynomials K.field slots.old.items }
    ensures sum { sum_all K.field slots.new.items ≡ sum_all K.field slots.old.items }
    ensures long { length slots.new.items ≡ length slots.old.items }
    ensures polynomials { ArePolynomials K.field slots.new.items }
{
    carried.clear();
    carried.extend_from_slice(slots[place].terms())?;
    slots[place + 1].merge(spare, carried.as_slice())?;
    slots[place].clear();
    Ok(())
}
