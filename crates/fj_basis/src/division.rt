ghost use Rattle.std.specs.Prelude.{◌≡◌, ◌≢◌, ◌+◌, ◌<◌, ◌≤◌, IfOk, IsTrue, OnOk, All, length, map, replicate, slice_index_or};
ghost use Rattle.std.specs.Option.{option_map};
ghost use Rattle.std.specs.FinMap.{empty};
ghost use Rattle.std.specs.declared.cmp.Ordering.TheVariants.{Greater};
ghost use Rattle.fj_theory.specs.Exponents.{divides, minus, total};
ghost use Rattle.fj_theory.specs.MonomialOrder.{compare_by};
ghost use Rattle.fj_theory.specs.Ideal.{ArePolynomials, list_combination};
ghost use Rattle.fj_theory.specs.Polynomial.{IsPolynomial, lead, sum, terms_falling};
ghost use Rattle.fj_groebner.specs.DegreeOrder.{IsDegreeOrder};
ghost use Rattle.fj_theory.specs.Lead.{lead_exponents};
ghost use Rattle.fj_groebner.specs.Division.{AreWithinSugars, DegreeAtMost, IsDivisionStep, IsHighDivision, IsLowDivision, SubtractsHigh, cancel_lead, degree_limit, first_divisor, move_lead, polynomials_of, step_by};
ghost use Rattle.fj_groebner.specs.Run.{given};
ghost use Rattle.fj_poly.specs.Limit.{IsHighWhere};
ghost use Rattle.fj_basis.specs.Leads.{exponents_of, lead_list};
ghost use Rattle.fj_basis.specs.Quotients.{IsDivided, IsUnderWay, with_lead};
ghost use Rattle.fj_poly.specs.Slots.{without_lead};

use crate::cofactors::zero_row;
use crate::divisor::Divisor;
use crate::leads::Leads;
use crate::sugar::{look_over, sugar_of};
use fj_coeff::Coeff;
use fj_mono::{DEGREE_LIMIT, Mono, Order};
use fj_poly::{Buckets, Poly, PolyFault};
use std::alloc::{AllocError, Global};
use std::marker::Model;

/// A division under way: what is still to be divided, in buckets, the quotients, the remainder and the dividend's sugar.
#[derive(Drop)]
pub(crate) struct Division<K: Coeff, O: Order> {
    left: Buckets<K, O>,
    quotients: Vec<Poly<K, O>>,
    remainder: Poly<K, O>,
    sugar: u64,
}

impl<K: Coeff, O: Order> Model for Division<K, O> {
    ghost use Rattle.fj_groebner.specs.Division as definition;
    ghost use Rattle.fj_theory.specs.Polynomial.{IsPolynomial};
    ghost use Rattle.fj_basis.specs.DivisionCode.{division_code};

    ghost Value = { definition.Division };

    ghost coded = { division_code };

    ghost view = { λ d. record { dividend = d.left; quotients = d.quotients.items; remainder = d.remainder; sugar = d.sugar } };

    ghost invariant = { λ d. IsPolynomial K.field d.left };
}

impl<K: Coeff, O: Order> Division<K, O> {
    // The division of h by some polynomials begins.
    fn start(
        alloc: Global,
        h: &Poly<K, O>,
        sugar: u64,
        count: usize,
    ) -> Result<Division<K, O>, AllocError>
        ensures value { IfOk result (λ d. d ≡ record { dividend = h.now; quotients = replicate count empty; remainder = empty; sugar = sugar }) }
        ensures polynomial { OnOk result (IsPolynomial K.field h.now) }
    {
        let mut left = Buckets::new(alloc);
        left.add(h.copy(alloc)?)?;
        Ok(Division {
            left,
            quotients: zero_row(alloc, count)?,
            remainder: Poly::zero(alloc),
            sugar,
        })
    }

    // Takes the lead of the dividend out.
    fn take_lead(&mut self) -> Result<Option<(K, Mono)>, AllocError>
        ensures lead { IfOk result (λ r. option_map (λ found. (found.1.exponents, K.rank found.0)) r ≡ lead O.key self.old.dividend) }
        ensures rest { OnOk result (self.new ≡ record self.old { dividend = without_lead K.field O.key self.old.dividend }) }
        ensures polynomial { IsPolynomial K.field self.old.dividend }
    {
        self.left.take_lead()
    }

    // The multiple of g, the member at place k, that cancels the lead c*m, taken out of the dividend before, is subtracted.
    fn cancel_lead(
        &mut self,
        c: K,
        m: &Mono,
        k: usize,
        g: &Poly<K, O>,
        sugar: u64,
    ) -> Result<(), PolyFault>
        requires lead { lead O.key (with_lead K.field (K.rank c) m.now.exponents self.old).dividend ≡ Some (m.now.exponents, K.rank c) }
        requires nonzero { g.now ≢ empty }
        requires divisor { IsTrue (divides (lead_exponents O.key g.now) m.now.exponents) }
        requires place { k < length self.old.quotients }
        requires within { DegreeAtMost sugar g.now }
        requires above { All (λ t. compare_by O.key t.0 (minus m.now.exponents (lead_exponents O.key g.now)) ≡ Greater) (terms_falling O.key (slice_index_or self.old.quotients k empty)) }
        ensures value { OnOk result (self.new ≡ cancel_lead K.field O.key k (record { polynomial = g.now; sugar = sugar }) (with_lead K.field (K.rank c) m.now.exponents self.old)) }
        ensures high { IsHighWhere (degree_limit < total (minus m.now.exponents (lead_exponents O.key g.now)) + sugar) result }
    {
        let (d, n) = g.lead().unwrap();
        let monomial = m.quot(&n);
        let risen = monomial.total().saturating_add(sugar);
        if risen > DEGREE_LIMIT {
            return Err(PolyFault::High);
        }
        let coefficient = ratio(c, d);
        self.left
            .add_multiple_of_rest(coefficient.neg(), &monomial, g)?;
        self.quotients[k].push_term(coefficient, &monomial)?;
        self.sugar = self.sugar.max(risen);
        Ok(())
    }

    // The lead c*m, taken out of the dividend before, moves to the remainder.
    fn move_lead(&mut self, c: K, m: &Mono) -> Result<(), AllocError>
        requires lead { lead O.key (with_lead K.field (K.rank c) m.now.exponents self.old).dividend ≡ Some (m.now.exponents, K.rank c) }
        requires above { All (λ t. compare_by O.key t.0 m.now.exponents ≡ Greater) (terms_falling O.key self.old.remainder) }
        ensures { OnOk result (self.new ≡ move_lead K.field O.key (with_lead K.field (K.rank c) m.now.exponents self.old)) }
    {
        self.remainder.push_term(c, m)
    }

    // One step, the dividend's lead c*m being taken out before.
    fn step<D: Divisor<K, O>>(
        &mut self,
        c: K,
        m: &Mono,
        list: &[D],
        leads: &Leads,
    ) -> Result<(), PolyFault>
        requires lead { lead O.key (with_lead K.field (K.rank c) m.now.exponents self.old).dividend ≡ Some (m.now.exponents, K.rank c) }
        requires polynomials { ArePolynomials K.field (polynomials_of (map D.sugared list.now)) }
        requires nonzero { All (λ f. f ≢ empty) (polynomials_of (map D.sugared list.now)) }
        requires within { AreWithinSugars (map D.sugared list.now) }
        requires state { IsUnderWay K.field O.key (map D.sugared list.now) (with_lead K.field (K.rank c) m.now.exponents self.old) }
        requires low { self.old.sugar ≤ degree_limit }
        requires leads { exponents_of leads.now ≡ lead_list O.key (map D.sugared list.now) }
        ensures step { OnOk result (IsDivisionStep K.field O.key (map D.sugared list.now) (with_lead K.field (K.rank c) m.now.exponents self.old) self.new) }
        ensures high { IsHighWhere (degree_limit < (step_by K.field O.key (map D.sugared list.now) (first_divisor O.key (map D.sugared list.now) m.now.exponents) (with_lead K.field (K.rank c) m.now.exponents self.old)).sugar) result }
    {
        match leads.first(m) {
            Some(k) => {
                let g = &list[k];
                self.cancel_lead(c, m, k, g.polynomial(), g.sugar())
            }
            None => {
                self.move_lead(c, m)?;
                Ok(())
            }
        }
    }

    /// The quotients, one for each member of the list.
    pub(crate) fn quotients(&self) -> &[Poly<K, O>]
        ensures { result.now ≡ self.now.quotients }
    {
        &self.quotients
    }

    /// The remainder.
    pub(crate) fn remainder(&self) -> &Poly<K, O>
        ensures { result.now ≡ self.now.remainder }
    {
        &self.remainder
    }

    /// The quotients, the remainder and its sugar.
    pub(crate) fn into_parts(self) -> (Vec<Poly<K, O>>, Poly<K, O>, u64)
        ensures quotients { result.0.items ≡ self.quotients }
        ensures remainder { result.1 ≡ self.remainder }
        ensures sugar { result.2 ≡ self.sugar }
    {
        (self.quotients, self.remainder, self.sugar)
    }
}

// The quotient of two coefficients: members of a run are monic, and no inverse is computed for them.
fn ratio<K: Coeff>(c: K, d: K) -> K
    requires { K.rank d ≢ 0 }
    ensures { K.rank result ≡ K.field.mul (K.rank c) (K.field.inverse (K.rank d)) }
{
    if d == K::one() { c } else { c.mul(d.inv()) }
}

// The index of the leads of the members.
fn leads_of<K: Coeff, O: Order, D: Divisor<K, O>>(
    alloc: Global,
    list: &[D],
) -> Result<Leads, AllocError>
    requires { All (λ g. (D.sugared g).polynomial ≢ empty) list.now }
    ensures { IfOk result (λ l. exponents_of l ≡ lead_list O.key (map D.sugared list.now)) }
{
    let mut leads = Leads::of(alloc, &[])?;
    for g in list {
        let (_, lead) = g.polynomial().lead().unwrap();
        leads.push(&lead)?;
    }
    Ok(leads)
}

/// The division of h, with its sugar, by a list of polynomials with their sugars, none of them zero.
pub(crate) fn divide_sugared<K: Coeff, O: Order, D: Divisor<K, O>>(
    alloc: Global,
    h: &Poly<K, O>,
    sugar: u64,
    list: &[D],
) -> Result<Division<K, O>, PolyFault>
    requires polynomials { ArePolynomials K.field (polynomials_of (map D.sugared list.now)) }
    requires nonzero { All (λ f. f ≢ empty) (polynomials_of (map D.sugared list.now)) }
    requires within { AreWithinSugars (map D.sugared list.now) }
    requires bound { DegreeAtMost sugar h.now }
    requires low { sugar ≤ degree_limit }
    ensures value { IfOk result (IsLowDivision K.field O.key (map D.sugared list.now) (record { polynomial = h.now; sugar = sugar })) }
    ensures high { IsHighWhere (IsHighDivision K.field O.key (map D.sugared list.now) (record { polynomial = h.now; sugar = sugar })) result }
{
    let leads = leads_of(alloc, list)?;
    let mut division = Division::start(alloc, h, sugar, list.len())?;
    while let Some(lead) = division.take_lead()? {
        division.step(lead.0, &lead.1, list, &leads)?;
    }
    Ok(division)
}

/// The quotients and the remainder of the division of h by a list of polynomials, none of them zero, for the order O:
/// while the dividend isn't zero, the first member whose lead divides the dividend's lead has the multiple that cancels
/// this lead subtracted, and where there is none the leading term moves to the remainder (Cox, Little and O'Shea 2015,
/// chapter 2, section 3). So h is the sum of each quotient times its member, and the remainder.
///
/// `High` exactly where a product that is subtracted has a term of total degree above 2^40, which never happens in an
/// order that compares degrees first, as Grevlex and Grlex (`fj_groebner::bases::degree_orders`).
pub fn divide<K: Coeff, O: Order>(
    alloc: Global,
    h: &Poly<K, O>,
    list: &[Poly<K, O>],
) -> Result<(Vec<Poly<K, O>>, Poly<K, O>), PolyFault>
    requires { All (λ g. g ≢ empty) list.now }
    ensures value { IfOk result (λ r. IsDivided K.field O.key (map given list.now) (given h.now) r.0.items r.1) }
    ensures identity { IfOk result (λ r. h.now ≡ sum K.field (list_combination K.field r.0.items list.now) r.1) }
    ensures long { IfOk result (λ r. length r.0.items ≡ length list.now) }
    ensures high { IsHighWhere (SubtractsHigh K.field O.key (map given list.now) (given h.now)) result }
    ensures degree_order { IsDegreeOrder O.key → IsHighWhere ⊥ result }
{
    look_over(list);
    let division = divide_sugared(alloc, h, sugar_of(h), list)?;
    let (quotients, remainder, _) = division.into_parts();
    Ok((quotients, remainder))
}
