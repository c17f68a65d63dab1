//! Points, and the values of polynomials there.
ghost use Rattle.std.specs.Prelude.{◌≡◌, ◌≤◌, IfOk, length, map, slice_index};
ghost use Rattle.fj_coeff.specs.Field as field;
ghost use Rattle.fj_theory.specs.Evaluation.{IsPoint, monomial_value, value};

use super::Poly;
use super::product::coefficient_power;
use fj_coeff::Coeff;
use fj_mono::{Mono, Order};
use std::alloc::{AllocError, Global};
use std::marker::Model;

/// A point: at most eight coefficients. A variable past its end counts as zero.
#[derive(Drop)]
pub struct Point<K: Coeff> {
    coordinates: Vec<K>,
}

impl<K: Coeff> Model for Point<K> {
    ghost use Rattle.std.specs.Prelude.{ℕ, ◌≤◌, List, length, map};

    ghost Value = { List ℕ };

    ghost view = { λ p. map K.rank p.coordinates.items };

    ghost invariant = { λ p. length p.coordinates.items ≤ 8 };
}

impl<K: Coeff> Point<K> {
    /// The point with these coordinates.
    pub fn of(alloc: Global, c: &[K]) -> Result<Point<K>, AllocError>
        requires { length c.now ≤ 8 }
        ensures { IfOk result (λ p. p ≡ map K.rank c.now) }
    {
        let mut coordinates = Vec::new(alloc);
        coordinates.extend_from_slice(c)?;
        Ok(Point { coordinates })
    }

    /// The number of coordinates. Each coordinate is an element of the field.
    pub fn len(&self) -> usize
        ensures value { result ≡ length self.now }
        ensures point { IsPoint K.field self.now }
    {
        self.coordinates.len()
    }
}

impl<K: Coeff, O: Order> Poly<K, O> {
    /// The value at a point.
    pub fn eval(&self, at: &Point<K>) -> K
        ensures { K.rank result ≡ value K.field self.now at.now }
    {
        let point = at.coordinates.as_slice();
        let mut sum = K::zero();
        for t in self.terms.as_slice() {
            let monomial = value_of_monomial(point, &t.monomial);
            sum = sum.add(t.coefficient.mul(monomial));
        }
        sum
    }
}

// The value of a monomial at a point.
fn value_of_monomial<K: Coeff>(point: &[K], m: &Mono) -> K
    ensures { K.rank result ≡ monomial_value K.field m.now.exponents (map K.rank point.now) }
{
    let mut value = K::one();
    let mut i = 8;
    while i > 0 {
        i -= 1;
        let power = coefficient_power(coordinate(point, i), m.exp(i));
        value = power.mul(value);
    }
    value
}

// The coordinate at place i, zero past the end.
fn coordinate<K: Coeff>(point: &[K], i: usize) -> K
    ensures { K.rank result ≡ slice_index (map K.rank point.now) i }
{
    match point.get(i) {
        Some(x) => *x,
        None => K::zero(),
    }
}
