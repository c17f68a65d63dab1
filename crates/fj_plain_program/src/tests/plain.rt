//! A plain, slow program beside the definitions: sums, products, parts and reduced bases of small polynomials, over lists
//! of terms in any order.

ghost use Rattle.std.specs.Prelude.{◌<◌};

use fj_coeff::Coeff;
use std::alloc::{AllocError, Global};

// The exponents in eight variables. Those of the rows are small: no sum of them saturates.
pub type Exponents = [u64; 8];

// Terms with distinct exponents and coefficients that aren't zero, in any order.
#[derive(Drop)]
pub struct Polynomial<K: Coeff> {
    pub terms: Vec<(Exponents, K)>,
}

pub type Made<K> = Result<Polynomial<K>, AllocError>;

fn plus(a: &Exponents, b: &Exponents) -> Exponents {
    let mut sum = *a;
    for (x, y) in sum.iter_mut().zip(b) {
        *x = x.saturating_add(*y);
    }
    sum
}

// The difference, with 0 where it would be negative.
fn minus(a: &Exponents, b: &Exponents) -> Exponents {
    let mut difference = *a;
    for (x, y) in difference.iter_mut().zip(b) {
        *x = x.saturating_sub(*y);
    }
    difference
}

fn divides(a: &Exponents, b: &Exponents) -> bool {
    a.iter().zip(b).all(|(x, y)| x <= y)
}

impl<K: Coeff> Polynomial<K> {
    pub fn zero(alloc: Global) -> Self {
        let terms = Vec::new(alloc);
        Polynomial { terms }
    }

    fn coefficient(&self, a: &Exponents) -> K {
        let found = self.terms.iter().find(|(b, _)| b == a);
        found.map_or(K::zero(), |(_, c)| *c)
    }

    // The coefficient c at exponents that the polynomial may have already.
    pub fn put(&mut self, a: &Exponents, c: K) -> Result<(), AllocError> {
        if c != K::zero() && self.coefficient(a) == K::zero() {
            self.terms.push((*a, c))?;
        }
        Ok(())
    }

    pub fn sum(&self, g: &Self) -> Made<K> {
        let mut sum = Polynomial::zero(*self.terms.allocator());
        for (a, _) in self.terms.iter().chain(&g.terms) {
            sum.put(a, self.coefficient(a).add(g.coefficient(a)))?;
        }
        Ok(sum)
    }

    // The sum over all b + c = a of the products of the coefficients at b and c.
    fn convolution(&self, g: &Self, a: &Exponents) -> K {
        let mut total = K::zero();
        for (b, x) in &self.terms {
            if divides(b, a) {
                total = total.add(x.mul(g.coefficient(&minus(a, b))));
            }
        }
        total
    }

    pub fn product(&self, g: &Self) -> Made<K> {
        let mut product = Polynomial::zero(*self.terms.allocator());
        for (b, _) in &self.terms {
            for (c, _) in &g.terms {
                let a = plus(b, c);
                product.put(&a, self.convolution(g, &a))?;
            }
        }
        Ok(product)
    }

    // c * x^a times the polynomial.
    pub fn multiple(&self, c: K, a: &Exponents) -> Made<K> {
        let mut term = Polynomial::zero(*self.terms.allocator());
        term.put(a, c)?;
        term.product(self)
    }

    // The product of k equal factors.
    pub fn power(&self, k: u64) -> Made<K> {
        let mut power = Polynomial::zero(*self.terms.allocator());
        power.put(&[0; 8], K::one())?;
        for _ in 0..k {
            power = power.product(self)?;
        }
        Ok(power)
    }

    // The part at a residue in characteristic p: of each term c * x^(p * b + a) the term root(c) * x^b.
    pub fn part(&self, p: u64, residue: &Exponents) -> Made<K>
        requires { 0 < p }
    {
        let mut part = Polynomial::zero(*self.terms.allocator());
        for (a, c) in &self.terms {
            if a.map(|x| x % p) == *residue {
                part.put(&a.map(|x| x / p), c.root())?;
            }
        }
        Ok(part)
    }

    // The parts at the residues of its terms: each part that isn't zero. They generate the root.
    pub fn parts(&self, p: u64) -> Result<List<K>, AllocError>
        requires { 0 < p }
    {
        let mut parts = Vec::new(*self.terms.allocator());
        for (a, _) in &self.terms {
            parts.push(self.part(p, &a.map(|x| x % p))?)?;
        }
        Ok(parts)
    }

    pub fn same(&self, g: &Self) -> bool {
        let mut terms = self.terms.iter().chain(&g.terms);
        terms.all(|(a, _)| self.coefficient(a) == g.coefficient(a))
    }
}

#[derive(Clone, Copy)]
pub enum Order {
    Lex,
    Grevlex,
}

// Exponents with a greater key are greater. In Grevlex it has the sums of the first exponents, the longest first.
fn key(order: Order, a: &Exponents) -> Exponents {
    let mut key = *a;
    if matches!(order, Order::Grevlex) {
        let mut sum: u64 = 0;
        for x in key.iter_mut() {
            sum = sum.saturating_add(*x);
            *x = sum;
        }
        key.reverse();
    }
    key
}

impl<K: Coeff> Polynomial<K> {
    // The lead of a polynomial that isn't zero.
    fn lead(&self, order: Order) -> Exponents {
        let mut lead = [0; 8];
        for (a, _) in &self.terms {
            if key(order, a) > key(order, &lead) {
                lead = *a;
            }
        }
        lead
    }

    // Divided by the leading coefficient c, that is, times c^(q - 2) in a field of q elements.
    fn monic(&self, order: Order) -> Made<K> {
        let c = self.coefficient(&self.lead(order));
        let mut inverse = K::one();
        for _ in 2..K::SIZE {
            inverse = inverse.mul(c);
        }
        self.multiple(inverse, &[0; 8])
    }

    // One term that the lead of a monic member divides is cancelled, if there is one.
    fn step(&self, order: Order, members: &[Self]) -> Result<Option<Self>, AllocError> {
        for g in members {
            let lead = g.lead(order);
            for (a, c) in &self.terms {
                if divides(&lead, a) {
                    let multiple = g.multiple(c.neg(), &minus(a, &lead))?;
                    return Ok(Some(self.sum(&multiple)?));
                }
            }
        }
        Ok(None)
    }

    // What is left after at most a hundred steps.
    fn remainder(&self, order: Order, members: &[Self]) -> Made<K> {
        let mut rest = self.multiple(K::one(), &[0; 8])?;
        for _ in 0..100 {
            match rest.step(order, members)? {
                Some(next) => rest = next,
                None => break,
            }
        }
        Ok(rest)
    }

    // The S-polynomial of two monic polynomials.
    fn s_polynomial(&self, order: Order, g: &Self) -> Made<K> {
        let a = self.lead(order);
        let b = g.lead(order);
        let second = g.multiple(K::one().neg(), &minus(&a, &b))?;
        self.multiple(K::one(), &minus(&b, &a))?.sum(&second)
    }
}

pub type List<K> = Vec<Polynomial<K>>;

// The monic polynomials of the list, with the remainders of their S-polynomials that aren't zero. Pairs of the first
// eight are treated, and that is enough for the rows.
fn completed<K: Coeff>(order: Order, list: List<K>) -> Result<List<K>, AllocError> {
    let mut members = Vec::new(*list.allocator());
    for f in &list {
        members.push(f.monic(order)?)?;
    }
    for i in 0..8 {
        for j in 0..i {
            if let (Some(f), Some(g)) = (members.get(i), members.get(j)) {
                let rest = f.s_polynomial(order, g)?.remainder(order, &members)?;
                if !rest.terms.is_empty() {
                    members.push(rest.monic(order)?)?;
                }
            }
        }
    }
    Ok(members)
}

// By rising leads: each member whose lead no earlier one divides, reduced by the earlier ones.
pub fn reduced_basis<K: Coeff>(order: Order, list: List<K>) -> Result<List<K>, AllocError> {
    let members = completed(order, list)?;
    let mut basis = Vec::new(*members.allocator());
    for _ in 0..members.len() {
        if let Some(f) = least_new(order, &members, &basis) {
            basis.push(f.remainder(order, &basis)?)?;
        }
    }
    Ok(basis)
}

fn least_new<'a, K: Coeff>(
    order: Order,
    members: &'a [Polynomial<K>],
    basis: &[Polynomial<K>],
) -> Option<&'a Polynomial<K>> {
    let mut least: Option<&'a Polynomial<K>> = None;
    for f in members {
        let a = f.lead(order);
        let is_new = basis.iter().all(|g| !divides(&g.lead(order), &a));
        if is_new && least.is_none_or(|g| key(order, &a) < key(order, &g.lead(order))) {
            least = Some(f);
        }
    }
    least
}
