//! The parts of a polynomial over q-th powers.
ghost use Rattle.std.specs.Prelude.{◌≡◌, ◌≢◌, ◌≤◌, ◌^◌, ◌++◌, ◌∷◌, [], IfOk, OnOk, All, sum};
ghost use Rattle.std.specs.BTreeMap.{IsOrdered, get};
ghost use Rattle.std.specs.declared.cmp.Ordering.TheVariants.{Greater};
ghost use Rattle.fj_theory.specs.MonomialOrder.{compare_by};
ghost use Rattle.fj_theory.specs.Parts.{IsParts, iterated_root, part_terms};
ghost use Rattle.fj_theory.specs.Polynomial.{IsPolynomial, terms_falling};
ghost use Rattle.fj_mono.specs.Monomial.{Monomial};
ghost use Rattle.fj_root.specs.Groups.{IsGroup, gathered_parts, lex, terms_at};
ghost use Rattle.fj_root.specs.Part.{parts_of};

use crate::frobenius_power::frobenius_exponent;
use fj_coeff::Coeff;
use fj_mono::{Mono, Order};
use fj_poly::Poly;
use std::alloc::{AllocError, Global};
use std::collections::BTreeMap;

/// The part of a polynomial at a residue.
#[derive(Drop)]
pub struct Part<K: Coeff, O: Order> {
    /// The exponents, each below q.
    pub residue: Mono,

    /// The part, which isn't zero.
    pub poly: Poly<K, O>,
}

/// The e-fold root of a coefficient.
fn root<K: Coeff>(e: u32, c: K) -> K
    ensures { K.rank result ≡ iterated_root K.field e (K.rank c) }
{
    let mut root = c;
    for _ in 0..e {
        root = root.root();
    }
    root
}

/// Polynomials by residue.
type Groups<K, O> = BTreeMap<Mono, Poly<K, O>>;

/// Appends a term to the polynomial at a residue, below all the terms that are there.
fn put<K: Coeff, O: Order>(
    alloc: Global,
    groups: &mut Groups<K, O>,
    residue: Mono,
    c: K,
    m: &Mono,
) -> Result<(), AllocError>
    requires nonzero { K.rank c ≢ 0 }
    requires below { All (λ t. compare_by O.key t.0 m.now.exponents ≡ Greater) (terms_at O.key groups.old residue) }
    ensures there { OnOk result (IsGroup K.field O.key (get lex groups.new residue) (terms_at O.key groups.old residue ++ (m.now.exponents, K.rank c) ∷ [])) }
    ensures others { OnOk result ((a : Monomial) → a ≢ residue → get lex groups.new a ≡ get lex groups.old a) }
{
    if let Some(poly) = groups.get_mut(&residue) {
        return poly.push_term(c, m);
    }
    groups.insert(residue, Poly::term(alloc, c, m)?)?;
    Ok(())
}

/// The terms of h by the residues of their monomials, each with the quotient and the root of its coefficient.
fn gather<K: Coeff, O: Order>(
    alloc: Global,
    e: u32,
    h: &Poly<K, O>,
) -> Result<Groups<K, O>, AllocError>
    requires { e ≤ 12 }
    ensures groups { IfOk result (λ groups. (a : Monomial) → IsGroup K.field O.key (get lex groups a) (part_terms K.field e a.exponents (terms_falling O.key h.now))) }
    ensures polynomial { IsPolynomial K.field h.now }
    ensures bounded { OnOk result (All (λ t. sum t.0 ≤ 2 ^ 40) (terms_falling O.key h.now)) }
{
    let q = frobenius_exponent::<K>(e);
    let mut groups = BTreeMap::new(alloc);
    for i in 0..h.len() {
        let (c, m) = h.at(i);
        let (quotient, residue) = m.split(q);
        put(alloc, &mut groups, residue, root(e, c), &quotient)?;
    }
    Ok(groups)
}

/// The entries of the map, as a list.
fn list<K: Coeff, O: Order>(
    alloc: Global,
    groups: Groups<K, O>,
) -> Result<Vec<Part<K, O>>, AllocError>
    ensures parts { IfOk result (λ parts. parts_of parts.items ≡ gathered_parts groups) }
    ensures ordered { IsOrdered lex groups }
{
    let mut parts = Vec::with_capacity(alloc, groups.len())?;
    for (residue, poly) in groups {
        parts.push(Part { residue, poly })?;
    }
    Ok(parts)
}

/// The nonzero parts of h at e, residues rising in Lex: the polynomials h_a with h = sum over a of h_a^q * x^a, a over the
/// exponent lists with entries below q = p^e (Blickle, Mustață and Smith 2008). There e is at most 12.
pub fn parts<K: Coeff, O: Order>(
    alloc: Global,
    e: u32,
    h: &Poly<K, O>,
) -> Result<Vec<Part<K, O>>, AllocError>
    requires { e ≤ 12 }
    ensures { IfOk result (λ parts. IsParts K.field (K.field.characteristic ^ e) h.now (parts_of parts.items)) }
{
    list(alloc, gather(alloc, e, h)?)
}
