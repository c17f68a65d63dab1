//! Lists that generate Frobenius roots: the parts of polynomials and of multiples.
ghost use Rattle.std.specs.Prelude.{◌≡◌, ◌≢◌, ◌≤◌, ◌^◌, ◌++◌, List, map, All, IfOk, OnOk, MatchBool};
ghost use Rattle.std.specs.List.{Any};
ghost use Rattle.std.specs.FinMap.{empty};
ghost use Rattle.fj_theory.specs.Ideal.{multiples};
ghost use Rattle.fj_theory.specs.Parts as theory;
ghost use Rattle.fj_theory.specs.Parts.{IsParts};
ghost use Rattle.fj_theory.specs.Polynomial.{IsPolynomial, power};
ghost use Rattle.fj_theory.specs.Root.{IsRoot};
ghost use Rattle.fj_poly.specs.Limit.{IsHigh, IsHighWhere};
ghost use Rattle.fj_root.specs.Root.{ArePartsOf};

use crate::part::parts;
use fj_coeff::Coeff;
use fj_mono::Order;
use fj_poly::{Poly, PolyFault};
use std::alloc::{AllocError, Global};

/// Appends the parts of h at e to a list.
fn push_parts<K: Coeff, O: Order>(
    alloc: Global,
    e: u32,
    h: &Poly<K, O>,
    root: &mut Vec<Poly<K, O>>,
) -> Result<(), AllocError>
    requires { e ≤ 12 }
    ensures { OnOk result ((parts : List theory.Part) × IsParts K.field (K.field.characteristic ^ e) h.now parts × (root.new.items ≡ root.old.items ++ map (λ part. part.polynomial) parts)) }
{
    for part in parts(alloc, e, h)? {
        root.push(part.poly)?;
    }
    Ok(())
}

/// The parts at e of each polynomial of the list, in order: a list that generates the Frobenius root at e of the ideal,
/// the smallest ideal whose Frobenius power has the list inside (Blickle, Mustață and Smith 2008). There e is at most 12.
pub fn root_list<K: Coeff, O: Order>(
    alloc: Global,
    e: u32,
    list: &[Poly<K, O>],
) -> Result<Vec<Poly<K, O>>, AllocError>
    requires { e ≤ 12 }
    ensures parts { IfOk result (λ root. ArePartsOf K.field (K.field.characteristic ^ e) list.now root.items) }
    ensures root { IfOk result (λ root. IsRoot K.field (K.field.characteristic ^ e) list.now root.items) }
{
    let mut root = Vec::new(alloc);
    for h in list {
        push_parts(alloc, e, h, &mut root)?;
    }
    Ok(root)
}

/// Whether a polynomial of the list isn't zero.
fn has_nonzero<K: Coeff, O: Order>(list: &[Poly<K, O>]) -> bool
    ensures { MatchBool result (Any (λ g. IsPolynomial K.field g × (g ≢ empty)) list.now) (All (λ g. g ≡ empty) list.now) }
{
    list.iter().any(|g| !g.is_zero())
}

/// The parts at 1 of f^d*g for each g of the list, in order: a list that generates the Frobenius root at 1 of the ideal of
/// these products (Blickle, Mustață and Smith 2008). `High` exactly where such a product, which then isn't zero, has a term
/// that passes total degree 2^40; f^d alone is no reason.
pub fn root_gens<K: Coeff, O: Order>(
    alloc: Global,
    d: u64,
    f: &Poly<K, O>,
    list: &[Poly<K, O>],
) -> Result<Vec<Poly<K, O>>, PolyFault>
    ensures parts { IfOk result (λ root. ArePartsOf K.field (K.field.characteristic ^ 1) (multiples K.field (power K.field f.now d) list.now) root.items) }
    ensures root { IfOk result (λ root. IsRoot K.field (K.field.characteristic ^ 1) (multiples K.field (power K.field f.now d) list.now) root.items) }
    ensures high { IsHighWhere (Any IsHigh (multiples K.field (power K.field f.now d) list.now)) result }
{
    let mut root = Vec::new(alloc);
    if !has_nonzero(list) {
        return Ok(root);
    }
    let factor = f.pow(alloc, d)?;
    for g in list {
        push_parts(alloc, 1, &factor.mul(alloc, g)?, &mut root)?;
    }
    Ok(root)
}
