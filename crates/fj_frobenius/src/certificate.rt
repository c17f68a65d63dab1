//! Certificates of the parts over q-th powers of lists.
ghost use Rattle.std.specs.Prelude.{◌≡◌, ◌≤◌, ◌∷◌, [], IfOk, map};
ghost use Rattle.fj_theory.specs.Certificate.{AllRanksBelow};
ghost use Rattle.fj_theory.specs.Plain.{polynomial};
ghost use Rattle.fj_theory.specs.Polynomial.{term};
ghost use Rattle.fj_plain.specs.Holds.{Holds};
ghost use Rattle.fj_root.specs.Part.{parts_of};
ghost use Rattle.fj_frobenius.specs.Certificate.{IsRootCertificateOf};

use fj_basis::plain_list;
use fj_coeff::Coeff;
use fj_mono::Grevlex;
use fj_plain::{Cert, PlainList, PlainTable};
use fj_poly::GPoly;
use fj_root::{Part, parts};
use std::alloc::{AllocError, Global};

/// The certificate of the parts at e of each polynomial of a list over a prime field, q = p^e: each polynomial is the sum of
/// the q-th powers of its parts times their residues. There e is at most 12.
pub fn root_cert<K: Coeff>(alloc: Global, e: u32, list: &[GPoly<K>]) -> Result<Cert, AllocError>
    requires exponent { e ≤ 12 }
    requires prime { K.SIZE ≡ K.P }
    ensures value { IfOk result (IsRootCertificateOf K.P e list.now) }
    ensures holds { IfOk result Holds }
{
    let mut residues = Vec::with_capacity(alloc, list.len())?;
    let mut part_rows = Vec::with_capacity(alloc, list.len())?;
    for f in list {
        let found = parts(alloc, e, f)?;
        residues.push(plain_residues(alloc, &found)?)?;
        part_rows.push(plain_parts(alloc, &found)?)?;
    }
    Ok(Cert::Root {
        p: K::P,
        e,
        list: plain_list(alloc, list)?,
        residues: PlainTable::of(residues),
        parts: PlainTable::of(part_rows),
    })
}

/// The residues of parts, each as one term of rank 1.
fn plain_residues<K: Coeff>(
    alloc: Global,
    found: &[Part<K, Grevlex>],
) -> Result<PlainList, AllocError>
    ensures terms { IfOk result (λ residues. map (λ f. f.terms) residues ≡ map (λ part. (part.residue, 1) ∷ []) (parts_of found.now)) }
    ensures value { IfOk result (λ residues. map polynomial residues ≡ map (λ part. term 1 part.residue) (parts_of found.now)) }
    ensures ranks { IfOk result (AllRanksBelow K.field.size) }
{
    let mut residues = Vec::with_capacity(alloc, found.len())?;
    for part in found {
        let monomial = GPoly::<K>::term(alloc, K::one(), &part.residue)?;
        residues.push(monomial.to_plain(alloc)?)?;
    }
    Ok(PlainList::of(residues))
}

/// The polynomials of parts.
fn plain_parts<K: Coeff>(alloc: Global, found: &[Part<K, Grevlex>]) -> Result<PlainList, AllocError>
    ensures value { IfOk result (λ plain. map polynomial plain ≡ map (λ part. part.polynomial) (parts_of found.now)) }
    ensures ranks { IfOk result (AllRanksBelow K.field.size) }
{
    let mut plain = Vec::with_capacity(alloc, found.len())?;
    for part in found {
        plain.push(part.poly.to_plain(alloc)?)?;
    }
    Ok(PlainList::of(plain))
}
