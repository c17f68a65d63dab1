//! Certificates of answers, and whether one holds.
ghost use Rattle.std.specs.Prelude.{◌↔◌, IfOk, IsTrue};
ghost use Rattle.fj_plain.specs.Holds.{Holds};

use crate::identity::{are_sums_of_parts, express_each_other};
use crate::lists::{PlainList, PlainTable};
use crate::order_name::OrderName;
use std::alloc::{AllocError, Global};

/// Identities over GF(p) that show an answer to be right, apart from the run that found it.
#[derive(Debug, Drop)]
pub enum Cert {
    /// `found` is a basis, for an order, of the ideal of `given`: `found_i` is the sum over j of `down_ij * given_j`, and
    /// `given_j` the sum over i of `up_ji * found_i`.
    Basis {
        p: u64,
        order: OrderName,
        given: PlainList,
        found: PlainList,
        down: PlainTable,
        up: PlainTable,
    },
    /// Two lists generate one ideal: `second_i` is the sum over j of `to_second_ij * first_j`, and `first_j` the sum over
    /// i of `to_first_ji * second_i`.
    Same {
        p: u64,
        first: PlainList,
        second: PlainList,
        to_second: PlainTable,
        to_first: PlainTable,
    },
    /// The parts of a list over q-th powers, q = p^e: `list_j` is the sum over i of `residues_ji * (parts_ji)^q`.
    Root {
        p: u64,
        e: u32,
        list: PlainList,
        residues: PlainTable,
        parts: PlainTable,
    },
}

/// Whether the identities of a certificate are true.
pub fn holds(alloc: Global, c: &Cert) -> Result<bool, AllocError>
    ensures { IfOk result (λ b. IsTrue b ↔ Holds c.now) }
{
    match c {
        Cert::Basis {
            p,
            order: _,
            given,
            found,
            down,
            up,
        } => express_each_other(alloc, *p, given, found, down, up),
        Cert::Same {
            p,
            first,
            second,
            to_second,
            to_first,
        } => express_each_other(alloc, *p, first, second, to_second, to_first),
        Cert::Root {
            p,
            e,
            list,
            residues,
            parts,
        } => are_sums_of_parts(alloc, *p, *e, list, residues, parts),
    }
}
