ghost use Rattle.std.specs.Prelude.{◌≡◌, IfOk, length, map};
ghost use Rattle.fj_basis.specs.Basis.{IsMadeOf, unit_rows};

use super::Basis;
use crate::cofactors::row_of_one;
use crate::members::Row;
use crate::sugar::look_over;
use fj_coeff::Coeff;
use fj_mono::Order;
use fj_poly::Poly;
use std::alloc::{AllocError, Global};

impl<K: Coeff, O: Order> Basis<K, O> {
    /// A list that is a basis already, as made of itself: both ways the cofactors are 1 at the place of each polynomial and 0
    /// elsewhere. Nothing is calculated.
    pub fn of_itself(alloc: Global, members: Vec<Poly<K, O>>) -> Result<Basis<K, O>, AllocError>
        ensures members { IfOk result (λ b. b.members ≡ members.items) }
        ensures down { IfOk result (λ b. b.down ≡ unit_rows (length members.items)) }
        ensures up { IfOk result (λ b. b.up ≡ unit_rows (length members.items)) }
        ensures made { IfOk result (IsMadeOf K.field members.items) }
    {
        look_over(&members);
        let down = unit_rows(alloc, members.len())?;
        let up = unit_rows(alloc, members.len())?;
        Ok(Basis { members, down, up })
    }
}

// The cofactors of a list over itself.
fn unit_rows<K: Coeff, O: Order>(alloc: Global, count: usize) -> Result<Vec<Row<K, O>>, AllocError>
    ensures { IfOk result (λ rows. map (λ row. row.items) rows.items ≡ unit_rows count) }
{
    let mut rows = Vec::with_capacity(alloc, count)?;
    for j in 0..count {
        rows.push(row_of_one(alloc, K::one(), j, count)?)?;
    }
    Ok(rows)
}
