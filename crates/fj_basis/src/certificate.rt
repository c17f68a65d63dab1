//! Plain polynomials of lists and of tables, as stops keep them and certificates say them.
ghost use Rattle.std.specs.Prelude.{◌≡◌, IfOk, All, map};
ghost use Rattle.fj_theory.specs.Plain.{HasRanksBelow, polynomial};
ghost use Rattle.fj_theory.specs.Certificate.{AllRanksBelow, AllRowsBelow};
ghost use Rattle.fj_plain.specs.OrderRow.{order_in_row};
ghost use Rattle.fj_basis.specs.Outcome.{IsKeptOf, TermsFall, TotalsAreLow};

use crate::members::Row;
use fj_coeff::Coeff;
use fj_mono::Order;
use fj_plain::{Kept, OrderName, PlainList, PlainTable};
use fj_poly::Poly;
use std::alloc::{AllocError, Global};

/// The polynomials of a list as plain ones, the terms of each falling in O.
pub fn plain_list<K: Coeff, O: Order>(
    alloc: Global,
    list: &[Poly<K, O>],
) -> Result<PlainList, AllocError>
    ensures value { IfOk result (λ plain. map polynomial plain ≡ list.now) }
    ensures ranks { IfOk result (AllRanksBelow K.field.size) }
    ensures falling { IfOk result (TermsFall O.key) }
    ensures totals { IfOk result TotalsAreLow }
{
    let mut plain = Vec::with_capacity(alloc, list.len())?;
    for f in list {
        plain.push(f.to_plain(alloc)?)?;
    }
    Ok(PlainList::of(plain))
}

/// The rows of a table as plain ones.
pub(crate) fn plain_table<K: Coeff, O: Order>(
    alloc: Global,
    rows: &[Row<K, O>],
) -> Result<PlainTable, AllocError>
    ensures value { IfOk result (λ plain. map (map polynomial) plain ≡ map (λ row. row.items) rows.now) }
    ensures ranks { IfOk result (AllRowsBelow K.field.size) }
    ensures totals { IfOk result (All TotalsAreLow) }
{
    let mut plain = Vec::with_capacity(alloc, rows.len())?;
    for row in rows {
        plain.push(plain_list(alloc, row)?)?;
    }
    Ok(PlainTable::of(plain))
}

/// The polynomials of a list as plain ones, with their order, as a stop keeps them.
pub fn kept<K: Coeff, O: Order>(alloc: Global, list: &[Poly<K, O>]) -> Result<Kept, AllocError>
    ensures { IfOk result (IsKeptOf K.field (order_in_row O.ROW) O.key list.now) }
{
    Ok(Kept {
        order: OrderName::of(O::ROW),
        list: plain_list(alloc, list)?,
    })
}
