ghost use Rattle.std.specs.Prelude.{◌≡◌, All, IfOk, map};
ghost use Rattle.fj_theory.specs.Certificate.{AllRowsBelow};
ghost use Rattle.fj_theory.specs.Plain.{polynomial};
ghost use Rattle.fj_basis.specs.Outcome.{TotalsAreLow};

use super::Basis;
use crate::certificate::plain_table;
use fj_coeff::Coeff;
use fj_mono::Order;
use fj_plain::PlainTable;
use std::alloc::{AllocError, Global};

impl<K: Coeff, O: Order> Basis<K, O> {
    /// The cofactors of the given polynomials in the members as plain ones, a row for each member.
    pub fn plain_down(&self, alloc: Global) -> Result<PlainTable, AllocError>
        ensures value { IfOk result (λ table. map (map polynomial) table ≡ self.now.down) }
        ensures ranks { IfOk result (AllRowsBelow K.field.size) }
        ensures totals { IfOk result (All TotalsAreLow) }
    {
        plain_table(alloc, &self.down)
    }

    /// The cofactors of the members in the given polynomials as plain ones, a row for each of these.
    pub fn plain_up(&self, alloc: Global) -> Result<PlainTable, AllocError>
        ensures value { IfOk result (λ table. map (map polynomial) table ≡ self.now.up) }
        ensures ranks { IfOk result (AllRowsBelow K.field.size) }
        ensures totals { IfOk result (All TotalsAreLow) }
    {
        plain_table(alloc, &self.up)
    }
}
