//! An auditor that checks each certificate again.
ghost use Rattle.std.specs.Prelude.{◌≡◌, ◌↔◌, IfOk, IfErr, IsTrue, None, codes};
ghost use Rattle.fj_plain.specs.Holds.{Holds};
ghost use Rattle.fj_audit.specs.Account.{Notes, new_account};
ghost use Rattle.fj_audit.specs.Counting.{recheck_account};
ghost use Rattle.fj_audit.specs.declared.fault.AuditFault.TheVariants.{Memory};

use crate::auditor::Auditor;
use crate::fault::AuditFault;
use fj_plain::{Cert, holds};
use std::alloc::Global;
use std::marker::Model;

/// Checks the identities of each certificate, and finds it bad exactly where they aren't true. It never fails.
#[derive(Debug, Drop)]
pub struct Recheck {
    seen: u64,
    bad: u64,
}

impl Model for Recheck {
    ghost use Rattle.fj_audit.specs.Counting.{Counts};

    ghost Value = { Counts };

    ghost view = { λ r. record { seen = r.seen; bad = r.bad } };
}

impl Recheck {
    /// One that was shown nothing.
    pub fn new() -> Recheck
        ensures { recheck_account result ≡ new_account (codes "recheck") None }
    {
        Recheck { seen: 0, bad: 0 }
    }
}

impl Auditor for Recheck {
    ghost account = { recheck_account };

    fn name(&self) -> &str {
        "recheck"
    }

    fn seen(&self) -> u64 {
        self.seen
    }

    fn bad(&self) -> u64 {
        self.bad
    }

    fn faults(&self) -> u64 {
        0
    }

    fn note(&mut self, alloc: Global, c: &Cert) -> Result<bool, AuditFault>
        ensures notes { Notes (recheck_account self.old) (recheck_account self.new) c.now result }
        ensures checked { IfOk result (λ b. IsTrue b ↔ Holds c.now) }
        ensures wanting { IfErr result (λ fault. fault ≡ Memory) }
    {
        let is_good = holds(alloc, c).map_err(|_| AuditFault::Memory)?;
        self.seen = self.seen.saturating_add(1);
        if !is_good {
            self.bad = self.bad.saturating_add(1);
        }
        Ok(is_good)
    }
}
