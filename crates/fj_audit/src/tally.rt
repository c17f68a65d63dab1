//! An auditor that counts.
ghost use Rattle.std.specs.Prelude.{◌≡◌, None, Ok, true, codes};
ghost use Rattle.fj_audit.specs.Account.{Notes, new_account};
ghost use Rattle.fj_audit.specs.Counting.{tally_account};

use crate::auditor::Auditor;
use crate::fault::AuditFault;
use fj_plain::Cert;
use std::alloc::Global;
use std::marker::Model;

/// Counts the certificates, and takes each for good. It never fails, and takes no memory.
#[derive(Debug, Drop)]
pub struct Tally {
    seen: u64,
}

impl Model for Tally {
    ghost use Rattle.std.specs.Prelude.{ℕ};

    ghost Value = { ℕ };

    ghost view = { λ t. t.seen };
}

impl Tally {
    /// One that was shown nothing.
    pub fn new() -> Tally
        ensures { tally_account result ≡ new_account (codes "tally") None }
    {
        Tally { seen: 0 }
    }
}

impl Auditor for Tally {
    ghost account = { tally_account };

    fn name(&self) -> &str {
        "tally"
    }

    fn seen(&self) -> u64 {
        self.seen
    }

    fn bad(&self) -> u64 {
        0
    }

    fn faults(&self) -> u64 {
        0
    }

    fn note(&mut self, _alloc: Global, c: &Cert) -> Result<bool, AuditFault>
        ensures notes { Notes (tally_account self.old) (tally_account self.new) c.now result }
        ensures good { result ≡ Ok true }
    {
        self.seen = self.seen.saturating_add(1);
        Ok(true)
    }
}
