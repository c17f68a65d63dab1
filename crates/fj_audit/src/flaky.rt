//! An auditor that fails at listed notes, for tests.
ghost use Rattle.std.specs.Prelude.{◌≡◌, ◌↔◌, IsErr, IsTrue, IfErr, IfOk, OnErr, OnOk, true};
ghost use Rattle.fj_io.specs.Memory.{first_schedule, is_listed};
ghost use Rattle.fj_audit.specs.Account.{Notes};
ghost use Rattle.fj_audit.specs.Flaky.{flaky_account, after_flaky_note, after_flaky_fault};
ghost use Rattle.fj_audit.specs.declared.fault.AuditFault.TheVariants.{Failed};

use crate::auditor::Auditor;
use crate::fault::AuditFault;
use fj_plain::Cert;
use std::alloc::{AllocError, Global};
use std::marker::Model;

/// Counts the certificates, and takes each for good. The notes whose numbers are listed, counted from 1, fail. Its notes
/// take no memory.
#[derive(Debug, Drop)]
pub struct Flaky {
    fails: Vec<u64>,
    calls: u64,
    faults: u64,
    seen: u64,
}

impl Model for Flaky {
    ghost use Rattle.fj_audit.specs.Flaky.{Flaky};

    ghost Value = { Flaky };

    ghost view = { λ f. record {
      schedule = record { fails = f.fails.items; calls = f.calls; faults = f.faults };
      seen = f.seen;
    } };
}

impl Flaky {
    /// One that was shown nothing, and fails these notes.
    pub fn new(alloc: Global, fails: &[u64]) -> Result<Flaky, AllocError>
        ensures { IfOk result (λ f. f ≡ record { schedule = first_schedule fails.now; seen = 0 }) }
    {
        Ok(Flaky {
            fails: Vec::from_slice(alloc, fails)?,
            calls: 0,
            faults: 0,
            seen: 0,
        })
    }
}

impl Auditor for Flaky {
    ghost account = { flaky_account };

    fn name(&self) -> &str {
        "flaky"
    }

    fn seen(&self) -> u64 {
        self.seen
    }

    fn bad(&self) -> u64 {
        0
    }

    fn faults(&self) -> u64 {
        self.faults
    }

    fn note(&mut self, _alloc: Global, c: &Cert) -> Result<bool, AuditFault>
        ensures notes { Notes (flaky_account self.old) (flaky_account self.new) c.now result }

        // Which notes fail, and what each leaves. Number `u64::MAX` names no note.
        ensures listed { IsErr result ↔ IsTrue (is_listed self.old.schedule) }
        ensures good { IfOk result (λ b. b ≡ true) }
        ensures after { OnOk result (self.new ≡ after_flaky_note self.old) }
        ensures fault { IfErr result (λ fault. fault ≡ Failed) }
        ensures failed { OnErr result (self.new ≡ after_flaky_fault self.old) }
    {
        self.calls = self.calls.saturating_add(1);
        if self.calls < u64::MAX && self.fails.contains(&self.calls) {
            self.faults = self.faults.saturating_add(1);
            return Err(AuditFault::Failed);
        }
        self.seen = self.seen.saturating_add(1);
        Ok(true)
    }
}
