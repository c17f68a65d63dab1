//! An auditor that keeps the certificates.
ghost use Rattle.std.specs.Prelude.{◌≡◌, ◌∷◌, ◌++◌, IfOk, IfErr, OnOk, OnErr, true, [], Some, codes};
ghost use Rattle.fj_io.specs.Outside.{next_count};
ghost use Rattle.fj_audit.specs.Account.{Notes, new_account};
ghost use Rattle.fj_audit.specs.Counting.{keep_account};
ghost use Rattle.fj_audit.specs.declared.fault.AuditFault.TheVariants.{Memory};

use crate::auditor::Auditor;
use crate::copy::cert_copy;
use crate::fault::AuditFault;
use fj_plain::Cert;
use std::alloc::{AllocError, Global};
use std::marker::Model;

/// Keeps the certificates that it is shown, in order, and takes each for good. It never fails.
#[derive(Debug, Drop)]
pub struct Keep {
    certs: Vec<Cert>,
    seen: u64,
}

impl Model for Keep {
    ghost use Rattle.fj_audit.specs.Counting.{KeptCerts};

    ghost Value = { KeptCerts };

    ghost view = { λ k. record { seen = k.seen; certs = k.certs.items } };
}

impl Keep {
    /// One that was shown nothing.
    pub fn new(alloc: Global) -> Keep
        ensures { keep_account result ≡ new_account (codes "keep") (Some []) }
    {
        Keep {
            certs: Vec::new(alloc),
            seen: 0,
        }
    }

    /// Puts a copy of a certificate at the end.
    fn add(&mut self, alloc: Global, c: &Cert) -> Result<(), AllocError>
        ensures added { OnOk result (self.new ≡ record { seen = next_count self.old.seen; certs = self.old.certs ++ c.now ∷ [] }) }
        ensures same { OnErr result (self.new ≡ self.old) }
    {
        let copy = cert_copy(alloc, c)?;
        self.certs.push(copy)?;
        self.seen = self.seen.saturating_add(1);
        Ok(())
    }
}

impl Auditor for Keep {
    ghost account = { keep_account };

    fn name(&self) -> &str {
        "keep"
    }

    fn seen(&self) -> u64 {
        self.seen
    }

    fn bad(&self) -> u64 {
        0
    }

    fn faults(&self) -> u64 {
        0
    }

    fn note(&mut self, alloc: Global, c: &Cert) -> Result<bool, AuditFault>
        ensures notes { Notes (keep_account self.old) (keep_account self.new) c.now result }
        ensures good { IfOk result (λ b. b ≡ true) }
        ensures wanting { IfErr result (λ fault. fault ≡ Memory) }
    {
        match self.add(alloc, c) {
            Ok(()) => Ok(true),
            Err(AllocError) => Err(AuditFault::Memory),
        }
    }
}
