//! What an auditor is.
ghost use Rattle.std.specs.Prelude.{◌≡◌};
ghost use Rattle.fj_audit.specs.Account.{Account, Notes};

use crate::fault::AuditFault;
use fj_plain::Cert;
use std::alloc::Global;

/// Is shown certificates, and notes each as good or bad. It remains where it had no fault, and is out where it had one.
pub trait Auditor: Drop {
    /// Its title, which no call changes, its counts, and the certificates noted where it tells them.
    ghost account: { Self → Account };

    /// Its title.
    fn name(&self) -> &str
        ensures { result.now ≡ (account self.now).title };

    /// How many certificates it noted; the count stays at `u64::MAX` once there.
    fn seen(&self) -> u64
        ensures { result ≡ (account self.now).seen };

    /// How many of them it found bad; the count stays at `u64::MAX` once there.
    fn bad(&self) -> u64
        ensures { result ≡ (account self.now).bad };

    /// How many faults it had: a count that never falls.
    fn faults(&self) -> u64
        ensures { result ≡ (account self.now).faults };

    /// Notes a certificate, and answers whether it is good: always so where it holds. `Failed` comes only where the
    /// count of faults rose. After an `Err` nothing is noted.
    fn note(&mut self, alloc: Global, c: &Cert) -> Result<bool, AuditFault>
        ensures { Notes (account self.old) (account self.new) c.now result };
}
