//! A certificate handed to a list of auditors, and the list without those that are out.
ghost use Rattle.std.specs.Prelude.{◌≡◌, length, map, filter, All, OnOk, OnErr};
ghost use Rattle.fj_plain.specs.Holds.{Holds};
ghost use Rattle.fj_audit.specs.Account.{Remains};
ghost use Rattle.fj_audit.specs.Handing.{IsShown, AreShown, AreShownAll, AreShownFront, AreShownInPart, remains, is_out};

use crate::auditor::Auditor;
use crate::fault::AuditFault;
use fj_plain::Cert;
use std::alloc::{AllocError, Global};

/// Hands a certificate to each auditor that remains, in order. One whose note fails is out and stays in the list; those
/// that were out are unchanged. Where a note wants memory, the auditors before that one were shown the certificate, and
/// the others are as before.
pub fn hand_on(
    alloc: Global,
    auditors: &mut Vec<Box<dyn Auditor>>,
    c: &Cert,
) -> Result<(), AllocError>
    ensures shown { OnOk result (AreShown c.now (map account auditors.old.items) (map account auditors.new.items)) }
    ensures wanting { OnErr result (AreShownInPart c.now (map account auditors.old.items) (map account auditors.new.items)) }
{
    for i in 0..auditors.len() {
        show(alloc, &mut auditors[i], c)?;
    }
    Ok(())
}

/// Shows a certificate to one auditor, if it remains.
fn show(alloc: Global, auditor: &mut Box<dyn Auditor>, c: &Cert) -> Result<(), AllocError>
    ensures shown { OnOk result (IsShown c.now (account auditor.old) (account auditor.new)) }
    ensures same { OnErr result (account auditor.new ≡ account auditor.old) }
    ensures remains { OnErr result (Remains (account auditor.old)) }
{
    if auditor.faults() > 0 {
        return Ok(());
    }
    match auditor.note(alloc, c) {
        Err(AuditFault::Memory) => Err(AllocError),
        Ok(_) | Err(AuditFault::Failed) => Ok(()),
    }
}

/// Hands certificates that hold to each auditor that remains, one after the other, and each in the order of the auditors. An
/// auditor that remains has noted all of them and found none bad. Where a note wants memory there is one number k such that each
/// that remains has noted the first k certificates, or one more.
pub fn hand_on_all(
    alloc: Global,
    auditors: &mut Vec<Box<dyn Auditor>>,
    certs: &[Cert],
) -> Result<(), AllocError>
    requires { All Holds certs.now }
    ensures shown { OnOk result (AreShownAll certs.now (map account auditors.old.items) (map account auditors.new.items)) }
    ensures wanting { OnErr result (AreShownFront certs.now (map account auditors.old.items) (map account auditors.new.items)) }
{
    for c in certs {
        hand_on(alloc, auditors, c)?;
    }
    Ok(())
}

/// Drops the auditors that are out, keeps the others in order, and answers how many were dropped.
pub fn sweep(auditors: &mut Vec<Box<dyn Auditor>>) -> usize
    ensures kept { auditors.new.items ≡ filter (λ a. remains (account a)) auditors.old.items }
    ensures dropped { result ≡ length (filter (λ a. is_out (account a)) auditors.old.items) }
{
    let count = auditors.len();
    auditors.retain(
        |auditor: &Box<dyn Auditor>| -> bool
            ensures { result ≡ remains (account auditor.now) }
        { auditor.faults() == 0 },
    );
    count - auditors.len()
}
