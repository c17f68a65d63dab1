//! A list of boxed auditors that is handed certificates, one of which fails, and is then swept.
ghost use Rattle.std.specs.Prelude.{All, OnOk};
ghost use Rattle.fj_plain.specs.Holds.{Holds};

use crate::certificates::basis_of_x;
use fj_audit::{Auditor, Flaky, Keep, Recheck, Tally, hand_on, hand_on_all, sweep};
use fj_plain::{Cert, holds};
use std::alloc::{AllocError, Global};

#[test]
fn one_that_failed_stays_until_it_is_swept(rt: HostRuntime) -> Result<(), AllocError> {
    let alloc = rt.alloc();
    let mut auditors: Vec<Box<dyn Auditor>> = Vec::new(alloc);
    auditors.push(Box::new(alloc, Flaky::new(alloc, &[2])?)?)?;
    auditors.push(Box::new(alloc, Tally::new())?)?;
    auditors.push(Box::new(alloc, Keep::new(alloc))?)?;
    let cert = basis_of_x(&rt, &[0], &[0])?;
    for _ in 0..3 {
        hand_on(alloc, &mut auditors, &cert)?;
    }
    assert_eq!(rt; auditors.len(), 3);
    for (auditor, seen) in auditors.iter().zip([1, 3, 3]) {
        assert_eq!(rt; auditor.seen(), seen);
    }
    assert_eq!(rt; sweep(&mut auditors), 1);
    assert_eq!(rt; auditors.len(), 2);
    for (auditor, name) in auditors.iter().zip(["tally", "keep"]) {
        assert_eq!(rt; auditor.name(), name);
    }
    assert_eq!(rt; sweep(&mut auditors), 0);
    Ok(())
}

#[test]
fn each_boxed_auditor_counts_what_it_finds_bad(rt: HostRuntime) -> Result<(), AllocError> {
    let alloc = rt.alloc();
    let mut auditors: Vec<Box<dyn Auditor>> = Vec::new(alloc);
    auditors.push(Box::new(alloc, Recheck::new())?)?;
    auditors.push(Box::new(alloc, Tally::new())?)?;
    for down in [0, 1] {
        let cert = basis_of_x(&rt, &[down], &[0])?;
        hand_on(alloc, &mut auditors, &cert)?;
    }
    for (auditor, bad) in auditors.iter().zip([1, 0]) {
        assert_eq!(rt; (auditor.seen(), auditor.bad()), (2, bad));
    }
    Ok(())
}

/// Each certificate holds, or the test ends with an error.
fn all_hold(alloc: Global, certs: &[Cert]) -> Result<(), AllocError>
    ensures { OnOk result (All Holds certs.now) }
{
    for c in certs {
        let good = holds(alloc, c)?;
        if !good {
            return Err(AllocError);
        }
    }
    Ok(())
}

#[test]
fn a_list_of_three_is_noted_up_to_the_fault(rt: HostRuntime) -> Result<(), AllocError> {
    let alloc = rt.alloc();
    let one: &[u64] = &[0];
    let mut certs = Vec::new(alloc);
    for _ in 0..3 {
        certs.push(basis_of_x(&rt, one, one)?)?;
    }
    all_hold(alloc, &certs)?;
    for (failing, noted, faults) in [(1, 0, 1), (2, 1, 1), (3, 2, 1), (4, 3, 0)] {
        let mut auditors: Vec<Box<dyn Auditor>> = Vec::new(alloc);
        auditors.push(Box::new(alloc, Keep::new(alloc))?)?;
        auditors.push(Box::new(alloc, Tally::new())?)?;
        auditors.push(Box::new(alloc, Flaky::new(alloc, &[failing])?)?)?;
        hand_on_all(alloc, &mut auditors, &certs)?;
        for (auditor, wanted) in auditors.iter().zip([(3, 0), (3, 0), (noted, faults)]) {
            assert_eq!(rt; (auditor.seen(), auditor.faults()), wanted);
            assert_eq!(rt; auditor.bad(), 0);
        }
    }
    Ok(())
}
