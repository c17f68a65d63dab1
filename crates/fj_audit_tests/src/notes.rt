//! What each auditor notes of a certificate that holds and of one that doesn't.
use crate::certificates::basis_of_x;
use fj_audit::{AuditFault, Auditor, Flaky, Keep, Recheck, Tally};
use std::alloc::AllocError;

#[test]
fn recheck_finds_bad_what_does_not_hold(rt: HostRuntime) -> Result<(), AllocError> {
    let alloc = rt.alloc();
    let mut recheck = Recheck::new();
    assert_eq!(rt; recheck.name(), "recheck");
    let one: &[u64] = &[0];
    let none: &[u64] = &[];
    for (down, is_good) in [(one, true), (none, false), (one, true)] {
        let cert = basis_of_x(&rt, down, one)?;
        assert_eq!(rt; recheck.note(alloc, &cert), Ok(is_good));
    }
    assert_eq!(rt;
        (recheck.seen(), recheck.bad(), recheck.faults()),
        (3, 1, 0)
    );
    Ok(())
}

#[test]
fn tally_and_keep_take_all_for_good(rt: HostRuntime) -> Result<(), AllocError> {
    let alloc = rt.alloc();
    let mut tally = Tally::new();
    let mut keep = Keep::new(alloc);
    assert_eq!(rt; (tally.name(), keep.name()), ("tally", "keep"));
    let bad = basis_of_x(&rt, &[], &[0])?;
    assert_eq!(rt; tally.note(alloc, &bad), Ok(true));
    assert_eq!(rt; keep.note(alloc, &bad), Ok(true));
    assert_eq!(rt; (tally.seen(), tally.bad(), tally.faults()), (1, 0, 0));
    assert_eq!(rt; (keep.seen(), keep.bad(), keep.faults()), (1, 0, 0));
    Ok(())
}

#[test]
fn flaky_fails_the_listed_notes(rt: HostRuntime) -> Result<(), AllocError> {
    let alloc = rt.alloc();
    let mut flaky = Flaky::new(alloc, &[2, 3])?;
    assert_eq!(rt; flaky.name(), "flaky");
    let cert = basis_of_x(&rt, &[0], &[0])?;
    let failed = Err(AuditFault::Failed);
    for (wanted, seen, faults) in [
        (Ok(true), 1, 0),
        (failed, 1, 1),
        (failed, 1, 2),
        (Ok(true), 2, 2),
    ] {
        assert_eq!(rt; flaky.note(alloc, &cert), wanted);
        assert_eq!(rt;
            (flaky.seen(), flaky.bad(), flaky.faults()),
            (seen, 0, faults)
        );
    }
    Ok(())
}
