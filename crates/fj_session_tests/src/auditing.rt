//! What auditors are shown of whole sessions, and their lines.
use crate::running::{AMPLE, AUDIT, RUN, Row, ends, ends_with};
use crate::shapes::{Shape, Shapes};
use crate::whole::{CERTIFICATES, whole};
use fj_audit::{Auditor, Flaky, Keep, Tally, sweep};
use fj_plain::OrderName;
use std::alloc::{AllocError, Global};
use std::test::Fail;

/// Two ideals of a cusp.
const CUSP: &[u8] = b"ring 5 x, y\npoly f = x^2+y^3\nask test f 4/5\nask left f 4/5\n";

/// Certificates of each kind. The lists for `same` are made of each other; the last question stops.
const KINDS: &[u8] =
    b"ring 2 x, y\nideal J = (x+y, y)\nideal K = (x, y)\nideal L = (x^2+y, x*y+1)\nask root 1 J\nask same J K\nask same J L\norder lex\nask basis K\nask colon J L\nbudget 1\nask basis L\n";

const KINDS_ANSWERS: &[u8] = b"1: (1)\n2: yes\n3: no\n4: (y, x)\n5: (y, x)\n6: stopped pairs\n";

/// Answers without a certificate.
const VERDICTS: &[u8] =
    b"ring 7 x, y\npoly f = x^2-y^3\nideal m = (x, y)\npoint O = (0, 0)\nask parts 0 f\nask member f m\nask isjump f 5/6\nask regular f 5/6\nask nu 1 f m\nask threshold f O 1\nask fpure m\nask compatible 0 f m\n";

const VERDICTS_ANSWERS: &[u8] =
    b"1: part (0,0) = 6*y^3+x^2\n2: yes\n3: yes\n4: no\n5: nu 5\n6: threshold 5/6\n7: yes\n8: yes\n";

/// Sessions with their statuses, their answers, and how many certificates these have.
static SESSIONS: [(&[u8], u8, &[u8], u64); 5] = [
    (CUSP, 0, b"1: (y, x)\n2: (1)\n", 2),
    (KINDS, 3, KINDS_ANSWERS, 5),
    (VERDICTS, 0, VERDICTS_ANSWERS, 0),
    // A list of two F-jumping numbers.
    (
        b"ring 2 x, y\npoly f = x^2+y^3\nask jumps f 2\n",
        0,
        b"1: jump 1/2 = (y, x)\n1: jump 1 = (y^3+x^2)\n1: complete\n",
        2,
    ),
    (b"ring 2 x", 0, b"", 0),
];

/// The answers, and the lines of the auditors of the program where they have seen so many certificates.
fn audited(alloc: Global, answers: &[u8], seen: u64) -> Result<Vec<u8>, AllocError> {
    let mut output = Vec::new(alloc);
    output.extend_from_slice(answers)?;
    for name in ["recheck", "tally"] {
        let line = format!(in alloc; "auditor {name}: seen {seen}, bad 0\n")?;
        output.extend_from_slice(line.as_bytes())?;
    }
    Ok(output)
}

// The same answers and the same status, and behind them the lines.
#[test]
fn auditors_have_lines_behind_the_same_answers(rt: HostRuntime) -> Result<(), Fail> {
    let alloc = rt.alloc();
    for (session, status, answers, seen) in SESSIONS {
        ends(&rt, alloc, (RUN, session, status, answers), AMPLE)?;
        let output = audited(alloc, answers, seen)?;
        ends(&rt, alloc, (AUDIT, session, status, &output), AMPLE)?;
    }
    let (session, answers) = whole(alloc)?;
    let output = audited(alloc, &answers, CERTIFICATES)?;
    ends(&rt, alloc, (AUDIT, &session, 0, &output), AMPLE)
}

// Behind the line of a fault there is none of an auditor.
#[test]
fn faults_have_no_lines_of_auditors(rt: HostRuntime) -> Result<(), Fail> {
    let fault: &[u8] = b"fault Prime at 1:6\n";
    ends(&rt, rt.alloc(), (AUDIT, b"ring 4 x\n", 2, fault), AMPLE)
}

// One that failed stays in the list until the next run, and is shown nothing.
#[test]
fn a_failed_note_changes_no_answer(rt: HostRuntime) -> Result<(), Fail> {
    let alloc = rt.alloc();
    let (session, answers) = whole(alloc)?;
    let lines: &[u8] = b"1: (y, x)\n2: (1)\nauditor tally: seen 7, bad 0\n";
    for noted in 0..CERTIFICATES {
        let failing = noted.saturating_add(1);
        let mut auditors: Vec<Box<dyn Auditor>> = Vec::new(alloc);
        auditors.push(Box::new(alloc, Flaky::new(alloc, &[failing])?)?)?;
        auditors.push(Box::new(alloc, Tally::new())?)?;
        let row: Row<'_> = (RUN, &session, 0, &answers);
        ends_with(&rt, alloc, row, AMPLE, &mut auditors)?;
        assert_eq!(rt; auditors.len(), 2);
        for (auditor, seen) in auditors.iter().zip([noted, CERTIFICATES]) {
            assert_eq!(rt; auditor.seen(), seen);
        }
        ends_with(&rt, alloc, (AUDIT, CUSP, 0, lines), AMPLE, &mut auditors)?;
        assert_eq!(rt; auditors.len(), 1);
    }
    Ok(())
}

#[test]
fn one_that_is_out_has_no_line(rt: HostRuntime) -> Result<(), Fail> {
    let alloc = rt.alloc();
    let mut auditors: Vec<Box<dyn Auditor>> = Vec::new(alloc);
    auditors.push(Box::new(alloc, Flaky::new(alloc, &[2])?)?)?;
    auditors.push(Box::new(alloc, Tally::new())?)?;
    auditors.push(Box::new(alloc, Keep::new(alloc))?)?;
    let lines: &[u8] =
        b"1: (y, x)\n2: (1)\nauditor tally: seen 2, bad 0\nauditor keep: seen 2, bad 0\n";
    ends_with(&rt, alloc, (AUDIT, CUSP, 0, lines), AMPLE, &mut auditors)?;
    for (auditor, seen) in auditors.iter().zip([1, 2, 2]) {
        assert_eq!(rt; auditor.seen(), seen);
    }
    assert_eq!(rt; sweep(&mut auditors), 1);
    assert_eq!(rt; auditors.len(), 2);
    Ok(())
}

// Behind `root` the parts stand before the ideal. A stop has none.
#[test]
fn certificates_come_in_the_order_of_answers(rt: HostRuntime) -> Result<(), Fail> {
    let alloc = rt.alloc();
    let mut shapes = Vec::new(alloc);
    shapes.push(Shape::Root(1, 2))?;
    shapes.push(Shape::Basis(OrderName::Grevlex, 1))?;
    shapes.push(Shape::Same(2, 2))?;
    shapes.push(Shape::Basis(OrderName::Lex, 2))?;
    shapes.push(Shape::Basis(OrderName::Lex, 2))?;
    let mut auditors: Vec<Box<dyn Auditor>> = Vec::new(alloc);
    auditors.push(Box::new(alloc, Shapes::new(shapes))?)?;
    ends_with(
        &rt,
        alloc,
        (RUN, KINDS, 3, KINDS_ANSWERS),
        AMPLE,
        &mut auditors,
    )?;
    for auditor in &auditors {
        assert_eq!(rt; (auditor.seen(), auditor.faults()), (5, 0));
    }
    Ok(())
}
