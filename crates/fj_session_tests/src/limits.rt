//! Sessions at the limits of what is read, and just behind them.
use crate::running::{AMPLE, Outside, RUN, Row, all_end, ends};
use std::alloc::{AllocError, Global};
use std::test::Fail;

const LONG: &[u8] = b"fault Long at 1:1\n";

const NO_RING: &[u8] = b"fault NoRing at 1:1\n";

/// So many bytes `#`, the bytes of a read, the read that fails, the status and the output.
static LENGTHS: [(usize, usize, u64, u8, &[u8]); 6] = [
    (1_048_576, 65_536, 0, 2, NO_RING),
    (1_048_577, 65_536, 0, 2, LONG),
    (1_048_577, 2_000_000, 0, 2, LONG),
    (2_000_000, 2_000_000, 0, 2, LONG),
    // The read after the last byte of the limit finds the end, and after one byte more there is none.
    (1_048_576, 1, 1_048_577, 4, b""),
    (1_048_577, 1, 1_048_578, 2, LONG),
];

#[test]
fn a_byte_more_than_the_limit_is_refused(rt: HostRuntime) -> Result<(), Fail> {
    let alloc = rt.alloc();
    for (len, step, failing_read, status, output) in LENGTHS {
        let session = vec![in alloc; b'#'; len]?;
        let outside = Outside {
            step,
            failing_read,
            ..AMPLE
        };
        ends(&rt, alloc, (RUN, &session, status, output), outside)?;
    }
    Ok(())
}

/// A question, and a comment behind it up to so many bytes.
fn commented(alloc: Global, len: usize) -> Result<Vec<u8>, AllocError> {
    let mut session = Vec::new(alloc);
    session.extend_from_slice(b"ring 2 x\npoly f = x\nask parts 0 f\n#")?;
    for _ in session.len()..len {
        session.push(b'.')?;
    }
    Ok(session)
}

#[test]
fn a_session_of_the_limit_is_answered(rt: HostRuntime) -> Result<(), Fail> {
    let alloc = rt.alloc();
    let answer: &[u8] = b"1: part (0) = x\n";
    let outside = Outside {
        step: 65_536,
        ..AMPLE
    };
    for (len, status, output) in [(1_048_576, 0, answer), (1_048_577, 2, LONG)] {
        let session = commented(alloc, len)?;
        ends(&rt, alloc, (RUN, &session, status, output), outside)?;
    }
    Ok(())
}

/// An ideal with so many generators x, and a question for its basis.
fn ideal_of(alloc: Global, generators: usize) -> Result<Vec<u8>, AllocError> {
    let mut session = Vec::new(alloc);
    session.extend_from_slice(b"ring 2 x\nideal J = (x")?;
    for _ in 1..generators {
        session.extend_from_slice(b",x")?;
    }
    session.extend_from_slice(b")\nask basis J\n")?;
    Ok(session)
}

#[test]
fn a_generator_more_than_the_limit_is_refused(rt: HostRuntime) -> Result<(), Fail> {
    let alloc = rt.alloc();
    let rows: [(usize, u8, &[u8]); 2] = [(256, 0, b"1: (x)\n"), (257, 2, b"fault Many at 2:523\n")];
    for (generators, status, output) in rows {
        let session = ideal_of(alloc, generators)?;
        ends(&rt, alloc, (RUN, &session, status, output), AMPLE)?;
    }
    Ok(())
}

/// So many names, one on a line.
fn declared(alloc: Global, names: u32) -> Result<Vec<u8>, AllocError> {
    let mut session = Vec::new(alloc);
    session.extend_from_slice(b"ring 2 x\n")?;
    for i in 0..names {
        session.extend_from_slice(format!(in alloc; "poly f{i} = x\n")?.as_bytes())?;
    }
    Ok(session)
}

#[test]
fn a_name_more_than_the_limit_is_refused(rt: HostRuntime) -> Result<(), Fail> {
    let alloc = rt.alloc();
    let rows: [(u32, u8, &[u8]); 2] = [(4096, 0, b""), (4097, 2, b"fault Many at 4098:6\n")];
    for (names, status, output) in rows {
        let session = declared(alloc, names)?;
        ends(&rt, alloc, (RUN, &session, status, output), AMPLE)?;
    }
    Ok(())
}

/// So many questions, one on a line, and their answers.
fn asked(alloc: Global, questions: u32) -> Result<(Vec<u8>, Vec<u8>), AllocError> {
    let mut session = Vec::new(alloc);
    let mut output = Vec::new(alloc);
    session.extend_from_slice(b"ring 2 x\npoly f = x\n")?;
    for i in 0..questions {
        let number = i.saturating_add(1);
        session.extend_from_slice(b"ask parts 0 f\n")?;
        output.extend_from_slice(format!(in alloc; "{number}: part (0) = x\n")?.as_bytes())?;
    }
    Ok((session, output))
}

#[test]
fn a_question_more_than_the_limit_is_refused(rt: HostRuntime) -> Result<(), Fail> {
    let alloc = rt.alloc();
    let outside = Outside {
        room: 100_000,
        ..AMPLE
    };
    let (session, output) = asked(alloc, 4096)?;
    ends(&rt, alloc, (RUN, &session, 0, &output), outside)?;
    let (session, _) = asked(alloc, 4097)?;
    let fault: &[u8] = b"fault Many at 4099:1\n";
    ends(&rt, alloc, (RUN, &session, 2, fault), outside)
}

/// Nested parentheses, and powers and values.
static EDGES: [Row<'static>; 4] = [
    (
        RUN,
        b"ring 2 x\npoly f = (((((((((((((((((((((((((((((((((((((((((((((((((((((((((((((((((",
        2,
        b"fault Large at 2:74\n",
    ),
    (
        RUN,
        b"ring 2 x\npoly f = ((((((((((((((((((((((((((((((((((((((((((((((((((((((((((((((((",
        2,
        b"fault Syntax at 2:74\n",
    ),
    (
        RUN,
        b"ring 2 x\npoly f = (x^1000)*x\n",
        2,
        b"fault Large at 2:19\n",
    ),
    (
        RUN,
        b"ring 2 x\npoly f = (x^1000)^2\n",
        2,
        b"fault Large at 2:19\n",
    ),
];

#[test]
fn larger_values_are_refused(rt: HostRuntime) -> Result<(), Fail> {
    all_end(&rt, rt.alloc(), &EDGES)
}
