//! Sources and sinks that fail at each of their calls, reads of few bytes, and sinks with little room.
use crate::running::{AMPLE, AUDIT, Outside, RUN, Row, ends};
use crate::whole::{LINES, whole};
use std::test::Fail;

/// Two ideals of a cusp.
const CUSP: &[u8] = b"ring 5 x, y\npoly f = x^2+y^3\nask test f 4/5\nask left f 4/5\n";

const CUSP_AUDITED: &[u8] =
    b"1: (y, x)\n2: (1)\nauditor recheck: seen 2, bad 0\nauditor tally: seen 2, bad 0\n";

const NO_RING: &[u8] = b"poly f = x\n";

const NO_RING_FAULT: &[u8] = b"fault NoRing at 1:1\n";

// What was written before the write that fails are whole answers. No read fails then.
#[test]
fn each_write_fails_in_turn(rt: HostRuntime) -> Result<(), Fail> {
    let alloc = rt.alloc();
    let (session, output) = whole(alloc)?;
    let mut before: Vec<u8> = Vec::new(alloc);
    let mut failing_write = 1u64;
    for (_, text) in LINES {
        if !text.is_empty() {
            let outside = Outside {
                failing_write,
                ..AMPLE
            };
            ends(&rt, alloc, (RUN, &session, 5, &before), outside)?;
            failing_write = failing_write.saturating_add(1);
        }
        before.extend_from_slice(text)?;
    }
    let outside = Outside {
        failing_write,
        ..AMPLE
    };
    ends(&rt, alloc, (RUN, &session, 0, &output), outside)
}

// The session has 392 bytes: 7 reads of at most 64 bytes, and one that finds its end.
#[test]
fn each_read_fails_in_turn(rt: HostRuntime) -> Result<(), Fail> {
    let alloc = rt.alloc();
    let (session, output) = whole(alloc)?;
    for failing_read in 1..10u64 {
        let outside = Outside {
            step: 64,
            failing_read,
            ..AMPLE
        };
        let (status, written): (u8, &[u8]) = if failing_read <= 8 {
            (4, b"")
        } else {
            (0, &output)
        };
        ends(&rt, alloc, (RUN, &session, status, written), outside)?;
    }
    Ok(())
}

#[test]
fn reads_may_be_short(rt: HostRuntime) -> Result<(), Fail> {
    let alloc = rt.alloc();
    let (session, output) = whole(alloc)?;
    for step in [1, 2, 3, 391, 392, 393, 100_000] {
        let outside = Outside { step, ..AMPLE };
        ends(&rt, alloc, (RUN, &session, 0, &output), outside)?;
    }
    Ok(())
}

// The lines of auditors are written as answers are.
#[test]
fn a_full_sink_has_the_first_bytes(rt: HostRuntime) -> Result<(), Fail> {
    let alloc = rt.alloc();
    let mut before: Vec<u8> = Vec::new(alloc);
    for byte in CUSP_AUDITED {
        let room = before.len();
        let outside = Outside { room, ..AMPLE };
        ends(&rt, alloc, (AUDIT, CUSP, 5, &before), outside)?;
        before.push(*byte)?;
    }
    let room = before.len();
    let outside = Outside { room, ..AMPLE };
    ends(&rt, alloc, (AUDIT, CUSP, 0, &before), outside)
}

/// A read that fails, the room of the sink, a write that fails, and how a session then ends.
type Failing = (u64, usize, u64, Row<'static>);

/// The line of a fault, that of the usage and that of a generated session are written as answers are. Where both a read and a
/// write fail, the read is first; no read comes where no session is asked for.
static OTHER_LINES: [Failing; 10] = [
    (0, 1000, 1, (RUN, NO_RING, 5, b"")),
    (0, 5, 0, (RUN, NO_RING, 5, b"fault")),
    (0, 20, 2, (RUN, NO_RING, 2, NO_RING_FAULT)),
    (1, 1000, 1, (RUN, NO_RING, 4, b"")),
    (1, 1000, 1, (AUDIT, CUSP, 4, b"")),
    (0, 1000, 3, (AUDIT, CUSP, 5, b"1: (y, x)\n2: (1)\n")),
    (1, 6, 0, (&[], NO_RING, 5, b"usage:")),
    (1, 1000, 1, (&["run", "x"], NO_RING, 5, b"")),
    (1, 8, 0, (&["gen", "1"], NO_RING, 5, b"gen 1: q")),
    (1, 1000, 1, (&["gen", "1"], NO_RING, 5, b"")),
];

#[test]
fn other_lines_fail_as_answers_do(rt: HostRuntime) -> Result<(), Fail> {
    for (failing_read, room, failing_write, row) in OTHER_LINES {
        let outside = Outside {
            failing_read,
            room,
            failing_write,
            ..AMPLE
        };
        ends(&rt, rt.alloc(), row, outside)?;
    }
    Ok(())
}
