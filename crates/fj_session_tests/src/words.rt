//! The words of the command line, and generated sessions in summary.
use crate::running::{Row, all_end};
use std::test::Fail;

const USAGE: &[u8] = b"usage: fjcalc run | fjcalc run audit | fjcalc gen N\n";

const FIRST: &[u8] = b"gen 1: questions 2, jumps 1, open 1, stopped 0\n";

/// Words that ask for a generated session, and words of no form. The source isn't read. Over GF(2) each sum of two powers
/// with exponents above 1 has one jump among the candidates, which is 1, and one open gap.
static WORDS: [Row<'static>; 20] = [
    (&["gen", "1"], b"", 0, FIRST),
    (&["gen", "0001"], b"ring 4 x\n", 0, FIRST),
    (
        &["gen", "6"],
        b"",
        0,
        b"gen 6: questions 12, jumps 6, open 6, stopped 0\n",
    ),
    (&[], b"", 1, USAGE),
    (&["go"], b"", 1, USAGE),
    (&["run", "run"], b"", 1, USAGE),
    (&["run", "x"], b"", 1, USAGE),
    (&["run", "audit", "x"], b"", 1, USAGE),
    (&["audit"], b"", 1, USAGE),
    (&["Run"], b"", 1, USAGE),
    (&["gen"], b"", 1, USAGE),
    (&["gen", ""], b"", 1, USAGE),
    (&["gen", "0"], b"", 1, USAGE),
    (&["gen", "0000"], b"", 1, USAGE),
    (&["gen", "1001"], b"", 1, USAGE),
    (&["gen", "00012"], b"", 1, USAGE),
    (&["gen", "x"], b"", 1, USAGE),
    (&["gen", "1x"], b"", 1, USAGE),
    (&["gen", "+1"], b"", 1, USAGE),
    (&["gen", "1", "2"], b"", 1, USAGE),
];

#[test]
fn words_are_read_by_their_forms(rt: HostRuntime) -> Result<(), Fail> {
    all_end(&rt, rt.alloc(), &WORDS)
}
