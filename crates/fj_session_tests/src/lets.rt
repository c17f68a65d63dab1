//! Sessions with names that stand for the answers of questions.
use crate::running::{AMPLE, Outside, RUN, Row, all_end, ends};
use std::alloc::{AllocError, Global};
use std::process::Abort;
use std::test::Fail;

/// Values of lets in questions, worked by hand.
static VALUES: [Row<'static>; 6] = [
    (
        RUN,
        b"ring 5 x, y\npoly f = x^2+y^3\nlet T = test f 4/5\nlet U = product T T\nask basis T\nask basis U\nask sum T T\n",
        0,
        b"1: (y, x)\n2: (y^2, x*y, x^2)\n3: (y, x)\n",
    ),
    // A quotient of a quotient.
    (
        RUN,
        b"ring 2 x, y\nideal J = (x^3*y^2)\nideal K = (x)\nlet Q = colon J K\nlet R = colon Q K\nask basis Q\nask basis R\n",
        0,
        b"1: (x^2*y^2)\n2: (x*y^2)\n",
    ),
    // A chain of roots, a power and a meet.
    (
        RUN,
        b"ring 2 x, y\nideal J = (x^5*y^8)\nlet R = root 1 J\nlet S = root 1 R\nlet T = root 1 S\nask basis T\nask root 3 J\nlet P = power 1 T\nlet M = meet P S\nask basis M\n",
        0,
        b"1: (y)\n2: (y)\n3: (x*y^2)\n",
    ),
    // For another printing order the reduced Grevlex basis is run again.
    (
        RUN,
        b"ring 2 x, y\nideal J = (x^2+y, x*y+1)\norder lex\nlet T = basis J\nask basis T\norder grevlex\nask basis T\nask same T J\n",
        0,
        b"1: (y^3+1, x+y^2)\n2: (y^2+x, x*y+1, x^2+y)\n3: yes\n",
    ),
    (
        RUN,
        b"ring 7 x, y\npoly f = x^2-y^3\nideal m = (x, y)\nlet T = basis m\nlet L = left f 5/6\nask threshold f T 1\nask nu 1 f T\nask member f T\nask basis L\n",
        0,
        b"1: threshold 5/6\n2: nu 5\n3: yes\n4: (1)\n",
    ),
    (
        RUN,
        b"ring 7 x, y, z\nideal J = (x*y, x*z, y*z)\npoint O = (0, 0, 0)\npoint P = (1, 1, 0)\nlet T = basis J\nlet S = split T\nask fpure T\nask fpure T O\nask fpure T P\nask basis S\n",
        0,
        b"1: yes\n2: yes\n3: off\n4: (1)\n",
    ),
];

/// A let has the budget of its own line.
static BUDGETS: [Row<'static>; 4] = [
    // It stops there, and so does what uses it, itself or through another.
    (
        RUN,
        b"ring 2 x, y\nideal J = (x^2+y, x*y+1)\nbudget 1\nlet T = basis J\nbudget 100\nask basis T\nlet U = sum T T\nask basis U\nask basis J\n",
        3,
        b"1: stopped pairs\n2: stopped pairs\n3: (y^2+x, x*y+1, x^2+y)\n",
    ),
    // It doesn't stop at the budget of the question, and its value isn't run again.
    (
        RUN,
        b"ring 2 x, y\nideal J = (x^2+y, x*y+1)\nbudget 100\nlet T = basis J\nbudget 1\nask basis T\nask basis J\n",
        3,
        b"1: (y^2+x, x*y+1, x^2+y)\n2: stopped pairs\n",
    ),
    // It isn't calculated where no question uses it.
    (
        RUN,
        b"ring 2 x, y\nideal J = (x^2+y, x*y+1)\nbudget 1\nlet T = basis J\nbudget 100\nlet U = sum T T\nask basis J\n",
        0,
        b"1: (y^2+x, x*y+1, x^2+y)\n",
    ),
    // The first of two that stop is that which was declared first: its power passes the degree.
    (
        RUN,
        b"ring 13 x, y\nideal I = (x)\nlet H = power 11 I\nideal J = (x^2+y, x*y+1)\nbudget 1\nlet T = basis J\nbudget 100\nask sum T H\nask sum H T\nask basis T\n",
        3,
        b"1: stopped high\n2: stopped high\n3: stopped pairs\n",
    ),
];

#[test]
fn lets_have_values(rt: HostRuntime) -> Result<(), Fail> {
    all_end(&rt, rt.alloc(), &VALUES)?;
    all_end(&rt, rt.alloc(), &BUDGETS)
}

/// Sums, each of the one before with itself, and a question on the last.
fn doubling(alloc: Global, sums: u32) -> Result<Vec<u8>, AllocError> {
    let mut session = Vec::new(alloc);
    session.extend_from_slice(b"ring 2 x\nideal a0 = (x)\n")?;
    for i in 0..sums {
        let next = i.saturating_add(1);
        session.extend_from_slice(format!(in alloc; "let a{next} = sum a{i} a{i}\n")?.as_bytes())?;
    }
    session.extend_from_slice(format!(in alloc; "ask basis a{sums}\n")?.as_bytes())?;
    Ok(session)
}

fn doubling_ends(rt: &impl Abort, alloc: Global, sums: u32) -> Result<(), Fail> {
    let session = doubling(alloc, sums)?;
    let outside = Outside {
        step: 1000,
        ..AMPLE
    };
    ends(rt, alloc, (RUN, &session, 0, b"1: (x)\n"), outside)
}

// Each let is calculated at most once for a question: else this would be 2^60 sums.
#[test]
fn each_let_is_calculated_once(rt: HostRuntime) -> Result<(), Fail> {
    doubling_ends(&rt, rt.alloc(), 60)
}

// As many lets as names allow, in linear work and without recursion.
#[test]
fn a_long_chain_of_lets(rt: HostRuntime) -> Result<(), Fail> {
    doubling_ends(&rt, rt.alloc(), 4095)
}
