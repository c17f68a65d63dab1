//! The bytes of the first sessions, and the reading of some sessions.
use fj_gen::made_script;
use fj_script::read_script;
use std::process::Abort;
use std::test::Fail;

// Sessions by their numbers.
const SESSIONS: [(u32, &'static str); 2] = [
    (
        1,
        "ring 3 x, y\npoly f1 = x^3+y^2\nask jumps f1 1\nask test f1 2/3\n",
    ),
    (
        2,
        "ring 5 x, y\npoly f1 = x^3+y^2\nask jumps f1 1\nask test f1 2/5\npoly f2 = x^4+y^2\nask jumps f2 1\nask test f2 3/5\n",
    ),
];

#[test]
fn bytes_of_sessions(rt: HostRuntime) -> Result<(), Fail> {
    for (n, session) in &SESSIONS {
        let made = made_script(rt.alloc(), *n)?;
        assert!(rt; made.as_slice() == session.as_bytes(), "{n}");
    }
    Ok(())
}

// Numbers of sessions, each with its prime: one for each prime, and the last one.
const PRIMES: [(u32, u64); 7] = [(1, 3), (2, 5), (3, 7), (4, 11), (5, 13), (6, 2), (1000, 11)];

#[test]
fn sessions_are_read(rt: HostRuntime) -> Result<(), Fail> {
    for (n, p) in &PRIMES {
        let made = made_script(rt.alloc(), *n)?;
        let script = read_script(rt.alloc(), &made);
        assert!(rt;
            script.is_ok_and(|script| {
                script.env.p == *p
                    && script.env.values.len() == *n as usize
                    && script.asked.len() == 2 * *n as usize
            }),
            "{n}"
        );
    }
    Ok(())
}
