//! The bytes of a generated session.
ghost use Rattle.std.specs.Prelude.{◌≡◌, ◌≤◌, ◌<◌, ◌++◌, Contains, decimal, IfOk, OnOk};
ghost use Rattle.fj_coeff.specs.Field.{primes};
ghost use Rattle.fj_gen.specs.Generated.{generated, jumps_line, lines_at, name_at, poly_line, prime_for, ring_line, test_line};

use itoa::Buffer;
use std::alloc::{AllocError, Global};

/// The primes of the sessions.
const SESSION_PRIMES: [u64; 6] = [2, 3, 5, 7, 11, 13];

/// The session of the number n: the ring of x and y over one of the primes up to 13, which take turns, and then for each i
/// from 1 to n the polynomial `fi = x^A+y^B` and two questions on it, `jumps` of level 1 and `test` at M/p. Here
/// A = 2 + (i mod 4), B = 2 + ((i div 4) mod 4) and M = 1 + (i mod p).
///
/// Condition: n is at least 1 and at most 1,000.
pub fn made_script(alloc: Global, n: u32) -> Result<Vec<u8>, AllocError>
    requires some { 1 ≤ n }
    requires few { n ≤ 1000 }
    ensures { IfOk result (λ bytes. bytes.items ≡ generated n) }
{
    let p = prime_for(n);
    let mut out = Vec::new(alloc);
    push_ring(&mut out, p)?;
    for place in 0..u64::from(n) {
        push_lines(&mut out, p, place + 1)?;
    }
    Ok(out)
}

/// The prime of the session.
fn prime_for(n: u32) -> u64
    ensures value { result ≡ prime_for n }
    ensures in_table { Contains primes result }
{
    SESSION_PRIMES[(n % 6) as usize]
}

/// Appends the line of the ring.
fn push_ring(out: &mut Vec<u8>, p: u64) -> Result<(), AllocError>
    ensures { OnOk result (out.new.items ≡ out.old.items ++ ring_line p) }
{
    out.extend_from_slice(b"ring ")?;
    push_decimal(out, p)?;
    out.extend_from_slice(b" x, y\n")
}

/// Appends the three lines of the i-th polynomial.
#[tactic(auto, unfolding(crate::specs::Generated::lines_at))]
fn push_lines(out: &mut Vec<u8>, p: u64, i: u64) -> Result<(), AllocError>
    requires { 0 < p }
    ensures { OnOk result (out.new.items ≡ out.old.items ++ lines_at p i) }
{
    push_poly(out, i)?;
    push_jumps(out, i)?;
    push_test(out, p, i)
}

/// Appends the line that declares the i-th polynomial.
fn push_poly(out: &mut Vec<u8>, i: u64) -> Result<(), AllocError>
    ensures { OnOk result (out.new.items ≡ out.old.items ++ poly_line i) }
{
    out.extend_from_slice(b"poly ")?;
    push_name(out, i)?;
    out.extend_from_slice(b" = x^")?;
    push_decimal(out, 2 + i % 4)?;
    out.extend_from_slice(b"+y^")?;
    push_decimal(out, 2 + i / 4 % 4)?;
    out.extend_from_slice(b"\n")
}

/// Appends the question for the jumping numbers of the i-th polynomial.
fn push_jumps(out: &mut Vec<u8>, i: u64) -> Result<(), AllocError>
    ensures { OnOk result (out.new.items ≡ out.old.items ++ jumps_line i) }
{
    out.extend_from_slice(b"ask jumps ")?;
    push_name(out, i)?;
    out.extend_from_slice(b" 1\n")
}

/// Appends the question for a test ideal of the i-th polynomial.
fn push_test(out: &mut Vec<u8>, p: u64, i: u64) -> Result<(), AllocError>
    requires { 0 < p }
    ensures { OnOk result (out.new.items ≡ out.old.items ++ test_line p i) }
{
    out.extend_from_slice(b"ask test ")?;
    push_name(out, i)?;
    out.push(b' ')?;
    push_decimal(out, 1 + i % p)?;
    out.push(b'/')?;
    push_decimal(out, p)?;
    out.extend_from_slice(b"\n")
}

/// Appends the name of the i-th polynomial.
fn push_name(out: &mut Vec<u8>, i: u64) -> Result<(), AllocError>
    ensures { OnOk result (out.new.items ≡ out.old.items ++ name_at i) }
{
    out.push(b'f')?;
    push_decimal(out, i)
}

/// Appends a number in decimal.
fn push_decimal(out: &mut Vec<u8>, number: u64) -> Result<(), AllocError>
    ensures { OnOk result (out.new.items ≡ out.old.items ++ decimal number) }
{
    let mut buffer = Buffer::new();
    out.extend_from_slice(buffer.format(number).as_bytes())
}
