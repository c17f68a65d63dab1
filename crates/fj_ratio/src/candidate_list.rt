//! The candidates for jumping numbers: the fractions of (0, 1] with few digits in base p.
ghost use Rattle.std.specs.Prelude.{◌≡◌, ◌+◌, ◌<◌, ◌≤◌, ◌^◌, Contains, IfOk, OnOk};
ghost use Rattle.fj_coeff.specs.Field.{primes};
ghost use Rattle.fj_theory.specs.Candidates.{AreCandidates};
ghost use Rattle.fj_ratio.specs.Multiples.{AddsMultiples};

use crate::ratio::Ratio;
use num_traits::checked_pow;
use std::alloc::{AllocError, Global};

/// The candidates C_e in base p: the distinct fractions m/(p^c*(p^b - 1)) of (0, 1] with b >= 1 and b + c <= e, rising.
pub fn candidates(alloc: Global, p: u64, e: u32) -> Result<Vec<Ratio>, AllocError>
    requires prime { Contains primes p }
    requires positive { 1 ≤ e }
    requires small { p ^ e ≤ 65536 }
    ensures { IfOk result (λ v. AreCandidates p e v.items) }
{
    // Each candidate is a fraction m/(p^e - p^c) with c below e.
    let Some(whole) = checked_pow(p, e as usize) else {
        unreachable!()
    };
    let mut list = Vec::new(alloc);
    let mut power = 1;
    'rows: for _ in 0..e {
        push_multiples(&mut list, whole - power)?;
        power *= p;
    }
    list.sort_unstable();
    list.dedup();
    Ok(list)
}

// Adds m/d for each m from 1 to d.
fn push_multiples(list: &mut Vec<Ratio>, d: u64) -> Result<(), AllocError>
    requires positive { 1 ≤ d }
    requires narrow { d < 2 ^ 16 }
    ensures { OnOk result (AddsMultiples d (d + 1) list.old.items list.new.items) }
{
    'multiples: for m in 1..d + 1 {
        list.push(Ratio::of(m as u32, d as u16))?;
    }
    Ok(())
}
