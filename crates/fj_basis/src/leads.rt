//! An index of monomials, by which most that don't divide another are passed by at the cost of one word.

ghost use Rattle.std.specs.Prelude.{◌≡◌, ◌++◌, ◌∷◌, [], ◌+◌, ◌*◌, ◌<◌, ◌≤◌, IfErr, IfOk, OnOk, length, take};
ghost use Rattle.fj_basis.specs.Leads.{IsNextDivisor, exponents_of, height, mask_after};

use fj_mono::Mono;
use std::alloc::{AllocError, Global};
use std::marker::Model;

/// How many ones stand for an exponent at most.
const TALLEST: u64 = 8;

/// A list of monomials, as the leads of the members of a basis. Beside each stands a mask of how high its exponents are: a
/// monomial whose mask isn't within that of another doesn't divide it.
#[derive(Drop)]
pub struct Leads {
    leads: Vec<Lead>,
}

/// A monomial with its mask.
#[derive(Clone, Copy)]
struct Lead {
    mask: u64,
    monomial: Mono,
}

impl Model for Leads {
    ghost use Rattle.std.specs.Prelude.{◌≡◌, List, All, map};
    ghost use Rattle.std.specs.Coded.{coded_list};
    ghost use Rattle.fj_mono.specs.Monomial.{Monomial, monomial_code};
    ghost use Rattle.fj_basis.specs.Leads.{mask_after};

    ghost Value = { List Monomial };

    ghost coded = { coded_list monomial_code };

    ghost view = { λ l. map (λ x. x.monomial) l.leads.items };

    ghost invariant = { λ l. All (λ x. x.mask ≡ mask_after 0 x.monomial.exponents) l.leads.items };
}

impl Leads {
    /// The index of a list of monomials.
    pub fn of(alloc: Global, leads: &[Mono]) -> Result<Leads, AllocError>
        ensures { IfOk result (λ l. l ≡ leads.now) }
    {
        let mut index = Leads {
            leads: Vec::new(alloc),
        };
        for m in leads {
            index.push(m)?;
        }
        Ok(index)
    }

    /// Appends a monomial. After want of memory the list is as before.
    pub fn push(&mut self, m: &Mono) -> Result<(), AllocError>
        ensures value { OnOk result (self.new ≡ self.old ++ m.now ∷ []) }
        ensures unchanged { IfErr result (λ _. self.new ≡ self.old) }
    {
        let mask = mask_of(m);
        self.leads.push(Lead { mask, monomial: *m })?;
        Ok(())
    }

    /// The least place whose monomial divides m, `None` exactly where there is none. It takes no memory.
    pub fn first(&self, m: &Mono) -> Option<usize>
        ensures { IsNextDivisor (exponents_of self.now) 0 m.now.exponents result }
    {
        self.next(0, m)
    }

    /// The least place from `from` on whose monomial divides m, `None` exactly where there is none. It takes no memory.
    pub fn next(&self, from: usize, m: &Mono) -> Option<usize>
        ensures { IsNextDivisor (exponents_of self.now) from m.now.exponents result }
    {
        let mask = mask_of(m);
        for k in from..self.leads.len() {
            let lead = &self.leads[k];
            if lead.mask & mask == lead.mask && lead.monomial.divides(m) {
                return Some(k);
            }
        }
        None
    }
}

// The mask of a monomial: eight bits for each variable.
fn mask_of(m: &Mono) -> u64
    ensures { result ≡ mask_after 0 m.now.exponents }
{
    let mut mask = 0;
    for i in 0..8 {
        mask = mask * 256 + height_of(m.exp(i));
    }
    mask
}

// How high an exponent is, as that many ones.
fn height_of(exponent: u64) -> u64
    ensures value { result ≡ height exponent }
    ensures byte { result < 256 }
{
    (1 << exponent.min(TALLEST)) - 1
}
