//! Monomial orders by keys: Lex, Grlex, Grevlex and Elim.
ghost use Rattle.std.specs.Prelude.{◌≡◌, ◌<◌, ◌≤◌, ℕ, List};
ghost use Rattle.fj_theory.specs.MonomialOrder.{IsMonomialOrder, compare_by, elim_key, front_sums, grevlex_key, grlex_key, lex_key};

use crate::mono::Mono;
use std::cmp::Ordering;

/// A monomial order (Cox, Little and O'Shea 2015, chapter 2), given by a key: nine naturals for each exponent list, whose
/// lexicographic order it is. The laws hold for exponents of any size: no two exponent lists have one key, two compare as
/// before when the same list is added to both, and no entry of a key is above the total degree. So the order is total and
/// kept by products, and 1 is the least monomial.
pub trait Order {
    ghost key: { List ℕ → List ℕ };

    ghost ROW: { ℕ };

    /// The row of the order in the table Lex, Grlex, Grevlex, Elim, from 0.
    const ROW: u8;

    /// Whether a is less than, equal to or greater than b.
    fn cmp(a: &Mono, b: &Mono) -> Ordering
        ensures { result ≡ compare_by key a.now.exponents b.now.exponents };

    ghost monomial_order: { IsMonomialOrder key };

    ghost row_below: { ROW < 4 };
}

/// The lexicographic order: the first exponent that differs decides.
pub struct Lex;

/// The graded lexicographic order: the total degree decides, and at equal totals Lex.
pub struct Grlex;

/// The graded reverse lexicographic order: the total degree decides, and at equal totals the last exponent that
/// differs, the smaller one being of the greater monomial.
pub struct Grevlex;

/// An elimination order for the eighth variable: its exponent decides, and at equal ones the other seven in Grevlex.
pub struct Elim;

impl Order for Lex {
    ghost use Rattle.std.proofs.Common.{rules};
    ghost use Rattle.fj_mono.specs.OrderLaws.{lex_key-IsMonomialOrder};

    ghost key = { lex_key };

    ghost ROW = { 0 };

    const ROW: u8 = 0;

    fn cmp(a: &Mono, b: &Mono) -> Ordering {
        a.cmp(b)
    }

    ghost monomial_order = { lex_key-IsMonomialOrder };

    ghost row_below = { Prim.search rules };
}

impl Order for Grlex {
    ghost use Rattle.std.proofs.Common.{rules};
    ghost use Rattle.fj_mono.specs.OrderLaws.{grlex_key-IsMonomialOrder};

    ghost key = { grlex_key };

    ghost ROW = { 1 };

    const ROW: u8 = 1;

    fn cmp(a: &Mono, b: &Mono) -> Ordering {
        a.total().cmp(&b.total()).then(Lex::cmp(a, b))
    }

    ghost monomial_order = { grlex_key-IsMonomialOrder };

    ghost row_below = { Prim.search rules };
}

impl Order for Grevlex {
    ghost use Rattle.std.proofs.Common.{rules};
    ghost use Rattle.fj_mono.specs.OrderLaws.{grevlex_key-IsMonomialOrder};

    ghost key = { grevlex_key };

    ghost ROW = { 2 };

    const ROW: u8 = 2;

    fn cmp(a: &Mono, b: &Mono) -> Ordering {
        compare_fronts(a, b, 8)
    }

    ghost monomial_order = { grevlex_key-IsMonomialOrder };

    ghost row_below = { Prim.search rules };
}

impl Order for Elim {
    ghost use Rattle.std.proofs.Common.{rules};
    ghost use Rattle.fj_mono.specs.OrderLaws.{elim_key-IsMonomialOrder};

    ghost key = { elim_key };

    ghost ROW = { 3 };

    const ROW: u8 = 3;

    fn cmp(a: &Mono, b: &Mono) -> Ordering {
        a.exp(7).cmp(&b.exp(7)).then(compare_fronts(a, b, 7))
    }

    ghost monomial_order = { elim_key-IsMonomialOrder };

    ghost row_below = { Prim.search rules };
}

// The order by the sums of the first k exponents, for k from the given number down to 1.
fn compare_fronts(a: &Mono, b: &Mono, variables: usize) -> Ordering
    requires { variables ≤ 8 }
    ensures { result ≡ compare_by (front_sums variables) a.now.exponents b.now.exponents }
{
    let mut left = a.front(variables);
    let mut right = b.front(variables);
    let mut count = variables;
    while count > 0 {
        if left != right {
            return left.cmp(&right);
        }
        count -= 1;
        left -= a.exp(count);
        right -= b.exp(count);
    }
    Ordering::Equal
}
