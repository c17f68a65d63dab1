//! Lists and tables of plain polynomials, points, and the lists that a stop keeps.
ghost use Rattle.std.specs.Prelude.{◌≡◌, ◌<◌, ◌↔◌, length, slice_get, IsTrue, Some};
ghost use Rattle.fj_theory.specs.Certificate.{AllRanksBelow, AllRowsBelow};

use crate::order_name::OrderName;
use crate::plain::PlainPoly;
use std::marker::Model;

/// A list of plain polynomials.
#[derive(Debug, Drop)]
pub struct PlainList {
    members: Vec<PlainPoly>,
}

impl Model for PlainList {
    ghost use Rattle.std.specs.Prelude.{List};
    ghost use Rattle.std.specs.Coded.{coded_list};
    ghost use Rattle.fj_theory.specs.Plain.{PlainPolynomial};
    ghost use Rattle.fj_plain.specs.PlainCode.{plain_code};

    ghost Value = { List PlainPolynomial };

    ghost coded = { coded_list plain_code };

    ghost view = { λ l. l.members.items };
}

impl PlainList {
    /// The list of these polynomials.
    pub fn of(v: Vec<PlainPoly>) -> PlainList
        ensures { result ≡ v.items }
    {
        PlainList { members: v }
    }

    /// The number of polynomials.
    pub fn len(&self) -> usize
        ensures { result ≡ length self.now }
    {
        self.members.len()
    }

    /// The polynomial at place i.
    pub fn get(&self, i: usize) -> &PlainPoly
        requires { i < length self.now }
        ensures { slice_get self.now i ≡ Some result.now }
    {
        &self.members[i]
    }
}

impl PlainList {
    /// Whether all ranks are those of coefficients in GF(p).
    pub(crate) fn have_ranks_below(&self, p: u64) -> bool
        ensures { IsTrue result ↔ AllRanksBelow p self.now }
    {
        for i in 0..self.len() {
            if !self.get(i).has_ranks_below(p) {
                return false;
            }
        }
        true
    }
}

/// A table of plain polynomials, by rows.
#[derive(Debug, Drop)]
pub struct PlainTable {
    rows: Vec<PlainList>,
}

impl Model for PlainTable {
    ghost use Rattle.std.specs.Prelude.{List};
    ghost use Rattle.std.specs.Coded.{coded_list};
    ghost use Rattle.fj_theory.specs.Plain.{PlainPolynomial};
    ghost use Rattle.fj_plain.specs.PlainCode.{plain_code};

    ghost Value = { List (List PlainPolynomial) };

    ghost coded = { coded_list (coded_list plain_code) };

    ghost view = { λ t. t.rows.items };
}

impl PlainTable {
    /// The table of these rows.
    pub fn of(v: Vec<PlainList>) -> PlainTable
        ensures { result ≡ v.items }
    {
        PlainTable { rows: v }
    }

    /// The number of rows.
    pub fn len(&self) -> usize
        ensures { result ≡ length self.now }
    {
        self.rows.len()
    }

    /// The row at place i.
    pub fn get(&self, i: usize) -> &PlainList
        requires { i < length self.now }
        ensures { slice_get self.now i ≡ Some result.now }
    {
        &self.rows[i]
    }
}

impl PlainTable {
    /// Whether all ranks are those of coefficients in GF(p).
    pub(crate) fn have_ranks_below(&self, p: u64) -> bool
        ensures { IsTrue result ↔ AllRowsBelow p self.now }
    {
        for i in 0..self.len() {
            if !self.get(i).have_ranks_below(p) {
                return false;
            }
        }
        true
    }
}

/// The ranks of the coordinates of a point.
#[derive(Debug, Drop)]
pub struct PlainPoint {
    ranks: Vec<u64>,
}

impl Model for PlainPoint {
    ghost use Rattle.std.specs.Prelude.{List, ℕ};
    ghost use Rattle.std.specs.Coded.{coded_list, coded_ℕ};

    ghost Value = { List ℕ };

    ghost coded = { coded_list coded_ℕ };

    ghost view = { λ p. p.ranks.items };
}

impl PlainPoint {
    /// The point with these ranks.
    pub fn of(v: Vec<u64>) -> PlainPoint
        ensures { result ≡ v.items }
    {
        PlainPoint { ranks: v }
    }

    /// The number of coordinates.
    pub fn len(&self) -> usize
        ensures { result ≡ length self.now }
    {
        self.ranks.len()
    }

    /// The rank at place i.
    pub fn get(&self, i: usize) -> &u64
        requires { i < length self.now }
        ensures { slice_get self.now i ≡ Some result.now }
    {
        &self.ranks[i]
    }
}

/// A list that a basis run was given, with the order of the run.
#[derive(Debug, Drop)]
pub struct Kept {
    pub order: OrderName,
    pub list: PlainList,
}
