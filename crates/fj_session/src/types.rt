//! Answers to questions.
ghost use Rattle.std.specs.Prelude.{◌≡◌, ◌<◌, length, slice_get, Some};

use fj_jump::GapList;
use fj_mono::Mono;
use fj_plain::{Kept, PlainList, PlainPoly};
use fj_ratio::Ratio;
use std::marker::Model;

/// A part of a polynomial: the exponents of its residue, each below q, and the part, whose terms fall in the printing
/// order of the question.
#[derive(Debug, Drop)]
pub struct PartRow {
    pub residue: Mono,
    pub poly: PlainPoly,
}

/// The parts that aren't zero, their residues rising in Lex.
#[derive(Debug, Drop)]
pub struct PartList {
    rows: Vec<PartRow>,
}

impl Model for PartList {
    ghost use Rattle.std.specs.Prelude.{List};
    ghost use Rattle.fj_session.specs.declared.types.PartRow.{PartRow};

    ghost Value = { List PartRow };

    ghost view = { λ l. l.rows.items };
}

impl PartList {
    /// The list of these parts.
    pub fn of(v: Vec<PartRow>) -> PartList
        ensures { result ≡ v.items }
    {
        PartList { rows: v }
    }

    /// The number of parts.
    pub fn len(&self) -> usize
        ensures { result ≡ length self.now }
    {
        self.rows.len()
    }

    /// The part at place i, counted from 0.
    pub fn get(&self, i: usize) -> &PartRow
        requires { i < length self.now }
        ensures { slice_get self.now i ≡ Some result.now }
    {
        &self.rows[i]
    }
}

/// An F-jumping number, and the test ideal there by its reduced basis for the printing order.
#[derive(Debug, Drop)]
pub struct ShownJump {
    pub at: Ratio,
    pub ideal: PlainList,
}

/// F-jumping numbers, rising.
#[derive(Debug, Drop)]
pub struct ShownJumps {
    rows: Vec<ShownJump>,
}

impl Model for ShownJumps {
    ghost use Rattle.std.specs.Prelude.{List};
    ghost use Rattle.fj_session.specs.declared.types.ShownJump.{ShownJump};

    ghost Value = { List ShownJump };

    ghost view = { λ l. l.rows.items };
}

impl ShownJumps {
    /// The list of these rows.
    pub fn of(v: Vec<ShownJump>) -> ShownJumps
        ensures { result ≡ v.items }
    {
        ShownJumps { rows: v }
    }

    /// The number of rows.
    pub fn len(&self) -> usize
        ensures { result ≡ length self.now }
    {
        self.rows.len()
    }

    /// The row at place i, counted from 0.
    pub fn get(&self, i: usize) -> &ShownJump
        requires { i < length self.now }
        ensures { slice_get self.now i ≡ Some result.now }
    {
        &self.rows[i]
    }
}

/// The answer to a question.
#[derive(Debug, Drop)]
pub enum Answer {
    /// The parts of a polynomial at e.
    Parts(PartList),
    /// An ideal by its reduced basis for the printing order: the members rise by lead, and the terms of each fall.
    Ideal(PlainList),
    Yes,
    No,
    /// The F-jumping numbers among the candidates, rising, each with its test ideal; the gaps between 0 and the candidates in
    /// which the test ideal changes, rising; and whether there is no such gap, so that the list has all F-jumping numbers in
    /// (0, 1].
    Jumps {
        jumps: ShownJumps,
        gaps: GapList,
        complete: bool,
    },
    /// The number nu(e) of a polynomial at an ideal: the greatest r whose power of the polynomial isn't in the Frobenius power.
    Nu(u64),
    /// This candidate is the threshold.
    At(Ratio),
    /// No candidate is the threshold, and this gap of 0 and the candidates has it inside.
    Between(Ratio, Ratio),
    /// The polynomial isn't in the ideal, which is proper.
    NotIn,
    /// 1 is in the ideal.
    Unit,
    /// The polynomial isn't zero at the point, or the point isn't a zero of the ideal.
    Off,
    /// The run on this list, which the question needs, made as many turns as its budget allows, and pairs are pending. The
    /// terms of the list fall in the printing order.
    StoppedPairs(Kept),
    /// A degree above 2^40 arises in the run on this list, which the question needs, or in a product of these polynomials.
    /// Their terms fall in the printing order.
    StoppedHigh(Kept),
}
