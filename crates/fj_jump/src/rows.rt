//! What a search tells: F-jumping numbers with their test ideals, and gaps between candidates.
ghost use Rattle.std.specs.Prelude.{◌≡◌, ◌<◌, Some, length, slice_get};

use fj_coeff::Coeff;
use fj_ideal::Ideal;
use fj_ratio::Ratio;
use std::marker::Model;

/// An F-jumping number, and the test ideal there.
#[derive(Drop)]
pub struct JumpRow<K: Coeff> {
    pub at: Ratio,
    pub ideal: Ideal<K>,
}

/// A gap between neighbours in 0 and the candidates.
#[derive(Debug, Drop)]
pub struct GapRow {
    pub from: Ratio,
    pub to: Ratio,
}

/// A list of F-jumping numbers.
#[derive(Drop)]
pub struct JumpList<K: Coeff> {
    rows: Vec<JumpRow<K>>,
}

impl<K: Coeff> Model for JumpList<K> {
    ghost use Rattle.std.specs.Prelude.{List};
    ghost use Rattle.std.specs.Coded.{coded_list};
    ghost use Rattle.fj_jump.specs.Rows.{row_code};
    ghost use Rattle.fj_jump.specs.declared.rows.JumpRow.{JumpRow};

    ghost Value = { List (JumpRow K) };

    ghost coded = { coded_list row_code };

    ghost view = { λ l. l.rows.items };
}

impl<K: Coeff> JumpList<K> {
    /// The list of these rows.
    pub fn of(v: Vec<JumpRow<K>>) -> JumpList<K>
        ensures { result ≡ v.items }
    {
        JumpList { rows: v }
    }

    /// The number of rows.
    pub fn len(&self) -> usize
        ensures { result ≡ length self.now }
    {
        self.rows.len()
    }

    /// The row at place i, counted from 0.
    pub fn get(&self, i: usize) -> &JumpRow<K>
        requires { i < length self.now }
        ensures { slice_get self.now i ≡ Some result.now }
    {
        &self.rows[i]
    }
}

/// A list of gaps.
#[derive(Debug, Drop)]
pub struct GapList {
    rows: Vec<GapRow>,
}

impl Model for GapList {
    ghost use Rattle.std.specs.Prelude.{List};
    ghost use Rattle.fj_jump.specs.declared.rows.GapRow.{GapRow};

    ghost Value = { List GapRow };

    ghost view = { λ l. l.rows.items };
}

impl GapList {
    /// The list of these rows.
    pub fn of(v: Vec<GapRow>) -> GapList
        ensures { result ≡ v.items }
    {
        GapList { rows: v }
    }

    /// The number of rows.
    pub fn len(&self) -> usize
        ensures { result ≡ length self.now }
    {
        self.rows.len()
    }

    /// The row at place i, counted from 0.
    pub fn get(&self, i: usize) -> &GapRow
        requires { i < length self.now }
        ensures { slice_get self.now i ≡ Some result.now }
    {
        &self.rows[i]
    }
}

/// The F-jumping numbers among the candidates, rising, the gaps on which the test ideal isn't constant, rising, and whether
/// there is none of these gaps.
#[derive(Drop)]
pub struct Jumps<K: Coeff> {
    pub jumps: JumpList<K>,
    pub unsettled: GapList,
    pub complete: bool,
}
