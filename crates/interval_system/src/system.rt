//! A system of radiosity equations in intervals: a square of weights, and the direct light of each row.
ghost use Rattle.std.specs.Prelude.{◌≡◌, ℕ, ◌+◌, ◌<◌, ◌≤◌, List, [], length, replicate, slice_index_or, slice_set, IfOk, MatchOption, All};
ghost use Rattle.interval_system.specs.System.{IsWeight, IsDirectLight, IsInLightRange, IsRow, IsSystem, no_weight, no_light, weight_at, direct_at, upper_total, NoneHeavy, IsFirstHeavy};

use crate::row::Row;
use fx_base::{Memory, Span, Weight};
use std::alloc::Global;
use std::marker::Model;

/// The greatest sum of the upper ends of a row with which a system is solved: 255/256, in ticks.
const GREATEST_ROW_SUM: u64 = 68_451_041_280;

/// A row whose upper ends add up to more than 255/256, and that sum in ticks.
#[derive(Clone, Copy, Debug, PartialEq, Eq)]
pub struct Heavy {
    pub row: u32,
    pub upper: u64,
}

/// The radiosity equations of at most 2,048 patches, with intervals for numbers: as many rows as patches, each with a weight
/// for each patch, and the direct light of each patch, from 0 to 2^82 ticks.
#[derive(Debug, Drop)]
pub struct IntervalSystem {
    rows: Vec<Row>,
    direct: Vec<Span>,
}

impl Model for IntervalSystem {
    ghost use Rattle.interval_system.specs.System.{System, IsSystem};

    ghost Value = { System };

    ghost view = { λ s. record { rows = s.rows.items; direct = s.direct.items } };

    ghost invariant = { λ s. IsSystem (record { rows = s.rows.items; direct = s.direct.items }) };
}

/// n rows of n weights of 0.
fn empty_rows(alloc: Global, n: usize) -> Result<Vec<Row>, Memory>
    requires { n ≤ 2048 }
    ensures { IfOk result (λ rows. rows.items ≡ replicate n (replicate n no_weight)) }
{
    let mut rows = Vec::new(alloc);
    for _ in 0..n {
        let row = Row::new(alloc, n)?;
        rows.push(row)?;
    }
    Ok(rows)
}

/// What the type of a row keeps, said of each row. Nothing is computed.
fn rows_hold(rows: &[Row])
    ensures { All IsRow rows.now }
{
    for i in 0..rows.len() {
        let _len = rows[i].len();
    }
}

/// The order that the type of a span keeps, said of each span of light. Nothing is computed.
fn lights_hold(direct: &[Span])
    requires { All IsInLightRange direct.now }
    ensures { All IsDirectLight direct.now }
{
    for i in 0..direct.len() {
        let _low = direct[i].lo();
    }
}

impl IntervalSystem {
    /// n rows of n weights of 0, and n spans of no direct light.
    pub fn new(alloc: Global, n: usize) -> Result<IntervalSystem, Memory>
        requires { n ≤ 2048 }
        ensures rows { IfOk result (λ s. s.rows ≡ replicate n (replicate n no_weight)) }
        ensures direct { IfOk result (λ s. s.direct ≡ replicate n no_light) }
    {
        let rows = empty_rows(alloc, n)?;
        let direct = vec![in alloc; Span::whole(0); n]?;
        Ok(IntervalSystem { rows, direct })
    }

    /// The system of these rows and this direct light, in order.
    pub fn from_rows(rows: Vec<Row>, direct: Vec<Span>) -> IntervalSystem
        requires few { length rows.items ≤ 2048 }
        requires square { All (λ row. length row ≡ length rows.items) rows.items }
        requires lights { length direct.items ≡ length rows.items }
        requires light { All IsInLightRange direct.items }
        ensures rows { result.rows ≡ rows.items }
        ensures direct { result.direct ≡ direct.items }
    {
        rows_hold(rows.as_slice());
        lights_hold(direct.as_slice());
        IntervalSystem { rows, direct }
    }

    /// How many patches there are.
    pub fn size(&self) -> usize
        ensures size { result ≡ length self.now.rows }
        ensures system { IsSystem self.now }
    {
        self.rows.len()
    }

    /// The weights of row i.
    pub fn row(&self, i: usize) -> &Row
        requires { i < length self.now.rows }
        ensures row { result.now ≡ slice_index_or self.now.rows i [] }
        ensures size { length result.now ≡ length self.now.rows }
    {
        &self.rows[i]
    }

    /// The weight of patch j at patch i.
    pub fn weight(&self, i: usize, j: usize) -> Weight
        requires row { i < length self.now.rows }
        requires column { j < length self.now.rows }
        ensures weight { result ≡ weight_at self.now i j }
        ensures part { IsWeight result }
    {
        self.rows[i].weight(j)
    }

    /// The direct light of patch i.
    pub fn direct(&self, i: usize) -> Span
        requires { i < length self.now.rows }
        ensures direct { result ≡ direct_at self.now i }
        ensures light { IsDirectLight result }
    {
        self.direct[i]
    }

    /// Puts w in place of the weight of patch j at patch i.
    pub fn set_weight(&mut self, i: usize, j: usize, w: Weight)
        requires row { i < length self.old.rows }
        requires column { j < length self.old.rows }
        requires part { IsWeight w }
        ensures rows { self.new.rows ≡ slice_set self.old.rows i (slice_set (slice_index_or self.old.rows i []) j w) }
        ensures direct { self.new.direct ≡ self.old.direct }
    {
        self.rows[i].put(j, w);
    }

    /// Puts d in place of the direct light of patch i.
    pub fn set_direct(&mut self, i: usize, d: Span)
        requires row { i < length self.old.rows }
        requires light { IsInLightRange d }
        ensures rows { self.new.rows ≡ self.old.rows }
        ensures direct { self.new.direct ≡ slice_set self.old.direct i d }
    {
        // its ends are in order
        let _low = d.lo();
        self.direct[i] = d;
    }

    /// The sum of the upper ends of row i, in ticks.
    pub fn row_sum(&self, i: usize) -> u64
        requires { i < length self.now.rows }
        ensures { result ≡ upper_total (slice_index_or self.now.rows i []) }
    {
        self.rows[i].sum()
    }

    /// The first row whose upper ends add up to more than 255/256.
    pub fn heavy_row(&self) -> Option<Heavy>
        ensures { MatchOption result (NoneHeavy self.now.rows) (λ h. IsFirstHeavy self.now.rows h.row h.upper) }
    {
        for i in 0..self.rows.len() {
            let upper = self.rows[i].sum();
            if upper > GREATEST_ROW_SUM {
                return Some(Heavy {
                    row: i as u32,
                    upper,
                });
            }
        }
        None
    }
}
