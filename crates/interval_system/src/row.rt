//! A row of weights.
ghost use Rattle.std.specs.Prelude.{◌≡◌, ℕ, ◌+◌, ◌<◌, ◌≤◌, ◌^◌, ◌↔◌, IsTrue, List, All, length, replicate, slice_index_or, slice_set, IfOk};
ghost use Rattle.interval_system.specs.System.{IsWeight, IsRow, no_weight, upper_total};
ghost use Rattle.interval_system.specs.Sent.{sent_low, sent_high};
ghost use Rattle.fx_base.specs.Bound.{IsEnd};

use crate::sent::{high_sum, low_sum};
use fx_base::{Memory, Tick, Weight};
use std::alloc::Global;
use std::marker::Model;

/// At most 2,048 weights, each with `lo <= hi <= 2^36` ticks: what the patches send to one place.
#[derive(Debug, Drop)]
pub struct Row {
    weights: Vec<Weight>,
}

impl Model for Row {
    ghost use Rattle.std.specs.Prelude.{List};
    ghost use Rattle.fx_base.specs.declared.Weight.{Weight};
    ghost use Rattle.interval_system.specs.System.{IsRow};

    ghost Value = { List Weight };

    ghost view = { λ r. r.weights.items };

    ghost invariant = { λ r. IsRow r.weights.items };
}

impl Row {
    /// n weights of 0.
    pub fn new(alloc: Global, n: usize) -> Result<Row, Memory>
        requires { n ≤ 2048 }
        ensures { IfOk result (λ row. row ≡ replicate n no_weight) }
    {
        let weights = vec![in alloc; Weight::NONE; n]?;
        Ok(Row { weights })
    }

    /// The row of these weights, in order.
    pub fn from_weights(weights: Vec<Weight>) -> Row
        requires { IsRow weights.items }
        ensures { result ≡ weights.items }
    {
        Row { weights }
    }

    /// How many weights there are.
    pub fn len(&self) -> usize
        ensures len { result ≡ length self.now }
        ensures row { IsRow self.now }
    {
        self.weights.len()
    }

    /// Whether there is none.
    pub fn is_empty(&self) -> bool
        ensures { IsTrue result ↔ (length self.now ≡ 0) }
    {
        self.weights.is_empty()
    }

    /// The weight j.
    pub fn weight(&self, j: usize) -> Weight
        requires { j < length self.now }
        ensures weight { result ≡ slice_index_or self.now j no_weight }
        ensures part { IsWeight result }
    {
        self.weights[j]
    }

    /// Puts w in place of the weight j.
    pub fn put(&mut self, j: usize, w: Weight)
        requires inside { j < length self.old }
        requires part { IsWeight w }
        ensures { self.new ≡ slice_set self.old j w }
    {
        self.weights[j] = w;
    }

    /// The sum of the upper ends, in ticks.
    pub fn sum(&self) -> u64
        ensures sum { result ≡ upper_total self.now }
        ensures most { result ≤ 2 ^ 47 }
    {
        let mut sum = 0;
        for w in &self.weights {
            sum += w.hi;
        }
        sum
    }

    /// What patches with this light send to the row's place by the lower ends, each product rounded down, in ticks.
    pub fn sent_below(&self, light: &[Tick]) -> u128
        requires size { length light.now ≡ length self.now }
        requires ends { All IsEnd light.now }
        ensures sent { result ≡ sent_low self.now light.now (length self.now) }
        ensures most { result ≤ 2 ^ 101 }
    {
        low_sum(self.weights.as_slice(), light)
    }

    /// The same by the upper ends, each product rounded up.
    pub fn sent_above(&self, light: &[Tick]) -> u128
        requires size { length light.now ≡ length self.now }
        requires ends { All IsEnd light.now }
        ensures sent { result ≡ sent_high self.now light.now (length self.now) }
        ensures most { result ≤ 2 ^ 101 }
    {
        high_sum(self.weights.as_slice(), light)
    }
}
