//! What a report says.
ghost use Rattle.std.specs.Prelude.{◌≡◌};

use std::marker::Model;

/// Two printed numbers, the lower one rounded down and the upper one rounded up: hundredths of a lux for an illuminance, thousandths
/// for a uniformity.
#[derive(Clone, Copy, Debug, PartialEq, Eq)]
pub struct Printed {
    pub lo: u128,
    pub hi: u128,
}

/// What is printed of the task points, by row, then by column: the illuminance of each, or `None` where a box covers the point.
/// Contracts see it as their list.
#[derive(Debug, Drop)]
pub struct Points {
    kept: Vec<Option<Printed>>,
}

impl Model for Points {
    ghost use Rattle.std.specs.Prelude.{List, Option};
    ghost use Rattle.report_form.specs.declared.report.Printed.{Printed};

    ghost Value = { List (Option Printed) };

    ghost view = { λ p. p.kept.items };
}

impl Points {
    /// The points of these values, in their order.
    pub fn from_vec(values: Vec<Option<Printed>>) -> Points
        ensures { result ≡ values.items }
    {
        Points { kept: values }
    }

    /// The values of the points, in order.
    pub fn as_slice(&self) -> &[Option<Printed>]
        ensures { result.now ≡ self.now }
    {
        self.kept.as_slice()
    }
}

/// A report of the illuminance at the task points: how many columns their grid has, what is printed of each, of their average, and of
/// their uniformity, which has none where the average may be 0.
#[derive(Debug, Drop)]
pub struct Report {
    pub columns: u32,
    pub points: Points,
    pub average: Printed,
    pub uniformity: Option<Printed>,
}
