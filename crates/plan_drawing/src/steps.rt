//! The steps of illuminance by which cells are coloured.
ghost use Rattle.std.specs.Prelude.{◌≡◌, ◌≤◌, Some};
ghost use Rattle.plan_drawing.specs.Steps.{ink_class, step, step_class};

use std::fmt;

/// The illuminances in lux at which the steps after step 0 begin.
const LIMITS: [u128; 17] = [
    5, 10, 20, 30, 50, 75, 100, 150, 200, 300, 500, 750, 1000, 1500, 2000, 3000, 5000,
];

/// The step of an illuminance, from 0 to 17. It is spelled as the class of the step's colour.
#[derive(Clone, Copy)]
pub struct StepClass(pub usize);

impl fmt::Display for StepClass {
    ghost output = { λ s. Some (step_class s.0) };

    fn fmt<W: fmt::Write>(&self, f: &mut fmt::Formatter<W>) -> fmt::Result {
        write!(f, "s{}", self.0)
    }
}

/// Letters on a step's colour: white ones on the dark steps 0 to 7, and black ones on the others.
#[derive(Clone, Copy)]
pub struct InkClass(pub usize);

impl fmt::Display for InkClass {
    ghost output = { λ s. Some (ink_class s.0) };

    fn fmt<W: fmt::Write>(&self, f: &mut fmt::Formatter<W>) -> fmt::Result {
        if self.0 < 8 {
            write!(f, "w")
        } else {
            write!(f, "k")
        }
    }
}

/// The step of an illuminance in hundredths of a lux: how many of the limits it reaches.
#[tactic(auto, unfolding(crate::specs::Steps::step))]
pub fn step(cents: u128) -> usize
    ensures { result ≡ step cents }
{
    LIMITS.iter().filter(|limit| **limit * 100 <= cents).count()
}
