//! The words below the two plans, and the legend of the steps.
ghost use Rattle.std.specs.Prelude.{◌≡◌, ◌++◌, IfOk, string_bytes};
ghost use Rattle.plan_drawing.specs.Captions.{legend, light_caption, things_caption};

use std::alloc::AllocError;

/// What is said of the light where the intervals stand in the cells.
const LIGHT_WITH_NUMBERS: &str =
    "<figcaption>Light: each cell belongs to the task point in its middle and holds the lower and the upper end of its interval in lux; its colour goes by the lower end. Thin lines are boxes, and hatched cells are covered by one. x runs to the right, y upward.</figcaption>\n";

/// What is said of it where they don't.
const LIGHT_WITHOUT_NUMBERS: &str =
    "<figcaption>Light: each cell belongs to the task point in its middle, and its colour goes by the lower end of its interval. The cells are too small for the intervals: each stands in the tooltip of its cell and in the table of the task points. Thin lines are boxes, and hatched cells are covered by one. x runs to the right, y upward.</figcaption>\n";

/// Each step and the illuminance from which it begins, and covered cells.
const LEGEND: &str =
    "<ul class='legend'>\n<li class='s0 w'>0</li>\n<li class='s1 w'>5</li>\n<li class='s2 w'>10</li>\n<li class='s3 w'>20</li>\n<li class='s4 w'>30</li>\n<li class='s5 w'>50</li>\n<li class='s6 w'>75</li>\n<li class='s7 w'>100</li>\n<li class='s8 k'>150</li>\n<li class='s9 k'>200</li>\n<li class='s10 k'>300</li>\n<li class='s11 k'>500</li>\n<li class='s12 k'>750</li>\n<li class='s13 k'>1000</li>\n<li class='s14 k'>1500</li>\n<li class='s15 k'>2000</li>\n<li class='s16 k'>3000</li>\n<li class='s17 k'>5000</li>\n<li class='hatch'>covered</li>\n</ul>\n<p class='note'>Each colour from its number of lux up to the next.</p>\n";

/// What is said of the things.
const THINGS: &str =
    "<figcaption>Things: boxes have the height of their tops in metres. Circles are lamps with their numbers, and a grey rectangle is what a lamp shines from. An arrow is the aim of a lamp that is aimed along the floor, a second circle marks a lamp that is aimed upward, and a line out of a circle the half-plane C 0 of a lamp that is turned. The dashed line is the task area. x runs to the right, y upward.</figcaption>\n";

/// Adds what is said of the light, with numbers in the cells or without.
#[tactic(auto, unfolding(crate::specs::Captions::light_caption))]
pub fn push_light_caption(text: &mut String, numbers: bool) -> Result<(), AllocError>
    ensures { IfOk result (λ _. string_bytes text.new ≡ string_bytes text.old ++ light_caption numbers) }
{
    if numbers {
        text.push_str(LIGHT_WITH_NUMBERS)
    } else {
        text.push_str(LIGHT_WITHOUT_NUMBERS)
    }
}

/// Adds the legend of the steps.
#[tactic(auto, unfolding(crate::specs::Captions::legend))]
pub fn push_legend(text: &mut String) -> Result<(), AllocError>
    ensures { IfOk result (λ _. string_bytes text.new ≡ string_bytes text.old ++ legend) }
{
    text.push_str(LEGEND)
}

/// Adds what is said of the things.
#[tactic(auto, unfolding(crate::specs::Captions::things_caption))]
pub fn push_things_caption(text: &mut String) -> Result<(), AllocError>
    ensures { IfOk result (λ _. string_bytes text.new ≡ string_bytes text.old ++ things_caption) }
{
    text.push_str(THINGS)
}
