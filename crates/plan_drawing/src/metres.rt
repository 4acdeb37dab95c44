//! Lengths in metres, and areas in millimetres.
ghost use Rattle.std.specs.Prelude.{◌≡◌, Some};
ghost use Rattle.plan_drawing.specs.Metres.{area_text, metres};

use decimal_text::Thousandths;
use std::fmt;

/// A length in millimetres. It is spelled in metres, with three decimals.
#[derive(Clone, Copy, Debug, PartialEq, Eq)]
pub struct Metres(pub u32);

impl fmt::Display for Metres {
    ghost output = { λ m. Some (metres m.0) };

    fn fmt<W: fmt::Write>(&self, f: &mut fmt::Formatter<W>) -> fmt::Result {
        write!(f, "{}", Thousandths(u128::from(self.0)))
    }
}

/// A rectangle on a plan, in millimetres. It is spelled as the attributes of a drawn one.
#[derive(Clone, Copy, Debug, PartialEq, Eq)]
pub struct Area {
    pub x: u32,
    pub y: u32,
    pub width: u32,
    pub height: u32,
}

impl fmt::Display for Area {
    ghost output = { λ a. Some (area_text a) };

    fn fmt<W: fmt::Write>(&self, f: &mut fmt::Formatter<W>) -> fmt::Result {
        write!(f, "x='{}' y='{}' ", self.x, self.y)?;
        write!(f, "width='{}' height='{}'", self.width, self.height)
    }
}
