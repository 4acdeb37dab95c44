//! The lamps on the plan of the things.
ghost use Rattle.std.specs.Prelude.{◌≡◌, ◌<◌, ◌≤◌, ◌++◌, IfOk, Some, length, slice_index_or, string_bytes};
ghost use Rattle.room_layout.specs.Accepted.{IsAccepted, IsLampIn};
ghost use Rattle.plan_drawing.specs.Things.{aim_mark, arrow, arrow_head, arrow_line, drawn_lamp, face_name, hanging_mark, lamp, lamp_circle, lamp_head, lamp_title, place_name, ring, shine_drawn, turn_mark, upward_mark};

use crate::metres::Metres;
use crate::pieces::Pieces;
use crate::sizes::lamp_radius;
use room_layout::{Face, Lamp, Room, Size};
use std::alloc::AllocError;
use std::fmt;

/// A face, as the layout's files write it.
#[derive(Clone, Copy)]
struct FaceName(Face);

impl fmt::Display for FaceName {
    ghost output = { λ n. Some (face_name n.0) };

    fn fmt<W: fmt::Write>(&self, f: &mut fmt::Formatter<W>) -> fmt::Result {
        match self.0 {
            Face::Up => write!(f, "+z"),
            Face::Down => write!(f, "-z"),
            Face::East => write!(f, "+x"),
            Face::West => write!(f, "-x"),
            Face::North => write!(f, "+y"),
            Face::South => write!(f, "-y"),
        }
    }
}

/// A place in a room, in metres.
#[derive(Clone, Copy)]
struct PlaceName(Size);

impl fmt::Display for PlaceName {
    ghost output = { λ p. Some (place_name p.0) };

    fn fmt<W: fmt::Write>(&self, f: &mut fmt::Formatter<W>) -> fmt::Result {
        let (x, y, z) = (Metres(self.0.x), Metres(self.0.y), Metres(self.0.z));
        write!(f, "{x}, {y} m, {z} m above the floor")
    }
}

/// Lamp `number`: its place, where it is aimed and by how many degrees it is turned.
#[derive(Clone, Copy)]
struct LampTitle {
    number: usize,
    lamp: Lamp,
}

impl fmt::Display for LampTitle {
    ghost output = { λ t. Some (lamp_title t.number t.lamp) };

    fn fmt<W: fmt::Write>(&self, f: &mut fmt::Formatter<W>) -> fmt::Result {
        let (at, aim) = (PlaceName(self.lamp.at), FaceName(self.lamp.aim));
        let (number, turn) = (self.number, self.lamp.turn);
        write!(f, "lamp {number} at {at}, aim {aim}, turn {turn}")
    }
}

/// Adds the place from which lamp `number` is drawn, and what is said of it. The floor measures `edge` millimetres along y.
#[tactic(auto, unfolding(crate::specs::Things::lamp_head))]
fn push_lamp_head(
    text: &mut String,
    edge: u32,
    number: usize,
    lamp: &Lamp,
) -> Result<(), AllocError>
    requires within { lamp.now.at.y ≤ edge }
    ensures { IfOk result (λ _. string_bytes text.new ≡ string_bytes text.old ++ lamp_head edge number lamp.now) }
{
    let (x, y) = (lamp.at.x, edge - lamp.at.y);
    let title = LampTitle {
        number,
        lamp: *lamp,
    };
    write!(
        text,
        "<g transform='translate({x} {y})'><title>{title}</title>\n"
    )
}

/// Adds a lamp's rectangle, so wide and so high as it is seen from above.
#[tactic(auto, unfolding(crate::specs::Things::shine_drawn))]
fn push_shine(text: &mut String, width: u32, height: u32) -> Result<(), AllocError>
    ensures { IfOk result (λ _. string_bytes text.new ≡ string_bytes text.old ++ shine_drawn width height) }
{
    let (left, up) = (width / 2, height / 2);
    write!(
        text,
        "<path class='shine' d='M-{left}-{up}h{width}v{height}h-{width}z'/>\n"
    )
}

/// Adds a line out of a circle with this radius, turned by so many degrees as a clock goes.
#[tactic(auto, unfolding(crate::specs::Things::turn_mark))]
fn push_turn_mark(text: &mut String, radius: u32, angle: u32) -> Result<(), AllocError>
    requires radius { radius ≤ 2500 }
    ensures { IfOk result (λ _. string_bytes text.new ≡ string_bytes text.old ++ turn_mark radius angle) }
{
    let length = 2 * radius;
    write!(
        text,
        "<path class='aim' transform='rotate({angle})' d='M0 0H{length}'/>\n"
    )
}

/// Adds the line of an arrow out of a circle with this radius, turned by so many degrees as a clock goes.
#[tactic(auto, unfolding(crate::specs::Things::arrow_line))]
fn push_arrow_line(text: &mut String, radius: u32, angle: u32) -> Result<(), AllocError>
    requires radius { radius ≤ 2500 }
    ensures { IfOk result (λ _. string_bytes text.new ≡ string_bytes text.old ++ arrow_line radius angle) }
{
    let length = 2 * radius;
    write!(
        text,
        "<path class='aim' transform='rotate({angle})' d='M0 0H{length}l"
    )
}

/// Adds the head of an arrow, whose edges reach back by `a` millimetres.
#[tactic(auto, unfolding(crate::specs::Things::arrow_head))]
fn push_arrow_head(text: &mut String, a: u32) -> Result<(), AllocError>
    ensures { IfOk result (λ _. string_bytes text.new ≡ string_bytes text.old ++ arrow_head a) }
{
    write!(text, "-{a}-{a}m{a} {a}l-{a} {a}'/>\n")
}

/// Adds an arrow out of a circle with this radius, turned by so many degrees as a clock goes.
fn push_arrow(text: &mut String, radius: u32, angle: u32) -> Result<(), AllocError>
    requires radius { radius ≤ 2500 }
    ensures { IfOk result (λ _. string_bytes text.new ≡ string_bytes text.old ++ arrow radius angle) }
{
    push_arrow_line(text, radius, angle)?;
    push_arrow_head(text, radius / 3)
}

/// Adds a second circle round one with this radius.
#[tactic(auto, unfolding(crate::specs::Things::ring))]
fn push_ring(text: &mut String, radius: u32) -> Result<(), AllocError>
    requires radius { radius ≤ 2500 }
    ensures { IfOk result (λ _. string_bytes text.new ≡ string_bytes text.old ++ ring radius) }
{
    let outer = 5 * radius / 4;
    write!(text, "<circle class='ring' r='{outer}'/>\n")
}

/// Adds a line to the half-plane C 0 of a lamp that hangs, where it is turned.
fn push_hanging_mark(text: &mut String, radius: u32, turn: u32) -> Result<(), AllocError>
    requires radius { radius ≤ 2500 }
    requires turn { turn ≤ 359 }
    ensures { IfOk result (λ _. string_bytes text.new ≡ string_bytes text.old ++ hanging_mark radius turn) }
{
    if turn == 0 {
        return Ok(());
    }
    push_turn_mark(text, radius, 360 - turn)
}

/// Adds the mark of a lamp that shines upward, and a line to its half-plane C 0, where it is turned.
fn push_upward_mark(text: &mut String, radius: u32, turn: u32) -> Result<(), AllocError>
    requires radius { radius ≤ 2500 }
    ensures { IfOk result (λ _. string_bytes text.new ≡ string_bytes text.old ++ upward_mark radius turn) }
{
    push_ring(text, radius)?;
    if turn == 0 {
        return Ok(());
    }
    push_turn_mark(text, radius, turn)
}

/// Adds what tells an aim and a turn from those of a lamp that hangs without a turn.
fn push_aim_mark(text: &mut String, radius: u32, turn: u32, aim: Face) -> Result<(), AllocError>
    requires radius { radius ≤ 2500 }
    requires turn { turn ≤ 359 }
    ensures { IfOk result (λ _. string_bytes text.new ≡ string_bytes text.old ++ aim_mark radius turn aim) }
{
    match aim {
        Face::Down => push_hanging_mark(text, radius, turn),
        Face::Up => push_upward_mark(text, radius, turn),
        Face::East => push_arrow(text, radius, 0),
        Face::South => push_arrow(text, radius, 90),
        Face::West => push_arrow(text, radius, 180),
        Face::North => push_arrow(text, radius, 270),
    }
}

/// Adds a lamp's circle and its number in it.
#[tactic(auto, unfolding(crate::specs::Things::lamp_circle))]
fn push_circle(text: &mut String, radius: u32, number: usize) -> Result<(), AllocError>
    ensures { IfOk result (λ _. string_bytes text.new ≡ string_bytes text.old ++ lamp_circle radius number) }
{
    let down = radius / 3;
    write!(
        text,
        "<circle class='lamp' r='{radius}'/><text class='lampname' font-size='{radius}' y='{down}'>{number}</text></g>\n"
    )
}

/// Adds lamp `number`: what is said of it, its rectangle, the mark of its aim, and its circle over them.
fn push_lamp(
    text: &mut String,
    edge: u32,
    radius: u32,
    number: usize,
    lamp: &Lamp,
) -> Result<(), AllocError>
    requires within { lamp.now.at.y ≤ edge }
    requires radius { radius ≤ 2500 }
    requires turn { lamp.now.turn ≤ 359 }
    ensures { IfOk result (λ _. string_bytes text.new ≡ string_bytes text.old ++ drawn_lamp edge radius number lamp.now) }
{
    let extent = lamp.aim.across(lamp.size_x, lamp.size_y, 0);
    push_lamp_head(text, edge, number, lamp)?;
    push_shine(text, extent.x, extent.y)?;
    push_aim_mark(text, radius, u32::from(lamp.turn), lamp.aim)?;
    push_circle(text, radius, number)?;
    Ok(())
}

/// The lamps of a room.
#[derive(Clone, Copy)]
pub struct Luminaires<'a> {
    pub room: &'a Room,
}

impl<'a> Pieces for Luminaires<'a> {
    ghost use Rattle.std.specs.Prelude.{◌<◌, length};
    ghost use Rattle.room_layout.specs.Accepted.{IsAccepted};
    ghost use Rattle.plan_drawing.specs.Things.{lamp};

    ghost has = { λ l k. IsAccepted l.room.now × (k < length l.room.now.lamps) };

    ghost piece = { λ l k. lamp l.room.now k };

    #[tactic(auto, unfolding(crate::specs::Things::lamp))]
    fn push_piece(&self, text: &mut String, index: usize) -> Result<(), AllocError> {
        let size = self.room.size;
        let radius = lamp_radius(&size, self.room.lamps.len());
        let lamp = self.room.lamps.as_slice()[index];
        push_lamp(text, size.y, radius, index, &lamp)
    }
}
