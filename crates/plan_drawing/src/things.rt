//! The boxes and the lamps on the plan of the things.
ghost use Rattle.std.specs.Prelude.{◌≡◌, ◌+◌, ◌^◌, ◌<◌, ◌≤◌, ◌++◌, IfOk, Some, length, slice_index_or, string_bytes};
ghost use Rattle.room_layout.specs.Accepted.{IsAccepted, IsBlockIn, IsLampIn};
ghost use Rattle.plan_drawing.specs.Things.{box_drawn, box_label, drawn_box, label_place, task_outline, thing};

use crate::metres::{Area, Metres};
use crate::pieces::Pieces;
use crate::sizes::{box_area, label_size, task_area, unit};
use room_layout::{Block, Room};
use std::alloc::AllocError;
use std::fmt;

/// Where the label of a box stands, with letters so high: in its lower left corner, along its longer side.
#[derive(Clone, Copy)]
struct LabelPlace {
    size: u32,
    area: Area,
    ghost x_within: { area.x + area.width + size < 2 ^ 31 },
    ghost y_within: { area.y + area.height < 2 ^ 31 },
}

impl fmt::Display for LabelPlace {
    ghost use Rattle.plan_drawing.specs.Things.{label_place};

    ghost output = { λ l. Some (label_place l.size l.area) };

    fn fmt<W: fmt::Write>(&self, f: &mut fmt::Formatter<W>) -> fmt::Result {
        let area = self.area;
        let margin = self.size / 3;
        let base = (area.y + area.height).saturating_sub(margin);
        if area.width < area.height {
            let x = area.x + self.size;
            write!(f, "translate({x} {base}) rotate(-90)")
        } else {
            let x = area.x + margin;
            write!(f, "translate({x} {base})")
        }
    }
}

/// Adds box `k` with this area, between these heights in millimetres.
#[tactic(auto, unfolding(crate::specs::Things::box_drawn))]
fn push_box_drawn(
    text: &mut String,
    k: usize,
    area: Area,
    low: u32,
    high: u32,
) -> Result<(), AllocError>
    ensures { IfOk result (λ _. string_bytes text.new ≡ string_bytes text.old ++ box_drawn k area low high) }
{
    let (low, high) = (Metres(low), Metres(high));
    write!(
        text,
        "<rect class='box' {area}><title>box {k}: from {low} to {high} m above the floor</title></rect>\n"
    )
}

/// Adds the label of a box: the height of its top in millimetres.
#[tactic(auto, unfolding(crate::specs::Things::box_label))]
fn push_box_label(text: &mut String, place: LabelPlace, high: u32) -> Result<(), AllocError>
    ensures { IfOk result (λ _. string_bytes text.new ≡ string_bytes text.old ++ box_label place.size place.area high) }
{
    let (size, high) = (place.size, Metres(high));
    write!(
        text,
        "<text class='boxname' font-size='{size}' transform='{place}'>{high}</text>\n"
    )
}

/// Adds box `k` and its label.
fn push_box(text: &mut String, room: &Room, k: usize, block: &Block) -> Result<(), AllocError>
    requires accepted { IsAccepted room.now }
    requires within { IsBlockIn room.now.size block.now }
    ensures { IfOk result (λ _. string_bytes text.new ≡ string_bytes text.old ++ drawn_box room.now k block.now) }
{
    let area = box_area(&room.size, block);
    let size = label_size(unit(&room.size), area);
    push_box_drawn(text, k, area, block.lo.z, block.hi.z)?;
    push_box_label(text, LabelPlace { size, area }, block.hi.z)
}

/// The boxes of a room.
#[derive(Clone, Copy)]
pub struct Boxes<'a> {
    pub room: &'a Room,
}

impl<'a> Pieces for Boxes<'a> {
    ghost use Rattle.std.specs.Prelude.{◌<◌, length};
    ghost use Rattle.room_layout.specs.Accepted.{IsAccepted};
    ghost use Rattle.plan_drawing.specs.Things.{thing};

    ghost has = { λ b k. IsAccepted b.room.now × (k < length b.room.now.blocks) };

    ghost piece = { λ b k. thing b.room.now k };

    #[tactic(auto, unfolding(crate::specs::Things::thing))]
    fn push_piece(&self, text: &mut String, index: usize) -> Result<(), AllocError> {
        let block = self.room.blocks.as_slice()[index];
        push_box(text, self.room, index, &block)
    }
}

/// Adds the outline of the task area.
#[tactic(auto, unfolding(crate::specs::Things::task_outline))]
pub fn push_task_outline(text: &mut String, room: &Room) -> Result<(), AllocError>
    requires accepted { IsAccepted room.now }
    ensures { IfOk result (λ _. string_bytes text.new ≡ string_bytes text.old ++ task_outline room.now) }
{
    let area = task_area(room);
    write!(text, "<rect class='task' {area}/>\n")
}
