//! The table of a room's lamps.
ghost use Rattle.std.specs.Prelude.{◌≡◌, ◌++◌, ◌<◌, IfOk, Some, codes, decimal, length, string_bytes};
ghost use Rattle.room_layout.specs.Accepted.{IsAccepted, IsShine};
ghost use Rattle.plan_drawing.specs.Pieces.{first};
ghost use Rattle.report_page.specs.Escaped.{escaped};
ghost use Rattle.report_page.specs.Lamps.{aim_text, fitting_cells, lamp_begin, lamp_end, lamp_row, lamp_table, lamps_told, parts_text, place_cells, row_of_lamp, shine_text, size_text};

use crate::escape::push_escaped;
use crate::fixed::{push_fixed, push_table_end};
use decimal_text::Thousandths;
use plan_drawing::{Metres, Pieces, push_pieces};
use room_layout::{Face, Lamp, Room, Shine, Size};
use std::alloc::AllocError;
use std::fmt;

/// A place as three cells.
#[derive(Clone, Copy)]
struct Place(Size);

impl fmt::Display for Place {
    ghost output = { λ p. Some (place_cells p.0) };

    fn fmt<W: fmt::Write>(&self, f: &mut fmt::Formatter<W>) -> fmt::Result {
        write!(
            f,
            "<td>{}</td><td>{}</td><td>{}</td>",
            Metres(self.0.x),
            Metres(self.0.y),
            Metres(self.0.z)
        )
    }
}

/// The way in which gamma 0 leads.
#[derive(Clone, Copy)]
struct Aim(Face);

impl fmt::Display for Aim {
    ghost output = { λ a. Some (aim_text a.0) };

    fn fmt<W: fmt::Write>(&self, f: &mut fmt::Formatter<W>) -> fmt::Result {
        match self.0 {
            Face::Down => write!(f, "-z, down"),
            Face::Up => write!(f, "+z, up"),
            Face::East => write!(f, "+x"),
            Face::West => write!(f, "-x"),
            Face::North => write!(f, "+y"),
            Face::South => write!(f, "-y"),
        }
    }
}

/// Two edges in millimetres.
#[derive(Clone, Copy)]
struct Edges(u32, u32);

impl fmt::Display for Edges {
    ghost output = { λ e. Some (size_text e.0 e.1) };

    fn fmt<W: fmt::Write>(&self, f: &mut fmt::Formatter<W>) -> fmt::Result {
        write!(f, "{} by {}", Metres(self.0), Metres(self.1))
    }
}

/// Into how many parts two edges are cut.
#[derive(Clone, Copy)]
struct Parts(u32, u32);

impl fmt::Display for Parts {
    ghost output = { λ p. Some (parts_text p.0 p.1) };

    fn fmt<W: fmt::Write>(&self, f: &mut fmt::Formatter<W>) -> fmt::Result {
        write!(f, "{} by {}", self.0, self.1)
    }
}

/// How a lamp is put up.
#[derive(Clone, Copy)]
struct Fitting(Lamp);

impl fmt::Display for Fitting {
    ghost output = { λ l. Some (fitting_cells l.0) };

    fn fmt<W: fmt::Write>(&self, f: &mut fmt::Formatter<W>) -> fmt::Result {
        let lamp = self.0;
        write!(
            f,
            "<td>{}</td><td>{}&#176;</td><td>{}</td><td>{}</td><td>{}</td>",
            Aim(lamp.aim),
            lamp.turn,
            Edges(lamp.size_x, lamp.size_y),
            Parts(lamp.split_x, lamp.split_y),
            Thousandths(u128::from(lamp.maintenance))
        )
    }
}

/// Adds a file and which of its lamp sets.
fn push_use(text: &mut String, name: &str, set: u32) -> Result<(), AllocError>
    ensures { IfOk result (λ _. string_bytes text.new ≡ string_bytes text.old ++ (escaped name.now ++ (codes ", set " ++ decimal set))) }
{
    push_escaped(text, name)?;
    write!(text, ", set {set}")
}

/// Adds how a lamp shines.
#[tactic(auto, unfolding(crate::specs::Lamps::shine_text))]
fn push_shine(text: &mut String, room: &Room, shine: Shine) -> Result<(), AllocError>
    requires shine { IsShine (length room.now.files) shine }
    ensures { IfOk result (λ _. string_bytes text.new ≡ string_bytes text.old ++ shine_text room.now shine) }
{
    match shine {
        Shine::Even(candela) => write!(text, "{candela} cd in all directions"),
        Shine::File(index) => {
            let file = &room.files.as_slice()[index as usize];
            push_use(text, file.name.text(), file.set)
        }
    }
}

/// The rows of a room's lamps.
#[derive(Clone, Copy)]
struct LampRows<'a> {
    room: &'a Room,
}

impl<'a> Pieces for LampRows<'a> {
    ghost has = { λ rows k. IsAccepted rows.room.now × k < length rows.room.now.lamps };

    ghost piece = { λ rows k. lamp_row rows.room.now k };

    fn push_piece(&self, text: &mut String, index: usize) -> Result<(), AllocError> {
        let lamp = self.room.lamps.as_slice()[index];
        push_lamp(text, self.room, index, lamp)
    }
}

/// Adds the beginning of a lamp's row.
#[tactic(auto, unfolding(crate::specs::Lamps::lamp_begin))]
fn push_begin(text: &mut String, index: usize, at: Size) -> Result<(), AllocError>
    ensures { IfOk result (λ _. string_bytes text.new ≡ string_bytes text.old ++ lamp_begin index at) }
{
    write!(text, "<tr><td>{index}</td>{}<td class='name'>", Place(at))
}

/// Adds the end of a lamp's row.
#[tactic(auto, unfolding(crate::specs::Lamps::lamp_end))]
fn push_end(text: &mut String, lamp: Lamp) -> Result<(), AllocError>
    ensures { IfOk result (λ _. string_bytes text.new ≡ string_bytes text.old ++ lamp_end lamp) }
{
    write!(text, "</td>{}</tr>\n", Fitting(lamp))
}

/// Adds the row of a lamp.
#[tactic(auto, using(plan_drawing::proofs::Growth::after), unfolding(crate::specs::Lamps::row_of_lamp))]
fn push_lamp(text: &mut String, room: &Room, index: usize, lamp: Lamp) -> Result<(), AllocError>
    requires shine { IsShine (length room.now.files) lamp.shine }
    ensures { IfOk result (λ _. string_bytes text.new ≡ string_bytes text.old ++ row_of_lamp room.now index lamp) }
{
    push_begin(text, index, lamp.at)?;
    push_shine(text, room, lamp.shine)?;
    push_end(text, lamp)
}

/// Adds the rows of all lamps.
fn push_rows(text: &mut String, room: &Room) -> Result<(), AllocError>
    requires accepted { IsAccepted room.now }
    ensures { IfOk result (λ _. string_bytes text.new ≡ string_bytes text.old ++ first (length room.now.lamps) (lamp_row room.now)) }
{
    let count = room.lamps.len();
    push_pieces(text, &LampRows { room }, count)
}

/// Adds the table of the lamps.
#[tactic(auto, using(plan_drawing::proofs::Growth::after), unfolding(crate::specs::Lamps::lamp_table))]
fn push_table(text: &mut String, room: &Room) -> Result<(), AllocError>
    requires accepted { IsAccepted room.now }
    ensures { IfOk result (λ _. string_bytes text.new ≡ string_bytes text.old ++ lamp_table room.now) }
{
    push_fixed(
        text,
        "<h2>Lamps</h2>\n<div class='scroll'><table>\n<thead><tr><th>Lamp</th><th>x, m</th><th>y, m</th><th>z, m</th><th>Shines by</th><th>Aim</th><th>Turn</th><th>Size, m</th><th>Parts</th><th>Maintenance</th></tr></thead>\n<tbody>\n",
    )?;
    push_rows(text, room)?;
    push_table_end(text)?;
    Ok(())
}

/// Adds the table of the lamps, where there are any.
pub(crate) fn push_lamps(text: &mut String, room: &Room) -> Result<(), AllocError>
    requires accepted { IsAccepted room.now }
    ensures { IfOk result (λ _. string_bytes text.new ≡ string_bytes text.old ++ lamps_told room.now) }
{
    if room.lamps.len() == 0 {
        return Ok(());
    }
    push_table(text, room)
}
