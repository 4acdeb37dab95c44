//! The text of a room that is made for a number.
ghost use Rattle.std.specs.Prelude.{◌≡◌, ◌++◌, ◌<◌, ◌≤◌, IfOk, string_bytes};
ghost use Rattle.room_make.specs.Room.{box_count, box_text, edge_x, edge_y, head_text, lamp_columns, lamp_row_text, lamp_rows, lamp_text, middle_of, pieces, room_text, task_text};

use crate::numbers::{Pair, Triple};
use fx_base::Memory;
use std::alloc::Global;

/// The room's edge along x, in millimetres.
fn edge_x(n: u32) -> u32
    requires most { n ≤ 40 }
    ensures { result ≡ edge_x n }
{
    2000 + 200 * n
}

/// The room's edge along y, in millimetres.
fn edge_y(n: u32) -> u32
    requires most { n ≤ 40 }
    ensures { result ≡ edge_y n }
{
    2000 + 150 * n
}

/// How many lamps there are along x.
fn lamp_columns(n: u32) -> u32
    requires most { n ≤ 40 }
    ensures { result ≡ lamp_columns n }
{
    1 + n / 10
}

/// How many lamps there are along y.
fn lamp_rows(n: u32) -> u32
    requires most { n ≤ 40 }
    ensures { result ≡ lamp_rows n }
{
    1 + n / 20
}

/// The middle of a part of an edge that is cut into equal parts, by the part's number from 0; in millimetres.
fn middle_of(edge: u32, parts: u32, number: u32) -> u32
    requires edge { edge ≤ 10000 }
    requires parts { 0 < parts }
    requires few { parts ≤ 10 }
    requires number { number < parts }
    ensures { result ≡ middle_of edge parts number }
{
    (2 * number + 1) * edge / (2 * parts)
}

/// The version, the room's size, its reflectances and the longest edge of a patch.
fn head_text(alloc: Global, n: u32) -> Result<String, Memory>
    requires most { n ≤ 40 }
    ensures { IfOk result (λ s. string_bytes s ≡ head_text n) }
{
    let size = Triple(edge_x(n), edge_y(n), 2500);
    let text = format!(in alloc;
        "version = 1\n[room]\nsize = {size}\nreflect = [200, 500, 400, 400, 300, 300]\npatch = 500\n"
    )?;
    Ok(text)
}

/// The text with a box after it, by the box's number from 0.
fn with_box(mut text: String, number: u32) -> Result<String, Memory>
    requires { number < 10 }
    ensures { IfOk result (λ s. string_bytes s ≡ string_bytes text ++ box_text number) }
{
    let lo = Triple(300 + 800 * number, 400, 0);
    let hi = Triple(800 + 800 * number, 1000, 700);
    write!(text, "[[box]]\nlo = {lo}\nhi = {hi}\nreflect = 300\n")?;
    Ok(text)
}

/// The text with the boxes after it, in a row along x.
#[tactic(auto, using(crate::proofs::Pieces::no_pieces, crate::proofs::Pieces::one_piece_more))]
fn with_boxes(mut text: String, n: u32) -> Result<String, Memory>
    requires most { n ≤ 40 }
    ensures { IfOk result (λ s. string_bytes s ≡ string_bytes text ++ pieces box_text (box_count n)) }
{
    for number in 0..n / 4 {
        text = with_box(text, number)?;
    }
    Ok(text)
}

/// The text with a lamp after it, by the lamp's row and column from 0.
fn with_lamp(mut text: String, n: u32, row: u32, column: u32) -> Result<String, Memory>
    requires most { n ≤ 40 }
    requires row { row < lamp_rows n }
    requires column { column < lamp_columns n }
    ensures { IfOk result (λ s. string_bytes s ≡ string_bytes text ++ lamp_text n row column) }
{
    let x = middle_of(edge_x(n), lamp_columns(n), column);
    let y = middle_of(edge_y(n), lamp_rows(n), row);
    let at = Triple(x, y, 2500);
    write!(text, "[[lamp]]\nat = {at}\ncandela = 400\n")?;
    Ok(text)
}

/// The text with a row of lamps after it.
#[tactic(auto, using(crate::proofs::Pieces::no_pieces, crate::proofs::Pieces::one_piece_more))]
fn with_lamp_row(mut text: String, n: u32, row: u32) -> Result<String, Memory>
    requires most { n ≤ 40 }
    requires row { row < lamp_rows n }
    ensures { IfOk result (λ s. string_bytes s ≡ string_bytes text ++ lamp_row_text n row) }
{
    for column in 0..lamp_columns(n) {
        text = with_lamp(text, n, row, column)?;
    }
    Ok(text)
}

/// The text with all lamps after it, row by row.
#[tactic(auto, using(crate::proofs::Pieces::no_pieces, crate::proofs::Pieces::one_piece_more))]
fn with_lamps(mut text: String, n: u32) -> Result<String, Memory>
    requires most { n ≤ 40 }
    ensures { IfOk result (λ s. string_bytes s ≡ string_bytes text ++ pieces (lamp_row_text n) (lamp_rows n)) }
{
    for row in 0..lamp_rows(n) {
        text = with_lamp_row(text, n, row)?;
    }
    Ok(text)
}

/// The text with the task after it.
fn with_task(mut text: String, n: u32) -> Result<String, Memory>
    requires most { n ≤ 40 }
    ensures { IfOk result (λ s. string_bytes s ≡ string_bytes text ++ task_text n) }
{
    let from = Pair(200, 200);
    let to = Pair(edge_x(n) - 200, edge_y(n) - 200);
    let points = Pair(2 + n / 4, 2 + n / 5);
    write!(
        text,
        "[task]\nfrom = {from}\nto = {to}\nheight = 800\npoints = {points}\n"
    )?;
    Ok(text)
}

/// The layout of the room for a number n from 1 to 40. It is 2000 + 200n by 2000 + 150n by 2500 millimetres, and has n/4 boxes in a
/// row, 1 + n/10 by 1 + n/20 even lamps of 400 candela under the ceiling, each in the middle of its part, and a task grid of 2 + n/4 by
/// 2 + n/5 points; each quotient is whole.
pub fn make_room(alloc: Global, n: u32) -> Result<Vec<u8>, Memory>
    requires from_one { 1 ≤ n }
    requires most { n ≤ 40 }
    ensures text { IfOk result (λ v. v.items ≡ room_text n) }
{
    let head = head_text(alloc, n)?;
    let furnished = with_boxes(head, n)?;
    let lit = with_lamps(furnished, n)?;
    let text = with_task(lit, n)?;
    Ok(text.into_bytes())
}
