//! The page that is written is that of the room's report.
ghost use Rattle.room_layout.specs.Accepted.{IsAccepted};

use super::shelf_of;
use crate::scene::served_scene;
use crate::{Status, lux_page};
use fork_rows::OpenGate;
use grid_report::{points, report};
use lux_io::MemSink;
use radiosity_solve::solve;
use report_page::page_text;
use room_layout::{Room, read_room};
use std::alloc::Global;
use std::test::Fail;
use std::thread::Threads;

/// 5100 / 9 and 5100 * 3 / 18^1.5 = 200.3469.. lux, which is less than the limit of 400 lux on average.
const UNEVEN: &str =
    "version = 1\n[room]\nsize = [6000, 6000, 3000]\n[[lamp]]\nat = [1500, 3000, 3000]\ncandela = 5100\n[task]\nfrom = [0, 0]\nto = [6000, 6000]\nheight = 0\npoints = [2, 1]\n[limits]\naverage_millilux = 400000\n";

/// The page of a room without lamps' files, by its scene, its bounds, its values and its report.
fn page_of(
    rt: &(impl Threads + Sync),
    alloc: Global,
    name: &str,
    room: &Room,
) -> Result<String, Fail>
    requires { IsAccepted room.now }
{
    if room.files.len() != 0 {
        return Err(Fail::from("a room without files"));
    }
    let Ok(scene) = served_scene(rt, alloc, room, &[], &OpenGate) else {
        return Err(Fail::from("a scene"));
    };
    let Ok(bounds) = solve(rt, alloc, &scene.system, &OpenGate) else {
        return Err(Fail::from("bounds"));
    };
    let values = points(alloc, &scene, &bounds).ok().ok_or("memory")?;
    let report = report(alloc, room.task.nx, values.as_slice())
        .ok()
        .ok_or("memory")?;
    let patches = scene.patches.len();
    let page = page_text(alloc, name, room, &[], patches, &report)
        .ok()
        .ok_or("memory")?;
    Ok(page)
}

#[test]
fn a_page_is_that_of_the_rooms_report(rt: HostRuntime) -> Result<(), Fail> {
    let alloc = rt.alloc();
    let Ok(room) = read_room(alloc, UNEVEN.as_bytes()) else {
        return Err(Fail::from("a room"));
    };
    let page = page_of(&rt, alloc, "room.toml", &room)?;
    let mut words = Vec::new(alloc);
    words.push(String::from_str(alloc, "room.toml")?)?;
    let mut shelf = shelf_of(alloc, UNEVEN, &[])?;
    let mut out = MemSink::new(alloc, 1_000_000, &[]).ok().ok_or("memory")?;
    let answer = lux_page(
        &rt,
        alloc,
        words.as_slice(),
        &mut shelf,
        &mut out,
        &OpenGate,
    );
    assert!(rt; answer == Status::Missed, "{answer:?}");
    assert!(rt; out.bytes() == page.as_bytes());
    Ok(())
}
