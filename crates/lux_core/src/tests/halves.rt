//! A report whose rows are filled in two threads: each half of the patches and of the task points has a thread of its own.
ghost use Rattle.room_layout.specs.Accepted.{IsAccepted};

use super::shelf_of;
use crate::{Status, lux};
use fork_rows::{Gate, OpenGate};
use lux_io::MemSink;
use radiosity_solve::solve;
use room_layout::{Room, read_room};
use scene_system::assemble;
use series_enclose::TangentTable;
use std::alloc::Global;
use std::process::Abort;
use std::sync::atomic::{AtomicU64, Ordering};
use std::test::Fail;
use std::thread::Threads;

/// A channel of 672 patches with as many task points.
const CHANNEL: &str =
    "version = 1\n[room]\nsize = [10000, 1000, 1000]\nreflect = [700, 700, 700, 700, 700, 700]\npatch = 250\n[[lamp]]\nat = [5000, 500, 1000]\ncandela = 100\n[task]\nfrom = [0, 0]\nto = [10000, 1000]\nheight = 0\npoints = [32, 21]\n";

/// The first row of the second half.
const MIDDLE: usize = 336;

/// The most turns for which a row waits for the other.
const MOST_WAITS: u32 = 1 << 30;

/// Lets neither the first row nor the first of the second half go on before the other is entered, and counts both.
#[derive(Drop)]
struct Halves {
    first: AtomicU64,
    second: AtomicU64,
    misses: AtomicU64,
}

impl Halves {
    fn new() -> Halves {
        Halves {
            first: AtomicU64::new(0),
            second: AtomicU64::new(0),
            misses: AtomicU64::new(0),
        }
    }

    /// Counts this row, and waits until the other was entered as often. After a miss nothing is waited for.
    fn wait(&self, own: &AtomicU64, other: &AtomicU64) {
        let times = own.fetch_add(1, Ordering::SeqCst).wrapping_add(1);
        for _ in 0..MOST_WAITS {
            if other.load(Ordering::SeqCst) >= times || self.misses.load(Ordering::SeqCst) > 0 {
                return;
            }
        }
        self.misses.fetch_add(1, Ordering::SeqCst);
    }

    /// How often both rows met; nothing where one of them missed the other.
    fn meetings(&self) -> Option<u64> {
        let first = self.first.load(Ordering::SeqCst);
        let second = self.second.load(Ordering::SeqCst);
        if self.misses.load(Ordering::SeqCst) > 0 || first != second {
            return None;
        }
        Some(first)
    }
}

impl Gate for Halves {
    fn enter(&self, index: usize) {
        if index == 0 {
            self.wait(&self.first, &self.second);
        } else if index == MIDDLE {
            self.wait(&self.second, &self.first);
        }
    }
}

/// How often both rows meet in the turns of the solver alone.
fn meetings_of_turns(rt: &(impl Threads + Sync), alloc: Global, room: &Room) -> Result<u64, Fail>
    requires { IsAccepted room.now }
{
    if room.files.len() != 0 {
        return Err(Fail::from("a room without files"));
    }
    let sines = TangentTable::build(alloc)?;
    let Ok(scene) = assemble(rt, alloc, &sines, room, &[], &OpenGate) else {
        return Err(Fail::from("a scene"));
    };
    let gate = Halves::new();
    let Ok(_bounds) = solve(rt, alloc, &scene.system, &gate) else {
        return Err(Fail::from("bounds"));
    };
    Ok(gate.meetings().ok_or("a miss")?)
}

/// How often they meet in a whole report.
fn meetings_of_report(rt: &(impl Abort + Threads + Sync), alloc: Global) -> Result<u64, Fail> {
    let mut words = Vec::new(alloc);
    for word in ["report", "room.toml"] {
        words.push(String::from_str(alloc, word)?)?;
    }
    let mut shelf = shelf_of(alloc, CHANNEL, &[])?;
    let mut out = MemSink::new(alloc, 100_000, &[]).ok().ok_or("memory")?;
    let gate = Halves::new();
    let answer = lux(rt, alloc, words.as_slice(), &mut shelf, &mut out, &gate);
    assert!(rt; answer == Status::Done);
    Ok(gate.meetings().ok_or("a miss")?)
}

/// The rows of the two lists of weights and of the two lists of direct light meet once each, and besides those of the solver as often as
/// when it runs alone.
#[test]
fn both_halves_of_a_report_meet_in_each_fill(rt: HostRuntime) -> Result<(), Fail> {
    let alloc = rt.alloc();
    let Ok(room) = read_room(alloc, CHANNEL.as_bytes()) else {
        return Err(Fail::from("a room"));
    };
    let turns = meetings_of_turns(&rt, alloc, &room)?;
    assert!(rt; turns >= 10);
    assert_eq!(rt; meetings_of_report(&rt, alloc)?, turns.wrapping_add(4));
    Ok(())
}
