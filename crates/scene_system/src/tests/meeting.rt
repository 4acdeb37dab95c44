//! Each of the four fills is made by more than one thread: two of its rows wait for one another.
ghost use Rattle.room_layout.specs.Accepted.{IsAccepted, IsLampIn};
ghost use Rattle.std.specs.Prelude.{◌≡◌, All, IfOk, length};

use crate::assemble;
use fork_rows::Gate;
use room_layout::{
    Blocks, Face, FileUses, Lamp, Lamps, Limits, Reflects, Room, Shine, Size, TaskGrid,
};
use series_enclose::TangentTable;
use std::alloc::{AllocError, Global};
use std::sync::atomic::{AtomicU64, Ordering};
use std::test::Fail;

/// The most turns for which a row waits for the other.
const MOST_WAITS: u32 = 1 << 30;

/// Lets neither of two rows go on before the other is entered as often, and counts both.
#[derive(Drop)]
struct Meeting {
    rows: (usize, usize),
    entered: (AtomicU64, AtomicU64),
    misses: AtomicU64,
}

impl Meeting {
    fn of(first: usize, second: usize) -> Meeting {
        Meeting {
            rows: (first, second),
            entered: (AtomicU64::new(0), AtomicU64::new(0)),
            misses: AtomicU64::new(0),
        }
    }

    /// Counts this row, and waits until the other was entered as often. After a miss nothing is waited for.
    fn wait(&self, own: &AtomicU64, other: &AtomicU64) {
        let times = own.fetch_add(1, Ordering::SeqCst).wrapping_add(1);
        for _ in 0..MOST_WAITS {
            if other.load(Ordering::SeqCst) >= times || self.misses.load(Ordering::SeqCst) > 0 {
                return;
            }
        }
        self.misses.fetch_add(1, Ordering::SeqCst);
    }
}

impl Gate for Meeting {
    fn enter(&self, index: usize) {
        if index == self.rows.0 {
            self.wait(&self.entered.0, &self.entered.1);
        } else if index == self.rows.1 {
            self.wait(&self.entered.1, &self.entered.0);
        }
    }
}

/// A channel of 10 m by 1 m by 1 m, cut into patches of 250 mm and with 32 by 21 task points on its floor, with a lamp of 100 cd in the
/// middle of its ceiling.
#[tactic(auto, unfolding(room_layout::specs::Across::across))]
fn channel(alloc: Global) -> Result<Room, AllocError>
    ensures accepted { IfOk result (λ room. IsAccepted room) }
    ensures files { IfOk result (λ room. length room.files ≡ 0) }
{
    let lamp = Lamp {
        at: Size {
            x: 5000,
            y: 500,
            z: 1000,
        },
        shine: Shine::Even(100),
        turn: 0,
        maintenance: 1000,
        size_x: 0,
        size_y: 0,
        split_x: 1,
        split_y: 1,
        aim: Face::Down,
    };
    Ok(Room {
        size: Size {
            x: 10_000,
            y: 1000,
            z: 1000,
        },
        reflect: Reflects {
            floor: 700,
            ceiling: 700,
            x0: 700,
            x1: 700,
            y0: 700,
            y1: 700,
        },
        patch: 250,
        blocks: Blocks::from_vec(Vec::new(alloc)),
        lamps: Lamps::from_vec(vec![in alloc; lamp]?),
        files: FileUses::from_vec(Vec::new(alloc)),
        task: TaskGrid {
            from_x: 0,
            from_y: 0,
            to_x: 10_000,
            to_y: 1000,
            height: 0,
            nx: 32,
            ny: 21,
        },
        limits: Limits {
            average: None,
            uniformity: None,
        },
    })
}

#[test]
fn two_rows_of_each_fill_meet(rt: HostRuntime) -> Result<(), Fail> {
    let alloc = rt.alloc();
    let room = channel(alloc)?;
    let table = TangentTable::build(alloc)?;
    let gate = Meeting::of(0, 336);
    let scene = assemble(&rt, alloc, &table, &room, &[], &gate)
        .ok()
        .ok_or("scene")?;
    assert_eq!(rt; scene.patches.len(), 672);
    assert_eq!(rt; scene.points.len(), 672);
    assert_eq!(rt; gate.misses.load(Ordering::SeqCst), 0);
    assert_eq!(rt; gate.entered.0.load(Ordering::SeqCst), 4);
    assert_eq!(rt; gate.entered.1.load(Ordering::SeqCst), 4);
    Ok(())
}
