//! Rows that meet in two threads, and fills of few and of many rows.
ghost use Rattle.std.specs.Prelude.{◌≡◌, ℕ, ◌+◌, ◌*◌, ◌%◌, ◌^◌, ◌<◌, ◌≤◌, IfOk, length};

use crate::{Gate, OpenGate, RowJob, fill_rows};
use std::alloc::{AllocError, Global};
use std::sync::atomic::{AtomicU64, Ordering};
use std::test::Fail;

/// The most turns for which a row waits for the other.
const MOST_WAITS: u32 = 1 << 30;

/// Lets neither of two rows go on before the other is entered, and counts both.
#[derive(Drop)]
struct Meeting {
    rows: (usize, usize),
    entered: (AtomicU64, AtomicU64),
    misses: AtomicU64,
}

impl Meeting {
    fn of(first: usize, second: usize) -> Meeting {
        Meeting {
            rows: (first, second),
            entered: (AtomicU64::new(0), AtomicU64::new(0)),
            misses: AtomicU64::new(0),
        }
    }

    /// Counts this row, and waits until the other was entered as often. After a miss nothing is waited for.
    fn wait(&self, own: &AtomicU64, other: &AtomicU64) {
        let times = own.fetch_add(1, Ordering::SeqCst).wrapping_add(1);
        for _ in 0..MOST_WAITS {
            if other.load(Ordering::SeqCst) >= times || self.misses.load(Ordering::SeqCst) > 0 {
                return;
            }
        }
        self.misses.fetch_add(1, Ordering::SeqCst);
    }
}

impl Gate for Meeting {
    fn enter(&self, index: usize) {
        if index == self.rows.0 {
            self.wait(&self.entered.0, &self.entered.1);
        } else if index == self.rows.1 {
            self.wait(&self.entered.1, &self.entered.0);
        }
    }
}

/// Counts the rows that are entered, and adds up their indices.
#[derive(Drop)]
struct Count {
    rows: AtomicU64,
    indices: AtomicU64,
}

impl Count {
    fn new() -> Count {
        Count {
            rows: AtomicU64::new(0),
            indices: AtomicU64::new(0),
        }
    }
}

impl Gate for Count {
    fn enter(&self, index: usize) {
        self.rows.fetch_add(1, Ordering::SeqCst);
        self.indices.fetch_add(index as u64, Ordering::SeqCst);
    }
}

/// Adds the square of its index to each row.
#[derive(Drop)]
struct AddSquare;

impl RowJob<u64> for AddSquare {
    ghost use Rattle.std.specs.Prelude.{◌≡◌, ◌+◌, ◌*◌, ◌%◌, ◌^◌, ◌<◌};

    ghost takes = { λ _ index _. index < 2 ^ 32 };

    ghost makes = { λ _ index old new. new ≡ (old + index * index) % 2 ^ 64 };

    fn run(&self, index: usize, row: &mut u64) {
        *row = row.wrapping_add((index * index) as u64);
    }
}

/// Row i is 7 i + 3, for so many rows.
fn rows_of(alloc: Global, count: u16) -> Result<Vec<u64>, AllocError>
    ensures { IfOk result (λ rows. length rows.items < 2 ^ 32) }
{
    let mut rows = Vec::new(alloc);
    for i in 0..count {
        rows.push(7 * i as u64 + 3)?;
    }
    Ok(rows)
}

/// The sum of i + 1 times row i, which changes where two rows change places.
fn weighed(rows: &[u64]) -> u64 {
    let mut sum = 0u64;
    for i in 0..rows.len() {
        sum = sum.wrapping_add(rows[i].wrapping_mul(i as u64).wrapping_add(rows[i]));
    }
    sum
}

#[test]
fn two_rows_meet(rt: HostRuntime) {
    let gate = Meeting::of(0, 1);
    let mut rows = [5u64, 6];
    fill_rows(&rt, &mut rows, &AddSquare, &gate, 1);
    assert_eq!(rt; rows, [5, 7]);
    assert_eq!(rt; gate.misses.load(Ordering::SeqCst), 0);
    assert_eq!(rt; gate.entered.0.load(Ordering::SeqCst), 1);
    assert_eq!(rt; gate.entered.1.load(Ordering::SeqCst), 1);
}

// Python: rows = [7 * i + 3 + i * i for i in range(n)]; sum((i + 1) * row for i, row in enumerate(rows)), sum(range(n))
#[test]
fn each_row_is_entered_and_filled_once(rt: HostRuntime) -> Result<(), Fail> {
    for (count, weight, indices) in [
        (0u16, 0, 0),
        (1, 3, 0),
        (2, 25, 1),
        (3, 88, 3),
        (64, 4_767_360, 2016),
        (65, 5_062_915, 2080),
    ] {
        for grain in [1usize, 2, 64] {
            let gate = Count::new();
            let mut rows = rows_of(rt.alloc(), count)?;
            fill_rows(&rt, rows.as_mut_slice(), &AddSquare, &gate, grain);
            assert_eq!(rt; weighed(rows.as_slice()), weight, "{count} rows by {grain}");
            assert_eq!(rt; gate.rows.load(Ordering::SeqCst), count as u64);
            assert_eq!(rt; gate.indices.load(Ordering::SeqCst), indices);
        }
    }
    Ok(())
}

#[test]
fn an_open_gate_holds_no_row(rt: HostRuntime) {
    let mut rows = [4u64, 4, 4];
    fill_rows(&rt, &mut rows, &AddSquare, &OpenGate, 2);
    assert_eq!(rt; rows, [4, 5, 8]);
}
