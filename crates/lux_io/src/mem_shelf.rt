//! A shelf in memory, for tests: its files are told, and chosen calls fail.
ghost use Rattle.std.specs.Prelude.{◌≡◌, ◌≢◌, ◌↔◌, ◌+◌, ◌-◌, ◌^◌, ◌<◌, ◌≤◌, [], true, false, min, Some, length, Contains, IfOk, OnOk, OnErr, IsErr, map, position};
ghost use Rattle.std.specs.Str.{bytes_eq};
ghost use Rattle.std.specs.String.{string_bytes};
ghost use Rattle.lux_io.specs.Files.{bytes_of, Counted, HasCause, Puts, ReadsNext, one_more};
ghost use Rattle.lux_io.specs.MemShelf.{named};

use crate::count::{count_one, next_call_fails};
use crate::{OpenFault, ReadFailed, Shelf};
use fx_base::Memory;
use std::alloc::Global;

#[derive(Drop)]
struct Stored {
    name: String,
    bytes: Vec<u8>,
}

/// Files in memory. It tells them. Its calls of `open` and `read` are numbered together from 0, and those with a number in
/// a list fail.
#[derive(Drop)]
pub struct MemShelf {
    alloc: Global,
    files: Vec<Stored>,
    failing: Vec<u64>,
    // The place of the open file. None is open where there is no file at this place.
    at: usize,
    taken: usize,
    calls: u64,
    faults: u64,
    absences: u64,
}

impl MemShelf {
    ghost use Rattle.lux_io.specs.MemShelf.{IsSameShelf, shelf_files, shelf_is_open, shelf_failing, shelf_calls, shelf_faults, shelf_absences};

    /// A shelf without files, whose calls with these numbers fail.
    pub fn new(alloc: Global, failing: &[u64]) -> Result<MemShelf, Memory>
        ensures files { IfOk result (λ shelf. shelf_files shelf ≡ []) }
        ensures closed { IfOk result (λ shelf. shelf_is_open shelf ≡ false) }
        ensures failing { IfOk result (λ shelf. shelf_failing shelf ≡ failing.now) }
        ensures calls { IfOk result (λ shelf. shelf_calls shelf ≡ 0) }
        ensures faults { IfOk result (λ shelf. shelf_faults shelf ≡ 0) }
        ensures absences { IfOk result (λ shelf. shelf_absences shelf ≡ 0) }
    {
        let failing = Vec::from_slice(alloc, failing)?;
        Ok(MemShelf {
            alloc,
            files: Vec::new(alloc),
            failing,
            at: 0,
            taken: 0,
            calls: 0,
            faults: 0,
            absences: 0,
        })
    }

    /// Puts a file under this name, in place of one that is there. Afterwards no file is open; but where no memory is left the
    /// shelf is as before.
    pub fn add(&mut self, name: &str, bytes: &[u8]) -> Result<(), Memory>
        ensures put { OnOk result (Puts (shelf_files self.old) (shelf_files self.new) name.now bytes.now) }
        ensures closed { OnOk result (shelf_is_open self.new ≡ false) }
        ensures as_before { OnErr result (IsSameShelf self.old self.new) }
        ensures failing { shelf_failing self.new ≡ shelf_failing self.old }
        ensures calls { shelf_calls self.new ≡ shelf_calls self.old }
        ensures faults { shelf_faults self.new ≡ shelf_faults self.old }
        ensures absences { shelf_absences self.new ≡ shelf_absences self.old }
    {
        put_file(self.alloc, &mut self.files, name, bytes)?;
        self.at = self.files.len();
        Ok(())
    }
}

/// The place of the first file of this name.
fn place_of(files: &[Stored], name: &str) -> Option<usize>
    ensures { result ≡ position (λ stored. bytes_eq (string_bytes stored.name) name.now) files.now }
{
    files.iter().position(|stored| stored.name.as_str() == name)
}

/// Puts a file under this name, in the place of the one that has it or after all others.
fn put_file(alloc: Global, files: &mut Vec<Stored>, name: &str, bytes: &[u8]) -> Result<(), Memory>
    ensures put { OnOk result (Puts (map named files.old.items) (map named files.new.items) name.now bytes.now) }
    ensures as_before { OnErr result (files.new.items ≡ files.old.items) }
{
    let bytes = Vec::from_slice(alloc, bytes)?;
    match place_of(files, name) {
        Some(place) => {
            files[place].bytes = bytes;
            Ok(())
        }
        None => {
            let name = String::from_str(alloc, name)?;
            files.push(Stored { name, bytes })?;
            Ok(())
        }
    }
}

/// Copies the bytes after the first `taken` of a file into the front of the piece, as many as there are and as fit.
fn copy_next(file: &[u8], taken: usize, piece: &mut [u8]) -> usize
    ensures bound { result ≤ length piece.new }
    ensures next { ReadsNext file.now taken piece.new result }
{
    if file.len() <= taken {
        return 0;
    }
    let rest = &file[taken..];
    let count = rest.len().min(piece.len());
    piece[..count].copy_from_slice(&rest[..count]);
    count
}

impl Shelf for MemShelf {
    ghost use Rattle.lux_io.specs.MemShelf.{shelf_files, shelf_is_open, shelf_file, shelf_taken, shelf_failing, shelf_calls, shelf_faults, shelf_absences};

    ghost files = { λ shelf. Some (shelf_files shelf) };

    ghost is_open = { λ shelf. shelf_is_open shelf };

    ghost file = { λ shelf. shelf_file shelf };

    ghost taken = { λ shelf. shelf_taken shelf };

    ghost faults = { λ shelf. shelf_faults shelf };

    ghost absences = { λ shelf. shelf_absences shelf };

    fn open(&mut self, name: &str) -> Result<(), OpenFault>
        ensures files { shelf_files self.new ≡ shelf_files self.old }
        ensures opened { OnOk result (shelf_is_open self.new ≡ true) }
        ensures taken { shelf_taken self.new ≡ 0 }
        ensures told { OnOk result (bytes_of name.now (shelf_files self.old) ≡ Some (shelf_file self.new)) }
        ensures closed { OnErr result (shelf_is_open self.new ≡ false) }

        ensures absent { result ≡ Err OpenFault.Absent → bytes_of name.now (shelf_files self.old) ≡ None }
        ensures absences { Counted (shelf_absences self.old) (shelf_absences self.new) (result ≡ Err OpenFault.Absent) }

        // It fails exactly where the call's number is in the list.
        ensures fails { (result ≡ Err OpenFault.Failed) ↔ Contains (shelf_failing self.old) (shelf_calls self.old) }
        ensures faults { Counted (shelf_faults self.old) (shelf_faults self.new) (result ≡ Err OpenFault.Failed) }
        ensures failing { shelf_failing self.new ≡ shelf_failing self.old }
        ensures calls { shelf_calls self.new ≡ one_more (shelf_calls self.old) }
    {
        self.at = self.files.len();
        self.taken = 0;
        if next_call_fails(&self.failing, &mut self.calls) {
            count_one(&mut self.faults);
            return Err(OpenFault::Failed);
        }
        match place_of(&self.files, name) {
            Some(place) => {
                self.at = place;
                Ok(())
            }
            None => {
                count_one(&mut self.absences);
                Err(OpenFault::Absent)
            }
        }
    }

    fn read(&mut self, piece: &mut [u8]) -> Result<usize, ReadFailed>
        requires open { shelf_is_open self.old ≡ true }
        requires taken { shelf_taken self.old < 2 ^ 32 }
        requires piece { length piece.old ≤ 65536 }
        ensures files { shelf_files self.new ≡ shelf_files self.old }
        ensures bound { IfOk result (λ n. n ≤ length piece.new) }
        ensures stays_open { OnOk result (shelf_is_open self.new ≡ true) }
        ensures file { OnOk result (shelf_file self.new ≡ shelf_file self.old) }
        ensures taken { IfOk result (λ n. shelf_taken self.new ≡ shelf_taken self.old + n) }
        ensures told { IfOk result (ReadsNext (shelf_file self.old) (shelf_taken self.old) piece.new) }

        ensures closed { OnErr result (shelf_is_open self.new ≡ false) }
        ensures untaken { OnErr result (shelf_taken self.new ≡ shelf_taken self.old) }
        ensures absences { shelf_absences self.new ≡ shelf_absences self.old }

        // It fails exactly where the call's number is in the list.
        ensures fails { IsErr result ↔ Contains (shelf_failing self.old) (shelf_calls self.old) }
        ensures faults { HasCause (shelf_faults self.old) (shelf_faults self.new) result }
        ensures failing { shelf_failing self.new ≡ shelf_failing self.old }
        ensures calls { shelf_calls self.new ≡ one_more (shelf_calls self.old) }
    {
        if next_call_fails(&self.failing, &mut self.calls) {
            self.at = self.files.len();
            count_one(&mut self.faults);
            return Err(ReadFailed);
        }
        let count = copy_next(&self.files[self.at].bytes, self.taken, piece);
        self.taken += count;
        Ok(count)
    }
}
