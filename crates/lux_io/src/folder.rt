//! The files of a folder, as the operating system has them.
ghost use Rattle.std.specs.Prelude.{◌≡◌, ◌+◌, ◌^◌, ◌<◌, ◌≤◌, true, false, length, IfOk, IfSome, OnOk, OnErr};
ghost use Rattle.lux_io.specs.Files.{HasCause, ReadsNext};

use crate::count::count_one;
use crate::{OpenFault, ReadFailed, Shelf};
use std::fs;
use std::io::{self, Read};
use std::rt::Files;

/// The real files, by names relative to the current folder. It tells none of them: what a file holds can change between two
/// calls. A file that doesn't exist is absent, and every other failure is a fault.
#[derive(Drop)]
pub struct FolderShelf<'a, R: Files> {
    rt: &'a R,
    file: Option<R::File>,
    taken: u64,
    faults: u64,
    absences: u64,
}

impl<R: Files> FolderShelf<'_, R> {
    ghost use Rattle.lux_io.specs.Adapters.{folder_is_open, folder_faults, folder_absences};

    /// The files that this runtime reaches, with no file open.
    pub fn new(rt: &R) -> FolderShelf<'_, R>
        ensures closed { folder_is_open result ≡ false }
        ensures faults { folder_faults result ≡ 0 }
        ensures absences { folder_absences result ≡ 0 }
    {
        FolderShelf {
            rt,
            file: None,
            taken: 0,
            faults: 0,
            absences: 0,
        }
    }
}

impl<R: Files> Shelf for FolderShelf<'_, R> {
    ghost use Rattle.lux_io.specs.Adapters.{folder_file, folder_files, folder_is_open, folder_taken, folder_rest, folder_faults, folder_absences, TakesNext};

    ghost files = { λ shelf. folder_files shelf };

    ghost is_open = { λ shelf. folder_is_open shelf };

    ghost file = { λ shelf. folder_file shelf };

    ghost taken = { λ shelf. folder_taken shelf };

    ghost faults = { λ shelf. folder_faults shelf };

    ghost absences = { λ shelf. folder_absences shelf };

    fn open(&mut self, name: &str) -> Result<(), OpenFault> {
        self.file = None;
        self.taken = 0;
        match fs::open(self.rt, name) {
            Ok(file) => {
                self.file = Some(file);
                Ok(())
            }
            Err(error) => {
                if error.kind() == io::ErrorKind::NotFound {
                    count_one(&mut self.absences);
                    Err(OpenFault::Absent)
                } else {
                    count_one(&mut self.faults);
                    Err(OpenFault::Failed)
                }
            }
        }
    }

    fn read(&mut self, piece: &mut [u8]) -> Result<usize, ReadFailed>
        requires open { folder_is_open self.old ≡ true }
        requires taken { folder_taken self.old < 2 ^ 32 }
        requires piece { length piece.old ≤ 65536 }
        ensures files { folder_files self.new ≡ folder_files self.old }
        ensures bound { IfOk result (λ n. n ≤ length piece.new) }
        ensures stays_open { OnOk result (folder_is_open self.new ≡ true) }
        ensures file { OnOk result (folder_file self.new ≡ folder_file self.old) }
        ensures taken { IfOk result (λ n. folder_taken self.new ≡ folder_taken self.old + n) }

        ensures told { IfOk result (λ n. IfSome (folder_files self.old) (λ _. ReadsNext (folder_file self.old) (folder_taken self.old) piece.new n)) }

        // Nothing of the file is left out, changed, or called its end.
        ensures next { IfOk result (λ n. TakesNext (folder_rest R.File.remaining self.old) (folder_rest R.File.remaining self.new) piece.new n) }

        ensures closed { OnErr result (folder_is_open self.new ≡ false) }
        ensures untaken { OnErr result (folder_taken self.new ≡ folder_taken self.old) }
        ensures faults { HasCause (folder_faults self.old) (folder_faults self.new) result }
        ensures absences { folder_absences self.new ≡ folder_absences self.old }
    {
        if let Some(file) = &mut self.file {
            if let Ok(count) = file.read(piece) {
                self.taken += count as u64;
                return Ok(count);
            }
        }
        self.file = None;
        count_one(&mut self.faults);
        Err(ReadFailed)
    }
}
