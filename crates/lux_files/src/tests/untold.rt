//! A shelf that doesn't tell its files.
ghost use Rattle.std.specs.Prelude.{None, []};

use lux_io::{MemShelf, OpenFault, ReadFailed, Shelf};

/// The files of a shelf in memory, none of them told.
#[derive(Drop)]
pub struct Untold {
    pub shelf: MemShelf,
}

impl Shelf for Untold {
    ghost use Rattle.lux_io.specs.MemShelf.{shelf_is_open, shelf_taken, shelf_faults, shelf_absences};

    ghost files = { λ _. None };

    ghost is_open = { λ untold. shelf_is_open untold.shelf };

    ghost file = { λ _. [] };

    ghost taken = { λ untold. shelf_taken untold.shelf };

    ghost faults = { λ untold. shelf_faults untold.shelf };

    ghost absences = { λ untold. shelf_absences untold.shelf };

    fn open(&mut self, name: &str) -> Result<(), OpenFault> {
        self.shelf.open(name)
    }

    fn read(&mut self, piece: &mut [u8]) -> Result<usize, ReadFailed> {
        self.shelf.read(piece)
    }
}
