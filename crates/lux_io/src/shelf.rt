//! Where files are read from: one file at a time, from its first byte to its last.
ghost use Rattle.std.specs.Prelude.{◌≡◌, ℕ, ◌+◌, ◌^◌, ◌<◌, ◌≤◌, List, length, true, false, Bool, Option, IfOk, OnOk, OnErr, IfSome};
ghost use Rattle.lux_io.specs.Files.{bytes_of, Counted, HasCause, ReadsNext};

/// Why a file can't be opened.
#[derive(Clone, Copy, Debug, PartialEq, Eq)]
pub enum OpenFault {
    /// There is no file of this name.
    Absent,
    /// The shelf failed.
    Failed,
}

/// The shelf failed while a file was read.
#[derive(Clone, Copy, Debug, PartialEq, Eq)]
pub struct ReadFailed;

/// Files by name, of which one at a time can be open.
///
/// A shelf may tell which files it holds; then that never changes, and what is read is what it tells. It counts its faults and
/// how often a name wasn't there: each such answer is one more, and no other call is counted; at 2^64 - 1 a count stays.
pub trait Shelf {
    /// The files, a name and bytes each. `None`: the shelf doesn't tell.
    ghost files: { Self → Option (List (List ℕ × List ℕ)) };

    /// Whether a file is open.
    ghost is_open: { Self → Bool };

    /// The bytes of the open file, where the files are told.
    ghost file: { Self → List ℕ };

    /// How many bytes were taken from the file that was opened last.
    ghost taken: { Self → ℕ };

    /// How often a call failed.
    ghost faults: { Self → ℕ };

    /// How often there was no file of the name that was asked for.
    ghost absences: { Self → ℕ };

    /// Opens the file of this name at its first byte, in place of one that was open.
    fn open(&mut self, name: &str) -> Result<(), OpenFault>
        ensures files { files self.new ≡ files self.old }
        ensures opened { OnOk result (is_open self.new ≡ true) }
        ensures taken { taken self.new ≡ 0 }
        ensures told { OnOk result (IfSome (files self.old) (λ fs. bytes_of name.now fs ≡ Some (file self.new))) }
        ensures closed { OnErr result (is_open self.new ≡ false) }

        ensures absent { result ≡ Err OpenFault.Absent → IfSome (files self.old) (λ fs. bytes_of name.now fs ≡ None) }
        ensures absences { Counted (absences self.old) (absences self.new) (result ≡ Err OpenFault.Absent) }
        ensures faults { Counted (faults self.old) (faults self.new) (result ≡ Err OpenFault.Failed) };

    /// Takes the next bytes of the open file into the front of the piece, and answers their number. For a piece that isn't
    /// empty, 0 is the end of the file.
    fn read(&mut self, piece: &mut [u8]) -> Result<usize, ReadFailed>
        requires open { is_open self.old ≡ true }
        requires taken { taken self.old < 2 ^ 32 }
        requires piece { length piece.old ≤ 65536 }
        ensures files { files self.new ≡ files self.old }
        ensures bound { IfOk result (λ n. n ≤ length piece.new) }
        ensures stays_open { OnOk result (is_open self.new ≡ true) }
        ensures file { OnOk result (file self.new ≡ file self.old) }
        ensures taken { IfOk result (λ n. taken self.new ≡ taken self.old + n) }
        ensures told { IfOk result (λ n. IfSome (files self.old) (λ _. ReadsNext (file self.old) (taken self.old) piece.new n)) }

        ensures closed { OnErr result (is_open self.new ≡ false) }
        ensures untaken { OnErr result (taken self.new ≡ taken self.old) }
        ensures faults { HasCause (faults self.old) (faults self.new) result }
        ensures absences { absences self.new ≡ absences self.old };
}
