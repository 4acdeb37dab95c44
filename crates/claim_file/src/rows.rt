//! The records of a text in memory, one at a time.
ghost use Rattle.std.specs.Prelude.{◌≡◌, IfOk};
ghost use Rattle.csv.specs.Records.{fields_of};
ghost use Rattle.claim_file.specs.Rows.{Answers, IsAt};

use csv::{ByteRecord, ErrorKind, Reader};
use fx_base::Memory;

/// What came of asking a reader for the next record.
pub enum Taken {
    /// It was read.
    Record,
    /// It has another length than the record before it.
    OtherLength,
    /// There is none.
    End,
}

/// The next record. After any other answer than `Record` the reader isn't to be asked again. That a slice can't fail to be read is
/// known to no clause; such a failure would be told as want of memory.
pub fn take_record(reader: &mut Reader<&[u8]>, row: &mut ByteRecord) -> Result<Taken, Memory>
    requires at { IsAt reader.old }
    ensures taken { IfOk result (λ taken. Answers taken reader.old reader.new (fields_of row.new)) }
{
    match reader.read_byte_record(row) {
        Ok(true) => Ok(Taken::Record),
        Ok(false) => Ok(Taken::End),
        Err(error) => match error.kind() {
            ErrorKind::UnequalLengths { .. } => Ok(Taken::OtherLength),
            _ => Err(Memory),
        },
    }
}
