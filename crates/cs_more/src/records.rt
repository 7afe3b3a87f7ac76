//! The records of a table, read one after the other into one place.
ghost use Rattle.std.specs.Prelude.{◌≡◌, [], ◌∷◌, IfOk, if◌then◌else◌, true};
ghost use Rattle.csv.specs.Reading.{default_config, records, strip_bom};
ghost use Rattle.csv.specs.Records.{fields_of};
ghost use Rattle.cs_more.specs.RecordsLeft.{StandsBetween, records_left};

use cs_base::Memory;
use csv::{ByteRecord, ErrorKind, Reader, ReaderBuilder};
use std::alloc::Global;

/// A reader of the records of a table, of any number of fields, the header among them. It skips leading bytes EF BB BF
/// once.
pub(crate) fn records_in(alloc: Global, source: &[u8]) -> Reader<&[u8]>
    ensures stands { StandsBetween result }
    ensures left { records_left result ≡ records default_config (strip_bom source.now) }
{
    ReaderBuilder::new()
        .has_headers(false)
        .flexible(true)
        .from_reader(alloc, source)
}

/// Reads the next record, and answers whether there was one.
///
/// Records of any number of fields, whose fields are bytes, can't be refused, and bytes in memory are read without a fault: what is left of
/// the reader's errors is want of memory.
pub(crate) fn next_record(
    reader: &mut Reader<&[u8]>,
    fields: &mut ByteRecord,
) -> Result<bool, Memory>
    requires stands { StandsBetween reader.old }

    ensures left { IfOk result (λ found. records_left reader.old ≡ (if found then fields_of fields.new ∷ records_left reader.new else [])) }
    ensures stands { IfOk result (λ found. found ≡ true → StandsBetween reader.new) }
{
    match reader.read_byte_record(fields) {
        Ok(found) => Ok(found),
        Err(error) => match error.into_kind() {
            ErrorKind::Io(_) | ErrorKind::OutOfMemory => Err(Memory),
            ErrorKind::UnequalLengths { .. }
            | ErrorKind::Utf8 { .. }
            | ErrorKind::Serialize(_)
            | ErrorKind::Deserialize { .. } => unreachable!(),
        },
    }
}
