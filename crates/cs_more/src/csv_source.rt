//! A table of comma-separated values as a collection.
ghost use Rattle.std.specs.Prelude.{◌≡◌, ◌≤◌, ◌<◌, ◌⊎◌, ◌++◌, IfOk, OnOk, IsErrOf, length};
ghost use Rattle.std.specs.List.{flat_map};
ghost use Rattle.cs_base.specs.declared.content.limits.TheConstants.{MAX_COLLECTION_BYTES};
ghost use Rattle.csv.specs.Records.{fields_of};
ghost use Rattle.cs_model_sources.specs.CsvSources.{flat_of_csv};
ghost use Rattle.cs_more.specs.RecordsLeft.{StandsBetween, record_line, records_left};
ghost use Rattle.cs_more.specs.declared.fault.FlatFault.TheVariants.{TooLarge};

use crate::document_line::{push_document_line, usual_weights_line};
use crate::fault::FlatFault;
use crate::header::{HeaderColumns, field_in, header_columns};
use crate::records::{next_record, records_in};
use cs_base::{MAX_COLLECTION_BYTES, Seq};
use cs_model_sources::{BadLine, Flat, Why};
use csv::{ByteRecord, Reader};
use std::alloc::Global;

/// The translation of a table of comma-separated values.
///
/// Leading bytes EF BB BF are skipped once. The first record is the header, which has `title` once, and `facets` and
/// `text` at most once, without regard to the case of ASCII letters; other columns are ignored. Each further record is
/// a document, and a field that it hasn't is empty. A header of another form is the bad line 1, and then there is no
/// document.
pub fn flat_csv(alloc: Global, source: &[u8]) -> Result<Flat, FlatFault>
    ensures ok { IfOk result (λ f. f ≡ flat_of_csv source.now) }
    ensures few { OnOk result ((length source.now ≤ MAX_COLLECTION_BYTES) × (length (flat_of_csv source.now).tsv ≤ MAX_COLLECTION_BYTES)) }

    ensures too_large { IsErrOf result TooLarge → (MAX_COLLECTION_BYTES < length source.now) ⊎ (MAX_COLLECTION_BYTES < length (flat_of_csv source.now).tsv) }
{
    if source.len() > MAX_COLLECTION_BYTES {
        return Err(FlatFault::TooLarge);
    }
    let mut reader = records_in(alloc, source);
    let mut fields = ByteRecord::new(alloc);
    let mut tsv = usual_weights_line(alloc, source.len())?;
    if !next_record(&mut reader, &mut fields)? {
        return Ok(Flat {
            tsv: Seq::from_vec(tsv),
            bad: None,
        });
    }
    let Some(columns) = header_columns(&fields) else {
        return Ok(Flat {
            tsv: Seq::from_vec(tsv),
            bad: Some(BadLine {
                line: 1,
                why: Why::Header,
            }),
        });
    };
    push_records(&mut tsv, &mut reader, &mut fields, columns)?;
    Ok(Flat {
        tsv: Seq::from_vec(tsv),
        bad: None,
    })
}

// Adds the documents of the records that are left.
fn push_records(
    tsv: &mut Vec<u8>,
    reader: &mut Reader<&[u8]>,
    fields: &mut ByteRecord,
    columns: HeaderColumns,
) -> Result<(), FlatFault>
    requires stands { StandsBetween reader.old }
    requires few { length tsv.old.items ≤ MAX_COLLECTION_BYTES }

    ensures ok { OnOk result (tsv.new.items ≡ tsv.old.items ++ flat_map (record_line columns) (records_left reader.old)) }
    ensures few { OnOk result (length tsv.new.items ≤ MAX_COLLECTION_BYTES) }

    ensures too_large { IsErrOf result TooLarge → MAX_COLLECTION_BYTES < length (tsv.old.items ++ flat_map (record_line columns) (records_left reader.old)) }
{
    while next_record(reader, fields)? {
        push_record(tsv, fields, columns)?;
    }
    Ok(())
}

// Adds the document of a record.
fn push_record(
    tsv: &mut Vec<u8>,
    fields: &ByteRecord,
    columns: HeaderColumns,
) -> Result<(), FlatFault>
    ensures ok { OnOk result (tsv.new.items ≡ tsv.old.items ++ record_line columns (fields_of fields.now)) }
    ensures few { OnOk result (length tsv.new.items ≤ MAX_COLLECTION_BYTES) }

    ensures too_large { IsErrOf result TooLarge → MAX_COLLECTION_BYTES < length (tsv.old.items ++ record_line columns (fields_of fields.now)) }
{
    let title = field_in(fields, columns.title);
    let facets = field_in(fields, columns.facets);
    let text = field_in(fields, columns.text);
    push_document_line(tsv, title, facets, text)?;
    Ok(())
}
