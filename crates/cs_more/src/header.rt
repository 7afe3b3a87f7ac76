//! The header of a table, and the fields of its columns.
ghost use Rattle.std.specs.Prelude.{◌≡◌, [], codes, get_or, is_some, IfSome};
ghost use Rattle.std.specs.List.{count_by};
ghost use Rattle.csv.specs.Records.{fields_of};
ghost use Rattle.cs_model_sources.specs.CsvSources.{column, field_in, is_field_named, is_header};

use csv::ByteRecord;

/// Where a table has its columns, by their places from 0; None for a column that it hasn't.
#[derive(Clone, Copy, Debug)]
pub(crate) struct HeaderColumns {
    /// The column of titles.
    pub title: Option<usize>,
    /// The column of facets.
    pub facets: Option<usize>,
    /// The column of texts.
    pub text: Option<usize>,
}

/// The columns of a header; None where the record is none.
pub(crate) fn header_columns(header: &ByteRecord) -> Option<HeaderColumns>
    ensures is { is_some result ≡ is_header (fields_of header.now) }
    ensures some { IfSome result (λ c. (c.title ≡ column (codes "title") (fields_of header.now)) × (c.facets ≡ column (codes "facets") (fields_of header.now)) × (c.text ≡ column (codes "text") (fields_of header.now))) }
{
    if !is_header(header) {
        return None;
    }
    Some(HeaderColumns {
        title: column_of(header, b"title"),
        facets: column_of(header, b"facets"),
        text: column_of(header, b"text"),
    })
}

fn is_header(header: &ByteRecord) -> bool
    ensures { result ≡ is_header (fields_of header.now) }
{
    count_of(header, b"title") == 1
        && count_of(header, b"facets") <= 1
        && count_of(header, b"text") <= 1
}

// How many fields of a header have this name.
fn count_of(header: &ByteRecord, name: &[u8]) -> usize
    ensures count { result ≡ count_by (is_field_named name.now) (fields_of header.now) }
{
    let mut count = 0;
    for i in 0..header.len() {
        count += is_field_named(field_at(header, i), name) as usize;
    }
    count
}

// The place of the first field with this name.
fn column_of(header: &ByteRecord, name: &[u8]) -> Option<usize>
    ensures { result ≡ column name.now (fields_of header.now) }
{
    for i in 0..header.len() {
        if is_field_named(field_at(header, i), name) {
            return Some(i);
        }
    }
    None
}

fn is_field_named(field: &[u8], name: &[u8]) -> bool
    ensures { result ≡ is_field_named name.now field.now }
{
    field.eq_ignore_ascii_case(name)
}

/// The field of a record at a column; nothing where record or table has none.
pub(crate) fn field_in(fields: &ByteRecord, column: Option<usize>) -> &[u8]
    ensures { result.now ≡ field_in (fields_of fields.now) column }
{
    match column {
        Some(i) => field_at(fields, i),
        None => b"".as_slice(),
    }
}

// The field at a place; nothing where there is none.
fn field_at(fields: &ByteRecord, i: usize) -> &[u8]
    ensures { result.now ≡ get_or (fields_of fields.now) i [] }
{
    match fields.get(i) {
        Some(field) => field,
        None => b"".as_slice(),
    }
}
