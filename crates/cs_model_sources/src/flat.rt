//! What a translation gives. They are types alone; what they mean stands in `specs/`.
use cs_base::Seq;

/// Why a line of a source is bad.
#[derive(Clone, Copy, Debug, PartialEq, Eq, Drop)]
pub enum Why {
    /// The header of a table has another form.
    Header,
    /// The line is no JSON value.
    Json,
    /// The value has another form.
    Field,
}

/// The first bad line of a source.
#[derive(Clone, Copy, Debug, PartialEq, Eq, Drop)]
pub struct BadLine {
    /// Its number, from 1: that of a record of a table, the header being 1, or that of a line of JSON lines.
    pub line: u32,
    /// What is bad.
    pub why: Why,
}

/// A source as a collection.
#[derive(Debug, Drop)]
pub struct Flat {
    /// The bytes of the collection: the weights line, and the documents before the first bad line.
    pub tsv: Seq<u8>,
    /// The first bad line; None where there is none.
    pub bad: Option<BadLine>,
}
