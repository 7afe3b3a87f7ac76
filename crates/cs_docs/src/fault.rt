//! Why a collection is refused.
ghost use Rattle.std.specs.Prelude.{◌≡◌};
ghost use Rattle.std.specs.Option.{option_map};
ghost use Rattle.cs_model.specs.Collection.{in_line, refusal_words};
ghost use Rattle.cs_docs.specs.FaultRefusals.{refusal_of, rows_refusal_of, reason_text};
ghost use Rattle.cs_docs.specs.declared.fault.DocFault.{DocFault};
ghost use Rattle.cs_docs.specs.declared.fault.RowsFault.{RowsFault};

use cs_base::Memory;
use thiserror::Error;

/// What `lent_docs` and `read_docs` answer where they give no documents. Lines are numbered from 1.
#[derive(Clone, Copy, Debug, PartialEq, Eq, Drop, Error)]
pub enum DocFault {
    /// The collection has more than `MAX_COLLECTION_BYTES` bytes.
    #[error("too large")]
    TooLarge,
    /// The line isn't UTF-8.
    #[error("line {line}: not UTF-8")]
    NotUtf8 {
        /// The line's number.
        line: u32,
    },
    /// The line has more than `MAX_LINE_BYTES` bytes.
    #[error("line {line}: line too long")]
    LineTooLong {
        /// The line's number.
        line: u32,
    },
    /// The line names weights, and says none: it isn't `#weights title=A facet=B text=C` with three weights.
    #[error("line {line}: bad weights")]
    BadWeights {
        /// The line's number, which is 1.
        line: u32,
    },
    /// The title and the text of the line have more than `MAX_DOC_WORDS` words together.
    #[error("line {line}: too many words")]
    WordsTooMany {
        /// The line's number.
        line: u32,
    },
    /// A piece of the line's facets has no `=`.
    #[error("line {line}: bad facet")]
    BadFacet {
        /// The line's number.
        line: u32,
    },
    /// What stands before the first `=` of a piece of the line's facets has no name's form.
    #[error("line {line}: bad facet name")]
    BadName {
        /// The line's number.
        line: u32,
    },
    /// `MAX_DOCS` documents stand before the one of the line.
    #[error("line {line}: too many documents")]
    TooManyDocs {
        /// The line's number.
        line: u32,
    },
    /// Memory ran out.
    #[error("out of memory")]
    Memory,
}

/// What `rows_of` answers where it gives no rows.
#[derive(Clone, Copy, Debug, PartialEq, Eq, Drop, Error)]
pub enum RowsFault {
    /// There are more than `MAX_ROWS` rows.
    #[error("too many rows")]
    TooManyRows,
    /// Memory ran out.
    #[error("out of memory")]
    Memory,
}

/// Why something isn't accepted, in words.
#[derive(Clone, Copy, Debug, PartialEq, Eq)]
pub struct Reason<'a> {
    /// The number of the line that it is said of, from 1; None where it is said of the whole.
    pub line: Option<u64>,
    /// What is said.
    pub words: &'a [u8],
}

impl DocFault {
    /// The words of a refusal; None where memory ran out.
    pub fn reason(self) -> Option<Reason<'static>>
        ensures { option_map reason_text result ≡ option_map refusal_words (refusal_of self) }
    {
        match self {
            DocFault::TooLarge => Some(of_whole(b"too large")),
            DocFault::NotUtf8 { line } => Some(of_line(line, b"not UTF-8")),
            DocFault::LineTooLong { line } => Some(of_line(line, b"line too long")),
            DocFault::BadWeights { line } => Some(of_line(line, b"bad weights")),
            DocFault::WordsTooMany { line } => Some(of_line(line, b"too many words")),
            DocFault::BadFacet { line } => Some(of_line(line, b"bad facet")),
            DocFault::BadName { line } => Some(of_line(line, b"bad facet name")),
            DocFault::TooManyDocs { line } => Some(of_line(line, b"too many documents")),
            DocFault::Memory => None,
        }
    }
}

impl From<Memory> for DocFault {
    ghost from_gives = { λ _ e. e ≡ DocFault.Memory };

    fn from(_: Memory) -> DocFault {
        DocFault::Memory
    }
}

impl RowsFault {
    /// The words of a refusal; None where memory ran out.
    pub fn reason(self) -> Option<Reason<'static>>
        ensures { option_map reason_text result ≡ option_map refusal_words (rows_refusal_of self) }
    {
        match self {
            RowsFault::TooManyRows => Some(of_whole(b"too many rows")),
            RowsFault::Memory => None,
        }
    }
}

impl From<Memory> for RowsFault {
    ghost from_gives = { λ _ e. e ≡ RowsFault.Memory };

    fn from(_: Memory) -> RowsFault {
        RowsFault::Memory
    }
}

fn of_whole(words: &'static [u8]) -> Reason<'static>
    ensures { reason_text result ≡ words.now }
{
    Reason { line: None, words }
}

fn of_line(line: u32, words: &'static [u8]) -> Reason<'static>
    ensures { reason_text result ≡ in_line line words.now }
{
    Reason {
        line: Some(u64::from(line)),
        words,
    }
}
