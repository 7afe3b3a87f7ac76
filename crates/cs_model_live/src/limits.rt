//! The limit of a line that deletes.

/// The most digits of a document's number, leading zeros included.
pub const MAX_DOC_DIGITS: usize = 7;
