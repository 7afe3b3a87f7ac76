//! Tables of completions: the words of some rows, with the number of documents that have each.
//!
//! What a table is stands in `specs/TableListings.antt`. A table's order is that of hits, with a word in the place
//! of the document and its number of documents in the place of the score.
#![tactic(auto)]

mod counts;
mod tables;
mod word_counts;

pub use tables::{Completion, Table, completions};
pub use word_counts::{WordCounts, are_within};
