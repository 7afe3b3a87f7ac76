//! Collections: the documents that the lines of a collection are, and the rows of their words.
//!
//! Callers see documents and rows as lists. The first line of a collection may say what rows count
//! for. What the calls mean stands in `specs/Collection.antt`, `specs/Weights.antt` and
//! `specs/Corpus.antt` of `cs_model`. Nothing here reads a file.
#![tactic(auto)]

mod cut;
mod document;
mod facet;
mod fault;
pub mod laws;
mod lines;
mod lone;
mod pieces;
mod reader;
mod row_list;
mod weights_line;

pub use cs_base::Doc;
pub use document::LentDoc;
pub use facet::listed_facets;
pub use fault::{DocFault, Reason, RowsFault};
pub use lines::{BYTE_ORDER_MARK, first_end, first_line, without_mark};
pub use lone::lone_facet;
pub use reader::{Collected, LentCollected, lent_docs, read_docs};
pub use row_list::rows_of;
