//! Tables of comma-separated values and lines of JSON as collections, and the excerpts that hits are shown with.
//!
//! What the calls mean stands in `specs/` of `cs_model_sources` and of `cs_model_excerpts`. Callers see a translation as its
//! collection's bytes beside the first bad line, and an excerpt as its bytes. Nothing here reads a file.
#![tactic(auto)]

mod csv_source;
mod document_line;
mod excerpts;
mod fault;
mod header;
mod json_line;
mod json_source;
mod marks;
mod records;
mod runs;

pub use cs_model_sources::{BadLine, Flat, Why};
pub use csv_source::flat_csv;
pub use excerpts::{excerpt, lent_excerpt};
pub use fault::FlatFault;
pub use json_source::flat_jsonl;
