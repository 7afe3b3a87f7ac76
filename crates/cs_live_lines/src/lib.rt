//! The lines of a script over documents that are added and deleted: what each of them does, and the texts of its outcomes.
//!
//! What a line means stands in `specs/LiveLines.antt` of `cs_model_live`. Nothing here holds documents: `cs_live` does.
#![tactic(auto)]

mod document;
mod line;
mod texts;

pub use document::{DocumentFault, LineRule, added_document};
pub use line::{LiveLine, doc_number, live_line};
pub use texts::{Full, absent_line, change_line, full_line, refused_line};
