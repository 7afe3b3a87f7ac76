//! Kept answers: of which queries an answer is kept, which of them serves a query, and the list after it.
//!
//! Callers see `Answers` as the list of its entries with their keys, the one used last in front, and how
//! many there may be. What the calls mean stands in `cs_model_kept`. Nothing here takes memory but
//! `Answers::new`.
#![tactic(auto)]

mod answers;
mod entry;
mod slots;

pub use answers::{Answers, View};
pub use entry::Entry;
