//! The engine: the reply that an opened index gives to a request, from what is kept of the answers before it and from its blocks.
//!
//! Callers see `Engine` as its index and a list of kept entries. What a reply says stands in `Answers` and `Requests` of `cs_model`,
//! what is kept in `Entries` and `KeptList` of `cs_model_kept`. It reads through a store alone, and writes nothing.
//!
//! Where rows lie is a `Source` of `cs_rows`, which finds the rows of parts. Over any source `ask_over` answers, from what its caller keeps of
//! answers and holds of ranges of words.
#![tactic(auto)]

mod ask;
mod engine;
mod facets;
mod find;
mod find_kept;
mod find_parts;
mod find_range;
mod finding;
mod held;
pub mod laws;
mod note;
mod replies;
mod show;

pub use ask::ask_over;
pub use cs_file::FetchFault as AskFault;
pub use cs_query::{Reply, Request};
pub use engine::Engine;
pub use held::Holder;
pub use note::Note;
pub use show::RequestOver;
