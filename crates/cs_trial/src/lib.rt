//! Trials: the collection that is made from a number, the texts that are typed over it, the requests that they make, and the text of a
//! summary.
//!
//! What is drawn, typed and told stands in `cs_model_trial`. Nothing here answers a request.
#![tactic(auto)]

mod counts;
mod draws;
mod lines;
mod plain;
mod syllables;
mod typing;

pub use counts::{TrialCounts, summary_bytes};
pub use lines::collection;
pub use plain::requests;
pub use typing::texts;
