//! Scores of documents, and the best of them.
//!
//! The order of hits is `by_rank` of `cs_base` (`specs/content/Orders.antt`); what is kept of a longer list stands in `specs/`.
#![tactic(auto)]

mod best;
mod hits;
mod scores;

pub use best::{Best, MAX_ROOM};
pub use hits::top;
pub use scores::{add_base, score};
