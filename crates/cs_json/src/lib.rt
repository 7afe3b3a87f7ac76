//! Replies and faults as compact JSON.
//!
//! The texts are those of `Replies` and `Faults` in `cs_model`, and of `ExcerptReplies` in `cs_model_excerpts`, byte for byte. Replies are
//! written token by token by the writer of `json`, with no value of the whole in memory, and faults through the value of `serde_json`.
#![tactic(auto)]

mod facets;
mod fault;
mod reply;

pub use cs_query::{FacetShown, HitShown, Param, Reply, ReqFault, Shown};
pub use fault::{Fault, fault_bytes};
pub use reply::{excerpt_bytes, reply_bytes};
