//! What an index file and the answers that are kept are made of.
pub(crate) mod block;
pub(crate) mod plan;

pub use block::{BlockHead, Broken};
pub use plan::{Kept, Plan};
