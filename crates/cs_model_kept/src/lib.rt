//! What an engine keeps of answers that it gave, and which blocks it may read. Definitions, and laws about them; it has no
//! running code.
#![tactic(auto)]

pub mod laws;
mod limits;

pub use limits::{MAX_ENTRIES, MAX_ENTRY_SIZE};
