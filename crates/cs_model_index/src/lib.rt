//! What an index file is: images of a corpus, their bytes, and the rules that tell them. Definitions, and laws about them; it
//! has no running code.
#![tactic(auto)]

pub mod laws;
mod limits;

pub use limits::{
    BOUNDED_ENTRY_BYTES, ENTRY_BYTES, HEADER_BYTES, MAX_BLOCK_WORDS, MAX_TARGET, NUMBER_BYTES,
    TARGET,
};
