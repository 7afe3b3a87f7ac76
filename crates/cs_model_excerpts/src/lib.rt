//! The excerpts that hits are shown with: the shortest run of text words that has a word of every part. Definitions, and laws about
//! them; it has no running code.
#![tactic(auto)]

pub mod laws;
pub mod limits;

pub use limits::MAX_EXCERPT_WORDS;
