//! The collection that is made from a number, the queries that are typed over it, and their summary. Definitions, and laws
//! about them; it has no running code.
#![tactic(auto)]

pub mod laws;
mod sizes;

pub use sizes::{
    INCREMENT, LINES, MULTIPLIER, SESSIONS, SYLLABLES, TEXT_WORDS, TITLE_WORDS, TYPED_LETTERS,
    WORDS,
};
