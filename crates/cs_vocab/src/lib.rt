//! The vocabulary: the distinct words of a collection in byte order, each known by its number.
//!
//! Callers see `Vocab` as the list of its words, strictly ascending. What a prefix's range is stands
//! in `specs/Ranges.antt`. Words that come one by one are taken by a `Gathering`, and numbered when all have come.
#![tactic(auto)]

mod gathering;
mod hash;
mod numbered;
mod same;
mod sorting;
mod vocab;

pub use gathering::Gathering;
pub use numbered::Numbered;
pub use vocab::Vocab;
