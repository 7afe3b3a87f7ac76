//! Joins: the rows whose word is also the word of a row in a listed document.
//!
//! One pass picks the rows in listed documents, their words are marked in a table with a byte for each number
//! from the least to the greatest, and one more pass keeps what is marked. What a join means stands in
//! `specs/Shared.antt`, what the table holds in `specs/Marked.antt`.
#![tactic(auto)]

pub mod laws;
mod marks;
mod rows;

pub use rows::shared;
