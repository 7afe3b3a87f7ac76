//! Columns of posts: a list of posts that keeps each of its four numbers in a column of its own.
//!
//! Callers see `Cols` as the list of its posts and, beside it, its spare room: how many posts it
//! can still take without asking for memory. How the columns lie in memory is in no clause.
//! `find_listed` and `find_between` give the places of those rows of a span that pass a test.
#![tactic(auto)]

mod block;
mod cols;
mod places;
mod rooms;

pub use cols::Cols;
pub use places::{find_between, find_listed};
