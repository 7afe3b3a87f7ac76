//! An index to which documents are added, and from which documents are deleted, in memory; the index file stays as it is.
//!
//! `State` is the second `Source` of `cs_engine`: the rows of the index without those of documents that are gone, and behind them the rows
//! of added documents, whose numbers are above all others. What it is stands in `specs/States.antt`. `Live` is such a state with what is
//! kept of answers; what its corpus is after changes stands in `specs/Lives.antt`.
#![tactic(auto)]

mod adding;
mod asking;
mod facts;
mod fault;
mod live;
mod numbers;
mod rows;
mod rows_by_word;
mod settling;
mod source;
mod state;
mod titles;

pub use fault::{AddFault, RemoveFault};
pub use live::Live;
pub use state::State;
