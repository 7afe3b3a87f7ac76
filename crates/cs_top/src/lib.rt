//! The commands of the program: all that it does, over the outside that it is handed.
//!
//! `run` is the one call. What it does stands in `specs/CommandRuns.antt`, over the definitions of `cs_model`.
#![tactic(auto)]

mod answering;
mod ask;
mod command;
mod lines;
mod live;
mod opening;
mod replay;
mod script;
mod serve;
mod showing;
mod trial;

pub use command::run;

/// The version of the program, which nothing prints.
pub const VERSION: &str = "0.2.0";
