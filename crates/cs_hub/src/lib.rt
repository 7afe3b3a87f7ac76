//! The serving core: connections of a hub, cut anywhere and in any order, answered one by one over an engine.
//!
//! What a connection is to be sent stands in `Connections` of `cs_model_serving`; how the core stands beside a hub in
//! `specs/HubFollowing.antt`. Nothing here knows a socket or a file.
#![tactic(auto)]

mod answer;
mod answering;
mod asking;
pub mod laws;
mod line;
mod outcomes;
mod reading;
mod responses;
mod rounds;
mod saying;
mod serving;
mod slots;
mod steps;

pub use answering::Answerer;
pub use outcomes::{RequestOutcome, outcome_of, outcome_over};
pub use serving::{ServeEnd, serve};
pub use slots::Core;
