//! What clients send and are sent: request heads, strings of parameters as requests, responses.
//!
//! What a string of parameters asks, and when it is refused, stands in `Parameters` of `cs_model`; what a head is, what it
//! asks and how it is answered in `cs_model_serving`. Nothing here reads or writes a socket.
#![tactic(auto)]

mod counts;
mod facets;
mod fields;
mod first;
mod framing;
mod heads;
mod parameters;
mod responses;

pub use cs_model_serving::Framed;
pub use cs_query::{Param, ReqFault, Request};
pub use framing::{LineState, Look, Seen, frame};
pub use heads::{Asked, HeadFault, head};
pub use parameters::request;
pub use responses::{memory_response, wrap};
