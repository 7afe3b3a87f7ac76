//! What is sent on a connection, by the bytes that came on it. Definitions, and laws about them; it has no running code.
#![tactic(auto)]

mod framed;
pub mod laws;

pub use framed::Framed;
