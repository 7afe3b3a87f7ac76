//! What a collection, a query and a reply are: definitions, and laws about them. It has no running code.
#![tactic(auto)]

mod kinds;
pub mod laws;

pub use kinds::{Class, Level, Spot, Tie};
