//! Sources of other forms as collections: tables of comma-separated values, and lines of JSON. Definitions, and laws about them; it
//! has no running code.
#![tactic(auto)]

mod flat;
pub mod laws;

pub use flat::{BadLine, Flat, Why};
