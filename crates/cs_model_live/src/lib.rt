//! Documents that are added and deleted while requests go on: what each line of such a script does and answers. Definitions, and laws about
//! them; it has no running code.
#![tactic(auto)]

pub mod laws;
pub mod limits;

pub use limits::MAX_DOC_DIGITS;
