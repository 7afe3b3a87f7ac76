//! Two index files as one: when they may be merged, and what the merged one holds. Definitions, and laws about them; it has no running code.
#![tactic(auto)]

pub mod laws;
