//! Corpora that are joined, and corpora that change. Definitions, and laws about them; it has no running code.
#![tactic(auto)]

pub mod laws;
