//! Tests of the crates below the engine, which are proved here once, and not again with what they test.
#![tactic(auto)]

#[cfg(test)]
mod tests;
