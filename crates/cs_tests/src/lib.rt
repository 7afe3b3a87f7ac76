//! Tests of the engine and of whole commands, which are proved here once, and not again with what they test.
#![tactic(auto)]

#[cfg(test)]
mod changing;
#[cfg(test)]
mod commands;
#[cfg(test)]
mod engine;
#[cfg(test)]
mod failing;
#[cfg(test)]
mod hubs;
#[cfg(test)]
mod made_of_indexes;
#[cfg(test)]
mod plans;
#[cfg(test)]
mod runs;
#[cfg(test)]
mod serving;
#[cfg(test)]
mod tired;
