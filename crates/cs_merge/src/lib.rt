//! Merged images: the image of the corpus in which those of two index files are joined, without their collections; and two vocabularies
//! as one.
//!
//! What a merge is, and when it is refused, stands in `Merges` of `cs_model_merge`. Nothing here reads or writes a file.
#![tactic(auto)]

mod fault;
pub mod laws;
mod merging;
mod vocabulary;

pub use fault::MergeFault;
pub use merging::merge;
pub use vocabulary::{Merging, merged};
