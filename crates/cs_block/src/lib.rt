//! Blocks of an index file: sorted rows of some words in four columns of bytes, written and read.
//!
//! What the bytes of a block are stands in `specs/Blocks.antt` of `cs_model_index`, the rules that they
//! keep in `specs/BlockRules.antt` there, and both in words in `docs/INDEX_FILE.md`. Places are
//! counted from the block's first byte. `laws` has what holds of all blocks.
#![tactic(auto)]

mod columns;
mod decoding;
mod doc_words;
mod encoding;
mod fault;
mod judging;
pub mod laws;
mod listing;
mod rules;
mod run_columns;
mod run_docs;
mod runs;
mod scores;
mod sought;

pub use cs_base::{BlockHead, Broken};
pub use decoding::{decode, decode_reserved};
pub use doc_words::{front_len, read_doc_words};
pub use encoding::encode;
pub use fault::BlockFault;
pub use scores::read_scores;
pub use sought::{are_sought, list_docs, read_sought};
