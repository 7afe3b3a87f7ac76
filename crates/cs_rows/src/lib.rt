//! The rows that a query's parts ask for, out of any source of rows, and the hits by them.
//!
//! Where rows lie is a `Source`: in the blocks of an index, which are read through a store, and in memory. `Index` is one. What is read of it
//! is gathered, scored or counted block by block. What parts, hits and scores are stands in `Answers` of `cs_model`, and what an entry is in
//! `Entries` of `cs_model_kept`.
#![tactic(auto)]

mod best;
mod between;
mod blockwise;
mod bounds;
mod chosen;
mod counting;
mod entries;
mod evaluation;
mod gathering;
mod hits;
mod inside;
mod known;
mod opened;
mod packing;
mod parts;
mod plain;
mod read_blocks;
mod reading;
mod scored;
mod seeking;
mod source;
mod steps;
mod words;

pub use between::posts_between;
pub use blockwise::{found_behind, found_in_all};
pub use bounds::may_hit;
pub use chosen::{count_chosen, many_chosen, pack_chosen};
pub use counting::{count_keys, listed_docs};
pub use entries::{base_copy, first_entry, posts_hits};
pub use gathering::GatheredKeys;
pub use hits::{doc_numbers, first_hits, listed_count, lists_none};
pub use known::KnownHits;
pub use opened::index_is_source;
pub use packing::ordered;
pub use plain::words_of_part;
pub use read_blocks::ReadBlocks;
pub use reading::rows_between;
pub use seeking::{gather_held, gather_keys};
pub use source::Source;
pub use steps::{end_positive, extended_entry, hits_of_parts};
pub use words::range_of_facet;
