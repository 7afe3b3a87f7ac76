//! The index file: images of collections, their bytes, and an index that is opened over a store.
//!
//! What an image, its file and the nineteen rules are stands in `cs_model_index`; in words it stands in
//! `docs/INDEX_FILE.md`. An `Index` holds words, offsets and heads, and no posting: blocks and titles are read
//! from the store when they are asked for. `laws` has what holds of images that an index reads.
#![tactic(auto)]

mod blocks;
mod directory;
mod entries;
mod fault;
mod fetched;
mod fetching;
mod header;
mod image;
mod imaged;
mod index;
mod judged;
mod kinds;
pub mod laws;
mod opening;
mod part;
mod parts;
mod places;
mod postings;
mod putting;
mod read_block;
mod read_image;
mod reading;
mod sizes;
mod sought;
mod titles;
mod vocabulary;
mod weights;
mod writing;

pub use cs_base::BlockHead;
pub use fault::{FetchFault, OpenFault, WriteFault};
pub use fetched::Fetched;
pub use image::Image;
pub use imaged::{file_size, index_of};
pub use index::Index;
pub use opening::open_index;
pub use read_block::ReadBlock;
pub use sought::Sought;
pub use writing::write_index;
