//! Images of collections: the blocks into which a collection's rows are parted, and the heads that the directory lists.
//!
//! What an image is stands in `Images` of `cs_model_index`, and how words are parted in `Partitions` there. Nothing
//! here reads or writes a file.
#![tactic(auto)]

mod block_order;
mod building;
mod column_words;
mod fault;
mod filling;
mod heads;
mod joining;
pub mod laws;
mod ordering;
mod parting;
mod row_columns;
mod row_form;
mod row_gathering;

pub use building::{image, image_of_columns};
pub use fault::BuildFault;
pub use joining::{joined_image, rows_in};
pub use row_columns::RowColumns;
