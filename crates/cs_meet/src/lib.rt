//! Filters and merges of sorted posts: by documents, by neighbours in a document, and unions.
//!
//! Each call goes once over both inputs and asks for memory once, before it begins. What the calls
//! mean stands in `specs/Filters.antt`; `specs/RowPlaces.antt` has what a pass knows on its way.
#![tactic(auto)]

mod documents;
mod fronts;
mod links;
mod skip;
mod union;

pub use documents::{docs_of, drop_docs, keep_docs};
pub use links::{follow, near};
pub use union::unite;
