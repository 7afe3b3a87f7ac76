//! What is kept of rows beside the numbers of their words.

use cs_base::{Row, Seq, Weights};

/// How many rows of each kind a document has.
#[derive(Clone, Copy, Debug)]
pub(crate) struct DocRows {
    /// Those of facet words.
    pub(crate) facets: u32,
    /// Those of title words.
    pub(crate) titles: u32,
    /// Those of text words.
    pub(crate) texts: u32,
}

/// How documents, positions and scores of rows are kept.
#[derive(Debug, Drop)]
pub(crate) enum RowForm {
    /// In a list of the rows.
    Listed(Seq<Row>),
    /// By how many rows each document has: its facet words stand at position 0, its title words at positions from 1 on,
    /// its text words behind them.
    Counted {
        /// How many rows each document has, from number 0 on.
        docs: Vec<DocRows>,
        /// The scores of the rows.
        weights: Weights,
    },
}
