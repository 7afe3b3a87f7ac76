//! An index that was opened.
ghost use Rattle.cs_vocab.specs.Ranges.{IsRange};

use cs_base::{BlockHead, Seq, Weights};
use cs_vocab::Vocab;
use std::marker::Model;

/// What is kept of an index file: all but its titles and its posts. It keeps what the rules on these fields
/// say, whatever store it was read from; where each block lies it knows beside them.
#[derive(Drop)]
pub struct Index {
    /// How many documents there are.
    pub docs: u32,
    /// The words by number, from 0.
    pub words: Vocab,
    /// Where each title begins among the titles' bytes, and where the last one ends.
    pub offsets: Seq<u32>,
    /// The head of each block.
    pub heads: Seq<BlockHead>,
    /// The most rows of a block of several words.
    pub target: u32,
    /// What the rows count for.
    pub weights: Weights,
    /// The place of the first title, in bytes from the file's first.
    pub titles_at: u64,
    /// The place of the first block, in bytes from the file's first.
    pub blocks_at: u64,
    /// The place of each block, in bytes from the first block's.
    pub(crate) places: Seq<u32>,
}

impl Model for Index {
    ghost use Rattle.cs_file.specs.Indexes.{IndexView, IsKeptIndex};

    ghost Value = { IndexView };

    ghost view = { λ i.
        record { docs = i.docs; words = i.words; offsets = i.offsets; heads = i.heads; target = i.target; weights = i.weights; titles_at = i.titles_at; blocks_at = i.blocks_at } };

    ghost invariant = { λ i. IsKeptIndex
        (record { docs = i.docs; words = i.words; offsets = i.offsets; heads = i.heads; target = i.target; weights = i.weights; titles_at = i.titles_at; blocks_at = i.blocks_at }) i.places };
}

impl Index {
    /// The words that begin with `p`: from the first number up to the second, which is left out.
    pub fn range(&self, p: &[u8]) -> (u32, u32)
        ensures { IsRange self.now.words p.now result.0 result.1 }
    {
        self.words.range(p)
    }
}
