//! Images in memory.
use cs_base::{BlockHead, Seq, Text, Weights};
use cs_cols::Cols;
use cs_vocab::Vocab;
use std::marker::Model;

/// What an index file holds, which contracts see as the image of `cs_model_index`.
#[derive(Drop)]
pub struct Image {
    /// The titles by document, from 0.
    pub titles: Seq<Text>,
    /// The words by number, from 0.
    pub words: Vocab,
    /// The head of each block, in the order of the file.
    pub heads: Seq<BlockHead>,
    /// The posts of each block.
    pub blocks: Seq<Cols>,
    /// The most rows of a block of several words.
    pub target: u32,
    /// What the rows count for.
    pub weights: Weights,
}

impl Model for Image {
    ghost use Rattle.std.specs.Prelude.{map};
    ghost use Rattle.cs_model_index.specs.Images.{Image};

    ghost Value = { Image };

    ghost view = { λ i. record { titles = i.titles; words = i.words; heads = i.heads; blocks = map (λ c. c.posts) i.blocks; target = i.target; weights = i.weights } };
}
