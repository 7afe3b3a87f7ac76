//! Documents and their rows.
ghost use Rattle.std.proofs.Common.{rules};
ghost use Rattle.std.specs.Prelude.{◌≡◌};
ghost use Rattle.std.specs.Ordering.{as_partial_cmp, is_lt};
ghost use Rattle.std.specs.Cmp.{partial_order_from_own_ties};
ghost use Rattle.std.specs.Cmp.Rules.{comparing};
ghost use Rattle.cs_base.specs.content.Orders.{by_rank, by_place};

use crate::{Seq, Text, Word};
use std::cmp::Ordering;

/// A document: a line of the collection in its columns.
#[derive(Debug, Drop)]
pub struct Doc {
    /// The title column as it stands in the collection.
    pub title: Text,
    /// The facets column as it stands.
    pub facets: Text,
    /// The text column as it stands, further tabs included.
    pub text: Text,
    /// The number of its line in the collection, from 1.
    pub line: u32,
}

/// One word at one position of one document.
#[derive(Debug, PartialEq, Eq, Drop)]
pub struct Row {
    /// The document's number, from 0.
    pub doc: u32,
    /// The word; that of a facet begins with `:`.
    pub word: Word,
    /// The position in the document; 0 for a facet.
    pub pos: u32,
    /// What the row counts for: the weight of the column that the word stands in.
    pub score: u8,
}

/// A row whose word is its number in the vocabulary.
#[derive(Clone, Copy, Debug, PartialEq, Eq)]
pub struct Post {
    /// The document's number, from 0.
    pub doc: u32,
    /// The word's number in the vocabulary, from 0.
    pub word: u32,
    /// The position in the document; 0 for a facet.
    pub pos: u32,
    /// What the row counts for: the weight of the column that the word stands in.
    pub score: u8,
}

impl Post {
    /// Whether this post comes before another: by document, position and word.
    #[inline]
    pub fn is_before(self, other: Post) -> bool
        ensures { result ≡ is_lt (by_place self other) }
    {
        self.doc < other.doc
            || (self.doc == other.doc
                && (self.pos < other.pos || (self.pos == other.pos && self.word < other.word)))
    }
}

/// A document with its score.
#[derive(Clone, Copy, Debug, PartialEq, Eq)]
pub struct Scored {
    /// The document's number, from 0.
    pub doc: u32,
    /// The sum over the positive parts of the greatest score of the part's rows.
    pub score: u32,
}

/// The documents that the earlier parts of a query leave, with their scores.
#[derive(Debug, Drop)]
pub enum Base {
    /// All documents, each with the score 0: there is no earlier part.
    All,
    /// These documents, strictly ascending.
    Listed(Seq<Scored>),
}

impl PartialOrd for Scored {
    ghost partial_cmp = { as_partial_cmp by_rank };

    ghost laws = { partial_order_from_own_ties (Prim.search (comparing, rules)) (Prim.search (comparing, rules)) };

    fn partial_cmp(&self, other: &Scored) -> Option<Ordering> {
        Some(self.cmp(other))
    }
}

// Hits in the order in which they are shown: the greatest score first, then the least document.
impl Ord for Scored {
    ghost cmp = { by_rank };

    ghost total = { Prim.search (comparing, rules) };

    ghost matches_partial_cmp = { Prim.search (comparing, rules) };

    ghost matches_eq = { Prim.search (comparing, rules) };

    fn cmp(&self, other: &Scored) -> Ordering {
        other.score.cmp(&self.score).then(self.doc.cmp(&other.doc))
    }
}
