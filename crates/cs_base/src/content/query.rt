//! Queries, as the reader of the query language gives them.
use crate::{Seq, Text};

/// How an atom is tied to what stands before it in its chain.
#[derive(Clone, Copy, Debug, PartialEq, Eq)]
pub enum Link {
    /// One position behind it.
    Phrase,
    /// At most 8 positions away, on either side.
    Near,
}

/// The limits of a query's text, in the order in which they are named.
#[derive(Clone, Copy, Debug, PartialEq, Eq, Drop)]
pub enum Which {
    /// The bytes of the text, each open bracket counted as one more.
    Query,
    /// The bytes of one word or value.
    Word,
    /// The parts, over all brackets.
    Parts,
    /// The atoms, joins included.
    Atoms,
    /// The brackets that are open at one place.
    Depth,
}

/// A query. A document is a hit where it has a row of every positive part and none of an excluded one.
#[cycle(query)]
#[derive(Drop)]
pub struct Query {
    /// The parts in the order of the text; the last one is being typed.
    pub parts: Seq<Part>,
}

/// A part of a query: its alternatives.
#[cycle(query)]
#[derive(Drop)]
pub struct Part {
    /// Whether its documents are taken away instead of asked for.
    pub excluded: bool,
    /// The alternatives, of which there is at least one.
    pub chains: Seq<Chain>,
}

/// An alternative: an atom and those linked to it, read from the left.
#[cycle(query)]
#[derive(Drop)]
pub struct Chain {
    /// The first atom.
    pub first: Atom,
    /// The atoms behind it, each with its link.
    pub rest: Seq<Linked>,
}

/// An atom with the link before it.
#[cycle(query)]
#[derive(Drop)]
pub struct Linked {
    /// How it is tied to what stands before.
    pub link: Link,
    /// What is tied.
    pub atom: Atom,
}

/// What a single word, facet or join of a query asks.
#[cycle(query)]
#[derive(Drop)]
pub enum Atom {
    /// Words that begin so.
    Prefix(Text),
    /// This word alone.
    Exact(Text),
    /// Facet words of the name that some hit of the inner query has.
    Join {
        /// The facet's name.
        name: Text,
        /// The query between the brackets.
        inner: Query,
    },
}
