//! The kinds that the grammar of queries tells apart. They are types alone; what they mean stands in `specs/`.
use cs_base::{Link, Part, Seq, Text};

/// What a character of a key text is to the grammar.
#[derive(Clone, Copy, Debug, PartialEq, Eq, Drop)]
pub enum Class {
    /// A word character.
    Letter,
    /// `.`, which may stand in a run.
    Dot,
    /// `-`, `_` or `'`, which may stand in a run and in a value.
    Joiner,
    /// `$`, behind an exact word.
    Dollar,
    /// `|`, between alternatives.
    Bar,
    /// `:`, behind a facet's name.
    Colon,
    /// `[`, behind the name of a join.
    Open,
    /// `]`, at the end of a join.
    Close,
    /// Any other character, which stands in a gap.
    Other,
}

/// How an atom stands to what came before it.
#[derive(Clone, Copy, Debug, PartialEq, Eq, Drop)]
pub enum Tie {
    /// It begins a part.
    Begins {
        /// Whether that part is excluded.
        excluded: bool,
    },
    /// It begins a further alternative of the last part.
    Alternative,
    /// It goes on with the last chain.
    Linked(Link),
}

/// Where a run of `.`, `-`, `_` and `'` stands.
#[derive(Clone, Copy, Debug, PartialEq, Eq, Drop)]
pub enum Spot {
    /// At the start of the text, directly behind a gap or directly behind `[`.
    Front,
    /// Directly behind a word, `$` or `]`.
    BehindAtom,
    /// Directly behind anything else.
    Elsewhere,
}

/// A bracket that is open.
#[derive(Drop)]
pub struct Level {
    /// How its join is tied to what stands before it.
    pub tie: Tie,
    /// The name of its join.
    pub name: Text,
    /// The parts that stand before it, within the brackets around it.
    pub before: Seq<Part>,
}
