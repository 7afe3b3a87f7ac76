//! What rows count for, and where they stand in a document.

/// The score of a title word's row, where a collection names no other.
pub const TITLE_SCORE: u8 = 4;

/// The score of a facet word's row, where a collection names no other.
pub const FACET_SCORE: u8 = 2;

/// The score of a text word's row, where a collection names no other.
pub const TEXT_SCORE: u8 = 1;

/// The greatest score that a row may have: it is kept in one byte.
pub const MAX_ROW_SCORE: u32 = 255;

/// What rows count for, by the column of their word. Those of a collection are from 1 to `MAX_ROW_SCORE`, and two may be equal.
#[derive(Clone, Copy, Debug, PartialEq, Eq)]
pub struct Weights {
    /// The score of a title word's row.
    pub title: u8,
    /// The score of a facet word's row.
    pub facet: u8,
    /// The score of a text word's row.
    pub text: u8,
}

/// The most digits of a weight in a collection.
pub const MAX_WEIGHT_DIGITS: usize = 3;

/// The weights of a collection that names none.
pub const USUAL_WEIGHTS: Weights = Weights {
    title: TITLE_SCORE,
    facet: FACET_SCORE,
    text: TEXT_SCORE,
};

/// How many positions the first text word stands behind the last title word: one more than words may be apart to be near each other,
/// so that no phrase and no nearness reaches from one to the other.
pub const BEHIND_TITLE: u32 = 9;
