//! The limit of an excerpt.

/// The most words of an excerpt.
pub const MAX_EXCERPT_WORDS: usize = 32;
