//! How large a trial is, and the numbers that its draws come from.

/// What a state is multiplied by to give the next one.
pub const MULTIPLIER: u64 = 6_364_136_223_846_793_005;

/// What is then added.
pub const INCREMENT: u64 = 1_442_695_040_888_963_407;

/// How many syllables there are.
pub const SYLLABLES: u32 = 16;

/// How many words there are: each is three syllables.
pub const WORDS: u32 = 4096;

/// How many lines the collection of trial 1 has; that of trial n has n times as many.
pub const LINES: u32 = 100;

/// How many words a title has.
pub const TITLE_WORDS: u32 = 3;

/// How many words the text of a line has.
pub const TEXT_WORDS: u32 = 12;

/// How many sessions are typed.
pub const SESSIONS: u32 = 20;

/// How many letters of a word are typed one after the other.
pub const TYPED_LETTERS: u32 = 6;
