//! What is gathered of the rows of some words: their numbers, block by block.

/// The numbers of rows of some words, of the first blocks that hold such a word, and which blocks these are.
#[derive(Drop)]
pub struct GatheredKeys {
    /// The numbers, block by block.
    pub keys: Vec<u64>,
    /// The first block that holds such a word.
    pub first: u32,
    /// The first block that isn't looked at yet.
    pub next: u32,
    /// The block behind the last that holds such a word.
    pub last: u32,
}
