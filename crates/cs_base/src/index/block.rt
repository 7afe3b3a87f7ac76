//! What is known of one block without its rows, and what may be wrong with an index file.

/// The head of a block: which words it holds, how large it is, and from which document to which its rows lie.
#[derive(Clone, Copy, Debug, PartialEq, Eq)]
pub struct BlockHead {
    /// The number of its first word.
    pub lo: u32,
    /// How many words it holds, one behind the other from `lo` on.
    pub words: u32,
    /// How many rows it holds.
    pub rows: u32,
    /// Its bytes.
    pub len: u32,
    /// Whether its words are facet words.
    pub facet: bool,
    /// The least document of its rows.
    pub least: u32,
    /// The greatest.
    pub greatest: u32,
}

/// A broken rule of an index file's form.
#[derive(Clone, Copy, Debug, PartialEq, Eq)]
pub struct Broken {
    /// The rule's number, from 1 to 19.
    pub n: u8,
    /// The place at which it is broken, in bytes.
    pub at: u32,
}
