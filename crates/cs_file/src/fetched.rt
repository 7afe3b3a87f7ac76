//! What a block is read into.
ghost use Rattle.std.specs.Prelude.{◌≡◌, []};
ghost use Rattle.cs_file.specs.Fetching.{HoldsNone};

use std::alloc::Global;

/// The posts of a block without their positions, column by column, in memory that is used again for the next block.
#[derive(Drop)]
pub struct Fetched {
    /// The documents, post by post.
    pub docs: Vec<u32>,
    /// The words' numbers.
    pub words: Vec<u32>,
    /// The scores.
    pub scores: Vec<u8>,
    /// The block's bytes.
    pub(crate) bytes: Vec<u8>,
}

impl Fetched {
    /// Nothing yet. It takes no memory, and keeps the allocator for later calls.
    pub fn new(alloc: Global) -> Fetched {
        Fetched {
            docs: Vec::new(alloc),
            words: Vec::new(alloc),
            scores: Vec::new(alloc),
            bytes: Vec::new(alloc),
        }
    }

    /// Lets the posts go. The bytes stay.
    pub(crate) fn clear(&mut self)
        ensures { HoldsNone self.new }
    {
        self.docs.truncate(0);
        self.words.truncate(0);
        self.scores.truncate(0);
    }
}
