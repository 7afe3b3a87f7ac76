//! What was read of a block, in which posts are sought again without another read.
ghost use Rattle.std.specs.Prelude.{◌≡◌, ◌≤◌, ◌<◌, ◌^◌, ℕ, List, None, Some, true};
ghost use Rattle.cs_file.specs.Indexes.{IndexView};
ghost use Rattle.cs_file.specs.BlockBytes.{FitsBlock, HasFileBytes, read_size};

use std::alloc::Global;

/// The bytes of a document's number.
const DOC_BYTES: u128 = 4;

/// The bytes of a block, and the documents of all its posts.
#[derive(Drop)]
pub struct ReadBlock {
    /// The block's number, where the documents of its posts are listed.
    pub(crate) number: Option<u32>,
    /// Its place, in bytes from the file's first.
    pub(crate) at: u64,
    /// Each of the documents is below this one.
    pub(crate) below: u32,
    /// The documents, post by post.
    pub(crate) docs: Vec<u32>,
    /// The block's bytes.
    pub(crate) bytes: Vec<u8>,
}

impl ReadBlock {
    /// No block. It takes no memory, and keeps the allocator for later calls.
    pub fn none(alloc: Global) -> ReadBlock
        ensures fits { (i : IndexView) → FitsBlock i result }
        ensures file { (b : List ℕ) → HasFileBytes b result }
    {
        ReadBlock {
            number: None,
            at: 0,
            below: 0,
            docs: Vec::new(alloc),
            bytes: Vec::new(alloc),
        }
    }

    /// The bytes of the block, and of its documents' numbers.
    pub fn size(&self) -> u128
        ensures size { result ≡ read_size self.now }
        ensures few { result < 2 ^ 67 }
    {
        self.bytes.len() as u128 + DOC_BYTES * self.docs.len() as u128
    }

    /// Whether it is the block of this number, with documents below `docs` alone.
    pub(crate) fn is_of(&self, k: u32, docs: usize) -> bool
        ensures number { result ≡ true → self.now.number ≡ Some k }
        ensures below { result ≡ true → self.now.below ≤ docs }
    {
        match self.number {
            Some(number) => number == k && self.below as usize <= docs,
            None => false,
        }
    }
}
