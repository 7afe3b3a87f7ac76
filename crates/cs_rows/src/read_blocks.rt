//! What was read of blocks of an index, by their numbers, within one bound on their bytes.
ghost use Rattle.std.specs.Prelude.{◌≡◌, ℕ, List, []};
ghost use Rattle.std.specs.List.{All};
ghost use Rattle.cs_file.specs.Indexes.{IndexView};
ghost use Rattle.cs_file.specs.BlockBytes.{FitsBlock, HasFileBytes};

use cs_file::{ReadBlock, Sought};
use std::alloc::Global;

/// So many blocks have a place at most, more than as many rows as may be have in blocks that are as full as they may be.
const MAX_PLACES: u32 = 1 << 16;

/// What was read of blocks of an index, by their numbers.
#[derive(Drop)]
pub struct ReadBlocks {
    /// The blocks. In the place of one that isn't there is none, or another, or it is behind the last.
    pub blocks: Vec<ReadBlock>,
    // So many bytes more have room.
    left: u128,
}

impl ReadBlocks {
    /// These blocks, and room for others while all of them have at most `most` bytes.
    pub fn new(blocks: Vec<ReadBlock>, most: u128) -> ReadBlocks
        ensures { result.blocks ≡ blocks }
    {
        let left = room_left(most, &blocks);
        ReadBlocks { blocks, left }
    }

    /// No block, and no room for one.
    pub fn none(alloc: Global) -> ReadBlocks
        ensures { result.blocks.items ≡ [] }
    {
        ReadBlocks {
            blocks: Vec::new(alloc),
            left: 0,
        }
    }

    /// Makes places for the blocks below this number, at most `MAX_PLACES`, where a byte has room.
    pub(crate) fn reach(&mut self, alloc: Global, last: u32)
        ensures fit { (i : IndexView) → All (FitsBlock i) self.old.blocks.items → All (FitsBlock i) self.new.blocks.items }
        ensures file { (b : List ℕ) → All (HasFileBytes b) self.old.blocks.items → All (HasFileBytes b) self.new.blocks.items }
    {
        if self.left > 0 {
            add_places(alloc, &mut self.blocks, last.min(MAX_PLACES) as usize);
        }
    }

    /// Puts what was read of block `k` into its place, where it has one and there is room; else it stays in `sought`. The bytes of another
    /// block that was there aren't counted back.
    pub(crate) fn put(&mut self, alloc: Global, k: u32, sought: &mut Sought)
        ensures fit { (i : IndexView) → FitsBlock i sought.old.block → All (FitsBlock i) self.old.blocks.items
            → All (FitsBlock i) self.new.blocks.items }
        ensures file { (b : List ℕ) → HasFileBytes b sought.old.block → All (HasFileBytes b) self.old.blocks.items
            → All (HasFileBytes b) self.new.blocks.items }
        ensures posts { sought.new.posts ≡ sought.old.posts }
    {
        let size = sought.block.size();
        if size > self.left {
            return;
        }
        if let Some(place) = self.blocks.get_mut(k as usize) {
            *place = sought.take_block(alloc);
            self.left -= size;
        }
    }
}

// Sees to it that there are so many places, those behind the ones that there are without a block. Where memory for one is wanted there are
// fewer, and blocks without a place are read each time.
fn add_places(alloc: Global, blocks: &mut Vec<ReadBlock>, many: usize)
    ensures fit { (i : IndexView) → All (FitsBlock i) blocks.old.items → All (FitsBlock i) blocks.new.items }
    ensures file { (b : List ℕ) → All (HasFileBytes b) blocks.old.items → All (HasFileBytes b) blocks.new.items }
{
    for _ in blocks.len()..many {
        if blocks.push(ReadBlock::none(alloc)).is_err() {
            return;
        }
    }
}

// How many of so many bytes are left beside these blocks.
fn room_left(most: u128, blocks: &[ReadBlock]) -> u128 {
    let mut left = most;
    for block in blocks {
        left = left.saturating_sub(block.size());
    }
    left
}
