//! A block that is decoded.
ghost use Rattle.std.specs.Prelude.{◌≡◌, true, length};
ghost use Rattle.cs_model_index.specs.Blocks.{IsShaped};

use crate::numbers::Numbers;
use cs_base::{BlockHead, MAX_WORDS, Memory, USUAL_WEIGHTS};
use cs_block::{BlockFault, decode};
use cs_cols::Cols;
use cs_gaps::put_gap;
use std::alloc::Global;

/// A block has so many words, or as many as it has rows if these are fewer.
const WORDS: u32 = 200;

/// The bytes of a block with its head, and how many documents its collection has.
#[derive(Drop)]
struct Block {
    bytes: Vec<u8>,
    head: BlockHead,
    docs: u32,
}

/// Decodes a plain block of so many rows, whose documents are 0, `stride` or twice `stride` apart, so often: a number
/// that depends on the last row of each pass.
pub(crate) fn decoded(
    alloc: Global,
    rows: u32,
    stride: u32,
    times: u32,
) -> Result<Option<u64>, Memory> {
    let block = made_block(alloc, rows, stride)?;
    if !block.is_shaped() {
        return Ok(None);
    }
    let mut into = Cols::new(alloc);
    let mut sum: u64 = 0;
    for _ in 0..times {
        into.truncate(0);
        match decode(
            block.bytes.as_slice(),
            &block.head,
            block.docs,
            USUAL_WEIGHTS,
            &mut into,
        ) {
            Ok(()) => sum = sum.wrapping_add(told(&into)),
            Err(BlockFault::Rule { .. }) => return Ok(None),
            Err(BlockFault::Memory) => return Err(Memory),
        }
    }
    Ok(Some(sum))
}

impl Block {
    // Whether the head goes with the bytes.
    fn is_shaped(&self) -> bool
        ensures { result ≡ true → IsShaped self.now.head (length self.now.bytes.items) }
    {
        let head = self.head;
        self.bytes.len() == head.len as usize
            && head.words <= head.rows
            && 8 * u64::from(head.rows) <= u64::from(head.len)
            && u64::from(head.len) <= 12 * u64::from(head.rows)
            && head.lo as usize + head.words as usize <= MAX_WORDS
    }
}

fn made_block(alloc: Global, rows: u32, stride: u32) -> Result<Block, Memory> {
    let words = rows.clamp(1, WORDS);
    let mut numbers = Numbers::from_seed(1);
    let mut bytes = Vec::new(alloc);
    let mut locals = Vec::new(alloc);
    let mut places = Vec::new(alloc);
    let mut scores = Vec::new(alloc);
    let mut doc: u32 = 0;
    let mut pos: u32 = 0;
    for _ in 0..rows {
        let number = numbers.next();
        let gap = (number % 4).saturating_sub(1).saturating_mul(stride);
        doc = doc.saturating_add(gap);
        pos = if gap == 0 { pos } else { 0 };
        pos = pos.saturating_add(1 + number / 4 % 16);
        put_gap(&mut bytes, gap)?;
        locals.extend_from_slice(&((number / 64 % words) as u16).to_be_bytes())?;
        places.extend_from_slice(&pos.to_be_bytes())?;
        scores.push(if number % 8 == 0 {
            USUAL_WEIGHTS.title
        } else {
            USUAL_WEIGHTS.text
        })?;
    }
    bytes.extend_from_slice(locals.as_slice())?;
    bytes.extend_from_slice(places.as_slice())?;
    bytes.extend_from_slice(scores.as_slice())?;
    let head = BlockHead {
        lo: 1000,
        words,
        rows,
        len: u32::try_from(bytes.len()).unwrap_or(0),
        facet: false,
        least: 0,
        greatest: doc,
    };
    Ok(Block {
        bytes,
        head,
        docs: doc.saturating_add(1),
    })
}

// A number of how many posts there are and the last one.
fn told(posts: &Cols) -> u64 {
    if posts.len() == 0 {
        return 0;
    }
    let last = posts.get(posts.len() - 1);
    (posts.len() as u64)
        .wrapping_add(u64::from(last.doc))
        .wrapping_add(u64::from(last.word))
        .wrapping_add(u64::from(last.pos))
}
