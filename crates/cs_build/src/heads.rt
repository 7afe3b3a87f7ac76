//! The heads of blocks.
ghost use Rattle.std.specs.Prelude.{◌≡◌, ℕ, ◌≤◌, ◌<◌, length, map, IfOk};
ghost use Rattle.std.specs.List.{AllByRecursion, zip};
ghost use Rattle.cs_base.specs.{declared.content.limits.TheConstants.{MAX_ROWS}, index.GapCode.{code}};
ghost use Rattle.cs_model_index.specs.{BlockBounds.{greatest_of, least_of}, Blocks.{block_bytes}};
ghost use Rattle.cs_build.specs.WordRuns.{run_head};

use crate::parting::{Run, begins_as_facet};
use cs_base::{BlockHead, Memory};
use cs_cols::Cols;
use cs_vocab::Vocab;
use std::alloc::Global;

/// What the directory says of each run and its block.
pub(crate) fn run_heads(
    alloc: Global,
    words: &Vocab,
    runs: &[Run],
    blocks: &[Cols],
) -> Result<Vec<BlockHead>, Memory>
    requires each { length runs.now ≡ length blocks.now }
    requires inside { AllByRecursion (λ run. run.lo < length words.now) runs.now }
    requires few { AllByRecursion (λ b. length b.posts ≤ MAX_ROWS) blocks.now }

    ensures { IfOk result (λ heads. heads.items ≡ map (run_head words.now) (zip runs.now (map (λ b. b.posts) blocks.now))) }
{
    let mut heads = Vec::with_capacity(alloc, runs.len())?;
    for (i, run) in runs.iter().enumerate() {
        let block = &blocks[i];
        let (least, greatest) = bounds_of(block);
        heads.push(BlockHead {
            lo: run.lo,
            words: run.words,
            rows: run.rows,
            len: bytes_of(block),
            facet: begins_as_facet(words.word(run.lo)),
            least,
            greatest,
        })?;
    }
    Ok(heads)
}

// The documents of a block's first and last row; 0 and 0 of no rows.
fn bounds_of(block: &Cols) -> (u32, u32)
    ensures least { result.0 ≡ least_of block.now.posts }
    ensures greatest { result.1 ≡ greatest_of block.now.posts }
{
    let docs = block.docs();
    let least = docs.first().copied().unwrap_or(0);
    let greatest = docs.last().copied().unwrap_or(0);
    (least, greatest)
}

// How many bytes a block has.
fn bytes_of(block: &Cols) -> u32
    requires few { length block.now.posts ≤ MAX_ROWS }

    // wherever its words begin
    ensures { (lo : ℕ) → result ≡ length (block_bytes block.now.posts lo) }
{
    let mut bytes = 0;
    let mut before = 0;
    for i in 0..block.len() {
        let doc = block.get(i).doc;
        bytes += 7 + code_len(doc.saturating_sub(before));
        before = doc;
    }
    bytes
}

// How many bytes the gap code of a number has.
fn code_len(n: u32) -> u32
    ensures value { result ≡ length (code n) }
    ensures few { result ≤ 5 }
{
    if n < 1 << 7 {
        1
    } else if n < 1 << 14 {
        2
    } else if n < 1 << 21 {
        3
    } else if n < 1 << 28 {
        4
    } else {
        5
    }
}
