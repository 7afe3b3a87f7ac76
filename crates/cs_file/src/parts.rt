//! What rules 18 and 19 ask of blocks, and these rules.
ghost use Rattle.std.specs.Prelude.{◌≡◌, ◌+◌, ◌≤◌, ◌<◌, ◌^◌, ◌==◌, length, count_by, map, slice_index_or, IfOk, None, All};
ghost use Rattle.std.specs.List.{list_all, list_any, range_with_len, slice_get, zip};
ghost use Rattle.std.specs.Option.{unwrap_or};
ghost use Rattle.cs_base.specs.declared.content.limits.TheConstants.{MAX_ROWS, MAX_WORDS};
ghost use Rattle.cs_model_index.specs.FileRules.{break_of, is_bound, laid, last_value};
ghost use Rattle.cs_model_index.specs.Partitions.{is_full, is_light};
ghost use Rattle.cs_file.specs.Parting.{HasMarks, bounded_by, bounds_of, is_closed_by, keeps_part, no_part};

use crate::entries::Entries;
use crate::kinds::are_alike;
use crate::part::BlockPart;
use crate::reading::zeros;
use cs_base::{BlockHead, Memory, Seq, Word};
use cs_model_index::MAX_BLOCK_WORDS;
use std::alloc::Global;

/// What rules 18 and 19 ask of a block whose rows have these documents and words.
pub(crate) fn block_part(
    alloc: Global,
    head: &BlockHead,
    docs: &[u32],
    words: &[u32],
) -> Result<BlockPart, Memory>
    requires few { length words.now ≤ MAX_ROWS }
    requires within { All (λ w. (head.now.lo ≤ w) × (w < head.now.lo + head.now.words)) words.now }

    ensures head { IfOk result (λ p. p.head ≡ bounded_by head.now docs.now) }
    ensures whole { IfOk result (λ p. p.whole ≡ list_all (λ n. list_any (λ w. w == n) words.now) (range_with_len head.now.lo head.now.words)) }
    ensures first { IfOk result (λ p. p.first ≡ count_by (λ w. w == head.now.lo) words.now) }
{
    let marks = marks_of(alloc, words, head.lo, head.words)?;
    Ok(BlockPart {
        head: bounded_by(head, docs),
        whole: are_marked(&marks),
        first: count_of(words, head.lo),
    })
}

// A block's head with the bounds of rows that have these documents.
fn bounded_by(head: &BlockHead, docs: &[u32]) -> BlockHead
    ensures { result ≡ bounded_by head.now docs.now }
{
    BlockHead {
        least: first_of(docs),
        greatest: last_of(docs),
        ..*head
    }
}

// The first document, 0 where there is none.
fn first_of(docs: &[u32]) -> u32
    ensures { result ≡ unwrap_or (slice_get docs.now 0) 0 }
{
    match docs.first() {
        Some(doc) => *doc,
        None => 0,
    }
}

// The last document, 0 where there is none.
fn last_of(docs: &[u32]) -> u32
    ensures { result ≡ unwrap_or (last_value docs.now) 0 }
{
    match docs.last() {
        Some(doc) => *doc,
        None => 0,
    }
}

// A mark for each of so many words from `lo` on, 1 where it is one of these.
fn marks_of(alloc: Global, words: &[u32], lo: u32, count: u32) -> Result<Vec<u8>, Memory>
    requires { All (λ w. (lo ≤ w) × (w < lo + count)) words.now }

    ensures { IfOk result (λ v. HasMarks words.now lo count v.items) }
{
    let mut marks = zeros(alloc, count as usize)?;
    for word in words {
        marks[(*word - lo) as usize] = 1;
    }
    Ok(marks)
}

fn are_marked(marks: &[u8]) -> bool
    ensures { result ≡ list_all (λ m. m == 1) marks.now }
{
    marks.iter().all(|m| *m == 1)
}

fn count_of(words: &[u32], n: u32) -> u32
    requires { length words.now ≤ MAX_ROWS }

    ensures { result ≡ count_by (λ w. w == n) words.now }
{
    words.iter().filter(|w| **w == n).count() as u32
}

/// The place of the first block that isn't as long as it may be, or has a word without a row.
pub(crate) fn bad_part(
    words: &[Word],
    parts: &[BlockPart],
    target: u32,
    entries: Entries,
) -> Option<u64>
    requires few { length parts.now ≤ MAX_WORDS }
    requires places { entries.first < 2 ^ 40 }

    ensures { result ≡ break_of (λ i. keeps_part target words.now i.value i.next) (laid (λ p. entries.size) entries.first None parts.now) }
{
    for i in 0..parts.len() {
        if !keeps_part(words, parts, i, target) {
            return Some(entries.place(i));
        }
    }
    None
}

// Whether block `i` keeps rule 18.
fn keeps_part(words: &[Word], parts: &[BlockPart], i: usize, target: u32) -> bool
    requires { i < length parts.now }

    ensures { result ≡ keeps_part target words.now (slice_index_or parts.now i no_part) (slice_get parts.now (i + 1)) }
{
    let part = &parts[i];
    part.whole
        && is_light(part, target)
        && is_closed(words, part, parts.get(i + 1).copied(), target)
}

fn is_light(part: &BlockPart, target: u32) -> bool
    ensures { result ≡ is_light target part.now.head.words part.now.head.rows }
{
    part.head.words <= 1 || part.head.rows <= target
}

// Whether the next block, if it is of the same kind, has a first word for which there is no room.
fn is_closed(words: &[Word], part: &BlockPart, next: Option<BlockPart>, target: u32) -> bool
    ensures { result ≡ is_closed_by target words.now part.now next }
{
    match next {
        None => true,
        Some(next) => {
            !are_alike(words, part.head.lo, next.head.lo) || is_full(part, next.first, target)
        }
    }
}

fn is_full(part: &BlockPart, more: u32, target: u32) -> bool
    ensures { result ≡ is_full target part.now.head.words (part.now.head.rows + more) }
{
    MAX_BLOCK_WORDS <= part.head.words
        || u64::from(target) < u64::from(part.head.rows) + u64::from(more)
}

/// The place of the first block whose bounds aren't those of the head that goes with it.
pub(crate) fn bad_bound(parts: &[BlockPart], heads: &[BlockHead], entries: Entries) -> Option<u64>
    requires few { length parts.now ≤ MAX_WORDS }
    requires count { length heads.now ≡ length parts.now }
    requires places { entries.first < 2 ^ 40 }

    ensures { result ≡ break_of (λ i. is_bound i.value) (laid (λ p. entries.size) entries.first None (zip (map (λ p. p.head) parts.now) (map bounds_of heads.now))) }
{
    for i in 0..parts.len() {
        if !is_bound(&parts[i].head, &heads[i]) {
            return Some(entries.place(i));
        }
    }
    None
}

// Whether two heads have the same bounds.
fn is_bound(head: &BlockHead, named: &BlockHead) -> bool
    ensures { result ≡ is_bound (head.now, bounds_of named.now) }
{
    head.least == named.least && head.greatest == named.greatest
}

/// The heads of parts.
pub(crate) fn heads_by_parts(alloc: Global, parts: &[BlockPart]) -> Result<Seq<BlockHead>, Memory>
    ensures { IfOk result (λ hs. hs ≡ map (λ p. p.head) parts.now) }
{
    let mut heads = Vec::with_capacity(alloc, parts.len())?;
    for part in parts {
        heads.push(part.head)?;
    }
    Ok(Seq::from_vec(heads))
}
