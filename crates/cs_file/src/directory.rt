//! The directory of an index file: what it says of each block.
ghost use Rattle.std.specs.Prelude.{◌≡◌, ◌+◌, ◌*◌, ◌≤◌, ◌<◌, ◌^◌, ◌==◌, ◌&&◌, false, length, drop, slice_index_or, IfOk, OnOk, None, if◌then◌else◌};
ghost use Rattle.std.specs.List.{sum_by};
ghost use Rattle.std.specs.Option.{ForSome};
ghost use Rattle.cs_base.specs.declared.content.limits.TheConstants.{MAX_WORDS};
ghost use Rattle.cs_model_index.specs.FileRules.{break_of, is_joined, is_of_one_kind, is_sized, laid, last_value, tried, words_end};
ghost use Rattle.cs_model_index.specs.Layout.{entry_size};
ghost use Rattle.cs_model_index.specs.Sections.{directory_at, number_at};
ghost use Rattle.cs_file.specs.CallAnswers.{is_read_of_open};
ghost use Rattle.cs_file.specs.HeaderView.{seen_header};
ghost use Rattle.cs_file.specs.Indexes.{CausedReads};
ghost use Rattle.cs_file.specs.Opening.{AreBytes, Judges, IsHeader, HasHeader, HasHeads, before, file_words, named_head, named_heads, named_in};
ghost use Rattle.cs_file.specs.Opening.{bad_joint, bad_size, directory_judged, directory_stage};

use crate::entries::Entries;
use crate::fault::OpenFault;
use crate::header::Header;
use crate::judged::{number_at, tried, unless};
use crate::kinds::{has_facet, is_of_one_kind};
use crate::reading::section;
use cs_base::{BlockHead, Memory, Store, Word};
use std::alloc::Global;

/// Reads the directory of blocks of these words, and tries rules 10 to 12. The bounds of the heads are those that the entries name, in
/// version 1 zeros.
pub(crate) fn read_directory<S: Store>(
    alloc: Global,
    store: &mut S,
    header: &Header,
    words: &[Word],
) -> Result<Vec<BlockHead>, OpenFault>
    requires ranges { IsHeader (seen_header header.now) }
    requires told { HasHeader (S.bytes store.old) (seen_header header.now) }
    requires words { ForSome (S.bytes store.old) (λ b. words.now ≡ file_words b) }
    requires few { length words.now ≤ MAX_WORDS }

    ensures exact { ForSome (S.bytes store.old) (λ b. Judges (directory_stage b) result) }
    ensures heads { ForSome (S.bytes store.old) (λ b. IfOk result (λ v. v.items ≡ named_heads b)) }
    ensures ruled { IfOk result (λ v. HasHeads (seen_header header.now) words.now v.items) }
    ensures small { ForSome (S.bytes store.old) (λ b. OnOk result (AreBytes b (directory_at (seen_header header.now)) (entry_size header.now.two * header.now.blocks))) }
    ensures bytes { S.bytes store.new ≡ S.bytes store.old }
    ensures lent { S.lent store.new ≡ S.lent store.old }
    ensures caused { CausedReads (is_read_of_open result) (S.faults store.old) (S.faults store.new) }
{
    let len = header.entry_bytes() as usize * header.blocks as usize;
    let bytes = section(alloc, store, header.directory_at(), len)?;
    let heads = heads(alloc, words, &bytes, header)?;
    judge_heads(&heads, header, words)?;
    Ok(heads)
}

// The heads whose entries stand one behind the other.
fn heads(
    alloc: Global,
    words: &[Word],
    bytes: &[u8],
    header: &Header,
) -> Result<Vec<BlockHead>, Memory>
    requires { length bytes.now ≡ entry_size header.now.two * header.now.blocks }

    ensures { IfOk result (λ v. v.items ≡ named_in header.now.two words.now header.now.blocks bytes.now) }
{
    let count = header.blocks as usize;
    let size = header.entry_bytes() as usize;
    let mut heads = Vec::with_capacity(alloc, count)?;
    for i in 0..count {
        heads.push(head_at(words, bytes, size * i, header.two))?;
    }
    Ok(heads)
}

// The head whose entry stands at a place.
fn head_at(words: &[Word], bytes: &[u8], at: usize, two: bool) -> BlockHead
    requires { at + entry_size two ≤ length bytes.now }

    ensures { result ≡ named_head two words.now (drop at bytes.now) }
{
    let lo = number_at(bytes, at);
    let (least, greatest) = bounds_at(bytes, at, two);
    BlockHead {
        lo,
        words: number_at(bytes, at + 4),
        rows: number_at(bytes, at + 8),
        len: number_at(bytes, at + 12),
        facet: has_facet(words, lo),
        least,
        greatest,
    }
}

// The bounds that the entry at a place names.
#[tactic(auto, unfolding(cs_model_index::specs::Layout::entry_size))]
fn bounds_at(bytes: &[u8], at: usize, two: bool) -> (u32, u32)
    requires { at + entry_size two ≤ length bytes.now }

    ensures least { result.0 ≡ (if two then number_at bytes.now (at + 16) else 0) }
    ensures greatest { result.1 ≡ (if two then number_at bytes.now (at + 20) else 0) }
{
    if two {
        (number_at(bytes, at + 16), number_at(bytes, at + 20))
    } else {
        (0, 0)
    }
}

// Tries rules 10 to 12.
fn judge_heads(heads: &[BlockHead], header: &Header, words: &[Word]) -> Result<(), OpenFault>
    requires ranges { IsHeader (seen_header header.now) }
    requires few { length words.now ≤ MAX_WORDS }
    requires blocks { length heads.now ≤ MAX_WORDS }

    ensures exact { Judges (directory_judged (seen_header header.now) words.now heads.now) result }
    ensures unread { is_read_of_open result ≡ false }
{
    tried(10, bad_joint(heads, header))?;
    tried(11, bad_kind(heads, header.entries(), words))?;
    tried(12, bad_size(heads, header))
}

// The place of the first block that doesn't begin where the one before ends, or of the directory's end.
fn bad_joint(heads: &[BlockHead], header: &Header) -> Option<u64>
    requires { length heads.now ≤ MAX_WORDS }

    ensures { result ≡ bad_joint (seen_header header.now) heads.now }
{
    let ends = last_end(heads) == u64::from(header.words);
    bad_start(heads, header.entries()).or(unless(ends, header.blocks_at()))
}

// Where the words of the last block end, 0 where there is none.
fn last_end(heads: &[BlockHead]) -> u64
    ensures { result ≡ words_end (last_value heads.now) }
{
    match heads.last() {
        Some(head) => end_of(head),
        None => 0,
    }
}

fn end_of(head: &BlockHead) -> u64
    ensures value { result ≡ head.now.lo + head.now.words }
    ensures small { result < 2 ^ 33 }
{
    u64::from(head.lo) + u64::from(head.words)
}

// The place of the first block that has no word, or doesn't begin where the one before ends.
fn bad_start(heads: &[BlockHead], entries: Entries) -> Option<u64>
    requires few { length heads.now ≤ MAX_WORDS }
    requires places { entries.first < 2 ^ 40 }

    ensures { result ≡ break_of (λ i. is_joined i.last i.value) (laid (λ h. entries.size) entries.first None heads.now) }
{
    for i in 0..heads.len() {
        if !is_joined(heads, i) {
            return Some(entries.place(i));
        }
    }
    None
}

// Whether block `i` begins where the one before ends, and has a word.
#[tactic(auto, unfolding(crate::specs::Opening::before))]
fn is_joined(heads: &[BlockHead], i: usize) -> bool
    requires { i < length heads.now }

    ensures { result ≡ is_joined (before heads.now i) (slice_index_or heads.now i (record { lo = 0; words = 0; rows = 0; len = 0; facet = false; least = 0; greatest = 0 })) }
{
    let head = heads[i];
    let end = if i == 0 { 0 } else { end_of(&heads[i - 1]) };
    u64::from(head.lo) == end && 1 <= head.words
}

// The place of the first block that has too many words, or words of two kinds.
fn bad_kind(heads: &[BlockHead], entries: Entries, words: &[Word]) -> Option<u64>
    requires few { length heads.now ≤ MAX_WORDS }
    requires places { entries.first < 2 ^ 40 }

    ensures { result ≡ break_of (λ i. is_of_one_kind words.now i.value) (laid (λ h. entries.size) entries.first None heads.now) }
{
    for i in 0..heads.len() {
        if !is_of_one_kind(words, &heads[i]) {
            return Some(entries.place(i));
        }
    }
    None
}

// The place of the first block with too few or too many rows or bytes, or of the directory's end where all have.
fn bad_size(heads: &[BlockHead], header: &Header) -> Option<u64>
    requires { length heads.now ≤ MAX_WORDS }

    ensures { result ≡ bad_size (seen_header header.now) heads.now }
{
    let sums = has_sums(heads, header);
    bad_shape(heads, header.entries()).or(unless(sums, header.blocks_at()))
}

// Whether the rows and the bytes of all blocks are those of the header.
fn has_sums(heads: &[BlockHead], header: &Header) -> bool
    requires { length heads.now ≤ MAX_WORDS }

    ensures { result ≡ (sum_by (λ h. h.rows) heads.now == header.now.rows && sum_by (λ h. h.len) heads.now == header.now.blocks_len) }
{
    let (rows, bytes) = sums_of(heads);
    rows == u64::from(header.rows) && bytes == u64::from(header.blocks_len)
}

fn bad_shape(heads: &[BlockHead], entries: Entries) -> Option<u64>
    requires few { length heads.now ≤ MAX_WORDS }
    requires places { entries.first < 2 ^ 40 }

    ensures { result ≡ break_of (λ i. is_sized i.value) (laid (λ h. entries.size) entries.first None heads.now) }
{
    for i in 0..heads.len() {
        if !is_sized(&heads[i]) {
            return Some(entries.place(i));
        }
    }
    None
}

// Whether a block has as many rows and bytes as it may have.
fn is_sized(head: &BlockHead) -> bool
    ensures { result ≡ is_sized head.now }
{
    let rows = u64::from(head.rows);
    let len = u64::from(head.len);
    head.words <= head.rows && 8 * rows <= len && len <= 12 * rows
}

// How many rows, and how many bytes, all blocks have.
fn sums_of(heads: &[BlockHead]) -> (u64, u64)
    requires { length heads.now ≤ MAX_WORDS }

    ensures rows { result.0 ≡ sum_by (λ h. h.rows) heads.now }
    ensures bytes { result.1 ≡ sum_by (λ h. h.len) heads.now }
{
    let mut rows: u64 = 0;
    let mut bytes: u64 = 0;
    for head in heads {
        let BlockHead {
            rows: more,
            len,
            ..
        } = *head;
        rows += u64::from(more);
        bytes += u64::from(len);
    }
    (rows, bytes)
}
