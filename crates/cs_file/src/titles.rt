//! The titles of an index file, and where they lie.
ghost use Rattle.std.specs.Prelude.{◌≡◌, ◌+◌, ◌-◌, ◌*◌, ◌≤◌, ◌<◌, ◌^◌, ◌==◌, false, length, slice_index_or, IfOk, OnOk, None};
ghost use Rattle.std.specs.Option.{ForSome, option_or, unwrap_or};
ghost use Rattle.std.specs.Str.{is_utf8};
ghost use Rattle.cs_base.specs.declared.content.limits.TheConstants.{MAX_DOCS};
ghost use Rattle.cs_model.specs.First.{unless};
ghost use Rattle.cs_model_index.specs.FileRules.{break_of, is_onward, laid, last_offset_at, last_value, tried};
ghost use Rattle.cs_model_index.specs.Sections.{numbers_in, offsets_at, titles_at};
ghost use Rattle.cs_model_index.specs.declared.limits.TheConstants.{NUMBER_BYTES};
ghost use Rattle.cs_file.specs.CallAnswers.{is_read_of_open};
ghost use Rattle.cs_file.specs.HeaderView.{seen_header};
ghost use Rattle.cs_file.specs.Indexes.{CausedReads};
ghost use Rattle.cs_file.specs.Opening.{AreBytes, AreOnwardOffsets, Judges, IsHeader, HasHeader, HasOffsets, before, bad_offset, bad_title_in, bad_title, first_offset, last_offset};
ghost use Rattle.cs_file.specs.Opening.{offsets_of, piece_in, titles_stage};

use crate::fault::OpenFault;
use crate::header::Header;
use crate::judged::{number_at, tried, unless};
use crate::reading::{PIECE, section, section_over};
use cs_base::{MAX_LINE_BYTES, Memory, Seq, Store};
use cs_model_index::NUMBER_BYTES;
use std::alloc::Global;

/// Reads where titles begin, then the titles, and tries rules 8 and 9.
pub(crate) fn read_titles<S: Store>(
    alloc: Global,
    store: &mut S,
    header: &Header,
) -> Result<Seq<u32>, OpenFault>
    requires ranges { IsHeader (seen_header header.now) }
    requires told { HasHeader (S.bytes store.old) (seen_header header.now) }

    ensures exact { ForSome (S.bytes store.old) (λ b. Judges (titles_stage b) result) }
    ensures offsets { ForSome (S.bytes store.old) (λ b. IfOk result (λ os. os ≡ offsets_of b)) }
    ensures ruled { IfOk result (λ os. HasOffsets (seen_header header.now) os) }
    ensures small { ForSome (S.bytes store.old) (λ b. OnOk result (AreBytes b (offsets_at (seen_header header.now)) (NUMBER_BYTES * (header.now.docs + 1)))) }
    ensures texts { ForSome (S.bytes store.old) (λ b. OnOk result (AreBytes b (titles_at (seen_header header.now)) header.now.titles_len)) }
    ensures bytes { S.bytes store.new ≡ S.bytes store.old }
    ensures lent { S.lent store.new ≡ S.lent store.old }
    ensures caused { CausedReads (is_read_of_open result) (S.faults store.old) (S.faults store.new) }
{
    let count = header.docs + 1;
    let len = NUMBER_BYTES as usize * count as usize;
    let bytes = section(alloc, store, header.offsets_at(), len)?;
    let offsets = numbers(alloc, &bytes, count)?;
    tried(8, bad_offset(&offsets, header))?;
    judge_titles(alloc, store, header, &offsets)?;
    Ok(Seq::from_vec(offsets))
}

// The numbers that stand one behind the other.
fn numbers(alloc: Global, bytes: &[u8], count: u32) -> Result<Vec<u32>, Memory>
    requires { length bytes.now ≡ NUMBER_BYTES * count }

    ensures { IfOk result (λ v. v.items ≡ numbers_in count bytes.now) }
{
    let mut numbers = Vec::with_capacity(alloc, count as usize)?;
    for i in 0..count as usize {
        numbers.push(number_at(bytes, NUMBER_BYTES as usize * i))?;
    }
    Ok(numbers)
}

// The place of the first offset that doesn't go on, or of the last where it isn't the titles' end.
fn bad_offset(offsets: &[u32], header: &Header) -> Option<u64>
    requires few { length offsets.now ≤ MAX_DOCS + 1 }
    requires docs { header.now.docs ≤ MAX_DOCS }

    ensures { result ≡ bad_offset (seen_header header.now) offsets.now }
{
    let first = header.offsets_at();
    let last_at = first + u64::from(NUMBER_BYTES) * u64::from(header.docs);
    bad_step(offsets, first).or(unless(last(offsets) == header.titles_len, last_at))
}

// The place of the first offset that isn't one from the one before.
fn bad_step(offsets: &[u32], first: u64) -> Option<u64>
    requires few { length offsets.now ≤ MAX_DOCS + 1 }
    requires places { first < 2 ^ 40 }

    ensures { result ≡ break_of (λ i. is_onward i.last i.value) (laid (λ o. NUMBER_BYTES) first None offsets.now) }
{
    for i in 0..offsets.len() {
        if !is_onward(offsets, i) {
            return Some(first + u64::from(NUMBER_BYTES) * i as u64);
        }
    }
    None
}

// Whether offset `i` isn't less than the one before, and at most the longest title more; the first is 0.
#[tactic(auto, unfolding(crate::specs::Opening::before))]
fn is_onward(offsets: &[u32], i: usize) -> bool
    requires { i < length offsets.now }

    ensures { result ≡ is_onward (before offsets.now i) (slice_index_or offsets.now i 0) }
{
    if i == 0 {
        return offsets[0] == 0;
    }
    is_step(offsets[i - 1], offsets[i])
}

fn is_step(before: u32, offset: u32) -> bool
    ensures { result ≡ is_onward (Some before) offset }
{
    before <= offset && u64::from(offset) <= u64::from(before) + MAX_LINE_BYTES as u64
}

/// The last offset, 0 where there is none.
pub(crate) fn last(offsets: &[u32]) -> u32
    ensures { result ≡ unwrap_or (last_value offsets.now) 0 }
{
    match offsets.last() {
        Some(last) => *last,
        None => 0,
    }
}

// Reads the titles in pieces, and tries rule 9.
fn judge_titles<S: Store>(
    alloc: Global,
    store: &mut S,
    header: &Header,
    offsets: &[u32],
) -> Result<(), OpenFault>
    requires ranges { IsHeader (seen_header header.now) }
    requires told { HasHeader (S.bytes store.old) (seen_header header.now) }
    requires ruled { HasOffsets (seen_header header.now) offsets.now }
    requires offsets { ForSome (S.bytes store.old) (λ b. offsets.now ≡ offsets_of b) }

    ensures exact { ForSome (S.bytes store.old) (λ b. Judges (tried 9 (bad_title b)) result) }
    ensures small { ForSome (S.bytes store.old) (λ b. OnOk result (AreBytes b (titles_at (seen_header header.now)) header.now.titles_len)) }
    ensures bytes { S.bytes store.new ≡ S.bytes store.old }
    ensures lent { S.lent store.new ≡ S.lent store.old }
    ensures caused { CausedReads (is_read_of_open result) (S.faults store.old) (S.faults store.new) }
{
    let first = header.titles_at();
    let mut bytes = room_for_piece(alloc, header.titles_len)?;
    let mut doc = 0;
    while doc < header.docs as usize {
        let end = piece_end(offsets, doc);
        judge_piece(store, first, &offsets[doc..end + 1], &mut bytes)?;
        doc = end;
    }
    Ok(())
}

// Room for each piece of so many bytes of titles; a title that is longer than a piece takes more.
fn room_for_piece(alloc: Global, len: u32) -> Result<Vec<u8>, Memory> {
    let room = Vec::with_capacity(alloc, (len as usize).min(PIECE))?;
    Ok(room)
}

// The number behind that of the last title of the piece that begins with title `doc`: it has as many titles as have at most `PIECE` bytes
// together, or one title that has more.
fn piece_end(offsets: &[u32], doc: usize) -> usize
    requires { doc + 1 < length offsets.now }

    ensures some { doc < result }
    ensures within { result < length offsets.now }
    ensures fits { doc + 1 < result → slice_index_or offsets.now result 0 ≤ slice_index_or offsets.now doc 0 + PIECE }
    ensures most { result + 1 < length offsets.now → slice_index_or offsets.now doc 0 + PIECE < slice_index_or offsets.now (result + 1) 0 }
{
    let room = offsets[doc] as usize + PIECE;
    let mut end = doc + 1;
    while end + 1 < offsets.len() && offsets[end + 1] as usize <= room {
        end += 1;
    }
    end
}

// Reads the titles between some offsets, which count from a place, and tries rule 9 on each.
fn judge_piece<S: Store>(
    store: &mut S,
    first: u64,
    offsets: &[u32],
    bytes: &mut Vec<u8>,
) -> Result<(), OpenFault>
    requires onward { AreOnwardOffsets offsets.now }
    requires places { first + last_offset offsets.now < 2 ^ 64 }
    requires within { ForSome (S.bytes store.old) (λ b. first + last_offset offsets.now ≤ length b) }

    ensures exact { ForSome (S.bytes store.old) (λ b. Judges (tried 9 (bad_title_in first offsets.now (piece_in b first offsets.now))) result) }
    ensures small { ForSome (S.bytes store.old) (λ b. OnOk result (AreBytes b (first + first_offset offsets.now) (last_offset offsets.now - first_offset offsets.now))) }
    ensures bytes { S.bytes store.new ≡ S.bytes store.old }
    ensures lent { S.lent store.new ≡ S.lent store.old }
    ensures caused { CausedReads (is_read_of_open result) (S.faults store.old) (S.faults store.new) }
{
    let from = offsets[0];
    let len = last(offsets) - from;
    section_over(store, first + u64::from(from), len as usize, bytes)?;
    tried(9, bad_title_in(first, offsets, bytes))
}

// The place of the first title that isn't UTF-8, of those between some offsets, which count from a place, in the bytes from the first
// offset up to the last.
fn bad_title_in(first: u64, offsets: &[u32], bytes: &[u8]) -> Option<u64>
    requires onward { AreOnwardOffsets offsets.now }
    requires whole { length bytes.now ≡ last_offset offsets.now - first_offset offsets.now }
    requires places { first + last_offset offsets.now < 2 ^ 64 }

    ensures { result ≡ bad_title_in first offsets.now bytes.now }
{
    let from = offsets[0];
    for i in 0..offsets.len() - 1 {
        let begin = (offsets[i] - from) as usize;
        let end = (offsets[i + 1] - from) as usize;
        if !is_text(&bytes[begin..end]) {
            return Some(first + u64::from(offsets[i]));
        }
    }
    None
}

fn is_text(bytes: &[u8]) -> bool
    ensures { result ≡ is_utf8 bytes.now }
{
    match std::str::from_utf8(bytes) {
        Ok(_) => true,
        Err(_) => false,
    }
}
