//! Ranges of words, and what was read of blocks by their numbers, that are held from one request to the next, within one bound on their bytes.
//!
//! A range that is used is taken out, and held anew behind its use; hits of a first part are lent where it stands, and copied before anything is
//! held. So nothing that is in use is let go.
ghost use Rattle.std.specs.Prelude.{◌≡◌, ◌+◌, ◌<◌, ◌≤◌, ◌^◌, [], None, false, true, length, take, IfSome, if◌then◌else◌};
ghost use Rattle.std.specs.List.{All, list_any};
ghost use Rattle.cs_file.specs.BlockBytes.{FitsBlock, HasFileBytes};
ghost use Rattle.cs_file.specs.Indexes.{IndexView};
ghost use Rattle.cs_base.specs.declared.content.scores.TheConstants.{MAX_ROW_SCORE};
ghost use Rattle.cs_rows.specs.KnownHits.{AreHitsOfWords};
ghost use Rattle.cs_rows.specs.Steps.{IsBaseOf};
ghost use Rattle.cs_rows.specs.Stocked.{Stock};
ghost use Rattle.cs_engine.specs.declared.held.Holding.TheVariants as holding;
ghost use Rattle.cs_engine.specs.declared.held.HeldKind.TheVariants as kinds;
ghost use Rattle.cs_engine.specs.HeldRanges.{AreHeldOver, FitsRange, HoldsMore, IsFirstOf, IsWithout, OnlyGoes, PassesAt, bytes_of_blocks, bytes_of_range, is_kind, is_range, range_bytes, what_bytes};

use cs_base::Base;
use cs_cols::Cols;
use cs_file::ReadBlock;
use cs_rows::{KnownHits, ReadBlocks, listed_count};
use cs_tables::WordCounts;
use std::alloc::{AllocError, Global};
use std::marker::Model;

/// So many bytes of rows, hits, counts and blocks are held at most.
pub(crate) const MAX_HELD_BYTES: u128 = 240 << 20;

/// The bytes of a range by itself, so that there are never more of them than a request can look through.
pub(crate) const RANGE_BYTES: u128 = 1 << 14;

/// The bytes of a row: three numbers and a score.
pub(crate) const ROW_BYTES: u128 = 13;

/// The bytes of a hit: its document and its score.
pub(crate) const HIT_BYTES: u128 = 8;

/// The bytes of a counted word: how many documents have it, and the last of them.
pub(crate) const COUNT_BYTES: u128 = 8;

/// So many bytes of what was read of blocks are held at most.
const MAX_BLOCKS_BYTES: u128 = 120 << 20;

/// The bytes of a block by itself, without what was read of it.
pub(crate) const BLOCK_BYTES: u128 = 1 << 7;

/// The words under which blocks are held: none, as they are held by their numbers, for whatever words.
const NO_WORDS: (u32, u32) = (0, 0);

/// So many bytes are to be had at once before a request; else what is held goes.
const REQUEST_BYTES: usize = 1 << 23;

/// What is held of a range of words.
#[derive(Drop)]
pub(crate) enum Holding {
    /// The rows of these words, in order.
    Rows(Cols),
    /// The documents that have such a row with their scores, and these words, counted.
    Counted { hits: Base, counts: WordCounts },
    /// What was read of blocks of the index, by their numbers.
    Blocks(Vec<ReadBlock>),
}

/// Which of these is held.
#[derive(Clone, Copy)]
pub(crate) enum HeldKind {
    /// Rows.
    Rows,
    /// What is counted.
    Counted,
    /// Blocks.
    Blocks,
}

/// The words from one number up to another, which is left out, with what is held of them.
#[derive(Drop)]
pub(crate) struct HeldRange {
    pub(crate) low: u32,
    pub(crate) high: u32,
    pub(crate) what: Holding,
}

/// Ranges that are held, the last used first; that its hits are lent is no use of a range.
#[derive(Drop)]
pub struct Holder {
    ranges: Vec<HeldRange>,
    // Whether little memory was left before the request.
    is_short: bool,
}

impl Model for Holder {
    ghost use Rattle.std.specs.Prelude.{List, ◌≤◌};
    ghost use Rattle.std.specs.Coded.{coded_list};
    ghost use Rattle.cs_engine.specs.HeldRanges.{range_bytes};
    ghost use Rattle.cs_engine.specs.declared.held.HeldRange.{HeldRange};
    ghost use Rattle.cs_engine.specs.declared.held.TheConstants.{MAX_HELD_BYTES};

    ghost Value = { List HeldRange };

    ghost view = { λ h. h.ranges.items };

    ghost invariant = { λ h. range_bytes h.ranges.items ≤ MAX_HELD_BYTES };
}

impl Holder {
    /// No range.
    pub fn new(alloc: Global) -> Holder
        ensures { result ≡ [] }
    {
        Holder {
            ranges: Vec::new(alloc),
            is_short: false,
        }
    }

    /// Takes out what is held of these words and of this kind.
    pub(crate) fn take(&mut self, words: (u32, u32), kind: HeldKind) -> Option<Holding>
        ensures none { result ≡ None → (self.new ≡ self.old) × (list_any (is_range words.0 words.1 kind) self.old ≡ false) }
        ensures some { IfSome result (λ w. IsWithout (record { low = words.0; high = words.1; what = w }) self.old self.new × (is_kind kind w ≡ true)) }
    {
        let place = place_of(&self.ranges, words, kind)?;
        let range = self.ranges.remove(place);
        Some(range.what)
    }

    /// The hits that are held of a query of these words alone.
    pub(crate) fn hits_of(&self, words: (u32, u32)) -> Option<KnownHits<'_>>
        ensures fits { (i : IndexView) → All (FitsRange i) self.now → IfSome result (λ k. IsBaseOf i.docs MAX_ROW_SCORE k.hits.now) }
        ensures over { (s : Stock) → AreHeldOver s self.now → IfSome result (AreHitsOfWords s) }
    {
        let place = place_of(&self.ranges, words, HeldKind::Counted)?;
        match &self.ranges[place].what {
            Holding::Counted { hits, .. } => Some(KnownHits { words, hits }),
            Holding::Rows(_) | Holding::Blocks(_) => None,
        }
    }

    /// Whether what is counted of these words is held.
    pub(crate) fn has_counted(&self, words: (u32, u32)) -> bool
        ensures { result ≡ list_any (is_range words.0 words.1 kinds.Counted) self.now }
    {
        place_of(&self.ranges, words, HeldKind::Counted).is_some()
    }

    /// Holds a range. Where more than the bound would be held, those go that weren't used for longest, and one that is larger by itself
    /// isn't held; nor is it where memory for its place is wanted.
    pub(crate) fn hold(&mut self, range: HeldRange)
        ensures large { MAX_HELD_BYTES < bytes_of_range range → self.new ≡ self.old }
        ensures held { HoldsMore range self.old self.new }
    {
        if bytes_of_range(&range) > MAX_HELD_BYTES {
            return;
        }
        if self.ranges.insert(0, range).is_err() {
            return;
        }
        let many = many_within(&self.ranges);
        self.ranges.truncate(many);
    }

    /// Lets everything go where little memory is left, and no block is held in the request then.
    pub(crate) fn let_go_where_short(&mut self, alloc: Global)
        ensures { OnlyGoes self.old self.new }
    {
        let room: Result<Vec<u8>, AllocError> = Vec::with_capacity(alloc, REQUEST_BYTES);
        let is_short = room.is_err();
        self.give_back(alloc, is_short);
        self.is_short = is_short;
    }

    /// How many bytes of blocks may be held: none where little memory was left before the request.
    fn most_of_blocks(&self) -> u128 {
        if self.is_short { 0 } else { MAX_BLOCKS_BYTES }
    }

    /// Lets everything go where memory is wanted.
    pub fn give_back(&mut self, alloc: Global, wanted: bool)
        ensures left { self.new ≡ (if wanted then [] else self.old) }
        ensures bounded { range_bytes self.new ≤ MAX_HELD_BYTES }
    {
        if wanted {
            self.ranges = Vec::new(alloc);
        }
    }
}

/// What was read of blocks, by their numbers, taken out of what is held, with room for as many bytes as may be held of them.
pub(crate) fn taken_blocks(alloc: Global, held: &mut Holder) -> ReadBlocks
    ensures fit { (i : IndexView) → All (FitsRange i) held.old → All (FitsBlock i) result.blocks.items }
    ensures file { (s : Stock) → AreHeldOver s held.old → All (HasFileBytes s.bytes) result.blocks.items }
    ensures held { OnlyGoes held.old held.new }
{
    let most = held.most_of_blocks();
    match held.take(NO_WORDS, HeldKind::Blocks) {
        Some(Holding::Blocks(blocks)) => ReadBlocks::new(blocks, most),
        Some(Holding::Rows(_) | Holding::Counted { .. }) | None => {
            ReadBlocks::new(Vec::new(alloc), most)
        }
    }
}

/// Holds what was read of blocks, by their numbers.
pub(crate) fn hold_blocks(held: &mut Holder, read: ReadBlocks)
    ensures { HoldsMore (record { low = 0; high = 0; what = holding.Blocks read.blocks }) held.old held.new }
{
    let (low, high) = NO_WORDS;
    held.hold(HeldRange {
        low,
        high,
        what: Holding::Blocks(read.blocks),
    });
}

// How many of the first ranges have room together.
fn many_within(ranges: &[HeldRange]) -> usize
    ensures { IsFirstOf ranges.now (take result ranges.now) }
{
    let mut bytes = 0;
    for (i, range) in ranges.iter().enumerate() {
        bytes += bytes_of_range(range);
        if bytes > MAX_HELD_BYTES {
            return i;
        }
    }
    ranges.len()
}

// The bytes of a range.
fn bytes_of_range(range: &HeldRange) -> u128
    ensures bytes { result ≡ bytes_of_range range.now }
    ensures few { result < 2 ^ 127 }
{
    RANGE_BYTES + bytes_held(&range.what, range.high.saturating_sub(range.low))
}

// The bytes of what is held of so many words.
fn bytes_held(what: &Holding, words: u32) -> u128
    ensures bytes { result ≡ what_bytes what.now words }
    ensures few { result < 2 ^ 126 }
{
    match what {
        Holding::Rows(rows) => ROW_BYTES * rows.len() as u128,
        Holding::Counted { hits, .. } => {
            HIT_BYTES * listed_count(hits) as u128 + COUNT_BYTES * u128::from(words)
        }
        Holding::Blocks(blocks) => bytes_of_blocks(blocks),
    }
}

// The bytes of blocks and of what was read of them.
fn bytes_of_blocks(blocks: &[ReadBlock]) -> u128
    ensures bytes { result ≡ bytes_of_blocks blocks.now }
    ensures few { result < 2 ^ 126 }
{
    let mut bytes = 0;
    for block in blocks {
        bytes += BLOCK_BYTES + block.size();
    }
    bytes
}

// The place of what is held of these words and of this kind.
fn place_of(ranges: &[HeldRange], words: (u32, u32), kind: HeldKind) -> Option<usize>
    ensures none { result ≡ None → list_any (is_range words.0 words.1 kind) ranges.now ≡ false }
    ensures some { IfSome result (λ k. PassesAt (is_range words.0 words.1 kind) ranges.now k) }
{
    for (i, range) in ranges.iter().enumerate() {
        if is_range(range, words, kind) {
            return Some(i);
        }
    }
    None
}

// Whether a range is of these words, and what is held of it of this kind.
fn is_range(range: &HeldRange, words: (u32, u32), kind: HeldKind) -> bool
    ensures { result ≡ is_range words.0 words.1 kind range.now }
{
    range.low == words.0 && range.high == words.1 && is_kind(&range.what, kind)
}

// Whether it is of this kind.
fn is_kind(what: &Holding, kind: HeldKind) -> bool
    ensures { result ≡ is_kind kind what.now }
{
    match what {
        Holding::Rows(_) => matches!(kind, HeldKind::Rows),
        Holding::Counted { .. } => matches!(kind, HeldKind::Counted),
        Holding::Blocks(_) => matches!(kind, HeldKind::Blocks),
    }
}
