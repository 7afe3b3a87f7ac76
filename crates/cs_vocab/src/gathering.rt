//! Words as they come, before they are sorted, most of them kept once.
ghost use Rattle.std.specs.Prelude.{◌≡◌, ◌≤◌, ◌<◌, ◌^◌, [], ◌∷◌, ◌++◌, IfOk, IfErr, OnErr, OnOk, length, map};
ghost use Rattle.cs_base.specs.declared.content.limits.TheConstants.{MAX_ROWS, MAX_WORD_BYTES};
ghost use Rattle.cs_vocab.specs.Ranges.{IsWordAt};
ghost use Rattle.cs_vocab.specs.Gathering.{AreWordSlots, HasTaken, IsGathering, gathered};

use crate::hash::hash_of;
use crate::same::are_same_bytes;
use cs_base::{Memory, Row, Word};
use std::alloc::Global;

// The slots that a gathering begins with.
const FIRST_SLOTS: usize = 1 << 12;

// The most slots that a gathering has.
const MAX_SLOTS: usize = 1 << 23;

// Where there are fewer than so many slots for each word kept, they become GROWTH times as many.
const SLOTS_A_WORD: usize = 2;

// How many times as many slots there are when they have grown.
const GROWTH: usize = 4;

// The most slots that are looked at for a word.
const PROBES: usize = 8;

// What stands in a slot that is free: the index of no word.
const NO_WORD: u32 = u32::MAX;

/// Words one after the other, most of them kept once.
///
/// The bytes of a word choose a slot, and the word is looked for there and in a few slots behind. A slot that is taken
/// has the index of a word that is kept: the first that names the same word gives the index, the first that is free
/// takes the word, and where all have other words, the chosen one goes over to this word. So a word is kept once more
/// only where others stand in all of its slots. Words that were chosen to share slots make the gathering longer, up
/// to one for each that came, with no more looks for each, and change nothing else. Contracts say that an index that
/// is found names the same word; of slots, and of how bytes choose them, they say no more than bounds.
#[derive(Debug, Drop)]
pub struct Gathering {
    /// Every word that came, some of them more than once.
    pub(crate) words: Vec<Word>,
    /// Word by word, in the order in which they came, its index among them.
    pub(crate) indices: Vec<u32>,
    /// Slot by slot, the index of a word that is kept, or `NO_WORD`. They grow with the words, up to `MAX_SLOTS`.
    pub(crate) slots: Vec<u32>,
}

impl Gathering {
    /// No words, with room for the indices of so many.
    pub fn with_capacity(alloc: Global, words: usize) -> Result<Gathering, Memory>
        ensures none { IfOk result (λ g. gathered g ≡ []) }
        ensures is { IfOk result IsGathering }
    {
        Ok(Gathering {
            words: Vec::new(alloc),
            indices: Vec::with_capacity(alloc, words)?,
            slots: vec![in alloc; NO_WORD; FIRST_SLOTS]?,
        })
    }

    /// How many words came.
    pub fn len(&self) -> usize
        ensures { result ≡ length (gathered self.now) }
    {
        self.indices.len()
    }

    /// Adds the word of these bytes at the end. Where memory runs out, the gathering is as it was.
    #[inline]
    pub fn push(&mut self, alloc: Global, word: &[u8]) -> Result<(), Memory>
        requires is { IsGathering self.old }
        requires few { length (gathered self.old) < MAX_ROWS }
        requires some { 1 ≤ length word.now }
        requires few_bytes { length word.now ≤ MAX_WORD_BYTES }

        ensures word { OnOk result (gathered self.new ≡ gathered self.old ++ word.now ∷ []) }
        ensures err { OnErr result (gathered self.new ≡ gathered self.old) }
        ensures is { IsGathering self.new }
    {
        self.indices.reserve(1)?;
        let index = index_of(alloc, &mut self.words, &mut self.slots, word)?;
        self.indices.push_reserved(index);
        Ok(())
    }
}

/// Gathers the words of rows.
pub(crate) fn gather(alloc: Global, rows: &[Row]) -> Result<Gathering, Memory>
    requires few { length rows.now ≤ MAX_ROWS }

    ensures words { IfOk result (λ g. gathered g ≡ map (λ r. r.word) rows.now) }
    ensures is { IfOk result IsGathering }
{
    let mut gathering = Gathering::with_capacity(alloc, rows.len())?;
    for row in rows {
        gathering.push(alloc, row.word.bytes())?;
    }
    Ok(gathering)
}

// The index of a word: the one kept for it, else behind all others, where the word is added.
#[inline(always)]
fn index_of(
    alloc: Global,
    words: &mut Vec<Word>,
    slots: &mut Vec<u32>,
    word: &[u8],
) -> Result<u32, Memory>
    requires few { length words.old.items < 2 ^ 32 }
    requires slots { AreWordSlots slots.old.items }
    requires some { 1 ≤ length word.now }
    requires few_bytes { length word.now ≤ MAX_WORD_BYTES }

    ensures at { IfOk result (λ n. IsWordAt words.new.items n word.now) }
    ensures taken { OnOk result (HasTaken words.old.items words.new.items word.now) }
    ensures err { OnErr result (words.new.items ≡ words.old.items) }
    ensures slots { AreWordSlots slots.new.items }
{
    match look(words.as_slice(), slots.as_slice(), word) {
        Ok(index) => Ok(index),
        Err(slot) => add(alloc, words, slots, slot, word),
    }
}

// Adds a word behind all others, and its index in a slot. Where there is no memory for more slots, it goes on with those there are.
#[inline(never)]
fn add(
    alloc: Global,
    words: &mut Vec<Word>,
    slots: &mut Vec<u32>,
    slot: usize,
    word: &[u8],
) -> Result<u32, Memory>
    requires few { length words.old.items < 2 ^ 32 }
    requires slots { AreWordSlots slots.old.items }
    requires in_range { slot < length slots.old.items }
    requires some { 1 ≤ length word.now }
    requires few_bytes { length word.now ≤ MAX_WORD_BYTES }

    ensures at { IfOk result (λ n. IsWordAt words.new.items n word.now) }
    ensures taken { OnOk result (HasTaken words.old.items words.new.items word.now) }
    ensures err { OnErr result (words.new.items ≡ words.old.items) }
    ensures slots { AreWordSlots slots.new.items }
{
    let index = words.len() as u32;
    words.push(Word::new(alloc, word)?)?;
    slots[slot] = index;
    if words.len() > slots.len() / SLOTS_A_WORD && slots.len() < MAX_SLOTS {
        let count = MAX_SLOTS.min(GROWTH * slots.len());
        if let Ok(more) = slots_for(alloc, words.as_slice(), count) {
            *slots = more;
        }
    }
    Ok(index)
}

// So many slots, filled from the words that are kept.
fn slots_for(alloc: Global, words: &[Word], count: usize) -> Result<Vec<u32>, Memory>
    requires few { length words.now ≤ 2 ^ 32 }
    requires some_slots { 1 ≤ count }
    requires few_slots { count ≤ MAX_SLOTS }

    ensures { IfOk result (λ v. AreWordSlots v.items) }
{
    let mut slots = vec![in alloc; NO_WORD; count]?;
    for (i, word) in words.iter().enumerate() {
        if let Err(slot) = look(words, slots.as_slice(), word.bytes()) {
            slots[slot] = i as u32;
        }
    }
    Ok(slots)
}

// The index of a word, or if none of its slots names it, the slot that it takes.
#[inline(always)]
fn look(words: &[Word], slots: &[u32], word: &[u8]) -> Result<u32, usize>
    requires slots { AreWordSlots slots.now }
    requires some { 1 ≤ length word.now }

    ensures found { IfOk result (λ n. IsWordAt words.now n word.now) }
    ensures missed { IfErr result (λ slot. slot < length slots.now) }
{
    let first = slot_of(word, slots.len());
    let mut slot = first;
    for _ in 0..PROBES {
        let index = slots[slot];
        match words.get(index as usize) {
            None => return Err(slot),
            Some(there) if are_same_bytes(there.bytes(), word) => return Ok(index),
            Some(_) => slot = behind(slot, slots.len()),
        }
    }
    Err(first)
}

// The slot behind one of so many, the first behind the last.
fn behind(slot: usize, slots: usize) -> usize
    requires { slot < slots }

    ensures { result < slots }
{
    if slot + 1 < slots { slot + 1 } else { 0 }
}

// The slot that a word chooses of so many.
#[inline(always)]
fn slot_of(word: &[u8], slots: usize) -> usize
    requires some { 1 ≤ length word.now }
    requires some_slots { 0 < slots }
    requires few_slots { slots < 2 ^ 32 }

    ensures { result < slots }
{
    let part = u64::from(hash_of(word)) * slots as u64;
    (part >> 32) as usize
}
