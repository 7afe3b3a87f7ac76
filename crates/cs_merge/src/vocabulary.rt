//! Two vocabularies brought into one.
ghost use Rattle.std.specs.Prelude.{◌≡◌, ◌≤◌, ◌<◌, ◌+◌, ◌++◌, ◌∷◌, [], false, ◌^◌, length, slice_index_or, IfOk, OnOk};
ghost use Rattle.std.specs.List.Sorted.{IsStrictlySortedBy};
ghost use Rattle.std.specs.Ordering.{nat_cmp};
ghost use Rattle.std.specs.Cmp.Lexicographic.{slice_cmp};
ghost use Rattle.cs_base.specs.declared.content.limits.TheConstants.{MAX_ROWS};
ghost use Rattle.cs_merge.specs.Vocabularies.{AreMerged, AreOfWordSize, IsMerging, IsMore, IsTurn, is_done, is_first, is_second, own_numbers, turn_word};

use cs_base::{Memory, Word};
use cs_vocab::Vocab;
use std::alloc::Global;
use std::cmp::Ordering;

/// Words that ascend, and where the first words of two vocabularies stand among them.
#[derive(Debug, Drop)]
pub struct Merging {
    /// The words.
    pub words: Vec<Word>,
    /// The number of each of the first words of the first vocabulary.
    pub first: Vec<u32>,
    /// The number of each of the first words of the second.
    pub second: Vec<u32>,
}

/// The words of two vocabularies, each once, and the number of each word of either among them.
pub fn merged(alloc: Global, a: &Vocab, b: &Vocab) -> Result<Merging, Memory>
    requires a_words { AreOfWordSize a.now }
    requires b_words { AreOfWordSize b.now }

    ensures { IfOk result (AreMerged a.now b.now) }
{
    let mut merging = none_merged(alloc, a.len() as usize, b.len() as usize)?;
    while !is_done(a, b, &merging) {
        merging = step(alloc, a, b, merging)?;
    }
    Ok(merging)
}

// No words, with room for those of vocabularies that have so many.
fn none_merged(alloc: Global, first: usize, second: usize) -> Result<Merging, Memory>
    ensures words { IfOk result (λ m. m.words.items ≡ []) }
    ensures first { IfOk result (λ m. m.first.items ≡ []) }
    ensures second { IfOk result (λ m. m.second.items ≡ []) }
{
    Ok(Merging {
        words: Vec::with_capacity(alloc, first.saturating_add(second))?,
        first: Vec::with_capacity(alloc, first)?,
        second: Vec::with_capacity(alloc, second)?,
    })
}

fn is_done(a: &Vocab, b: &Vocab, merging: &Merging) -> bool
    ensures { result ≡ is_done a.now b.now merging.now }
{
    merging.first.len() >= a.len() as usize && merging.second.len() >= b.len() as usize
}

// One word more: the lesser of the next two, or both where they are the same.
fn step(alloc: Global, a: &Vocab, b: &Vocab, merging: Merging) -> Result<Merging, Memory>
    requires a_words { AreOfWordSize a.now }
    requires b_words { AreOfWordSize b.now }
    requires a_rises { IsStrictlySortedBy (slice_cmp nat_cmp) a.now }
    requires b_rises { IsStrictlySortedBy (slice_cmp nat_cmp) b.now }
    requires a_few { length a.now ≤ MAX_ROWS }
    requires b_few { length b.now ≤ MAX_ROWS }
    requires merging { IsMerging a.now b.now merging }
    requires more { is_done a.now b.now merging ≡ false }

    ensures { IfOk result (λ m. IsMerging a.now b.now m × IsMore merging m) }
{
    let i = merging.first.len() as u32;
    let j = merging.second.len() as u32;
    let turn = turn_at(a, b, i, j);
    let word = word_at_turn(alloc, a, b, i, j, turn)?;
    let next = pushed(merging, word, turn)?;
    Ok(next)
}

// Which vocabulary has the lesser next word: Less for the first, Greater for the second, Equal where both have the same.
fn turn_at(a: &Vocab, b: &Vocab, i: u32, j: u32) -> Ordering
    requires a_upto { i ≤ length a.now }
    requires b_upto { j ≤ length b.now }
    requires more { i + j < length a.now + length b.now }

    ensures { IsTurn a.now b.now i j result }
{
    if i == a.len() {
        return Ordering::Greater;
    }
    if j == b.len() {
        return Ordering::Less;
    }
    a.word(i).cmp(b.word(j))
}

fn word_at_turn(
    alloc: Global,
    a: &Vocab,
    b: &Vocab,
    i: u32,
    j: u32,
    turn: Ordering,
) -> Result<Word, Memory>
    requires a_words { AreOfWordSize a.now }
    requires b_words { AreOfWordSize b.now }
    requires turn { IsTurn a.now b.now i j turn }

    ensures { IfOk result (λ w. w ≡ turn_word a.now b.now i j turn) }
{
    match turn {
        Ordering::Greater => copy_at(alloc, b, j),
        Ordering::Less | Ordering::Equal => copy_at(alloc, a, i),
    }
}

// Word `n` once more.
fn copy_at(alloc: Global, words: &Vocab, n: u32) -> Result<Word, Memory>
    requires words { AreOfWordSize words.now }
    requires in_range { n < length words.now }

    ensures { IfOk result (λ w. w ≡ slice_index_or words.now n []) }
{
    Word::new(alloc, words.word(n))
}

// The word behind all others, with its number for each vocabulary that has it next.
fn pushed(mut merging: Merging, word: Word, turn: Ordering) -> Result<Merging, Memory>
    requires few { length merging.words.items < 2 ^ 32 }

    ensures words { IfOk result (λ m. m.words.items ≡ merging.words.items ++ word ∷ []) }
    ensures first { IfOk result (λ m. m.first.items ≡ merging.first.items ++ own_numbers (is_first turn) (length merging.words.items)) }
    ensures second { IfOk result (λ m. m.second.items ≡ merging.second.items ++ own_numbers (is_second turn) (length merging.words.items)) }
{
    let n = merging.words.len() as u32;
    merging.words.push(word)?;
    push_where(&mut merging.first, turn != Ordering::Greater, n)?;
    push_where(&mut merging.second, turn != Ordering::Less, n)?;
    Ok(merging)
}

fn push_where(numbers: &mut Vec<u32>, holds: bool, n: u32) -> Result<(), Memory>
    ensures { OnOk result (numbers.new.items ≡ numbers.old.items ++ own_numbers holds n) }
{
    if holds {
        numbers.push(n)?;
    }
    Ok(())
}
