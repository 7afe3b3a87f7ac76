//! Rows of added documents brought into a state: one vocabulary of all words, and one list of rows in memory.
ghost use Rattle.std.specs.Prelude.{◌≡◌, ◌≤◌, ◌<◌, [], true, length, map, slice_index_or, IfOk, OnErr, OnOk};
ghost use Rattle.std.specs.{List.{All}, List.Sorted.{IsStrictlySortedBy}};
ghost use Rattle.cs_base.specs.content.Orders.{by_spot};
ghost use Rattle.cs_base.specs.declared.content.limits.TheConstants.{MAX_ROWS, MAX_WORDS};
ghost use Rattle.cs_merge.specs.Vocabularies.{AreOfWordSize};
ghost use Rattle.cs_model.specs.Corpus.{distinct_words};
ghost use Rattle.cs_vocab.specs.Ranges.{AreNumbers};
ghost use Rattle.cs_live.specs.Lives.{AreWaiting, IsSettled, KeepsCorpus};
ghost use Rattle.cs_live.specs.Settling.{AreMergedWith, AreSettled, HaveWordSize, words_met};
ghost use Rattle.cs_live.specs.States.{IsState};
ghost use Rattle.cs_live.specs.declared.settling.TheConstants.{MOST_WAITING};

use crate::numbers::has_own_words;
use crate::rows_by_word::put_among;
use crate::state::State;
use cs_base::{MAX_WORDS, Memory, Post, Row, Seq};
use cs_merge::{Merging, merged};
use cs_vocab::{Gathering, Numbered, Vocab};
use std::alloc::Global;

/// How many rows of added documents may wait behind an addition, whatever a state has. So many are few beside the words that there may be:
/// whether those of a document have room is seen by their number, but where the words are nearly too many.
const MOST_WAITING: usize = 65_536;

/// Of the rows in memory one in so many may wait, where that is more. So all that are put among them make each be moved this many times on
/// average, however many they become.
const WAITING_SHARE: usize = 32;

/// What a state has in place of its own, where rows were brought in.
#[derive(Drop)]
pub(crate) struct Settled {
    /// The words of the state and of the rows.
    pub(crate) words: Vocab,
    /// The number of each word of the index among these.
    pub(crate) shift: Vec<u32>,
}

/// Brings rows that wait into a state, so that none wait. Where memory runs out, nothing changes.
pub(crate) fn bring_in(alloc: Global, state: &mut State, rows: &mut Vec<Row>) -> Result<(), Memory>
    requires is { IsState state.old }
    requires waiting { AreWaiting state.old rows.old.items }
    requires few { length rows.old.items ≤ MAX_ROWS }
    requires few_words { length (words_met state.old.words rows.old.items) ≤ MAX_WORDS }

    ensures ok { OnOk result (IsSettled state.old rows.old.items state.new) }
    ensures none { OnOk result (rows.new.items ≡ []) }
    ensures state { OnErr result (state.new ≡ state.old) }
    ensures rows { OnErr result (rows.new.items ≡ rows.old.items) }
    ensures some { OnErr result (1 ≤ length rows.old.items) }
{
    if rows.is_empty() {
        return Ok(());
    }
    state.take(alloc, rows)?;
    *rows = Vec::new(alloc);
    Ok(())
}

/// Brings rows that wait into a state where they are too many to wait on. Where memory runs out, they wait on.
pub(crate) fn bring_many_in(alloc: Global, state: &mut State, rows: &mut Vec<Row>)
    requires is { IsState state.old }
    requires waiting { AreWaiting state.old rows.old.items }
    requires few { length rows.old.items ≤ MAX_ROWS }
    requires few_words { length (words_met state.old.words rows.old.items) ≤ MAX_WORDS }

    ensures { KeepsCorpus state.old rows.old.items state.new rows.new.items }
{
    if may_wait(state, rows.len()) {
        return;
    }
    let _ = bring_in(alloc, state, rows);
}

// Whether so many rows may wait: where they are few, or where they are few beside those in memory and words have room for them and some more.
fn may_wait(state: &State, rows: usize) -> bool
    ensures { rows ≤ MOST_WAITING → result ≡ true }
{
    if rows <= MOST_WAITING {
        return true;
    }
    let words = state.words.len() as usize;
    rows <= state.by_word.len() / WAITING_SHARE
        && rows <= MAX_WORDS.saturating_sub(words + MOST_WAITING)
}

/// Brings rows that wait into a state where those of a document may be among them. Where memory runs out, nothing changes.
pub(crate) fn bring_own_in(
    alloc: Global,
    state: &mut State,
    rows: &mut Vec<Row>,
    doc: u32,
) -> Result<(), Memory>
    requires is { IsState state.old }
    requires waiting { AreWaiting state.old rows.old.items }
    requires few { length rows.old.items ≤ MAX_ROWS }
    requires few_words { length (words_met state.old.words rows.old.items) ≤ MAX_WORDS }

    ensures ok { OnOk result (KeepsCorpus state.old rows.old.items state.new rows.new.items) }
    ensures later { OnOk result (All (λ r. doc < r.doc) rows.new.items) }
    ensures state { OnErr result (state.new ≡ state.old) }
    ensures rows { OnErr result (rows.new.items ≡ rows.old.items) }
{
    if are_later(rows, doc) {
        return Ok(());
    }
    bring_in(alloc, state, rows)
}

// Whether rows in order are of later documents, as their first one is; so are none.
fn are_later(rows: &[Row], doc: u32) -> bool
    requires { IsStrictlySortedBy by_spot rows.now }

    ensures { result ≡ true → All (λ r. doc < r.doc) rows.now }
{
    if rows.is_empty() {
        return true;
    }
    doc < rows[0].doc
}

/// Words and numbers of the index's words, with those of rows brought in, and the rows in memory with these. Where memory runs out, these stay
/// as they are.
pub(crate) fn brought_in(
    alloc: Global,
    words: &Vocab,
    shift: &[u32],
    by_word: &mut Vec<Post>,
    rows: &[Row],
) -> Result<Settled, Memory>
    requires sized { AreOfWordSize words.now }
    requires row_sized { HaveWordSize rows.now }
    requires few { length rows.now ≤ MAX_ROWS }
    requires few_words { length (words_met words.now rows.now) ≤ MAX_ROWS }
    requires shift { All (λ n. n < length words.now) shift.now }
    requires by_word { All (λ p. p.word < length words.now) by_word.old.items }

    ensures ok { IfOk result (λ m. AreSettled words.now shift.now by_word.old.items rows.now m by_word.new.items) }
    ensures err { OnErr result (by_word.new.items ≡ by_word.old.items) }
{
    let Numbered {
        words: own,
        numbers,
    } = numbered_rows(alloc, rows)?;
    let Merging {
        words: both,
        first,
        second,
    } = merged(alloc, words, &own)?;
    let first: &[u32] = &first;
    let shift = numbers_by(alloc, first, shift)?;
    let words = Vocab::from_words(Seq::from_vec(both));
    let none = has_own_words(&words, first);
    put_among(
        alloc,
        by_word,
        none,
        first,
        &second,
        numbers.as_slice(),
        rows,
    )?;
    Ok(Settled { words, shift })
}

/// Words, and those of rows, brought into one order.
pub(crate) fn merged_with(alloc: Global, words: &Vocab, rows: &[Row]) -> Result<Merging, Memory>
    requires sized { AreOfWordSize words.now }
    requires row_sized { HaveWordSize rows.now }
    requires few { length rows.now ≤ MAX_ROWS }

    ensures { IfOk result (AreMergedWith words.now rows.now) }
{
    let Numbered { words: own, .. } = numbered_rows(alloc, rows)?;
    let both = merged(alloc, words, &own)?;
    Ok(both)
}

// The distinct words of rows, and the number of each row's word among them.
fn numbered_rows(alloc: Global, rows: &[Row]) -> Result<Numbered, Memory>
    requires few { length rows.now ≤ MAX_ROWS }

    ensures words { IfOk result (λ n. n.words ≡ distinct_words rows.now) }
    ensures numbers { IfOk result (λ n. AreNumbers n.words n.numbers (map (λ r. r.word) rows.now)) }
{
    let mut gathering = Gathering::with_capacity(alloc, rows.len())?;
    for row in rows {
        gathering.push(alloc, row.word.bytes())?;
    }
    Numbered::gathered(alloc, gathering)
}

// The number that stands at each of these.
fn numbers_by(alloc: Global, first: &[u32], numbers: &[u32]) -> Result<Vec<u32>, Memory>
    requires { All (λ n. n < length first.now) numbers.now }

    ensures { IfOk result (λ v. v.items ≡ map (λ n. slice_index_or first.now n 0) numbers.now) }
{
    let mut moved = Vec::with_capacity(alloc, numbers.len())?;
    for n in numbers {
        moved.push(first[*n as usize])?;
    }
    Ok(moved)
}
