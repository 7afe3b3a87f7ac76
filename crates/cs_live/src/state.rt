//! An opened index under changes.
ghost use Rattle.std.specs.Prelude.{◌≡◌, ◌≤◌, ◌<◌, ◌==◌, filter, not, true, length, IfOk, OnErr, OnOk};
ghost use Rattle.std.specs.List.{All, range_with_len, sum_by};
ghost use Rattle.std.specs.Str.{is_utf8};
ghost use Rattle.cs_base.specs.declared.content.limits.TheConstants.{MAX_DOCS, MAX_ROWS, MAX_WORDS};
ghost use Rattle.cs_live.specs.{Lives.{AreWaiting, IsSettled}, Settling.{words_met}, States.{IsState, opened_state, with_title, without_doc}};

use crate::settling::{Settled, brought_in};
use cs_base::{BlockHead, Memory, Post, Row, Seq, Text};
use cs_file::Index;
use cs_vocab::Vocab;
use std::alloc::Global;
use std::marker::Model;

/// An index with the documents that were added to it, and without those that are gone.
#[derive(Drop)]
pub struct State {
    /// The index that was opened.
    pub index: Index,
    /// The words of the index and of all documents that were added.
    pub words: Vocab,
    /// The number of each word of the index among these.
    pub(crate) shift: Vec<u32>,
    /// Which numbers are those of documents.
    pub(crate) present: Vec<bool>,
    /// Whether each document of the index is there.
    pub(crate) whole: bool,
    /// The rows of the documents that were added and are there, in the order of their words, those of a word in order of place.
    pub(crate) by_word: Vec<Post>,
    /// The titles of the documents that were added, also of those that are gone.
    pub(crate) added: Seq<Text>,
}

impl Model for State {
    ghost use Rattle.cs_base.specs.content.Members.{members_in};
    ghost use Rattle.cs_rows.specs.IndexReading.{by_post};
    ghost use Rattle.cs_live.specs.States.{IsState, StateView};

    ghost Value = { StateView };

    ghost view = { λ s. record {
      index = s.index;
      words = s.words;
      shift = s.shift.items;
      present = s.present.items;
      whole = s.whole;
      held = members_in by_post s.by_word.items;
      by_word = s.by_word.items;
      added = s.added;
    } };

    ghost invariant = { λ s. IsState (record {
      index = s.index;
      words = s.words;
      shift = s.shift.items;
      present = s.present.items;
      whole = s.whole;
      held = members_in by_post s.by_word.items;
      by_word = s.by_word.items;
      added = s.added;
    }) };
}

impl State {
    /// An index before the first change.
    pub(crate) fn opened(alloc: Global, index: Index) -> Result<State, Memory>
        ensures { IfOk result (λ s. s ≡ opened_state index) }
    {
        let words = index.words.copy(alloc)?;
        let shift = numbers_below(alloc, words.len())?;
        let present = vec![in alloc; true; index.docs as usize]?;
        Ok(State {
            index,
            words,
            shift,
            present,
            whole: true,
            by_word: Vec::new(alloc),
            added: Seq::new(alloc),
        })
    }

    /// One document more, with the next number and no rows. Where memory runs out, nothing changes.
    pub(crate) fn put(&mut self, title: Text) -> Result<(), Memory>
        requires few { length self.old.present < MAX_DOCS }
        requires text { is_utf8 title ≡ true }

        ensures ok { OnOk result (self.new ≡ with_title self.old title) }
        ensures err { OnErr result (self.new ≡ self.old) }
    {
        self.present.push(true)?;
        let pushed = self.added.push(title);
        if pushed.is_err() {
            self.present.pop();
        }
        pushed
    }

    /// The document of a number gone, and its rows with it. No other document gets the number.
    pub(crate) fn remove(&mut self, doc: u32)
        requires { doc < length self.old.present }

        ensures { self.new ≡ without_doc self.old doc }
    {
        let first = docs_of_index(&self.index);
        let added = first <= doc;
        self.present[doc as usize] = false;
        self.whole = self.whole && added;
        forget(&mut self.by_word, first, doc);
    }

    /// The rows that waited, with their words. Where memory runs out, nothing changes.
    pub(crate) fn take(&mut self, alloc: Global, rows: &[Row]) -> Result<(), Memory>
        requires is { IsState self.old }
        requires waiting { AreWaiting self.old rows.now }
        requires few { length rows.now ≤ MAX_ROWS }
        requires few_words { length (words_met self.old.words rows.now) ≤ MAX_WORDS }
        requires some { 1 ≤ length rows.now }

        ensures ok { OnOk result (IsSettled self.old rows.now self.new) }
        ensures err { OnErr result (self.new ≡ self.old) }
    {
        let Settled { words, shift } = brought_in(
            alloc,
            &self.words,
            &self.shift,
            &mut self.by_word,
            rows,
        )?;
        self.words = words;
        self.shift = shift;
        Ok(())
    }
}

// The numbers from 0 on, so many.
fn numbers_below(alloc: Global, n: u32) -> Result<Vec<u32>, Memory>
    ensures { IfOk result (λ v. v.items ≡ range_with_len 0 n) }
{
    let mut numbers = Vec::with_capacity(alloc, n as usize)?;
    for i in 0..n {
        numbers.push(i)?;
    }
    Ok(numbers)
}

/// How many documents an index has.
pub(crate) fn docs_of_index(index: &Index) -> u32
    ensures { result ≡ index.now.docs }
{
    index.docs
}

// Takes the rows of a document out of those of documents from a first one on. One before these has none.
fn forget(by_word: &mut Vec<Post>, first: u32, doc: u32)
    requires { All (λ p. first ≤ p.doc) by_word.old.items }

    ensures { by_word.new.items ≡ filter (λ p. not (p.doc == doc)) by_word.old.items }
{
    if doc < first {
        return;
    }
    by_word.retain(|post| post.doc != doc);
}

/// How many rows an index has.
pub(crate) fn rows_of_index(index: &Index) -> u32
    ensures rows { result ≡ sum_by (λ h. h.rows) index.now.heads }
    ensures few { result ≤ MAX_ROWS }
{
    rows_of_heads(index.heads.as_slice())
}

fn rows_of_heads(heads: &[BlockHead]) -> u32
    requires { sum_by (λ h. h.rows) heads.now ≤ MAX_ROWS }

    ensures { result ≡ sum_by (λ h. h.rows) heads.now }
{
    let mut rows = 0;
    for head in heads {
        rows += head.rows;
    }
    rows
}
