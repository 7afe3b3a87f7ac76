//! Counting the documents of words over rows that come in pieces.
ghost use Rattle.std.specs.Prelude.{◌≡◌, ◌+◌, ◌++◌, ◌<◌, ◌≤◌, [], ◌∷◌, true, false, Bool, List, length, take, slice_index, slice_index_or, IfOk, All};
ghost use Rattle.cs_base.specs.declared.content.doc.Post.{Post};
ghost use Rattle.cs_base.specs.declared.content.limits.TheConstants.{MAX_WORDS};
ghost use Rattle.cs_tables.specs.TableListings.{post_table};
ghost use Rattle.cs_tables.specs.WordCounts.{AddsColumns, AreCountable, AreOfOne, CanCount, CanCountAt, Counts, CountsAt, CountsRows, HasCounted};

use crate::counts::{BLANK, Mark, collect};
use crate::tables::{Table, completions_of};
use cs_base::{Memory, Seq};
use cs_cols::find_listed;
use cs_rank::top;
use std::alloc::Global;
use std::marker::Model;

// So many rows at most are looked at in one loop.
const SPAN: usize = 256;

// Rows by their documents and words, and which documents are listed.
#[derive(Clone, Copy)]
struct Rows<'a> {
    docs: &'a [u32],
    words: &'a [u32],
    listed: &'a [bool],
}

impl<'a> Rows<'a> {
    fn of(docs: &'a [u32], words: &'a [u32], listed: &'a [bool]) -> Rows<'a>
        ensures { result ≡ record { docs = docs.entry; words = words.entry; listed = listed.entry } }
    {
        Rows {
            docs,
            words,
            listed,
        }
    }
}

/// The words from one number up to another, each with the number of documents that it has in the rows so far.
///
/// The rows of one word come in order; those of different words may come in any order.
#[derive(Drop)]
pub struct WordCounts {
    low: u32,
    high: u32,
    marks: Vec<Mark>,
}

impl Model for WordCounts {
    ghost use Rattle.std.specs.Prelude.{◌≡◌, ◌+◌, ◌≤◌, length};
    ghost use Rattle.cs_base.specs.declared.content.limits.TheConstants.{MAX_WORDS};
    ghost use Rattle.cs_tables.specs.WordCounts.{WordCountsView};

    ghost Value = { WordCountsView };

    ghost view = { λ t. record { low = t.low; high = t.high; marks = t.marks.items } };

    ghost invariant = { λ t. (t.low + length t.marks.items ≡ t.high) × (t.high ≤ MAX_WORDS) };
}

impl WordCounts {
    /// Of no rows, for the words from number `low` up to `high`, which is left out.
    pub fn new(alloc: Global, low: u32, high: u32) -> Result<WordCounts, Memory>
        requires ordered { low ≤ high }
        requires few { high ≤ MAX_WORDS }

        ensures none { IfOk result (λ t. HasCounted [] t) }
        ensures low { IfOk result (λ t. t.low ≡ low) }
        ensures high { IfOk result (λ t. t.high ≡ high) }
    {
        let marks = vec![in alloc; BLANK; (high - low) as usize]?;
        Ok(WordCounts { low, high, marks })
    }

    /// Counts rows, of which these are the documents and the words: those of these words in documents that are listed.
    pub fn add(&mut self, docs: &[u32], words: &[u32], listed: &[bool])
        requires even { length words.now ≡ length docs.now }
        requires known { All (λ d. d < length listed.now) docs.now }

        ensures { AddsColumns listed.now docs.now words.now self.old self.new }
    {
        let rows = Rows::of(docs, words, listed);
        see_rows(self.low, self.high, &mut self.marks, rows);
    }

    /// Counts rows as `add` does. It is the faster one where all words are counted and a document may have a word often.
    pub fn add_rows(&mut self, docs: &[u32], words: &[u32], listed: &[bool])
        requires even { length words.now ≡ length docs.now }
        requires known { All (λ d. d < length listed.now) docs.now }

        ensures { AddsColumns listed.now docs.now words.now self.old self.new }
    {
        if are_within(words, self.low, self.high) {
            let rows = Rows::of(docs, words, listed);
            see_own(self.low, self.high, &mut self.marks, rows);
        } else {
            self.add(docs, words, listed);
        }
    }

    /// Counts one row more, of one of these words.
    #[inline]
    pub fn see(&mut self, doc: u32, word: u32)
        requires from { self.old.low ≤ word }
        requires upto { word < self.old.high }

        ensures counted { (p : Post) → doc ≡ p.doc → word ≡ p.word → (seen : List Post) → AreCountable (seen ++ p ∷ [])
            → HasCounted seen self.old → HasCounted (seen ++ p ∷ []) self.new }
        ensures low { self.new.low ≡ self.old.low }
        ensures high { self.new.high ≡ self.old.high }
    {
        let at = (word - self.low) as usize;
        self.marks[at].see(doc);
    }

    /// The words that have a document by their number of documents descending, then by number, cut to the first `cut`, and
    /// how many there are before the cut.
    pub fn table(&self, alloc: Global, cut: u32) -> Result<Table, Memory>
        ensures total { IfOk result (λ t. (rows : List Post) → AreCountable rows → HasCounted rows self.now → t.total ≡ length (post_table rows)) }
        ensures first { IfOk result (λ t. (rows : List Post) → AreCountable rows → HasCounted rows self.now → t.first ≡ take cut (post_table rows)) }
        ensures known { IfOk result (λ t. All (λ c. c.word < self.now.high) t.first) }
    {
        let counted = collect(alloc, self.low, self.marks.as_slice())?;
        let best = top(alloc, counted.as_slice(), 0, cut)?;
        let first = completions_of(alloc, best.as_slice())?;
        Ok(Table {
            total: counted.len() as u32,
            first: Seq::from_vec(first),
        })
    }
}

// Counts rows in the marks of the words from `low` up to `high`, some rows at a time.
fn see_rows(low: u32, high: u32, marks: &mut [Mark], rows: Rows<'_>)
    requires { CanCount low high rows marks.old }

    ensures { CountsRows low high rows.entry marks.old marks.new }
{
    let one = are_of_one(rows.words, low, high);
    let mut places = [0usize; SPAN];
    let mut from = 0;
    while from < rows.docs.len() {
        let to = from + SPAN.min(rows.docs.len() - from);
        let found = find_listed(rows.docs, from, to, rows.listed, &mut places);
        see_found(one, low, high, marks, rows, &places[..found]);
        from = to;
    }
}

// Counts the rows at these places, all of them in listed documents: in one mark where all words are the same.
fn see_found(one: bool, low: u32, high: u32, marks: &mut [Mark], rows: Rows<'_>, places: &[usize])
    requires one { one ≡ true → AreOfOne low high rows.words.now }
    requires seen { CanCountAt low high rows places.now marks.old }

    ensures { CountsAt low high rows.entry places.now marks.old marks.new }
{
    if one {
        see_one_at(low, high, marks, rows, places);
    } else {
        see_places(low, high, marks, rows, places);
    }
}

// Counts the rows at these places, all of them in listed documents and of one word, in its mark, which is read and written once.
fn see_one_at(low: u32, high: u32, marks: &mut [Mark], rows: Rows<'_>, places: &[usize])
    requires one { AreOfOne low high rows.words.now }
    requires seen { CanCountAt low high rows places.now marks.old }

    ensures { CountsAt low high rows.entry places.now marks.old marks.new }
{
    let at = (rows.words[0] - low) as usize;
    let mut mark = marks[at];
    for place in places {
        mark.see(rows.docs[*place]);
    }
    marks[at] = mark;
}

// Counts the rows at these places, all of them in listed documents, each in the mark of its word.
fn see_places(low: u32, high: u32, marks: &mut [Mark], rows: Rows<'_>, places: &[usize])
    requires { CanCountAt low high rows places.now marks.old }

    ensures { CountsAt low high rows.entry places.now marks.old marks.new }
{
    for place in places {
        see_row(low, high, marks, rows.docs[*place], rows.words[*place]);
    }
}

// Counts one row in a document that is listed.
#[inline]
fn see_row(low: u32, high: u32, marks: &mut [Mark], doc: u32, word: u32)
    requires sized { low + length marks.old ≡ high }

    ensures counted { (listed : List Bool) (p : Post) → doc ≡ p.doc → word ≡ p.word → slice_index_or listed doc false ≡ true
        → Counts low high listed (p ∷ []) marks.old marks.new }
    ensures sized { length marks.new ≡ length marks.old }
{
    if low <= word && word < high {
        marks[(word - low) as usize].see(doc);
    }
}

/// Whether all of some words are from number `low` up to `high`, which is left out. Each is looked at, without a jump.
pub fn are_within(words: &[u32], low: u32, high: u32) -> bool
    ensures { result ≡ true → All (λ w. (low ≤ w) × (w < high)) words.now }
{
    let mut all = true;
    for word in words {
        all &= (low <= *word) & (*word < high);
    }
    all
}

// Counts rows, all of the words from `low` up to `high`, in the marks of these words.
fn see_own(low: u32, high: u32, marks: &mut [Mark], rows: Rows<'_>)
    requires seen { CanCount low high rows marks.old }
    requires own { All (λ w. (low ≤ w) × (w < high)) rows.words.now }

    ensures { CountsRows low high rows.entry marks.old marks.new }
{
    if are_of_one(rows.words, low, high) {
        see_one(low, high, marks, rows);
    } else {
        see_each(low, high, marks, rows);
    }
}

// Whether there are words, and all are the same, which is one from `low` up to `high`.
fn are_of_one(words: &[u32], low: u32, high: u32) -> bool
    ensures { result ≡ true → AreOfOne low high words.now }
{
    is_one_word(words) && low <= words[0] && words[0] < high
}

// Whether there are words and all are the same. Each is looked at, without a jump, where the first and the last are alike.
fn is_one_word(words: &[u32]) -> bool
    ensures some { result ≡ true → 0 < length words.now }
    ensures one { result ≡ true → All (λ w. w ≡ slice_index words.now 0) words.now }
{
    if words.is_empty() || words[0] != words[words.len() - 1] {
        return false;
    }
    let first = words[0];
    let mut all = true;
    for word in words {
        all &= *word == first;
    }
    all
}

// Counts rows, all of one of the words, in its mark, which is read and written once.
fn see_one(low: u32, high: u32, marks: &mut [Mark], rows: Rows<'_>)
    requires seen { CanCount low high rows marks.old }
    requires one { AreOfOne low high rows.words.now }

    ensures { CountsRows low high rows.entry marks.old marks.new }
{
    let at = (rows.words[0] - low) as usize;
    let mut mark = marks[at];
    for doc in rows.docs {
        mark.see_where(*doc, rows.listed[*doc as usize]);
    }
    marks[at] = mark;
}

// Counts rows, each in the mark of its word.
fn see_each(low: u32, high: u32, marks: &mut [Mark], rows: Rows<'_>)
    requires seen { CanCount low high rows marks.old }
    requires own { All (λ w. (low ≤ w) × (w < high)) rows.words.now }

    ensures { CountsRows low high rows.entry marks.old marks.new }
{
    for i in 0..rows.docs.len() {
        let doc = rows.docs[i];
        let at = (rows.words[i] - low) as usize;
        marks[at].see_where(doc, rows.listed[doc as usize]);
    }
}
