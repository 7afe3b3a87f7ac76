//! How many documents have each word.
//!
//! A counted word is a `Scored`: its number stands for the document and the number of documents for the score.
ghost use Rattle.std.specs.Prelude.{◌≡◌, ◌<◌, ◌≤◌, ◌^◌, ◌+◌, ◌++◌, ◌-◌, map, IfOk, OnOk, All, length, slice_index, EachIndex, if◌then◌else◌};
ghost use Rattle.cs_base.specs.content.Orders.{AreSorted};
ghost use Rattle.cs_base.specs.declared.content.limits.TheConstants.{MAX_DOCS, MAX_WORDS};
ghost use Rattle.cs_tables.specs.Marks.{saw, kept, collected, counted_word, post_words};

use cs_base::{MAX_WORDS, Memory, Scored};
use cs_cols::Cols;
use std::alloc::Global;

/// The number that no document has.
const NO_DOC: u32 = u32::MAX;

/// The mark of a word before any row.
pub(crate) const BLANK: Mark = Mark {
    docs: 0,
    last: NO_DOC,
};

/// What was seen of a word on a pass over rows by document.
#[derive(Clone, Copy)]
pub(crate) struct Mark {
    /// The documents that have it so far.
    docs: u32,
    /// The last of them, or `NO_DOC`.
    last: u32,
}

impl Mark {
    /// One row more, without a jump, since nothing tells beforehand whether its document is the one before.
    #[inline]
    pub(crate) fn see(&mut self, doc: u32)
        ensures { self.old.docs < 2 ^ 32 - 1 → self.new ≡ saw self.old doc }
    {
        self.see_where(doc, true);
    }

    /// The same where the row counts, and nothing where it doesn't.
    #[inline]
    pub(crate) fn see_where(&mut self, doc: u32, counts: bool)
        ensures { self.old.docs < 2 ^ 32 - 1 → self.new ≡ (if counts then saw self.old doc else self.old) }
    {
        let is_next = counts & (self.last != doc);
        self.docs = self.docs.wrapping_add(u32::from(is_next));
        self.last = if counts { doc } else { self.last };
    }
}

/// Each word of the rows with its number of documents, by the word's number.
pub(crate) fn counts_by_word(alloc: Global, rows: &Cols) -> Result<Vec<Scored>, Memory>
    requires sorted { AreSorted rows.now.posts }
    requires docs { All (λ p. p.doc < MAX_DOCS) rows.now.posts }
    requires words { All (λ p. p.word < MAX_WORDS) rows.now.posts }

    ensures ok { IfOk result (λ v. v.items ≡ map (counted_word rows.now.posts) (post_words rows.now.posts)) }
    ensures few { IfOk result (λ v. length v.items ≤ MAX_WORDS) }
{
    let docs = rows.docs();
    let words = rows.words();
    let (low, many) = word_range(words);
    let mut marks = vec![in alloc; BLANK; many]?;
    for i in 0..docs.len() {
        let word = (words[i] - low) as usize;
        marks[word].see(docs[i]);
    }
    let counted = collect(alloc, low, marks.as_slice())?;
    Ok(counted)
}

// The least number that occurs, and how many there are from it up to the greatest.
fn word_range(words: &[u32]) -> (u32, usize)
    requires { All (λ w. w < MAX_WORDS) words.now }

    ensures within { EachIndex words.now (λ k. (result.0 ≤ slice_index words.now k) × (slice_index words.now k < result.0 + result.1)) }
    ensures few { result.0 + result.1 ≤ MAX_WORDS }
{
    let mut low = MAX_WORDS as u32;
    let mut end = 0;
    for word in words {
        low = low.min(*word);
        end = end.max(*word + 1);
    }
    (low, end.saturating_sub(low) as usize)
}

/// The words that have a document, with their numbers from `low` on.
pub(crate) fn collect(alloc: Global, low: u32, marks: &[Mark]) -> Result<Vec<Scored>, Memory>
    requires { low + length marks.now ≤ MAX_WORDS }

    ensures ok { IfOk result (λ v. v.items ≡ collected low marks.now) }
    ensures few { IfOk result (λ v. length v.items ≤ length marks.now) }
{
    let mut counted = Vec::new(alloc);
    for (i, mark) in marks.iter().enumerate() {
        add_counted(&mut counted, low + i as u32, mark.docs)?;
    }
    Ok(counted)
}

fn add_counted(counted: &mut Vec<Scored>, word: u32, docs: u32) -> Result<(), Memory>
    ensures ok { OnOk result (counted.new.items ≡ counted.old.items ++ kept word docs) }
    ensures few { length counted.new.items ≤ length counted.old.items + 1 }
{
    if docs > 0 {
        counted.push(Scored {
            doc: word,
            score: docs,
        })?;
    }
    Ok(())
}
