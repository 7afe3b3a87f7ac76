//! Listing the documents and the words of a block's rows one by one, up to the first rule that they break.
ghost use Rattle.std.specs.Prelude.{◌≡◌, length, None, IfNone, IfSome};
ghost use Rattle.cs_model_index.specs.BlockRules.{codes_break};
ghost use Rattle.cs_block.specs.DocWords.{BreaksFirst, IsFront, ListsFront};

use crate::columns::{doc_here, half_at};
use crate::judging::{keep, or_rule};
use cs_base::{BlockHead, Broken};

/// The front of a block: its documents and words, in columns, and how many documents the collection has.
#[derive(Clone, Copy)]
pub struct Front<'a> {
    /// What the block is.
    pub head: &'a BlockHead,
    /// The documents of the collection.
    pub docs: u32,
    /// The gap codes of the rows.
    pub gaps: &'a [u8],
    /// Two bytes a row: its word.
    pub words: &'a [u8],
}

/// Puts the documents and the words of all rows into two slices that are as long, over a gap column that holds. Where one isn't in
/// range, the first broken rule is told, 14 or 15, with anything in the slices.
pub fn list_rows(front: Front<'_>, row_docs: &mut [u32], row_words: &mut [u32]) -> Option<Broken>
    requires front { IsFront front.head.now front.gaps.now front.words.now }
    requires codes { codes_break front.head.now.rows 0 front.gaps.now ≡ None }
    requires room_docs { length row_docs.old ≡ front.head.now.rows }
    requires room_words { length row_words.old ≡ front.head.now.rows }

    ensures broken { IfSome result (BreaksFirst front.entry.head.now front.entry.docs front.entry.gaps.now front.entry.words.now) }
    ensures listed { IfNone result (ListsFront front.entry.head.now front.entry.docs front.entry.gaps.now front.entry.words.now
        row_docs.new row_words.new) }
{
    let Front {
        head,
        docs,
        gaps,
        words,
    } = front;
    let words_at = head.len - 7 * head.rows;
    let mut bad_word = None;
    let mut before: u32 = 0;
    let mut at = 0;
    for i in 0..row_docs.len() {
        let Some((doc, next)) = doc_here(gaps, at, before, docs) else {
            return Some(Broken {
                n: 14,
                at: at as u32,
            });
        };
        let word = head.lo + half_at(words, 2 * i);
        bad_word = keep(
            bad_word,
            word < head.lo + head.words,
            words_at + 2 * i as u32,
        );
        row_docs[i] = doc;
        row_words[i] = word;
        before = doc;
        at = next;
    }
    or_rule(15, bad_word, None)
}
