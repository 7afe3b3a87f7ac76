//! Reading those rows of a block that are sought: of some words, in listed documents. Of the others no position and no score is
//! looked at. The documents of all rows are listed once, however often rows are sought.
ghost use Rattle.std.specs.Prelude.{◌≡◌, ◌+◌, ◌^◌, ◌<◌, ◌≤◌, ◌&&◌, ◌++◌, false, true, nat_le, nat_lt, [], length, map, take, filter, slice_index_or, IfOk, OnErr};
ghost use Rattle.std.specs.List.{All};
ghost use Rattle.cs_base.specs.declared.content.limits.TheConstants.{MAX_WORDS};
ghost use Rattle.cs_model_index.specs.Blocks.{IsShaped};
ghost use Rattle.cs_cols.specs.SpanPlaces.{IsSpan, places_where};
ghost use Rattle.cs_block.specs.BlockReading.{HasColumns};
ghost use Rattle.cs_block.specs.ColumnsView.{seen_columns};
ghost use Rattle.cs_block.specs.Sought.{AreDocsOf, CanBeSought, HasSought, IsOfBlock, is_sought, passes, row_with, rows_with};

use crate::columns::{CutColumns, block_columns, half_at, row_at};
use crate::rules::{is_in_words, is_scored};
use crate::run_docs::docs_in;
use cs_base::{BlockHead, Memory, Post, Weights};
use cs_cols::find_listed;

/// So many rows at most are looked at in one loop.
const SPAN: usize = 256;

/// Which rows of a block are sought.
#[derive(Clone, Copy)]
struct Wanted<'a> {
    /// Those of the words from the first number on and below the second.
    words: (u32, u32),
    /// These are all words of the block, so they aren't looked at.
    whole: bool,
    /// Whether each document is listed.
    listed: &'a [bool],
}

/// Lists the documents of all rows of a block, in place of what `docs` holds. False, with anything in it, where a code doesn't stand
/// or a document isn't below `below`, which never comes of bytes that keep the rules. Where memory runs out it holds nothing.
pub fn list_docs(
    bytes: &[u8],
    head: &BlockHead,
    below: u32,
    docs: &mut Vec<u32>,
) -> Result<bool, Memory>
    requires { IsShaped head.now (length bytes.now) }

    ensures ok { IfOk result (λ listed. listed ≡ true → AreDocsOf head.now bytes.now docs.new.items) }
    ensures known { IfOk result (λ listed. listed ≡ true → All (λ d. d < below) docs.new.items) }
    ensures err { OnErr result (docs.new.items ≡ []) }
{
    let put = put_docs(bytes, head, below, docs);
    if put.is_err() {
        docs.truncate(0);
    }
    put
}

// The same, with anything in it where memory runs out.
fn put_docs(bytes: &[u8], head: &BlockHead, below: u32, docs: &mut Vec<u32>) -> Result<bool, Memory>
    requires { IsShaped head.now (length bytes.now) }

    ensures ok { IfOk result (λ listed. listed ≡ true → AreDocsOf head.now bytes.now docs.new.items) }
    ensures known { IfOk result (λ listed. listed ≡ true → All (λ d. d < below) docs.new.items) }
{
    let columns = block_columns(bytes, head);
    docs.resize(head.rows as usize, 0)?;
    let listed = docs_in(columns.gaps, 0, 0, below, docs);
    Ok(listed.is_some())
}

/// Puts the rows of a block in listed documents whose word's number is `words.0` or more and below `words.1` into a list, in place of
/// what it holds, by the documents of all rows. False, with anything in it, where a row that is sought isn't of the block's kind in a
/// collection of these weights, which never comes of bytes that keep the rules. Where memory runs out it holds nothing.
pub fn read_sought(
    bytes: &[u8],
    head: &BlockHead,
    weights: Weights,
    words: (u32, u32),
    listed: &[bool],
    docs: &[u32],
    into: &mut Vec<Post>,
) -> Result<bool, Memory>
    requires shaped { IsShaped head.now (length bytes.now) }
    requires docs { AreDocsOf head.now bytes.now docs.now }
    requires known { All (λ d. d < length listed.now) docs.now }

    ensures ok { IfOk result (λ whole. whole ≡ true → HasSought weights head.now bytes.now words.0 words.1 listed.now into.new.items) }
    ensures err { OnErr result (into.new.items ≡ []) }
{
    let put = put_sought(bytes, head, weights, words, listed, docs, into);
    if put.is_err() {
        into.truncate(0);
    }
    put
}

// The same, with anything in it where memory runs out.
fn put_sought(
    bytes: &[u8],
    head: &BlockHead,
    weights: Weights,
    words: (u32, u32),
    listed: &[bool],
    docs: &[u32],
    into: &mut Vec<Post>,
) -> Result<bool, Memory>
    requires shaped { IsShaped head.now (length bytes.now) }
    requires docs { AreDocsOf head.now bytes.now docs.now }
    requires known { All (λ d. d < length listed.now) docs.now }

    ensures { IfOk result (λ whole. whole ≡ true → HasSought weights head.now bytes.now words.0 words.1 listed.now into.new.items) }
{
    into.truncate(0);
    let columns = block_columns(bytes, head);
    let wanted = Wanted {
        words,
        whole: is_inside(head, words),
        listed,
    };
    let kept = add_sought(&columns, head, weights, docs, &wanted, into)?;
    Ok(kept)
}

/// Whether a word's number is `lo` or more and below `hi`, and a document is listed.
#[inline]
pub fn are_sought(doc: u32, word: u32, lo: u32, hi: u32, listed: &[bool]) -> bool
    requires { doc < length listed.now }

    ensures { result ≡ ((nat_le lo word && nat_lt word hi) && slice_index_or listed.now doc false) }
{
    (lo <= word) & (word < hi) & listed[doc as usize]
}

// Whether each word of a block is one of these.
fn is_inside(head: &BlockHead, words: (u32, u32)) -> bool
    requires { head.now.lo + head.now.words ≤ MAX_WORDS }

    ensures { result ≡ true → (words.0 ≤ head.now.lo) × (head.now.lo + head.now.words ≤ words.1) }
{
    words.0 <= head.lo && head.lo + head.words <= words.1
}

// Adds the rows that are sought, some rows at a time, and says whether all of them are of the block's kind and have its words.
fn add_sought(
    columns: &CutColumns<'_>,
    head: &BlockHead,
    weights: Weights,
    docs: &[u32],
    wanted: &Wanted<'_>,
    into: &mut Vec<Post>,
) -> Result<bool, Memory>
    requires { CanBeSought head.now (seen_columns columns.now) docs.now wanted.now.listed.now }

    ensures added { IfOk result (λ kept. into.new.items ≡ into.old.items
        ++ filter (passes wanted.now.whole wanted.now.words.0 wanted.now.words.1 wanted.now.listed.now) (rows_with head.now (seen_columns columns.now) docs.now)) }
    ensures kept { IfOk result (λ kept. kept ≡ true → All (IsOfBlock weights head.now) into.old.items → All (IsOfBlock weights head.now) into.new.items) }
{
    let mut places = [0usize; SPAN];
    let mut kept = true;
    let mut from = 0;
    while from < docs.len() {
        let to = from + SPAN.min(docs.len() - from);
        let found = find_rows(columns, head, docs, wanted, (from, to), &mut places);
        kept &= add_rows(columns, head, weights, docs, &places[..found], into)?;
        from = to;
    }
    Ok(kept)
}

// Puts the places of those of some rows that pass to the front of a slice, without a jump, and says how many there are.
fn find_rows(
    columns: &CutColumns<'_>,
    head: &BlockHead,
    docs: &[u32],
    wanted: &Wanted<'_>,
    span: (usize, usize),
    places: &mut [usize],
) -> usize
    requires known { CanBeSought head.now (seen_columns columns.now) docs.now wanted.now.listed.now }
    requires span { IsSpan span.0 span.1 (length docs.now) (length places.old) }

    ensures found { take result places.new ≡ places_where (λ i. passes wanted.now.whole wanted.now.words.0 wanted.now.words.1 wanted.now.listed.now
        (row_with head.now (seen_columns columns.now) docs.now i)) span.0 span.1 }
    ensures few { result ≤ length places.new }
    ensures len { length places.new ≡ length places.old }
{
    let Wanted {
        words: (lo, hi),
        whole,
        listed,
    } = *wanted;
    let (from, to) = span;
    if whole {
        return find_listed(docs, from, to, listed, places);
    }
    let mut found = 0;
    for i in from..to {
        places[found] = i;
        let word = head.lo + half_at(columns.words, 2 * i);
        found += usize::from(are_sought(docs[i], word, lo, hi, listed));
    }
    found
}

// Adds the rows at these places, and says whether all of them are of the block's kind and have its words.
fn add_rows(
    columns: &CutColumns<'_>,
    head: &BlockHead,
    weights: Weights,
    docs: &[u32],
    places: &[usize],
    into: &mut Vec<Post>,
) -> Result<bool, Memory>
    requires words { head.now.lo + head.now.words ≤ MAX_WORDS }
    requires sized { HasColumns head.now (seen_columns columns.now) }
    requires long { length docs.now ≡ head.now.rows }
    requires known { All (λ i. i < length docs.now) places.now }

    ensures added { IfOk result (λ kept. into.new.items ≡ into.old.items ++ map (row_with head.now (seen_columns columns.now) docs.now) places.now) }
    ensures kept { IfOk result (λ kept. kept ≡ true → All (IsOfBlock weights head.now) into.old.items → All (IsOfBlock weights head.now) into.new.items) }
{
    into.reserve(places.len())?;
    let mut kept = true;
    for place in places {
        let row = row_at(columns, head.lo, docs[*place], *place);
        kept &= is_in_words(head, row) & is_scored(head.facet, weights, row);
        into.push_reserved(row);
    }
    Ok(kept)
}
