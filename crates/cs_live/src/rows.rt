//! Rows of the index as they are now: with the new numbers of their words, and without those of documents that are gone. They are put right
//! in their own place, where a document is gone or a word has another number, and else they are what was read.
ghost use Rattle.std.specs.Prelude.{◌≡◌, ◌<◌, ℕ, false, true, List, Option, filter, length, map, slice_index_or, take, IfOk, OnOk};
ghost use Rattle.std.specs.List.{All};
ghost use Rattle.std.specs.Option.{ForSome};
ghost use Rattle.cs_base.specs.outside.Causes.{ReadsWithin};
ghost use Rattle.cs_rows.specs.Sources.{is_there};
ghost use Rattle.cs_file.specs.CallAnswers.{IsChangeOfBlock, LeavesStore};
ghost use Rattle.cs_file.specs.Indexes.{HasAllBlocks};
ghost use Rattle.cs_file.specs.BlockBytes.{FitsBlock, HasFileBytes};
ghost use Rattle.cs_live.specs.States.{AreOwnNumbers, AreScoredNow, IsFetched, IsScoredNow, IsState, now_posts, renumbered};

use crate::facts::is_set;
use crate::numbers::{has_own_words, old_words};
use crate::state::{State, docs_of_index};
use cs_base::{Memory, Post, Store};
use cs_file::{FetchFault, Fetched, ReadBlock, Sought};
use std::alloc::Global;

/// Reads the rows of a block that are sought, as they are now.
pub(crate) fn fetch_now<S: Store>(
    alloc: Global,
    state: &State,
    store: &mut S,
    k: u32,
    words: (u32, u32),
    listed: &[bool],
    into: &mut Sought,
) -> Result<(), FetchFault>
    requires in_range { k < length state.now.index.heads }
    requires listed { length listed.now ≡ length state.now.present }
    requires fits { HasAllBlocks (S.bytes store.old) state.now.index }

    ensures is { IsState state.now }
    ensures fetched { OnOk result (IsFetched state.now.index (S.bytes store.old) k state.now.shift state.now.present words.0 words.1 listed.now into.new.posts.items) }
    ensures fits { OnOk result (FitsBlock state.now.index into.new.block) }
    ensures file { ForSome (S.bytes store.old) (λ b. OnOk result (HasFileBytes b into.new.block)) }
    ensures store { LeavesStore S.bytes S.lent S.faults state.now.index (IsChangeOfBlock state.now.index (S.bytes store.old) k) store.old store.new result }
    ensures reads { ReadsWithin 1 (S.reads store.old) (S.reads store.new) }
{
    let shift: &[u32] = &state.shift;
    let old = old_words(shift, words);
    let docs = &listed[..docs_of_index(&state.index) as usize];
    state.index.fetch_sought(alloc, store, k, old, docs, into)?;
    let own = has_own_words(&state.words, shift);
    put_now(state.whole, own, shift, &state.present, &mut into.posts);
    Ok(())
}

/// Puts the rows of a block that are sought, as they are now, into a list, out of what was read of the block. False, with anything in it,
/// where what was read is another block or breaks a rule.
pub(crate) fn seek_now(
    state: &State,
    k: u32,
    from: &ReadBlock,
    words: (u32, u32),
    listed: &[bool],
    into: &mut Vec<Post>,
) -> Result<bool, Memory>
    requires in_range { k < length state.now.index.heads }
    requires listed { length listed.now ≡ length state.now.present }
    requires fits { FitsBlock state.now.index from.now }

    ensures is { IsState state.now }
    ensures sought { (told : Option (List ℕ)) → ForSome told (λ b. HasFileBytes b from.now) → IfOk result (λ is. is ≡ true
        → IsFetched state.now.index told k state.now.shift state.now.present words.0 words.1 listed.now into.new.items) }
{
    let shift: &[u32] = &state.shift;
    let old = old_words(shift, words);
    let docs = &listed[..docs_of_index(&state.index) as usize];
    let found = state.index.seek(k, from, old, docs, into)?;
    if !found {
        return Ok(false);
    }
    let own = has_own_words(&state.words, shift);
    put_now(state.whole, own, shift, &state.present, into);
    Ok(true)
}

// Puts rows right: without those of documents that are gone, where not all are there, and with the numbers that their words have now, where
// these aren't their own.
fn put_now(whole: bool, own: bool, shift: &[u32], present: &[bool], posts: &mut Vec<Post>)
    requires words { All (λ p. p.word < length shift.now) posts.old.items }
    requires whole { whole ≡ true → All (λ p. is_there present.now p ≡ true) posts.old.items }
    requires own { own ≡ true → AreOwnNumbers shift.now }

    ensures { posts.new.items ≡ now_posts shift.now present.now posts.old.items }
{
    drop_gone(whole, present, posts);
    renumber_rows(own, shift, posts);
}

// Takes the rows of documents that are gone out.
fn drop_gone(whole: bool, present: &[bool], posts: &mut Vec<Post>)
    requires { whole ≡ true → All (λ p. is_there present.now p ≡ true) posts.old.items }

    ensures { posts.new.items ≡ filter (is_there present.now) posts.old.items }
{
    if whole {
        return;
    }
    posts.retain(|post| is_set(present, post.doc));
}

/// Gives rows the numbers that their words have among more words. Where they have their own, nothing is done.
pub(crate) fn renumber_rows(own: bool, shift: &[u32], posts: &mut [Post])
    requires words { All (λ p. p.word < length shift.now) posts.old }
    requires own { own ≡ true → AreOwnNumbers shift.now }

    ensures { posts.new ≡ map (renumbered shift.now) posts.old }
{
    if own {
        return;
    }
    for i in 0..posts.len() {
        posts[i] = renumbered(shift, posts[i]);
    }
}

// A row with the number that its word has among more words.
#[inline]
fn renumbered(shift: &[u32], post: Post) -> Post
    requires { post.word < length shift.now }

    ensures { result ≡ renumbered shift.now post }
{
    Post {
        doc: post.doc,
        word: shift[post.word as usize],
        pos: post.pos,
        score: post.score,
    }
}

/// Reads the documents, the words and the scores of the rows of a block, as they are now.
pub(crate) fn fetch_scored_now<S: Store>(
    alloc: Global,
    state: &State,
    store: &mut S,
    k: u32,
    into: &mut Fetched,
) -> Result<(), FetchFault>
    requires in_range { k < length state.now.index.heads }
    requires fits { HasAllBlocks (S.bytes store.old) state.now.index }

    ensures is { IsState state.now }
    ensures fetched { OnOk result (IsScoredNow state.now.index (S.bytes store.old) k state.now.shift state.now.present into.new) }
    ensures store { LeavesStore S.bytes S.lent S.faults state.now.index (IsChangeOfBlock state.now.index (S.bytes store.old) k) store.old store.new result }
    ensures reads { ReadsWithin 1 (S.reads store.old) (S.reads store.new) }
{
    state.index.fetch_scored(alloc, store, k, into)?;
    let shift: &[u32] = &state.shift;
    let own = has_own_words(&state.words, shift);
    put_scored_now(state.whole, own, shift, &state.present, into);
    Ok(())
}

// Puts the documents, the words and the scores of rows right, as `put_now` does.
fn put_scored_now(whole: bool, own: bool, shift: &[u32], present: &[bool], read: &mut Fetched)
    requires words_even { length read.old.words.items ≡ length read.old.docs.items }
    requires scores_even { length read.old.scores.items ≡ length read.old.docs.items }
    requires docs { All (λ d. d < length present.now) read.old.docs.items }
    requires words { All (λ w. w < length shift.now) read.old.words.items }
    requires whole { whole ≡ true → All (λ d. slice_index_or present.now d false ≡ true) read.old.docs.items }
    requires own { own ≡ true → AreOwnNumbers shift.now }

    ensures { AreScoredNow shift.now present.now read.old.docs.items read.old.words.items read.old.scores.items
        read.new.docs.items read.new.words.items read.new.scores.items }
{
    if whole {
        renumber_words(own, shift, &mut read.words);
        return;
    }
    let kept = keep_there(
        shift,
        present,
        &mut read.docs,
        &mut read.words,
        &mut read.scores,
    );
    read.docs.truncate(kept);
    read.words.truncate(kept);
    read.scores.truncate(kept);
}

// Gives words of the index the numbers that they have now.
fn renumber_words(own: bool, shift: &[u32], words: &mut [u32])
    requires words { All (λ w. w < length shift.now) words.old }
    requires own { own ≡ true → AreOwnNumbers shift.now }

    ensures { words.new ≡ map (λ w. slice_index_or shift.now w 0) words.old }
{
    if own {
        return;
    }
    for i in 0..words.len() {
        words[i] = shift[words[i] as usize];
    }
}

// Puts the documents, the words and the scores of rows whose documents are there to the front, as they are now, without a jump, and says how
// many there are.
fn keep_there(
    shift: &[u32],
    present: &[bool],
    docs: &mut [u32],
    words: &mut [u32],
    scores: &mut [u8],
) -> usize
    requires words_even { length words.old ≡ length docs.old }
    requires scores_even { length scores.old ≡ length docs.old }
    requires docs { All (λ d. d < length present.now) docs.old }
    requires words { All (λ w. w < length shift.now) words.old }

    ensures { AreScoredNow shift.now present.now docs.old words.old scores.old (take result docs.new) (take result words.new) (take result scores.new) }
{
    let mut kept = 0;
    for i in 0..docs.len() {
        let doc = docs[i];
        docs[kept] = doc;
        words[kept] = shift[words[i] as usize];
        scores[kept] = scores[i];
        kept += usize::from(present[doc as usize]);
    }
    kept
}
