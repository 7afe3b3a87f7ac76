//! An opened index under changes, as a source.
ghost use Rattle.std.specs.Prelude.{◌≡◌, ◌<◌, true, length, slice_index_or};
ghost use Rattle.cs_rows.specs.Blockwise.{AreMany};
ghost use Rattle.cs_rows.specs.IndexReading.{IsWordRange};
ghost use Rattle.cs_rows.specs.Skipping.{no_head};
ghost use Rattle.cs_rows.specs.Sources.{IsSource, seen};
ghost use Rattle.cs_rows.specs.Sources.{source_of as opened_source};
ghost use Rattle.cs_live.specs.States.{source_now};

use crate::numbers::{old_words, own_range};
use crate::rows::{fetch_now, fetch_scored_now, seek_now};
use crate::rows_by_word::rows_of_words;
use crate::state::State;
use crate::titles::title_now;
use cs_base::{BlockHead, Memory, Post, Store, Text, Weights};
use cs_file::{FetchFault, Fetched, Index, ReadBlock, Sought};
use cs_rows::Source;
use std::alloc::Global;

impl Source for State {
    ghost use Rattle.cs_live.specs.States.{source_now};

    ghost view = { source_now };

    fn docs(&self) -> u32 {
        self.present.len() as u32
    }

    fn weights(&self) -> Weights {
        weights_of(&self.index)
    }

    fn list_all(&self, alloc: Global) -> Result<Vec<bool>, Memory> {
        let all = Vec::from_slice(alloc, &self.present)?;
        Ok(all)
    }

    fn has_doc(&self, doc: u32) -> bool {
        self.present[doc as usize]
    }

    fn held(&self, words: (u32, u32)) -> &[Post] {
        rows_of_words(&self.by_word, words)
    }

    fn range(&self, p: &[u8]) -> (u32, u32) {
        self.words.range(p)
    }

    fn range_of_word(&self, word: &[u8]) -> (u32, u32) {
        own_range(&self.words, word)
    }

    fn word(&self, n: u32) -> &[u8] {
        self.words.word(n)
    }

    fn blocks(&self, words: (u32, u32)) -> (u32, u32) {
        let (lo, hi) = old_words(&self.shift, words);
        self.index.blocks(lo, hi)
    }

    fn head(&self, k: u32) -> &BlockHead {
        head_of(&self.index, k)
    }

    fn are_many(&self, words: (u32, u32)) -> bool {
        let old = old_words(&self.shift, words);
        self.whole && are_many_old(&self.index, old)
    }

    fn fetch_sought<S: Store>(
        &self,
        alloc: Global,
        store: &mut S,
        k: u32,
        words: (u32, u32),
        listed: &[bool],
        into: &mut Sought,
    ) -> Result<(), FetchFault> {
        fetch_now(alloc, self, store, k, words, listed, into)
    }

    fn seek(
        &self,
        k: u32,
        from: &ReadBlock,
        words: (u32, u32),
        listed: &[bool],
        into: &mut Vec<Post>,
    ) -> Result<bool, Memory> {
        seek_now(self, k, from, words, listed, into)
    }

    fn fetch_scored<S: Store>(
        &self,
        alloc: Global,
        store: &mut S,
        k: u32,
        into: &mut Fetched,
    ) -> Result<(), FetchFault> {
        fetch_scored_now(alloc, self, store, k, into)
    }

    fn title<S: Store>(&self, alloc: Global, store: &mut S, doc: u32) -> Result<Text, FetchFault> {
        title_now(alloc, &self.index, &self.present, &self.added, store, doc)
    }
}

/// A state is a source, whatever store its index was opened over.
pub(crate) fn state_is_source(state: &State)
    ensures { IsSource (source_now state.now) }
{
    // the type of a state says what it keeps where a field of it is read
    let _ = &state.whole;
}

fn weights_of(index: &Index) -> Weights
    ensures { result ≡ index.now.weights }
{
    index.weights
}

fn head_of(index: &Index, k: u32) -> &BlockHead
    requires { k < length index.now.heads }

    ensures { result.now ≡ slice_index_or index.now.heads k no_head }
{
    index.head(k)
}

// Whether the index has more rows of these of its words than an entry may have, as far as can be told without reading them.
fn are_many_old(index: &Index, words: (u32, u32)) -> bool
    requires { IsWordRange (seen (opened_source index.now)) words.0 words.1 }

    ensures { result ≡ true → AreMany (opened_source index.now) words.0 words.1 }
{
    index.are_many(words)
}
