//! An opened index as a source: all its rows are in blocks.
ghost use Rattle.cs_rows.specs.Sources.{IsSource, source_of};

use crate::blockwise::are_many;
use crate::source::Source;
use crate::words::range_of_word;
use cs_base::{BlockHead, Memory, Post, Store, Text, Weights};
use cs_file::{FetchFault, Fetched, Index, ReadBlock, Sought};
use std::alloc::Global;

impl Source for Index {
    ghost use Rattle.cs_rows.specs.Sources.{source_of};

    ghost view = { source_of };

    fn docs(&self) -> u32 {
        self.docs
    }

    fn weights(&self) -> Weights {
        self.weights
    }

    fn list_all(&self, alloc: Global) -> Result<Vec<bool>, Memory> {
        let all = vec![in alloc; true; self.docs as usize]?;
        Ok(all)
    }

    fn has_doc(&self, doc: u32) -> bool {
        doc < self.docs
    }

    fn held(&self, _: (u32, u32)) -> &[Post] {
        &[]
    }

    fn range(&self, p: &[u8]) -> (u32, u32) {
        Index::range(self, p)
    }

    fn range_of_word(&self, word: &[u8]) -> (u32, u32) {
        // the type of an index says what it keeps where a field of it is read
        let _ = &self.docs;
        range_of_word(self, word)
    }

    fn word(&self, n: u32) -> &[u8] {
        self.words.word(n)
    }

    fn blocks(&self, words: (u32, u32)) -> (u32, u32) {
        Index::blocks(self, words.0, words.1)
    }

    fn head(&self, k: u32) -> &BlockHead {
        &self.heads.as_slice()[k as usize]
    }

    fn are_many(&self, words: (u32, u32)) -> bool {
        // the type of an index says what it keeps where a field of it is read
        let _ = &self.docs;
        are_many(self, words)
    }

    fn fetch_sought<S: Store>(
        &self,
        alloc: Global,
        store: &mut S,
        k: u32,
        words: (u32, u32),
        listed: &[bool],
        into: &mut Sought,
    ) -> Result<(), FetchFault> {
        Index::fetch_sought(self, alloc, store, k, words, listed, into)
    }

    fn seek(
        &self,
        k: u32,
        from: &ReadBlock,
        words: (u32, u32),
        listed: &[bool],
        into: &mut Vec<Post>,
    ) -> Result<bool, Memory> {
        Index::seek(self, k, from, words, listed, into)
    }

    fn fetch_scored<S: Store>(
        &self,
        alloc: Global,
        store: &mut S,
        k: u32,
        into: &mut Fetched,
    ) -> Result<(), FetchFault> {
        Index::fetch_scored(self, alloc, store, k, into)
    }

    fn title<S: Store>(&self, alloc: Global, store: &mut S, doc: u32) -> Result<Text, FetchFault> {
        // the type of an index says what it keeps where a field of it is read
        let _ = &self.docs;
        Index::title(self, alloc, store, doc)
    }
}

/// An opened index is a source, whatever store it was opened over.
pub fn index_is_source(index: &Index)
    ensures { IsSource (source_of index.now) }
{
    // the type of an index says what it keeps where a field of it is read
    let _ = &index.docs;
}
