//! Reading those posts of a block that are sought: of some words, in listed documents. They are sought again in what was read of it.
ghost use Rattle.std.specs.Prelude.{◌≡◌, ℕ, ◌<◌, ◌≤◌, ◌++◌, false, true, List, [], filter, length, IfErr, IfOk, OnErr, OnOk};
ghost use Rattle.std.specs.List.{All};
ghost use Rattle.std.specs.Option.{ForSome};
ghost use Rattle.cs_base.specs.outside.Causes.{ReadsWithin};
ghost use Rattle.cs_block.specs.Sought.{AreDocsOf, HasSought, is_sought};
ghost use Rattle.cs_file.specs.CallAnswers.{IsChangeOfBlock, IsRanged, LeavesStore, is_read};
ghost use Rattle.cs_file.specs.Fetching.{CanBeJudged, IsFaultOf};
ghost use Rattle.cs_file.specs.Indexes.{StandsFor, HasAllBlocks, block_posts};
ghost use Rattle.cs_file.specs.BlockBytes.{FitsBlock, IsListedAs, HasFileBytes};

use crate::fault::FetchFault;
use crate::fetching::{PlacedBlock, decode_at, read_over};
use crate::index::Index;
use crate::read_block::ReadBlock;
use cs_base::{Memory, Post, Store};
use cs_block::{are_sought, list_docs, read_sought};
use cs_cols::Cols;
use std::alloc::Global;
use std::mem::replace;

/// The posts of a block that are sought, in memory that is used again for the next block.
#[derive(Drop)]
pub struct Sought {
    /// The posts.
    pub posts: Vec<Post>,
    /// What was read of the block.
    pub block: ReadBlock,
}

impl Sought {
    /// Nothing yet. It takes no memory, and keeps the allocator for later calls.
    pub fn new(alloc: Global) -> Sought {
        Sought {
            posts: Vec::new(alloc),
            block: ReadBlock::none(alloc),
        }
    }

    /// Takes what was read of the block out.
    pub fn take_block(&mut self, alloc: Global) -> ReadBlock
        ensures block { result ≡ self.old.block }
        ensures posts { self.new.posts ≡ self.old.posts }
    {
        replace(&mut self.block, ReadBlock::none(alloc))
    }
}

impl Index {
    /// Reads the posts of block `k` in listed documents whose word's number is `words.0` or more and below `words.1`, in place of those
    /// that `into` holds, from the store from which the index was opened. That they are in order isn't looked at, and of other posts
    /// no position and no score. What was read of the block is put beside them. Where it fails `into` holds none.
    pub fn fetch_sought<S: Store>(
        &self,
        alloc: Global,
        store: &mut S,
        k: u32,
        words: (u32, u32),
        listed: &[bool],
        into: &mut Sought,
    ) -> Result<(), FetchFault>
        requires in_range { k < length self.now.heads }
        requires words { words.1 ≤ length self.now.words }
        requires listed { length listed.now ≡ self.now.docs }
        requires fits { HasAllBlocks (S.bytes store.old) self.now }

        // over every store they are in range and sought, and over one that tells they are all that are read there
        ensures ranged { OnOk result (All (IsRanged self.now) into.new.posts.items) }
        ensures sought { OnOk result (All (λ p. is_sought words.0 words.1 listed.now p ≡ true) into.new.posts.items) }
        ensures stood { ForSome (S.bytes store.old) (λ b. StandsFor b self.now
            → OnOk result (into.new.posts.items ≡ filter (is_sought words.0 words.1 listed.now) (block_posts b k))) }
        ensures fits { OnOk result (FitsBlock self.now into.new.block) }
        ensures file { ForSome (S.bytes store.old) (λ b. OnOk result (HasFileBytes b into.new.block)) }
        ensures err { OnErr result (into.new.posts.items ≡ []) }
        ensures store { LeavesStore S.bytes S.lent S.faults self.now (IsChangeOfBlock self.now (S.bytes store.old) k) store.old store.new result }
        ensures reads { ReadsWithin 1 (S.reads store.old) (S.reads store.new) }
    {
        let placed = self.placed(k);
        into.block.number = None;
        match read_over(store, placed.at, placed.head.len, &mut into.block.bytes) {
            Ok(()) => sought_at(alloc, &placed, k, words, listed, into),
            Err(fault) => {
                into.posts.truncate(0);
                Err(fault)
            }
        }
    }

    /// Puts the posts of block `k` in listed documents whose word's number is `words.0` or more and below `words.1` into a list, in place
    /// of those that it holds, out of what was read of the block. False, with anything in it, where what was read is another block, or
    /// breaks a rule, which never comes of the bytes that the index was opened over. Where memory runs out it holds none.
    pub fn seek(
        &self,
        k: u32,
        from: &ReadBlock,
        words: (u32, u32),
        listed: &[bool],
        into: &mut Vec<Post>,
    ) -> Result<bool, Memory>
        requires in_range { k < length self.now.heads }
        requires words { words.1 ≤ length self.now.words }
        requires listed { length listed.now ≡ self.now.docs }
        requires fits { FitsBlock self.now from.now }

        ensures ranged { IfOk result (λ is. is ≡ true → All (IsRanged self.now) into.new.items) }
        ensures sought { IfOk result (λ is. is ≡ true → All (λ p. is_sought words.0 words.1 listed.now p ≡ true) into.new.items) }
        ensures stood { (b : List ℕ) → StandsFor b self.now → HasFileBytes b from.now
            → IfOk result (λ is. is ≡ true → into.new.items ≡ filter (is_sought words.0 words.1 listed.now) (block_posts b k)) }
        ensures err { OnErr result (into.new.items ≡ []) }
    {
        if !from.is_of(k, listed.len()) {
            return Ok(false);
        }
        let placed = self.placed(k);
        let whole = read_sought(
            &from.bytes,
            &placed.head,
            placed.weights,
            words,
            listed,
            &from.docs,
            into,
        )?;
        Ok(whole)
    }
}

// Puts the posts of a block that are sought, whose bytes were read, into a list, and lists the documents of all of them.
fn sought_at(
    alloc: Global,
    placed: &PlacedBlock,
    k: u32,
    words: (u32, u32),
    listed: &[bool],
    into: &mut Sought,
) -> Result<(), FetchFault>
    requires judged { CanBeJudged placed.now (length into.old.block.bytes.items) }
    requires listed { length listed.now ≡ placed.now.docs }

    ensures ok { OnOk result (HasSought placed.now.weights placed.now.head into.old.block.bytes.items words.0 words.1 listed.now into.new.posts.items) }
    ensures block { OnOk result (IsListedAs k placed.now into.old.block.bytes.items into.new.block) }
    ensures err { OnErr result (into.new.posts.items ≡ []) }
    ensures exact { IfErr result (λ fault. IsFaultOf placed.now into.old.block.bytes.items fault) }
    ensures unread { is_read result ≡ false }
{
    let put = put_sought(alloc, placed, k, words, listed, into);
    if put.is_err() {
        into.posts.truncate(0);
    }
    put
}

// The same, with anything in the list behind a fault. Where a test fails the block is decoded.
fn put_sought(
    alloc: Global,
    placed: &PlacedBlock,
    k: u32,
    words: (u32, u32),
    listed: &[bool],
    into: &mut Sought,
) -> Result<(), FetchFault>
    requires judged { CanBeJudged placed.now (length into.old.block.bytes.items) }
    requires listed { length listed.now ≡ placed.now.docs }

    ensures ok { OnOk result (HasSought placed.now.weights placed.now.head into.old.block.bytes.items words.0 words.1 listed.now into.new.posts.items) }
    ensures block { OnOk result (IsListedAs k placed.now into.old.block.bytes.items into.new.block) }
    ensures exact { IfErr result (λ fault. IsFaultOf placed.now into.old.block.bytes.items fault) }
    ensures unread { is_read result ≡ false }
{
    if seek_listed(placed, k, words, listed, into)? {
        return Ok(());
    }
    let rows = decode_at(alloc, &into.block.bytes, placed)?;
    into.posts.truncate(0);
    seek_rows(&rows, words, listed, &mut into.posts)?;
    Ok(())
}

// The same by the documents of all posts, which are listed first. False, with anything in the list, where a test fails.
fn seek_listed(
    placed: &PlacedBlock,
    k: u32,
    words: (u32, u32),
    listed: &[bool],
    into: &mut Sought,
) -> Result<bool, Memory>
    requires judged { CanBeJudged placed.now (length into.old.block.bytes.items) }
    requires listed { length listed.now ≡ placed.now.docs }

    ensures ok { IfOk result (λ is. is ≡ true
        → HasSought placed.now.weights placed.now.head into.old.block.bytes.items words.0 words.1 listed.now into.new.posts.items) }
    ensures block { OnOk result (IsListedAs k placed.now into.old.block.bytes.items into.new.block) }
{
    if !list_block(placed, k, &mut into.block)? {
        return Ok(false);
    }
    let whole = read_sought(
        &into.block.bytes,
        &placed.head,
        placed.weights,
        words,
        listed,
        &into.block.docs,
        &mut into.posts,
    )?;
    Ok(whole)
}

// Lists the documents of all posts of a block whose bytes were read, and says whether it could. Where it couldn't, the block has no number.
fn list_block(placed: &PlacedBlock, k: u32, block: &mut ReadBlock) -> Result<bool, Memory>
    requires judged { CanBeJudged placed.now (length block.old.bytes.items) }

    ensures docs { IfOk result (λ is. is ≡ true → AreDocsOf placed.now.head block.old.bytes.items block.new.docs.items) }
    ensures known { IfOk result (λ is. is ≡ true → All (λ d. d < placed.now.docs) block.new.docs.items) }
    ensures block { OnOk result (IsListedAs k placed.now block.old.bytes.items block.new) }
{
    block.number = None;
    let listed = list_docs(&block.bytes, &placed.head, placed.docs, &mut block.docs)?;
    if listed {
        block.number = Some(k);
        block.at = placed.at;
        block.below = placed.docs;
    }
    Ok(listed)
}

// Adds the posts that are sought of some.
fn seek_rows(
    rows: &Cols,
    words: (u32, u32),
    listed: &[bool],
    posts: &mut Vec<Post>,
) -> Result<(), Memory>
    requires { All (λ p. p.doc < length listed.now) rows.now.posts }

    ensures { OnOk result (posts.new.items ≡ posts.old.items ++ filter (is_sought words.0 words.1 listed.now) rows.now.posts) }
{
    for i in 0..rows.len() {
        let post = rows.get(i);
        if are_sought(post.doc, post.word, words.0, words.1, listed) {
            posts.push(post)?;
        }
    }
    Ok(())
}
