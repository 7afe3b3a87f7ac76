//! Reading blocks and titles of an opened index.
ghost use Rattle.std.specs.Prelude.{◌≡◌, ◌<◌, ◌≤◌, ◌+◌, ◌++◌, ◌^◌, ℕ, List, Option, false, true, length, Err, IfOk, IfErr, OnOk, OnErr, All};
ghost use Rattle.std.specs.Option.{ForSome};
ghost use Rattle.std.specs.Str.{is_utf8};
ghost use Rattle.cs_base.specs.declared.content.scores.TheConstants.{MAX_ROW_SCORE};
ghost use Rattle.cs_base.specs.outside.Causes.{ReadsWithin};
ghost use Rattle.cs_base.specs.outside.Outside.{part};
ghost use Rattle.cs_base.specs.declared.content.doc.Post.{Post};
ghost use Rattle.cs_base.specs.declared.index.block.Broken.{Broken};
ghost use Rattle.cs_block.specs.BlockReading.{Decodes};
ghost use Rattle.cs_block.specs.DocWords.{HasDocWords, HasFront, front_bytes};
ghost use Rattle.cs_model_index.specs.BlockRules.{IsBlock};
ghost use Rattle.cs_file.specs.CallAnswers.{AreScoredOf, IsBlockOf, IsChangeOfBlock, IsChangeOfTitle, LeavesStore, is_read, is_changed};
ghost use Rattle.cs_file.specs.Fetching.{CanBeJudged, HasScored, HoldsNone, IsBlockAt, IsFaultAt, IsFaultOf, ReadsText};
ghost use Rattle.cs_file.specs.Indexes.{StandsFor, HasAllBlocks, CausedReads, block_place, block_posts, title_in, title_place, title_len};

use crate::fault::FetchFault;
use crate::fetched::Fetched;
use crate::index::Index;
use crate::reading::{fit, read_at_once};
use cs_base::{BlockHead, Memory, Store, Text, Weights};
use cs_block::{BlockFault, decode, read_doc_words, read_scores};
use cs_cols::Cols;
use std::alloc::Global;

/// What is known of a block whose bytes are read.
#[derive(Clone, Copy)]
pub(crate) struct PlacedBlock {
    /// What the directory says of it.
    pub(crate) head: BlockHead,
    /// The documents of the collection are those below this one.
    pub(crate) docs: u32,
    /// What the rows count for.
    pub(crate) weights: Weights,
    /// Its place, in bytes from the file's first.
    pub(crate) at: u64,
}

impl Index {
    /// Adds the posts of block `k` at the end, read from the store from which the index was opened. All rules of a block are tried.
    pub fn fetch<S: Store>(
        &self,
        alloc: Global,
        store: &mut S,
        k: u32,
        into: &mut Cols,
    ) -> Result<(), FetchFault>
        requires in_range { k < length self.now.heads }
        requires fits { HasAllBlocks (S.bytes store.old) self.now }

        // over every store they are a block by the rules, and over one that tells they are read there
        ensures ok { OnOk result ((rows : List Post) × IsBlockOf self.now (S.bytes store.old) k rows × (into.new.posts ≡ into.old.posts ++ rows)) }
        ensures stood { ForSome (S.bytes store.old) (λ b. StandsFor b self.now → OnOk result (into.new.posts ≡ into.old.posts ++ block_posts b k)) }
        ensures err { OnErr result (into.new.posts ≡ into.old.posts) }
        ensures store { LeavesStore S.bytes S.lent S.faults self.now (IsChangeOfBlock self.now (S.bytes store.old) k) store.old store.new result }
        ensures reads { ReadsWithin 1 (S.reads store.old) (S.reads store.new) }
    {
        let placed = self.placed(k);
        let mut bytes = Vec::new(alloc);
        read_over(store, placed.at, placed.head.len, &mut bytes)?;
        decode_into(&bytes, &placed, into)
    }

    /// Reads the documents, the words and the scores of the posts of block `k` in place of those that `into` holds, from the store
    /// from which the index was opened. Positions aren't looked at. Where it fails `into` holds none.
    pub fn fetch_scored<S: Store>(
        &self,
        alloc: Global,
        store: &mut S,
        k: u32,
        into: &mut Fetched,
    ) -> Result<(), FetchFault>
        requires in_range { k < length self.now.heads }
        requires fits { HasAllBlocks (S.bytes store.old) self.now }

        // over every store they are in range, and over one that tells they are read there
        ensures words_even { OnOk result (length into.new.words.items ≡ length into.new.docs.items) }
        ensures scores_even { OnOk result (length into.new.scores.items ≡ length into.new.docs.items) }
        ensures docs { OnOk result (All (λ d. d < self.now.docs) into.new.docs.items) }
        ensures words { OnOk result (All (λ w. w < length self.now.words) into.new.words.items) }
        ensures scores { OnOk result (All (λ s. (1 ≤ s) × (s ≤ MAX_ROW_SCORE)) into.new.scores.items) }
        ensures stood { ForSome (S.bytes store.old) (λ b. StandsFor b self.now
            → OnOk result (AreScoredOf (block_posts b k) into.new.docs.items into.new.words.items into.new.scores.items)) }
        ensures err { OnErr result (HoldsNone into.new) }
        ensures store { LeavesStore S.bytes S.lent S.faults self.now (IsChangeOfBlock self.now (S.bytes store.old) k) store.old store.new result }
        ensures reads { ReadsWithin 1 (S.reads store.old) (S.reads store.new) }
    {
        let placed = self.placed(k);
        match read_over(store, placed.at, placed.head.len, &mut into.bytes) {
            Ok(()) => scored_at(alloc, &placed, into),
            Err(fault) => {
                into.clear();
                Err(fault)
            }
        }
    }

    /// The title of a document, read from the store from which the index was opened.
    pub fn title<S: Store>(
        &self,
        alloc: Global,
        store: &mut S,
        doc: u32,
    ) -> Result<Text, FetchFault>
        requires in_range { doc < self.now.docs }
        requires fits { HasAllBlocks (S.bytes store.old) self.now }

        // over every store it is text of the title's length, and over one that tells it is read there
        ensures long { IfOk result (λ t. length t ≡ title_len self.now doc) }
        ensures text { IfOk result (λ t. is_utf8 t ≡ true) }
        ensures ok { ForSome (S.bytes store.old) (λ b. IfOk result (λ t. t ≡ part b (title_place self.now doc) (title_len self.now doc))) }
        ensures stood { ForSome (S.bytes store.old) (λ b. StandsFor b self.now → IfOk result (λ t. t ≡ title_in b doc)) }
        ensures store { LeavesStore S.bytes S.lent S.faults self.now (IsChangeOfTitle self.now (S.bytes store.old) doc) store.old store.new result }
        ensures reads { ReadsWithin 1 (S.reads store.old) (S.reads store.new) }
    {
        let offsets = self.offsets.as_slice();
        let from = offsets[doc as usize];
        let to = offsets[doc as usize + 1];
        let at = self.titles_at + u64::from(from);
        let mut bytes = Vec::new(alloc);
        read_over(store, at, to - from, &mut bytes)?;
        text_at(bytes, at)
    }

    /// What is known of block `k`.
    pub(crate) fn placed(&self, k: u32) -> PlacedBlock
        requires { k < length self.now.heads }

        ensures { IsBlockAt self.now k result }
    {
        PlacedBlock {
            head: self.heads.as_slice()[k as usize],
            docs: self.docs,
            weights: self.weights,
            at: self.block_at(k),
        }
    }

    // The place of block `k`, in bytes from the file's first.
    fn block_at(&self, k: u32) -> u64
        requires { k < length self.now.heads }

        ensures { result ≡ block_place self.now k }
    {
        self.blocks_at + u64::from(self.places.as_slice()[k as usize])
    }
}

/// Reads so many bytes from a place in place of others, by one read.
pub(crate) fn read_over<S: Store>(
    store: &mut S,
    at: u64,
    len: u32,
    bytes: &mut Vec<u8>,
) -> Result<(), FetchFault>
    requires within { ForSome (S.bytes store.old) (λ b. at + len ≤ length b) }

    ensures ok { ForSome (S.bytes store.old) (λ b. OnOk result (bytes.new.items ≡ part b at len)) }
    ensures long { OnOk result (length bytes.new.items ≡ len) }
    ensures unchanged { is_changed result ≡ false }
    ensures bytes { S.bytes store.new ≡ S.bytes store.old }
    ensures lent { S.lent store.new ≡ S.lent store.old }
    ensures reads { ReadsWithin 1 (S.reads store.old) (S.reads store.new) }
    ensures caused { CausedReads (is_read result) (S.faults store.old) (S.faults store.new) }
{
    fit(bytes, len as usize)?;
    match read_at_once(store, at, bytes) {
        Ok(()) => Ok(()),
        Err(_) => Err(FetchFault::Read),
    }
}

// Adds the posts of a block, whose bytes were read, at the end.
fn decode_into(bytes: &[u8], placed: &PlacedBlock, into: &mut Cols) -> Result<(), FetchFault>
    requires { CanBeJudged placed.now (length bytes.now) }

    ensures ok { OnOk result ((rows : List Post) × IsBlock placed.now.weights placed.now.head placed.now.docs rows bytes.now
        × (into.new.posts ≡ into.old.posts ++ rows)) }
    ensures err { OnErr result (into.new.posts ≡ into.old.posts) }
    ensures exact { IfErr result (λ fault. IsFaultOf placed.now bytes.now fault) }
    ensures unread { is_read result ≡ false }
{
    match decode(bytes, &placed.head, placed.docs, placed.weights, into) {
        Ok(()) => Ok(()),
        Err(fault) => Err(file_fault(fault, placed.at)),
    }
}

/// The posts of a block, whose bytes were read, by decoding it: where a test on some columns fails, this says what is broken.
pub(crate) fn decode_at(
    alloc: Global,
    bytes: &[u8],
    placed: &PlacedBlock,
) -> Result<Cols, FetchFault>
    requires { CanBeJudged placed.now (length bytes.now) }

    ensures ok { IfOk result (λ rows. IsBlock placed.now.weights placed.now.head placed.now.docs rows.posts bytes.now) }
    ensures exact { IfErr result (λ fault. IsFaultOf placed.now bytes.now fault) }
    ensures unread { is_read result ≡ false }
{
    let mut rows = Cols::new(alloc);
    decode_into(bytes, placed, &mut rows)?;
    Ok(rows)
}

// A fault of a block's bytes, which begin at a place of the file.
fn file_fault(fault: BlockFault, at: u64) -> FetchFault
    requires places { at < 2 ^ 63 }

    ensures exact { (broken : Option Broken) → Decodes (Err fault) broken → IsFaultAt at broken result }
    ensures unread { is_read {T = Unit {0}} (Err result) ≡ false }
{
    match fault {
        BlockFault::Memory => FetchFault::Memory,
        BlockFault::Rule { n, at: within } => FetchFault::Changed {
            rule: n,
            at: at + u64::from(within),
        },
    }
}

// Puts the documents, the words and the scores of the posts of a block, whose bytes were read, into columns.
fn scored_at(alloc: Global, placed: &PlacedBlock, into: &mut Fetched) -> Result<(), FetchFault>
    requires { CanBeJudged placed.now (length into.old.bytes.items) }

    ensures ok { OnOk result (HasScored placed.now into.old.bytes.items into.new) }
    ensures err { OnErr result (HoldsNone into.new) }
    ensures exact { IfErr result (λ fault. IsFaultOf placed.now into.old.bytes.items fault) }
    ensures unread { is_read result ≡ false }
{
    let put = put_scored(alloc, placed, into);
    if put.is_err() {
        into.clear();
    }
    put
}

// The same, with anything in the columns behind a fault. Where a score isn't of the block's kind, the block is decoded.
fn put_scored(alloc: Global, placed: &PlacedBlock, into: &mut Fetched) -> Result<(), FetchFault>
    requires { CanBeJudged placed.now (length into.old.bytes.items) }

    ensures ok { OnOk result (HasScored placed.now into.old.bytes.items into.new) }
    ensures exact { IfErr result (λ fault. IsFaultOf placed.now into.old.bytes.items fault) }
    ensures unread { is_read result ≡ false }
{
    doc_words_at(placed, into)?;
    if read_scores(&into.bytes, &placed.head, placed.weights, &mut into.scores)? {
        return Ok(());
    }
    let rows = decode_at(alloc, &into.bytes, placed)?;
    put_all(&mut into.scores, rows.scores())?;
    Ok(())
}

// Puts scores into a column in place of what it holds.
fn put_all(column: &mut Vec<u8>, scores: &[u8]) -> Result<(), Memory>
    ensures { OnOk result (column.new.items ≡ scores.now) }
{
    column.truncate(0);
    column.extend_from_slice(scores)?;
    Ok(())
}

// Puts the documents and the words of the posts of a block into columns. Its bytes were read, or those in front of its positions.
fn doc_words_at(placed: &PlacedBlock, into: &mut Fetched) -> Result<(), FetchFault>
    requires judged { CanBeJudged placed.now placed.now.head.len }
    requires front { front_bytes placed.now.head ≤ length into.old.bytes.items }

    // of each block that begins so
    ensures ok { OnOk result ((block : List ℕ) → HasFront placed.now.head into.old.bytes.items block
        → HasDocWords placed.now.head placed.now.docs block into.new.docs.items into.new.words.items) }
    ensures exact { IfErr result (λ fault. (block : List ℕ) → HasFront placed.now.head into.old.bytes.items block → IsFaultOf placed.now block fault) }
    ensures unread { is_read result ≡ false }
    ensures bytes { into.new.bytes ≡ into.old.bytes }
{
    let listed = read_doc_words(
        &into.bytes,
        &placed.head,
        placed.docs,
        &mut into.docs,
        &mut into.words,
    );
    match listed {
        Ok(()) => Ok(()),
        Err(fault) => Err(file_fault(fault, placed.at)),
    }
}

// The text of a title that stands at a place of the file.
fn text_at(bytes: Vec<u8>, at: u64) -> Result<Text, FetchFault>
    ensures exact { ReadsText bytes.items at result }
    ensures unread { is_read result ≡ false }
{
    match String::from_utf8(bytes) {
        Ok(text) => Ok(Text::from_string(text)),
        Err(_) => Err(FetchFault::Changed { rule: 9, at }),
    }
}
