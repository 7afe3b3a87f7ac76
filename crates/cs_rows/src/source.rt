//! Where rows lie: in the blocks of an index, and in memory behind them.
ghost use Rattle.std.specs.Prelude.{◌≡◌, ℕ, List, ◌+◌, ◌≤◌, ◌<◌, false, true, [], filter, length, slice_index_or, IfOk, OnOk};
ghost use Rattle.std.specs.List.{All, list_any};
ghost use Rattle.std.specs.Option.{ForSome};
ghost use Rattle.std.specs.Str.{bytes_eq, is_utf8};
ghost use Rattle.cs_base.specs.declared.content.scores.TheConstants.{MAX_ROW_SCORE};
ghost use Rattle.cs_base.specs.outside.Causes.{ReadsWithin};
ghost use Rattle.cs_file.specs.CallAnswers.{AreScoredOf, IsChangeOfBlock, IsRanged, LeavesStore};
ghost use Rattle.cs_file.specs.Indexes.{AreMet, HasAllBlocks, StandsFor};
ghost use Rattle.cs_file.specs.BlockBytes.{FitsBlock, HasFileBytes};
ghost use Rattle.cs_model_index.specs.Numbered.{word_at};
ghost use Rattle.cs_tables.specs.WordCounts.{is_chosen};
ghost use Rattle.cs_vocab.specs.Ranges.{IsRange};
ghost use Rattle.cs_rows.specs.Blockwise.{AreMany};
ghost use Rattle.cs_rows.specs.IndexReading.{IsRangeOf, IsWordRange, OnlyReads};
ghost use Rattle.cs_rows.specs.Skipping.{no_head};
ghost use Rattle.cs_rows.specs.Sources.{SourceView, seen, title_reads};
ghost use Rattle.cs_rows.specs.Stocked.{is_between, title_at};

use cs_base::{BlockHead, Memory, Post, Store, Text, Weights};
use cs_file::{FetchFault, Fetched, ReadBlock, Sought};
use std::alloc::Global;

/// Rows in the blocks of an index, which are read through a store, and rows in memory behind them.
pub trait Source {
    /// What is known of it whatever a store tells, and what its rows are over the bytes that its index stands for.
    ghost view: { Self → SourceView };

    /// How many numbers of documents there are.
    fn docs(&self) -> u32
        ensures { result ≡ (view self.now).docs };

    /// What the rows count for.
    fn weights(&self) -> Weights
        ensures { result ≡ (view self.now).index.weights };

    /// Which numbers are those of documents.
    fn list_all(&self, alloc: Global) -> Result<Vec<bool>, Memory>
        ensures { IfOk result (λ v. v.items ≡ (view self.now).present) };

    /// Whether a number is that of a document.
    fn has_doc(&self, doc: u32) -> bool
        requires { doc < (view self.now).docs }

        ensures { result ≡ slice_index_or (view self.now).present doc false };

    /// The rows in memory whose word's number is `words.0` or more and below `words.1`.
    fn held(&self, words: (u32, u32)) -> &[Post]
        ensures { result.now ≡ filter (is_between words.0 words.1) (view self.now).held };

    /// The words that begin with `p`: from the first number up to the second, which is left out.
    fn range(&self, p: &[u8]) -> (u32, u32)
        ensures { IsRange (view self.now).words p.now result.0 result.1 };

    /// The number of a word and the next one, or an empty range.
    fn range_of_word(&self, word: &[u8]) -> (u32, u32)
        ensures range { IsRangeOf (view self.now).words (λ v. bytes_eq v word.now) result.0 result.1 }
        ensures short { result.1 ≤ result.0 + 1 }
        ensures none { list_any (bytes_eq word.now) (view self.now).words ≡ false → result.0 ≡ result.1 };

    /// The word of a number.
    fn word(&self, n: u32) -> &[u8]
        requires { n < length (view self.now).words }

        ensures { result.now ≡ word_at (view self.now).words n };

    /// The blocks that hold a word whose number is `words.0` or more and below `words.1`: from the first number up to the second, which is
    /// left out.
    fn blocks(&self, words: (u32, u32)) -> (u32, u32)
        requires { IsWordRange (seen (view self.now)) words.0 words.1 }

        ensures { AreMet (view self.now).index.heads ((view self.now).before words.0) ((view self.now).before words.1) result.0 result.1 };

    /// The head of block `k`, with the least and the greatest document of its rows.
    fn head(&self, k: u32) -> &BlockHead
        requires { k < length (view self.now).index.heads }

        ensures { result.now ≡ slice_index_or (view self.now).index.heads k no_head };

    /// Whether there are more rows of these words than an entry may have, as far as can be told without reading them.
    fn are_many(&self, words: (u32, u32)) -> bool
        requires { IsWordRange (seen (view self.now)) words.0 words.1 }

        ensures { result ≡ true → AreMany (view self.now) words.0 words.1 };

    /// Reads the rows of block `k` in listed documents whose word's number is `words.0` or more and below `words.1`, in place of those
    /// that `into` holds.
    fn fetch_sought<S: Store>(
        &self,
        alloc: Global,
        store: &mut S,
        k: u32,
        words: (u32, u32),
        listed: &[bool],
        into: &mut Sought,
    ) -> Result<(), FetchFault>
        requires in_range { k < length (view self.now).index.heads }
        requires words { IsWordRange (seen (view self.now)) words.0 words.1 }
        requires listed { length listed.now ≡ (view self.now).docs }
        requires fits { HasAllBlocks (S.bytes store.old) (view self.now).index }

        ensures ranged { OnOk result (All (IsRanged (seen (view self.now))) into.new.posts.items) }
        ensures sought { OnOk result (All (λ p. is_chosen words.0 words.1 listed.now p ≡ true) into.new.posts.items) }
        ensures stood { ForSome (S.bytes store.old) (λ b. StandsFor b (view self.now).index
            → OnOk result (into.new.posts.items ≡ filter (is_chosen words.0 words.1 listed.now) (slice_index_or ((view self.now).blocks b) k []))) }
        ensures fits { OnOk result (FitsBlock (view self.now).index into.new.block) }
        ensures file { ForSome (S.bytes store.old) (λ b. OnOk result (HasFileBytes b into.new.block)) }
        ensures store { LeavesStore S.bytes S.lent S.faults (view self.now).index
            (IsChangeOfBlock (view self.now).index (S.bytes store.old) k) store.old store.new result }
        ensures reads { ReadsWithin 1 (S.reads store.old) (S.reads store.new) };

    /// Puts the rows of block `k` in listed documents whose word's number is `words.0` or more and below `words.1` into a list, in place of
    /// those that it holds, out of what was read of the block. False, with anything in it, where what was read is another block or breaks a
    /// rule.
    fn seek(
        &self,
        k: u32,
        from: &ReadBlock,
        words: (u32, u32),
        listed: &[bool],
        into: &mut Vec<Post>,
    ) -> Result<bool, Memory>
        requires in_range { k < length (view self.now).index.heads }
        requires words { IsWordRange (seen (view self.now)) words.0 words.1 }
        requires listed { length listed.now ≡ (view self.now).docs }
        requires fits { FitsBlock (view self.now).index from.now }

        ensures ranged { IfOk result (λ is. is ≡ true → All (IsRanged (seen (view self.now))) into.new.items) }
        ensures sought { IfOk result (λ is. is ≡ true → All (λ p. is_chosen words.0 words.1 listed.now p ≡ true) into.new.items) }
        ensures stood { (b : List ℕ) → StandsFor b (view self.now).index → HasFileBytes b from.now → IfOk result (λ is. is ≡ true
            → into.new.items ≡ filter (is_chosen words.0 words.1 listed.now) (slice_index_or ((view self.now).blocks b) k [])) };

    /// Reads the documents, the words and the scores of the rows of block `k` in place of those that `into` holds.
    fn fetch_scored<S: Store>(
        &self,
        alloc: Global,
        store: &mut S,
        k: u32,
        into: &mut Fetched,
    ) -> Result<(), FetchFault>
        requires in_range { k < length (view self.now).index.heads }
        requires fits { HasAllBlocks (S.bytes store.old) (view self.now).index }

        ensures words_even { OnOk result (length into.new.words.items ≡ length into.new.docs.items) }
        ensures scores_even { OnOk result (length into.new.scores.items ≡ length into.new.docs.items) }
        ensures docs { OnOk result (All (λ d. d < (view self.now).docs) into.new.docs.items) }
        ensures words { OnOk result (All (λ w. w < length (view self.now).words) into.new.words.items) }
        ensures scores { OnOk result (All (λ s. (1 ≤ s) × (s ≤ MAX_ROW_SCORE)) into.new.scores.items) }
        ensures stood { ForSome (S.bytes store.old) (λ b. StandsFor b (view self.now).index
            → OnOk result (AreScoredOf (slice_index_or ((view self.now).blocks b) k []) into.new.docs.items into.new.words.items into.new.scores.items)) }
        ensures store { LeavesStore S.bytes S.lent S.faults (view self.now).index
            (IsChangeOfBlock (view self.now).index (S.bytes store.old) k) store.old store.new result }
        ensures reads { ReadsWithin 1 (S.reads store.old) (S.reads store.new) };

    /// The title of a document. It is read where the index has the document, and else it is in memory.
    fn title<S: Store>(&self, alloc: Global, store: &mut S, doc: u32) -> Result<Text, FetchFault>
        requires in_range { doc < (view self.now).docs }
        requires fits { HasAllBlocks (S.bytes store.old) (view self.now).index }

        ensures text { IfOk result (λ t. is_utf8 t ≡ true) }
        ensures stood { ForSome (S.bytes store.old) (λ b. StandsFor b (view self.now).index
            → IfOk result (λ t. t ≡ title_at ((view self.now).stock b).titles doc)) }
        ensures store { OnlyReads S.bytes S.lent S.faults (view self.now).index store.old store.new result }
        ensures reads { ReadsWithin (title_reads (view self.now) doc) (S.reads store.old) (S.reads store.new) };
}
