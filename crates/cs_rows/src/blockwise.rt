//! The hits and the words of a range of words, scored and counted block by block.
ghost use Rattle.std.specs.Prelude.{◌≡◌, ◌+◌, ◌-◌, ◌*◌, ◌^◌, ◌<◌, ℕ, List, true, filter, length, None, Some, IfOk};
ghost use Rattle.std.specs.List.{All};
ghost use Rattle.std.specs.Option.{ForSome};
ghost use Rattle.cs_base.specs.declared.content.doc.Base.TheVariants as base;
ghost use Rattle.cs_base.specs.{declared.content.limits.TheConstants.{MAX_PARTS}, declared.content.scores.TheConstants.{MAX_ROW_SCORE}};
ghost use Rattle.cs_base.specs.outside.Causes.{ReadsWithin};
ghost use Rattle.cs_file.specs.BlockBytes.{FitsBlock, HasFileBytes};
ghost use Rattle.cs_file.specs.Indexes.{AreMet, IsIndex, StandsFor};
ghost use Rattle.cs_rank.specs.DocScores.{IsBase};
ghost use Rattle.cs_rows.specs.BestScores.{HasBestScores};
ghost use Rattle.cs_rows.specs.Blockwise.{AreMany, HasFound, rows_within};
ghost use Rattle.cs_rows.specs.Counting.{AreListed, counted_rows};
ghost use Rattle.cs_tables.specs.WordCounts.{HasCounted};
ghost use Rattle.cs_rows.specs.GatheredRows.{HasGathered};
ghost use Rattle.cs_rows.specs.IndexReading.{IsWordRange, OnlyReads, WhereStood};
ghost use Rattle.cs_rows.specs.Skipping.{hit_blocks};
ghost use Rattle.cs_rows.specs.Sources.{CanRead, IsSource, met_in, seen, source_of};
ghost use Rattle.cs_rows.specs.Steps.{IsBaseOf};
ghost use Rattle.cs_rows.specs.Stocked.{is_between, base_posts};

use crate::best::{blank_table, raise_at_hand, raise_keys, raise_rows, scored_in};
use crate::bounds::may_hit;
use crate::chosen::{count_chosen, note_chosen};
use crate::counting::{count_keys, listed_docs};
use crate::gathering::GatheredKeys;
use crate::read_blocks::ReadBlocks;
use crate::seeking::seek_in;
use crate::source::Source;
use cs_base::{Base, BlockHead, Memory, Store};
use cs_file::{FetchFault, Fetched, Index, Sought};
use cs_model_kept::MAX_ENTRY_SIZE;
use cs_tables::WordCounts;
use std::alloc::Global;

/// Whether the blocks of these words alone have more rows than an entry may.
pub(crate) fn are_many(index: &Index, words: (u32, u32)) -> bool
    requires words { IsWordRange index.now words.0 words.1 }
    requires index { IsIndex index.now }

    ensures { result ≡ true → AreMany (source_of index.now) words.0 words.1 }
{
    let (first, last) = index.blocks(words.0, words.1);
    let heads = index.heads.as_slice();
    let mut rows = 0;
    for k in first..last {
        rows += rows_within(&heads[k as usize], words);
    }
    rows > MAX_ENTRY_SIZE as u64
}

// How many rows a block has, where all its words are among these; else 0.
fn rows_within(head: &BlockHead, words: (u32, u32)) -> u64
    ensures rows { result ≡ rows_within words.0 words.1 head.now }
    ensures few { result < 2 ^ 32 }
{
    let end = u64::from(head.lo) + u64::from(head.words);
    if words.0 <= head.lo && end <= u64::from(words.1) {
        return u64::from(head.rows);
    }
    0
}

/// The documents of hits that have a row of these words, with their scores, and these words, counted in the rows of these documents. What
/// was gathered of the first blocks isn't looked at again. Of each other block that holds such a word and that a hit reaches the rows are
/// sought in what was read of it before; else it is read once, and put there where it has a place and room.
pub fn found_behind<I: Source, S: Store>(
    alloc: Global,
    index: &I,
    store: &mut S,
    hits: &Base,
    words: (u32, u32),
    listed: &[bool],
    gathered: &GatheredKeys,
    blocks: &mut ReadBlocks,
) -> Result<(Base, WordCounts), FetchFault>
    requires words { IsWordRange (seen (I.view index.now)) words.0 words.1 }
    requires base { IsBaseOf (I.view index.now).docs (MAX_ROW_SCORE * (MAX_PARTS - 1)) hits.now }
    requires listed { AreListed (I.view index.now).present hits.now listed.now }
    requires gathered { HasGathered (I.view index.now) None words.0 words.1 listed.now gathered.now }
    requires opened { CanRead (S.bytes store.old) (I.view index.now) }
    requires fit { All (FitsBlock (I.view index.now).index) blocks.old.blocks.items }

    ensures told { WhereStood (S.bytes store.old) (I.view index.now).index
        (λ b. HasGathered (I.view index.now) (Some b) words.0 words.1 listed.now gathered.now → All (HasFileBytes b) blocks.old.blocks.items
        → IfOk result (λ found. HasFound hits.now
        (base_posts hits.now (filter (is_between words.0 words.1) ((I.view index.now).stock b).posts)) found.0 found.1)) }
    ensures base { IfOk result (λ found. (n : ℕ) → IsBaseOf (I.view index.now).docs (MAX_ROW_SCORE * n) hits.now
        → IsBaseOf (I.view index.now).docs (MAX_ROW_SCORE * (n + 1)) found.0) }
    ensures words { IfOk result (λ found. found.1.high ≡ words.1) }
    ensures fit { All (FitsBlock (I.view index.now).index) blocks.new.blocks.items }
    ensures file { ForSome (S.bytes store.old) (λ b. All (HasFileBytes b) blocks.old.blocks.items → All (HasFileBytes b) blocks.new.blocks.items) }
    ensures store { OnlyReads S.bytes S.lent S.faults (I.view index.now).index store.old store.new result }
    ensures reads { ReadsWithin (hit_blocks hits.now (I.view index.now).index.heads gathered.now.next gathered.now.last)
        (S.reads store.old) (S.reads store.new) }
{
    let mut counts = WordCounts::new(alloc, words.0, words.1)?;
    count_keys(&mut counts, &gathered.keys);
    let mut best = blank_table(alloc, index.docs())?;
    raise_keys(&mut best, index.weights(), &gathered.keys);
    let mut sought = Sought::new(alloc);
    for k in gathered.next..gathered.last {
        if !may_hit(hits, index.head(k)) {
            continue;
        }
        seek_in(alloc, index, store, k, words, listed, blocks, &mut sought)?;
        note_chosen(&mut counts, &mut best, &sought.posts);
    }
    let found = found_with_held(alloc, index, hits, words, listed, counts, best)?;
    Ok(found)
}

/// The documents that have a row of these words, with their scores, and these words, counted in all rows. Each block that holds such a word
/// is read once.
pub fn found_in_all<I: Source, S: Store>(
    alloc: Global,
    index: &I,
    store: &mut S,
    words: (u32, u32),
) -> Result<(Base, WordCounts), FetchFault>
    requires words { IsWordRange (seen (I.view index.now)) words.0 words.1 }
    requires opened { CanRead (S.bytes store.old) (I.view index.now) }

    ensures told { WhereStood (S.bytes store.old) (I.view index.now).index
        (λ b. IfOk result (λ found. HasFound base.All (filter (is_between words.0 words.1) ((I.view index.now).stock b).posts) found.0 found.1)) }
    ensures base { IfOk result (λ found. IsBaseOf (I.view index.now).docs MAX_ROW_SCORE found.0) }
    ensures words { IfOk result (λ found. found.1.high ≡ words.1) }
    ensures store { OnlyReads S.bytes S.lent S.faults (I.view index.now).index store.old store.new result }
    ensures reads { ReadsWithin (met_in (I.view index.now) words.0 words.1) (S.reads store.old) (S.reads store.new) }
{
    let all = listed_docs(alloc, index, &Base::All)?;
    let listed: &[bool] = &all;
    let mut counts = WordCounts::new(alloc, words.0, words.1)?;
    let mut best = blank_table(alloc, index.docs())?;
    let mut block = Fetched::new(alloc);
    let (first, last) = index.blocks(words);
    for k in first..last {
        index.fetch_scored(alloc, store, k, &mut block)?;
        counts.add_rows(&block.docs, &block.words, listed);
        raise_rows(&mut best, words, listed, &block);
    }
    let found = found_with_held(alloc, index, &Base::All, words, listed, counts, best)?;
    Ok(found)
}

// What was noted of the rows of these words in blocks, with the rows in memory: the documents of hits that have a row, with their scores,
// and the words counted.
fn found_with_held<I: Source>(
    alloc: Global,
    index: &I,
    hits: &Base,
    words: (u32, u32),
    listed: &[bool],
    mut counts: WordCounts,
    mut best: Vec<u8>,
) -> Result<(Base, WordCounts), Memory>
    requires source { IsSource (I.view index.now) }
    requires base { IsBase hits.now }
    requires listed { AreListed (I.view index.now).present hits.now listed.now }
    requires low { counts.low ≡ words.0 }
    requires high { counts.high ≡ words.1 }
    requires long { length best.items ≡ (I.view index.now).docs }

    ensures told { (b : List ℕ) (first last : ℕ) → StandsFor b (I.view index.now).index
        → AreMet (I.view index.now).index.heads ((I.view index.now).before words.0) ((I.view index.now).before words.1) first last
        → HasCounted (counted_rows ((I.view index.now).blocks b) first last words.0 words.1 listed.now) counts
        → HasBestScores (counted_rows ((I.view index.now).blocks b) first last words.0 words.1 listed.now) best.items
        → IfOk result (λ found. HasFound hits.now
        (base_posts hits.now (filter (is_between words.0 words.1) ((I.view index.now).stock b).posts)) found.0 found.1) }
    ensures base { IfOk result (λ found. (n : ℕ) → IsBaseOf (I.view index.now).docs (MAX_ROW_SCORE * n) hits.now
        → IsBaseOf (I.view index.now).docs (MAX_ROW_SCORE * (n + 1)) found.0) }
    ensures words { IfOk result (λ found. found.1.high ≡ words.1) }
{
    let held = index.held(words);
    count_chosen(&mut counts, held, words, listed);
    raise_at_hand(&mut best, held, words, listed);
    let scored = scored_in(alloc, hits, &best)?;
    Ok((Base::Listed(scored), counts))
}
