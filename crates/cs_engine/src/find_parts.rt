//! Finding by the parts of a query, the last one by what it asks for. Where its own entry is too large, its rows are brought into no
//! order.
ghost use Rattle.std.specs.Prelude.{◌≡◌, ◌+◌, ◌-◌, ◌*◌, ◌≤◌, ◌<◌, nat_lt, filter, length, None, Some, IfOk, IfSome};
ghost use Rattle.std.specs.List.{All};
ghost use Rattle.std.specs.Option.{ForSome};
ghost use Rattle.cs_file.specs.BlockBytes.{FitsBlock, HasFileBytes};
ghost use Rattle.cs_base.specs.declared.content.doc.Base.TheVariants as base;
ghost use Rattle.cs_base.specs.{outside.Causes.{ReadsWithin}, declared.content.scores.TheConstants.{MAX_ROW_SCORE}, declared.content.query.Query.{out-Query}};
ghost use Rattle.cs_model.specs.Keys.{last_of};
ghost use Rattle.cs_model_kept.specs.{Entries.{listed_count}, KeptListLaws.{before_last}, declared.limits.TheConstants.{MAX_ENTRY_SIZE}};
ghost use Rattle.cs_rows.specs.IndexReading.{division, OnlyReads, WhereStood};
ghost use Rattle.cs_rows.specs.Counting.{AreListed, in_listed};
ghost use Rattle.cs_engine.specs.Finding.{CanFind, FitsFound, IsFoundAnew};
ghost use Rattle.cs_rows.specs.GatheredRows.{HasGathered};
ghost use Rattle.cs_engine.specs.HeldRanges.{AreHeldOver, FitsRange};
ghost use Rattle.cs_engine.specs.Loose.{AreLastWords, IsEntryByWords};
ghost use Rattle.cs_rows.specs.Skipping.{hit_blocks, hit_met, hit_of_last};
ghost use Rattle.cs_rows.specs.Sources.{seen};
ghost use Rattle.cs_rows.specs.Steps.{AreHitsOver, IsBaseOf};
ghost use Rattle.cs_rows.specs.Stocked.{is_between};

use crate::finding::{CountedWords, QueryFound, QueryOver, found_with};
use crate::held::{Holder, hold_blocks, taken_blocks};
use cs_base::{Base, Store};
use cs_cache::Entry;
use cs_cols::Cols;
use cs_file::FetchFault;
use cs_model_kept::MAX_ENTRY_SIZE;
use cs_rows::{
    GatheredKeys, ReadBlocks, Source, extended_entry, found_behind, gather_held, listed_count,
    listed_docs, lists_none, many_chosen, ordered, pack_chosen, words_of_part,
};
use cs_tables::WordCounts;

/// What is found of a query by the hits of its parts before the last, whose atoms are read. Without a hit nothing is read, and for an atom
/// that is no join no block that no hit reaches.
pub(crate) fn find_last<I: Source, S: Store>(
    over: QueryOver<'_, I>,
    store: &mut S,
    hits: Base,
    held: &mut Holder,
) -> Result<QueryFound, FetchFault>
    requires some { 1 ≤ length (out-Query over.query.now).parts }
    requires base { IsBaseOf (I.view over.index.now).docs (MAX_ROW_SCORE * (length (out-Query over.query.now).parts - 1)) hits }
    requires held { All (FitsRange (seen (I.view over.index.now))) held.old }
    requires over { CanFind (S.bytes store.old) (I.view over.index.now) over.query.now }

    ensures told { WhereStood (S.bytes store.old) (I.view over.entry.index.now).index
        (λ b. AreHeldOver ((I.view over.entry.index.now).stock b) held.old
        → AreHitsOver ((I.view over.entry.index.now).stock b) (before_last over.entry.query.now) hits
        → IfOk result (IsFoundAnew b (I.view over.entry.index.now) over.entry.query.now over.entry.cut)) }
    ensures fits { IfOk result (FitsFound (seen (I.view over.entry.index.now)) over.entry.query.now) }
    ensures held { All (FitsRange (seen (I.view over.entry.index.now))) held.new }
    ensures good { WhereStood (S.bytes store.old) (I.view over.entry.index.now).index
        (λ b. AreHeldOver ((I.view over.entry.index.now).stock b) held.old → AreHeldOver ((I.view over.entry.index.now).stock b) held.new) }
    ensures store { OnlyReads S.bytes S.lent S.faults (I.view over.entry.index.now).index store.old store.new result }
    ensures reads { ReadsWithin (hit_of_last (division (I.view over.entry.index.now).index) hits (last_of (out-Query over.entry.query.now).parts))
        (S.reads store.old) (S.reads store.new) }
{
    let parts = over.query.parts.as_slice();
    let last = parts.len() - 1;
    let part = &parts[last];
    if lists_none(&hits) {
        let rows = Cols::new(over.alloc);
        let none = found_with(over, Entry { base: hits, rows })?;
        return Ok(none);
    }
    if let Some(words) = words_of_part(over.index, part) {
        let found = find_words(over, store, hits, words, held)?;
        return Ok(found);
    }
    let entry = extended_entry(over.alloc, over.index, store, hits, part)?;
    let found = found_with(over, entry)?;
    Ok(found)
}

// What is found of a query whose last part asks for these words, by the hits of the parts before it.
fn find_words<I: Source, S: Store>(
    over: QueryOver<'_, I>,
    store: &mut S,
    hits: Base,
    words: (u32, u32),
    held: &mut Holder,
) -> Result<QueryFound, FetchFault>
    requires asks { AreLastWords (seen (I.view over.index.now)) over.query.now hits words.0 words.1 }
    requires held { All (FitsRange (seen (I.view over.index.now))) held.old }
    requires over { CanFind (S.bytes store.old) (I.view over.index.now) over.query.now }

    ensures told { WhereStood (S.bytes store.old) (I.view over.entry.index.now).index
        (λ b. AreHeldOver ((I.view over.entry.index.now).stock b) held.old
        → IsEntryByWords b (I.view over.entry.index.now) over.entry.query.now hits words.0 words.1
        → IfOk result (IsFoundAnew b (I.view over.entry.index.now) over.entry.query.now over.entry.cut)) }
    ensures fits { IfOk result (FitsFound (seen (I.view over.entry.index.now)) over.entry.query.now) }
    ensures held { All (FitsRange (seen (I.view over.entry.index.now))) held.new }
    ensures good { WhereStood (S.bytes store.old) (I.view over.entry.index.now).index
        (λ b. AreHeldOver ((I.view over.entry.index.now).stock b) held.old → AreHeldOver ((I.view over.entry.index.now).stock b) held.new) }
    ensures store { OnlyReads S.bytes S.lent S.faults (I.view over.entry.index.now).index store.old store.new result }
    ensures reads { ReadsWithin (hit_met (I.view over.entry.index.now) hits words.0 words.1) (S.reads store.old) (S.reads store.new) }
{
    let mut blocks = taken_blocks(over.alloc, held);
    let found = find_in_blocks(over, store, hits, words, &mut blocks);
    hold_blocks(held, blocks);
    found
}

// The same, sought in what was read of blocks before. What is read is put there where it has room.
fn find_in_blocks<I: Source, S: Store>(
    over: QueryOver<'_, I>,
    store: &mut S,
    hits: Base,
    words: (u32, u32),
    blocks: &mut ReadBlocks,
) -> Result<QueryFound, FetchFault>
    requires asks { AreLastWords (seen (I.view over.index.now)) over.query.now hits words.0 words.1 }
    requires fit { All (FitsBlock (I.view over.index.now).index) blocks.old.blocks.items }
    requires over { CanFind (S.bytes store.old) (I.view over.index.now) over.query.now }

    ensures told { WhereStood (S.bytes store.old) (I.view over.entry.index.now).index
        (λ b. All (HasFileBytes b) blocks.old.blocks.items
        → IsEntryByWords b (I.view over.entry.index.now) over.entry.query.now hits words.0 words.1
        → IfOk result (IsFoundAnew b (I.view over.entry.index.now) over.entry.query.now over.entry.cut)) }
    ensures fits { IfOk result (FitsFound (seen (I.view over.entry.index.now)) over.entry.query.now) }
    ensures fit { All (FitsBlock (I.view over.entry.index.now).index) blocks.new.blocks.items }
    ensures file { ForSome (S.bytes store.old) (λ b. All (HasFileBytes b) blocks.old.blocks.items → All (HasFileBytes b) blocks.new.blocks.items) }
    ensures store { OnlyReads S.bytes S.lent S.faults (I.view over.entry.index.now).index store.old store.new result }
    ensures reads { ReadsWithin (hit_met (I.view over.entry.index.now) hits words.0 words.1) (S.reads store.old) (S.reads store.new) }
{
    let QueryOver { alloc, index, .. } = over;
    let weights = index.weights();
    let listed = listed_docs(alloc, index, &hits)?;
    let marks: &[bool] = &listed;
    let room = MAX_ENTRY_SIZE.saturating_sub(listed_count(&hits));
    let mut gathered = gather_held(alloc, index, store, words, &hits, marks, room, blocks)?;
    let added = index.held(words);
    if are_more(gathered.keys.len(), many_chosen(added, words, marks), room) {
        let found = find_behind(over, store, &hits, words, marks, &gathered, blocks)?;
        return Ok(found);
    }
    pack_chosen(weights, added, words, marks, &mut gathered.keys)?;
    let rows = ordered(alloc, weights, gathered.keys)?;
    let found = found_with(over, Entry { base: hits, rows })?;
    Ok(found)
}

// Whether so many and so many are together more than there is room for.
#[inline]
fn are_more(some: usize, others: usize, room: usize) -> bool
    ensures { result ≡ nat_lt room (some + others) }
{
    some as u128 + others as u128 > room as u128
}

// What is found of a query whose last part asks for these words, by what was gathered of their first blocks, by the rest of the blocks, and
// by the hits of the parts before it. Its own entry is too large; where each document is a hit before it, these words are to be held.
fn find_behind<I: Source, S: Store>(
    over: QueryOver<'_, I>,
    store: &mut S,
    hits: &Base,
    words: (u32, u32),
    listed: &[bool],
    gathered: &GatheredKeys,
    blocks: &mut ReadBlocks,
) -> Result<QueryFound, FetchFault>
    requires asks { AreLastWords (seen (I.view over.index.now)) over.query.now hits.now words.0 words.1 }
    requires listed { AreListed (I.view over.index.now).present hits.now listed.now }
    requires gathered { HasGathered (I.view over.index.now) None words.0 words.1 listed.now gathered.now }
    requires fit { All (FitsBlock (I.view over.index.now).index) blocks.old.blocks.items }
    requires over { CanFind (S.bytes store.old) (I.view over.index.now) over.query.now }

    ensures told { WhereStood (S.bytes store.old) (I.view over.entry.index.now).index
        (λ b. HasGathered (I.view over.entry.index.now) (Some b) words.0 words.1 listed.now gathered.now
        → All (HasFileBytes b) blocks.old.blocks.items
        → IsEntryByWords b (I.view over.entry.index.now) over.entry.query.now hits.now words.0 words.1
        → MAX_ENTRY_SIZE < length (filter (in_listed listed.now) (filter (is_between words.0 words.1) ((I.view over.entry.index.now).stock b).posts))
        + listed_count hits.now
        → IfOk result (IsFoundAnew b (I.view over.entry.index.now) over.entry.query.now over.entry.cut)) }
    ensures fits { IfOk result (FitsFound (seen (I.view over.entry.index.now)) over.entry.query.now) }
    ensures fit { All (FitsBlock (I.view over.entry.index.now).index) blocks.new.blocks.items }
    ensures file { ForSome (S.bytes store.old) (λ b. All (HasFileBytes b) blocks.old.blocks.items → All (HasFileBytes b) blocks.new.blocks.items) }
    ensures store { OnlyReads S.bytes S.lent S.faults (I.view over.entry.index.now).index store.old store.new result }
    ensures reads { ReadsWithin (hit_blocks hits.now (I.view over.entry.index.now).index.heads gathered.now.next gathered.now.last)
        (S.reads store.old) (S.reads store.new) }
{
    let QueryOver { alloc, index, .. } = over;
    let (found, counts) = found_behind(alloc, index, store, hits, words, listed, gathered, blocks)?;
    let table = counts.table(alloc, over.cut)?;
    Ok(QueryFound {
        hits: found,
        table,
        own: None,
        range: counted_in_all(hits, words, counts),
    })
}

// Counted words of a range, where they are counted in every document.
fn counted_in_all(hits: &Base, words: (u32, u32), counts: WordCounts) -> Option<CountedWords>
    ensures { IfSome result (λ r. (hits.now ≡ base.All) × (r ≡ record { low = words.0; high = words.1; counts = counts })) }
{
    match hits {
        Base::All => Some(CountedWords {
            low: words.0,
            high: words.1,
            counts,
        }),
        Base::Listed(_) => None,
    }
}
