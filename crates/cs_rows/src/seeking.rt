//! The numbers of rows of some words, gathered block by block until they are too many: sought in blocks that were read before, or read.
ghost use Rattle.std.specs.Prelude.{◌≡◌, ◌<◌, ◌^◌, ℕ, List, Option, Some, length, IfOk, OnOk};
ghost use Rattle.std.specs.List.{All};
ghost use Rattle.std.specs.Option.{ForSome};
ghost use Rattle.cs_base.specs.outside.Causes.{ReadsWithin};
ghost use Rattle.cs_file.specs.CallAnswers.{IsChangeOfBlock, LeavesStore};
ghost use Rattle.cs_file.specs.Indexes.{HasAllBlocks};
ghost use Rattle.cs_file.specs.BlockBytes.{FitsBlock, HasFileBytes};
ghost use Rattle.cs_tables.specs.WordCounts.{is_chosen};
ghost use Rattle.cs_rows.specs.GatheredRows.{HasGathered};
ghost use Rattle.cs_rows.specs.IndexReading.{IsWordRange, OnlyReads};
ghost use Rattle.cs_rows.specs.Packing.{AreFrom};
ghost use Rattle.cs_rows.specs.Skipping.{IsSieve, hit_blocks, hit_met};
ghost use Rattle.cs_rows.specs.Sources.{IsSource, seen};

use crate::bounds::may_hit;
use crate::gathering::GatheredKeys;
use crate::packing::pack;
use crate::read_blocks::ReadBlocks;
use crate::source::Source;
use cs_base::{Base, Store};
use cs_file::{FetchFault, Sought};
use std::alloc::Global;

/// Of the rows in listed documents whose word's number is `words.0` or more and below `words.1`, those of the first blocks, until there
/// are more than `room`. All listed documents are those of `hits`. Each block that holds such a word and that a hit reaches is read at most
/// once, and no other.
pub fn gather_keys<I: Source, S: Store>(
    alloc: Global,
    index: &I,
    store: &mut S,
    words: (u32, u32),
    hits: &Base,
    listed: &[bool],
    room: usize,
) -> Result<GatheredKeys, FetchFault>
    requires words { IsWordRange (seen (I.view index.now)) words.0 words.1 }
    requires sieve { IsSieve (S.bytes store.old) (I.view index.now) hits.now listed.now }

    ensures gathered { IfOk result (λ g. HasGathered (I.view index.now) (S.bytes store.old) words.0 words.1 listed.now g) }
    ensures whole { IfOk result (λ g. g.next < g.last → (room < length g.keys.items) × (length g.keys.items < 2 ^ 64)) }
    ensures store { OnlyReads S.bytes S.lent S.faults (I.view index.now).index store.old store.new result }
    ensures read { IfOk result (λ g. ReadsWithin (hit_blocks hits.now (I.view index.now).index.heads g.first g.next) (S.reads store.old) (S.reads store.new)) }
    ensures reads { ReadsWithin (hit_met (I.view index.now) hits.now words.0 words.1) (S.reads store.old) (S.reads store.new) }
{
    let mut unheld = ReadBlocks::none(alloc);
    gather_held(alloc, index, store, words, hits, listed, room, &mut unheld)
}

/// The same out of what was read of blocks before. One that is sought in and isn't there yet is read, and put there where it has room.
pub fn gather_held<I: Source, S: Store>(
    alloc: Global,
    index: &I,
    store: &mut S,
    words: (u32, u32),
    hits: &Base,
    listed: &[bool],
    room: usize,
    blocks: &mut ReadBlocks,
) -> Result<GatheredKeys, FetchFault>
    requires words { IsWordRange (seen (I.view index.now)) words.0 words.1 }
    requires sieve { IsSieve (S.bytes store.old) (I.view index.now) hits.now listed.now }
    requires fit { All (FitsBlock (I.view index.now).index) blocks.old.blocks.items }

    ensures gathered { (told : Option (List ℕ)) → ForSome told (λ b. (S.bytes store.old ≡ Some b) × All (HasFileBytes b) blocks.old.blocks.items)
        → IfOk result (λ g. HasGathered (I.view index.now) told words.0 words.1 listed.now g) }
    ensures whole { IfOk result (λ g. g.next < g.last → (room < length g.keys.items) × (length g.keys.items < 2 ^ 64)) }
    ensures fit { All (FitsBlock (I.view index.now).index) blocks.new.blocks.items }
    ensures file { ForSome (S.bytes store.old) (λ b. All (HasFileBytes b) blocks.old.blocks.items → All (HasFileBytes b) blocks.new.blocks.items) }
    ensures store { OnlyReads S.bytes S.lent S.faults (I.view index.now).index store.old store.new result }
    ensures read { IfOk result (λ g. ReadsWithin (hit_blocks hits.now (I.view index.now).index.heads g.first g.next) (S.reads store.old) (S.reads store.new)) }
    ensures reads { ReadsWithin (hit_met (I.view index.now) hits.now words.0 words.1) (S.reads store.old) (S.reads store.new) }
{
    let weights = index.weights();
    let (first, last) = index.blocks(words);
    blocks.reach(alloc, last);
    let mut keys = Vec::new(alloc);
    let mut sought = Sought::new(alloc);
    for k in first..last {
        if keys.len() > room {
            return Ok(GatheredKeys {
                keys,
                first,
                next: k,
                last,
            });
        }
        if !may_hit(hits, index.head(k)) {
            continue;
        }
        seek_in(alloc, index, store, k, words, listed, blocks, &mut sought)?;
        pack(weights, &sought.posts, &mut keys)?;
    }
    Ok(GatheredKeys {
        keys,
        first,
        next: last,
        last,
    })
}

/// The rows of block `k` that are sought, out of what was read of the block of that number, or else read. What is read is put there where
/// it has a place and room.
pub(crate) fn seek_in<I: Source, S: Store>(
    alloc: Global,
    index: &I,
    store: &mut S,
    k: u32,
    words: (u32, u32),
    listed: &[bool],
    blocks: &mut ReadBlocks,
    sought: &mut Sought,
) -> Result<(), FetchFault>
    requires in_range { k < length (I.view index.now).index.heads }
    requires words { IsWordRange (seen (I.view index.now)) words.0 words.1 }
    requires listed { length listed.now ≡ (I.view index.now).docs }
    requires source { IsSource (I.view index.now) }
    requires fits { HasAllBlocks (S.bytes store.old) (I.view index.now).index }
    requires fit { All (FitsBlock (I.view index.now).index) blocks.old.blocks.items }

    ensures rows { (told : Option (List ℕ)) → ForSome told (λ b. (S.bytes store.old ≡ Some b) × All (HasFileBytes b) blocks.old.blocks.items)
        → OnOk result (AreFrom (I.view index.now) told k (is_chosen words.0 words.1 listed.now) sought.new.posts.items) }
    ensures fit { All (FitsBlock (I.view index.now).index) blocks.new.blocks.items }
    ensures file { ForSome (S.bytes store.old) (λ b. All (HasFileBytes b) blocks.old.blocks.items → All (HasFileBytes b) blocks.new.blocks.items) }
    ensures store { LeavesStore S.bytes S.lent S.faults (I.view index.now).index
        (IsChangeOfBlock (I.view index.now).index (S.bytes store.old) k) store.old store.new result }
    ensures reads { ReadsWithin 1 (S.reads store.old) (S.reads store.new) }
{
    if let Some(block) = blocks.blocks.get(k as usize) {
        if index.seek(k, block, words, listed, &mut sought.posts)? {
            return Ok(());
        }
    }
    index.fetch_sought(alloc, store, k, words, listed, sought)?;
    blocks.put(alloc, k, sought);
    Ok(())
}
