//! The rows of a range of words, read from blocks, and those in memory.
ghost use Rattle.std.specs.Prelude.{◌≡◌, filter, IfOk};
ghost use Rattle.cs_base.specs.outside.Causes.{ReadsWithin};
ghost use Rattle.cs_rows.specs.Counting.{in_listed};
ghost use Rattle.cs_rows.specs.IndexReading.{AreWithin, IsWordRange, OnlyReads, WhereStood};
ghost use Rattle.cs_rows.specs.Skipping.{IsSieve, hit_met};
ghost use Rattle.cs_rows.specs.Sources.{CanRead, met_in, seen};
ghost use Rattle.cs_rows.specs.Stocked.{is_between};

use crate::chosen::pack_chosen;
use crate::packing::ordered;
use crate::seeking::gather_keys;
use crate::source::Source;
use cs_base::{Base, Store};
use cs_cols::Cols;
use cs_file::FetchFault;
use std::alloc::Global;

/// The rows whose word's number is `words.0` or more and below `words.1`, in order. Each block that holds such a word is read once.
pub fn rows_between<I: Source, S: Store>(
    alloc: Global,
    index: &I,
    store: &mut S,
    words: (u32, u32),
) -> Result<Cols, FetchFault>
    requires words { IsWordRange (seen (I.view index.now)) words.0 words.1 }
    requires opened { CanRead (S.bytes store.old) (I.view index.now) }

    ensures told { WhereStood (S.bytes store.old) (I.view index.now).index
        (λ b. IfOk result (λ c. c.posts ≡ filter (is_between words.0 words.1) ((I.view index.now).stock b).posts)) }
    ensures within { IfOk result (λ c. AreWithin (seen (I.view index.now)) c.posts) }
    ensures store { OnlyReads S.bytes S.lent S.faults (I.view index.now).index store.old store.new result }
    ensures reads { ReadsWithin (met_in (I.view index.now) words.0 words.1) (S.reads store.old) (S.reads store.new) }
{
    let all = index.list_all(alloc)?;
    let rows = rows_in_hits(alloc, index, store, words, &Base::All, &all)?;
    Ok(rows)
}

/// The rows in listed documents whose word's number is `words.0` or more and below `words.1`, in order. All listed documents are those of
/// `hits`. Each block that holds such a word and that a hit reaches is read once.
pub(crate) fn rows_in_hits<I: Source, S: Store>(
    alloc: Global,
    index: &I,
    store: &mut S,
    words: (u32, u32),
    hits: &Base,
    listed: &[bool],
) -> Result<Cols, FetchFault>
    requires words { IsWordRange (seen (I.view index.now)) words.0 words.1 }
    requires sieve { IsSieve (S.bytes store.old) (I.view index.now) hits.now listed.now }

    ensures told { WhereStood (S.bytes store.old) (I.view index.now).index
        (λ b. IfOk result (λ c. c.posts ≡ filter (in_listed listed.now) (filter (is_between words.0 words.1) ((I.view index.now).stock b).posts))) }
    ensures within { IfOk result (λ c. AreWithin (seen (I.view index.now)) c.posts) }
    ensures store { OnlyReads S.bytes S.lent S.faults (I.view index.now).index store.old store.new result }
    ensures reads { ReadsWithin (hit_met (I.view index.now) hits.now words.0 words.1) (S.reads store.old) (S.reads store.new) }
{
    let weights = index.weights();
    let mut gathered = gather_keys(alloc, index, store, words, hits, listed, usize::MAX)?;
    pack_chosen(
        weights,
        index.held(words),
        words,
        listed,
        &mut gathered.keys,
    )?;
    let rows = ordered(alloc, weights, gathered.keys)?;
    Ok(rows)
}
