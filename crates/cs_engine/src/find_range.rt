//! Finding by a wide range of words alone, whose own entry is too large to be kept: what is found of it is held in its place.
ghost use Rattle.std.specs.Prelude.{◌≡◌, ◌≤◌, filter, length, IfOk, IfSome};
ghost use Rattle.std.specs.List.{All};
ghost use Rattle.cs_base.specs.declared.content.doc.Base.TheVariants as base;
ghost use Rattle.cs_base.specs.declared.content.scores.TheConstants.{MAX_ROW_SCORE};
ghost use Rattle.cs_base.specs.outside.Causes.{ReadsWithin};
ghost use Rattle.cs_rows.specs.Blockwise.{HasFound};
ghost use Rattle.cs_engine.specs.Finding.{AreWide, AsksAlone, AsksRange, CanFind, FitsFound, IsFoundAnew};
ghost use Rattle.cs_engine.specs.HeldRanges.{AreHeldOver, FitsRange, OnlyGoes};
ghost use Rattle.cs_rows.specs.IndexReading.{IsWordRange, OnlyReads, WhereStood};
ghost use Rattle.cs_rows.specs.Sources.{CanRead, IsSource, met_in, seen};
ghost use Rattle.cs_rows.specs.Steps.{IsBaseOf};
ghost use Rattle.cs_rows.specs.Stocked.{is_between};

use crate::finding::{CountedWords, QueryFound, QueryOver};
use crate::held::{HeldKind, Holder, Holding};
use cs_base::{Base, Part, Store};
use cs_file::FetchFault;
use cs_rows::{Source, found_in_all, words_of_part};
use cs_tables::WordCounts;
use std::alloc::Global;

/// The words that a query of these parts asks for alone, where they are many, or what is counted of them is held.
pub(crate) fn wide_words<I: Source>(index: &I, held: &Holder, parts: &[Part]) -> Option<(u32, u32)>
    requires { IsSource (I.view index.now) }

    ensures alone { IfSome result (λ w. AsksAlone (I.view index.now) parts.now w.0 w.1) }
    ensures wide { IfSome result (λ w. AreWide (I.view index.now) held.now w.0 w.1) }
{
    let [part] = parts else {
        return None;
    };
    let Some(words) = words_of_part(index, part) else {
        return None;
    };
    if held.has_counted(words) || index.are_many(words) {
        return Some(words);
    }
    None
}

/// What is found of a query that asks for these words alone, taken out of what is held of them, or else read. It is to be held behind
/// the reply.
pub(crate) fn find_range<I: Source, S: Store>(
    over: QueryOver<'_, I>,
    store: &mut S,
    words: (u32, u32),
    held: &mut Holder,
) -> Result<QueryFound, FetchFault>
    requires asks { AsksRange (I.view over.index.now) over.query.now words.0 words.1 }
    requires wide { AreWide (I.view over.index.now) held.old words.0 words.1 }
    requires held { All (FitsRange (seen (I.view over.index.now))) held.old }
    requires over { CanFind (S.bytes store.old) (I.view over.index.now) over.query.now }

    ensures told { WhereStood (S.bytes store.old) (I.view over.entry.index.now).index
        (λ b. AreHeldOver ((I.view over.entry.index.now).stock b) held.old
        → IfOk result (IsFoundAnew b (I.view over.entry.index.now) over.entry.query.now over.entry.cut)) }
    ensures fits { IfOk result (FitsFound (seen (I.view over.entry.index.now)) over.entry.query.now) }
    ensures held { OnlyGoes held.old held.new }
    ensures store { OnlyReads S.bytes S.lent S.faults (I.view over.entry.index.now).index store.old store.new result }
    ensures reads { ReadsWithin (met_in (I.view over.entry.index.now) words.0 words.1) (S.reads store.old) (S.reads store.new) }
{
    let (hits, counts) = counted_words(over.alloc, over.index, store, words, held)?;
    let table = counts.table(over.alloc, over.cut)?;
    Ok(QueryFound {
        hits,
        table,
        own: None,
        range: Some(CountedWords {
            low: words.0,
            high: words.1,
            counts,
        }),
    })
}

// The hits of a range of words, and these words, counted: taken out of what is held, or else read.
fn counted_words<I: Source, S: Store>(
    alloc: Global,
    index: &I,
    store: &mut S,
    words: (u32, u32),
    held: &mut Holder,
) -> Result<(Base, WordCounts), FetchFault>
    requires words { IsWordRange (seen (I.view index.now)) words.0 words.1 }
    requires held { All (FitsRange (seen (I.view index.now))) held.old }
    requires opened { CanRead (S.bytes store.old) (I.view index.now) }

    ensures told { WhereStood (S.bytes store.old) (I.view index.now).index
        (λ b. AreHeldOver ((I.view index.now).stock b) held.old
        → IfOk result (λ f. HasFound base.All (filter (is_between words.0 words.1) ((I.view index.now).stock b).posts) f.0 f.1)) }
    ensures base { IfOk result (λ f. IsBaseOf (I.view index.now).docs MAX_ROW_SCORE f.0) }
    ensures words { IfOk result (λ f. f.1.high ≤ length (I.view index.now).words) }
    ensures held { OnlyGoes held.old held.new }
    ensures store { OnlyReads S.bytes S.lent S.faults (I.view index.now).index store.old store.new result }
    ensures reads { ReadsWithin (met_in (I.view index.now) words.0 words.1) (S.reads store.old) (S.reads store.new) }
{
    if let Some(Holding::Counted { hits, counts }) = held.take(words, HeldKind::Counted) {
        return Ok((hits, counts));
    }
    let found = found_in_all(alloc, index, store, words)?;
    Ok(found)
}
