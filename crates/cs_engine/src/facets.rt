//! The words of a facet, counted in the documents that a base lists.
ghost use Rattle.std.specs.Prelude.{◌≡◌, ◌*◌, ◌≤◌, true, List, filter, IfOk};
ghost use Rattle.std.specs.List.{All};
ghost use Rattle.cs_base.specs.declared.content.{doc.Post.{Post}, limits.TheConstants.{MAX_PARTS}, scores.TheConstants.{MAX_ROW_SCORE}};
ghost use Rattle.cs_base.specs.outside.Causes.{ReadsWithin};
ghost use Rattle.{cs_rank.specs.DocScores.{IsBase}, cs_tables.specs.WordCounts.{HasCounted}};
ghost use Rattle.cs_rows.specs.Blockwise.{CountsTable};
ghost use Rattle.cs_rows.specs.Counting.{AreListed, CountsFacet, in_listed};
ghost use Rattle.cs_engine.specs.HeldRanges.{AreHeldOver, FitsRange, HoldsMore};
ghost use Rattle.cs_rows.specs.IndexReading.{IsWordRange, OnlyReads, WhereStood};
ghost use Rattle.cs_rows.specs.Skipping.{IsSieve, hit_met};
ghost use Rattle.cs_rows.specs.Sources.{CanRead, met_in, seen};
ghost use Rattle.cs_engine.specs.declared.held.Holding.TheVariants as holding;
ghost use Rattle.cs_rows.specs.Steps.{IsBaseOf};
ghost use Rattle.cs_rows.specs.Stocked.{is_between};

use crate::held::{HeldKind, HeldRange, Holder, Holding};
use cs_base::{Base, Memory, Store};
use cs_cols::Cols;
use cs_file::FetchFault;
use cs_meet::keep_docs;
use cs_rows::{Source, count_chosen, count_keys, doc_numbers, gather_keys, may_hit, rows_between};
use cs_tables::WordCounts;
use std::alloc::Global;

// Where a facet has this many times the rows that there are hits, its rows are looked up by the hits.
const FEW_OF: usize = 32;

/// The words of a facet, counted in the documents that a base lists, which are those of `listed`. What is held of its rows isn't read, and of
/// its blocks no other is read than those that a hit reaches. Where these are all of them, its rows are held, as far as there is room.
pub(crate) fn counted_facet<I: Source, S: Store>(
    alloc: Global,
    index: &I,
    store: &mut S,
    words: (u32, u32),
    base: &Base,
    listed: &[bool],
    held: &mut Holder,
) -> Result<WordCounts, FetchFault>
    requires words { IsWordRange (seen (I.view index.now)) words.0 words.1 }
    requires base { IsBaseOf (I.view index.now).docs (MAX_ROW_SCORE * MAX_PARTS) base.now }
    requires listed { AreListed (I.view index.now).present base.now listed.now }
    requires held { All (FitsRange (seen (I.view index.now))) held.old }
    requires opened { CanRead (S.bytes store.old) (I.view index.now) }

    ensures told { WhereStood (S.bytes store.old) (I.view index.now).index
        (λ b. AreHeldOver ((I.view index.now).stock b) held.old → IfOk result
        (CountsTable (filter (in_listed listed.now) (filter (is_between words.0 words.1) ((I.view index.now).stock b).posts)))) }
    ensures high { IfOk result (λ t. t.high ≡ words.1) }
    ensures held { All (FitsRange (seen (I.view index.now))) held.new }
    ensures good { WhereStood (S.bytes store.old) (I.view index.now).index
        (λ b. AreHeldOver ((I.view index.now).stock b) held.old → AreHeldOver ((I.view index.now).stock b) held.new) }
    ensures store { OnlyReads S.bytes S.lent S.faults (I.view index.now).index store.old store.new result }
    ensures reads { ReadsWithin (hit_met (I.view index.now) base.now words.0 words.1) (S.reads store.old) (S.reads store.new) }
{
    if let Some(Holding::Rows(rows)) = held.take(words, HeldKind::Rows) {
        let counts = counted_rows(alloc, words, rows, base, listed, held)?;
        return Ok(counts);
    }
    if reaches_all(index, base, words) {
        let rows = rows_between(alloc, index, store, words)?;
        let counts = counted_rows(alloc, words, rows, base, listed, held)?;
        return Ok(counts);
    }
    let counts = counted_in_hits(alloc, index, store, words, base, listed)?;
    Ok(counts)
}

// Whether a document of a base may have a row in each block that holds one of these words.
fn reaches_all<I: Source>(index: &I, base: &Base, words: (u32, u32)) -> bool
    requires words { IsWordRange (seen (I.view index.now)) words.0 words.1 }
    requires base { IsBase base.now }

    ensures { result ≡ true → met_in (I.view index.now) words.0 words.1 ≤ hit_met (I.view index.now) base.now words.0 words.1 }
{
    let (first, last) = index.blocks(words);
    for k in first..last {
        if !may_hit(base, index.head(k)) {
            return false;
        }
    }
    true
}

// The words of a facet by its rows, counted in the documents that a base lists. The rows are held, as far as there is room.
fn counted_rows(
    alloc: Global,
    words: (u32, u32),
    rows: Cols,
    base: &Base,
    listed: &[bool],
    held: &mut Holder,
) -> Result<WordCounts, Memory>
    requires { CountsFacet words.0 words.1 rows.posts base.now listed.now }

    ensures told { (all : List Post) → rows.posts ≡ filter (is_between words.0 words.1) all
        → IfOk result (CountsTable (filter (in_listed listed.now) rows.posts)) }
    ensures high { IfOk result (λ t. t.high ≡ words.1) }
    ensures held { HoldsMore (record { low = words.0; high = words.1; what = holding.Rows rows }) held.old held.new }
{
    let counts = count_facet(alloc, words, &rows, base, listed)?;
    hold_rows(held, words, rows);
    Ok(counts)
}

// The words of a facet, counted in hits, as their rows are read. Each block that holds such a word and that a hit reaches is read once, and no
// other.
fn counted_in_hits<I: Source, S: Store>(
    alloc: Global,
    index: &I,
    store: &mut S,
    words: (u32, u32),
    base: &Base,
    listed: &[bool],
) -> Result<WordCounts, FetchFault>
    requires words { IsWordRange (seen (I.view index.now)) words.0 words.1 }
    requires sieve { IsSieve (S.bytes store.old) (I.view index.now) base.now listed.now }

    ensures told { WhereStood (S.bytes store.old) (I.view index.now).index (λ b. IfOk result
        (CountsTable (filter (in_listed listed.now) (filter (is_between words.0 words.1) ((I.view index.now).stock b).posts)))) }
    ensures high { IfOk result (λ t. t.high ≡ words.1) }
    ensures store { OnlyReads S.bytes S.lent S.faults (I.view index.now).index store.old store.new result }
    ensures reads { ReadsWithin (hit_met (I.view index.now) base.now words.0 words.1) (S.reads store.old) (S.reads store.new) }
{
    let gathered = gather_keys(alloc, index, store, words, base, listed, usize::MAX)?;
    let mut counts = WordCounts::new(alloc, words.0, words.1)?;
    count_keys(&mut counts, &gathered.keys);
    count_chosen(&mut counts, index.held(words), words, listed);
    Ok(counts)
}

// The words of a facet, counted in the documents that a base lists, which are those of `listed`. Where these are few, the rows are
// looked up by them.
fn count_facet(
    alloc: Global,
    words: (u32, u32),
    rows: &Cols,
    base: &Base,
    listed: &[bool],
) -> Result<WordCounts, Memory>
    requires { CountsFacet words.0 words.1 rows.now.posts base.now listed.now }

    ensures told { (all : List Post) → rows.now.posts ≡ filter (is_between words.0 words.1) all
        → IfOk result (HasCounted (filter (in_listed listed.now) rows.now.posts)) }
    ensures high { IfOk result (λ t. t.high ≡ words.1) }
{
    let mut counts = WordCounts::new(alloc, words.0, words.1)?;
    if let Base::Listed(hits) = base {
        if hits.len() < rows.len() / FEW_OF {
            let docs = doc_numbers(alloc, hits.as_slice())?;
            let found = keep_docs(alloc, rows, &docs)?;
            counts.add(found.docs(), found.words(), listed);
            return Ok(counts);
        }
    }
    counts.add(rows.docs(), rows.words(), listed);
    Ok(counts)
}

// Holds the rows of some words; nothing where there is none.
fn hold_rows(held: &mut Holder, words: (u32, u32), rows: Cols)
    ensures { HoldsMore (record { low = words.0; high = words.1; what = holding.Rows rows }) held.old held.new }
{
    if rows.len() > 0 {
        held.hold(HeldRange {
            low: words.0,
            high: words.1,
            what: Holding::Rows(rows),
        });
    }
}
