//! What is found of a query: its hits, the table of its completions, and what stays of it behind the reply.
ghost use Rattle.std.specs.Prelude.{◌≡◌, ◌*◌, ◌<◌, ℕ, List, length, IfOk};
ghost use Rattle.std.specs.List.{All};
ghost use Rattle.cs_base.specs.declared.content.limits.TheConstants.{MAX_PARTS};
ghost use Rattle.cs_base.specs.declared.content.query.Query.{out-Query};
ghost use Rattle.cs_base.specs.declared.content.scores.TheConstants.{MAX_ROW_SCORE};
ghost use Rattle.cs_file.specs.Indexes.{StandsFor};
ghost use Rattle.cs_engine.specs.Finding.{CanOwn, FitsFound, IsFoundAnew};
ghost use Rattle.cs_engine.specs.Keeping.{FitsQuery, IsEntryOver};
ghost use Rattle.cs_rows.specs.Steps.{entry_with, IsBaseOf};
ghost use Rattle.cs_engine.specs.Loose.{IsTableFor};
ghost use Rattle.cs_rows.specs.Sources.{seen};
ghost use Rattle.cs_rows.specs.Stocked.{corpus_in};

use cs_base::{Base, Memory, Query};
use cs_cache::Entry;
use cs_cols::Cols;
use cs_rows::{Source, end_positive, posts_hits};
use cs_tables::{Table, WordCounts, completions};
use std::alloc::{AllocError, Global};

/// A query over a source, how many completions are shown, and the memory for what is made.
pub(crate) struct QueryOver<'a, I: Source> {
    pub(crate) alloc: Global,
    pub(crate) index: &'a I,
    pub(crate) query: &'a Query,
    pub(crate) cut: u32,
}

impl<I: Source> Clone for QueryOver<'_, I> {
    fn clone(&self) -> Result<Self, AllocError> {
        Ok(*self)
    }
}

impl<I: Source> Copy for QueryOver<'_, I> {}

/// What is found of a query.
#[derive(Drop)]
pub(crate) struct QueryFound {
    /// The hits with their scores.
    pub(crate) hits: Base,
    /// The completions, cut.
    pub(crate) table: Table,
    /// The query's own entry, where it wasn't kept before and isn't too large.
    pub(crate) own: Option<Entry>,
    /// The words of the range that the query asks for alone, counted in its hits, where it is to be held.
    pub(crate) range: Option<CountedWords>,
}

/// The words from one number up to another, which is left out, counted.
#[derive(Drop)]
pub(crate) struct CountedWords {
    pub(crate) low: u32,
    pub(crate) high: u32,
    pub(crate) counts: WordCounts,
}

/// What is found by the query's own entry, which goes along.
pub(crate) fn found_with<I: Source>(
    over: QueryOver<'_, I>,
    entry: Entry,
) -> Result<QueryFound, Memory>
    requires own { CanOwn (I.view over.index.now) over.query.now entry }

    ensures told { (b : List ℕ) → StandsFor b (I.view over.entry.index.now).index
        → IsEntryOver (corpus_in ((I.view over.entry.index.now).stock b)) (seen (I.view over.entry.index.now)) over.entry.query.now entry
        → IfOk result (IsFoundAnew b (I.view over.entry.index.now) over.entry.query.now over.entry.cut) }
    ensures fits { IfOk result (FitsFound (seen (I.view over.entry.index.now)) over.entry.query.now) }
{
    let (hits, table) = found_in(over, &entry.base, &entry.rows)?;
    Ok(QueryFound {
        hits,
        table,
        own: Some(entry),
        range: None,
    })
}

/// The hits and the table by the base and the rows of the query's own entry.
pub(crate) fn found_in<I: Source>(
    over: QueryOver<'_, I>,
    base: &Base,
    rows: &Cols,
) -> Result<(Base, Table), Memory>
    requires own { CanOwn (I.view over.index.now) over.query.now (entry_with base.now rows.now.posts) }

    ensures told { (b : List ℕ) → StandsFor b (I.view over.entry.index.now).index
        → IsEntryOver (corpus_in ((I.view over.entry.index.now).stock b)) (seen (I.view over.entry.index.now)) over.entry.query.now
        (entry_with base.now rows.now.posts)
        → IfOk result (λ f. IsTableFor (I.view over.entry.index.now) b over.entry.query.now over.entry.cut f.0 f.1) }
    ensures base { IfOk result (λ f. IsBaseOf (I.view over.entry.index.now).docs (MAX_ROW_SCORE * MAX_PARTS) f.0) }
    ensures table { IfOk result (λ f. All (λ w. w.word < length (I.view over.entry.index.now).words) f.1.first) }
{
    let positive = end_positive(over.query.parts.as_slice());
    let hits = posts_hits(over.alloc, positive, base, rows)?;
    let table = completions(over.alloc, rows, over.cut)?;
    Ok((hits, table))
}
