//! What a kept entry tells of another query: its own entry where a letter more is typed, and the hits of the parts before the last.
ghost use Rattle.std.specs.Prelude.{◌≡◌, ◌≤◌, filter, length, IsSome, IfSome, IfOk};
ghost use Rattle.cs_base.specs.content.Orders.{AreSorted};
ghost use Rattle.cs_base.specs.declared.content.query.Query.{out-Query};
ghost use Rattle.cs_model.specs.{Answers.{begins}, Keys.{last_prefix}};
ghost use Rattle.cs_model_index.specs.Numbered.{word_at};
ghost use Rattle.cs_model_kept.specs.KeptListLaws.{before_last};
ghost use Rattle.cs_rank.specs.DocScores.{IsBase};
ghost use Rattle.cs_rows.specs.IndexReading.{AreWithin};
ghost use Rattle.cs_rows.specs.Sources.{seen};
ghost use Rattle.cs_rows.specs.Steps.{last_is_positive, posts_hits};

use cs_base::{Base, Memory, Query};
use cs_cache::Entry;
use cs_cols::Cols;
use cs_query::last_prefix;
use cs_rows::{Source, base_copy, end_positive, posts_between, posts_hits};
use std::alloc::Global;

/// The entry of a query whose prefix is being typed, out of that of the query with a shorter prefix in its place: the rows whose
/// word begins with the longer one, and the same base.
pub(crate) fn narrowed<I: Source>(
    alloc: Global,
    index: &I,
    query: &Query,
    base: &Base,
    rows: &Cols,
) -> Result<Entry, Memory>
    requires typed { IsSome (last_prefix query.now) }
    requires within { AreWithin (seen (I.view index.now)) rows.now.posts }

    ensures base { IfOk result (λ e. e.base ≡ base.now) }
    ensures rows { IfOk result (λ e. IfSome (last_prefix query.now)
        (λ p. e.rows ≡ filter (λ post. begins p (word_at (I.view index.now).words post.word)) rows.now.posts)) }
{
    let Some(prefix) = last_prefix(query) else {
        unreachable!()
    };
    let (lo, hi) = index.range(prefix.as_bytes());
    let copied = base_copy(alloc, base)?;
    let found = posts_between(alloc, rows, lo, hi)?;
    Ok(Entry {
        base: copied,
        rows: found,
    })
}

/// The hits of a query without its last part, by the entry of that query.
pub(crate) fn hits_before_last(
    alloc: Global,
    query: &Query,
    base: &Base,
    rows: &Cols,
) -> Result<Base, Memory>
    requires some { 1 ≤ length (out-Query query.now).parts }
    requires base { IsBase base.now }
    requires sorted { AreSorted rows.now.posts }

    ensures { IfOk result (λ hits. hits ≡ posts_hits (last_is_positive (before_last query.now)) base.now rows.now.posts) }
{
    let parts = query.parts.as_slice();
    let positive = end_positive(&parts[..parts.len() - 1]);
    posts_hits(alloc, positive, base, rows)
}
