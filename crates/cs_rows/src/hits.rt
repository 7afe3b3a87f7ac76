//! The hits that a base lists, and rows within them.
ghost use Rattle.std.specs.Prelude.{◌≡◌, IfOk, drop, length, map, take};
ghost use Rattle.cs_meet.specs.Filters.{drop_docs};
ghost use Rattle.cs_base.specs.content.{Members.{members_in}, Orders.{AreSorted, by_rank}};
ghost use Rattle.cs_model_kept.specs.Entries.{listed_count};
ghost use Rattle.cs_rank.specs.DocScores.{IsBase};
ghost use Rattle.cs_rows.specs.Skipping.{lists_none};
ghost use Rattle.cs_rows.specs.Sources.{IsSource};
ghost use Rattle.cs_rows.specs.Stocked.{base_hits, every, base_posts, present_docs};

use crate::source::Source;
use cs_base::{Base, Memory, Scored, Seq};
use cs_cols::Cols;
use cs_meet::{drop_docs, keep_docs};
use cs_rank::top;
use std::alloc::Global;

/// The rows whose document a base lists.
pub(crate) fn kept_in(alloc: Global, base: &Base, rows: Cols) -> Result<Cols, Memory>
    requires base { IsBase base.now }
    requires rows_sorted { AreSorted rows.posts }

    ensures ok { IfOk result (λ c. c.posts ≡ base_posts base.now rows.posts) }
    ensures sorted { IfOk result (λ c. AreSorted c.posts) }
{
    match base {
        Base::All => Ok(rows),
        Base::Listed(hits) => {
            let numbers = doc_numbers(alloc, hits.as_slice())?;
            let kept = keep_docs(alloc, &rows, &numbers)?;
            Ok(kept)
        }
    }
}

/// The documents of hits.
pub fn doc_numbers(alloc: Global, hits: &[Scored]) -> Result<Vec<u32>, Memory>
    ensures { IfOk result (λ v. v.items ≡ map (λ h. h.doc) hits.now) }
{
    let mut numbers = Vec::with_capacity(alloc, hits.len())?;
    for hit in hits {
        numbers.push_reserved(hit.doc);
    }
    Ok(numbers)
}

// The hits of a base that have none of the rows.
pub(crate) fn hits_without<I: Source>(
    alloc: Global,
    index: &I,
    base: &Base,
    rows: &Cols,
) -> Result<Seq<Scored>, Memory>
    requires source { IsSource (I.view index.now) }
    requires base { IsBase base.now }
    requires rows_sorted { AreSorted rows.now.posts }

    ensures { IfOk result (λ left. left ≡ drop_docs (base_hits (present_docs (I.view index.now).present) base.now) rows.now.posts) }
{
    match base {
        Base::All => {
            let all = all_docs(alloc, index)?;
            let left = drop_docs(alloc, &all, rows)?;
            Ok(left)
        }
        Base::Listed(hits) => {
            let left = drop_docs(alloc, hits.as_slice(), rows)?;
            Ok(left)
        }
    }
}

/// How many documents a base lists; 0 where it stands for all.
pub fn listed_count(base: &Base) -> usize
    ensures { result ≡ listed_count base.now }
{
    match base {
        Base::All => 0,
        Base::Listed(hits) => hits.len(),
    }
}

/// Whether a base lists no document. One that stands for all isn't said to.
pub fn lists_none(base: &Base) -> bool
    ensures { result ≡ lists_none base.now }
{
    match base {
        Base::All => false,
        Base::Listed(hits) => hits.len() == 0,
    }
}

/// The first hits of a base by score descending, then by document, without the first `offset`, cut to `cut`, and how many hits it has.
pub fn first_hits<I: Source>(
    alloc: Global,
    index: &I,
    base: &Base,
    offset: u32,
    cut: u32,
) -> Result<(Seq<Scored>, usize), Memory>
    requires { IsSource (I.view index.now) }

    ensures first { IfOk result (λ r. r.0
        ≡ take cut (drop offset (members_in by_rank (base_hits (present_docs (I.view index.now).present) base.now)))) }
    ensures total { IfOk result (λ r. r.1 ≡ length (base_hits (present_docs (I.view index.now).present) base.now)) }
{
    match base {
        Base::All => {
            let all = all_docs(alloc, index)?;
            let first = top(alloc, &all, offset, cut)?;
            Ok((first, all.len()))
        }
        Base::Listed(hits) => {
            let first = top(alloc, hits.as_slice(), offset, cut)?;
            Ok((first, hits.len()))
        }
    }
}

// Every document, with the score 0.
pub(crate) fn all_docs<I: Source>(alloc: Global, index: &I) -> Result<Vec<Scored>, Memory>
    requires { IsSource (I.view index.now) }

    ensures { IfOk result (λ v. v.items ≡ every (present_docs (I.view index.now).present)) }
{
    let docs = index.docs();
    let mut all = Vec::with_capacity(alloc, docs as usize)?;
    for doc in 0..docs {
        if index.has_doc(doc) {
            all.push_reserved(Scored { doc, score: 0 });
        }
    }
    Ok(all)
}
