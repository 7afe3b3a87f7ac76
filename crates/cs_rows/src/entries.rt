//! Entries: the hits from which a query's last part goes on, and the rows of that part in them.
ghost use Rattle.std.specs.Prelude.{◌≡◌, [], map, IfOk};
ghost use Rattle.cs_base.specs.declared.content.doc.Base.TheVariants as base;
ghost use Rattle.cs_base.specs.content.Orders.{AreSorted};
ghost use Rattle.cs_rank.specs.DocScores.{IsBase};
ghost use Rattle.cs_rows.specs.Sources.{IsSource};
ghost use Rattle.cs_rows.specs.Steps.{posts_hits, posts_after, docs_after, with_no_score};
ghost use Rattle.cs_rows.specs.Stocked.{base_docs, present_docs};

use crate::hits::{all_docs, doc_numbers, hits_without, kept_in};
use crate::source::Source;
use cs_base::{Base, Memory, Scored, Seq};
use cs_cache::Entry;
use cs_cols::Cols;
use cs_meet::docs_of;
use cs_rank::score;
use std::alloc::Global;

/// The entry before the first part.
pub fn first_entry(alloc: Global) -> Entry
    ensures { result ≡ record { base = base.All; rows = [] } }
{
    Entry {
        base: Base::All,
        rows: Cols::new(alloc),
    }
}

/// The hits of a query by its entry: its rows over its base where the last part is positive, and else the base.
pub fn posts_hits(alloc: Global, positive: bool, base: &Base, rows: &Cols) -> Result<Base, Memory>
    requires base { IsBase base.now }
    requires sorted { AreSorted rows.now.posts }

    ensures { IfOk result (λ b. b ≡ posts_hits positive base.now rows.now.posts) }
{
    if !positive {
        let copied = base_copy(alloc, base)?;
        return Ok(copied);
    }
    let scored = score(alloc, base, rows)?;
    Ok(Base::Listed(scored))
}

/// The same base once more.
pub fn base_copy(alloc: Global, base: &Base) -> Result<Base, Memory>
    ensures { IfOk result (λ b. b ≡ base.now) }
{
    match base {
        Base::All => Ok(Base::All),
        Base::Listed(hits) => {
            let copied = Vec::from_slice(alloc, hits.as_slice())?;
            Ok(Base::Listed(Seq::from_vec(copied)))
        }
    }
}

/// The entry of a query and one part more, by the query's hits and the part's rows.
pub(crate) fn posts_after<I: Source>(
    alloc: Global,
    index: &I,
    hits: Base,
    excluded: bool,
    rows: Cols,
) -> Result<Entry, Memory>
    requires source { IsSource (I.view index.now) }
    requires base { IsBase hits }
    requires rows_sorted { AreSorted rows.posts }

    ensures { IfOk result (λ e. e ≡ posts_after (present_docs (I.view index.now).present) hits excluded rows.posts) }
{
    if excluded {
        let left = hits_without(alloc, index, &hits, &rows)?;
        return Ok(Entry {
            base: Base::Listed(left),
            rows: Cols::new(alloc),
        });
    }
    let kept = kept_in(alloc, &hits, rows)?;
    Ok(Entry {
        base: hits,
        rows: kept,
    })
}

/// The numbers of the documents that a base lists.
pub(crate) fn docs_of_base<I: Source>(
    alloc: Global,
    index: &I,
    base: &Base,
) -> Result<Vec<u32>, Memory>
    requires { IsSource (I.view index.now) }

    ensures { IfOk result (λ v. v.items ≡ base_docs (present_docs (I.view index.now).present) base.now) }
{
    match base {
        Base::All => {
            let all = all_docs(alloc, index)?;
            let numbers = doc_numbers(alloc, &all)?;
            Ok(numbers)
        }
        Base::Listed(hits) => {
            let numbers = doc_numbers(alloc, hits.as_slice())?;
            Ok(numbers)
        }
    }
}

/// The hits that agree with one part more, whose rows these are, as a base. Their scores aren't counted.
pub(crate) fn agreeing<I: Source>(
    alloc: Global,
    index: &I,
    hits: &Base,
    excluded: bool,
    rows: Cols,
) -> Result<Base, Memory>
    requires source { IsSource (I.view index.now) }
    requires base { IsBase hits.now }
    requires rows_sorted { AreSorted rows.posts }

    ensures docs { IfOk result (λ b. base_docs (present_docs (I.view index.now).present) b
        ≡ docs_after (present_docs (I.view index.now).present) hits.now excluded rows.posts) }
    ensures base { IfOk result IsBase }
{
    if excluded {
        let left = hits_without(alloc, index, hits, &rows)?;
        return Ok(Base::Listed(left));
    }
    let kept = kept_in(alloc, hits, rows)?;
    let numbers = docs_of(alloc, &kept)?;
    let listed = unscored(alloc, &numbers)?;
    Ok(Base::Listed(listed))
}

// Each of the documents with the score 0.
fn unscored(alloc: Global, numbers: &[u32]) -> Result<Seq<Scored>, Memory>
    ensures { IfOk result (λ v. v ≡ map with_no_score numbers.now) }
{
    let mut listed = Vec::with_capacity(alloc, numbers.len())?;
    for doc in numbers {
        listed.push_reserved(Scored {
            doc: *doc,
            score: 0,
        });
    }
    Ok(Seq::from_vec(listed))
}
