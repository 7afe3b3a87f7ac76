//! Rows by their documents, and documents by their rows.
ghost use Rattle.std.specs.Prelude.{◌≡◌, ℕ, true, false, nat_eq, List, slice_index, slice_index_or, ◌==◌, ◌+◌, ◌-◌, ◌*◌, ◌^◌, ◌≤◌, ◌<◌, [], ◌∷◌, ◌++◌};
ghost use Rattle.std.specs.Prelude.{length, take, if◌then◌else◌, IfOk};
ghost use Rattle.std.specs.List.{dedup_from, list_any};
ghost use Rattle.std.specs.List.Sorted.{IsNonDecreasing};
ghost use Rattle.std.specs.Vec.{vec_len, vec_capacity};
ghost use Rattle.cs_base.specs.declared.content.doc.Post.{Post};
ghost use Rattle.cs_meet.specs.Filters.{keep_docs, drop_docs, is_of_doc};
ghost use Rattle.cs_base.specs.content.Orders.{AreDocs, AreByDoc, docs_of, AreSorted};
ghost use Rattle.cs_meet.specs.RowPlaces.{AllBelow, AheadOf, LiesBetween, SplitsDocs};

use crate::skip::{add_where, pass_over};
use cs_base::{Memory, Post, Scored, Seq};
use cs_cols::Cols;
use std::alloc::Global;

// How far behind a place a document is looked at first.
const NEAR_DOCS: usize = 4;

// The first step behind those that are near.
const FIRST_LEAP: usize = 2 * NEAR_DOCS;

// So few documents are counted in place of being searched.
const FEW_DOCS: usize = 16;

/// The rows whose document is one of `docs`.
pub fn keep_docs(alloc: Global, rows: &Cols, docs: &[u32]) -> Result<Cols, Memory>
    requires rows_sorted { AreSorted rows.now.posts }
    requires docs_sorted { AreDocs docs.now }

    ensures ok { IfOk result (λ c. c.posts ≡ keep_docs rows.now.posts docs.now) }
    ensures sorted { IfOk result (λ c. AreSorted c.posts) }
{
    let mut found = Cols::with_capacity(alloc, rows.len())?;
    let mut i = 0;
    let mut j = 0;
    while j < rows.len() {
        let row = rows.get(j);
        i = skip_docs(docs, i, row.doc);
        add_where(&mut found, is_listed(docs, i, row.doc), row);
        j = next_listed(docs, i, rows, j + 1);
    }
    Ok(found)
}

/// The documents of the rows, ascending, each once.
pub fn docs_of(alloc: Global, rows: &Cols) -> Result<Vec<u32>, Memory>
    requires { AreSorted rows.now.posts }

    ensures ok { IfOk result (λ docs. docs.items ≡ docs_of rows.now.posts) }
    ensures sorted { IfOk result (λ docs. AreDocs docs.items) }
{
    let all = rows.docs();
    let mut docs = Vec::from_slice(alloc, all)?;
    if all.is_empty() {
        return Ok(docs);
    }
    let mut last = 0;
    for i in 1..all.len() {
        last = put_unlike(&mut docs, last, all[i - 1], all[i]);
    }
    docs.truncate(last + 1);
    Ok(docs)
}

// Puts the next document behind the current one, which stands at `last`, or in its place where the two are the same. It has no branch,
// since nothing tells beforehand whether they are.
#[inline]
fn put_unlike(docs: &mut Vec<u32>, last: usize, current: u32, next: u32) -> usize
    requires room { last + 1 < length docs.old.items }
    requires current { slice_index docs.old.items last ≡ current }

    ensures items { (rest : List ℕ) → take result docs.new.items ++ dedup_from nat_eq next rest
        ≡ take last docs.old.items ++ dedup_from nat_eq current (next ∷ rest) }
    ensures next { slice_index docs.new.items result ≡ next }
    ensures near { result ≤ last + 1 }
    ensures len { length docs.new.items ≡ length docs.old.items }
{
    let place = last + usize::from(next != current);
    docs[place] = next;
    place
}

/// Those of `base` whose document has none of the rows.
pub fn drop_docs(alloc: Global, base: &[Scored], rows: &Cols) -> Result<Seq<Scored>, Memory>
    requires base_sorted { AreByDoc base.now }
    requires rows_sorted { AreSorted rows.now.posts }

    ensures ok { IfOk result (λ kept. kept ≡ drop_docs base.now rows.now.posts) }
    ensures sorted { IfOk result (λ kept. AreByDoc kept) }
{
    let mut kept = Vec::with_capacity(alloc, base.len())?;
    let docs = rows.docs();
    let mut i = 0;
    for scored in base {
        i = skip_docs(docs, i, scored.doc);
        keep_where(&mut kept, !is_listed(docs, i, scored.doc), *scored);
    }
    Ok(Seq::from_vec(kept))
}

// The first place from `from` on whose document isn't less than `doc`.
#[inline]
fn skip_docs(docs: &[u32], from: usize, doc: u32) -> usize
    requires sorted { IsNonDecreasing docs.now }
    requires within { from ≤ length docs.now }
    requires below { AllBelow docs.now from doc }

    ensures { SplitsDocs docs.now result doc }
{
    if reaches_below(docs, from, 1, doc) {
        skip_on(docs, from + 1, doc)
    } else {
        from
    }
}

// The same where the place is most often near, and then found without a loop.
fn skip_on(docs: &[u32], from: usize, doc: u32) -> usize
    requires sorted { IsNonDecreasing docs.now }
    requires within { from ≤ length docs.now }
    requires below { AllBelow docs.now from doc }

    ensures { SplitsDocs docs.now result doc }
{
    if reaches_below(docs, from, NEAR_DOCS, doc) {
        leap_docs(docs, from + NEAR_DOCS, doc)
    } else if docs.len() - from < NEAR_DOCS {
        search_docs(docs, from, docs.len(), doc)
    } else {
        from + near_below(docs, from, doc)
    }
}

// How many of the documents from `from` on are less than `doc`, where the last of the next `NEAR_DOCS` isn't. It has no
// branch, since nothing tells beforehand which way one would go.
#[inline]
fn near_below(docs: &[u32], from: usize, doc: u32) -> usize
    requires sorted { IsNonDecreasing docs.now }
    requires within { from + NEAR_DOCS ≤ length docs.now }
    requires below { AllBelow docs.now from doc }
    requires stop { doc ≤ slice_index docs.now (from + (NEAR_DOCS - 1)) }

    ensures { SplitsDocs docs.now (from + result) doc }
{
    usize::from(docs[from] < doc)
        + usize::from(docs[from + 1] < doc)
        + usize::from(docs[from + 2] < doc)
}

// The first place from `from` on whose document isn't less than `doc`, by doubling and then searching the last step. It is a call of its own,
// so that the way to near documents stays short.
#[inline(never)]
fn leap_docs(docs: &[u32], from: usize, doc: u32) -> usize
    requires sorted { IsNonDecreasing docs.now }
    requires within { from ≤ length docs.now }
    requires below { AllBelow docs.now from doc }

    ensures { SplitsDocs docs.now result doc }
{
    let mut lo = from;
    let mut step = FIRST_LEAP;
    while reaches_below(docs, lo, step, doc) {
        lo += step;
        step *= 2;
    }
    let hi = lo + (step - 1).min(docs.len() - lo);
    search_docs(docs, lo, hi, doc)
}

// Whether the last of the next `step` documents is there, and less than `doc`.
#[inline]
fn reaches_below(docs: &[u32], from: usize, step: usize, doc: u32) -> bool
    requires within { from ≤ length docs.now }
    requires some { 1 ≤ step }

    ensures small { length docs.now < 2 ^ 63 }
    ensures there { result ≡ true → step ≤ length docs.now - from }
    ensures yes { result ≡ true → slice_index docs.now (from + (step - 1)) < doc }
    ensures no { result ≡ false → step ≤ length docs.now - from → doc ≤ slice_index docs.now (from + (step - 1)) }
{
    step <= docs.len() - from && docs[from + (step - 1)] < doc
}

// The first place from `from` on whose document isn't less than `doc`, at most `end`. Each step leaves about a quarter, by three looks that
// don't wait for one another, and the last few documents are counted without a branch.
fn search_docs(docs: &[u32], from: usize, end: usize, doc: u32) -> usize
    requires sorted { IsNonDecreasing docs.now }
    requires between { LiesBetween docs.now from end doc }

    ensures { SplitsDocs docs.now result doc }
{
    let mut lo = from;
    let mut left = end - from;
    while left > FEW_DOCS {
        let quarter = left / 4;
        lo = skip_quarters(docs, lo, quarter, doc);
        left -= 3 * quarter;
    }
    search_few(docs, lo, lo + left, doc)
}

// Goes from `lo` over as many quarters, three at most, as have their last document below `doc`.
#[inline]
fn skip_quarters(docs: &[u32], lo: usize, quarter: usize, doc: u32) -> usize
    requires sorted { IsNonDecreasing docs.now }
    requires some { 1 ≤ quarter }
    requires within { lo + 3 * quarter ≤ length docs.now }
    requires below { AllBelow docs.now lo doc }

    ensures onward { lo ≤ result }
    ensures within { result ≤ lo + 3 * quarter }
    ensures below { AllBelow docs.now result doc }
    ensures stop { result < lo + 3 * quarter → doc ≤ slice_index docs.now (result + (quarter - 1)) }
{
    let first = lo + (quarter - 1);
    let second = first + quarter;
    let third = second + quarter;
    lo + step_where(docs[first] < doc, quarter)
        + step_where(docs[second] < doc, quarter)
        + step_where(docs[third] < doc, quarter)
}

// The step where the test held, else nothing.
#[inline]
fn step_where(holds: bool, step: usize) -> usize
    ensures { result ≡ (if holds then step else 0) }
{
    if holds { step } else { 0 }
}

// The first place from `from` on whose document isn't less than `doc`, at most `end`, by counting those that are less.
#[inline]
fn search_few(docs: &[u32], from: usize, end: usize, doc: u32) -> usize
    requires sorted { IsNonDecreasing docs.now }
    requires between { LiesBetween docs.now from end doc }

    ensures { SplitsDocs docs.now result doc }
{
    let mut place = from;
    for i in from..end {
        place += usize::from(docs[i] < doc);
    }
    place
}

// The first row from `from` on whose document may be listed at `i` or behind.
#[inline]
fn next_listed(docs: &[u32], i: usize, rows: &Cols, from: usize) -> usize
    requires docs_sorted { AreDocs docs.now }
    requires rows_sorted { AreSorted rows.now.posts }
    requires within { from ≤ length rows.now.posts }
    requires ahead { AheadOf (λ r. r.doc) docs.now rows.now.posts i from }

    ensures onward { from ≤ result }
    ensures within { result ≤ length rows.now.posts }
    ensures none { (k : ℕ) (e : Post) → from ≤ k → k < result → list_any (is_of_doc (slice_index_or rows.now.posts k e)) docs.now ≡ false }
{
    if i < docs.len() {
        pass_over(rows, from, docs[i], 0)
    } else {
        rows.len()
    }
}

// Whether the document is listed, where `i` is the first place that isn't less than it.
#[inline]
fn is_listed(docs: &[u32], i: usize, doc: u32) -> bool
    requires sorted { IsNonDecreasing docs.now }
    requires splits { SplitsDocs docs.now i doc }

    ensures { result ≡ list_any (λ d. d == doc) docs.now }
{
    i < docs.len() && docs[i] == doc
}

// Adds a scored document at the end, in the room that there is, where the test held.
#[inline]
fn keep_where(kept: &mut Vec<Scored>, holds: bool, scored: Scored)
    requires { vec_len kept.old < vec_capacity kept.old }

    ensures items { kept.new.items ≡ (if holds then kept.old.items ++ scored ∷ [] else kept.old.items) }
    ensures len { vec_len kept.new ≤ vec_len kept.old + 1 }
    ensures capacity { vec_capacity kept.new ≡ vec_capacity kept.old }
{
    if holds {
        kept.push_reserved(scored);
    }
}
