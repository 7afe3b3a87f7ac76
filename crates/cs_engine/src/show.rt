//! Showing what is found of a query: the reply, with the words of its completions, the tables of facets, and the titles of its hits.
ghost use Rattle.std.specs.Prelude.{◌≡◌, ◌+◌, ◌*◌, ◌≤◌, ◌<◌, ◌⊎◌, [], true, length, map, IfOk};
ghost use Rattle.std.specs.List.{All};
ghost use Rattle.cs_base.specs.{declared.content.scores.TheConstants.{MAX_ROW_SCORE}, outside.Causes.{ReadsWithin}};
ghost use Rattle.cs_base.specs.declared.content.limits.TheConstants.{MAX_PARTS};
ghost use Rattle.cs_model.specs.Requests.{hit_shown, reply_of};
ghost use Rattle.cs_query.specs.RequestView.{asked};
ghost use Rattle.cs_rows.specs.IndexReading.{division, OnlyReads, WhereStood};
ghost use Rattle.cs_engine.specs.Asking.{HasNoWord, titles_read};
ghost use Rattle.cs_rows.specs.Counting.{AreListed};
ghost use Rattle.cs_engine.specs.HeldRanges.{AreHeldOver, FitsRange};
ghost use Rattle.cs_engine.specs.Loose.{IsTableFor};
ghost use Rattle.cs_rows.specs.Skipping.{hit_of_facet, hit_of_facets, lists_none};
ghost use Rattle.cs_rows.specs.Sources.{CanRead, filed_hits, seen};
ghost use Rattle.cs_rows.specs.Steps.{IsBaseOf};
ghost use Rattle.cs_rows.specs.Stocked.{corpus_in, facet_at};

use crate::facets::counted_facet;
use crate::held::Holder;
use crate::replies::{bare_facets, shown_words};
use cs_base::{Base, Memory, Scored, Seq, Store, Text};
use cs_file::FetchFault;
use cs_query::{FacetShown, HitShown, Reply, Request};
use cs_rows::{Source, first_hits, listed_docs, lists_none, range_of_facet};
use cs_tables::Table;
use std::alloc::{AllocError, Global};

/// A request over a source, and the memory for what is made.
pub struct RequestOver<'a, I: Source> {
    /// The memory.
    pub alloc: Global,
    /// The source.
    pub index: &'a I,
    /// The request.
    pub request: &'a Request,
}

impl<I: Source> Clone for RequestOver<'_, I> {
    fn clone(&self) -> Result<Self, AllocError> {
        Ok(*self)
    }
}

impl<I: Source> Copy for RequestOver<'_, I> {}

/// The reply to a request, by the hits of its query and the table of its completions. Facets go on from the rows that are held. Of their
/// blocks only those are read that a hit reaches.
pub(crate) fn show<I: Source, S: Store>(
    over: RequestOver<'_, I>,
    store: &mut S,
    held: &mut Holder,
    hits: &Base,
    table: &Table,
) -> Result<Reply, FetchFault>
    requires base { IsBaseOf (I.view over.index.now).docs (MAX_ROW_SCORE * MAX_PARTS) hits.now }
    requires table { All (λ w. w.word < length (I.view over.index.now).words) table.now.first }
    requires held { All (FitsRange (seen (I.view over.index.now))) held.old }
    requires opened { CanRead (S.bytes store.old) (I.view over.index.now) }

    ensures told { WhereStood (S.bytes store.old) (I.view over.entry.index.now).index
        (λ b. AreHeldOver ((I.view over.entry.index.now).stock b) held.old → (let r = asked over.entry.request.now in
        IsTableFor (I.view over.entry.index.now) b r.query r.completions hits.now table.now
        → IfOk result (λ reply. reply ≡ reply_of (corpus_in ((I.view over.entry.index.now).stock b)) r))) }
    ensures few { IfOk result (λ r. length r.hits ≤ over.entry.request.now.hits) }
    ensures held { All (FitsRange (seen (I.view over.entry.index.now))) held.new }
    ensures good { WhereStood (S.bytes store.old) (I.view over.entry.index.now).index
        (λ b. AreHeldOver ((I.view over.entry.index.now).stock b) held.old → AreHeldOver ((I.view over.entry.index.now).stock b) held.new) }
    ensures store { OnlyReads S.bytes S.lent S.faults (I.view over.entry.index.now).index store.old store.new result }
    ensures reads { ReadsWithin (titles_read (I.view over.entry.index.now).index.docs (asked over.entry.request.now) result
        + hit_of_facets (division (I.view over.entry.index.now).index) hits.now (asked over.entry.request.now).facets) (S.reads store.old) (S.reads store.new) }
{
    let RequestOver {
        alloc,
        index,
        request,
    } = over;
    let shown = shown_words(alloc, index, table.first.as_slice())?;
    let facets = shown_facets(over, store, held, hits)?;
    let (first, total) = first_hits(alloc, index, hits, request.offset, request.hits)?;
    let shown_first = shown_hits(alloc, index, store, first.as_slice())?;
    Ok(Reply {
        completions: shown,
        facets,
        hits: shown_first,
        total_completions: table.total,
        total_hits: total as u32,
    })
}

// The table of each facet asked. Without a hit, or a word of them, nothing is read.
fn shown_facets<I: Source, S: Store>(
    over: RequestOver<'_, I>,
    store: &mut S,
    held: &mut Holder,
    base: &Base,
) -> Result<Seq<FacetShown>, FetchFault>
    requires base { IsBaseOf (I.view over.index.now).docs (MAX_ROW_SCORE * MAX_PARTS) base.now }
    requires held { All (FitsRange (seen (I.view over.index.now))) held.old }
    requires opened { CanRead (S.bytes store.old) (I.view over.index.now) }

    ensures told { WhereStood (S.bytes store.old) (I.view over.entry.index.now).index
        (λ b. AreHeldOver ((I.view over.entry.index.now).stock b) held.old → IfOk result (λ shown. shown
        ≡ map (facet_at ((I.view over.entry.index.now).stock b) base.now over.entry.request.now.completions) (asked over.entry.request.now).facets)) }
    ensures held { All (FitsRange (seen (I.view over.entry.index.now))) held.new }
    ensures good { WhereStood (S.bytes store.old) (I.view over.entry.index.now).index
        (λ b. AreHeldOver ((I.view over.entry.index.now).stock b) held.old → AreHeldOver ((I.view over.entry.index.now).stock b) held.new) }
    ensures store { OnlyReads S.bytes S.lent S.faults (I.view over.entry.index.now).index store.old store.new result }
    ensures reads { ReadsWithin (hit_of_facets (division (I.view over.entry.index.now).index) base.now (asked over.entry.request.now).facets)
        (S.reads store.old) (S.reads store.new) }
{
    let RequestOver {
        alloc,
        index,
        request,
    } = over;
    let mut shown = Seq::new(alloc);
    if request.facets.as_slice().is_empty() {
        return Ok(shown);
    }
    if are_bare(alloc, index, base, request.facets.as_slice())? {
        let bare = bare_facets(alloc, request.facets.as_slice())?;
        return Ok(bare);
    }
    let listed = listed_docs(alloc, index, base)?;
    for name in request.facets.as_slice() {
        let facet = shown_facet(over, store, held, base, &listed, name)?;
        shown.push(facet)?;
    }
    Ok(shown)
}

// Whether facets of these names are shown with no word, as there is no hit, or no word of these facets.
fn are_bare<I: Source>(
    alloc: Global,
    index: &I,
    base: &Base,
    names: &[Text],
) -> Result<bool, Memory>
    ensures { IfOk result (λ bare. bare ≡ true
        → (lists_none base.now ≡ true) ⊎ All (HasNoWord (I.view index.now).words) names.now) }
{
    if lists_none(base) {
        return Ok(true);
    }
    for name in names {
        let words = range_of_facet(alloc, index, name)?;
        if words.0 < words.1 {
            return Ok(false);
        }
    }
    Ok(true)
}

// The table of one facet in the documents that a base lists.
fn shown_facet<I: Source, S: Store>(
    over: RequestOver<'_, I>,
    store: &mut S,
    held: &mut Holder,
    base: &Base,
    listed: &[bool],
    name: &Text,
) -> Result<FacetShown, FetchFault>
    requires base { IsBaseOf (I.view over.index.now).docs (MAX_ROW_SCORE * MAX_PARTS) base.now }
    requires listed { AreListed (I.view over.index.now).present base.now listed.now }
    requires held { All (FitsRange (seen (I.view over.index.now))) held.old }
    requires opened { CanRead (S.bytes store.old) (I.view over.index.now) }

    ensures told { WhereStood (S.bytes store.old) (I.view over.entry.index.now).index
        (λ b. AreHeldOver ((I.view over.entry.index.now).stock b) held.old → IfOk result (λ shown. shown
        ≡ facet_at ((I.view over.entry.index.now).stock b) base.now over.entry.request.now.completions name.now)) }
    ensures held { All (FitsRange (seen (I.view over.entry.index.now))) held.new }
    ensures good { WhereStood (S.bytes store.old) (I.view over.entry.index.now).index
        (λ b. AreHeldOver ((I.view over.entry.index.now).stock b) held.old → AreHeldOver ((I.view over.entry.index.now).stock b) held.new) }
    ensures store { OnlyReads S.bytes S.lent S.faults (I.view over.entry.index.now).index store.old store.new result }
    ensures reads { ReadsWithin (hit_of_facet (division (I.view over.entry.index.now).index) base.now name.now) (S.reads store.old) (S.reads store.new) }
{
    let RequestOver {
        alloc,
        index,
        request,
    } = over;
    let words = range_of_facet(alloc, index, name)?;
    let counts = counted_facet(alloc, index, store, words, base, listed, held)?;
    let table = counts.table(alloc, request.completions)?;
    let shown = shown_words(alloc, index, table.first.as_slice())?;
    let copied = name.copy(alloc)?;
    Ok(FacetShown {
        name: copied,
        table: shown,
    })
}

// Hits with their titles. Each title that the index has is read once, and no other.
fn shown_hits<I: Source, S: Store>(
    alloc: Global,
    index: &I,
    store: &mut S,
    hits: &[Scored],
) -> Result<Seq<HitShown>, FetchFault>
    requires known { All (λ h. h.doc < (I.view index.now).docs) hits.now }
    requires opened { CanRead (S.bytes store.old) (I.view index.now) }

    ensures told { WhereStood (S.bytes store.old) (I.view index.now).index (λ b. IfOk result
        (λ shown. shown ≡ map (hit_shown (corpus_in ((I.view index.now).stock b))) hits.now)) }
    ensures docs { IfOk result (λ shown. map (λ s. s.doc) shown ≡ map (λ h. h.doc) hits.now) }
    ensures store { OnlyReads S.bytes S.lent S.faults (I.view index.now).index store.old store.new result }
    ensures reads { ReadsWithin (filed_hits (I.view index.now) hits.now) (S.reads store.old) (S.reads store.new) }
{
    let mut shown = Seq::new(alloc);
    for hit in hits {
        let title = index.title(alloc, store, hit.doc)?;
        shown.push(HitShown {
            doc: hit.doc,
            score: hit.score,
            title,
        })?;
    }
    Ok(shown)
}
