//! The hits of a query, part by part, and the entry of a query and one part more.
ghost use Rattle.std.specs.Prelude.{◌≡◌, ℕ, ◌+◌, ◌*◌, ◌≤◌, not, length, map, sum, IfOk, IfSome};
ghost use Rattle.cs_base.specs.{declared.content.scores.TheConstants.{MAX_ROW_SCORE}, outside.Causes.{ReadsWithin}};
ghost use Rattle.cs_base.specs.{declared.content.limits.TheConstants.{MAX_PARTS}, declared.content.query.Query.{Query, out-Query}};
ghost use Rattle.cs_base.specs.declared.content.query.Part.{out-Part};
ghost use Rattle.cs_model.specs.Answers.{rows_of_part};
ghost use Rattle.cs_model_kept.specs.Due.{met_of_part};
ghost use Rattle.cs_rows.specs.IndexReading.{division, OnlyReads, WhereStood};
ghost use Rattle.cs_rows.specs.KnownHits.{AreHitsOfWords};
ghost use Rattle.cs_rows.specs.Skipping.{hit_of_part};
ghost use Rattle.cs_rows.specs.Sources.{CanRead, seen};
ghost use Rattle.cs_rows.specs.Steps.{AreHitsOver, EntryFits, IsBaseOf, IsStep, end_positive};
ghost use Rattle.cs_rows.specs.Stocked.{corpus_in};

use crate::counting::listed_docs;
use crate::entries::{posts_after, posts_hits};
use crate::hits::lists_none;
use crate::inside::rows_inside;
use crate::known::{KnownHits, hits_in_words};
use crate::plain::words_of_part;
use crate::source::Source;
use cs_base::{Base, Part, Store};
use cs_cache::Entry;
use cs_file::FetchFault;
use std::alloc::Global;

/// The hits of a query of these parts, one part after the other. Where a part asks for some words, its rows are brought into no order.
/// `known` are hits of some words alone, which serve where the first part asks for these words.
/// Behind parts that leave no hit nothing is read, nor for a first part whose hits are known.
pub fn hits_of_parts<I: Source, S: Store>(
    alloc: Global,
    index: &I,
    store: &mut S,
    known: Option<KnownHits<'_>>,
    parts: &[Part],
) -> Result<Base, FetchFault>
    requires few { length parts.now ≤ MAX_PARTS }
    requires fits { IfSome known (λ k. IsBaseOf (I.view index.now).docs MAX_ROW_SCORE k.hits.now) }
    requires opened { CanRead (S.bytes store.old) (I.view index.now) }

    ensures told { WhereStood (S.bytes store.old) (I.view index.now).index
        (λ b. IfSome known.entry (AreHitsOfWords ((I.view index.now).stock b))
        → IfOk result (λ hits. (q : Query) → parts.now ≡ (out-Query q).parts → AreHitsOver ((I.view index.now).stock b) q hits)) }
    ensures within { IfOk result (IsBaseOf (I.view index.now).docs (MAX_ROW_SCORE * length parts.now)) }
    ensures store { OnlyReads S.bytes S.lent S.faults (I.view index.now).index store.old store.new result }
    ensures reads { ReadsWithin (sum (map (met_of_part (division (I.view index.now).index)) parts.now)) (S.reads store.old) (S.reads store.new) }
{
    let mut hits = Base::All;
    for part in parts {
        if lists_none(&hits) {
            continue;
        }
        if let Some(words) = words_of_part(index, part) {
            hits = hits_in_words(alloc, index, store, &hits, words, known)?;
            continue;
        }
        let entry = extended_entry(alloc, index, store, hits, part)?;
        hits = posts_hits(alloc, !part.excluded, &entry.base, &entry.rows)?;
    }
    Ok(hits)
}

/// The entry of a query and one part more, by the query's hits. The part's rows are brought into one order. For an atom that is no join no
/// block that no hit reaches is read.
pub fn extended_entry<I: Source, S: Store>(
    alloc: Global,
    index: &I,
    store: &mut S,
    hits: Base,
    part: &Part,
) -> Result<Entry, FetchFault>
    requires base { IsBaseOf (I.view index.now).docs (MAX_ROW_SCORE * MAX_PARTS) hits }
    requires opened { CanRead (S.bytes store.old) (I.view index.now) }

    ensures told { WhereStood (S.bytes store.old) (I.view index.now).index
        (λ b. IfOk result (IsStep ((I.view index.now).stock b) hits (rows_of_part (corpus_in ((I.view index.now).stock b)) part.now))) }
    ensures within { IfOk result (λ e. (n : ℕ) → IsBaseOf (I.view index.now).docs (MAX_ROW_SCORE * n) hits
        → EntryFits (seen (I.view index.now)) (not (out-Part part.now).excluded) (n + 1) e) }
    ensures store { OnlyReads S.bytes S.lent S.faults (I.view index.now).index store.old store.new result }
    ensures reads { ReadsWithin (hit_of_part (division (I.view index.now).index) hits part.now) (S.reads store.old) (S.reads store.new) }
{
    let listed = listed_docs(alloc, index, &hits)?;
    let rows = rows_inside(alloc, index, store, &hits, &listed, part)?;
    let entry = posts_after(alloc, index, hits, part.excluded, rows)?;
    Ok(entry)
}

/// Whether the last one of these parts is positive; not so without a part.
pub fn end_positive(parts: &[Part]) -> bool
    ensures { result ≡ end_positive parts.now }
{
    let mut positive = false;
    for part in parts {
        positive = !part.excluded;
    }
    positive
}
