//! The hits of a query and one part more that asks for a range of words: read, or copied where they are known of these words alone.
ghost use Rattle.std.specs.Prelude.{◌≡◌, ◌+◌, ◌*◌, ℕ, Some, filter, IfOk, IfSome};
ghost use Rattle.cs_base.specs.declared.content.doc.Base.TheVariants as base;
ghost use Rattle.cs_base.specs.{declared.content.limits.TheConstants.{MAX_PARTS}, declared.content.scores.TheConstants.{MAX_ROW_SCORE}};
ghost use Rattle.cs_base.specs.outside.Causes.{ReadsWithin};
ghost use Rattle.cs_rank.specs.DocScores.{doc_scores};
ghost use Rattle.cs_rows.specs.IndexReading.{IsWordRange, OnlyReads, WhereStood};
ghost use Rattle.cs_rows.specs.KnownHits.{AreHitsOfWords};
ghost use Rattle.cs_rows.specs.Skipping.{hit_met};
ghost use Rattle.cs_rows.specs.Sources.{CanRead, seen};
ghost use Rattle.cs_rows.specs.Steps.{IsBaseOf};
ghost use Rattle.cs_rows.specs.Stocked.{is_between, base_posts};

use crate::entries::base_copy;
use crate::scored::hits_by_words;
use crate::source::Source;
use cs_base::{Base, Store};
use cs_file::FetchFault;
use std::alloc::{AllocError, Global};

/// Words from one number up to another, which is left out, with the hits of a query that asks for them alone.
pub struct KnownHits<'a> {
    /// The words.
    pub words: (u32, u32),
    /// The hits.
    pub hits: &'a Base,
}

impl Clone for KnownHits<'_> {
    fn clone(&self) -> Result<Self, AllocError> {
        Ok(*self)
    }
}

impl Copy for KnownHits<'_> {}

/// The documents of hits that have a row of these words, with their scores. Where all documents are hits and those of these words are known,
/// nothing is read; else each block that holds such a word and that a hit reaches is read once.
pub(crate) fn hits_in_words<I: Source, S: Store>(
    alloc: Global,
    index: &I,
    store: &mut S,
    hits: &Base,
    words: (u32, u32),
    known: Option<KnownHits<'_>>,
) -> Result<Base, FetchFault>
    requires words { IsWordRange (seen (I.view index.now)) words.0 words.1 }
    requires base { IsBaseOf (I.view index.now).docs (MAX_ROW_SCORE * MAX_PARTS) hits.now }
    requires fits { IfSome known (λ k. IsBaseOf (I.view index.now).docs MAX_ROW_SCORE k.hits.now) }
    requires opened { CanRead (S.bytes store.old) (I.view index.now) }

    ensures told { WhereStood (S.bytes store.old) (I.view index.now).index
        (λ b. IfSome known.entry (AreHitsOfWords ((I.view index.now).stock b)) → IfOk result (λ next. next ≡ base.Listed (doc_scores hits.now
        (base_posts hits.now (filter (is_between words.0 words.1) ((I.view index.now).stock b).posts))))) }
    ensures within { IfOk result (λ next. (n : ℕ) → IsBaseOf (I.view index.now).docs (MAX_ROW_SCORE * n) hits.now
        → IsBaseOf (I.view index.now).docs (MAX_ROW_SCORE * (n + 1)) next) }
    ensures store { OnlyReads S.bytes S.lent S.faults (I.view index.now).index store.old store.new result }
    ensures reads { ReadsWithin (hit_met (I.view index.now) hits.now words.0 words.1) (S.reads store.old) (S.reads store.new) }
{
    if let Some(found) = known_of(hits, words, known) {
        let copied = base_copy(alloc, found)?;
        return Ok(copied);
    }
    let scored = hits_by_words(alloc, index, store, hits, words)?;
    Ok(Base::Listed(scored))
}

// The hits that are known of these words alone, where all documents are hits.
fn known_of<'a>(hits: &Base, words: (u32, u32), known: Option<KnownHits<'a>>) -> Option<&'a Base>
    ensures { IfSome result (λ f. (hits.now ≡ base.All) × (known.entry ≡ Some (record { words = words; hits = f }))) }
{
    let known = known?;
    if known.words.0 != words.0 || known.words.1 != words.1 {
        return None;
    }
    match hits {
        Base::All => Some(known.hits),
        Base::Listed(_) => None,
    }
}
