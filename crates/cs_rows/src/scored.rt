//! The hits of a query and one part more that asks for a range of words: the best score of each document is noted as its rows are read.
ghost use Rattle.std.specs.Prelude.{◌≡◌, ℕ, ◌+◌, ◌*◌, filter, length, IfOk};
ghost use Rattle.cs_base.specs.declared.content.doc.Base.TheVariants as base;
ghost use Rattle.cs_base.specs.{declared.content.limits.TheConstants.{MAX_PARTS}, declared.content.scores.TheConstants.{MAX_ROW_SCORE}};
ghost use Rattle.cs_base.specs.outside.Causes.{ReadsWithin};
ghost use Rattle.cs_rank.specs.DocScores.{doc_scores};
ghost use Rattle.cs_rows.specs.Counting.{in_listed};
ghost use Rattle.cs_rows.specs.BestScores.{HasBestScores};
ghost use Rattle.cs_rows.specs.IndexReading.{IsWordRange, OnlyReads, WhereStood};
ghost use Rattle.cs_rows.specs.Skipping.{IsSieve, hit_met};
ghost use Rattle.cs_rows.specs.Sources.{CanRead, seen};
ghost use Rattle.cs_rows.specs.Steps.{IsBaseOf};
ghost use Rattle.cs_rows.specs.Stocked.{is_between, base_posts};

use crate::best::{blank_table, raise_at_hand, raise_rows, scored_in};
use crate::bounds::may_hit;
use crate::counting::listed_docs;
use crate::source::Source;
use cs_base::{Base, Scored, Seq, Store};
use cs_file::{FetchFault, Fetched};
use std::alloc::Global;

/// The documents of hits that have a row of these words, with their scores. Each block that holds such a word and that a hit reaches is read
/// once.
pub(crate) fn hits_by_words<I: Source, S: Store>(
    alloc: Global,
    index: &I,
    store: &mut S,
    hits: &Base,
    words: (u32, u32),
) -> Result<Seq<Scored>, FetchFault>
    requires words { IsWordRange (seen (I.view index.now)) words.0 words.1 }
    requires base { IsBaseOf (I.view index.now).docs (MAX_ROW_SCORE * MAX_PARTS) hits.now }
    requires opened { CanRead (S.bytes store.old) (I.view index.now) }

    ensures told { WhereStood (S.bytes store.old) (I.view index.now).index
        (λ b. IfOk result (λ next. next ≡ doc_scores hits.now
        (base_posts hits.now (filter (is_between words.0 words.1) ((I.view index.now).stock b).posts)))) }
    ensures within { IfOk result (λ next. (n : ℕ) → IsBaseOf (I.view index.now).docs (MAX_ROW_SCORE * n) hits.now
        → IsBaseOf (I.view index.now).docs (MAX_ROW_SCORE * (n + 1)) (base.Listed next)) }
    ensures store { OnlyReads S.bytes S.lent S.faults (I.view index.now).index store.old store.new result }
    ensures reads { ReadsWithin (hit_met (I.view index.now) hits.now words.0 words.1) (S.reads store.old) (S.reads store.new) }
{
    let listed = listed_docs(alloc, index, hits)?;
    let best = best_in_blocks(alloc, index, store, words, hits, &listed)?;
    let scored = scored_in(alloc, hits, &best)?;
    Ok(scored)
}

// The best score of each listed document, over its rows of these words, block by block. Each block that holds such a word and that a hit
// reaches is read once.
fn best_in_blocks<I: Source, S: Store>(
    alloc: Global,
    index: &I,
    store: &mut S,
    words: (u32, u32),
    hits: &Base,
    listed: &[bool],
) -> Result<Vec<u8>, FetchFault>
    requires words { IsWordRange (seen (I.view index.now)) words.0 words.1 }
    requires sieve { IsSieve (S.bytes store.old) (I.view index.now) hits.now listed.now }

    ensures told { WhereStood (S.bytes store.old) (I.view index.now).index
        (λ b. IfOk result (λ best. HasBestScores (filter (in_listed listed.now)
        (filter (is_between words.0 words.1) ((I.view index.now).stock b).posts)) best.items)) }
    ensures long { IfOk result (λ best. length best.items ≡ (I.view index.now).docs) }
    ensures store { OnlyReads S.bytes S.lent S.faults (I.view index.now).index store.old store.new result }
    ensures reads { ReadsWithin (hit_met (I.view index.now) hits.now words.0 words.1) (S.reads store.old) (S.reads store.new) }
{
    let (first, last) = index.blocks(words);
    let mut best = blank_table(alloc, index.docs())?;
    let mut block = Fetched::new(alloc);
    for k in first..last {
        if !may_hit(hits, index.head(k)) {
            continue;
        }
        index.fetch_scored(alloc, store, k, &mut block)?;
        raise_rows(&mut best, words, listed, &block);
    }
    raise_at_hand(&mut best, index.held(words), words, listed);
    Ok(best)
}
