//! Finding a query's hits and completions by a plan of what is kept, and its own entry where that wasn't kept before.
ghost use Rattle.std.specs.Prelude.{◌≡◌, false, true, is_some, IfOk, IfSome};
ghost use Rattle.std.specs.List.{All};
ghost use Rattle.cs_base.specs.outside.Causes.{ReadsWithin};
ghost use Rattle.cs_model_kept.specs.{Due.{met_by, met_of_query}, KeptList.{is_same}, Sharp.{sharp_by}};
ghost use Rattle.cs_rows.specs.IndexReading.{division, OnlyReads, WhereStood};
ghost use Rattle.cs_engine.specs.Finding.{CanFind, FitsFound, IsFoundAnew, IsFoundOver};
ghost use Rattle.cs_engine.specs.HeldRanges.{AreHeldOver, FitsRange};
ghost use Rattle.cs_engine.specs.Keeping.{HoldsGood, IsPlanned};
ghost use Rattle.cs_base.specs.declared.content.scores.TheConstants.{MAX_ROW_SCORE};
ghost use Rattle.cs_file.specs.Indexes.{IndexView};
ghost use Rattle.cs_rows.specs.KnownHits.{AreHitsOfWords};
ghost use Rattle.cs_rows.specs.Sources.{IsSource, seen};
ghost use Rattle.cs_rows.specs.Steps.{IsBaseOf};
ghost use Rattle.cs_rows.specs.Stocked.{Stock, corpus_in};

use crate::find_kept::{hits_before_last, narrowed};
use crate::find_parts::find_last;
use crate::find_range::{find_range, wide_words};
use crate::finding::{QueryFound, QueryOver, found_in, found_with};
use crate::held::Holder;
use cs_base::{Keys, Part, Plan, Store};
use cs_cache::Answers;
use cs_file::FetchFault;
use cs_rows::{KnownHits, Source, first_entry, hits_of_parts, words_of_part};

/// What is found of a query by a plan of what is kept. Where nothing that is kept serves, and the query asks for a wide range of words
/// alone, it is found by the range, which is taken out of what is held. A last part that asks for one range of words goes on from blocks that are held,
/// and of a first part that does, hits that are held are taken.
pub(crate) fn find_by<I: Source, S: Store>(
    over: QueryOver<'_, I>,
    answers: &Answers,
    store: &mut S,
    keys: &Keys,
    plan: Plan,
    held: &mut Holder,
) -> Result<QueryFound, FetchFault>
    requires planned { IsPlanned (seen (I.view over.index.now)) answers.now.entries over.query.now keys.now plan }
    requires held { All (FitsRange (seen (I.view over.index.now))) held.old }
    requires over { CanFind (S.bytes store.old) (I.view over.index.now) over.query.now }

    ensures told { WhereStood (S.bytes store.old) (I.view over.entry.index.now).index
        (λ b. AreHeldOver ((I.view over.entry.index.now).stock b) held.old → HoldsGood (corpus_in ((I.view over.entry.index.now).stock b))
        (seen (I.view over.entry.index.now)) answers.now.entries
        → IfOk result (IsFoundOver b (I.view over.entry.index.now) over.entry.query.now over.entry.cut plan)) }
    ensures fits { IfOk result (FitsFound (seen (I.view over.entry.index.now)) over.entry.query.now) }
    ensures had { IfOk result (λ f. is_same plan ≡ true → is_some f.own ≡ false) }
    ensures held { All (FitsRange (seen (I.view over.entry.index.now))) held.new }
    ensures good { WhereStood (S.bytes store.old) (I.view over.entry.index.now).index
        (λ b. AreHeldOver ((I.view over.entry.index.now).stock b) held.old → AreHeldOver ((I.view over.entry.index.now).stock b) held.new) }
    ensures store { OnlyReads S.bytes S.lent S.faults (I.view over.entry.index.now).index store.old store.new result }
    ensures reads { ReadsWithin (met_by (division (I.view over.entry.index.now).index) over.entry.query.now plan) (S.reads store.old) (S.reads store.new) }
    ensures sharp { WhereStood (S.bytes store.old) (I.view over.entry.index.now).index
        (λ b. HoldsGood (corpus_in ((I.view over.entry.index.now).stock b)) (seen (I.view over.entry.index.now)) answers.now.entries
        → ReadsWithin (sharp_by (division (I.view over.entry.index.now).index) (corpus_in ((I.view over.entry.index.now).stock b)) over.entry.query.now plan)
        (S.reads store.old) (S.reads store.new)) }
{
    match plan {
        Plan::Same => {
            let view = answers.view(keys, plan);
            let (hits, table) = found_in(over, view.base, view.rows)?;
            Ok(QueryFound {
                hits,
                table,
                own: None,
                range: None,
            })
        }
        Plan::Narrow { .. } => {
            let view = answers.view(keys, plan);
            let entry = narrowed(over.alloc, over.index, over.query, view.base, view.rows)?;
            let found = found_with(over, entry)?;
            Ok(found)
        }
        Plan::Extend => {
            let view = answers.view(keys, plan);
            let hits = hits_before_last(over.alloc, over.query, view.base, view.rows)?;
            let found = find_last(over, store, hits, held)?;
            Ok(found)
        }
        Plan::Fresh => {
            let found = find_fresh(over, store, held)?;
            Ok(found)
        }
    }
}

// What is found by all parts.
fn find_fresh<I: Source, S: Store>(
    over: QueryOver<'_, I>,
    store: &mut S,
    held: &mut Holder,
) -> Result<QueryFound, FetchFault>
    requires held { All (FitsRange (seen (I.view over.index.now))) held.old }
    requires over { CanFind (S.bytes store.old) (I.view over.index.now) over.query.now }

    ensures told { WhereStood (S.bytes store.old) (I.view over.entry.index.now).index
        (λ b. AreHeldOver ((I.view over.entry.index.now).stock b) held.old
        → IfOk result (IsFoundAnew b (I.view over.entry.index.now) over.entry.query.now over.entry.cut)) }
    ensures fits { IfOk result (FitsFound (seen (I.view over.entry.index.now)) over.entry.query.now) }
    ensures held { All (FitsRange (seen (I.view over.entry.index.now))) held.new }
    ensures good { WhereStood (S.bytes store.old) (I.view over.entry.index.now).index
        (λ b. AreHeldOver ((I.view over.entry.index.now).stock b) held.old → AreHeldOver ((I.view over.entry.index.now).stock b) held.new) }
    ensures store { OnlyReads S.bytes S.lent S.faults (I.view over.entry.index.now).index store.old store.new result }
    ensures reads { ReadsWithin (met_of_query (division (I.view over.entry.index.now).index) over.entry.query.now) (S.reads store.old) (S.reads store.new) }
{
    let parts = over.query.parts.as_slice();
    if parts.is_empty() {
        let entry = first_entry(over.alloc);
        let found = found_with(over, entry)?;
        return Ok(found);
    }
    if let Some(words) = wide_words(over.index, held, parts) {
        let found = find_range(over, store, words, held)?;
        return Ok(found);
    }
    let known = known_hits(over.index, held, parts);
    let before_last = &parts[..parts.len() - 1];
    let hits = hits_of_parts(over.alloc, over.index, store, known, before_last)?;
    let found = find_last(over, store, hits, held)?;
    Ok(found)
}

// The hits that are held of the words that the first part asks for.
fn known_hits<'a, I: Source>(index: &I, held: &'a Holder, parts: &[Part]) -> Option<KnownHits<'a>>
    requires { IsSource (I.view index.now) }

    ensures fits { (i : IndexView) → All (FitsRange i) held.now → IfSome result (λ k. IsBaseOf i.docs MAX_ROW_SCORE k.hits.now) }
    ensures over { (s : Stock) → AreHeldOver s held.now → IfSome result (AreHitsOfWords s) }
{
    let part = parts.first()?;
    let words = words_of_part(index, part)?;
    held.hits_of(words)
}
