//! Answering a request: finding, showing, and what is kept and held behind it.
ghost use Rattle.std.specs.Prelude.{◌≡◌, ◌≤◌, None, false, true, is_some, length, IfOk, MatchOption};
ghost use Rattle.cs_base.specs.outside.Causes.{ReadsWithin};
ghost use Rattle.cs_model.specs.Parameters.{HoldsLimits};
ghost use Rattle.cs_model_kept.specs.{Due.{due}, KeptList.{plan_by, is_same}};
ghost use Rattle.cs_query.specs.RequestView.{asked};
ghost use Rattle.cs_rows.specs.IndexReading.{division, OnlyReads, WhereStood};
ghost use Rattle.cs_engine.specs.Asking.{filed_titles};
ghost use Rattle.cs_engine.specs.HeldRanges.{HoldsMore};
ghost use Rattle.cs_rows.specs.Skipping.{hit_reads};
ghost use Rattle.cs_rows.specs.Sources.{CanRead, seen};
ghost use Rattle.cs_rows.specs.Stocked.{corpus_in};
ghost use Rattle.cs_engine.specs.declared.held.Holding.TheVariants as holding;
ghost use Rattle.cs_engine.specs.Keeping.{AnswersRight, AreGoodFor, FitsIndex, IsHeldBehind, KeepsAnswers, became, engine_with, entries_behind, note_plan, wants_memory};

use crate::find::find_by;
use crate::finding::{CountedWords, QueryOver};
use crate::held::{HeldRange, Holder, Holding};
use crate::note::Note;
use crate::show::{RequestOver, show};
use cs_base::{Base, Kept, Keys, Plan, Store};
use cs_cache::{Answers, Entry};
use cs_file::FetchFault;
use cs_query::{Reply, keys};
use cs_rows::Source;

/// The reply to a request over a source, and how it was answered. It goes on from what is kept and held; blocks are read where that doesn't
/// serve. What is kept and held must be of this source.
///
/// A failed read and a change of the file are told as such, and want of memory too; the same answers are kept then. All that is held of
/// ranges of words is given back where little memory is left before the request, and where memory is wanted.
pub fn ask_over<I: Source, S: Store>(
    over: RequestOver<'_, I>,
    store: &mut S,
    answers: &mut Answers,
    held: &mut Holder,
) -> Result<(Reply, Note), FetchFault>
    requires limits { HoldsLimits (asked over.request.now) }
    requires opened { CanRead (S.bytes store.old) (I.view over.index.now) }
    requires kept { FitsIndex (engine_with (seen (I.view over.index.now)) answers.old held.old) }

    ensures told { WhereStood (S.bytes store.old) (I.view over.entry.index.now).index
        (λ b. (let s = (I.view over.entry.index.now).stock b in AreGoodFor (corpus_in s) s
        (engine_with (seen (I.view over.entry.index.now)) answers.old held.old)
        → AnswersRight (corpus_in s) s (asked over.entry.request.now) (engine_with (seen (I.view over.entry.index.now)) answers.old held.old) result
        (engine_with (seen (I.view over.entry.index.now)) answers.new held.new))) }
    ensures few { IfOk result (λ r. length r.0.hits ≤ over.entry.request.now.hits) }
    ensures keeps { KeepsAnswers (seen (I.view over.entry.index.now)) over.entry.request.now.query answers.old result answers.new }
    ensures kept { FitsIndex (engine_with (seen (I.view over.entry.index.now)) answers.new held.new) }
    ensures store { OnlyReads S.bytes S.lent S.faults (I.view over.entry.index.now).index store.old store.new result }
    ensures reads { ReadsWithin
        (due (division (I.view over.entry.index.now).index) (asked over.entry.request.now) (note_plan over.entry.request.now.query answers.old)
        (filed_titles (I.view over.entry.index.now).index.docs (asked over.entry.request.now) result))
        (S.reads store.old) (S.reads store.new) }
    ensures sharp { WhereStood (S.bytes store.old) (I.view over.entry.index.now).index
        (λ b. (let s = (I.view over.entry.index.now).stock b in AreGoodFor (corpus_in s) s
        (engine_with (seen (I.view over.entry.index.now)) answers.old held.old)
        → ReadsWithin (hit_reads (division (I.view over.entry.index.now).index) (corpus_in s) (asked over.entry.request.now)
        (note_plan over.entry.request.now.query answers.old) (filed_titles (I.view over.entry.index.now).index.docs (asked over.entry.request.now) result)) (S.reads store.old) (S.reads store.new))) }
    ensures bounded { IsHeldBehind result held.new }
{
    let alloc = over.alloc;
    held.let_go_where_short(alloc);
    let answer = noted_reply(over, store, answers, held);
    let wanted = wants_memory(&answer);
    held.give_back(alloc, wanted);
    answer
}

// The same, with everything held also where memory is wanted.
fn noted_reply<I: Source, S: Store>(
    over: RequestOver<'_, I>,
    store: &mut S,
    answers: &mut Answers,
    held: &mut Holder,
) -> Result<(Reply, Note), FetchFault>
    requires limits { HoldsLimits (asked over.request.now) }
    requires opened { CanRead (S.bytes store.old) (I.view over.index.now) }
    requires kept { FitsIndex (engine_with (seen (I.view over.index.now)) answers.old held.old) }

    ensures told { WhereStood (S.bytes store.old) (I.view over.entry.index.now).index
        (λ b. (let s = (I.view over.entry.index.now).stock b in AreGoodFor (corpus_in s) s
        (engine_with (seen (I.view over.entry.index.now)) answers.old held.old)
        → AnswersRight (corpus_in s) s (asked over.entry.request.now) (engine_with (seen (I.view over.entry.index.now)) answers.old held.old) result
        (engine_with (seen (I.view over.entry.index.now)) answers.new held.new))) }
    ensures few { IfOk result (λ r. length r.0.hits ≤ over.entry.request.now.hits) }
    ensures keeps { KeepsAnswers (seen (I.view over.entry.index.now)) over.entry.request.now.query answers.old result answers.new }
    ensures kept { FitsIndex (engine_with (seen (I.view over.entry.index.now)) answers.new held.new) }
    ensures store { OnlyReads S.bytes S.lent S.faults (I.view over.entry.index.now).index store.old store.new result }
    ensures reads { ReadsWithin
        (due (division (I.view over.entry.index.now).index) (asked over.entry.request.now) (note_plan over.entry.request.now.query answers.old)
        (filed_titles (I.view over.entry.index.now).index.docs (asked over.entry.request.now) result))
        (S.reads store.old) (S.reads store.new) }
    ensures sharp { WhereStood (S.bytes store.old) (I.view over.entry.index.now).index
        (λ b. (let s = (I.view over.entry.index.now).stock b in AreGoodFor (corpus_in s) s
        (engine_with (seen (I.view over.entry.index.now)) answers.old held.old)
        → ReadsWithin (hit_reads (division (I.view over.entry.index.now).index) (corpus_in s) (asked over.entry.request.now)
        (note_plan over.entry.request.now.query answers.old) (filed_titles (I.view over.entry.index.now).index.docs (asked over.entry.request.now) result)) (S.reads store.old) (S.reads store.new))) }
{
    let RequestOver {
        alloc,
        index,
        request,
    } = over;
    let query = &request.query;
    let keys = keys(alloc, query)?;
    let plan = answers.look(&keys);
    let cut = request.completions;
    let asks = QueryOver {
        alloc,
        index,
        query,
        cut,
    };
    let found = find_by(asks, answers, store, &keys, plan, held)?;
    let shown = show(over, store, held, &found.hits, &found.table);
    hold_counted(held, found.hits, found.range);
    let reply = shown?;
    let kept = put(answers, keys, plan, found.own);
    Ok((reply, Note { plan, kept }))
}

// Holds the words of a range that were counted, with the hits that have them.
fn hold_counted(held: &mut Holder, hits: Base, range: Option<CountedWords>)
    ensures { MatchOption range (held.new ≡ held.old)
        (λ r. HoldsMore (record { low = r.low; high = r.high; what = holding.Counted hits r.counts }) held.old held.new) }
{
    if let Some(CountedWords { low, high, counts }) = range {
        let what = Holding::Counted { hits, counts };
        held.hold(HeldRange { low, high, what });
    }
}

// What becomes of the query's own entry, behind a reply by a plan. The entry that the plan used comes to the front before.
fn put(answers: &mut Answers, keys: Keys, plan: Plan, entry: Option<Entry>) -> Kept
    requires plan { plan ≡ plan_by answers.old.entries keys }
    requires own { is_same plan ≡ true → is_some entry ≡ false }

    ensures became { result ≡ became plan entry }
    ensures entries { answers.new.entries ≡ entries_behind answers.old keys plan entry }
    ensures capacity { answers.new.capacity ≡ answers.old.capacity }
{
    answers.resume(&keys, plan);
    match entry {
        Some(entry) => answers.keep(keys.same, entry),
        None => not_kept(plan),
    }
}

// What is told of an own entry that isn't there: it was kept before where the plan is Same, and else it is too large.
fn not_kept(plan: Plan) -> Kept
    ensures { result ≡ became plan None }
{
    match plan {
        Plan::Same => Kept::Had,
        Plan::Narrow { .. } | Plan::Extend | Plan::Fresh => Kept::TooLarge,
    }
}

// Whether an answer is a refusal for want of memory.
fn wants_memory(answer: &Result<(Reply, Note), FetchFault>) -> bool
    ensures { result ≡ wants_memory answer.now }
{
    match answer {
        Err(FetchFault::Memory) => true,
        Ok(_) | Err(FetchFault::Changed { .. } | FetchFault::Read) => false,
    }
}
