//! Answering a request over a state.
ghost use Rattle.std.specs.Prelude.{◌≤◌, length, IfOk};
ghost use Rattle.cs_base.specs.outside.Causes.{ReadsWithin};
ghost use Rattle.cs_rows.specs.IndexReading.{division, OnlyReads, WhereStood};
ghost use Rattle.cs_engine.specs.Asking.{filed_titles};
ghost use Rattle.cs_rows.specs.Skipping.{hit_reads};
ghost use Rattle.cs_rows.specs.Sources.{seen};
ghost use Rattle.cs_rows.specs.Stocked.{corpus_in};
ghost use Rattle.cs_engine.specs.Keeping.{AnswersRight, AreGoodFor, FitsIndex, IsHeldBehind, KeepsAnswers, engine_with, note_plan};
ghost use Rattle.cs_file.specs.Indexes.{HasAllBlocks};
ghost use Rattle.cs_model.specs.Parameters.{HoldsLimits};
ghost use Rattle.cs_model_kept.specs.Due.{due};
ghost use Rattle.cs_query.specs.RequestView.{asked};
ghost use Rattle.cs_live.specs.States.{source_now, stock_now};

use crate::source::state_is_source;
use crate::state::State;
use cs_base::Store;
use cs_cache::Answers;
use cs_engine::{Holder, Note, Reply, Request, RequestOver, ask_over};
use cs_file::FetchFault;
use std::alloc::Global;

/// The reply to a request over a state, and how it was answered.
pub(crate) fn ask_state<S: Store>(
    alloc: Global,
    state: &State,
    store: &mut S,
    request: &Request,
    answers: &mut Answers,
    held: &mut Holder,
) -> Result<(Reply, Note), FetchFault>
    requires limits { HoldsLimits (asked request.now) }
    requires fits { HasAllBlocks (S.bytes store.old) state.now.index }
    requires kept { FitsIndex (engine_with (seen (source_now state.now)) answers.old held.old) }

    ensures told { WhereStood (S.bytes store.old) state.now.index
        (λ b. (let s = stock_now state.now b in AreGoodFor (corpus_in s) s (engine_with (seen (source_now state.now)) answers.old held.old)
        → AnswersRight (corpus_in s) s (asked request.now) (engine_with (seen (source_now state.now)) answers.old held.old) result
        (engine_with (seen (source_now state.now)) answers.new held.new))) }
    ensures few { IfOk result (λ r. length r.0.hits ≤ request.now.hits) }
    ensures keeps { KeepsAnswers (seen (source_now state.now)) request.now.query answers.old result answers.new }
    ensures kept { FitsIndex (engine_with (seen (source_now state.now)) answers.new held.new) }
    ensures store { OnlyReads S.bytes S.lent S.faults state.now.index store.old store.new result }
    ensures reads { ReadsWithin
        (due (division state.now.index) (asked request.now) (note_plan request.now.query answers.old)
        (filed_titles state.now.index.docs (asked request.now) result))
        (S.reads store.old) (S.reads store.new) }
    ensures sharp { WhereStood (S.bytes store.old) state.now.index
        (λ b. (let s = stock_now state.now b in AreGoodFor (corpus_in s) s (engine_with (seen (source_now state.now)) answers.old held.old)
        → ReadsWithin (hit_reads (division state.now.index) (corpus_in s) (asked request.now) (note_plan request.now.query answers.old)
        (filed_titles state.now.index.docs (asked request.now) result)) (S.reads store.old) (S.reads store.new))) }
    ensures bounded { IsHeldBehind result held.new }
{
    state_is_source(state);
    let over = RequestOver {
        alloc,
        index: state,
        request,
    };
    ask_over(over, store, answers, held)
}
