//! What comes of parameters, for whatever is made of it: a response, or the text of a line.
ghost use Rattle.std.specs.Prelude.{◌≡◌};
ghost use Rattle.std.specs.Option.{ForSome};
ghost use Rattle.cs_engine.specs.Keeping.{AreGood};
ghost use Rattle.cs_file.specs.Indexes.{CausedReads, HasAllBlocks, StandsFor};
ghost use Rattle.cs_model.specs.Corpus.{Corpus};
ghost use Rattle.cs_model_index.specs.Sections.{file_corpus};
ghost use Rattle.cs_hub.specs.Asked.{EngineLeaves, LeavesIndex, StaysAnswering, standing};
ghost use Rattle.cs_hub.specs.Outcomes.{ComesOf, IsOutcome, IsRefusal, IsRightOutcome, TellsChange, fails_read};

use crate::answering::Answerer;
use crate::asking::Asking;
use cs_base::Store;
use cs_engine::{AskFault, Engine};
use cs_http::request;
use cs_query::{Reply, ReqFault, Request};
use std::alloc::Global;

/// What comes of parameters.
#[derive(Drop)]
pub enum RequestOutcome {
    /// They are refused so, which is no want of memory.
    Refused(ReqFault),
    /// They ask this request, and this is its reply.
    Replied(Request, Reply),
    /// A read of the index failed.
    Read,
    /// The index isn't what it was at opening.
    Changed {
        /// The first rule that its bytes break.
        rule: u8,
        /// The place at which they break it, in bytes from the file's first.
        at: u64,
    },
    /// Memory ran out.
    Memory,
}

/// Asks an engine what parameters ask, over the store from which its index was opened, and tells what came of them.
pub fn outcome_over<S: Store>(
    alloc: Global,
    engine: &mut Engine,
    store: &mut S,
    params: &[u8],
) -> RequestOutcome
    requires fits { HasAllBlocks (S.bytes store.old) engine.old.index }

    // Over bytes that stand for the index, where what is kept is good: a reply is right, no change comes, and what is kept stays good.
    ensures right { ForSome (S.bytes store.old) (λ b. StandsFor b engine.old.index → AreGood b engine.old
        → IsRightOutcome (file_corpus b) params.now result) }
    ensures good { ForSome (S.bytes store.old) (λ b. StandsFor b engine.old.index → AreGood b engine.old → AreGood b engine.new) }

    // Over each store: what may come of these parameters, what was asked for it, and why it came.
    ensures outcome { IsOutcome params.now result }
    ensures comes { ComesOf EngineLeaves params.now (standing (S.bytes store.old) engine.old (S.reads store.old) (S.faults store.old)) result
        (standing (S.bytes store.new) engine.new (S.reads store.new) (S.faults store.new)) }
    ensures caused { CausedReads (fails_read result) (S.faults store.old) (S.faults store.new) }
    ensures changed { TellsChange engine.old.index (S.bytes store.old) result }
    ensures leaves { LeavesIndex S.bytes S.lent S.faults engine.old engine.new store.old store.new }
{
    let mut asking = Asking::new(engine, store);
    outcome_of(alloc, &mut asking, params)
}

/// The same of whatever answers requests.
pub fn outcome_of<A: Answerer>(alloc: Global, answerer: &mut A, params: &[u8]) -> RequestOutcome
    ensures comes { ComesOf A.leaves params.now (A.kept answerer.old) result (A.kept answerer.new) }
    ensures right { (k : Corpus) → A.answers answerer.old k → IsRightOutcome k params.now result }
    ensures caused { CausedReads (fails_read result) (A.faults answerer.old) (A.faults answerer.new) }
    ensures stays { StaysAnswering A.answers A.lent A.faults answerer.old answerer.new }
{
    match request(alloc, params) {
        Ok(request) => match answerer.reply(alloc, &request) {
            Ok(reply) => RequestOutcome::Replied(request, reply),
            Err(AskFault::Read) => RequestOutcome::Read,
            Err(AskFault::Changed { rule, at }) => RequestOutcome::Changed { rule, at },
            Err(AskFault::Memory) => RequestOutcome::Memory,
        },
        Err(fault) => refused(fault),
    }
}

// Parameters that are refused so, or for want of memory not read.
fn refused(fault: ReqFault) -> RequestOutcome
    ensures { IsRefusal fault result }
{
    if matches!(fault, ReqFault::Memory) {
        return RequestOutcome::Memory;
    }
    RequestOutcome::Refused(fault)
}
