//! The response to a head.
ghost use Rattle.std.specs.Prelude.{◌≡◌, ◌≢◌, Some, IfOk, OnErr, is_ok};
ghost use Rattle.cs_http.specs.Judging.{IsSearch};
ghost use Rattle.cs_model_serving.specs.Heads.{judge};
ghost use Rattle.cs_model_serving.specs.Responses.{response_to, too_long};
ghost use Rattle.cs_hub.specs.Asked.{AsksAsSent, StaysAnswering};
ghost use Rattle.cs_hub.specs.DueReads.{IsResponseBy, closes_behind, requests_in};
ghost use Rattle.cs_hub.specs.Responding.{response, IsJudgedSo, WantsMemory, response_for};
ghost use Rattle.cs_hub.specs.Turns.{IsGiven};

use crate::answer::{Answer, Body};
use crate::answering::Answerer;
use crate::outcomes::{RequestOutcome, outcome_of};
use cs_base::Memory;
use cs_http::{HeadFault, head};
use cs_json::{Fault, reply_bytes};
use std::alloc::Global;

/// The response to the bytes of a head, or of what should be one.
pub(crate) fn answer_head<A: Answerer>(
    alloc: Global,
    answerer: &mut A,
    bytes: &[u8],
) -> Result<Answer, Memory>
    ensures ok { IfOk result (λ a. IsGiven (A.answers answerer.old) (λ k. response_to k bytes.now) (response a) (A.faults answerer.old)
        (A.faults answerer.new)) }
    ensures close { IfOk result (λ a. a.close ≡ closes_behind (judge bytes.now)) }
    ensures asked { AsksAsSent A.leaves (is_ok result) (requests_in (judge bytes.now)) (A.kept answerer.old) (A.kept answerer.new)
        (λ xs. IfOk result (λ a. IsResponseBy bytes.now xs (response a))) }
    // a refused head is never told as want of memory
    ensures memory { OnErr result (IsSearch (judge bytes.now)) }
    ensures stays { StaysAnswering A.answers A.lent A.faults answerer.old answerer.new }
{
    match head(alloc, bytes) {
        Ok(asked) => {
            let outcome = outcome_of(alloc, answerer, asked.params.as_slice());
            response_from(alloc, &outcome, asked.close)
        }
        Err(fault) => refuse_head(fault),
    }
}

/// The response where no head ends within the limit.
#[tactic(auto, unfolding(cs_json::specs::FaultTexts::fault_text))]
pub(crate) fn too_long() -> Answer
    ensures { response result ≡ too_long }
{
    Answer {
        status: 431,
        close: true,
        body: Body::Fault(Fault::TooLong),
    }
}

// The response to bytes that aren't answered with a reply. It takes no memory: want of it is told only where it was met before.
#[tactic(auto, unfolding(cs_json::specs::FaultTexts::fault_text))]
fn refuse_head(fault: HeadFault) -> Result<Answer, Memory>
    ensures judged { IfOk result (λ a. IsJudgedSo fault (response a)) }
    ensures told { IfOk result (λ a. fault ≢ HeadFault.Memory) }
    ensures memory { OnErr result (fault ≡ HeadFault.Memory) }
{
    let (status, close, fault) = match fault {
        HeadFault::NotHead => (400, true, Fault::NotHead),
        HeadFault::Body => (400, true, Fault::Body),
        HeadFault::Path { close } => (404, close, Fault::Path),
        HeadFault::Method { close } => (405, close, Fault::Method),
        HeadFault::Memory => return Err(Memory),
    };
    Ok(Answer {
        status,
        close,
        body: Body::Fault(fault),
    })
}

// The response by what came of parameters. Only that of a reply takes memory: want of it is told of another only where it was met
// before.
#[tactic(auto, unfolding(cs_json::specs::FaultTexts::fault_text))]
fn response_from(alloc: Global, outcome: &RequestOutcome, close: bool) -> Result<Answer, Memory>
    ensures ok { IfOk result (λ a. response_for close outcome.now ≡ Some (response a)) }
    ensures close { IfOk result (λ a. a.close ≡ close) }
    ensures memory { OnErr result (WantsMemory outcome.now) }
{
    let (status, body) = match outcome {
        RequestOutcome::Refused(fault) => (400, Body::Fault(Fault::Refused(*fault))),
        RequestOutcome::Replied(_, reply) => (200, Body::Reply(reply_bytes(alloc, reply)?)),
        RequestOutcome::Read => (500, Body::Fault(Fault::Read)),
        RequestOutcome::Changed { rule, at } => {
            let (rule, at) = (*rule, *at);
            (500, Body::Fault(Fault::Changed { rule, at }))
        }
        RequestOutcome::Memory => return Err(Memory),
    };
    Ok(Answer {
        status,
        close,
        body,
    })
}
