//! What the texts of a trial ask.
ghost use Rattle.std.specs.Prelude.{◌≡◌, ◌≤◌, All, IfOk, map};
ghost use Rattle.cs_base.specs.declared.content.limits.TheConstants.{MAX_TRIAL};
ghost use Rattle.cs_model.specs.Parameters.{HoldsLimits};
ghost use Rattle.cs_model_trial.specs.Sessions.{plain_request};
ghost use Rattle.cs_model_trial.specs.Sessions.{texts as all_texts};
ghost use Rattle.cs_query.specs.RequestView.{asked};
ghost use Rattle.cs_trial.specs.Typed.{IsTyped};

use crate::typing::texts;
use cs_base::{Memory, Text};
use cs_query::{QueryFault, Request, parse};
use std::alloc::Global;

/// The requests of trial `n`, in the order in which they are asked, with the defaults and without facets.
pub fn requests(alloc: Global, n: u32) -> Result<Vec<Request>, Memory>
    requires some { 1 ≤ n }
    requires most { n ≤ MAX_TRIAL }

    ensures asked { IfOk result (λ v. map asked v.items ≡ map plain_request (all_texts n)) }
    ensures limits { IfOk result (λ v. All (λ r. HoldsLimits (asked r)) v.items) }
{
    let typed = texts(alloc, n)?;
    let mut requests = Vec::with_capacity(alloc, typed.len())?;
    for text in typed.as_slice() {
        requests.push(plain_request(alloc, text)?)?;
    }
    Ok(requests)
}

// What a text that is typed asks. None is refused.
fn plain_request(alloc: Global, text: &Text) -> Result<Request, Memory>
    requires { IsTyped text.now }

    ensures asked { IfOk result (λ r. asked r ≡ plain_request text.now) }
    ensures limits { IfOk result (λ r. HoldsLimits (asked r)) }
{
    let query = match parse(alloc, text.as_str()) {
        Ok(query) => query,
        Err(QueryFault::Memory) => return Err(Memory),
        Err(QueryFault::Bad { .. }) => unreachable!(),
        Err(QueryFault::Limit { .. }) => unreachable!(),
    };
    Ok(Request::by_default(alloc, query))
}
