//! Requests as they are written in a target or a script line.
ghost use Rattle.std.specs.Prelude.{◌≡◌, None, IfOk, IfErr, OnOk};
ghost use Rattle.std.specs.Str.{chars};
ghost use Rattle.cs_model.specs.FirstRefusal.{first_refusal};
ghost use Rattle.cs_model.specs.Grammar.{query_of};
ghost use Rattle.cs_model.specs.Parameters.{asked_text, request_of, request_refusal, HoldsLimits};
ghost use Rattle.cs_model.specs.Refusals.{IsOfGrammar};
ghost use Rattle.cs_query.specs.RequestView.{asked};
ghost use Rattle.cs_http.specs.Refusing.{IsCause, IsQueryCause};

use crate::counts::count;
use crate::facets::facets;
use crate::first::parameter;
use cs_base::{DEFAULT_COMPLETIONS, DEFAULT_HITS, MAX_OFFSET, MAX_SHOWN, Query};
use cs_query::{Param, QueryFault, ReqFault, Request, parse};
use std::alloc::Global;

/// The request of a string of parameters, as in `q=typ&h=20`.
///
/// Names, values and escapes are those of the URL Standard (application/x-www-form-urlencoded). The first of each name
/// counts, and unknown names are ignored. Refusals come in the order h, c, o, f, q; `docs/HTTP.md` has the parameters.
pub fn request(alloc: Global, params: &[u8]) -> Result<Request, ReqFault>
    ensures ok { IfOk result (λ r. asked r ≡ request_of params.now) }
    ensures accepted { OnOk result (request_refusal params.now ≡ None) }
    ensures limits { IfOk result (λ r. HoldsLimits (asked r)) }

    // Each fault but want of memory is the first refusal.
    ensures err { IfErr result (λ e. IsCause params.now e) }
{
    let hits = count(alloc, params, Param::H, DEFAULT_HITS, MAX_SHOWN)?;
    let completions = count(alloc, params, Param::C, DEFAULT_COMPLETIONS, MAX_SHOWN)?;
    let offset = count(alloc, params, Param::O, 0, MAX_OFFSET)?;
    let facets = facets(alloc, params)?;
    let query = query(alloc, params)?;
    Ok(Request {
        query,
        hits,
        completions,
        offset,
        facets,
    })
}

// The query of the parameter `q`.
fn query(alloc: Global, params: &[u8]) -> Result<Query, ReqFault>
    ensures ok { IfOk result (λ q. q ≡ query_of (chars (asked_text params.now))) }
    ensures accepted { OnOk result (first_refusal (chars (asked_text params.now)) ≡ None) }
    ensures grammar { IfOk result IsOfGrammar }
    ensures err { IfErr result (λ e. IsQueryCause (first_refusal (chars (asked_text params.now))) e) }
{
    let text = parameter(alloc, params, "q")?;
    let text = text.unwrap_or(String::new(alloc));
    match parse(alloc, text.as_str()) {
        Ok(query) => Ok(query),
        Err(QueryFault::Bad { at }) => Err(ReqFault::Bad { at }),
        Err(QueryFault::Limit { at, which }) => Err(ReqFault::Limit { at, which }),
        Err(QueryFault::Memory) => Err(ReqFault::Memory),
    }
}
