//! The texts of faults.
ghost use Rattle.std.specs.Prelude.{◌≡◌, IfOk, false};
ghost use Rattle.serde_json.specs.View.{view};
ghost use Rattle.serde_json.specs.Written.{compact_text, has_float};
ghost use Rattle.cs_model.specs.Faults.{limit_word};
ghost use Rattle.cs_json.specs.FaultTexts.{refused_text, fault_text};

use cs_base::Memory;
use cs_query::{ReqFault, Which};
use serde_json::{Value, json};
use std::alloc::{AllocError, Global};

/// Why a request has no reply.
#[derive(Clone, Copy, Debug, PartialEq, Eq)]
pub enum Fault {
    /// The parameters are no request, or there was no memory to read or to answer them.
    Refused(ReqFault),
    /// The index file couldn't be read.
    Read,
    /// The index file isn't what it was when it was opened.
    Changed {
        /// The number of the first broken rule of the index file.
        rule: u8,
        /// Its place in the file, in bytes.
        at: u64,
    },
    /// The bytes are no request head.
    NotHead,
    /// The head announces a body.
    Body,
    /// The head is too long.
    TooLong,
    /// The target's path isn't the search.
    Path,
    /// The method isn't GET.
    Method,
}

/// The fault as compact JSON, keys in byte order.
pub fn fault_bytes(alloc: Global, f: &Fault) -> Result<Vec<u8>, Memory>
    ensures ok { IfOk result (λ v. v.items ≡ fault_text f.now) }
{
    let value = fault_value(alloc, f)?;
    let bytes = value.to_vec(alloc)?;
    Ok(bytes)
}

#[tactic(auto, unfolding(crate::specs::FaultTexts::fault_text, cs_model::specs::Faults::error_text, cs_model::specs::Faults::changed_text))]
fn fault_value(alloc: Global, fault: &Fault) -> Result<Value, AllocError>
    ensures text { IfOk result (λ v. compact_text (view v) ≡ fault_text fault.now) }
    ensures no_float { IfOk result (λ v. has_float (view v) ≡ false) }
{
    match fault {
        Fault::Refused(refusal) => refusal_value(alloc, refusal),
        Fault::Changed { rule, at } =>
            json!(in alloc; {"at": (*at), "error": "changed", "rule": (*rule)}),
        Fault::Read => json!(in alloc; {"error": "read"}),
        Fault::NotHead => json!(in alloc; {"error": "head"}),
        Fault::Body => json!(in alloc; {"error": "body"}),
        Fault::TooLong => json!(in alloc; {"error": "head too long"}),
        Fault::Path => json!(in alloc; {"error": "path"}),
        Fault::Method => json!(in alloc; {"error": "method"}),
    }
}

#[tactic(auto, unfolding(cs_model::specs::Faults::error_text, cs_model::specs::Faults::bad_text, cs_model::specs::Faults::limit_text, cs_model::specs::Faults::param_text))]
fn refusal_value(alloc: Global, refusal: &ReqFault) -> Result<Value, AllocError>
    ensures text { IfOk result (λ v. compact_text (view v) ≡ refused_text refusal.now) }
    ensures no_float { IfOk result (λ v. has_float (view v) ≡ false) }
{
    match refusal {
        ReqFault::BadParam { which } =>
            json!(in alloc; {"error": "param", "param": (which.name())}),
        ReqFault::Bad { at } => json!(in alloc; {"at": (*at), "error": "bad"}),
        ReqFault::Limit { at, which } => {
            json!(in alloc; {"at": (*at), "error": "limit", "which": (word_of(*which))})
        }
        ReqFault::Memory => json!(in alloc; {"error": "memory"}),
    }
}

fn word_of(which: Which) -> &'static str
    ensures { result.now ≡ limit_word which }
{
    match which {
        Which::Query => "query",
        Which::Word => "word",
        Which::Parts => "parts",
        Which::Atoms => "atoms",
        Which::Depth => "depth",
    }
}
