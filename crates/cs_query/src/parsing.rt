//! Reads a query's text from left to right.
ghost use Rattle.std.specs.Prelude.{◌≡◌, ℕ, List, [], Err, IfOk, reverse};
ghost use Rattle.std.specs.Str.{chars};
ghost use Rattle.cs_model.specs.Tokens.{Token};
ghost use Rattle.cs_base.specs.declared.content.query.Which.{Which as WhichValue};
ghost use Rattle.cs_model.specs.Grammar.{all_closed, query_of, query_of_tokens};
ghost use Rattle.cs_model.specs.KeyText.{norm};
ghost use Rattle.cs_model.specs.Refusals.{Bad, Limit, IsAccepted, IsOfGrammar, IsRefused};
ghost use Rattle.cs_query.specs.Following.{IsAnswerTo, StandsBehind, StandsBehindAll, fault_at, held};

use crate::attaching::close_level;
use crate::fault::{QueryFault, Stop};
use crate::reader::{Gathered, Reader, Tail};
use crate::steps::step;
use crate::tails::settle;
use cs_base::{MAX_QUERY_BYTES, Memory, Part, Query, Seq};
use cs_model::Level;
use cs_text::norm;
use std::alloc::Global;

/// The query of a text, read from the text's key text. Places count bytes of the key text.
///
/// The grammar, its refusals and its limits are described in `docs/QUERY.md`.
pub fn parse(alloc: Global, s: &str) -> Result<Query, QueryFault>
    ensures ok { IfOk result (λ q. IsAccepted (chars (norm s.now)) × (q ≡ query_of (chars (norm s.now)))) }
    ensures grammar { IfOk result IsOfGrammar }

    // The first refused character, and why.
    ensures bad { (at : ℕ) → result ≡ Err (QueryFault.Bad at) → IsRefused (chars (norm s.now)) at Bad }
    ensures limit { (at : ℕ) (which : WhichValue) → result ≡ Err (QueryFault.Limit at which) → IsRefused (chars (norm s.now)) at (Limit which) }
{
    let key = match norm(alloc, s) {
        Ok(key) => key,
        Err(_) => return Err(QueryFault::Memory),
    };
    read(alloc, key.as_str())
}

/// The query of a key text, or its first refused character.
fn read(alloc: Global, key: &str) -> Result<Query, QueryFault>
    ensures { IsAnswerTo (chars key.now) result }
{
    let mut reader = start(alloc);
    let mut at: u32 = 0;
    for c in key.chars() {
        reader = match step(alloc, reader, c) {
            Ok(next) => next,
            Err(stop) => return Err(fault_at(at, stop)),
        };
        at += c.len_utf8() as u32;
    }
    let ended = finish(alloc, reader);
    match ended {
        Ok(query) => Ok(query),
        Err(_) => Err(QueryFault::Memory),
    }
}

/// The reader of no text.
fn start(alloc: Global) -> Reader
    ensures { StandsBehindAll [] result }
{
    Reader {
        tail: Tail::Start,
        gathered: Gathered {
            parts: Seq::new(alloc),
            open_now: Seq::new(alloc),
            begun: 0,
            atoms: 0,
            room: MAX_QUERY_BYTES,
        },
    }
}

fn fault_at(at: u32, stop: Stop) -> QueryFault
    ensures { result ≡ fault_at at stop }
{
    match stop {
        Stop::Bad => QueryFault::Bad { at },
        Stop::Limit(which) => QueryFault::Limit { at, which },
        Stop::Memory => QueryFault::Memory,
    }
}

/// The query of what was read.
fn finish(alloc: Global, reader: Reader) -> Result<Query, Memory>
    ensures { IfOk result (λ q. (rest : List Token) → StandsBehind rest reader → q ≡ query_of_tokens (held reader.tail rest)) }
{
    let gathered = settle(alloc, reader.tail, reader.gathered)?;
    let parts = close_all(alloc, gathered.parts, gathered.open_now)?;
    Ok(Query { parts })
}

/// Each bracket that is open is closed.
#[tactic(auto, using(crate::proofs::Lasts::reverse_push))]
fn close_all(
    alloc: Global,
    mut parts: Seq<Part>,
    mut open_now: Seq<Level>,
) -> Result<Seq<Part>, Memory>
    ensures { IfOk result (λ ps. ps ≡ all_closed parts (reverse open_now)) }
{
    while let Some(level) = open_now.pop() {
        parts = close_level(alloc, level, parts)?;
    }
    Ok(parts)
}
