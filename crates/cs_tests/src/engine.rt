//! What no clause says: that an engine answers where there is memory, and goes on from what it kept.
ghost use Rattle.std.specs.Prelude.{◌≡◌, ◌≤◌, IfOk, Some};
ghost use Rattle.cs_file.specs.Indexes.{HasAllBlocks};

use crate::runs::same;
use cs_base::{Kept, MemStore, Plan, Store};
use cs_engine::{Engine, Note};
use cs_file::open_index;
use cs_query::{HitShown, Reply, Request, parse};
use cs_worked::ONE_DOCUMENT;
use std::alloc::Global;
use std::process::Abort;
use std::test::Fail;

/// An engine over the index file in a store, with room for four answers.
pub(crate) fn engine_over<S: Store>(alloc: Global, store: &mut S) -> Result<Engine, Fail>
    ensures fits { IfOk result (λ e. HasAllBlocks (S.bytes store.new) e.index) }
{
    engine_keeping(alloc, store, 4)
}

/// An engine over the index file in a store, with room for so many answers.
pub(crate) fn engine_keeping<S: Store>(
    alloc: Global,
    store: &mut S,
    capacity: usize,
) -> Result<Engine, Fail>
    requires some { 1 ≤ capacity }
    requires limit { capacity ≤ 256 }

    ensures fits { IfOk result (λ e. HasAllBlocks (S.bytes store.new) e.index) }
{
    let Ok(index) = open_index(alloc, store) else {
        return Err(Fail::new("no index"));
    };
    Ok(Engine::new(alloc, index, capacity)?)
}

// The reply to a query, without facets.
fn answer(
    alloc: Global,
    engine: &mut Engine,
    store: &mut MemStore,
    text: &str,
) -> Result<(Reply, Note), Fail>
    requires fits { HasAllBlocks (Some store.old.bytes) engine.old.index }

    ensures bytes { store.new.bytes ≡ store.old.bytes }
    ensures index { engine.new.index ≡ engine.old.index }
{
    let Ok(query) = parse(alloc, text) else {
        return Err(Fail::new("no query"));
    };
    let request = Request::by_default(alloc, query);
    match engine.ask(alloc, store, &request) {
        Ok(answered) => Ok(answered),
        Err(_) => Err(Fail::new("no reply")),
    }
}

// A query, its plan, what became of its entry, how many words and hits there are, and the score of each hit.
type Asked = (&'static str, Plan, Kept, u32, u32, u32);

const ASKED: &[Asked] = &[
    ("a", Plan::Fresh, Kept::Kept, 2, 1, 4),
    ("ab", Plan::Narrow { cut: 1 }, Kept::Kept, 1, 1, 4),
    ("ab b", Plan::Extend, Kept::Kept, 1, 1, 5),
    ("ab b", Plan::Same, Kept::Had, 1, 1, 5),
    ("ab -a", Plan::Extend, Kept::Kept, 0, 0, 0),
];

#[test]
fn each_request_goes_on_from_those_before(rt: HostRuntime) -> Result<(), Fail> {
    let alloc = rt.alloc();
    let mut store = MemStore::new(ONE_DOCUMENT.file.to_vec(alloc)?);
    let mut engine = engine_over(alloc, &mut store)?;
    for (text, plan, kept, words, hits, score) in ASKED {
        let (reply, note) = answer(alloc, &mut engine, &mut store, text)?;
        let found = (
            note.plan,
            note.kept,
            reply.total_completions,
            reply.total_hits,
        );
        same(&rt, &found, &(*plan, *kept, *words, *hits), *text);
        same(&rt, &reply.hits.len(), &(*hits as usize), *text);
        are_hits(&rt, reply.hits.as_slice(), *score, text);
    }
    Ok(())
}

// That each hit is the one document, with this score.
fn are_hits(rt: &impl Abort, hits: &[HitShown], score: u32, row: &str) {
    for hit in hits {
        let found = (hit.doc, hit.score, hit.title.as_str());
        same(rt, &found, &(0, score, "Ab"), row);
    }
}
