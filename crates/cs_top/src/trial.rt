//! `trial N`: what is typed over the collection of a number is asked, and what came of it is told.
ghost use Rattle.std.specs.Prelude.{◌≡◌, ◌≤◌, ◌+◌, ◌++◌, ◌∷◌, ◌^◌, [], ℕ, List, All, IfOk, None, OnOk, Some, length, map, true};
ghost use Rattle.cs_base.specs.declared.content.{limits.TheConstants.{MAX_TRIAL, MAX_TRIAL_DIGITS}, query.Query.{Query}};
ghost use Rattle.cs_file.specs.Indexes.{HasAllBlocks, StandsFor};
ghost use Rattle.cs_model.specs.{Collection.{weights}, Corpus.{corpus, refusal}, Parameters.{HoldsLimits}};
ghost use Rattle.cs_model_trial.specs.Summary.{IsSummary};
ghost use Rattle.cs_query.specs.RequestView.{asked};
ghost use Rattle.cs_indexing.specs.CommandLine.{CausedBy, is_number};
ghost use Rattle.cs_indexing.specs.Filed.{HasFile, IsFiled, HasSizes};
ghost use Rattle.cs_indexing.specs.Met.{wrote};
ghost use Rattle.cs_indexing.specs.Views.{ended};
ghost use Rattle.cs_top.specs.Trial.{AreFew, HasAsked, IsSteady, TrialEnds, sizes_of, with_one_reply};
ghost use Rattle.cs_trial.specs.declared.counts.TrialCounts.{TrialCounts};

use crate::opening::open_image;
use cs_base::{MemStore, Memory, Plan, Sink};
use cs_engine::{AskFault, Engine, Note};
use cs_indexing::{Imaged, RunStop, image_of_collection, trial_of, want_of};
use cs_query::{Reply, Request};
use cs_trial::{TrialCounts, collection, requests, summary_bytes};
use std::alloc::Global;

/// Puts the summary of a trial.
pub(crate) fn trial<'a, O: Sink>(
    alloc: Global,
    number: &str,
    out: &mut O,
) -> Result<(), RunStop<'a>>
    requires { is_number MAX_TRIAL_DIGITS MAX_TRIAL number.now ≡ true }

    ensures ends { TrialEnds (ended result) number.now (wrote O.Sink out.old out.new) }
    ensures caused { CausedBy (ended result) (O.faults out.old) (O.faults out.new) }
{
    let summary = summary_of(alloc, trial_of(number))?;
    out.put(&summary)?;
    Ok(())
}

// The text of the summary of trial `n`.
fn summary_of(alloc: Global, n: u32) -> Result<Vec<u8>, Memory>
    requires some { 1 ≤ n }
    requires most { n ≤ MAX_TRIAL }

    ensures { IfOk result (λ b. IsSummary n b.items) }
{
    let requests = requests(alloc, n)?;
    let bytes = collection(alloc, n)?;
    let Imaged {
        image,
        documents,
        rows,
    } = imaged(alloc, &bytes)?;
    let mut counts = sizes(documents, rows, image.heads.len());
    let (mut engine, mut store) = open_image(alloc, image, bytes)?;
    ask_all(alloc, &mut engine, &mut store, &requests, &mut counts)?;
    summary_bytes(alloc, &counts)
}

// The image of a collection that is accepted: nothing but want of memory keeps it from being made.
fn imaged(alloc: Global, bytes: &[u8]) -> Result<Imaged, Memory>
    requires accepted { refusal bytes.now ≡ None }

    ensures ok { IfOk result (λ i. IsFiled (corpus bytes.now) (weights bytes.now) i.image) }
    ensures file { IfOk result (λ i. HasFile i.image) }
    ensures sizes { IfOk result (λ i. HasSizes (corpus bytes.now) i.documents i.rows) }
{
    match image_of_collection(alloc, bytes) {
        Ok(imaged) => Ok(imaged),
        Err(fault) => Err(want_of(fault)),
    }
}

// What is counted before anything is asked.
fn sizes(documents: usize, rows: usize, blocks: usize) -> TrialCounts
    ensures { result ≡ record { documents = documents; rows = rows; blocks = blocks; replies = 0; hits = 0; same = 0; narrow = 0; extend = 0; fresh = 0 } }
{
    TrialCounts {
        documents: documents as u64,
        rows: rows as u64,
        blocks: blocks as u64,
        replies: 0,
        hits: 0,
        same: 0,
        narrow: 0,
        extend: 0,
        fresh: 0,
    }
}

// Asks one request after the other, and counts the replies.
fn ask_all(
    alloc: Global,
    engine: &mut Engine,
    store: &mut MemStore,
    requests: &[Request],
    counts: &mut TrialCounts,
) -> Result<(), Memory>
    requires limits { All (λ r. HoldsLimits (asked r)) requests.now }
    requires stands { StandsFor store.old.bytes engine.old.index }
    requires fits { HasAllBlocks (Some store.old.bytes) engine.old.index }
    requires few { length requests.now ≤ 2 ^ 16 }
    requires none { AreFew 0 counts.old }

    ensures asked { HasAsked store.old.bytes [] engine.old counts.old → OnOk result (HasAsked store.old.bytes (map (λ r. r.query) requests.now) engine.new counts.new) }
    ensures sizes { OnOk result (sizes_of counts.new ≡ sizes_of counts.old) }
{
    for request in requests {
        ask_one(alloc, engine, store, request, counts)?;
    }
    Ok(())
}

// Asks a request, and counts its reply.
fn ask_one(
    alloc: Global,
    engine: &mut Engine,
    store: &mut MemStore,
    request: &Request,
    counts: &mut TrialCounts,
) -> Result<(), Memory>
    requires limits { HoldsLimits (asked request.now) }
    requires stands { StandsFor store.old.bytes engine.old.index }
    requires fits { HasAllBlocks (Some store.old.bytes) engine.old.index }
    requires few { AreFew (2 ^ 16) counts.old }

    ensures asked { (qs : List Query) → HasAsked store.old.bytes qs engine.old counts.old → OnOk result (HasAsked store.new.bytes (qs ++ request.now.query ∷ []) engine.new counts.new) }
    ensures few { (n : ℕ) → AreFew n counts.old → OnOk result (AreFew (n + 1) counts.new) }
    ensures sizes { OnOk result (sizes_of counts.new ≡ sizes_of counts.old) }
    ensures steady { IsSteady store.old.bytes store.new.bytes engine.old engine.new }
{
    let (reply, note) = answer(alloc, engine, store, request)?;
    count(counts, note.plan, reply.total_hits);
    Ok(())
}

// The reply to a request, and how it was answered. A store in memory is never read in vain.
fn answer(
    alloc: Global,
    engine: &mut Engine,
    store: &mut MemStore,
    request: &Request,
) -> Result<(Reply, Note), Memory>
    requires limits { HoldsLimits (asked request.now) }
    requires stands { StandsFor store.old.bytes engine.old.index }
    requires fits { HasAllBlocks (Some store.old.bytes) engine.old.index }

    ensures asked { (qs : List Query) → (c : TrialCounts) → HasAsked store.old.bytes qs engine.old c → IfOk result (λ r. HasAsked store.new.bytes (qs ++ request.now.query ∷ []) engine.new (with_one_reply r.1.plan r.0.total_hits c)) }
    ensures steady { IsSteady store.old.bytes store.new.bytes engine.old engine.new }
{
    match engine.ask(alloc, store, request) {
        Ok(answer) => Ok(answer),
        Err(AskFault::Memory) => Err(Memory),
        Err(AskFault::Read | AskFault::Changed { .. }) => unreachable!(),
    }
}

// Counts a reply.
fn count(counts: &mut TrialCounts, plan: Plan, hits: u32)
    requires { AreFew (2 ^ 16) counts.old }

    ensures { counts.new ≡ with_one_reply plan hits counts.old }
{
    counts.replies += 1;
    counts.hits += u64::from(hits);
    match plan {
        Plan::Same => counts.same += 1,
        Plan::Narrow { .. } => counts.narrow += 1,
        Plan::Extend => counts.extend += 1,
        Plan::Fresh => counts.fresh += 1,
    }
}
