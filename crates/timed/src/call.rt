//! The calls on columns.
ghost use Rattle.timed.specs.Fit.{IsFit};

use crate::input::{Inputs, made_inputs};
use cs_base::{Base, Memory, Scored, Seq};
use cs_cols::Cols;
use cs_meet::{docs_of, drop_docs, follow, keep_docs, near, unite};
use cs_rank::{score, top};
use cs_tables::{Table, completions};
use std::alloc::Global;

/// How many completions are wanted.
const CUT: u32 = 10;
/// How many hits are wanted at most, behind those that are left out.
const SHOWN: u32 = 100;

// A call with its inputs.
#[derive(Clone, Copy)]
enum Call {
    // The first posts in documents of the others.
    KeepDocs,
    // The other posts behind one of the first.
    Follow,
    // The other posts near one of the first.
    Near,
    // All posts.
    Unite,
    // The documents of the first posts.
    DocsOf,
    // The documents of the other posts without those of the first.
    DropDocs,
    // The words of the first posts.
    Completions,
    // The scores of the first posts' documents.
    Score,
    // The same, over those of the other posts.
    ScoreOver,
    // The best of as many documents as there are first posts: as many as there are other posts, and the last 100 of these.
    Top,
}

/// Runs the call of this name so often on so many posts and others: the sum of what the passes tell, if there is such a
/// call and the posts are fit for it.
pub(crate) fn called(
    alloc: Global,
    name: &str,
    rows: u32,
    other: u32,
    times: u32,
) -> Result<Option<u64>, Memory> {
    let Some(call) = call_named(name) else {
        return Ok(None);
    };
    let Some(inputs) = made_inputs(alloc, rows, other)? else {
        return Ok(None);
    };
    let mut sum: u64 = 0;
    for _ in 0..times {
        sum = sum.wrapping_add(pass(alloc, call, &inputs)?);
    }
    Ok(Some(sum))
}

fn call_named(name: &str) -> Option<Call> {
    match name {
        "keep_docs" => Some(Call::KeepDocs),
        "follow" => Some(Call::Follow),
        "near" => Some(Call::Near),
        "unite" => Some(Call::Unite),
        "docs_of" => Some(Call::DocsOf),
        "drop_docs" => Some(Call::DropDocs),
        "completions" => Some(Call::Completions),
        "score" => Some(Call::Score),
        "score_over" => Some(Call::ScoreOver),
        "top" => Some(Call::Top),
        _ => None,
    }
}

// Runs the call once: a number that depends on its answer.
fn pass(alloc: Global, call: Call, inputs: &Inputs) -> Result<u64, Memory>
    requires { IsFit inputs.now }
{
    let a = &inputs.rows;
    let b = &inputs.other;
    Ok(match call {
        Call::KeepDocs => told(&keep_docs(alloc, a, inputs.docs.as_slice())?),
        Call::Follow => told(&follow(alloc, a, b)?),
        Call::Near => told(&near(alloc, a, b)?),
        Call::Unite => told(&unite(alloc, &inputs.both)?),
        Call::DocsOf => told_docs(docs_of(alloc, a)?.as_slice()),
        Call::DropDocs => told_scored(&drop_docs(alloc, inputs.listed.as_slice(), a)?),
        Call::Completions => told_table(&completions(alloc, a, CUT)?),
        Call::Score => told_scored(&score(alloc, &Base::All, a)?),
        Call::ScoreOver => told_scored(&score(alloc, &inputs.base, a)?),
        Call::Top => told_scored(&best(alloc, inputs)?),
    })
}

// The last of the best documents.
fn best(alloc: Global, inputs: &Inputs) -> Result<Seq<Scored>, Memory> {
    let shown = inputs.best.min(SHOWN);
    top(alloc, inputs.ranked.as_slice(), inputs.best - shown, shown)
}

// A number of how many posts there are and the last one's document.
fn told(posts: &Cols) -> u64 {
    told_docs(posts.docs())
}

// A number of how many documents there are and the last one.
fn told_docs(docs: &[u32]) -> u64 {
    match docs.last() {
        Some(last) => mixed(docs.len(), *last, 0),
        None => 0,
    }
}

// A number of how many documents there are, the last one and its score.
fn told_scored(scored: &Seq<Scored>) -> u64 {
    match scored.as_slice().last() {
        Some(last) => mixed(scored.len(), last.doc, last.score),
        None => 0,
    }
}

// A number of how many words there are, the last one that is shown and its documents.
fn told_table(table: &Table) -> u64 {
    match table.first.as_slice().last() {
        Some(last) => mixed(table.total as usize, last.word, last.docs),
        None => 0,
    }
}

// The sum, modulo 2^64.
fn mixed(count: usize, last: u32, value: u32) -> u64 {
    (count as u64)
        .wrapping_add(u64::from(last))
        .wrapping_add(u64::from(value))
}
