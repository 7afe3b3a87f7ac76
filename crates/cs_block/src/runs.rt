//! Reading the rows of a block run by run, each run column by column.
ghost use Rattle.std.specs.Prelude.{◌≡◌, ◌+◌, ◌≤◌, ◌<◌, List, length, IfSome, IfNone};
ghost use Rattle.cs_base.specs.declared.content.doc.Post.{Post};
ghost use Rattle.cs_model_index.specs.Blocks.{IsShaped};
ghost use Rattle.cs_block.specs.{BlockReading.{HasColumns}, ColumnsView.{seen_columns}, RowRuns.{row_in}, Pass.{HasPushed}};

use crate::columns::CutColumns;
use crate::rules::is_after;
use crate::run_columns::{are_ascending, are_scores, positions_in, words_in};
use crate::run_docs::docs_in;
use cs_base::{BlockHead, Post, Weights};
use cs_cols::Cols;

/// A run has so many rows at most.
const RUN: usize = 256;

/// How far the rows of a block are read.
#[derive(Clone, Copy)]
pub struct Reached {
    /// So many rows.
    pub rows: u32,
    /// The place behind their gap codes.
    pub at: usize,
    /// The last of them.
    pub last: Option<Post>,
    /// Its document, 0 where there is none.
    pub before: u32,
}

/// Adds rows run by run, up to the first run in which a row breaks a rule.
pub fn push_runs(
    columns: &CutColumns<'_>,
    head: &BlockHead,
    docs: u32,
    weights: Weights,
    into: &mut Cols,
) -> Reached
    requires shaped { IsShaped head.now head.now.len }
    requires sized { HasColumns head.now (seen_columns columns.now) }
    requires room { head.now.rows ≤ into.old.room }

    ensures { HasPushed weights head.now docs (seen_columns columns.now) result.rows result.at result.last result.before into.old.posts into.new.posts into.new.room }
{
    let mut run_docs = [0u32; RUN];
    let mut run_words = [0u32; RUN];
    let mut run_positions = [0u32; RUN];
    let mut reached = Reached {
        rows: 0,
        at: 0,
        last: None,
        before: 0,
    };
    while reached.rows < head.rows {
        let rows = RUN.min((head.rows - reached.rows) as usize);
        let run = push_run(
            columns,
            head,
            docs,
            weights,
            reached,
            &mut run_docs[..rows],
            &mut run_words[..rows],
            &mut run_positions[..rows],
            into,
        );
        let Some(next) = run else {
            return reached;
        };
        reached = next;
    }
    reached
}

// Adds as many rows as the three slices are long, if none of them breaks a rule. The slices take the
// rows' documents, words and positions.
fn push_run(
    columns: &CutColumns<'_>,
    head: &BlockHead,
    docs: u32,
    weights: Weights,
    from: Reached,
    run_docs: &mut [u32],
    run_words: &mut [u32],
    run_positions: &mut [u32],
    into: &mut Cols,
) -> Option<Reached>
    requires shaped { IsShaped head.now head.now.len }
    requires sized { HasColumns head.now (seen_columns columns.now) }
    requires some { 0 < length run_docs.old }
    requires words { length run_words.old ≡ length run_docs.old }
    requires positions { length run_positions.old ≡ length run_docs.old }
    requires rows { from.rows + length run_docs.old ≤ head.now.rows }
    requires within { from.at ≤ length columns.now.gaps.now }
    requires room { length run_docs.old ≤ into.old.room }

    ensures pushed { IfSome result (λ next. (first : List Post)
        → HasPushed weights head.now docs (seen_columns columns.now) from.rows from.at from.last from.before first into.old.posts into.old.room
        → HasPushed weights head.now docs (seen_columns columns.now) next.rows next.at next.last next.before first into.new.posts into.new.room) }
    ensures rows { IfSome result (λ next. next.rows ≡ from.rows + length run_docs.old) }
    ensures kept { IfNone result (into.new ≡ into.old) }
{
    let rows = run_docs.len();
    let first = from.rows as usize;
    let at = docs_in(columns.gaps, from.at, from.before, docs, run_docs)?;
    let scores = &columns.scores[first..first + rows];
    if !words_in(columns.words, first, head.lo, head.words, run_words)
        || !positions_in(columns.positions, first, head.facet, run_positions)
        || !are_scores(scores, head.facet, weights)
        || !are_ascending(run_docs, run_words, run_positions)
    {
        return None;
    }
    let front = row_in(run_docs, run_words, run_positions, scores, 0);
    if !is_after(from.last, front) {
        return None;
    }
    let last = row_in(run_docs, run_words, run_positions, scores, rows - 1);
    into.extend_reserved(run_docs, run_words, run_positions, scores);
    Some(Reached {
        rows: from.rows + rows as u32,
        at,
        last: Some(last),
        before: last.doc,
    })
}

// Row `i` of a run.
fn row_in(docs: &[u32], words: &[u32], positions: &[u32], scores: &[u8], i: usize) -> Post
    requires docs { i < length docs.now }
    requires words { i < length words.now }
    requires positions { i < length positions.now }
    requires scores { i < length scores.now }

    ensures { result ≡ row_in docs.now words.now positions.now scores.now i }
{
    Post {
        doc: docs[i],
        word: words[i],
        pos: positions[i],
        score: scores[i],
    }
}
