//! One line of a script that adds documents, deletes them or asks, answered.
ghost use Rattle.std.specs.Prelude.{◌≡◌, ◌≢◌, ◌≤◌, ℕ, List, All, None, length, IfOk, IfErr, OnOk};
ghost use Rattle.cs_base.specs.content.Bytes.{line_feed};
ghost use Rattle.cs_base.specs.outside.Outside.{file_bytes};
ghost use Rattle.cs_file.specs.Indexes.{HasAllBlocks};
ghost use Rattle.cs_base.specs.declared.content.{limits.TheConstants.{MAX_SCRIPT_LINE_BYTES}, scores.Weights.{Weights}};
ghost use Rattle.cs_live.specs.Lives.{IsOnlyDoc, IsStateOf};
ghost use Rattle.cs_live_lines.specs.LineViews.{IsOnlyDocument};
ghost use Rattle.cs_model.specs.Weights.{AreWeights};
ghost use Rattle.cs_model_index.specs.Sections.{file_corpus, image_of};
ghost use Rattle.cs_model_live.specs.LiveLines.{added_outcome, by_refusals, deleted_outcome};
ghost use Rattle.cs_model_live.specs.LiveStates.{LiveState, full_refusal};
ghost use Rattle.cs_indexing.specs.CommandLine.{CausedBy};
ghost use Rattle.cs_indexing.specs.Met.{wrote};
ghost use Rattle.cs_indexing.specs.Views.{IsSized, of_script, stop_ending};
ghost use Rattle.cs_top.specs.Answering.{CameCounts};
ghost use Rattle.cs_top.specs.LiveAnswering.{IsLiveAt, LiveOver, StaysIndex, Tells};
ghost use Rattle.cs_top.specs.LiveSteps.{LineText, LivePasses};
ghost use Rattle.cs_top.specs.LiveTexts.{HasOutcomeText, IsLiveText};
ghost use Rattle.cs_top.specs.PutTexts.{CutsLineOf, PutsLineOf};
ghost use Rattle.cs_top.specs.ScriptEndings.{StopsAt};

use super::asking::outcome_now;
use super::outcomes::{Outcome, put_outcome};
use crate::lines::line_fault;
use crate::script::WhatCame;
use crate::script::answers::{answer_by, memory_line, put_answer};
use crate::showing::Showing;
use cs_base::{Doc, Files, Sink};
use cs_indexing::{HeldFile, ScriptStop};
use cs_live::{AddFault, Live, RemoveFault};
use cs_live_lines::{
    DocumentFault, Full, LiveLine, absent_line, added_document, change_line, doc_number, full_line,
    live_line, refused_line,
};
use std::alloc::Global;

/// Answers a line of a script, if it has bytes, and says what came of it. An error says how the script ends there.
pub(super) fn answer_line<F: Files, O: Sink>(
    alloc: Global,
    live: &mut Live,
    index: HeldFile<'_>,
    files: &mut F,
    line: &[u8],
    number: u64,
    out: &mut O,
) -> Result<WhatCame, ScriptStop>
    requires index_size { IsSized (F.held files.old) index }
    requires fits { HasAllBlocks (file_bytes (F.held files.old) index.name.now) live.old.state.index }
    requires one { All (λ b. b ≢ line_feed) line.now }

    ensures ok { (b : List ℕ) (s : LiveState) → LiveOver live.old index.entry.name.now (F.held files.old) b s → IfOk result (λ came. (e : LiveState)
        × LivePasses b s (number, line.now) (O.written out.old) (O.written out.new) came (F.faults files.old) (F.faults files.new) e × LiveOver live.new index.entry.name.now (F.held files.new) b e) }
    ensures err { (b : List ℕ) (s : LiveState) → LiveOver live.old index.entry.name.now (F.held files.old) b s → IfErr result (λ z. StopsAt (LineText b s) (stop_ending (of_script z)) (number, line.now)
        (wrote O.Sink out.old out.new) (F.faults files.old) (F.faults files.new)) }
    ensures came { IfOk result (λ came. CameCounts came (F.faults files.old) (F.faults files.new)) }
    ensures puts { IfOk result (λ came. PutsLineOf IsLiveText came (O.written out.old) (O.written out.new)) }
    ensures cuts { IfErr result (λ s. CutsLineOf IsLiveText (stop_ending (of_script s)) (wrote O.Sink out.old out.new)) }
    ensures stays { StaysIndex live.old live.new (F.held files.old) (F.held files.new) }
    ensures later { F.faults files.old ≤ F.faults files.new }
    ensures quiet { OnOk result (O.faults out.new ≡ O.faults out.old) }
    ensures caused { IfErr result (λ s. CausedBy (stop_ending (of_script s)) (O.faults out.old) (O.faults out.new)) }
{
    if line.is_empty() {
        return Ok(WhatCame::Answered);
    }
    if let Some(fault) = line_fault(line, number) {
        return Err(ScriptStop::Unread(fault));
    }
    match live_line(line) {
        LiveLine::Adds(document) => put_outcome(out, add(alloc, live, document)),
        LiveLine::Deletes(digits) => put_outcome(out, delete(alloc, live, digits)),
        LiveLine::Asks(params) => {
            let outcome = outcome_now(alloc, live, index, files, params);
            let answer = answer_by(&Showing::titled(alloc), outcome);
            put_answer(out, &answer)
        }
    }
}

// Adds the document of a line, if it is one and there is room for it, and says what became of it.
fn add(alloc: Global, live: &mut Live, line: &[u8]) -> Outcome
    requires one { All (λ b. b ≢ line_feed) line.now }
    requires short { length line.now ≤ MAX_SCRIPT_LINE_BYTES }

    ensures tells { (b : List ℕ) (s : LiveState) → IsLiveAt b live.old s → (e : LiveState)
        × Tells b s (added_outcome (image_of b).weights (file_corpus b) s line.now) result e × IsLiveAt b live.new e }
    ensures texts { HasOutcomeText result }
    ensures index { live.new.state.index ≡ live.old.state.index }
{
    if line.is_empty() {
        return Outcome::Line(change_line());
    }
    match added_document(alloc, line) {
        Ok(document) => add_document(alloc, live, document),
        Err(DocumentFault::Broken(rule)) => Outcome::Line(refused_line(rule)),
        Err(DocumentFault::Memory) => Outcome::Line(memory_line()),
    }
}

// Adds a document that is read of a line, if there is room for it, and says what became of it.
fn add_document(alloc: Global, live: &mut Live, document: Doc) -> Outcome
    requires { (w : Weights) → AreWeights w → IsOnlyDocument w document }

    ensures tells { (b : List ℕ) (s : LiveState) → IsLiveAt b live.old s → (e : LiveState)
        × Tells b s (by_refusals None (full_refusal (image_of b).weights (file_corpus b) s document) document) result e × IsLiveAt b live.new e }
    ensures texts { HasOutcomeText result }
    ensures index { live.new.state.index ≡ live.old.state.index }
{
    can_be_added(live, &document);
    is_in_state(live);
    match live.add(alloc, document) {
        Ok(doc) => Outcome::Added {
            doc,
            changes: live.changes(),
        },
        Err(AddFault::FullDocs) => Outcome::Line(full_line(Full::Docs)),
        Err(AddFault::FullRows) => Outcome::Line(full_line(Full::Rows)),
        Err(AddFault::FullWords) => Outcome::Line(full_line(Full::Words)),
        Err(AddFault::Memory) => Outcome::Line(memory_line()),
    }
}

// Deletes the document of a number, if it is one of a document, and says what became of it.
fn delete(alloc: Global, live: &mut Live, digits: &[u8]) -> Outcome
    ensures tells { (b : List ℕ) (s : LiveState) → IsLiveAt b live.old s → (e : LiveState) × Tells b s (deleted_outcome s digits.now) result e × IsLiveAt b live.new e }
    ensures texts { HasOutcomeText result }
    ensures index { live.new.state.index ≡ live.old.state.index }
{
    let Some(doc) = doc_number(digits) else {
        return Outcome::Line(change_line());
    };
    is_in_state(live);
    match live.remove(alloc, doc) {
        Ok(()) => Outcome::Deleted {
            changes: live.changes(),
        },
        Err(RemoveFault::Absent) => Outcome::Line(absent_line()),
        Err(RemoveFault::Memory) => Outcome::Line(memory_line()),
    }
}

// The only document of a collection, whichever weights that has, is one with the weights of an index: `Live::weights` says that these are such.
fn can_be_added(live: &Live, document: &Doc)
    requires { (w : Weights) → AreWeights w → IsOnlyDocument w document.now }

    ensures { IsOnlyDoc live.now.state.index.weights document.now }
{
    let _ = live.weights();
}

// An index under changes is counted as the live corpus whose state it is in: `Live::changes` says so of the state that it tells.
fn is_in_state(live: &Live)
    ensures { (b : List ℕ) (s : LiveState) → IsLiveAt b live.now s → IsStateOf b live.now s }
{
    let _ = live.changes();
}
