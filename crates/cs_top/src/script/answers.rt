//! One line of a script, answered.
ghost use Rattle.std.specs.Prelude.{◌≡◌, ◌≤◌, ◌++◌, ◌∷◌, [], true, IfOk, IfErr, OnOk, OnErr, is_some};
ghost use Rattle.cs_base.specs.outside.Outside.{Grew, GrewByPrefix};
ghost use Rattle.cs_json.specs.FaultTexts.{fault_text};
ghost use Rattle.cs_model.specs.Corpus.{Corpus};
ghost use Rattle.cs_model.specs.Outputs.{memory_text, read_text};
ghost use Rattle.cs_indexing.specs.CommandLine.{CausedBy};
ghost use Rattle.cs_indexing.specs.Met.{wrote};
ghost use Rattle.cs_indexing.specs.Views.{of_script, stop_ending};
ghost use Rattle.cs_top.specs.Answering.{AnswersOver, CameOver, HasText, IsThere, MayAnswer, StaysOver, bytes_there, came_of_answer, line_bytes};
ghost use Rattle.cs_top.specs.HitForms.{form_by, shown_reply};
ghost use Rattle.cs_top.specs.declared.script.answers.Answer.TheVariants as answers;
ghost use Rattle.cs_top.specs.OutcomeTexts.{IsAnswerBy};
ghost use Rattle.cs_top.specs.PutTexts.{CutsLine, HasTextBy, IsChangeLine, PutsLine};
ghost use Rattle.cs_top.specs.ScriptEndings.{Passes, StopsAt};

use crate::answering::{IndexFile, outcome_over_file};
use crate::lines::line_fault;
use crate::script::WhatCame;
use crate::showing::Showing;
use cs_base::{Files, Memory, Query, Sink};
use cs_engine::Engine;
use cs_hub::RequestOutcome;
use cs_indexing::ScriptStop;
use cs_json::{Fault, fault_bytes};
use cs_query::Reply;
use std::alloc::Global;

/// What is put for a line that is read, with its line ending.
#[derive(Drop)]
pub(crate) enum Answer {
    /// Its text.
    Text(Vec<u8>),
    /// The text of want of memory.
    Memory,
    /// In a reply's place, the text of a failed read.
    Read,
    /// In a reply's place, that of an index file that changed; None where there was no memory for it.
    Changed(Option<Vec<u8>>),
}

impl From<Memory> for Answer {
    ghost from_gives = { λ _ e. e ≡ answers.Memory };

    fn from(_: Memory) -> Answer {
        Answer::Memory
    }
}

/// Answers a line of a script, if it has bytes, and says what came of it. An error says how the script ends there.
pub(crate) fn answer_line<F: Files, O: Sink>(
    showing: &Showing<'_>,
    engine: &mut Engine,
    file: &mut IndexFile<'_>,
    files: &mut F,
    line: &[u8],
    number: u64,
    out: &mut O,
) -> Result<WhatCame, ScriptStop>
    requires there { IsThere engine.old.index file.old (F.held files.old) }

    ensures ok { (k : Corpus) → AnswersOver engine.old file.old (F.held files.old) k → IfOk result (λ came. Passes (MayAnswer showing.now file.old k) (number, line.now) (O.written out.old) (O.written out.new) came (F.faults files.old) (F.faults files.new)) }
    ensures err { (k : Corpus) → AnswersOver engine.old file.old (F.held files.old) k → IfErr result (λ s. StopsAt (MayAnswer showing.now file.old k) (stop_ending (of_script s)) (number, line.now)
        (wrote O.Sink out.old out.new) (F.faults files.old) (F.faults files.new)) }
    ensures came { IfOk result (λ came. CameOver engine.old file.old (F.held files.old) came (F.faults files.old) (F.faults files.new)) }
    ensures puts { IfOk result (λ came. PutsLine (form_by showing.now) came (O.written out.old) (O.written out.new)) }
    ensures cuts { IfErr result (λ s. CutsLine (form_by showing.now) (stop_ending (of_script s)) (wrote O.Sink out.old out.new)) }
    ensures over { StaysOver engine.old engine.new file.old file.new (F.held files.old) (F.held files.new) }
    ensures later { F.faults files.old ≤ F.faults files.new }
    ensures made { is_some file.old.made ≡ true → F.faults files.new ≡ F.faults files.old }
    ensures quiet { OnOk result (O.faults out.new ≡ O.faults out.old) }
    ensures caused { IfErr result (λ s. CausedBy (stop_ending (of_script s)) (O.faults out.old) (O.faults out.new)) }
{
    if line.is_empty() {
        return Ok(WhatCame::Answered);
    }
    if let Some(fault) = line_fault(line, number) {
        return Err(ScriptStop::Unread(fault));
    }
    let answer = answer_params(showing, engine, file, files, line);
    put_answer(out, &answer)
}

/// Puts an answer, and says what came of the line.
pub(crate) fn put_answer<O: Sink>(out: &mut O, answer: &Answer) -> Result<WhatCame, ScriptStop>
    ensures ok { OnOk result (Grew (O.written out.old) (line_bytes answer.now) (O.written out.new)) }
    ensures came { IfOk result (λ c. c ≡ came_of_answer answer.now) }
    ensures err { OnErr result (GrewByPrefix (O.written out.old) (line_bytes answer.now) (O.written out.new)) }
    ensures kind { IfErr result (λ s. s ≡ ScriptStop.Failed) }
    ensures quiet { OnOk result (O.faults out.new ≡ O.faults out.old) }
    ensures caused { IfErr result (λ s. CausedBy (stop_ending (of_script s)) (O.faults out.old) (O.faults out.new)) }
{
    match answer {
        Answer::Text(bytes) => put(out, bytes, WhatCame::Answered),
        Answer::Memory => put(out, memory_line(), WhatCame::Answered),
        Answer::Read => put(out, read_line(), WhatCame::Read),
        Answer::Changed(Some(bytes)) => put(out, bytes, WhatCame::Changed),
        Answer::Changed(None) => put(out, memory_line(), WhatCame::Changed),
    }
}

/// The text in a line's place where memory ran out, with its line ending.
#[tactic(auto, using(crate::proofs::MemoryText::memory_line))]
pub(crate) fn memory_line() -> &'static [u8]
    ensures { result.now ≡ memory_text ++ 10 ∷ [] }
{
    b"{\"error\":\"memory\"}\n"
}

// The text in a reply's place where the index file couldn't be read, with its line ending.
#[tactic(auto, using(crate::proofs::MemoryText::read_line))]
fn read_line() -> &'static [u8]
    ensures { result.now ≡ read_text ++ 10 ∷ [] }
{
    b"{\"error\":\"read\"}\n"
}

// Puts the text of a line, of which this came.
fn put<O: Sink>(out: &mut O, bytes: &[u8], came: WhatCame) -> Result<WhatCame, ScriptStop>
    ensures ok { OnOk result (Grew (O.written out.old) bytes.now (O.written out.new)) }
    ensures came { IfOk result (λ c. c ≡ came) }
    ensures err { OnErr result (GrewByPrefix (O.written out.old) bytes.now (O.written out.new)) }
    ensures kind { IfErr result (λ s. s ≡ ScriptStop.Failed) }
    ensures quiet { OnOk result (O.faults out.new ≡ O.faults out.old) }
    ensures caused { IfErr result (λ s. CausedBy (stop_ending (of_script s)) (O.faults out.old) (O.faults out.new)) }
{
    out.put(bytes)?;
    Ok(came)
}

// What is put for a line that is read.
fn answer_params<F: Files>(
    showing: &Showing<'_>,
    engine: &mut Engine,
    file: &mut IndexFile<'_>,
    files: &mut F,
    line: &[u8],
) -> Answer
    requires there { IsThere engine.old.index file.old (F.held files.old) }

    ensures came { CameOver engine.old file.old (F.held files.old) (came_of_answer result) (F.faults files.old) (F.faults files.new) }
    ensures text { (k : Corpus) → AnswersOver engine.old file.old (F.held files.old) k → HasText (MayAnswer showing.now file.old k) line.now result }
    ensures texts { HasTextBy (form_by showing.now) result }
    ensures changed { IsChangeLine engine.old.index (bytes_there file.old (F.held files.old)) result }
    ensures over { StaysOver engine.old engine.new file.old file.new (F.held files.old) (F.held files.new) }
{
    let outcome = outcome_over_file(showing.alloc, engine, file, files, line);
    answer_by(showing, outcome)
}

/// What is put where this came of parameters.
pub(crate) fn answer_by(showing: &Showing<'_>, outcome: RequestOutcome) -> Answer
    ensures { IsAnswerBy showing.now outcome result }
{
    let alloc = showing.alloc;
    match outcome {
        RequestOutcome::Refused(fault) => {
            text_or_memory(fault_line(alloc, &Fault::Refused(fault)))
        }
        RequestOutcome::Replied(request, reply) => {
            text_or_memory(reply_line(showing, &request.query, &reply))
        }
        RequestOutcome::Read => Answer::Read,
        RequestOutcome::Changed { rule, at } => {
            Answer::Changed(fault_line(alloc, &Fault::Changed { rule, at }).ok())
        }
        RequestOutcome::Memory => Answer::Memory,
    }
}

fn text_or_memory(line: Result<Vec<u8>, Memory>) -> Answer
    ensures text { IfOk line (λ b. result ≡ answers.Text b) }
    ensures memory { OnErr line (result ≡ answers.Memory) }
{
    match line {
        Ok(bytes) => Answer::Text(bytes),
        Err(_) => Answer::Memory,
    }
}

// The text of a reply to a query, and its line ending.
fn reply_line(showing: &Showing<'_>, query: &Query, reply: &Reply) -> Result<Vec<u8>, Memory>
    ensures { IfOk result (λ b. b.items ≡ shown_reply showing.now query.now reply.now ++ 10 ∷ []) }
{
    let mut bytes = showing.reply_bytes(query, reply)?;
    bytes.push(b'\n')?;
    Ok(bytes)
}

// The text of a fault, and its line ending.
fn fault_line(alloc: Global, fault: &Fault) -> Result<Vec<u8>, Memory>
    ensures { IfOk result (λ b. b.items ≡ fault_text fault.now ++ 10 ∷ []) }
{
    let mut bytes = fault_bytes(alloc, fault)?;
    bytes.push(b'\n')?;
    Ok(bytes)
}
