//! A script, answered line by line while it is read.
ghost use Rattle.std.specs.Prelude.{◌≡◌, ◌<◌, ◌≤◌, ℕ, List, IfOk, IfErr, OnOk, is_some};
ghost use Rattle.cs_model.specs.Corpus.{Corpus};
ghost use Rattle.cs_model.specs.Outputs.{script_lines};
ghost use Rattle.cs_indexing.specs.CommandLine.{done};
ghost use Rattle.cs_indexing.specs.Met.{wrote};
ghost use Rattle.cs_indexing.specs.Views.{IsSized, OfFile, ended, of_script, stop_ending};
ghost use Rattle.cs_top.specs.Answering.{AnswersOver, CameOver, IsThere, MayAnswer, StaysOver, worst};
ghost use Rattle.cs_top.specs.HitForms.{form_by};
ghost use Rattle.cs_top.specs.PutTexts.{CutsLine, EndsBy, PutsLine, PutsTexts};
ghost use Rattle.cs_top.specs.ScriptEndings.{ScriptCaused, ScriptEnds, ShortTally, Tally, Reaches, EndsAt, script_ending};

pub(crate) mod answers;

use crate::answering::IndexFile;
use crate::lines::{Place, WINDOW_BYTES, first_place, read_line};
use crate::showing::Showing;
use answers::answer_line;
use cs_base::{Files, Sink};
use cs_engine::Engine;
use cs_indexing::{HeldFile, RunStop, ScriptStop};

/// What came of the lines of a script so far.
#[derive(Clone, Copy, Debug, PartialEq, Eq)]
pub(crate) enum WhatCame {
    /// Each has its own text or that of want of memory.
    Answered,
    /// In a reply's place one has the text of a failed read.
    Read,
    /// In a reply's place one has that of an index file that changed, and none that of a failed read.
    Changed,
}

impl WhatCame {
    /// What came of these lines and of one more.
    pub(crate) fn and(self, more: WhatCame) -> WhatCame
        ensures { result ≡ worst self more }
    {
        match (self, more) {
            (WhatCame::Read, _) | (_, WhatCame::Read) => WhatCame::Read,
            (WhatCame::Changed, _) | (_, WhatCame::Changed) => WhatCame::Changed,
            (WhatCame::Answered, WhatCame::Answered) => WhatCame::Answered,
        }
    }
}

/// How a run ends whose script ended so. A failed read and a change are told in their lines, but not all is done.
pub(crate) fn end_of_run(script: Result<WhatCame, ScriptStop>) -> Result<(), RunStop<'static>>
    ensures { ended result ≡ script_ending script }
{
    match script {
        Ok(WhatCame::Answered) => Ok(()),
        Ok(WhatCame::Read) => Err(RunStop::Failed),
        Ok(WhatCame::Changed) => Err(RunStop::Changed),
        Err(stop) => Err(RunStop::from(stop)),
    }
}

/// Answers a script's lines that have bytes, each before the next one is read, up to the first at which the script ends, and says
/// what came of them.
pub(crate) fn answer_script<F: Files, O: Sink>(
    showing: &Showing<'_>,
    engine: &mut Engine,
    file: &mut IndexFile<'_>,
    files: &mut F,
    script: HeldFile<'_>,
    out: &mut O,
) -> Result<WhatCame, ScriptStop>
    requires size { IsSized (F.held files.old) script }
    requires there { IsThere engine.old.index file.old (F.held files.old) }

    ensures whole { (k : Corpus) → AnswersOver engine.old file.old (F.held files.old) k → OfFile (F.held files.old) script.entry (λ b. IfOk result (λ came. (ts : List (List ℕ))
        × ScriptEnds (MayAnswer showing.now file.old k) done (script_lines b) ts (wrote O.Sink out.old out.new) × Tally came (F.faults files.old) (F.faults files.new) ts)) }
    ensures short { (k : Corpus) → AnswersOver engine.old file.old (F.held files.old) k → OfFile (F.held files.old) script.entry (λ b. IfErr result (λ s. (ts : List (List ℕ))
        × ScriptEnds (MayAnswer showing.now file.old k) (stop_ending (of_script s)) (script_lines b) ts (wrote O.Sink out.old out.new)
        × ShortTally (stop_ending (of_script s)) (wrote O.Sink out.old out.new) (F.faults files.old) (F.faults files.new) ts)) }
    ensures came { IfOk result (λ came. CameOver engine.old file.old (F.held files.old) came (F.faults files.old) (F.faults files.new)) }
    ensures puts { IfOk result (λ came. PutsTexts (form_by showing.now) came (O.written out.old) (O.written out.new)) }
    ensures cuts { IfErr result (λ s. EndsBy (form_by showing.now) (stop_ending (of_script s)) (wrote O.Sink out.old out.new)) }
    ensures quiet { OnOk result (O.faults out.new ≡ O.faults out.old) }
    ensures caused { IfErr result (λ s. ScriptCaused (stop_ending (of_script s)) (is_some file.old.made) (F.faults files.old) (F.faults files.new) (O.faults out.old) (O.faults out.new)) }
    ensures files { F.held files.new ≡ F.held files.old }
{
    let at = first_place(files, script)?;
    let mut place = Place { at, number: 0 };
    let mut came = WhatCame::Answered;
    while place.at < script.size {
        let (next, met) = answer_next(showing, engine, file, files, script, place, out)?;
        place = next;
        came = came.and(met);
    }
    Ok(came)
}

// Reads the line at a place and answers it, and gives the place behind it and what came of it. An error says how the script ends
// there.
fn answer_next<F: Files, O: Sink>(
    showing: &Showing<'_>,
    engine: &mut Engine,
    file: &mut IndexFile<'_>,
    files: &mut F,
    script: HeldFile<'_>,
    place: Place,
    out: &mut O,
) -> Result<(Place, WhatCame), ScriptStop>
    requires size { IsSized (F.held files.old) script }
    requires there { IsThere engine.old.index file.old (F.held files.old) }
    requires within { place.at < script.size }
    requires numbered { place.number ≤ place.at }

    ensures ok { (k : Corpus) → AnswersOver engine.old file.old (F.held files.old) k → OfFile (F.held files.old) script.entry (λ b. IfOk result (λ p. Reaches (MayAnswer showing.now file.old k) b
        place p.0 (O.written out.old) (O.written out.new) p.1 (F.faults files.old) (F.faults files.new))) }
    ensures err { (k : Corpus) → AnswersOver engine.old file.old (F.held files.old) k → OfFile (F.held files.old) script.entry (λ b. IfErr result (λ s. EndsAt (MayAnswer showing.now file.old k)
        (stop_ending (of_script s)) b place (wrote O.Sink out.old out.new) (F.faults files.old) (F.faults files.new))) }
    ensures came { IfOk result (λ p. CameOver engine.old file.old (F.held files.old) p.1 (F.faults files.old) (F.faults files.new)) }
    ensures puts { IfOk result (λ p. PutsLine (form_by showing.now) p.1 (O.written out.old) (O.written out.new)) }
    ensures cuts { IfErr result (λ s. CutsLine (form_by showing.now) (stop_ending (of_script s)) (wrote O.Sink out.old out.new)) }
    ensures further { IfOk result (λ p. (place.at < p.0.at) × (p.0.at ≤ script.entry.size) × (p.0.number ≤ p.0.at)) }
    ensures over { StaysOver engine.old engine.new file.old file.new (F.held files.old) (F.held files.new) }
    ensures quiet { OnOk result (O.faults out.new ≡ O.faults out.old) }
    ensures caused { IfErr result (λ s. ScriptCaused (stop_ending (of_script s)) (is_some file.old.made) (F.faults files.old) (F.faults files.new) (O.faults out.old) (O.faults out.new)) }
{
    let mut buffer = [0u8; WINDOW_BYTES];
    let (len, at) = read_line(files, script, place.at, &mut buffer)?;
    let number = place.number + 1;
    let came = answer_line(showing, engine, file, files, &buffer[..len], number, out)?;
    Ok((Place { at, number }, came))
}
