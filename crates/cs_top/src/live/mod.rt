//! `live INDEX SCRIPT`: a script whose lines add documents, delete them and ask, over an index file that stays as it is.
ghost use Rattle.std.specs.Prelude.{◌≡◌, ◌<◌, ◌≤◌, ℕ, false, List, IfOk, IfErr, OnOk};
ghost use Rattle.std.specs.Option.{ForSome};
ghost use Rattle.cs_base.specs.outside.Outside.{file_bytes};
ghost use Rattle.cs_file.specs.Indexes.{HasAllBlocks};
ghost use Rattle.cs_model.specs.Outputs.{script_lines};
ghost use Rattle.cs_model_index.specs.Sections.{file_corpus};
ghost use Rattle.cs_model_kept.specs.declared.limits.TheConstants.{MAX_ENTRIES};
ghost use Rattle.cs_model_live.specs.LiveStates.{LiveState, before_changes};
ghost use Rattle.cs_indexing.specs.CommandLine.{done};
ghost use Rattle.cs_indexing.specs.Met.{wrote};
ghost use Rattle.cs_indexing.specs.Views.{IsDamage, IsOfIndex, IsSized, OfFile, ReadsFiles, ended, of_script, stop_ending};
ghost use Rattle.cs_top.specs.Answering.{CameCounts};
ghost use Rattle.cs_top.specs.LiveAnswering.{LiveOver, StaysIndex};
ghost use Rattle.cs_top.specs.LiveRuns.{IsToldCourse, LiveEnds, LiveTold};
ghost use Rattle.cs_top.specs.LiveSteps.{LineText, LiveReaches};
ghost use Rattle.cs_top.specs.LiveTexts.{IsLiveText};
ghost use Rattle.cs_top.specs.PutTexts.{CutsLineOf, EndsOf, PutsLineOf, PutsTextsOf};
ghost use Rattle.cs_top.specs.ScriptEndings.{EndsAt, ScriptCaused, ScriptEndsBy, ShortTally, Tally};
ghost use Rattle.cs_top.specs.ScriptRuns.{ReplayCaused};

mod answers;
mod asking;
mod outcomes;

use crate::lines::{Place, WINDOW_BYTES, first_place, read_line};
use crate::script::{WhatCame, end_of_run};
use answers::answer_line;
use cs_base::{Files, Sink};
use cs_indexing::{HeldFile, RunStop, ScriptStop, open_held, told_size};
use cs_live::Live;
use cs_model_kept::MAX_ENTRIES;
use std::alloc::Global;

/// Answers each line of a script over an index file, each behind the changes that the lines before it made. Where a read fails, or the
/// file changed, a line that asks has the text of that, and the next one is answered.
pub(crate) fn live_script<'a, F: Files, O: Sink>(
    alloc: Global,
    index: &'a str,
    script: &'a str,
    files: &mut F,
    out: &mut O,
) -> Result<(), RunStop<'a>>
    ensures ends { LiveEnds (ended result) index.now script.now (wrote O.Sink out.old out.new) }
    ensures told { ForSome (F.held files.old) (λ h. LiveTold (ended result) h index.now script.now (F.faults files.old) (F.faults files.new) (wrote O.Sink out.old out.new)) }
    ensures caused { ReplayCaused (ended result) (F.faults files.old) (F.faults files.new) (O.faults out.old) (O.faults out.new) }
    ensures files { F.held files.new ≡ F.held files.old }
{
    let size = told_size(files, index)?;
    let script_size = told_size(files, script)?;
    let index = HeldFile { name: index, size };
    let mut live = open_live(alloc, files, index)?;
    let script = HeldFile {
        name: script,
        size: script_size,
    };
    end_of_run(answer_lines(alloc, &mut live, index, files, script, out))
}

// The index of an index file before the first change, with nothing kept.
fn open_live<'a, F: Files>(
    alloc: Global,
    files: &mut F,
    index: HeldFile<'_>,
) -> Result<Live, RunStop<'a>>
    requires size { IsSized (F.held files.old) index }

    ensures ok { OfFile (F.held files.old) index.entry (λ b. IfOk result (λ l. LiveOver l index.entry.name.now (F.held files.new) b (before_changes (file_corpus b)))) }
    ensures damaged { OfFile (F.held files.old) index.entry (λ b. IfErr result (IsDamage b)) }
    ensures fits { IfOk result (λ l. HasAllBlocks (file_bytes (F.held files.new) index.entry.name.now) l.state.index) }
    ensures kind { IfErr result IsOfIndex }
    ensures reads { ReadsFiles (F.held files.old) (F.held files.new) (F.faults files.old) (F.faults files.new) result }
    ensures room { IfOk result (λ l. l.answers.capacity ≡ MAX_ENTRIES) }
{
    let index = open_held(alloc, files, index)?;
    let live = Live::new(alloc, index, MAX_ENTRIES)?;
    Ok(live)
}

// Answers a script's lines that have bytes, each before the next one is read, up to the first at which the script ends, and says what
// came of them.
fn answer_lines<F: Files, O: Sink>(
    alloc: Global,
    live: &mut Live,
    index: HeldFile<'_>,
    files: &mut F,
    script: HeldFile<'_>,
    out: &mut O,
) -> Result<WhatCame, ScriptStop>
    requires index_size { IsSized (F.held files.old) index }
    requires size { IsSized (F.held files.old) script }
    requires fits { HasAllBlocks (file_bytes (F.held files.old) index.name.now) live.old.state.index }

    ensures whole { (b : List ℕ) → LiveOver live.old index.entry.name.now (F.held files.old) b (before_changes (file_corpus b)) → OfFile (F.held files.old) script.entry (λ x. IfOk result (λ came. (ts : List (List ℕ))
        × ScriptEndsBy (IsToldCourse b) done (script_lines x) ts (wrote O.Sink out.old out.new) × Tally came (F.faults files.old) (F.faults files.new) ts)) }
    ensures short { (b : List ℕ) → LiveOver live.old index.entry.name.now (F.held files.old) b (before_changes (file_corpus b)) → OfFile (F.held files.old) script.entry (λ x. IfErr result (λ s. (ts : List (List ℕ))
        × ScriptEndsBy (IsToldCourse b) (stop_ending (of_script s)) (script_lines x) ts (wrote O.Sink out.old out.new)
        × ShortTally (stop_ending (of_script s)) (wrote O.Sink out.old out.new) (F.faults files.old) (F.faults files.new) ts)) }
    ensures came { IfOk result (λ came. CameCounts came (F.faults files.old) (F.faults files.new)) }
    ensures puts { IfOk result (λ came. PutsTextsOf IsLiveText came (O.written out.old) (O.written out.new)) }
    ensures cuts { IfErr result (λ s. EndsOf IsLiveText (stop_ending (of_script s)) (wrote O.Sink out.old out.new)) }
    ensures quiet { OnOk result (O.faults out.new ≡ O.faults out.old) }
    ensures caused { IfErr result (λ s. ScriptCaused (stop_ending (of_script s)) false (F.faults files.old) (F.faults files.new) (O.faults out.old) (O.faults out.new)) }
    ensures files { F.held files.new ≡ F.held files.old }
{
    let at = first_place(files, script)?;
    let mut place = Place { at, number: 0 };
    let mut came = WhatCame::Answered;
    while place.at < script.size {
        let (next, met) = answer_next(alloc, live, index, files, script, place, out)?;
        place = next;
        came = came.and(met);
    }
    Ok(came)
}

// Reads the line at a place and answers it, and gives the place behind it and what came of it. An error says how the script ends
// there.
fn answer_next<F: Files, O: Sink>(
    alloc: Global,
    live: &mut Live,
    index: HeldFile<'_>,
    files: &mut F,
    script: HeldFile<'_>,
    place: Place,
    out: &mut O,
) -> Result<(Place, WhatCame), ScriptStop>
    requires index_size { IsSized (F.held files.old) index }
    requires size { IsSized (F.held files.old) script }
    requires fits { HasAllBlocks (file_bytes (F.held files.old) index.name.now) live.old.state.index }
    requires within { place.at < script.size }
    requires numbered { place.number ≤ place.at }

    ensures ok { (b : List ℕ) (s : LiveState) → LiveOver live.old index.entry.name.now (F.held files.old) b s → OfFile (F.held files.old) script.entry (λ x. IfOk result (λ p. (e : LiveState)
        × LiveReaches b s x place p.0 (O.written out.old) (O.written out.new) p.1 (F.faults files.old) (F.faults files.new) e × LiveOver live.new index.entry.name.now (F.held files.new) b e)) }
    ensures err { (b : List ℕ) (s : LiveState) → LiveOver live.old index.entry.name.now (F.held files.old) b s → OfFile (F.held files.old) script.entry (λ x. IfErr result (λ z. EndsAt (LineText b s)
        (stop_ending (of_script z)) x place (wrote O.Sink out.old out.new) (F.faults files.old) (F.faults files.new))) }
    ensures came { IfOk result (λ p. CameCounts p.1 (F.faults files.old) (F.faults files.new)) }
    ensures puts { IfOk result (λ p. PutsLineOf IsLiveText p.1 (O.written out.old) (O.written out.new)) }
    ensures cuts { IfErr result (λ s. CutsLineOf IsLiveText (stop_ending (of_script s)) (wrote O.Sink out.old out.new)) }
    ensures further { IfOk result (λ p. (place.at < p.0.at) × (p.0.at ≤ script.entry.size) × (p.0.number ≤ p.0.at)) }
    ensures stays { StaysIndex live.old live.new (F.held files.old) (F.held files.new) }
    ensures quiet { OnOk result (O.faults out.new ≡ O.faults out.old) }
    ensures caused { IfErr result (λ s. ScriptCaused (stop_ending (of_script s)) false (F.faults files.old) (F.faults files.new) (O.faults out.old) (O.faults out.new)) }
{
    let mut buffer = [0u8; WINDOW_BYTES];
    let (len, at) = read_line(files, script, place.at, &mut buffer)?;
    let number = place.number + 1;
    let came = answer_line(alloc, live, index, files, &buffer[..len], number, out)?;
    Ok((Place { at, number }, came))
}
