//! `replay INDEX SCRIPT`: a script that is answered over an index file.
ghost use Rattle.std.specs.Prelude.{◌≡◌};
ghost use Rattle.std.specs.Option.{ForSome};
ghost use Rattle.cs_indexing.specs.Met.{wrote};
ghost use Rattle.cs_indexing.specs.Views.{ended};
ghost use Rattle.cs_top.specs.ScriptRuns.{ReplayCaused, ReplayEnds, ReplayTold};

use crate::answering::IndexFile;
use crate::opening::open;
use crate::script::{answer_script, end_of_run};
use crate::showing::Showing;
use cs_base::{Files, Sink};
use cs_indexing::{HeldFile, RunStop, told_size};
use std::alloc::Global;

/// Answers each line of a script over an index file. Where a read fails, or the file changed, the line has the text of that, and
/// the next one is answered.
pub(crate) fn replay<'a, F: Files, O: Sink>(
    alloc: Global,
    index: &'a str,
    script: &'a str,
    files: &mut F,
    out: &mut O,
) -> Result<(), RunStop<'a>>
    ensures ends { ReplayEnds (ended result) index.now script.now (wrote O.Sink out.old out.new) }
    ensures told { ForSome (F.held files.old) (λ h. ReplayTold (ended result) h index.now script.now (F.faults files.old) (F.faults files.new) (wrote O.Sink out.old out.new)) }
    ensures caused { ReplayCaused (ended result) (F.faults files.old) (F.faults files.new) (O.faults out.old) (O.faults out.new) }
    ensures files { F.held files.new ≡ F.held files.old }
{
    let size = told_size(files, index)?;
    let script_size = told_size(files, script)?;
    let index = HeldFile { name: index, size };
    let mut engine = open(alloc, files, index)?;
    let mut file = IndexFile::held(index);
    let script = HeldFile {
        name: script,
        size: script_size,
    };
    let showing = Showing::titled(alloc);
    end_of_run(answer_script(&showing, &mut engine, &mut file, files, script, out))
}
