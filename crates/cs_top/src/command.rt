//! The top call: all that the program does.
ghost use Rattle.std.specs.Prelude.{◌≡◌, map};
ghost use Rattle.std.specs.String.{string_bytes};
ghost use Rattle.cs_indexing.specs.CommandLine.{command_of, Ending, status, line_of, SaysLine};
ghost use Rattle.cs_indexing.specs.Met.{met, wrote};
ghost use Rattle.cs_indexing.specs.Views.{ended};
ghost use Rattle.cs_top.specs.CommandRuns.{Completes, Ran};

use crate::ask::ask;
use crate::live::live_script;
use crate::replay::replay;
use crate::serve::serve_index;
use crate::trial::trial;
use cs_base::{Files, Hub, Sink};
use cs_indexing::{
    Command, RunStop, build_index, command_of, merge_indexes, status_of, tell, upgrade_index,
};
use std::alloc::Global;

/// Does what the words ask for, and answers the exit status.
///
/// `words` are the command line's words without the program's name. 0: all was done. 2: the words aren't in the
/// table. 3: the collection or another source isn't accepted. 4: the index file is damaged. 5: a file to be read isn't held. 6: a call of `files`
/// or `out` failed, or the hub's `listen` or `next`. 7: memory ran out, of a script before its first line and of connections
/// before the first one. 8: a line of the script is too long or isn't UTF-8; the lines before
/// it were answered. 9: the index file isn't what it was at opening. 10: the two index files can't be merged.
pub fn run<F: Files, H: Hub, O: Sink, E: Sink>(
    alloc: Global,
    words: &Vec<String>,
    files: &mut F,
    hub: &mut H,
    out: &mut O,
    err: &mut E,
) -> u8
    ensures ran { (e : Ending) × (result ≡ status e)
        × Ran e (command_of (map string_bytes words.now.items)) (met F.Files H.Hub O.Sink (files.old, hub.old, out.old) (files.new, hub.new, out.new))
        × SaysLine (wrote E.Sink err.old err.new) (line_of e) }

    // Where all can be done and no count rose, it is, or memory ran out.
    ensures complete { Completes (command_of (map string_bytes words.now.items))
        (met F.Files H.Hub O.Sink (files.old, hub.old, out.old) (files.new, hub.new, out.new)) result }
{
    let ended = carry_out(alloc, words, files, hub, out);
    tell(err, ended);
    status_of(ended)
}

fn carry_out<'a, F: Files, H: Hub, O: Sink>(
    alloc: Global,
    words: &'a Vec<String>,
    files: &mut F,
    hub: &mut H,
    out: &mut O,
) -> Result<(), RunStop<'a>>
    ensures ran { Ran (ended result) (command_of (map string_bytes words.now.items))
        (met F.Files H.Hub O.Sink (files.old, hub.old, out.old) (files.new, hub.new, out.new)) }
{
    match command_of(words) {
        None => Err(RunStop::Usage),
        Some(
            Command::Build {
                form,
                source,
                index,
            },
        ) => build_index(alloc, form, source, index, files),
        Some(
            Command::Ask {
                form,
                collection,
                script,
            },
        ) => ask(alloc, form, collection, script, files, out),
        Some(Command::Replay { index, script }) => replay(alloc, index, script, files, out),
        Some(Command::Serve { index, port, conns }) => {
            serve_index(alloc, index, port, conns, files, hub, out)
        }
        Some(Command::Trial { number }) => trial(alloc, number, out),
        Some(Command::Upgrade { index, new }) => upgrade_index(alloc, index, new, files),
        Some(Command::Merge { first, second, new }) => merge_indexes(
            alloc, first, second, new, files,
        ),
        Some(Command::Live { index, script }) => { live_script(alloc, index, script, files, out) }
    }
}
