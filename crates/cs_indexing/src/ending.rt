//! How a run ends: its status, and what is said of it.
ghost use Rattle.std.specs.Prelude.{◌≡◌, ◌++◌, ◌∷◌, [], codes};
ghost use Rattle.cs_docs.specs.FaultRefusals.{reason_text};
ghost use Rattle.cs_merge.specs.Merging.{merge_refusal_of};
ghost use Rattle.cs_indexing.specs.CommandLine.{status, line_of, SaysLine};
ghost use Rattle.cs_indexing.specs.Met.{wrote};
ghost use Rattle.cs_indexing.specs.Views.{collection_ending, ended, merge_ending, of_script, said_text, source_refusal_of, stop_ending};
ghost use Rattle.cs_indexing.specs.declared.ending.RunStop.{RunStop};

use crate::said::{Said, put_said};
use crate::sources::SourceFault;
use crate::unread::{ScriptFault, ScriptStop};
use cs_base::{Failed, Memory, Sink};
use cs_docs::Reason;
use cs_merge::MergeFault;

const USAGE: &[u8] =
    b"usage: complete build COLLECTION INDEX | ask COLLECTION SCRIPT | replay INDEX SCRIPT | serve INDEX PORT CONNS | trial N | upgrade INDEX NEW | import csv SOURCE INDEX | import jsonl SOURCE INDEX | excerpts COLLECTION SCRIPT | merge INDEX1 INDEX2 NEW | live INDEX SCRIPT";

const NO_MEMORY: &[u8] = b"memory";

/// Why a run ends before all is done.
#[derive(Clone, Copy, Debug, PartialEq, Eq)]
pub enum RunStop<'a> {
    /// The words aren't in the table.
    Usage,
    /// The source makes no corpus.
    Collection(SourceFault),
    /// A file to be read isn't held; its name.
    Absent(&'a str),
    /// A call of files or of standard output failed.
    Failed,
    /// Memory ran out.
    Memory,
    /// A line of the script can't be read.
    Script(ScriptFault),
    /// The index file breaks a rule.
    Damaged {
        /// The first rule that it breaks, from 1 to 19.
        rule: u8,
        /// The place at which it is broken, in bytes from the file's first.
        at: u64,
    },
    /// The index file isn't what it was at opening.
    Changed,
    /// Two index files make no third one.
    Merge(MergeFault),
}

impl<'a> RunStop<'a> {
    fn status(self) -> u8
        ensures { result ≡ status (stop_ending self.entry) }
    {
        match self {
            RunStop::Usage => 2,
            RunStop::Collection(fault) => status_of_collection(fault),
            RunStop::Damaged { .. } => 4,
            RunStop::Absent(_) => 5,
            RunStop::Failed => 6,
            RunStop::Memory => 7,
            RunStop::Script(_) => 8,
            RunStop::Changed => 9,
            RunStop::Merge(fault) => status_of_merge(fault),
        }
    }

    fn said(self) -> Said<'a>
        ensures { said_text result ≡ line_of (stop_ending self.entry) }
    {
        match self {
            RunStop::Usage => of_run(USAGE),
            RunStop::Collection(fault) => said_of_collection(fault),
            RunStop::Damaged { rule, at } => Said::Damage { rule, at },
            RunStop::Absent(name) => Said::Words {
                of: b"absent: ",
                line: None,
                words: name.as_bytes(),
            },
            RunStop::Failed => of_run(b"device failed"),
            RunStop::Memory => of_run(NO_MEMORY),
            RunStop::Script(fault) => of_reason(b"script: ", fault.reason()),
            RunStop::Changed => of_run(b"index changed"),
            RunStop::Merge(fault) => said_of_merge(fault),
        }
    }
}

impl From<Failed> for RunStop<'_> {
    ghost from_gives = { λ _ stop. stop ≡ RunStop.Failed };

    fn from(_: Failed) -> Self {
        RunStop::Failed
    }
}

impl From<Memory> for RunStop<'_> {
    ghost from_gives = { λ _ stop. stop ≡ RunStop.Memory };

    fn from(_: Memory) -> Self {
        RunStop::Memory
    }
}

impl From<ScriptStop> for RunStop<'_> {
    ghost from_gives = { λ stop result. result ≡ of_script stop };

    fn from(stop: ScriptStop) -> Self {
        match stop {
            ScriptStop::Unread(fault) => RunStop::Script(fault),
            ScriptStop::Failed => RunStop::Failed,
        }
    }
}

/// The exit status.
pub fn status_of(run: Result<(), RunStop<'_>>) -> u8
    ensures { result ≡ status (ended run.entry) }
{
    match run {
        Ok(()) => 0,
        Err(stop) => stop.status(),
    }
}

/// Says how a run ended. A failure of standard error changes nothing else.
pub fn tell<E: Sink>(err: &mut E, run: Result<(), RunStop<'_>>)
    ensures { SaysLine (wrote E.Sink err.old err.new) (line_of (ended run.entry)) }
{
    if let Err(stop) = run {
        let _ = put_said(err, stop.said());
    }
}

fn status_of_collection(fault: SourceFault) -> u8
    ensures { result ≡ status (collection_ending (source_refusal_of fault)) }
{
    match fault.reason() {
        Some(_) => 3,
        None => 7,
    }
}

fn said_of_collection(fault: SourceFault) -> Said<'static>
    ensures { said_text result ≡ line_of (collection_ending (source_refusal_of fault)) }
{
    match fault.reason() {
        Some(reason) => of_reason(b"collection: ", reason),
        None => of_run(NO_MEMORY),
    }
}

fn status_of_merge(fault: MergeFault) -> u8
    ensures { result ≡ status (merge_ending (merge_refusal_of fault)) }
{
    match fault {
        MergeFault::Memory => 7,
        _ => 10,
    }
}

fn said_of_merge(fault: MergeFault) -> Said<'static>
    ensures { said_text result ≡ line_of (merge_ending (merge_refusal_of fault)) }
{
    match fault {
        MergeFault::Targets { first, second } => Said::Targets { first, second },
        MergeFault::WeightsDiffer { .. } => of_merge(b"weights differ"),
        MergeFault::TooManyDocs => of_merge(b"too many documents"),
        MergeFault::TitlesTooLarge => of_merge(b"titles too large"),
        MergeFault::TooManyRows => of_merge(b"too many rows"),
        MergeFault::TooManyWords => of_merge(b"too many distinct words"),
        MergeFault::Memory => of_run(NO_MEMORY),
    }
}

fn of_run(words: &'static [u8]) -> Said<'static>
    ensures { said_text result ≡ words.now ++ 10 ∷ [] }
{
    Said::Words {
        of: b"",
        line: None,
        words,
    }
}

fn of_merge(words: &'static [u8]) -> Said<'static>
    ensures { said_text result ≡ codes "merge: " ++ (words.now ++ 10 ∷ []) }
{
    Said::Words {
        of: b"merge: ",
        line: None,
        words,
    }
}

fn of_reason(of: &'static [u8], reason: Reason<'static>) -> Said<'static>
    ensures { said_text result ≡ of.now ++ (reason_text reason.entry ++ 10 ∷ []) }
{
    Said::Words {
        of,
        line: reason.line,
        words: reason.words,
    }
}
