//! Why a script isn't read to its end.
ghost use Rattle.std.specs.Prelude.{◌≡◌};
ghost use Rattle.cs_docs.specs.FaultRefusals.{reason_text};
ghost use Rattle.cs_model.specs.Outputs.{fault_words};
ghost use Rattle.cs_indexing.specs.Views.{fault_seen};
ghost use Rattle.cs_indexing.specs.declared.unread.ScriptStop.{ScriptStop};

use cs_base::Failed;
use cs_docs::Reason;

/// Why a script ends before its last line.
#[derive(Clone, Copy, Debug, PartialEq, Eq)]
pub enum ScriptStop {
    /// A line can't be read.
    Unread(ScriptFault),
    /// A call of files or of standard output failed.
    Failed,
}

/// Why a line of a script can't be read.
#[derive(Clone, Copy, Debug, PartialEq, Eq)]
pub enum ScriptFault {
    /// It has more than `MAX_SCRIPT_LINE_BYTES` without its ending.
    TooLong {
        /// Its number from 1 among all lines.
        line: u64,
    },
    /// It isn't UTF-8.
    NotUtf8 {
        /// Its number from 1 among all lines.
        line: u64,
    },
}

impl ScriptFault {
    /// What is said of it.
    pub fn reason(self) -> Reason<'static>
        ensures { reason_text result ≡ fault_words (fault_seen self) }
    {
        match self {
            ScriptFault::TooLong { line } => Reason {
                line: Some(line),
                words: b"too long",
            },
            ScriptFault::NotUtf8 { line } => Reason {
                line: Some(line),
                words: b"not UTF-8",
            },
        }
    }
}

impl From<Failed> for ScriptStop {
    ghost from_gives = { λ _ stop. stop ≡ ScriptStop.Failed };

    fn from(_: Failed) -> ScriptStop {
        ScriptStop::Failed
    }
}
