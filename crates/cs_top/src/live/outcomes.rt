//! What becomes of a line that adds or deletes a document, and how it is put. It takes no memory, so that a change that is made is told.
ghost use Rattle.std.specs.Prelude.{◌≡◌, ◌∷◌, ◌++◌, [], IfOk, IfErr, OnOk, OnErr};
ghost use Rattle.cs_base.specs.content.Bytes.{line_feed};
ghost use Rattle.cs_base.specs.outside.Causes.{Counted};
ghost use Rattle.cs_base.specs.outside.Outside.{Grew, GrewByPrefix};
ghost use Rattle.cs_model_live.specs.LiveLines.{added_text, deleted_text};
ghost use Rattle.cs_indexing.specs.CommandLine.{CausedBy};
ghost use Rattle.cs_indexing.specs.Views.{of_script, stop_ending};
ghost use Rattle.cs_top.specs.LiveTexts.{told_bytes};
ghost use Rattle.cs_top.specs.declared.script.WhatCame.TheVariants.{Answered};

use crate::script::WhatCame;
use cs_base::{Failed, Sink};
use cs_indexing::{ScriptStop, put_all};
use itoa::Buffer;

/// What becomes of a line that adds or deletes a document.
#[derive(Clone, Copy, Debug, PartialEq, Eq)]
pub(super) enum Outcome {
    /// Nothing changes, and this line is put.
    Line(&'static [u8]),
    /// A document is added.
    Added {
        /// Its number.
        doc: u32,
        /// How many changes there were, with this one.
        changes: u32,
    },
    /// A document is deleted.
    Deleted {
        /// How many changes there were, with this one.
        changes: u32,
    },
}

/// Puts an outcome. Each line that has one is answered.
pub(super) fn put_outcome<O: Sink>(out: &mut O, outcome: Outcome) -> Result<WhatCame, ScriptStop>
    ensures ok { OnOk result (Grew (O.written out.old) (told_bytes outcome) (O.written out.new)) }
    ensures came { IfOk result (λ c. c ≡ Answered) }
    ensures err { OnErr result (GrewByPrefix (O.written out.old) (told_bytes outcome) (O.written out.new)) }
    ensures kind { IfErr result (λ s. s ≡ ScriptStop.Failed) }
    ensures quiet { OnOk result (O.faults out.new ≡ O.faults out.old) }
    ensures caused { IfErr result (λ s. CausedBy (stop_ending (of_script s)) (O.faults out.old) (O.faults out.new)) }
{
    match outcome {
        Outcome::Line(bytes) => out.put(bytes)?,
        Outcome::Added { doc, changes } => put_added(out, doc, changes)?,
        Outcome::Deleted { changes } => put_deleted(out, changes)?,
    }
    Ok(WhatCame::Answered)
}

// Puts the text of a document that is added, with its line ending.
fn put_added<O: Sink>(out: &mut O, doc: u32, changes: u32) -> Result<(), Failed>
    ensures ok { OnOk result (Grew (O.written out.old) (added_text doc changes ++ line_feed ∷ []) (O.written out.new)) }
    ensures err { OnErr result (GrewByPrefix (O.written out.old) (added_text doc changes ++ line_feed ∷ []) (O.written out.new)) }
    ensures counted { Counted (O.faults out.old) (O.faults out.new) result }
{
    let mut doc_digits = Buffer::new();
    let mut changes_digits = Buffer::new();
    let doc = doc_digits.format(doc).as_bytes();
    let changes = changes_digits.format(changes).as_bytes();
    put_all(out, &[b"{\"doc\":", doc, b",\"state\":", changes, b"}\n"])
}

// Puts the text of a document that is deleted, with its line ending.
fn put_deleted<O: Sink>(out: &mut O, changes: u32) -> Result<(), Failed>
    ensures ok { OnOk result (Grew (O.written out.old) (deleted_text changes ++ line_feed ∷ []) (O.written out.new)) }
    ensures err { OnErr result (GrewByPrefix (O.written out.old) (deleted_text changes ++ line_feed ∷ []) (O.written out.new)) }
    ensures counted { Counted (O.faults out.old) (O.faults out.new) result }
{
    let mut digits = Buffer::new();
    let changes = digits.format(changes).as_bytes();
    put_all(out, &[b"{\"state\":", changes, b"}\n"])
}
