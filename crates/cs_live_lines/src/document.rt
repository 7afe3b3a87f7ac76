//! The document of a line that adds one.
ghost use Rattle.std.specs.Prelude.{◌≡◌, ◌≢◌, ◌≤◌, ℕ, List, [], ◌∷◌, ◌++◌, All, None, IfOk, IfErr, OnOk, OnErr, length};
ghost use Rattle.cs_base.specs.content.Bytes.{line_feed};
ghost use Rattle.cs_base.specs.declared.content.limits.TheConstants.{MAX_SCRIPT_LINE_BYTES};
ghost use Rattle.cs_base.specs.declared.content.scores.Weights.{Weights};
ghost use Rattle.cs_docs.specs.FaultRefusals.{IsCauseOf};
ghost use Rattle.cs_model.specs.Collection.{document, line_refusal};
ghost use Rattle.cs_model.specs.Weights.{AreWeights};
ghost use Rattle.cs_model_live.specs.LiveLines.{second_line};
ghost use Rattle.cs_live_lines.specs.LineViews.{IsOnlyDocument, IsLineRefusal};
ghost use Rattle.cs_live_lines.specs.declared.document.DocumentFault.{DocumentFault};

use cs_base::{Doc, Memory};
use cs_docs::{DocFault, read_docs};
use std::alloc::Global;

/// Which rule of documents a line breaks.
#[derive(Clone, Copy, Debug, PartialEq, Eq)]
pub enum LineRule {
    /// It isn't UTF-8.
    NotUtf8,
    /// It has more than `MAX_LINE_BYTES` bytes.
    LineTooLong,
    /// Its title and its text have more than `MAX_DOC_WORDS` words together.
    WordsTooMany,
    /// A piece of its facets has no `=`.
    BadFacet,
    /// What stands before the first `=` of a piece of its facets has no name's form.
    BadName,
}

/// What `added_document` answers where it gives no document.
#[derive(Clone, Copy, Debug, PartialEq, Eq)]
pub enum DocumentFault {
    /// The line breaks a rule, the first that it breaks.
    Broken(LineRule),
    /// Memory ran out.
    Memory,
}

impl From<Memory> for DocumentFault {
    ghost from_gives = { λ _ e. e ≡ DocumentFault.Memory };

    fn from(_: Memory) -> DocumentFault {
        DocumentFault::Memory
    }
}

/// The document of a line, read as line 2 of a collection whose first line is empty.
pub fn added_document(alloc: Global, line: &[u8]) -> Result<Doc, DocumentFault>
    requires filled { line.now ≢ [] }
    requires one { All (λ b. b ≢ line_feed) line.now }
    requires short { length line.now ≤ MAX_SCRIPT_LINE_BYTES }

    ensures ok { IfOk result (λ d. d ≡ document (second_line line.now)) }
    ensures accepted { OnOk result (line_refusal (second_line line.now) ≡ None) }
    ensures read { IfOk result (λ d. (w : Weights) → AreWeights w → IsOnlyDocument w d) }
    ensures err { IfErr result (IsLineRefusal (line_refusal (second_line line.now))) }
{
    let collection = behind_empty_line(alloc, line)?;
    match read_docs(alloc, &collection) {
        Ok(mut collected) => match collected.docs.pop() {
            Some(doc) => Ok(doc),
            None => unreachable!(),
        },
        Err(fault) => Err(fault_of(line, fault)),
    }
}

// An empty line, and this one behind it.
fn behind_empty_line(alloc: Global, line: &[u8]) -> Result<Vec<u8>, Memory>
    ensures { IfOk result (λ v. v.items ≡ line_feed ∷ line.now) }
{
    let mut bytes = Vec::new(alloc);
    bytes.push(b'\n')?;
    bytes.extend_from_slice(line)?;
    Ok(bytes)
}

// The rule that a second line breaks, by the fault that was found there.
fn fault_of(line: &[u8], fault: DocFault) -> DocumentFault
    requires { IsCauseOf (line_refusal (second_line line.now)) fault }

    ensures { IsLineRefusal (line_refusal (second_line line.now)) result }
{
    match fault {
        DocFault::NotUtf8 { .. } => DocumentFault::Broken(LineRule::NotUtf8),
        DocFault::LineTooLong { .. } => DocumentFault::Broken(LineRule::LineTooLong),
        DocFault::WordsTooMany { .. } => DocumentFault::Broken(LineRule::WordsTooMany),
        DocFault::BadFacet { .. } => DocumentFault::Broken(LineRule::BadFacet),
        DocFault::BadName { .. } => DocumentFault::Broken(LineRule::BadName),
        DocFault::Memory => DocumentFault::Memory,
        DocFault::TooLarge | DocFault::BadWeights { .. } | DocFault::TooManyDocs { .. } => {
            unreachable!()
        }
    }
}
