//! What a line does.
ghost use Rattle.std.specs.Prelude.{◌≡◌, Some, None, if◌then◌else◌};
ghost use Rattle.cs_model.specs.Digits.{has_digits, number_of};
ghost use Rattle.cs_model_live.specs.LiveLines.{live_line};
ghost use Rattle.cs_model_live.specs.declared.limits.TheConstants.{MAX_DOC_DIGITS};
ghost use Rattle.cs_live_lines.specs.LineViews.{line_seen};

use cs_model_live::MAX_DOC_DIGITS;
use cs_text::{has_digits, number_of};

/// What stands in front of a document that is added.
const ADDS: [u8; 4] = *b"add ";

/// What stands in front of the number of a document that is deleted.
const DELETES: [u8; 4] = *b"del ";

/// What a line does, lent from it.
#[derive(Clone, Copy, Debug, PartialEq, Eq)]
pub enum LiveLine<'a> {
    /// It adds the document of these bytes; of none it adds nothing.
    Adds(&'a [u8]),
    /// It deletes the document of the number that these bytes spell, if they spell one.
    Deletes(&'a [u8]),
    /// It asks with these parameters, which are the whole line.
    Asks(&'a [u8]),
}

/// What a line does.
pub fn live_line(line: &[u8]) -> LiveLine<'_>
    ensures { line_seen result ≡ live_line line.now }
{
    if let Some(document) = line.strip_prefix(&ADDS) {
        return LiveLine::Adds(document);
    }
    if let Some(number) = line.strip_prefix(&DELETES) {
        return LiveLine::Deletes(number);
    }
    LiveLine::Asks(line)
}

/// The number of a document that is deleted, leading zeros read; None where it isn't 1 to `MAX_DOC_DIGITS` digits.
pub fn doc_number(digits: &[u8]) -> Option<u32>
    ensures { result ≡ if has_digits MAX_DOC_DIGITS digits.now then Some (number_of digits.now) else None }
{
    if has_digits(digits, MAX_DOC_DIGITS) {
        Some(number_of(digits))
    } else {
        None
    }
}
