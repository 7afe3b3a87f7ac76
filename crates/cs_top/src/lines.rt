//! The lines of a script, read one after the other.
ghost use Rattle.std.specs.Prelude.{◌≡◌, ◌≢◌, ◌<◌, ◌≤◌, All, IfOk, length, take, drop};
ghost use Rattle.std.specs.Option.{option_map};
ghost use Rattle.cs_base.specs.content.Bytes.{line_feed};
ghost use Rattle.cs_base.specs.outside.Causes.{Counted};
ghost use Rattle.cs_model.specs.Collection.{without_mark};
ghost use Rattle.cs_model.specs.Outputs.{line_fault};
ghost use Rattle.cs_indexing.specs.Views.{IsSized, OfFile, fault_seen};
ghost use Rattle.cs_top.specs.ScriptEndings.{IsFirstLine};

use cs_base::{Failed, Files, MAX_SCRIPT_LINE_BYTES};
use cs_docs::{BYTE_ORDER_MARK, first_end};
use cs_indexing::{HeldFile, ScriptFault};
use std::str;

/// How many bytes the mark in front of a text has.
const MARK_BYTES: usize = BYTE_ORDER_MARK.len();

/// The most bytes of a line with CR and LF behind it.
pub(crate) const WINDOW_BYTES: usize = MAX_SCRIPT_LINE_BYTES + 2;

/// Where the next line of a file begins.
#[derive(Clone, Copy, Debug, PartialEq, Eq)]
pub(crate) struct Place {
    /// The bytes before it.
    pub at: u64,
    /// The lines before it.
    pub number: u64,
}

/// The place of a file's first line: behind the mark EF BB BF, if it stands in front.
pub(crate) fn first_place<F: Files>(files: &mut F, file: HeldFile<'_>) -> Result<u64, Failed>
    requires size { IsSized (F.held files.old) file }

    ensures mark { OfFile (F.held files.old) file.entry (λ b. IfOk result (λ at. without_mark b ≡ drop at b)) }
    ensures within { IfOk result (λ at. at ≤ file.entry.size) }
    ensures same { F.held files.new ≡ F.held files.old }
    ensures counted { Counted (F.faults files.old) (F.faults files.new) result }
{
    if file.size < MARK_BYTES as u64 {
        return Ok(0);
    }
    let mut front = [0u8; MARK_BYTES];
    files.read_at(file.name, 0, &mut front)?;
    Ok(if front == BYTE_ORDER_MARK {
        MARK_BYTES as u64
    } else {
        0
    })
}

/// Reads the line at a place before a file's end into the front of the buffer, and answers its length and the place
/// behind it. A line of more than `MAX_SCRIPT_LINE_BYTES` may be cut, but never to so few.
pub(crate) fn read_line<F: Files>(
    files: &mut F,
    file: HeldFile<'_>,
    at: u64,
    buffer: &mut [u8],
) -> Result<(usize, u64), Failed>
    requires size { IsSized (F.held files.old) file }
    requires within { at < file.size }
    requires room { length buffer.old ≡ WINDOW_BYTES }

    ensures line { OfFile (F.held files.old) file.entry (λ b. IfOk result (λ r. IsFirstLine (drop at b) (take r.0 buffer.new) (drop r.1 b))) }
    ensures one { IfOk result (λ r. All (λ b. b ≢ line_feed) (take r.0 buffer.new)) }
    ensures len { IfOk result (λ r. r.0 ≤ WINDOW_BYTES) }
    ensures next { IfOk result (λ r. (at < r.1) × (r.1 ≤ file.entry.size)) }
    ensures same { F.held files.new ≡ F.held files.old }
    ensures counted { Counted (F.faults files.old) (F.faults files.new) result }
{
    let room = (file.size - at).min(WINDOW_BYTES as u64) as usize;
    let window = &mut buffer[..room];
    files.read_at(file.name, at, window)?;
    let (len, next) = first_end(window);
    Ok((len, at + next as u64))
}

/// Why a line isn't read, if it isn't.
pub(crate) fn line_fault(line: &[u8], number: u64) -> Option<ScriptFault>
    ensures { option_map fault_seen result ≡ line_fault (number, line.now) }
{
    if line.len() > MAX_SCRIPT_LINE_BYTES {
        return Some(ScriptFault::TooLong { line: number });
    }
    match str::from_utf8(line) {
        Ok(_) => None,
        Err(_) => Some(ScriptFault::NotUtf8 { line: number }),
    }
}
