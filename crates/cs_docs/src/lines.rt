//! The lines of a text, those of a collection and those of a script.
ghost use Rattle.std.specs.Prelude.{◌≡◌, ◌<◌, ◌≤◌, ◌∷◌, length};
ghost use Rattle.std.specs.Str.Lines.{lines, strip_carriage_return};
ghost use Rattle.cs_model.specs.Collection.{without_mark};
ghost use Rattle.cs_docs.specs.Lines.{Shows};

use memchr::memchr;

/// The byte order mark of UTF-8, which may stand in front of a text.
pub const BYTE_ORDER_MARK: [u8; 3] = *b"\xEF\xBB\xBF";

/// The bytes without the mark EF BB BF in front, if it is there.
pub fn without_mark(bytes: &[u8]) -> &[u8]
    ensures { result.now ≡ without_mark bytes.now }
{
    bytes.strip_prefix(&BYTE_ORDER_MARK).unwrap_or(bytes)
}

/// The first line of a text that has bytes, without its ending, and what stands behind that.
pub fn first_line(text: &[u8]) -> (&[u8], &[u8])
    requires { 0 < length text.now }

    ensures lines { lines text.now ≡ result.0.now ∷ lines result.1.now }
    ensures shorter { length result.1.now < length text.now }
{
    let (len, next) = first_end(text);
    (&text[..len], &text[next..])
}

/// The length of the first line of a text that has bytes, without its ending, and the place behind its ending.
///
/// LF ends a line, with one CR directly before it. Without LF all of the text is that line.
pub fn first_end(text: &[u8]) -> (usize, usize)
    requires { 0 < length text.now }

    ensures shows { Shows text.now result.0 result.1 }
    ensures len { result.0 ≤ length text.now }
    ensures next { (0 < result.1) × (result.1 ≤ length text.now) }
{
    match memchr(b'\n', text) {
        Some(end) => (without_return(&text[..end]).len(), end + 1),
        None => (text.len(), text.len()),
    }
}

// The line without the one carriage return at its end, if it has one.
fn without_return(line: &[u8]) -> &[u8]
    ensures { result.now ≡ strip_carriage_return line.now }
{
    match line.last() {
        Some(b'\r') => &line[..line.len() - 1],
        _ => line,
    }
}
