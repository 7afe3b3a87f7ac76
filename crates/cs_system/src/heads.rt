//! Where request heads end among the bytes of a connection.
//!
//! Bytes are cut into lines at each LF. A line is empty where nothing but at most one CR stands before its LF. Empty lines in front
//! of a head are skipped; the next empty line ends it.
ghost use Rattle.std.specs.Prelude.{◌≡◌, ◌<◌, ◌≤◌, true, length};
ghost use Rattle.cs_system.specs.HeadMarks.{has_begun, IsBetween};

/// What the bytes so far end with.
#[derive(Clone, Copy, Debug, PartialEq, Eq)]
pub enum HeadMark {
    /// No byte of a head, but maybe empty lines in front of one.
    Between,
    /// The same, and a CR that may belong to an empty line.
    BetweenReturn,
    /// A line of a head with text.
    Text,
    /// A whole line of a head.
    Line,
    /// A whole line of a head, and a CR that may belong to an empty line.
    LineReturn,
}

impl HeadMark {
    /// Whether a head has begun that hasn't ended.
    pub fn has_begun(self) -> bool
        ensures { result ≡ has_begun self }
    {
        match self {
            HeadMark::Between | HeadMark::BetweenReturn => false,
            HeadMark::Text | HeadMark::Line | HeadMark::LineReturn => true,
        }
    }

    // With a byte more.
    fn behind(self, byte: u8) -> HeadMark {
        match (self, byte) {
            (HeadMark::Between | HeadMark::BetweenReturn, b'\n') => HeadMark::Between,
            (HeadMark::Between, b'\r') => HeadMark::BetweenReturn,
            (HeadMark::Text, b'\n') => HeadMark::Line,
            (HeadMark::Line | HeadMark::LineReturn, b'\n') => HeadMark::Between,
            (HeadMark::Line, b'\r') => HeadMark::LineReturn,
            _ => HeadMark::Text,
        }
    }
}

/// Some first bytes.
#[derive(Clone, Copy, Debug, PartialEq, Eq)]
pub struct FirstPart {
    /// How many.
    pub count: usize,
    /// What they end with.
    pub mark: HeadMark,
    /// A head ends among them.
    pub has_end: bool,
}

/// The bytes up to the end of the first head, all where none ends or where all are wanted. Those before them end with `mark`.
pub fn first_part(bytes: &[u8], mark: HeadMark, is_whole: bool) -> FirstPart
    ensures within { result.count ≤ length bytes.now }
    ensures some { 0 < length bytes.now → 0 < result.count }
    ensures whole { is_whole ≡ true → result.count ≡ length bytes.now }
    ensures cut { result.count < length bytes.now → IsBetween result.mark }
{
    let mut mark = mark;
    let mut has_end = false;
    for place in 0..bytes.len() {
        let next = mark.behind(bytes[place]);
        let is_end = mark.has_begun() && !next.has_begun();
        mark = next;
        has_end = has_end || is_end;
        if is_end && !is_whole {
            return FirstPart {
                count: place + 1,
                mark,
                has_end,
            };
        }
    }
    FirstPart {
        count: bytes.len(),
        mark,
        has_end,
    }
}
