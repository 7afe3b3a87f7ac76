//! Where a request head stands among bytes that aren't read yet, also where they come piece by piece.
ghost use Rattle.std.specs.Prelude.{◌≡◌, ◌<◌, ◌++◌, ◌∷◌, [], ℕ, List, length, false};
ghost use Rattle.cs_base.specs.declared.content.limits.TheConstants.{MAX_HEAD_BYTES as MOST};
ghost use Rattle.cs_model_serving.specs.Framing.{frame, is_line_feed};
ghost use Rattle.cs_http.specs.Looking.{look_of, tail_of, IsSeen, IsBelowLimit, IsPlaced, within_limit};

use cs_base::MAX_HEAD_BYTES;
use cs_model_serving::Framed;

/// What stands in a line that isn't ended.
#[derive(Clone, Copy, Debug, PartialEq, Eq)]
pub enum LineState {
    /// Nothing.
    Empty,
    /// One carriage return alone.
    Return,
    /// Anything else.
    Text,
}

/// What was seen of bytes among which no head ends.
#[derive(Clone, Copy, Debug, PartialEq, Eq)]
pub struct Seen {
    /// How many bytes were looked at.
    pub count: usize,
    /// The bytes of the empty lines in front.
    pub skip: usize,
    /// What stands in the last line.
    pub tail: LineState,
    /// Whether a line that isn't empty was ended.
    pub begun: bool,
}

/// What looking at bytes gives.
#[derive(Clone, Copy, Debug, PartialEq, Eq)]
pub enum Look {
    /// A head that ends among the bytes, as in `Framed`.
    Head {
        /// The bytes of the empty lines in front of it.
        skip: usize,
        /// The bytes before the place behind it.
        end: usize,
    },
    /// No head ends, and more bytes may come.
    More(Seen),
    /// No head ends among as many bytes as one may have.
    TooLong,
}

/// Where a request head stands among the bytes, of which the first `MAX_HEAD_BYTES` are looked at.
pub fn frame(bytes: &[u8]) -> Framed
    ensures { result ≡ frame bytes.now }
{
    match Seen::nothing().look(bytes) {
        Look::Head { skip, end } => Framed::Head { skip, end },
        Look::More(_) => Framed::More,
        Look::TooLong => Framed::TooLong,
    }
}

impl Seen {
    /// What is seen of no bytes.
    pub fn nothing() -> Seen
        ensures seen { IsSeen [] result }
        ensures few { result.count < MOST }
    {
        Seen {
            count: 0,
            skip: 0,
            tail: LineState::Empty,
            begun: false,
        }
    }

    /// Looks at the bytes behind those that were seen, each once: what was seen isn't looked at again.
    pub fn look(self, more: &[u8]) -> Look
        requires few { self.count < MOST }

        ensures found { (before : List ℕ) → IsSeen before self → result ≡ look_of (before ++ more.now) }
        ensures placed { IsPlaced self.count (length more.now) result }
        ensures few { IsBelowLimit result }
    {
        let mut seen = self;
        for byte in more {
            match seen.look_at(*byte) {
                Look::More(next) => seen = next,
                found => return found,
            }
        }
        Look::More(seen)
    }

    // Looks at one byte more.
    fn look_at(self, byte: u8) -> Look
        requires few { self.count < MOST }

        ensures found { (before : List ℕ) → IsSeen before self → result ≡ look_of (before ++ byte ∷ []) }
        ensures placed { IsPlaced self.count 1 result }
        ensures few { IsBelowLimit result }
    {
        if byte == b'\n' {
            self.end_line()
        } else {
            self.put(byte)
        }
    }

    // Looks at an LF, which ends a line.
    fn end_line(self) -> Look
        requires few { self.count < MOST }

        ensures found { (before : List ℕ) → IsSeen before self → result ≡ look_of (before ++ 10 ∷ []) }
        ensures placed { IsPlaced self.count 1 result }
        ensures few { IsBelowLimit result }
    {
        let count = self.count + 1;
        match (self.tail, self.begun) {
            (LineState::Text, _) => within_limit(Seen {
                count,
                skip: self.skip,
                tail: LineState::Empty,
                begun: true,
            }),
            (_, true) => Look::Head {
                skip: self.skip,
                end: count,
            },
            (_, false) => within_limit(Seen {
                count,
                skip: count,
                tail: LineState::Empty,
                begun: false,
            }),
        }
    }

    // Looks at any other byte.
    fn put(self, byte: u8) -> Look
        requires few { self.count < MOST }
        requires other { is_line_feed byte ≡ false }

        ensures found { (before : List ℕ) → IsSeen before self → result ≡ look_of (before ++ byte ∷ []) }
        ensures placed { IsPlaced self.count 1 result }
        ensures few { IsBelowLimit result }
    {
        within_limit(Seen {
            count: self.count + 1,
            skip: self.skip,
            tail: self.tail.with(byte),
            begun: self.begun,
        })
    }
}

impl LineState {
    // What stands in the line with one byte more.
    fn with(self, byte: u8) -> LineState
        ensures { (line : List ℕ) → self ≡ tail_of line → result ≡ tail_of (line ++ byte ∷ []) }
    {
        match self {
            LineState::Empty if byte == b'\r' => LineState::Return,
            _ => LineState::Text,
        }
    }
}

// What looking gives where no head ends: more bytes may come while there are fewer than a head may have.
fn within_limit(seen: Seen) -> Look
    ensures found { result ≡ within_limit seen }
    ensures counted { IsPlaced seen.count 0 result }
    ensures few { IsBelowLimit result }
{
    if seen.count < MAX_HEAD_BYTES {
        Look::More(seen)
    } else {
        Look::TooLong
    }
}
