//! A text cut at its first byte of one kind.
ghost use Rattle.std.specs.Prelude.{◌≡◌, ◌<◌, MatchOption, length};
ghost use Rattle.std.specs.List.{before_first, after_first, position_or_len};
ghost use Rattle.memchr.specs.Find.{is_byte};

use memchr::memchr;

/// What stands before the first such byte, an ASCII one, and what stands behind it, if there is one.
pub(crate) fn cut_at(text: &str, byte: u8) -> Option<(&str, &str)>
    requires ascii { byte < 128 }

    ensures { MatchOption result (position_or_len (is_byte byte) text.now ≡ length text.now) (λ p. (position_or_len (is_byte byte) text.now < length text.now) × (p.0.now ≡ before_first (is_byte byte) text.now) × (p.1.now ≡ after_first (is_byte byte) text.now)) }
{
    let Some(at) = memchr(byte, text.as_bytes()) else {
        return None;
    };
    Some((&text[..at], &text[at + 1..]))
}
