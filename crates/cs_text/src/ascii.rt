//! The first word of ASCII text, by bytes.
ghost use Rattle.std.specs.Prelude.{◌≡◌, ◌≤◌, ◌<◌, [], ◌∷◌, IfNone, IfSome, IsAscii, chars, length};
ghost use Rattle.std.specs.Char.{is_ascii_alphanumeric};
ghost use Rattle.std.specs.List.{prefix_len, position_or_len};
ghost use Rattle.cs_model.specs.Words.{words_of};

use cs_base::MAX_PLAIN_WORD_BYTES;

// Each letter and digit stands at its own place, and a comma at every other place.
static LETTERS_AND_DIGITS: [u8; 256] = *b"\
    ,,,,,,,,,,,,,,,,,,,,,,,,,,,,,,,,\
    ,,,,,,,,,,,,,,,,0123456789,,,,,,\
    ,ABCDEFGHIJKLMNOPQRSTUVWXYZ,,,,,\
    ,abcdefghijklmnopqrstuvwxyz,,,,,\
    ,,,,,,,,,,,,,,,,,,,,,,,,,,,,,,,,\
    ,,,,,,,,,,,,,,,,,,,,,,,,,,,,,,,,\
    ,,,,,,,,,,,,,,,,,,,,,,,,,,,,,,,,\
    ,,,,,,,,,,,,,,,,,,,,,,,,,,,,,,,,";

/// The first word of ASCII text, cut to its first `MAX_PLAIN_WORD_BYTES` bytes, and the text behind it: what stands
/// behind the whole run of letters and digits. There is none where the text has no letter and no digit.
#[inline]
pub fn first_word(key: &[u8]) -> Option<(&[u8], &[u8])>
    requires { IsAscii key.now }

    ensures none { IfNone result (words_of (chars key.now) ≡ []) }
    ensures some { IfSome result (λ p. words_of (chars key.now) ≡ p.0.now ∷ words_of (chars p.1.now)) }
    ensures few { IfSome result (λ p. (1 ≤ length p.0.now) × (length p.0.now ≤ MAX_PLAIN_WORD_BYTES)) }

    ensures shorter { IfSome result (λ p. length p.1.now < length key.now) }
    ensures ascii { IfSome result (λ p. IsAscii p.1.now) }
{
    let start = gap_bytes(key);
    if start == key.len() {
        return None;
    }
    let left = &key[start..];
    let end = run_bytes(left);
    Some((&left[..end.min(MAX_PLAIN_WORD_BYTES)], &left[end..]))
}

// How many bytes stand before the first letter or digit; all where there is none.
#[inline]
fn gap_bytes(bytes: &[u8]) -> usize
    ensures gap { result ≡ position_or_len is_ascii_alphanumeric bytes.now }
    ensures within { result ≤ length bytes.now }
{
    let mut end = 0;
    while end < bytes.len() && !is_word_byte(bytes[end]) {
        end += 1;
    }
    end
}

// How many letters and digits there are at the front.
#[inline]
fn run_bytes(bytes: &[u8]) -> usize
    ensures run { result ≡ prefix_len is_ascii_alphanumeric bytes.now }
    ensures within { result ≤ length bytes.now }
{
    let mut end = 0;
    while end < bytes.len() && is_word_byte(bytes[end]) {
        end += 1;
    }
    end
}

// Whether a byte is a letter or a digit.
#[inline]
fn is_word_byte(b: u8) -> bool
    ensures { result ≡ is_ascii_alphanumeric b }
{
    LETTERS_AND_DIGITS[b as usize] != b','
}
