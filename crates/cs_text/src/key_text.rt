//! Key texts.
ghost use Rattle.std.specs.Prelude.{◌≡◌, IfOk, chars, encode_utf8_all, string_bytes};
ghost use Rattle.std.specs.List.{list_all};
ghost use Rattle.caseless.specs.Caseless.{default_case_fold};
ghost use Rattle.unicode_normalization.specs.Forms.{nfd};
ghost use Rattle.cs_model.specs.KeyText.{norm};
ghost use Rattle.cs_text.specs.KeyBytes.{is_key_byte};

use caseless::default_case_fold_str;
use cs_base::{Memory, Text};
use std::alloc::Global;
use unicode_normalization::to_nfd;

/// The key text of `s`, by which texts are compared: its canonical decomposition (Unicode Standard
/// Annex 15), with full case folding, decomposed again. Two texts have one key text where they match
/// canonically and caseless (The Unicode Standard, D145).
pub fn norm(alloc: Global, s: &str) -> Result<Text, Memory>
    ensures ok { IfOk result (λ t. t ≡ norm s.now) }
{
    let key = key_string(alloc, s)?;
    Ok(Text::from_string(key))
}

/// Whether a text is of bytes that its key text keeps as they are: ASCII, with no capital letter. Then it is its own
/// key text.
pub fn is_plain_key(s: &str) -> bool
    ensures { result ≡ list_all is_key_byte s.now }
{
    let mut plain = true;
    for byte in s.as_bytes() {
        plain &= is_key_byte(*byte);
    }
    plain
}

/// The key text as a string.
pub(crate) fn key_string(alloc: Global, s: &str) -> Result<String, Memory>
    ensures ok { IfOk result (λ t. string_bytes t ≡ norm s.now) }
{
    if s.is_ascii() {
        let lower = s.to_ascii_lowercase(alloc)?;
        return Ok(lower);
    }
    let folded = folded_of(alloc, s)?;
    let key = to_nfd(alloc, folded.as_str())?;
    Ok(key)
}

// The decomposed text with case folded.
fn folded_of(alloc: Global, s: &str) -> Result<String, Memory>
    ensures ok { IfOk result (λ t. string_bytes t ≡ encode_utf8_all (default_case_fold (nfd (chars s.now)))) }
{
    let decomposed = to_nfd(alloc, s)?;
    let folded = default_case_fold_str(alloc, decomposed.as_str())?;
    Ok(folded)
}

#[inline]
fn is_key_byte(b: u8) -> bool
    ensures { result ≡ is_key_byte b }
{
    (b < 128) & !((b'A' <= b) & (b <= b'Z'))
}
