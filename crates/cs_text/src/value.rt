//! The slug that a facet's value is written by.
ghost use Rattle.std.specs.Prelude.{◌≡◌, IfOk, OnOk, [], ◌∷◌, chars, string_bytes};
ghost use Rattle.std.specs.List.{join_with_byte};
ghost use Rattle.cs_model.specs.Words.{slug, words_of};
ghost use Rattle.cs_text.specs.WordPieces.{is_small_word, words_of_pieces, joined_with};

use crate::character::is_gap;
use crate::key_text::key_string;
use crate::name::has_name_bytes;
use crate::piece::cut;
use cs_base::{MAX_PLAIN_WORD_BYTES, Memory, Text};
use std::alloc::Global;

/// The words of `value` with `_` between each two, cut to the longest prefix of whole characters of at
/// most `MAX_PLAIN_WORD_BYTES` bytes. There is none where `value` has no word.
pub fn slug(alloc: Global, value: &str) -> Result<Option<Text>, Memory>
    ensures ok { IfOk result (λ o. o ≡ slug value.now) }
{
    if is_small_word(value.as_bytes()) {
        let own = Text::from_str(alloc, value)?;
        return Ok(Some(own));
    }
    let key = key_string(alloc, value)?;
    let joined = joined_words(alloc, key.as_str())?;
    if joined.is_empty() {
        return Ok(None);
    }
    let text = Text::from_str(alloc, cut(joined.as_str()))?;
    Ok(Some(text))
}

/// Whether bytes are one word of letters `a` to `z` and digits, at most `MAX_PLAIN_WORD_BYTES` bytes, which is its own slug.
pub fn is_small_word(bytes: &[u8]) -> bool
    ensures { result ≡ is_small_word bytes.now }
{
    !bytes.is_empty() && bytes.len() <= MAX_PLAIN_WORD_BYTES && has_name_bytes(bytes)
}

// The words of a key text with `_` between each two.
fn joined_words(alloc: Global, key: &str) -> Result<String, Memory>
    ensures ok { IfOk result (λ t. string_bytes t ≡ join_with_byte 95 (words_of (chars key.now))) }
{
    let mut joined = String::new(alloc);
    for piece in key.split(is_gap) {
        join_word(&mut joined, piece)?;
    }
    Ok(joined)
}

// Adds the word of a piece, if the piece has characters, and before it a `_` if it isn't the first.
fn join_word(joined: &mut String, piece: &str) -> Result<(), Memory>
    ensures ok { OnOk result (string_bytes joined.new ≡ joined_with (string_bytes joined.old) (words_of_pieces (chars piece.now ∷ []))) }
{
    if piece.is_empty() {
        return Ok(());
    }
    if !joined.is_empty() {
        joined.push('_')?;
    }
    joined.push_str(cut(piece))?;
    Ok(())
}
