//! Pieces of a text between gaps, and what becomes of them.
ghost use Rattle.std.specs.Prelude.{◌≡◌, ◌≤◌, ◌++◌, [], ◌∷◌, OnOk, OnErr, chars, length};
ghost use Rattle.cs_model.specs.Words.{cut};
ghost use Rattle.cs_text.specs.WordPieces.{words_of_pieces};

use cs_base::{MAX_PLAIN_WORD_BYTES, Memory, Word};
use std::alloc::Global;

/// The longest prefix of whole characters that a word has room for.
pub(crate) fn cut(text: &str) -> &str
    ensures value { result.now ≡ cut (chars text.now) }
    ensures few { length result.now ≤ MAX_PLAIN_WORD_BYTES }
    ensures some { 1 ≤ length text.now → 1 ≤ length result.now }
{
    let end = text.floor_char_boundary(MAX_PLAIN_WORD_BYTES);
    &text[..end]
}

/// Adds the word of a piece, if the piece has characters.
pub(crate) fn push_word(alloc: Global, words: &mut Vec<Word>, piece: &str) -> Result<(), Memory>
    ensures ok { OnOk result (words.new.items ≡ words.old.items ++ words_of_pieces (chars piece.now ∷ [])) }
    ensures err { OnErr result (words.new.items ≡ words.old.items) }
{
    if piece.is_empty() {
        return Ok(());
    }
    let word = Word::new(alloc, cut(piece).as_bytes())?;
    words.push(word)?;
    Ok(())
}
