//! The words of a text.
ghost use Rattle.std.specs.Prelude.{◌≡◌, [], IfOk, IsAscii, chars};
ghost use Rattle.std.specs.List.{All};
ghost use Rattle.std.specs.Str.{IsUtf8};
ghost use Rattle.cs_model.specs.Words.{words, words_of};

use crate::ascii::first_word;
use crate::character::is_gap;
use crate::key_text::key_string;
use crate::piece::push_word;
use cs_base::{Memory, Seq, Word};
use std::alloc::Global;

// Most texts have a word for so many bytes or more. Others take memory for their words once more.
const LIKELY_BYTES: usize = 4;

/// The words of `s`, in order: the maximal runs of word characters of its key text, each cut to the
/// longest prefix of whole characters of at most `MAX_PLAIN_WORD_BYTES` bytes.
pub fn words(alloc: Global, s: &str) -> Result<Seq<Word>, Memory>
    ensures ok { IfOk result (λ v. v ≡ words s.now) }
    ensures utf8 { IfOk result (λ v. All IsUtf8 v) }
{
    let key = key_string(alloc, s)?;
    let found = words_of(alloc, key.as_str())?;
    Ok(found)
}

// The words of a key text.
fn words_of(alloc: Global, key: &str) -> Result<Seq<Word>, Memory>
    ensures ok { IfOk result (λ v. v ≡ words_of (chars key.now)) }
{
    if key.is_ascii() {
        let found = words_of_ascii(alloc, key.as_bytes())?;
        return Ok(found);
    }
    let mut found = room_for(alloc, key.len())?;
    for piece in key.split(is_gap) {
        push_word(alloc, &mut found, piece)?;
    }
    Ok(Seq::from_vec(found))
}

// The same of ASCII text, by bytes.
fn words_of_ascii(alloc: Global, key: &[u8]) -> Result<Seq<Word>, Memory>
    requires { IsAscii key.now }

    ensures ok { IfOk result (λ v. v ≡ words_of (chars key.now)) }
{
    let mut found = room_for(alloc, key.len())?;
    let mut left = key;
    while let Some((word, behind)) = first_word(left) {
        found.push(Word::new(alloc, word)?)?;
        left = behind;
    }
    Ok(Seq::from_vec(found))
}

// An empty list with room for as many words as so many bytes are likely to have.
fn room_for(alloc: Global, bytes: usize) -> Result<Vec<Word>, Memory>
    ensures { IfOk result (λ v. v.items ≡ []) }
{
    let words = Vec::with_capacity(alloc, bytes / LIKELY_BYTES)?;
    Ok(words)
}
