//! The texts that are typed over a trial's collection.
ghost use Rattle.std.specs.Prelude.{◌≡◌, ◌≤◌, ◌<◌, ◌+◌, ◌*◌, ◌++◌, length, map, take, IsAscii, IfOk, OnOk};
ghost use Rattle.std.specs.List.{range_with_len};
ghost use Rattle.cs_base.specs.declared.content.limits.TheConstants.{MAX_TRIAL};
ghost use Rattle.cs_model_trial.specs.Generator.{line_count};
ghost use Rattle.cs_model_trial.specs.Sessions.{session_at, text_word, texts};
ghost use Rattle.cs_model_trial.specs.declared.sizes.TheConstants.{TEXT_WORDS, TYPED_LETTERS};

use crate::draws::Draws;
use crate::syllables::{WORD_BYTES, with_word_of};
use cs_base::{Memory, Seq, Text};
use cs_model_trial::{LINES, SESSIONS, TEXT_WORDS, TITLE_WORDS, WORDS};
use std::alloc::Global;

// the draws of a line's title and of its facet, and those of a whole line
const TEXT_DRAWS: u32 = TITLE_WORDS + 1;

const LINE_DRAWS: u32 = TEXT_DRAWS + TEXT_WORDS;

/// The texts that the sessions of trial `n` ask, in their order.
pub fn texts(alloc: Global, n: u32) -> Result<Seq<Text>, Memory>
    requires some { 1 ≤ n }
    requires most { n ≤ MAX_TRIAL }

    ensures { IfOk result (λ ts. ts ≡ texts n) }
{
    let lines = LINES * n;
    let mut texts = Seq::new(alloc);
    let mut draws = Draws::behind(n, lines * LINE_DRAWS);
    for _ in 0..SESSIONS {
        let doc = draws.below(lines);
        let place = draws.below(TEXT_WORDS);
        put_session(alloc, &mut texts, n, doc, place)?;
    }
    Ok(texts)
}

// Adds the texts of the session over a document's text word and the one behind it, which behind the last is the first.
fn put_session(
    alloc: Global,
    texts: &mut Seq<Text>,
    n: u32,
    doc: u32,
    place: u32,
) -> Result<(), Memory>
    requires most { n ≤ MAX_TRIAL }
    requires doc { doc < line_count n }
    requires place { place < TEXT_WORDS }

    ensures { OnOk result (texts.new ≡ texts.old ++ session_at n doc place) }
{
    let first = text_word(alloc, n, doc, place)?;
    let second = text_word(alloc, n, doc, (place + 1) % TEXT_WORDS)?;
    let mut text = type_word(alloc, texts, Text::new(alloc), &first)?;
    let alone = text.copy(alloc)?;
    text.push(' ')?;
    let _ = type_word(alloc, texts, text, &second)?;
    texts.push(alone)?;
    Ok(())
}

// A word of a document's text, the first at place 0.
fn text_word(alloc: Global, n: u32, doc: u32, place: u32) -> Result<Vec<u8>, Memory>
    requires most { n ≤ MAX_TRIAL }
    requires doc { doc < line_count n }
    requires place { place < TEXT_WORDS }

    ensures value { IfOk result (λ w. w.items ≡ text_word n doc place) }
    ensures ascii { IfOk result (λ w. IsAscii w.items) }
    ensures long { IfOk result (λ w. length w.items ≡ TYPED_LETTERS) }
{
    let mut draws = Draws::behind(n, doc * LINE_DRAWS + TEXT_DRAWS + place);
    let room = Vec::with_capacity(alloc, WORD_BYTES as usize)?;
    Ok(with_word_of(room, draws.below(WORDS)))
}

// Types a word behind a text, letter by letter, and adds what then stands there. It gives the text with the whole word.
fn type_word(
    alloc: Global,
    texts: &mut Seq<Text>,
    before: Text,
    word: &[u8],
) -> Result<Text, Memory>
    requires { IsAscii word.now }

    ensures text { IfOk result (λ t. t ≡ before ++ word.now) }
    ensures texts { OnOk result (texts.new ≡ texts.old ++ map (λ c. before ++ take c word.now) (range_with_len 1 (length word.now))) }
{
    let mut text = before;
    for letter in word {
        text.push(char::from(*letter))?;
        texts.push(text.copy(alloc)?)?;
    }
    Ok(text)
}
