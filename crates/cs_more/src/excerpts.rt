//! The excerpt that a hit is shown with.
ghost use Rattle.std.specs.Prelude.{◌≡◌, ◌∷◌, ◌<◌, ◌≤◌, ◌^◌, ◌++◌, [], IfOk, OnOk, filter, length, map, string_bytes};
ghost use Rattle.std.specs.List.{All, list_any};
ghost use Rattle.std.specs.Str.{IsUtf8};
ghost use Rattle.cs_base.specs.declared.content.doc.Doc.{Doc};
ghost use Rattle.cs_base.specs.declared.content.limits.TheConstants.{MAX_DOC_WORDS};
ghost use Rattle.cs_docs.specs.LinesRead.{doc_of_lent};
ghost use Rattle.cs_model.specs.Words.{words};
ghost use Rattle.cs_model_excerpts.specs.Excerpts.{bracketed, is_positive, is_textual, own_excerpt, run_text, textual};
ghost use Rattle.cs_model_excerpts.specs.OwnWords.{part_marks};
ghost use Rattle.cs_model_excerpts.specs.Runs.{has_mark_at};
ghost use Rattle.cs_more.specs.RunSearch.{seen_run};

use crate::marks::{has_mark_at, part_marks};
use crate::runs::{WordRun, shortest_run};
use cs_base::{Doc, Memory, Part, Query, Seq, Text, Word};
use cs_docs::LentDoc;
use cs_model_excerpts::MAX_EXCERPT_WORDS;
use cs_text::words;
use std::alloc::Global;

/// The shortest run of a document's text words that has a word of each positive part of a query that some text word
/// serves, of those of one length the first, cut to its first `MAX_EXCERPT_WORDS` words. A word that serves such a part
/// stands between brackets. It is the empty text where no text word serves a positive part.
pub fn excerpt(alloc: Global, doc: &Doc, query: &Query) -> Result<Text, Memory>
    // A document of a collection has no more.
    requires few { length (words doc.now.text) ≤ MAX_DOC_WORDS }

    ensures ok { IfOk result (λ t. t ≡ own_excerpt query.now doc.now) }
{
    let text = excerpt_of(alloc, doc.text.as_str(), query)?;
    Ok(text)
}

/// The excerpt of a document whose columns are lent, as `excerpt` gives it.
pub fn lent_excerpt(alloc: Global, doc: &LentDoc<'_>, query: &Query) -> Result<Text, Memory>
    // A document of a collection has no more.
    requires few { length (words doc.now.text.now) ≤ MAX_DOC_WORDS }

    ensures ok { IfOk result (λ t. t ≡ own_excerpt query.now (doc_of_lent doc.now)) }
{
    let text = excerpt_of(alloc, doc.text, query)?;
    Ok(text)
}

// The excerpt of each document with this text.
fn excerpt_of(alloc: Global, text: &str, query: &Query) -> Result<Text, Memory>
    requires few { length (words text.now) ≤ MAX_DOC_WORDS }

    ensures ok { IfOk result (λ t. (doc : Doc) → doc.text ≡ text.now → t ≡ own_excerpt query.now doc) }
{
    let words = words(alloc, text)?;
    let marks = textual_marks(alloc, words.as_slice(), query.parts.as_slice())?;
    if marks.is_empty() {
        return Ok(Text::new(alloc));
    }
    let Some(run) = shortest_run(alloc, &marks, words.len())? else {
        return Ok(Text::new(alloc));
    };
    let text = run_text(alloc, words.as_slice(), &marks, run)?;
    Ok(text)
}

// The marks of each positive part that some word serves.
fn textual_marks(alloc: Global, words: &[Word], parts: &[Part]) -> Result<Vec<Seq<bool>>, Memory>
    requires few { length words.now < 2 ^ 32 }

    ensures ok { IfOk result (λ v. v.items ≡ textual (map (part_marks words.now) (filter is_positive parts.now))) }
{
    let mut marks = Vec::with_capacity(alloc, parts.len())?;
    for part in parts {
        push_marks(alloc, &mut marks, words, part)?;
    }
    Ok(marks)
}

fn push_marks(
    alloc: Global,
    marks: &mut Vec<Seq<bool>>,
    words: &[Word],
    part: &Part,
) -> Result<(), Memory>
    requires few { length words.now < 2 ^ 32 }

    ensures ok { OnOk result (marks.new.items ≡ marks.old.items ++ textual (map (part_marks words.now) (filter is_positive (part.now ∷ [])))) }
{
    if part.excluded {
        return Ok(());
    }
    let own = part_marks(alloc, words, part)?;
    if is_textual(own.as_slice()) {
        marks.push(own)?;
    }
    Ok(())
}

// Whether some word has a mark.
fn is_textual(marks: &[bool]) -> bool
    ensures { result ≡ is_textual marks.now }
{
    for mark in marks {
        if *mark {
            return true;
        }
    }
    false
}

// The first words of a run, with a space between each two, and brackets around those that serve a part.
fn run_text(
    alloc: Global,
    words: &[Word],
    marks: &[Seq<bool>],
    run: WordRun,
) -> Result<Text, Memory>
    requires run { (run.first ≤ run.last) × (run.last < length words.now) }
    requires utf8 { All IsUtf8 words.now }

    ensures ok { IfOk result (λ t. t ≡ run_text words.now marks.now (seen_run run)) }
{
    let mut text = String::new(alloc);
    let end = (run.last + 1).min(run.first + MAX_EXCERPT_WORDS);
    push_word(&mut text, &words[run.first], marks, run.first)?;
    for place in run.first + 1..end {
        text.push(' ')?;
        push_word(&mut text, &words[place], marks, place)?;
    }
    Ok(Text::from_string(text))
}

fn push_word(
    text: &mut String,
    word: &Word,
    marks: &[Seq<bool>],
    place: usize,
) -> Result<(), Memory>
    requires utf8 { IsUtf8 word.now }

    ensures ok { OnOk result (string_bytes text.new ≡ string_bytes text.old ++ bracketed marks.now (place, word.now)) }
{
    let Ok(shown) = std::str::from_utf8(word.bytes()) else {
        unreachable!()
    };
    if !is_served(marks, place) {
        text.push_str(shown)?;
        return Ok(());
    }
    text.push('[')?;
    text.push_str(shown)?;
    text.push(']')?;
    Ok(())
}

// Whether the word at a place serves some part.
fn is_served(marks: &[Seq<bool>], place: usize) -> bool
    ensures { result ≡ list_any (λ m. has_mark_at m place) marks.now }
{
    for own in marks {
        if has_mark_at(own.as_slice(), place) {
            return true;
        }
    }
    false
}
