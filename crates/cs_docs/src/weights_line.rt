//! The line of weights, which may be the first one of a collection.
ghost use Rattle.std.specs.Prelude.{◌≡◌, ◌+◌, ◌≤◌, ◌∷◌, [], Some, None, IfOk, OnOk, IfErr, if◌then◌else◌, length, drop, nat_eq};
ghost use Rattle.std.specs.List.{starts_with};
ghost use Rattle.std.specs.Str.Lines.{lines};
ghost use Rattle.cs_model.specs.Collection.{weights_of_lines, weights_refusal};
ghost use Rattle.cs_model.specs.Weights.{names_weights, weight_of, weights_in, weights_said};
ghost use Rattle.cs_docs.specs.FaultRefusals.{IsCauseOf, front_refusal};
ghost use Rattle.cs_docs.specs.LinesRead.{doc_lines_of, doc_lines_from, weights_lines_of};

use crate::cut::cut_at;
use crate::document::line_as_text;
use crate::fault::DocFault;
use crate::lines::first_line;
use cs_base::{MAX_ROW_SCORE, MAX_WEIGHT_DIGITS, USUAL_WEIGHTS, Weights};
use cs_text::{has_digits, number_of};

/// The weights of a collection, and its lines that are documents.
#[derive(Clone, Copy, Debug)]
pub(crate) struct WeightsFront<'a> {
    /// The weights of its first line, or the usual ones.
    pub(crate) weights: Weights,
    /// How many lines stand before those of documents: 1 where the first one says weights, else 0.
    pub(crate) lines: u32,
    /// The lines of documents.
    pub(crate) rest: &'a [u8],
}

/// The weights that the first line of a text says, the usual ones where it names none, and the lines of documents.
pub(crate) fn front_of(text: &[u8]) -> Result<WeightsFront<'_>, DocFault>
    ensures docs { IfOk result (λ f. doc_lines_of (lines text.now) ≡ doc_lines_from 0 (f.lines + 1) (lines f.rest.now)) }
    ensures weights { IfOk result (λ f. f.weights ≡ weights_of_lines (weights_lines_of (lines text.now))) }
    ensures within { IfOk result (λ f. f.lines + length f.rest.now ≤ length text.now) }
    ensures accepted { OnOk result (front_refusal (lines text.now) ≡ None) }
    ensures err { IfErr result (λ e. IsCauseOf (front_refusal (lines text.now)) e) }
{
    if !text.is_empty() {
        let (line, rest) = first_line(text);
        if names_weights(line) {
            let weights = weights_of(line)?;
            return Ok(WeightsFront {
                weights,
                lines: 1,
                rest,
            });
        }
    }
    Ok(WeightsFront {
        weights: USUAL_WEIGHTS,
        lines: 0,
        rest: text,
    })
}

// Whether a first line names weights, and so is no document.
fn names_weights(line: &[u8]) -> bool
    ensures { result ≡ names_weights line.now }
{
    line == b"#weights".as_slice() || line.starts_with(b"#weights ")
}

// The weights of a first line that names them.
fn weights_of(line: &[u8]) -> Result<Weights, DocFault>
    ensures ok { IfOk result (λ w. weights_said line.now ≡ Some w) }
    ensures accepted { OnOk result (weights_refusal (1, line.now) ≡ None) }
    ensures err { IfErr result (λ e. IsCauseOf (weights_refusal (1, line.now)) e) }
{
    let text = line_as_text(line, 1)?;
    match weights_said(text) {
        Some(weights) => Ok(weights),
        None => Err(DocFault::BadWeights { line: 1 }),
    }
}

// The weights of a line of four pieces with one space between each two.
fn weights_said(line: &str) -> Option<Weights>
    ensures { result ≡ weights_said line.now }
{
    let (word, rest) = cut_at(line, b' ')?;
    let (title, rest) = cut_at(rest, b' ')?;
    let (facet, text) = cut_at(rest, b' ')?;
    if cut_at(text, b' ').is_some() {
        return None;
    }
    weights_in(word, title, facet, text)
}

// The weights of four such pieces.
fn weights_in(word: &str, title: &str, facet: &str, text: &str) -> Option<Weights>
    ensures { result ≡ weights_in (word.now ∷ title.now ∷ facet.now ∷ text.now ∷ []) }
{
    if word != "#weights" {
        return None;
    }
    let title = weight_behind(title, b"title=")?;
    let facet = weight_behind(facet, b"facet=")?;
    let text = weight_behind(text, b"text=")?;
    Some(Weights { title, facet, text })
}

// The weight behind a name and its `=`.
fn weight_behind(piece: &str, name: &[u8]) -> Option<u8>
    ensures { result ≡ (if starts_with nat_eq piece.now name.now then weight_of (drop (length name.now) piece.now) else None) }
{
    let digits = piece.as_bytes().strip_prefix(name)?;
    weight_of(digits)
}

// The weight that digits spell.
fn weight_of(digits: &[u8]) -> Option<u8>
    ensures { result ≡ weight_of digits.now }
{
    if !has_digits(digits, MAX_WEIGHT_DIGITS) {
        return None;
    }
    let number = number_of(digits);
    if number == 0 || number > MAX_ROW_SCORE {
        return None;
    }
    Some(number as u8)
}
