//! One line as a document, or why it is refused.
ghost use Rattle.std.specs.Prelude.{◌≡◌, None, IfOk, OnOk, IfErr, [], ◌∷◌, ◌++◌, length, map, ◌+◌, ◌*◌, ◌≤◌, nat_le, true};
ghost use Rattle.std.specs.List.{before_first, after_first};
ghost use Rattle.std.specs.Str.{is_utf8};
ghost use Rattle.cs_model.specs.Collection.{is_tab, not_utf8, line_too_long, words_too_many, line_refusal};
ghost use Rattle.cs_model.specs.First.{unless, first_reason};
ghost use Rattle.cs_model.specs.Words.{words};
ghost use Rattle.cs_docs.specs.LinesRead.{doc_of, doc_of_lent, numbered_line, documents_from};
ghost use Rattle.cs_docs.specs.FaultRefusals.{IsCauseOf, refusal_from};

use crate::cut::cut_at;
use crate::fault::DocFault;
use crate::pieces::check_facets;
use cs_base::{Doc, MAX_DOC_WORDS, MAX_DOCS, MAX_LINE_BYTES, Memory, Text};
use cs_text::words;
use std::alloc::Global;
use std::str;

/// A document whose columns are lent from the bytes of its collection.
#[derive(Clone, Copy, Debug)]
pub struct LentDoc<'a> {
    /// The title column as it stands in the collection.
    pub title: &'a str,
    /// The facets column as it stands.
    pub facets: &'a str,
    /// The text column as it stands, further tabs included.
    pub text: &'a str,
    /// The number of its line in the collection, from 1.
    pub line: u32,
}

/// The document with columns in memory of its own.
pub(crate) fn copy_of(alloc: Global, doc: &LentDoc<'_>) -> Result<Doc, Memory>
    ensures ok { IfOk result (λ d. d ≡ doc_of_lent doc.now) }
{
    Ok(Doc {
        title: Text::from_str(alloc, doc.title)?,
        facets: Text::from_str(alloc, doc.facets)?,
        text: Text::from_str(alloc, doc.text)?,
        line: doc.line,
    })
}

/// Adds the document of a line, if the line has bytes.
pub(crate) fn push_document<'a>(
    alloc: Global,
    docs: &mut Vec<LentDoc<'a>>,
    line: &'a [u8],
    number: u32,
) -> Result<(), DocFault>
    ensures ok { OnOk result (map doc_of_lent docs.new.items ≡ map doc_of_lent docs.old.items ++ documents_from (length docs.old.items) number (line.now ∷ [])) }
    ensures accepted { OnOk result (refusal_from (length docs.old.items) number (line.now ∷ []) ≡ None) }
    ensures err { IfErr result (λ e. IsCauseOf (refusal_from (length docs.old.items) number (line.now ∷ [])) e) }
{
    if line.is_empty() {
        return Ok(());
    }
    let doc = document_of(alloc, line, docs.len(), number)?;
    match docs.push(doc) {
        Ok(()) => Ok(()),
        Err(_) => Err(DocFault::Memory),
    }
}

// The columns of a line, each lent from it.
fn document_of<'a>(
    alloc: Global,
    line: &'a [u8],
    doc: usize,
    number: u32,
) -> Result<LentDoc<'a>, DocFault>
    ensures ok { IfOk result (λ d. doc_of_lent d ≡ doc_of number line.now) }
    ensures accepted { OnOk result (line_refusal (numbered_line doc number line.now) ≡ None) }
    ensures err { IfErr result (λ e. IsCauseOf (line_refusal (numbered_line doc number line.now)) e) }
{
    let text = line_as_text(line, number)?;
    let (title, rest) = cut_at_tab(text);
    let (facets, text) = cut_at_tab(rest);
    check_words(alloc, title, text, number)?;
    check_facets(alloc, facets, number)?;
    if doc >= MAX_DOCS {
        return Err(DocFault::TooManyDocs { line: number });
    }
    Ok(LentDoc {
        title,
        facets,
        text,
        line: number,
    })
}

/// The line as text, if it is one and not too long.
pub(crate) fn line_as_text(line: &[u8], number: u32) -> Result<&str, DocFault>
    ensures ok { IfOk result (λ s. s.now ≡ line.now) }
    ensures accepted { OnOk result ((is_utf8 line.now ≡ true) × (nat_le (length line.now) MAX_LINE_BYTES ≡ true)) }
    ensures err { IfErr result (λ e. IsCauseOf (first_reason (unless (is_utf8 line.now) (not_utf8 number) ∷ unless (nat_le (length line.now) MAX_LINE_BYTES) (line_too_long number) ∷ [])) e) }
{
    let Ok(text) = str::from_utf8(line) else {
        return Err(DocFault::NotUtf8 { line: number });
    };
    if line.len() > MAX_LINE_BYTES {
        return Err(DocFault::LineTooLong { line: number });
    }
    Ok(text)
}

// Refuses more than the most words of a document.
fn check_words(alloc: Global, title: &str, text: &str, number: u32) -> Result<(), DocFault>
    ensures ok { OnOk result (nat_le (length (words title.now) + length (words text.now)) MAX_DOC_WORDS ≡ true) }
    ensures err { IfErr result (λ e. IsCauseOf (unless (nat_le (length (words title.now) + length (words text.now)) MAX_DOC_WORDS) (words_too_many number)) e) }
{
    if has_few_words(title) && has_few_words(text) {
        return Ok(());
    }
    let titles = words(alloc, title)?.len();
    let texts = words(alloc, text)?.len();
    if titles > MAX_DOC_WORDS || texts > MAX_DOC_WORDS - titles {
        return Err(DocFault::WordsTooMany { line: number });
    }
    Ok(())
}

// Whether a column is ASCII text that is too short for half of the most words of a document.
fn has_few_words(column: &str) -> bool
    ensures { result ≡ true → 2 * length (words column.now) ≤ MAX_DOC_WORDS }
{
    column.len() < MAX_DOC_WORDS && column.is_ascii()
}

// What stands before the first tab, and what stands behind it; all and nothing where there is no tab.
fn cut_at_tab(column: &str) -> (&str, &str)
    ensures before { result.0.now ≡ before_first is_tab column.now }
    ensures after { result.1.now ≡ after_first is_tab column.now }
{
    cut_at(column, b'\t').unwrap_or((column, ""))
}
