//! The rows of documents.
ghost use Rattle.std.specs.Prelude.{◌≡◌, ℕ, ◌+◌, ◌≤◌, ◌<◌, ◌^◌, ◌++◌, None, IfOk, OnOk, IsErrOf, List, length, map};
ghost use Rattle.std.specs.List.{All, enumerate_from};
ghost use Rattle.std.specs.Str.{IsUtf8};
ghost use Rattle.cs_model.specs.Collection.{documents, docs_refusal, facet_pieces};
ghost use Rattle.cs_model.specs.Corpus.{rows_of, placed};
ghost use Rattle.cs_model.specs.Words.{words};
ghost use Rattle.cs_docs.specs.Listing.{listed_doc, listed_facets, HasUtf8Word};
ghost use Rattle.cs_docs.specs.FacetPieces.{AreNamed, CanBeListed};

use crate::facet::listed_facets;
use crate::fault::RowsFault;
use cs_base::{BEHIND_TITLE, Doc, MAX_ROWS, Memory, Row, Seq, Weights};
use cs_text::words;
use std::alloc::Global;

/// The rows of documents that `read_docs` gave, by document, position and word.
///
/// A title word has its place in the title as position, from 1. Text words go on `BEHIND_TITLE`
/// positions behind the last title word. A facet word has the position 0, and counts once in a
/// document. A row's score is the weight of its column.
///
/// `TooManyRows` comes where there are more than `MAX_ROWS` of them.
pub fn rows_of(alloc: Global, docs: &Seq<Doc>, weights: Weights) -> Result<Seq<Row>, RowsFault>
    requires read { (c : List ℕ) × (docs_refusal c ≡ None) × (docs.now ≡ documents c) }

    ensures ok { IfOk result (λ rows. rows ≡ rows_of weights docs.now) }
    ensures few { OnOk result (length (rows_of weights docs.now) ≤ MAX_ROWS) }
    ensures utf8 { IfOk result (λ rows. All (λ r. IsUtf8 r.word) rows) }
    ensures too_many { IsErrOf result RowsFault.TooManyRows → MAX_ROWS < length (rows_of weights docs.now) }
{
    let mut rows = Vec::new(alloc);
    for (number, doc) in docs.as_slice().iter().enumerate() {
        add_rows(alloc, &mut rows, number as u32, doc, weights)?;
        if rows.len() > MAX_ROWS {
            return Err(RowsFault::TooManyRows);
        }
    }
    Ok(Seq::from_vec(rows))
}

// Adds the rows of a document that has this number, by position and word.
fn add_rows(
    alloc: Global,
    rows: &mut Vec<Row>,
    number: u32,
    doc: &Doc,
    weights: Weights,
) -> Result<(), Memory>
    requires { CanBeListed doc.now }

    ensures ok { OnOk result (rows.new.items ≡ rows.old.items ++ listed_doc weights (number, doc.now)) }
    ensures utf8 { OnOk result (All HasUtf8Word (listed_doc weights (number, doc.now))) }
{
    push_facets(alloc, rows, number, doc.facets.as_str(), weights.facet)?;
    let end = push_words(alloc, rows, number, doc.title.as_str(), 1, weights.title)?;
    push_words(
        alloc,
        rows,
        number,
        doc.text.as_str(),
        end - 1 + BEHIND_TITLE,
        weights.text,
    )?;
    Ok(())
}

// Adds a row for each facet word of a column, each once, by bytes.
fn push_facets(
    alloc: Global,
    rows: &mut Vec<Row>,
    doc: u32,
    column: &str,
    score: u8,
) -> Result<(), Memory>
    requires { AreNamed (facet_pieces column.now) }

    ensures ok { OnOk result (rows.new.items ≡ rows.old.items ++ map (λ w. placed doc score (0, w)) (listed_facets column.now)) }
    ensures utf8 { OnOk result (All IsUtf8 (listed_facets column.now)) }
{
    for word in listed_facets(alloc, column)? {
        rows.push(Row {
            doc,
            word,
            pos: 0,
            score,
        })?;
    }
    Ok(())
}

// Adds a row for each word of a column, at positions from `pos` on, and gives the position behind.
fn push_words(
    alloc: Global,
    rows: &mut Vec<Row>,
    doc: u32,
    column: &str,
    pos: u32,
    score: u8,
) -> Result<u32, Memory>
    requires { pos + length (words column.now) < 2 ^ 32 }

    ensures ok { OnOk result (rows.new.items ≡ rows.old.items ++ map (placed doc score) (enumerate_from pos (words column.now))) }
    ensures utf8 { OnOk result (All IsUtf8 (words column.now)) }
    ensures end { IfOk result (λ n. n ≡ pos + length (words column.now)) }
{
    let mut at = pos;
    for word in words(alloc, column)?.into_vec() {
        rows.push(Row {
            doc,
            word,
            pos: at,
            score,
        })?;
        at += 1;
    }
    Ok(at)
}
