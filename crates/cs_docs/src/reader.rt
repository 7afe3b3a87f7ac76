//! A collection, read line by line.
ghost use Rattle.std.specs.Prelude.{◌≡◌, ℕ, Some, None, IfOk, IfErr, OnOk, IsErrOf, ◌+◌, ◌<◌, ◌≤◌, ◌∷◌, length, map};
ghost use Rattle.std.specs.Str.Lines.{lines};
ghost use Rattle.cs_model.specs.Collection.{documents, docs_refusal, weights, without_mark};
ghost use Rattle.cs_model.specs.Weights.{AreWeights};
ghost use Rattle.cs_docs.specs.FaultRefusals.{IsCauseOf, refusal_from};
ghost use Rattle.cs_docs.specs.LinesRead.{doc_of_lent, documents_from};

use crate::document::{LentDoc, copy_of, push_document};
use crate::fault::DocFault;
use crate::lines::{first_line, without_mark};
use crate::weights_line::front_of;
use cs_base::{Doc, MAX_COLLECTION_BYTES, MAX_DOCS, Seq, Weights};
use std::alloc::Global;

/// What a collection says: its documents, each in memory of its own, and what their rows count for.
#[derive(Debug, Drop)]
pub struct Collected {
    /// The documents, in the order of their lines.
    pub docs: Seq<Doc>,
    /// The weights of its first line, or the usual ones.
    pub weights: Weights,
}

/// What a collection says, with documents whose columns are lent from its bytes.
#[derive(Debug, Drop)]
pub struct LentCollected<'a> {
    /// The documents, in the order of their lines.
    pub docs: Vec<LentDoc<'a>>,
    /// The weights of its first line, or the usual ones.
    pub weights: Weights,
}

/// The weights of a collection, and its documents, in the order of their lines, each in memory of its own.
///
/// A collection is read and refused as by `lent_docs`.
pub fn read_docs(alloc: Global, bytes: &[u8]) -> Result<Collected, DocFault>
    ensures ok { IfOk result (λ c. c.docs ≡ documents bytes.now) }
    ensures weights { IfOk result (λ c. c.weights ≡ weights bytes.now) }
    ensures scored { IfOk result (λ c. AreWeights c.weights) }
    ensures accepted { OnOk result (docs_refusal bytes.now ≡ None) }
    ensures few { OnOk result (length (documents bytes.now) ≤ MAX_DOCS) }

    // Each fault but want of memory is the first refusal.
    ensures err { IfErr result (λ e. IsCauseOf (docs_refusal bytes.now) e) }
{
    let lent = lent_docs(alloc, bytes)?;
    let mut docs = Seq::new(alloc);
    for doc in lent.docs.as_slice() {
        docs.push(copy_of(alloc, doc)?)?;
    }
    Ok(Collected {
        docs,
        weights: lent.weights,
    })
}

/// The weights of a collection, and its documents, in the order of their lines, their columns lent from its bytes.
///
/// Leading bytes EF BB BF are skipped once. LF ends a line, with one CR directly before it; the last
/// line needs no ending. The first line is the weights line where it is `#weights` or begins with
/// `#weights` and a space; it then has the form `#weights title=A facet=B text=C` with single spaces,
/// each weight of at most `MAX_WEIGHT_DIGITS` digits and from 1 to `MAX_ROW_SCORE`, and is no document.
/// Without it the weights are `USUAL_WEIGHTS`. Another line is `title TAB facets TAB text`, and missing
/// columns are empty. Lines are numbered from 1, documents from 0; a line without bytes is no document.
///
/// A collection above `MAX_COLLECTION_BYTES` is too large. Else the least line that breaks a rule is
/// refused, by the first rule that it breaks, in the order in which `DocFault` lists them; of bad
/// facets and bad names the first piece from the left decides.
pub fn lent_docs(alloc: Global, bytes: &[u8]) -> Result<LentCollected<'_>, DocFault>
    ensures ok { IfOk result (λ c. map doc_of_lent c.docs.items ≡ documents bytes.now) }
    ensures weights { IfOk result (λ c. c.weights ≡ weights bytes.now) }
    ensures scored { IfOk result (λ c. AreWeights c.weights) }
    ensures accepted { OnOk result (docs_refusal bytes.now ≡ None) }
    ensures few { OnOk result (length (documents bytes.now) ≤ MAX_DOCS) }

    // Each fault but want of memory is the first refusal.
    ensures err { IfErr result (λ e. IsCauseOf (docs_refusal bytes.now) e) }
{
    if bytes.len() > MAX_COLLECTION_BYTES {
        return Err(DocFault::TooLarge);
    }
    let front = front_of(without_mark(bytes))?;
    let docs = docs_behind(alloc, front.lines, front.rest)?;
    Ok(LentCollected {
        docs,
        weights: front.weights,
    })
}

// The documents of a text whose lines stand behind so many others, of which none is a document.
fn docs_behind(alloc: Global, before: u32, text: &[u8]) -> Result<Vec<LentDoc<'_>>, DocFault>
    requires { before + length text.now ≤ MAX_COLLECTION_BYTES }

    ensures ok { IfOk result (λ docs. map doc_of_lent docs.items ≡ documents_from 0 (before + 1) (lines text.now)) }
    ensures accepted { OnOk result (refusal_from 0 (before + 1) (lines text.now) ≡ None) }
    ensures err { IfErr result (λ e. IsCauseOf (refusal_from 0 (before + 1) (lines text.now)) e) }
{
    let mut docs = Vec::new(alloc);
    let mut rest = text;
    let mut number = before;
    while !rest.is_empty() {
        let (line, after) = first_line(rest);
        number += 1;
        push_document(alloc, &mut docs, line, number)?;
        rest = after;
    }
    Ok(docs)
}
