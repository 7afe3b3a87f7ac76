//! A document that is added: its title and its rows under its own number.
ghost use Rattle.std.specs.Prelude.{◌≡◌, ℕ, ◌+◌, ◌≤◌, ◌<◌, ◌^◌, ◌++◌, ◌∷◌, [], None, true, List, length, map, nat_le, IfErr, IfOk, OnErr, OnOk};
ghost use Rattle.std.specs.{List.{All}, Str.{is_utf8}};
ghost use Rattle.cs_base.specs.declared.content.doc.Doc.{Doc};
ghost use Rattle.cs_base.specs.declared.content.limits.TheConstants.{MAX_DOCS, MAX_ROWS, MAX_WORDS};
ghost use Rattle.cs_merge.specs.Vocabularies.{AreOfWordSize};
ghost use Rattle.cs_model.specs.Collection.{docs_refusal, documents};
ghost use Rattle.cs_model.specs.Corpus.{rows_of};
ghost use Rattle.cs_model_changes.specs.Joined.{later_row};
ghost use Rattle.cs_live.specs.{Lives.{IsOnlyDoc, IsAddition, HasTooManyRows}, Settling.{HaveWordSize, words_met}, States.{with_title}};

use crate::fault::AddFault;
use crate::settling::merged_with;
use crate::state::State;
use cs_base::{Doc, MAX_WORDS, Memory, Row, Seq, Text, Weights, Word};
use cs_docs::{RowsFault, rows_of};
use cs_vocab::Vocab;
use std::alloc::Global;

/// What is added of a document.
#[derive(Drop)]
pub(crate) struct Addition {
    /// Its title.
    pub(crate) title: Text,
    /// Its rows.
    pub(crate) rows: Vec<Row>,
}

/// The title of a document, and its rows under a number.
pub(crate) fn addition_of(
    alloc: Global,
    doc: Doc,
    weights: Weights,
    number: u32,
) -> Result<Addition, AddFault>
    requires { IsOnlyDoc weights doc }

    ensures ok { IfOk result (IsAddition weights number doc) }
    ensures err { IfErr result (HasTooManyRows weights doc) }
{
    let docs = one(alloc, doc)?;
    let title = docs.as_slice()[0].title.copy(alloc)?;
    let mut rows = match rows_of(alloc, &docs, weights) {
        Ok(rows) => rows.into_vec(),
        Err(RowsFault::TooManyRows) => return Err(AddFault::FullRows),
        Err(RowsFault::Memory) => return Err(AddFault::Memory),
    };
    put_number(&mut rows, number);
    Ok(Addition { title, rows })
}

// A list of one document.
fn one(alloc: Global, doc: Doc) -> Result<Seq<Doc>, Memory>
    ensures { IfOk result (λ docs. docs ≡ doc ∷ []) }
{
    let mut docs = Seq::new(alloc);
    docs.push(doc)?;
    Ok(docs)
}

// Gives the rows of a document of number 0 another number.
fn put_number(rows: &mut [Row], number: u32)
    requires { All (λ r. r.doc ≡ 0) rows.old }

    ensures { rows.new ≡ map (later_row number) rows.old }
{
    for i in 0..rows.len() {
        rows[i].doc = number;
    }
}

// Adds rows behind others. Where memory runs out, nothing changes.
fn append(rows: &mut Vec<Row>, more: Vec<Row>) -> Result<(), Memory>
    ensures ok { OnOk result (rows.new.items ≡ rows.old.items ++ more.items) }
    ensures err { OnErr result (rows.new.items ≡ rows.old.items) }
{
    rows.reserve(more.len())?;
    for row in more {
        rows.push_reserved(row);
    }
    Ok(())
}

/// Whether words, with those of rows, are few enough for a vocabulary.
pub(crate) fn words_fit(
    alloc: Global,
    words: &Vocab,
    rows: &[Row],
    own: &[Row],
) -> Result<bool, Memory>
    requires sized { AreOfWordSize words.now }
    requires row_sized { HaveWordSize rows.now }
    requires own_sized { HaveWordSize own.now }
    requires few { length rows.now ≤ MAX_ROWS }
    requires few_own { length own.now ≤ MAX_ROWS }
    requires few_words { length (words_met words.now rows.now) ≤ MAX_WORDS }

    ensures { IfOk result (λ b. b ≡ nat_le (length (words_met words.now (rows.now ++ own.now))) MAX_WORDS) }
{
    if words.len() as usize + rows.len() + own.len() <= MAX_WORDS {
        return Ok(true);
    }
    let met = merged_with(alloc, words, rows)?;
    let met = Vocab::from_words(Seq::from_vec(met.words));
    let all = merged_with(alloc, &met, own)?;
    let words: &[Word] = &all.words;
    Ok(words.len() <= MAX_WORDS)
}

/// Adds a document with its title, and its rows to those that wait. Where memory runs out, nothing changes.
pub(crate) fn put_document(
    state: &mut State,
    rows: &mut Vec<Row>,
    title: Text,
    more: Vec<Row>,
) -> Result<(), Memory>
    requires few { length state.old.present < MAX_DOCS }
    requires text { is_utf8 title ≡ true }

    ensures state { OnOk result (state.new ≡ with_title state.old title) }
    ensures rows { OnOk result (rows.new.items ≡ rows.old.items ++ more.items) }
    ensures same_state { OnErr result (state.new ≡ state.old) }
    ensures same_rows { OnErr result (rows.new.items ≡ rows.old.items) }
{
    let before = rows.len();
    append(rows, more)?;
    let put = state.put(title);
    if put.is_err() {
        rows.truncate(before);
    }
    put
}
