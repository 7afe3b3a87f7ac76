//! Rows in columns.
ghost use Rattle.std.specs.Prelude.{◌≡◌, ℕ, ◌≤◌, ◌<◌, None, List, length, map, IfOk, OnOk, IsErrOf};
ghost use Rattle.cs_base.specs.declared.content.limits.TheConstants.{MAX_ROWS};
ghost use Rattle.cs_docs.specs.LinesRead.{doc_of_lent};
ghost use Rattle.cs_docs.specs.declared.fault.RowsFault.{RowsFault};
ghost use Rattle.cs_model.specs.Collection.{documents, docs_refusal};
ghost use Rattle.cs_model.specs.Corpus.{rows_of};

use crate::row_form::RowForm;
use crate::row_gathering::RowGathering;
use cs_base::{MAX_ROWS, Memory, Row, Seq, Weights};
use cs_docs::{LentDoc, RowsFault};
use cs_vocab::{Numbered, Vocab};
use std::alloc::Global;
use std::marker::Model;

// Most texts have a word for so many bytes or more. Others take memory for their rows once more; memory that isn't touched costs nothing.
const LIKELY_BYTES: usize = 3;

/// Rows, which contracts see as their list: each word once, its number in each row, and a form of the rest of the rows.
#[derive(Debug, Drop)]
pub struct RowColumns {
    pub(crate) words: Vocab,
    pub(crate) numbers: Seq<u32>,
    pub(crate) form: RowForm,
}

impl Model for RowColumns {
    ghost use Rattle.std.specs.Prelude.{List};
    ghost use Rattle.cs_base.specs.declared.content.doc.Row.{Row};
    ghost use Rattle.cs_model_index.specs.Numbered.{rows_at};
    ghost use Rattle.cs_build.specs.RowColumns.{AreColumns, posts_in};

    ghost Value = { List Row };

    ghost view = { λ c. rows_at c.words (posts_in c.form c.numbers) };

    ghost invariant = { λ c. AreColumns c.words c.numbers c.form };
}

impl RowColumns {
    /// The rows of documents that `lent_docs` gave, by document, position and word.
    ///
    /// They are those of `rows_of` of `cs_docs`, with the scores of these weights. `TooManyRows` comes where there are more than
    /// `MAX_ROWS` of them.
    pub fn of_docs(
        alloc: Global,
        docs: &[LentDoc<'_>],
        weights: Weights,
    ) -> Result<RowColumns, RowsFault>
        requires read { (c : List ℕ) × (docs_refusal c ≡ None) × (map doc_of_lent docs.now ≡ documents c) }

        ensures ok { IfOk result (λ rows. rows ≡ rows_of weights (map doc_of_lent docs.now)) }
        ensures few { OnOk result (length (rows_of weights (map doc_of_lent docs.now)) ≤ MAX_ROWS) }
        ensures too_many { IsErrOf result RowsFault.TooManyRows → MAX_ROWS < length (rows_of weights (map doc_of_lent docs.now)) }
    {
        let rows = likely_rows(docs);
        let mut gathering = RowGathering::with_capacity(alloc, rows, docs.len())?;
        for doc in docs {
            gathering.add_doc(alloc, doc)?;
        }
        let RowGathering { words, docs } = gathering;
        let Numbered { words, numbers } = Numbered::gathered(alloc, words)?;
        Ok(RowColumns {
            words,
            numbers,
            form: RowForm::Counted { docs, weights },
        })
    }

    /// These rows.
    pub fn of_rows(alloc: Global, rows: Seq<Row>) -> Result<RowColumns, Memory>
        requires few { length rows ≤ MAX_ROWS }

        ensures ok { IfOk result (λ columns. columns ≡ rows) }
    {
        let Numbered { words, numbers } = Numbered::of(alloc, &rows)?;
        Ok(RowColumns {
            words,
            numbers,
            form: RowForm::Listed(rows),
        })
    }

    /// How many rows there are.
    pub fn len(&self) -> usize
        ensures { result ≡ length self.now }
    {
        self.numbers.len()
    }
}

// How many rows documents are likely to have, by the bytes of their titles and texts.
fn likely_rows(docs: &[LentDoc<'_>]) -> usize {
    let mut bytes: usize = 0;
    for doc in docs {
        bytes = bytes
            .saturating_add(doc.title.len())
            .saturating_add(doc.text.len());
    }
    (bytes / LIKELY_BYTES).min(MAX_ROWS)
}
