//! Rows of documents as they come, before the words are numbered.
ghost use Rattle.std.specs.Prelude.{◌≡◌, ◌+◌, ◌<◌, [], ◌∷◌, ◌++◌, length, IfOk, OnOk, IsErrOf};
ghost use Rattle.cs_base.specs.declared.content.limits.TheConstants.{MAX_ROWS};
ghost use Rattle.cs_docs.specs.FacetPieces.{CanBeListed};
ghost use Rattle.cs_docs.specs.LinesRead.{doc_of_lent};
ghost use Rattle.cs_docs.specs.declared.fault.RowsFault.{RowsFault};
ghost use Rattle.cs_vocab.specs.Gathering.{gathered};
ghost use Rattle.cs_build.specs.RowColumns.{IsRowGathering, doc_rows_of, listed_words};

use crate::column_words::{add_facets, add_words};
use crate::row_form::DocRows;
use cs_base::Memory;
use cs_docs::{LentDoc, RowsFault};
use cs_vocab::Gathering;
use std::alloc::Global;

/// The words of rows, and how many rows each document has.
#[derive(Debug, Drop)]
pub(crate) struct RowGathering {
    /// The words, row by row.
    pub(crate) words: Gathering,
    /// How many rows there are, document by document.
    pub(crate) docs: Vec<DocRows>,
}

impl RowGathering {
    /// No rows, with room for so many of so many documents.
    pub(crate) fn with_capacity(
        alloc: Global,
        rows: usize,
        docs: usize,
    ) -> Result<RowGathering, Memory>
        ensures no_words { IfOk result (λ g. gathered g.words ≡ []) }
        ensures no_docs { IfOk result (λ g. g.docs.items ≡ []) }
        ensures is { IfOk result (λ g. IsRowGathering g.words) }
    {
        Ok(RowGathering {
            words: Gathering::with_capacity(alloc, rows)?,
            docs: Vec::with_capacity(alloc, docs)?,
        })
    }

    /// Adds the rows of a document at the end. Where memory runs out, or there come to be too many, the gathering is of no more use.
    pub(crate) fn add_doc(&mut self, alloc: Global, doc: &LentDoc<'_>) -> Result<(), RowsFault>
        requires is { IsRowGathering self.old.words }
        requires listed { CanBeListed (doc_of_lent doc.now) }

        ensures words { OnOk result (gathered self.new.words ≡ gathered self.old.words ++ listed_words (doc_of_lent doc.now)) }
        ensures docs { OnOk result (self.new.docs.items ≡ self.old.docs.items ++ doc_rows_of (doc_of_lent doc.now) ∷ []) }
        ensures is { OnOk result (IsRowGathering self.new.words) }
        ensures too_many { IsErrOf result RowsFault.TooManyRows → MAX_ROWS < length (gathered self.old.words) + length (listed_words (doc_of_lent doc.now)) }
    {
        let facets = add_facets(alloc, &mut self.words, doc.facets)?;
        let titles = add_words(alloc, &mut self.words, doc.title)?;
        let texts = add_words(alloc, &mut self.words, doc.text)?;
        match self.docs.push(DocRows {
            facets,
            titles,
            texts,
        }) {
            Ok(()) => Ok(()),
            Err(_) => Err(RowsFault::Memory),
        }
    }
}
