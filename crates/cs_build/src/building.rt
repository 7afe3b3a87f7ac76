//! The image of a corpus.
ghost use Rattle.std.specs.Prelude.{◌≡◌, ◌≤◌, ◌<◌, ◌^◌, List, length, map, IfOk, OnOk, IsErrOf};
ghost use Rattle.std.specs.List.{All};
ghost use Rattle.cs_base.specs.declared.content.doc.Row.{Row};
ghost use Rattle.cs_base.specs.declared.content.limits.TheConstants.{MAX_DOCS, MAX_ROWS, MAX_WORDS};
ghost use Rattle.cs_model.specs.Corpus.{IsCorpus, distinct_words, title_of};
ghost use Rattle.cs_model_index.specs.FileLaws.{HasLimits};
ghost use Rattle.cs_model_index.specs.Images.{IsImage, count_in};
ghost use Rattle.cs_model_index.specs.Layout.{title_bytes};
ghost use Rattle.cs_model_index.specs.declared.limits.TheConstants.{MAX_TARGET};
ghost use Rattle.cs_file.specs.Writable.{CanBeWritten};
ghost use Rattle.cs_build.specs.Building.{corpus_from, corpus_of_rows, KeepLimits};
ghost use Rattle.cs_build.specs.WordRuns.{AreParted};
ghost use Rattle.cs_vocab.specs.Ranges.{AreNumbers, IsBelow};

use crate::fault::BuildFault;
use crate::filling::run_blocks;
use crate::heads::run_heads;
use crate::ordering::rows_in_order;
use crate::parting::{Run, counts_of, parted};
use crate::row_columns::RowColumns;
use cs_base::{Doc, MAX_WORDS, Memory, Row, Seq, Text, Weights};
use cs_file::Image;
use cs_vocab::Vocab;
use std::alloc::Global;

/// The image of the titles of documents and of rows, which may come in any order.
///
/// Of a document only its title is used. A block of several words has at most `target` rows. The image keeps the weights: with a
/// score that rule 16 of index files doesn't allow for its kind of word it makes no index file.
pub fn image(
    alloc: Global,
    rows: Seq<Row>,
    docs: Seq<Doc>,
    target: u32,
    weights: Weights,
) -> Result<Image, BuildFault>
    requires corpus { IsCorpus (corpus_from docs rows) }
    requires few { length rows ≤ MAX_ROWS }
    requires few_docs { length docs ≤ MAX_DOCS }
    requires target_from { 1 ≤ target }
    requires target_to { target ≤ MAX_TARGET }

    ensures ok { IfOk result (IsImage (corpus_from docs rows) target weights) }
    ensures few_words { OnOk result (length (distinct_words rows) ≤ MAX_WORDS) }
    ensures too_many_words { IsErrOf result BuildFault.TooManyWords → MAX_WORDS < length (distinct_words rows) }

    // it can be written, and where the rows are those of a collection its file is an index file
    ensures writable { length (title_bytes (map title_of docs)) < 2 ^ 32 → IfOk result CanBeWritten }
    ensures limits { KeepLimits weights (map title_of docs) rows → IfOk result HasLimits }
{
    let rows = rows_in_order(alloc, rows)?;
    let columns = RowColumns::of_rows(alloc, rows)?;
    let titles = titles_of(alloc, docs)?;
    image_of_columns(alloc, columns, titles, target, weights)
}

/// The image of titles, by the numbers of their documents, and of rows, which are in order and in columns.
///
/// A block of several words has at most `target` rows. The image keeps the weights: with a score that rule 16 of index files
/// doesn't allow for its kind of word it makes no index file.
pub fn image_of_columns(
    alloc: Global,
    rows: RowColumns,
    titles: Seq<Text>,
    target: u32,
    weights: Weights,
) -> Result<Image, BuildFault>
    requires corpus { IsCorpus (corpus_of_rows titles rows) }
    requires few { length rows ≤ MAX_ROWS }
    requires few_docs { length titles ≤ MAX_DOCS }
    requires target_from { 1 ≤ target }
    requires target_to { target ≤ MAX_TARGET }

    ensures ok { IfOk result (IsImage (corpus_of_rows titles rows) target weights) }
    ensures few_words { OnOk result (length (distinct_words rows) ≤ MAX_WORDS) }
    ensures too_many_words { IsErrOf result BuildFault.TooManyWords → MAX_WORDS < length (distinct_words rows) }

    // it can be written, and where the rows are those of a collection its file is an index file
    ensures writable { length (title_bytes titles) < 2 ^ 32 → IfOk result CanBeWritten }
    ensures limits { KeepLimits weights titles rows → IfOk result HasLimits }
{
    built(alloc, titles, rows, target, weights)
}

// The image of titles and of rows that are in order.
fn built(
    alloc: Global,
    titles: Seq<Text>,
    rows: RowColumns,
    target: u32,
    weights: Weights,
) -> Result<Image, BuildFault>
    requires few { length rows ≤ MAX_ROWS }
    requires target { target ≤ MAX_TARGET }

    ensures ok { IfOk result (IsImage (corpus_of_rows titles rows) target weights) }
    ensures titles { IfOk result (λ i. i.titles ≡ titles) }
    ensures few_words { OnOk result (length (distinct_words rows) ≤ MAX_WORDS) }
    ensures too_many_words { IsErrOf result BuildFault.TooManyWords → MAX_WORDS < length (distinct_words rows) }
{
    let RowColumns {
        words,
        numbers,
        form,
    } = rows;
    if words.len() as usize > MAX_WORDS {
        return Err(BuildFault::TooManyWords);
    }
    let runs = runs_of(alloc, &words, numbers.as_slice(), target)?;
    let blocks = run_blocks(alloc, &runs, words.len(), numbers.as_slice(), &form)?;
    let heads = run_heads(alloc, &words, &runs, &blocks)?;
    Ok(Image {
        titles,
        words,
        heads: Seq::from_vec(heads),
        blocks: Seq::from_vec(blocks),
        target,
        weights,
    })
}

/// The runs of words whose numbers stand for rows.
pub(crate) fn runs_of(
    alloc: Global,
    words: &Vocab,
    numbers: &[u32],
    target: u32,
) -> Result<Vec<Run>, Memory>
    requires below { All (IsBelow (length words.now)) numbers.now }
    requires few { length numbers.now ≤ MAX_ROWS }
    requires target { target ≤ MAX_TARGET }

    ensures { IfOk result (λ runs. (rows : List Row) → AreNumbers words.now numbers.now (map (λ r. r.word) rows) → AreParted target words.now (count_in rows) runs.items) }
{
    let counts = counts_of(alloc, words.len(), numbers)?;
    let runs = parted(alloc, words, &counts, target)?;
    Ok(runs)
}

/// The titles of the documents. The rest of them is dropped.
fn titles_of(alloc: Global, docs: Seq<Doc>) -> Result<Seq<Text>, Memory>
    ensures ok { IfOk result (λ titles. titles ≡ map title_of docs) }
{
    let mut titles = Vec::with_capacity(alloc, docs.len())?;
    for doc in docs.into_vec() {
        let Doc { title, .. } = doc;
        titles.push(title)?;
    }
    Ok(Seq::from_vec(titles))
}
