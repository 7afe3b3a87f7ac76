//! The blocks of runs of words.
ghost use Rattle.std.specs.Prelude.{◌≡◌, ℕ, ◌+◌, ◌≤◌, ◌<◌, ◌^◌, [], length, map, filter, IfOk, slice_index_or};
ghost use Rattle.std.specs.List.{All, AllByRecursion};
ghost use Rattle.cs_base.specs.declared.content.limits.TheConstants.{MAX_DOCS, MAX_DOC_WORDS};
ghost use Rattle.cs_vocab.specs.Ranges.{IsBelow};
ghost use Rattle.cs_cols.specs.declared.cols.Cols.{Cols};
ghost use Rattle.cs_build.specs.RowColumns.{AreDocRows, IsFormOf, behind_doc, facet_posts, posts_by, posts_in, posts_of_doc, posts_of_docs, word_posts};
ghost use Rattle.cs_build.specs.WordRuns.{AreSpans, AreFilled, AreTaken, CanTake, CountsRows, IsPushed, is_within, run_places_from};

use crate::parting::Run;
use crate::row_form::{DocRows, RowForm};
use cs_base::{BEHIND_TITLE, Memory, Post, Row, Weights};
use cs_cols::Cols;
use std::alloc::Global;

/// A block for each run: the posts of its words, in their order. There are so many words.
pub(crate) fn run_blocks(
    alloc: Global,
    runs: &[Run],
    words: u32,
    numbers: &[u32],
    form: &RowForm,
) -> Result<Vec<Cols>, Memory>
    requires spans { AreSpans 0 runs.now words }
    requires below { All (IsBelow words) numbers.now }
    requires form { IsFormOf form.now numbers.now }
    requires few { length runs.now ≤ words }
    requires counted { AllByRecursion (CountsRows (posts_in form.now numbers.now)) runs.now }

    ensures { IfOk result (λ blocks. map (λ b. b.posts) blocks.items ≡ map (λ run. filter (is_within run) (posts_in form.now numbers.now)) runs.now) }
{
    let places = run_places(alloc, runs, words)?;
    let mut blocks = empty_blocks(alloc, runs)?;
    fill(&mut blocks, &places, numbers, form);
    Ok(blocks)
}

// Puts each post into the block of its word, whose index `places` says.
fn fill(blocks: &mut [Cols], places: &[u32], numbers: &[u32], form: &RowForm)
    requires form { IsFormOf form.now numbers.now }
    requires room { CanTake places.now blocks.old (posts_in form.now numbers.now) }

    ensures { AreTaken places.now (posts_in form.now numbers.now) blocks.old blocks.new }
{
    match form {
        RowForm::Listed(rows) => fill_rows(blocks, places, numbers, rows.as_slice()),
        RowForm::Counted { docs, weights } => fill_docs(blocks, places, numbers, docs, *weights),
    }
}

fn fill_rows(blocks: &mut [Cols], places: &[u32], numbers: &[u32], rows: &[Row])
    requires each { length rows.now ≡ length numbers.now }
    requires room { CanTake places.now blocks.old (posts_by rows.now numbers.now) }

    ensures { AreTaken places.now (posts_by rows.now numbers.now) blocks.old blocks.new }
{
    for (i, number) in numbers.iter().enumerate() {
        let row = &rows[i];
        let post = Post {
            doc: row.doc,
            word: *number,
            pos: row.pos,
            score: row.score,
        };
        push_at(blocks, places[*number as usize] as usize, post);
    }
}

fn fill_docs(
    blocks: &mut [Cols],
    places: &[u32],
    numbers: &[u32],
    docs: &[DocRows],
    weights: Weights,
)
    requires few { length docs.now ≤ MAX_DOCS }
    requires each { AreDocRows docs.now numbers.now }
    requires room { CanTake places.now blocks.old (posts_of_docs weights 0 docs.now numbers.now) }

    ensures { AreTaken places.now (posts_of_docs weights 0 docs.now numbers.now) blocks.old blocks.new }
{
    let mut rest = numbers;
    for (doc, rows) in docs.iter().enumerate() {
        rest = fill_doc(blocks, places, rest, doc as u32, *rows, weights);
    }
}

// Puts the posts of a document into their blocks, and gives the numbers behind those of its words.
#[inline]
fn fill_doc<'a>(
    blocks: &mut [Cols],
    places: &[u32],
    numbers: &'a [u32],
    doc: u32,
    rows: DocRows,
    weights: Weights,
) -> &'a [u32]
    requires each { rows.facets + (rows.titles + rows.texts) ≤ length numbers.now }
    requires few { rows.titles + rows.texts ≤ MAX_DOC_WORDS }
    requires room { CanTake places.now blocks.old (posts_of_doc weights doc rows numbers.now) }

    ensures behind { result.now ≡ behind_doc rows numbers.now }
    ensures taken { AreTaken places.now (posts_of_doc weights doc rows numbers.now) blocks.old blocks.new }
{
    let (facets, words) = numbers.split_at(rows.facets as usize);
    let (titles, words) = words.split_at(rows.titles as usize);
    let (texts, behind) = words.split_at(rows.texts as usize);
    fill_facets(blocks, places, facets, doc, weights.facet);
    fill_words(blocks, places, titles, doc, 1, weights.title);
    fill_words(
        blocks,
        places,
        texts,
        doc,
        rows.titles + BEHIND_TITLE,
        weights.text,
    );
    behind
}

#[inline]
fn fill_facets(blocks: &mut [Cols], places: &[u32], numbers: &[u32], doc: u32, score: u8)
    requires { CanTake places.now blocks.old (facet_posts doc score numbers.now) }

    ensures { AreTaken places.now (facet_posts doc score numbers.now) blocks.old blocks.new }
{
    for number in numbers {
        let post = Post {
            doc,
            word: *number,
            pos: 0,
            score,
        };
        push_at(blocks, places[*number as usize] as usize, post);
    }
}

// The words stand at positions from `pos` on.
#[inline]
fn fill_words(blocks: &mut [Cols], places: &[u32], numbers: &[u32], doc: u32, pos: u32, score: u8)
    requires few { pos + length numbers.now < 2 ^ 32 }
    requires room { CanTake places.now blocks.old (word_posts doc score pos numbers.now) }

    ensures { AreTaken places.now (word_posts doc score pos numbers.now) blocks.old blocks.new }
{
    let mut at = pos;
    for number in numbers {
        let post = Post {
            doc,
            word: *number,
            pos: at,
            score,
        };
        push_at(blocks, places[*number as usize] as usize, post);
        at += 1;
    }
}

/// For each word the index of the run that has it.
pub(crate) fn run_places(alloc: Global, runs: &[Run], words: u32) -> Result<Vec<u32>, Memory>
    requires spans { AreSpans 0 runs.now words }
    requires few { length runs.now ≤ words }

    ensures { IfOk result (λ places. places.items ≡ run_places_from 0 runs.now) }
{
    let mut places = Vec::with_capacity(alloc, words as usize)?;
    for (i, run) in runs.iter().enumerate() {
        places.resize((run.lo + run.words) as usize, i as u32)?;
    }
    Ok(places)
}

/// Blocks without posts, each with room for those of its run.
pub(crate) fn empty_blocks(alloc: Global, runs: &[Run]) -> Result<Vec<Cols>, Memory>
    ensures { IfOk result (λ blocks. AreFilled [] runs.now blocks.items) }
{
    let mut blocks = Vec::with_capacity(alloc, runs.len())?;
    for run in runs {
        let mut block = Cols::new(alloc);
        block.reserve(run.rows as usize)?;
        blocks.push(block)?;
    }
    Ok(blocks)
}

/// Adds a post at the end of block number `i`, in the room that it has.
#[inline]
pub(crate) fn push_at(blocks: &mut [Cols], i: usize, post: Post)
    requires inside { i < length blocks.old }
    requires room { (c : Cols) → 1 ≤ (slice_index_or blocks.old i c).room }

    ensures { IsPushed blocks.old i post blocks.new }
{
    blocks[i].push_reserved(post);
}
