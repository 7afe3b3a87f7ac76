//! The image of the corpus in which those of two images are joined.
ghost use Rattle.std.specs.Prelude.{◌≡◌, ◌+◌, ◌≤◌, ◌<◌, ◌^◌, ◌++◌, ◌-◌, min, length, map, filter, IfOk, OnOk, slice_index_or};
ghost use Rattle.std.specs.List.{All, AllByRecursion};
ghost use Rattle.cs_base.specs.content.Members.{members_in};
ghost use Rattle.cs_base.specs.declared.content.limits.TheConstants.{MAX_DOCS, MAX_ROWS, MAX_WORDS};
ghost use Rattle.cs_model.specs.Corpus.{IsCorpus, distinct_words};
ghost use Rattle.cs_model_index.specs.FileLaws.{HasLimits};
ghost use Rattle.cs_model_index.specs.Images.{IsImage, image_posts};
ghost use Rattle.cs_model_index.specs.Layout.{title_bytes};
ghost use Rattle.cs_model_index.specs.Numbered.{rows_at};
ghost use Rattle.cs_model_index.specs.declared.limits.TheConstants.{MAX_TARGET};
ghost use Rattle.cs_file.specs.Writable.{CanBeWritten};
ghost use Rattle.cs_build.specs.Building.{corpus_of_rows, KeepLimits};
ghost use Rattle.cs_build.specs.Joining.{held_posts, joined_posts, joined_rows, moved_post};
ghost use Rattle.cs_build.specs.WordRuns.{AreSpans, AreTaken, CanTake, CountsRows, is_within};

use crate::block_order::in_order_each;
use crate::building::runs_of;
use crate::filling::{empty_blocks, push_at, run_places};
use crate::heads::run_heads;
use crate::parting::Run;
use cs_base::{Memory, Post, Seq, Text};
use cs_cols::Cols;
use cs_file::Image;
use cs_vocab::Vocab;
use std::alloc::Global;

/// The image of the corpus in which those of two images are joined, the documents of the second behind those of the first.
///
/// `words` are the words of both, `first` and `second` the numbers among them of each one's words, and `titles` the titles of both.
/// The target and the weights are those of the first.
pub fn joined_image(
    alloc: Global,
    words: Vocab,
    a: &Image,
    first: &[u32],
    b: &Image,
    second: &[u32],
    titles: Seq<Text>,
) -> Result<Image, Memory>
    requires first { All (λ p. p.word < length first.now) (image_posts a.now) }
    requires second { All (λ p. p.word < length second.now) (image_posts b.now) }
    requires known { All (λ p. p.word < length words) (joined_posts a.now first.now b.now second.now) }
    requires words { words ≡ distinct_words (rows_at words (joined_posts a.now first.now b.now second.now)) }
    requires once { length (joined_posts a.now first.now b.now second.now) ≤ length (joined_rows words a.now first.now b.now second.now) }
    requires corpus { IsCorpus (corpus_of_rows titles (joined_rows words a.now first.now b.now second.now)) }
    requires few { length (joined_posts a.now first.now b.now second.now) ≤ MAX_ROWS }
    requires few_docs { length titles ≤ MAX_DOCS }
    requires docs { length a.now.titles ≤ length titles }
    requires few_words { length words ≤ MAX_WORDS }
    requires target { a.now.target ≤ MAX_TARGET }

    ensures ok { IfOk result (IsImage (corpus_of_rows titles (joined_rows words a.now first.now b.now second.now)) a.now.target a.now.weights) }

    // it can be written, and where the rows are those of a collection its file is an index file
    ensures writable { length (title_bytes titles) < 2 ^ 32 → IfOk result CanBeWritten }
    ensures limits { 1 ≤ a.now.target → KeepLimits a.now.weights titles (joined_rows words a.now first.now b.now second.now) → IfOk result HasLimits }
{
    let numbers = numbers_of(alloc, a, first, b, second)?;
    let runs = runs_of(alloc, &words, &numbers, a.target)?;
    drop(numbers);
    let blocks = blocks_of_both(alloc, &runs, words.len(), a, first, b, second)?;
    let blocks = in_order_each(alloc, blocks)?;
    let heads = run_heads(alloc, &words, &runs, &blocks)?;
    Ok(Image {
        titles,
        words,
        heads: Seq::from_vec(heads),
        blocks: Seq::from_vec(blocks),
        target: a.target,
        weights: a.weights,
    })
}

/// How many rows an image has, and no more than can be counted.
pub fn rows_in(image: &Image) -> usize
    ensures { result ≡ min (length (image_posts image.now)) (2 ^ 64 - 1) }
{
    posts_in(image.blocks.as_slice())
}

fn posts_in(blocks: &[Cols]) -> usize
    ensures { result ≡ min (length (held_posts blocks.now)) (2 ^ 64 - 1) }
{
    let mut posts: usize = 0;
    for block in blocks {
        posts = posts.saturating_add(block.len());
    }
    posts
}

// The new numbers of the words of both images' posts.
fn numbers_of(
    alloc: Global,
    a: &Image,
    first: &[u32],
    b: &Image,
    second: &[u32],
) -> Result<Vec<u32>, Memory>
    requires first { All (λ p. p.word < length first.now) (image_posts a.now) }
    requires second { All (λ p. p.word < length second.now) (image_posts b.now) }

    ensures { IfOk result (λ numbers. numbers.items ≡ map (λ p. p.word) (joined_posts a.now first.now b.now second.now)) }
{
    let rows = rows_in(a).saturating_add(rows_in(b));
    let mut numbers = Vec::with_capacity(alloc, rows)?;
    add_numbers(&mut numbers, a.blocks.as_slice(), first)?;
    add_numbers(&mut numbers, b.blocks.as_slice(), second)?;
    Ok(numbers)
}

fn add_numbers(numbers: &mut Vec<u32>, blocks: &[Cols], shift: &[u32]) -> Result<(), Memory>
    requires { All (λ p. p.word < length shift.now) (held_posts blocks.now) }

    ensures { OnOk result (numbers.new.items ≡ numbers.old.items ++ map (λ p. slice_index_or shift.now p.word 0) (held_posts blocks.now)) }
{
    for block in blocks {
        add_words(numbers, block.words(), shift)?;
    }
    Ok(())
}

fn add_words(numbers: &mut Vec<u32>, words: &[u32], shift: &[u32]) -> Result<(), Memory>
    requires { All (λ n. n < length shift.now) words.now }

    ensures { OnOk result (numbers.new.items ≡ numbers.old.items ++ map (λ n. slice_index_or shift.now n 0) words.now) }
{
    for word in words {
        numbers.push(shift[*word as usize])?;
    }
    Ok(())
}

// A block for each run: the posts of both images that have a word of it, those of the first in front.
fn blocks_of_both(
    alloc: Global,
    runs: &[Run],
    words: u32,
    a: &Image,
    first: &[u32],
    b: &Image,
    second: &[u32],
) -> Result<Vec<Cols>, Memory>
    requires first { All (λ p. p.word < length first.now) (image_posts a.now) }
    requires second { All (λ p. p.word < length second.now) (image_posts b.now) }
    requires docs { All (λ p. p.doc < MAX_DOCS) (joined_posts a.now first.now b.now second.now) }
    requires few_docs { length a.now.titles ≤ MAX_DOCS }
    requires below { All (λ p. p.word < words) (joined_posts a.now first.now b.now second.now) }
    requires spans { AreSpans 0 runs.now words }
    requires few { length runs.now ≤ words }
    requires counted { AllByRecursion (CountsRows (joined_posts a.now first.now b.now second.now)) runs.now }

    ensures { IfOk result (λ blocks. map (λ b. b.posts) blocks.items ≡ map (λ run. filter (is_within run) (joined_posts a.now first.now b.now second.now)) runs.now) }
{
    let places = run_places(alloc, runs, words)?;
    let mut blocks = empty_blocks(alloc, runs)?;
    fill_both(&mut blocks, &places, a, first, b, second);
    Ok(blocks)
}

// Puts the posts of both images into the blocks of their words' new numbers, whose indices `places` says.
fn fill_both(
    blocks: &mut [Cols],
    places: &[u32],
    a: &Image,
    first: &[u32],
    b: &Image,
    second: &[u32],
)
    requires first { All (λ p. p.word < length first.now) (image_posts a.now) }
    requires second { All (λ p. p.word < length second.now) (image_posts b.now) }
    requires docs { All (λ p. p.doc < MAX_DOCS) (joined_posts a.now first.now b.now second.now) }
    requires few_docs { length a.now.titles ≤ MAX_DOCS }
    requires room { CanTake places.now blocks.old (joined_posts a.now first.now b.now second.now) }

    ensures { AreTaken places.now (joined_posts a.now first.now b.now second.now) blocks.old blocks.new }
{
    fill_moved(blocks, places, a.blocks.as_slice(), first, 0);
    let behind = a.titles.len() as u32;
    fill_moved(blocks, places, b.blocks.as_slice(), second, behind);
}

// Puts the posts of some blocks into those of their words' new numbers. `docs` is added to the numbers of their documents.
fn fill_moved(blocks: &mut [Cols], places: &[u32], from: &[Cols], shift: &[u32], docs: u32)
    requires shift { All (λ p. p.word < length shift.now) (held_posts from.now) }
    requires docs { All (λ p. p.doc + docs < 2 ^ 32) (held_posts from.now) }
    requires room { CanTake places.now blocks.old (map (moved_post shift.now docs) (held_posts from.now)) }

    ensures { AreTaken places.now (map (moved_post shift.now docs) (held_posts from.now)) blocks.old blocks.new }
{
    for block in from {
        fill_block(blocks, places, block, shift, docs);
    }
}

#[inline]
fn fill_block(blocks: &mut [Cols], places: &[u32], block: &Cols, shift: &[u32], docs: u32)
    requires shift { All (λ p. p.word < length shift.now) block.now.posts }
    requires docs { All (λ p. p.doc + docs < 2 ^ 32) block.now.posts }
    requires room { CanTake places.now blocks.old (map (moved_post shift.now docs) block.now.posts) }

    ensures { AreTaken places.now (map (moved_post shift.now docs) block.now.posts) blocks.old blocks.new }
{
    for i in 0..block.len() {
        let Post {
            doc,
            word,
            pos,
            score,
        } = block.get(i);
        let word = shift[word as usize];
        let post = Post {
            doc: doc + docs,
            word,
            pos,
            score,
        };
        push_at(blocks, places[word as usize] as usize, post);
    }
}
