//! The merge of two images.
ghost use Rattle.std.specs.Prelude.{◌≡◌, ◌+◌, ◌-◌, ◌≤◌, ◌^◌, ◌++◌, ◌==◌, min, None, length, IfOk, IfErr, OnOk};
ghost use Rattle.cs_base.specs.declared.content.limits.TheConstants.{MAX_WORDS};
ghost use Rattle.cs_file.specs.Writable.{CanBeWritten};
ghost use Rattle.cs_model_index.specs.FileLaws.{HasLimits};
ghost use Rattle.cs_model_index.specs.Layout.{title_bytes};
ghost use Rattle.cs_model_merge.specs.Merges.{IsMerge, are_same, merge_refusal};
ghost use Rattle.cs_merge.specs.Merging.{FitTogether, NamesRefusal, IsOfFile, words_refusal};

use crate::fault::MergeFault;
use crate::vocabulary::{Merging, merged};
use cs_base::{MAX_DOCS, MAX_ROWS, MAX_WORDS, Memory, Seq, Text, Weights};
use cs_build::{joined_image, rows_in};
use cs_file::Image;
use cs_vocab::Vocab;
use std::alloc::Global;

/// How many bytes the titles of an index file are fewer than.
const TITLES_ROOM: usize = 1 << 32;

/// The image of the corpus in which those of two images are joined, the documents of the second behind those of the first.
///
/// Both are images that index files have. The target and the weights are those of both.
pub fn merge(alloc: Global, a: &Image, b: &Image) -> Result<Image, MergeFault>
    requires first { IsOfFile a.now }
    requires second { IsOfFile b.now }

    ensures ok { IfOk result (λ i. IsMerge a.now b.now i) }
    ensures accepted { OnOk result (merge_refusal a.now b.now ≡ None) }

    // want of memory has no cause
    ensures err { IfErr result (NamesRefusal a.now b.now) }

    // it can be written, and its file is an index file
    ensures writable { IfOk result CanBeWritten }
    ensures limits { HasLimits a.now → HasLimits b.now → IfOk result HasLimits }
{
    judge(a, b)?;
    let Merging {
        words,
        first,
        second,
    } = merged(alloc, &a.words, &b.words)?;
    if words.len() > MAX_WORDS {
        return Err(MergeFault::TooManyWords);
    }
    let titles = titles_of_both(alloc, a.titles.as_slice(), b.titles.as_slice())?;
    let words = Vocab::from_words(Seq::from_vec(words));
    let image = joined_image(alloc, words, a, &first, b, &second, titles)?;
    Ok(image)
}

// Whether two images may be merged, as far as their words don't decide it.
fn judge(a: &Image, b: &Image) -> Result<(), MergeFault>
    ensures ok { OnOk result (merge_refusal a.now b.now ≡ words_refusal a.now b.now) }
    ensures fit { OnOk result (FitTogether a.now b.now) }
    ensures err { IfErr result (NamesRefusal a.now b.now) }
{
    if a.target != b.target {
        return Err(MergeFault::Targets {
            first: a.target,
            second: b.target,
        });
    }
    if !are_same(a.weights, b.weights) {
        return Err(MergeFault::WeightsDiffer {
            first: a.weights,
            second: b.weights,
        });
    }
    if a.titles.len().saturating_add(b.titles.len()) > MAX_DOCS {
        return Err(MergeFault::TooManyDocs);
    }
    let title_bytes = bytes_in(a.titles.as_slice()).saturating_add(bytes_in(b.titles.as_slice()));
    if title_bytes >= TITLES_ROOM {
        return Err(MergeFault::TitlesTooLarge);
    }
    if rows_in(a).saturating_add(rows_in(b)) > MAX_ROWS {
        return Err(MergeFault::TooManyRows);
    }
    Ok(())
}

fn are_same(v: Weights, w: Weights) -> bool
    ensures { result ≡ are_same v w }
{
    v.title == w.title && v.facet == w.facet && v.text == w.text
}

// How many bytes titles have together, and no more than can be counted.
fn bytes_in(titles: &[Text]) -> usize
    ensures { result ≡ min (length (title_bytes titles.now)) (2 ^ 64 - 1) }
{
    let mut bytes: usize = 0;
    for title in titles {
        bytes = bytes.saturating_add(title.len());
    }
    bytes
}

fn titles_of_both(alloc: Global, a: &[Text], b: &[Text]) -> Result<Seq<Text>, Memory>
    ensures { IfOk result (λ titles. titles ≡ a.now ++ b.now) }
{
    let mut titles = Vec::with_capacity(alloc, a.len().saturating_add(b.len()))?;
    add_titles(alloc, &mut titles, a)?;
    add_titles(alloc, &mut titles, b)?;
    Ok(Seq::from_vec(titles))
}

fn add_titles(alloc: Global, titles: &mut Vec<Text>, more: &[Text]) -> Result<(), Memory>
    ensures { OnOk result (titles.new.items ≡ titles.old.items ++ more.now) }
{
    for title in more {
        titles.push(title.copy(alloc)?)?;
    }
    Ok(())
}
