//! The index of an image, and the size of its file, which is of version 2.
ghost use Rattle.std.specs.Prelude.{◌≡◌, ◌<◌, ◌^◌, true, length, IfOk, Some, All};
ghost use Rattle.cs_model_index.specs.FileRules.{IsIndexFile};
ghost use Rattle.cs_model_index.specs.Layout.{file, header_of_image, offsets_from, title_bytes};
ghost use Rattle.cs_model_index.specs.Sections.{image_of};
ghost use Rattle.cs_file.specs.HeaderView.{seen_header};
ghost use Rattle.cs_file.specs.Indexes.{HasAllBlocks, StandsFor};
ghost use Rattle.cs_file.specs.Writable.{CanBeWritten};

use crate::header::Header;
use crate::image::Image;
use crate::index::Index;
use crate::places::places_of;
use crate::sizes::numbers_of;
use cs_base::{Memory, Seq, Text};
use std::alloc::Global;

/// How many bytes the index file of an image has.
pub fn file_size(image: &Image) -> u64
    requires { CanBeWritten image.now }

    ensures { result ≡ length (file image.now) }
{
    header_of(image).size()
}

/// The index that is opened over the file of an image, without that file. Words and heads are the image's own.
///
/// The posts are dropped before any memory is asked for.
pub fn index_of(alloc: Global, image: Image) -> Result<Index, Memory>
    requires writable { CanBeWritten image }
    requires whole { IsIndexFile (file image) }
    requires read { image_of (file image) ≡ image }
    requires bytes { All (λ x. x < 2 ^ 8) (file image) }

    ensures stands { IfOk result (λ i. StandsFor (file image) i) }
    ensures fits { IfOk result (λ i. HasAllBlocks (Some (file image)) i) }
{
    let header = header_of(&image);
    let Image {
        titles,
        words,
        heads,
        blocks,
        target,
        weights,
    } = image;
    drop(blocks);
    let offsets = offsets_of(alloc, titles.as_slice())?;
    drop(titles);
    let places = places_of(alloc, heads.as_slice())?;
    Ok(Index {
        docs: header.docs,
        words,
        offsets,
        heads,
        target,
        weights,
        titles_at: header.titles_at(),
        blocks_at: header.blocks_at(),
        places,
    })
}

// The header of an image's file.
fn header_of(image: &Image) -> Header
    requires { CanBeWritten image.now }

    ensures numbers { seen_header result ≡ header_of_image true image.now }
    ensures small { result.vocabulary_len < 2 ^ 32 }
{
    let numbers = numbers_of(image);
    Header {
        two: true,
        docs: numbers[0],
        words: numbers[1],
        rows: numbers[2],
        blocks: numbers[3],
        target: numbers[4],
        vocabulary_len: numbers[5],
        titles_len: numbers[6],
        blocks_len: numbers[7],
        weights: numbers[8],
    }
}

// Where each title begins among the titles' bytes, and where the last one ends.
fn offsets_of(alloc: Global, titles: &[Text]) -> Result<Seq<u32>, Memory>
    requires { length (title_bytes titles.now) < 2 ^ 32 }

    ensures { IfOk result (λ os. os ≡ offsets_from 0 titles.now) }
{
    let mut offsets = Vec::with_capacity(alloc, titles.len() + 1)?;
    let mut at: u32 = 0;
    offsets.push(at)?;
    for title in titles {
        at += title.len() as u32;
        offsets.push(at)?;
    }
    Ok(Seq::from_vec(offsets))
}
