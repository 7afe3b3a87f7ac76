//! The numbers of an index file's header.
ghost use Rattle.std.specs.Prelude.{◌≡◌, ◌<◌, ◌≤◌, ◌^◌, true, length, map};
ghost use Rattle.std.specs.List.{sum_by};
ghost use Rattle.cs_base.specs.declared.content.limits.TheConstants.{MAX_WORDS};
ghost use Rattle.cs_model_index.specs.Layout.{Header, header_numbers, header_of_image, vocabulary_bytes, title_bytes};
ghost use Rattle.cs_file.specs.Writable.{CanBeWritten};

use crate::image::Image;
use crate::weights::field_of;
use cs_base::{BlockHead, Text};
use cs_cols::Cols;
use cs_vocab::Vocab;

/// The numbers of the header of an image's file, in their order.
pub(crate) fn numbers_of(image: &Image) -> [u32; 9]
    requires { CanBeWritten image.now }

    ensures { result ≡ header_numbers (header_of_image true image.now) }
{
    [
        image.titles.len() as u32,
        image.words.len(),
        rows_in(image.blocks.as_slice()),
        image.blocks.len() as u32,
        image.target,
        vocabulary_len(&image.words),
        titles_len(image.titles.as_slice()),
        blocks_len(image.heads.as_slice()),
        field_of(image.weights),
    ]
}

fn rows_in(blocks: &[Cols]) -> u32
    requires { sum_by (λ block. length block.posts) blocks.now < 2 ^ 32 }

    ensures { result ≡ sum_by (λ block. length block.posts) blocks.now }
{
    let mut rows = 0;
    for block in blocks {
        rows += block.len() as u32;
    }
    rows
}

fn vocabulary_len(words: &Vocab) -> u32
    requires { length words.now ≤ MAX_WORDS }

    ensures { result ≡ length (vocabulary_bytes words.now) }
{
    let mut bytes = 0;
    for n in 0..words.len() {
        bytes += 1 + u32::from(words.word_len(n));
    }
    bytes
}

fn titles_len(titles: &[Text]) -> u32
    requires { length (title_bytes titles.now) < 2 ^ 32 }

    ensures { result ≡ length (title_bytes titles.now) }
{
    let mut bytes = 0;
    for title in titles {
        bytes += title.len() as u32;
    }
    bytes
}

fn blocks_len(heads: &[BlockHead]) -> u32
    requires { sum_by (λ h. h.len) heads.now < 2 ^ 32 }

    ensures { result ≡ sum_by (λ h. h.len) heads.now }
{
    let mut bytes = 0;
    for head in heads {
        bytes += head.len;
    }
    bytes
}
