//! Laws about the definitions, and the numbers as they are promised. Each is the contract of a function that does nothing.
ghost use Rattle.std.specs.Prelude.{◌≡◌, ◌^◌};
ghost use Rattle.cs_model_index.specs.FileLaws.{FilesFollowBlocks, ImagesFollowBlocks, ReadCorporaFollowBlocks, ReadingFollowsBlocks};
ghost use Rattle.cs_model_index.specs.Images.{ImagesAreOne, ImagesExist, ImagesKeepCorpora};
ghost use Rattle.cs_model_index.specs.Partitions.{PartitionsAreOne, PartitionsExist};

use crate::limits::*;

/// The numbers of the index file.
pub fn index_limits()
    ensures block_words { MAX_BLOCK_WORDS ≡ 2 ^ 16 }
    ensures most_target { MAX_TARGET ≡ 2 ^ 20 }
    ensures target { TARGET ≡ 8192 }
    ensures header { HEADER_BYTES ≡ 44 }
    ensures number { NUMBER_BYTES ≡ 4 }
    ensures entry { ENTRY_BYTES ≡ 16 }
    ensures bounded_entry { BOUNDED_ENTRY_BYTES ≡ 24 }
{}

/// No words have two partitions, and no corpus has two images for one target and weights. The image of a corpus holds that corpus.
pub fn one_image()
    ensures partitions { PartitionsAreOne }
    ensures images { ImagesAreOne }
    ensures corpora { ImagesKeepCorpora }
{}

/// Words have a partition, and a corpus whose documents are numbered from 0 without gaps has an image, for each target.
pub fn an_image()
    ensures partitions { PartitionsExist }
    ensures images { ImagesExist }
{}

/// Where the laws of blocks hold, an index file is the file of the image that is read of it.
pub fn files()
    ensures { FilesFollowBlocks }
{}

/// Where the laws of blocks hold, the file of an image within the limits is an index file, of which this image is read;
/// and what is read of an index file is a corpus and its image.
pub fn accepted_files()
    ensures images { ImagesFollowBlocks }
    ensures reading { ReadingFollowsBlocks }
    ensures corpora { ReadCorporaFollowBlocks }
{}
