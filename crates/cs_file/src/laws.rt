//! The laws of images that an index reads. They are the contract of a function that does nothing.
ghost use Rattle.cs_file.specs.ImageRead.{ReadImagesAreFiles, StoodImagesAreRead};

/// The image of titles and blocks that were read by an index can be written, and its file is an index file, of which it is read.
/// Where the bytes of an index file stand for the index, their image is read, and no rule is broken.
pub fn read_images()
    ensures files { ReadImagesAreFiles }
    ensures stood { StoodImagesAreRead }
{}
