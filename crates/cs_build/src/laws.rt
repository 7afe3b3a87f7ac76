//! Laws about collections, their images and files. Each is the contract of a function that does nothing.
ghost use Rattle.cs_build.specs.BuildLaws.{TitlesAreParts, TitlesHaveFewBytes, CollectionsKeepLimits, ImagesHaveLimits, FilesOfCollections};
ghost use Rattle.cs_model_index.specs.FileLaws.{AcceptedAreFiles, AcceptedAreImages, FilesAreAccepted, ReadAreCorpora};

/// The titles of a collection together have at most as many bytes as the collection, so those of a collection that
/// isn't refused have fewer than 2^32.
pub fn titles()
    ensures parts { TitlesAreParts }
    ensures few { TitlesHaveFewBytes }
{}

/// Titles and rows of a collection that isn't refused are such as an index file may have.
pub fn collections()
    ensures { CollectionsKeepLimits }
{}

/// The image of documents and rows that keep the limits of files is within them.
pub fn images()
    ensures { ImagesHaveLimits }
{}

/// The file of an image within the limits is an index file, of which this image is read; and an index file is the file
/// of the image that is read of it, which is that of the corpus that is read of it. So the file of an accepted
/// collection's image is an index file, of which this image and the collection's corpus are read.
pub fn files_of_images()
    ensures accepted { FilesAreAccepted }
    ensures same { AcceptedAreFiles }
    ensures images { AcceptedAreImages }
    ensures corpora { ReadAreCorpora }
    ensures collections { FilesOfCollections }
{}
