//! Laws about merged images. Each is the contract of a function that does nothing.
ghost use Rattle.cs_merge.specs.Merging.{AcceptedAreMerged};

/// The image that is read of an index file is one that `merge` takes.
pub fn files_are_taken()
    ensures { AcceptedAreMerged }
{}
