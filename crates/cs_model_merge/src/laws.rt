//! Laws about merges. Each is the contract of a function that does nothing.
ghost use Rattle.cs_model_merge.specs.Merges.{MergesAreJoined, MergesAreOne};

/// Two images have at most one merge. That of the images of two lists of documents is the image of the list of both.
pub fn merges()
    ensures one { MergesAreOne }
    ensures joined { MergesAreJoined }
{}
