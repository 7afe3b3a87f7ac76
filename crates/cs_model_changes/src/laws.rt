//! Laws about joined and changed corpora. Each is the contract of a function that does nothing.
ghost use Rattle.cs_model_changes.specs.Changes.{AdditionsJoin, DeletedAreGone};
ghost use Rattle.cs_model_changes.specs.Joined.{JoinedAreCorpora};

/// The corpus of documents and further ones behind them is their two corpora joined.
pub fn joined_corpora()
    ensures { JoinedAreCorpora }
{}

/// Where documents are added alone, the corpus is joined with theirs. A document that is deleted stays away, and its number
/// comes to no other.
pub fn changed_corpora()
    ensures additions { AdditionsJoin }
    ensures deleted { DeletedAreGone }
{}
