//! Laws about excerpts, and their limit as it is promised. Each is the contract of a function that does nothing.
ghost use Rattle.std.specs.Prelude.{◌≡◌};
ghost use Rattle.cs_model_excerpts.specs.ExcerptLaws.{CorporaHaveOwnWords, ExcerptsAreOwn, MarksAreOwn, ShortestAreFirst};

use crate::limits::MAX_EXCERPT_WORDS;

/// The most words of an excerpt.
pub fn excerpt_limits()
    ensures words { MAX_EXCERPT_WORDS ≡ 32 }
{}

/// Which text words of a document serve a part depends on the part and on the document's rows alone: it is told by the words themselves, and a join
/// serves none. So is the excerpt. It holds of each document of a collection.
pub fn marks_are_own()
    ensures marks { MarksAreOwn }
    ensures excerpts { ExcerptsAreOwn }
    ensures collections { CorporaHaveOwnWords }
{}

/// The run that is shown is the shortest one that covers, and of those of one length the first.
pub fn shortest_runs()
    ensures { ShortestAreFirst }
{}
