//! Laws about what is kept, and the limits as they are promised. Each is the contract of a function that does nothing.
ghost use Rattle.std.specs.Prelude.{◌≡◌, ◌^◌};
ghost use Rattle.cs_model_kept.specs.InnerQueries.{InnerQueriesAreOfGrammar};
ghost use Rattle.cs_model_kept.specs.KeptLaws.{HitsAreOver, BasesListHits, EntriesExtend, EntriesAreSteps, EntriesNarrow};
ghost use Rattle.cs_model_kept.specs.Sharp.{FilesAreDivided, SharpIsLess, SkippedHaveNoRow};
ghost use Rattle.cs_model_kept.specs.KeptListLaws.{FirstPartsAreOfGrammar, FrontsStayGood, HeldAreOwn, ListsStayGood, PlansServe, ShorterAreOfGrammar, PlansAreHeld, FrontsPlanAlike, FrontsUseAlike, OthersAreNew, NumbersPlanAlike, NumbersUseAlike, NumbersFrontAlike, NumbersPutAlike, NumbersKeepAlike};

use crate::limits::*;

/// The limits of what is kept.
pub fn kept_limits()
    ensures entries { MAX_ENTRIES ≡ 256 }
    ensures entry_size { MAX_ENTRY_SIZE ≡ 2 ^ 16 }
{}

/// The hits of a query with their scores are told by its entry: they are those of the rows over the base where the last part is
/// positive, and else the base.
pub fn entries_have_hits()
    ensures hits { HitsAreOver }
    ensures listed { BasesListHits }
{}

/// The entry of a query and one part more comes from the query's hits and the rows of that part. So an entry is made by one step
/// for each part, each from the entry before it.
pub fn entries_extend()
    ensures extend { EntriesExtend }
    ensures steps { EntriesAreSteps }
{}

/// Where a prefix is being typed, the query's entry is told by that of a query with a shorter prefix in its place: it has the rows
/// whose word begins with the longer one, and the same base.
pub fn entries_narrow()
    ensures { EntriesNarrow }
{}

/// A list that is good for a corpus has each key with its query's own entry, and stays good: where one of its entries comes to the
/// front, and after a query.
pub fn lists_stay_good()
    ensures own { HeldAreOwn }
    ensures fronts { FrontsStayGood }
    ensures after { ListsStayGood }
{}

/// The queries whose keys are looked for are queries of the grammar: those with a shorter prefix, and that without the last part.
pub fn keys_are_of_queries()
    ensures shorter { ShorterAreOfGrammar }
    ensures first_parts { FirstPartsAreOfGrammar }
{}

/// A query that stands in a bracket of a query of the grammar is one itself: its text could be typed alone.
pub fn inner_queries_are_of_grammar()
    ensures { InnerQueriesAreOfGrammar }
{}

/// Over a list that is good for a corpus, a plan goes on from the entry of the query that it speaks of.
pub fn plans_serve()
    ensures { PlansServe }
{}

/// A plan by the keys of a query of the grammar uses an entry that is held, unless it is Fresh. Where an entry comes to the front,
/// plans and what they use stay. Where a plan isn't Same, the query's own key is new.
pub fn plans_use_entries()
    ensures held { PlansAreHeld }
    ensures fronts { FrontsPlanAlike }
    ensures used { FrontsUseAlike }
    ensures others { OthersAreNew }
{}

/// A list of entries that are told by the numbers of their words is one of entries of the corpus: each plan, what it uses, and what
/// becomes of the list and of a new entry are the same.
pub fn entries_are_numbered()
    ensures plans { NumbersPlanAlike }
    ensures used { NumbersUseAlike }
    ensures fronts { NumbersFrontAlike }
    ensures puts { NumbersPutAlike }
    ensures kept { NumbersKeepAlike }
{}

/// A block that isn't read for its bounds has no row in a hit. No more may be read where bounds are used than where they aren't,
/// where each word lies in one block, as in an index file.
pub fn sharp_reads()
    ensures skipped { SkippedHaveNoRow }
    ensures less { SharpIsLess }
    ensures divided { FilesAreDivided }
{}
