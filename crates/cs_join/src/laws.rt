//! Laws about the definitions. Each is the contract of a function that does nothing.
ghost use Rattle.cs_join.specs.SharedLaws.{JoinsAreShared};

/// Where posts stand for the rows with a facet's name, those that `shared` keeps stand for the rows of a join.
pub fn joins_are_shared()
    ensures { JoinsAreShared }
{}
