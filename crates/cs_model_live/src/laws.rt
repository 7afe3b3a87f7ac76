//! Laws about live corpora, and their limit as it is promised. Each is the contract of a function that does nothing.
ghost use Rattle.std.specs.Prelude.{◌≡◌};
ghost use Rattle.cs_model_live.specs.Courses.{CoursesAreChanges, CoursesGoOn};

use crate::limits::MAX_DOC_DIGITS;

/// The most digits of a document's number.
pub fn live_limits()
    ensures digits { MAX_DOC_DIGITS ≡ 7 }
{}

/// The corpus behind a course is the corpus before it after the changes that the course made, and no others.
pub fn courses()
    ensures { CoursesAreChanges }
{}

/// A course and one that goes on from its end are a course of all their lines.
pub fn continued()
    ensures { CoursesGoOn }
{}
