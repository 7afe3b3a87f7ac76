//! Laws about gap codes. Each is the contract of a function that does nothing.
ghost use Rattle.cs_gaps.specs.Spelling.{OneSpelling, FirstIsFound, FoundIsFirst};

/// Each number has one code, and no code begins another: where two texts of codes are equal, so are
/// their first numbers and what stands behind these.
pub fn one_spelling()
    ensures { OneSpelling }
{}

/// The first code of bytes is that of a number exactly where they begin with its code.
pub fn first_codes()
    ensures found { FirstIsFound }
    ensures only { FoundIsFirst }
{}
