//! Collections, accepted and refused.

/// The three documents, 0 to 2, of which `docs/QUERY.md` speaks.
pub const THREE_DOCUMENTS: &str = concat!(
    "Type less find more\tauthor=Bast;author=Weber;year=2006\tautocompletion search with a succinct index\n",
    "The CompleteSearch engine\tauthor=Bast;year=2007\ttype ahead search and faceted search\n",
    "Typed lambda calculi\tauthor=Church;year=1940\ttypes\n",
);

/// One document whose title has letters that decompose, and quotes; one of its facets has a value of several words.
pub const GUIDE: &str =
    "Müller's \"Über-Guide\": 2nd ed.\tpublisher=O'Reilly & Co.; lang=de\tThe handbook.";

/// Two documents of a title alone, `a` and `b`: a mark in front, CR before LF, a line without bytes, and no ending.
pub const MARKED_LINES: &str = "\u{FEFF}a\r\n\nb";

/// One document behind a weights line.
pub const WEIGHED: &str = "#weights title=9 facet=3 text=2\nAb\tk=C\tb a";

/// Refused in its first line: a facet without a value.
pub const BAD_FACET: &[u8] = b"a\tb\tc";

/// Refused in its first line: a facet's name begins with a digit.
pub const BAD_NAME: &[u8] = b"x\t1a=b";

/// Refused in its first line: no weight is 0.
pub const BAD_WEIGHTS: &[u8] = b"#weights title=0 facet=2 text=1";
