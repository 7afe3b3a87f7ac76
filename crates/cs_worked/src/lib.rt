//! Worked documents, questions and replies: what tests of several crates hold the code against.
//!
//! Each was worked by hand from what `docs/` says, or by a plain search in another language, and none is the program's own
//! output. JSON stands as a reader sees it. Nothing here is computed, and no crate uses it but in tests.
#![tactic(auto)]

mod collections;
mod commands;
mod excerpts;
mod files;
mod heads;
mod keystrokes;
mod pairs;
mod scripts;

pub use collections::{
    BAD_FACET, BAD_NAME, BAD_WEIGHTS, GUIDE, MARKED_LINES, THREE_DOCUMENTS, WEIGHED,
};
pub use commands::USAGE;
pub use excerpts::EXCERPTED;
pub use files::{NO_DOCUMENTS, ONE_DOCUMENT, USUALLY_WEIGHED, WEIGHED_DOCUMENT};
pub use heads::{
    ANNOUNCED_BODY, FAILED_READ, HEADS, LONG_HEAD, NO_QUERY, OTHER_METHOD, OTHER_PATH, TYPED,
    TYPED_HEAD,
};
pub use keystrokes::{KEYSTROKES, MANY_HITS, PREFIX, SECOND_BAR};
pub use pairs::{Worked, WorkedFile, WorkedHead, WorkedScript};
pub use scripts::{LONG_WORD, SCRIPTS};
