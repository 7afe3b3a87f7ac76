//! What is told of a request beside its reply.
use cs_base::{Kept, Plan};

/// How a request was answered, and what became of its own answer.
#[derive(Clone, Copy, Debug, PartialEq, Eq)]
pub struct Note {
    /// From which kept answer.
    pub plan: Plan,
    /// Whether its own answer was kept before, is kept now, or is too large.
    pub kept: Kept,
}
