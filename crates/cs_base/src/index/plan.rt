//! How a query is answered out of what was kept, and what becomes of its own answer.

/// From which kept answer a query is answered.
#[derive(Clone, Copy, Debug, PartialEq, Eq)]
pub enum Plan {
    /// From that of the query itself.
    Same,
    /// From that of a query whose last prefix is shorter.
    Narrow {
        /// The bytes of that prefix.
        cut: u32,
    },
    /// From that of the query without its last part.
    Extend,
    /// From none: all its parts are looked up.
    Fresh,
}

/// What became of a query's own answer.
#[derive(Clone, Copy, Debug, PartialEq, Eq)]
pub enum Kept {
    /// It was kept before.
    Had,
    /// It is kept now.
    Kept,
    /// It is too large, and was let go.
    TooLarge,
}
