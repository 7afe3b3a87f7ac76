//! The failure of a call outside.

/// A call of an object outside failed, and the object has counted it.
#[derive(Clone, Copy, Debug, PartialEq, Eq, Drop)]
pub struct Failed;
