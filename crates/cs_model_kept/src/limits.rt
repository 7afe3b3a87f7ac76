//! The limits of what is kept.

/// The most entries that an engine keeps.
pub const MAX_ENTRIES: usize = 256;

/// The most rows and listed documents of an entry that is kept, counted together.
pub const MAX_ENTRY_SIZE: usize = 1 << 16;
