//! The numbers of the index file.

/// The most words of a block.
pub const MAX_BLOCK_WORDS: u32 = 1 << 16;

/// The most that a target may be: how many rows a block of several words may have.
pub const MAX_TARGET: u32 = 1 << 20;

/// The target that index files are built with.
pub const TARGET: u32 = 8192;

/// The bytes of the header.
pub const HEADER_BYTES: u32 = 44;

/// The bytes of a number.
pub const NUMBER_BYTES: u32 = 4;

/// The bytes of what the directory says of one block, in version 1.
pub const ENTRY_BYTES: u32 = 16;

/// The same in version 2: its least and its greatest document stand behind.
pub const BOUNDED_ENTRY_BYTES: u32 = 24;
