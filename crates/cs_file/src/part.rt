//! Blocks as rules 18 and 19 speak of them.
use cs_base::BlockHead;

/// What rules 18 and 19 ask of a block.
#[derive(Clone, Copy, Drop)]
pub(crate) struct BlockPart {
    /// What the directory says of it, with the bounds of its rows.
    pub(crate) head: BlockHead,
    /// Whether each of its words has a row.
    pub(crate) whole: bool,
    /// How many rows its first word has.
    pub(crate) first: u32,
}
