//! The law about blocks. It is the contract of a function that does nothing.
ghost use Rattle.cs_model_index.specs.BlockLaws.{AcceptedAreBlocks, OneReading};

/// The rules accept exactly the blocks of rows, and no bytes are the block of two lists of rows.
pub fn blocks()
    ensures accepted { AcceptedAreBlocks }
    ensures rows { OneReading }
{}
