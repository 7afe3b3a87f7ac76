//! Why a block isn't read.
ghost use Rattle.std.specs.Prelude.{◌≡◌};
ghost use Rattle.cs_block.specs.declared.fault.BlockFault.{BlockFault};

use cs_base::{Broken, Memory};

/// What `decode` answers where it adds no rows.
#[derive(Clone, Copy, Debug, PartialEq, Eq, Drop)]
pub enum BlockFault {
    /// The bytes break a rule of a block's form.
    Rule {
        /// The first broken rule, from 13 to 17.
        n: u8,
        /// The place at which it is broken, in bytes from the block's first.
        at: u32,
    },
    /// Memory ran out.
    Memory,
}

impl From<Memory> for BlockFault {
    ghost from_gives = { λ _ e. e ≡ BlockFault.Memory };

    fn from(_: Memory) -> BlockFault {
        BlockFault::Memory
    }
}

impl From<Broken> for BlockFault {
    ghost from_gives = { λ broken e. e ≡ BlockFault.Rule broken.n broken.at };

    fn from(broken: Broken) -> BlockFault {
        BlockFault::Rule {
            n: broken.n,
            at: broken.at,
        }
    }
}
