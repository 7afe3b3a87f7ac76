//! Why an index file isn't written, opened or read.
ghost use Rattle.std.specs.Prelude.{◌≡◌};
ghost use Rattle.cs_file.specs.declared.fault.FetchFault.{FetchFault};
ghost use Rattle.cs_file.specs.declared.fault.OpenFault.{OpenFault};
ghost use Rattle.cs_file.specs.declared.fault.WriteFault.{WriteFault};

use cs_base::Memory;

/// What `write_index` answers where it doesn't put the whole file.
#[derive(Clone, Copy, Debug, PartialEq, Eq, Drop)]
pub enum WriteFault {
    /// The sink failed.
    Sink,
    /// Memory ran out.
    Memory,
}

impl From<Memory> for WriteFault {
    ghost from_gives = { λ _ e. e ≡ WriteFault.Memory };

    fn from(_: Memory) -> WriteFault {
        WriteFault::Memory
    }
}

/// What `open_index` answers where it opens none.
#[derive(Clone, Copy, Debug, PartialEq, Eq, Drop)]
pub enum OpenFault {
    /// The bytes are no index file.
    Damaged {
        /// The first broken rule, from 1 to 19.
        rule: u8,
        /// The place at which it is broken, in bytes from the file's first.
        at: u64,
    },
    /// The store failed.
    Read,
    /// Memory ran out.
    Memory,
}

impl From<Memory> for OpenFault {
    ghost from_gives = { λ _ e. e ≡ OpenFault.Memory };

    fn from(_: Memory) -> OpenFault {
        OpenFault::Memory
    }
}

/// What reading a block, a title or the whole image of an opened index answers where it gives none.
#[derive(Clone, Copy, Debug, PartialEq, Eq, Drop)]
pub enum FetchFault {
    /// The store failed.
    Read,
    /// The bytes aren't those that were there at opening.
    Changed {
        /// The first broken rule, from 13 to 17 for a block and 9 for a title; 18 and 19 come of an image alone.
        rule: u8,
        /// The place at which it is broken, in bytes from the file's first.
        at: u64,
    },
    /// Memory ran out.
    Memory,
}

impl From<Memory> for FetchFault {
    ghost from_gives = { λ _ e. e ≡ FetchFault.Memory };

    fn from(_: Memory) -> FetchFault {
        FetchFault::Memory
    }
}
