//! Why a change isn't made.
ghost use Rattle.std.specs.Prelude.{◌≡◌};
ghost use Rattle.cs_live.specs.declared.fault.{AddFault.{AddFault}, RemoveFault.{RemoveFault}};

use cs_base::Memory;
use thiserror::Error;

/// What `Live::add` answers where it adds no document. The first cause that stands is named.
#[derive(Clone, Copy, Debug, PartialEq, Eq, Drop, Error)]
pub enum AddFault {
    /// There were `MAX_DOCS` documents, with those that are gone.
    #[error("too many documents")]
    FullDocs,
    /// The rows of the index and of all documents that were added, with this one, are more than `MAX_ROWS`.
    #[error("too many rows")]
    FullRows,
    /// Their distinct words are more than `MAX_WORDS`.
    #[error("too many distinct words")]
    FullWords,
    /// Memory ran out.
    #[error("out of memory")]
    Memory,
}

impl From<Memory> for AddFault {
    ghost from_gives = { λ _ e. e ≡ AddFault.Memory };

    fn from(_: Memory) -> AddFault {
        AddFault::Memory
    }
}

/// What `Live::remove` answers where it deletes no document.
#[derive(Clone, Copy, Debug, PartialEq, Eq, Drop, Error)]
pub enum RemoveFault {
    /// The number is no document's now.
    #[error("no document")]
    Absent,
    /// Memory ran out.
    #[error("out of memory")]
    Memory,
}

impl From<Memory> for RemoveFault {
    ghost from_gives = { λ _ e. e ≡ RemoveFault.Memory };

    fn from(_: Memory) -> RemoveFault {
        RemoveFault::Memory
    }
}
