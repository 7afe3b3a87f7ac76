//! Why a source isn't translated.
ghost use Rattle.std.specs.Prelude.{◌≡◌};
ghost use Rattle.cs_more.specs.declared.fault.FlatFault.{FlatFault};

use cs_base::Memory;
use thiserror::Error;

/// What `flat_csv` and `flat_jsonl` answer where they give no translation.
#[derive(Clone, Copy, Debug, PartialEq, Eq, Drop, Error)]
pub enum FlatFault {
    /// The source or its translation has more than `MAX_COLLECTION_BYTES` bytes.
    #[error("too large")]
    TooLarge,
    /// Memory ran out.
    #[error("out of memory")]
    Memory,
}

impl From<Memory> for FlatFault {
    ghost from_gives = { λ _ e. e ≡ FlatFault.Memory };

    fn from(_: Memory) -> FlatFault {
        FlatFault::Memory
    }
}
