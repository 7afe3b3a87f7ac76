//! Why two images aren't merged.
ghost use Rattle.std.specs.Prelude.{◌≡◌};
ghost use Rattle.cs_merge.specs.declared.fault.MergeFault.{MergeFault};

use cs_base::{Memory, Weights};
use thiserror::Error;

/// What `merge` answers where it makes no image. The first cause that stands is named.
#[derive(Clone, Copy, Debug, PartialEq, Eq, Drop, Error)]
pub enum MergeFault {
    /// The targets differ.
    #[error("targets {first} and {second} differ")]
    Targets {
        /// That of the first image.
        first: u32,
        /// That of the second.
        second: u32,
    },
    /// The weights differ.
    #[error("weights differ")]
    WeightsDiffer {
        /// Those of the first image.
        first: Weights,
        /// Those of the second.
        second: Weights,
    },
    /// The documents together are more than `MAX_DOCS`.
    #[error("too many documents")]
    TooManyDocs,
    /// The titles together have 2^32 bytes or more.
    #[error("titles too large")]
    TitlesTooLarge,
    /// The rows together are more than `MAX_ROWS`.
    #[error("too many rows")]
    TooManyRows,
    /// The distinct words of both are more than `MAX_WORDS`.
    #[error("too many distinct words")]
    TooManyWords,
    /// Memory ran out.
    #[error("out of memory")]
    Memory,
}

impl From<Memory> for MergeFault {
    ghost from_gives = { λ _ e. e ≡ MergeFault.Memory };

    fn from(_: Memory) -> MergeFault {
        MergeFault::Memory
    }
}
