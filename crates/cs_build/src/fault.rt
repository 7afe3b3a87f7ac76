//! Why a collection's rows make no image.
ghost use Rattle.std.specs.Prelude.{◌≡◌};
ghost use Rattle.std.specs.Option.{option_map};
ghost use Rattle.cs_docs.specs.FaultRefusals.{reason_text};
ghost use Rattle.cs_model.specs.Collection.{refusal_words};
ghost use Rattle.cs_build.specs.Building.{build_refusal_of};
ghost use Rattle.cs_build.specs.declared.fault.BuildFault.{BuildFault};

use cs_base::Memory;
use cs_docs::Reason;
use thiserror::Error;

/// What `image` answers where it makes no image.
#[derive(Clone, Copy, Debug, PartialEq, Eq, Drop, Error)]
pub enum BuildFault {
    /// There are more than `MAX_WORDS` distinct words.
    #[error("too many distinct words")]
    TooManyWords,
    /// Memory ran out.
    #[error("out of memory")]
    Memory,
}

impl BuildFault {
    /// The words of a refusal; None where memory ran out.
    pub fn reason(self) -> Option<Reason<'static>>
        ensures { option_map reason_text result ≡ option_map refusal_words (build_refusal_of self) }
    {
        match self {
            BuildFault::TooManyWords => Some(Reason {
                line: None,
                words: b"too many distinct words",
            }),
            BuildFault::Memory => None,
        }
    }
}

impl From<Memory> for BuildFault {
    ghost from_gives = { λ _ e. e ≡ BuildFault.Memory };

    fn from(_: Memory) -> BuildFault {
        BuildFault::Memory
    }
}
