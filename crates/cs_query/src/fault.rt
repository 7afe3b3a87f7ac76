//! Why a text has no query.
use cs_base::{Memory, Which};

/// What `parse` answers where it gives no query.
#[derive(Clone, Copy, Debug, PartialEq, Eq, Drop)]
pub enum QueryFault {
    /// The grammar refuses a character of the key text.
    Bad {
        /// The bytes before the first refused character.
        at: u32,
    },
    /// A limit alone refuses a character of the key text.
    Limit {
        /// The bytes before the first refused character.
        at: u32,
        /// The first limit that stands against it.
        which: Which,
    },
    /// Memory ran out.
    Memory,
}

/// Why a reader doesn't take a character.
#[derive(Clone, Copy, Drop)]
pub enum Stop {
    /// The grammar refuses it.
    Bad,
    /// A limit alone refuses it.
    Limit(Which),
    /// Memory ran out.
    Memory,
}

impl From<Memory> for Stop {
    ghost use Rattle.std.specs.Prelude.{◌≡◌};
    ghost use Rattle.cs_query.specs.declared.fault.Stop.TheVariants.{Memory as NoMemory};

    ghost from_gives = { λ _ e. e ≡ NoMemory };

    fn from(_: Memory) -> Self {
        Stop::Memory
    }
}

/// The text would be longer than a query may be.
#[derive(Clone, Copy, Drop)]
pub struct NoRoom;

impl From<NoRoom> for Stop {
    ghost use Rattle.std.specs.Prelude.{◌≡◌};
    ghost use Rattle.cs_base.specs.declared.content.query.Which.TheVariants.{Query};
    ghost use Rattle.cs_query.specs.declared.fault.Stop.TheVariants.{Limit as OverLimit};

    ghost from_gives = { λ _ e. e ≡ OverLimit Query };

    fn from(_: NoRoom) -> Self {
        Stop::Limit(Which::Query)
    }
}
