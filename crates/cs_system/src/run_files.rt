//! What files are asked before a run, so that want of memory can be told from a device that fails.
ghost use Rattle.std.specs.Prelude.{◌≡◌, IfErr, IsErr, IsOk, OnOk};
ghost use Rattle.std.specs.IoError.{error_kind};

use cs_base::{Files, Memory};
use std::io::{self, ErrorKind};

/// Files that a run is prepared over. What they can't do is left for the run to meet, but for want of memory.
pub trait RunFiles: Files {
    /// Looks for a file that the run reads, as `size` does: whether it is there. No failure is counted.
    fn look(&mut self, name: &str) -> Result<bool, Memory>
        ensures held { Self.held self.new ≡ Self.held self.old }
        ensures faults { Self.faults self.new ≡ Self.faults self.old };

    /// Takes the memory for a file that the run makes. No failure is counted.
    fn make_room(&mut self, name: &str) -> Result<(), Memory>
        ensures held { Self.held self.new ≡ Self.held self.old }
        ensures faults { Self.faults self.new ≡ Self.faults self.old };
}

/// Whether memory ran out; what else fails is met again.
pub fn room(answer: io::Result<()>) -> Result<(), Memory>
    ensures memory { IfErr answer (λ e. error_kind e ≡ ErrorKind.OutOfMemory → IsErr result) }
    ensures err { IfErr answer (λ e. ¬ (error_kind e ≡ ErrorKind.OutOfMemory) → IsOk result) }
    ensures ok { OnOk answer (IsOk result) }
{
    match answer {
        Err(error) if error.kind() == ErrorKind::OutOfMemory => Err(Memory),
        _ => Ok(()),
    }
}
