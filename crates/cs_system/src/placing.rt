//! The order in which a file that was written takes its name.
ghost use Rattle.std.specs.Prelude.{◌≡◌, ◌⊎◌, Option, OnOk, OnErr};
ghost use Rattle.std.specs.Option.{ForSome, option_map};
ghost use Rattle.cs_system.specs.Placing.{Stage, synced, named, settled};

use std::io;

/// What is done to a file that was written, a call of the system each.
pub trait Steps {
    /// How far it is, where that is told.
    ghost stage: { Self → Option Stage };

    /// Hands its bytes to the device.
    fn sync(&mut self) -> io::Result<()>
        ensures ok { OnOk result (stage self.new ≡ option_map (λ _. synced) (stage self.old)) }
        ensures err { OnErr result (stage self.new ≡ stage self.old) };

    /// Gives it its name, in one step. Its bytes are on the device.
    fn take_name(&mut self) -> io::Result<()>
        requires { ForSome (stage self.old) (λ s. s ≡ synced) }

        ensures ok { OnOk result (stage self.new ≡ option_map (λ _. named) (stage self.old)) }
        ensures err { OnErr result (stage self.new ≡ stage self.old) };

    /// Hands the folder, with the new name, to the device.
    fn sync_folder(&mut self) -> io::Result<()>
        requires { ForSome (stage self.old) (λ s. s ≡ named) }

        ensures ok { OnOk result (stage self.new ≡ option_map (λ _. settled) (stage self.old)) }
        ensures err { OnErr result (stage self.new ≡ stage self.old) };
}

/// Places a file that was written. Each step that fails ends it; before the first was done the name isn't touched.
pub fn place<S: Steps>(steps: &mut S) -> io::Result<()>
    ensures ok { OnOk result (S.stage steps.new ≡ option_map (λ _. settled) (S.stage steps.old)) }
    ensures err { OnErr result ((S.stage steps.new ≡ S.stage steps.old) ⊎ (S.stage steps.new ≡ option_map (λ _. synced) (S.stage steps.old)) ⊎ (S.stage steps.new ≡ option_map (λ _. named) (S.stage steps.old))) }
{
    steps.sync()?;
    steps.take_name()?;
    steps.sync_folder()
}
