//! `upgrade INDEX NEW`: the index file that is written of an index file's image.
ghost use Rattle.std.specs.Option.{ForSome};
ghost use Rattle.cs_indexing.specs.CommandLine.{CausedBy};
ghost use Rattle.cs_indexing.specs.Upgrade.{UpgradeEnds, UpgradeTold};
ghost use Rattle.cs_indexing.specs.Views.{ended};

use crate::ending::RunStop;
use crate::files::{HeldFile, told_size};
use crate::saving::save;
use crate::whole::read_whole;
use cs_base::Files;
use std::alloc::Global;

/// Writes the file of an index file's image. That is read whole before the new file is made, so both may have one name.
pub fn upgrade_index<'a, F: Files>(
    alloc: Global,
    index: &'a str,
    new: &'a str,
    files: &mut F,
) -> Result<(), RunStop<'a>>
    ensures ends { UpgradeEnds (ended result) index.now (F.held files.old) (F.held files.new) }
    ensures told { ForSome (F.held files.old) (λ h. UpgradeTold (ended result) h index.now new.now (F.held files.new)) }
    ensures caused { CausedBy (ended result) (F.faults files.old) (F.faults files.new) }
{
    let size = told_size(files, index)?;
    let image = read_whole(alloc, files, HeldFile { name: index, size })?;
    save(alloc, &image, files, new)?;
    Ok(())
}
