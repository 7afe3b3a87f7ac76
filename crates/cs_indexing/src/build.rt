//! `build COLLECTION INDEX`, and `import` of a source of another form: the index file of a collection.
ghost use Rattle.std.specs.Option.{ForSome};
ghost use Rattle.cs_indexing.specs.Build.{BuildEnds, BuildTold};
ghost use Rattle.cs_indexing.specs.CommandLine.{CausedBy};
ghost use Rattle.cs_indexing.specs.Views.{ended};

use crate::ending::RunStop;
use crate::files::{HeldFile, told_size};
use crate::saving::save;
use crate::sources::source_image;
use crate::words::Form;
use cs_base::Files;
use std::alloc::Global;

/// Writes the index file of a source's collection. The source is read whole before the file is made, so both may have one name.
pub fn build_index<'a, F: Files>(
    alloc: Global,
    form: Form,
    source: &'a str,
    index: &'a str,
    files: &mut F,
) -> Result<(), RunStop<'a>>
    ensures ends { BuildEnds form (ended result) source.now }
    ensures told { ForSome (F.held files.old) (λ h. BuildTold form (ended result) h source.now index.now (F.held files.new)) }
    ensures caused { CausedBy (ended result) (F.faults files.old) (F.faults files.new) }
{
    let size = told_size(files, source)?;
    let source = HeldFile { name: source, size };
    let image = source_image(alloc, files, form, source)?;
    save(alloc, &image, files, index)?;
    Ok(())
}
