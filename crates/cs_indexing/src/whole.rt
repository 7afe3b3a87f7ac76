//! Index files that are opened, and read whole.
ghost use Rattle.std.specs.Prelude.{◌≡◌, IfOk, IfErr, OnOk};
ghost use Rattle.cs_base.specs.outside.Outside.{file_bytes};
ghost use Rattle.cs_file.specs.Indexes.{HasAllBlocks, StandsFor};
ghost use Rattle.cs_file.specs.WholeImages.{IsFileImage};
ghost use Rattle.cs_file.specs.Writable.{CanBeWritten};
ghost use Rattle.cs_model_index.specs.FileRules.{IsIndexFile};
ghost use Rattle.cs_model_index.specs.Sections.{image_of};
ghost use Rattle.cs_indexing.specs.Views.{IsDamage, IsOfIndex, IsOfWhole, IsSized, IsWholeCause, OfFile, ReadsFiles};

use crate::ending::RunStop;
use crate::files::HeldFile;
use cs_base::{FileStore, Files};
use cs_file::{FetchFault, Image, Index, OpenFault, open_index};
use std::alloc::Global;

/// The index of an index file.
pub fn open_held<'a, F: Files>(
    alloc: Global,
    files: &mut F,
    index: HeldFile<'_>,
) -> Result<Index, RunStop<'a>>
    requires size { IsSized (F.held files.old) index }

    ensures ok { OfFile (F.held files.old) index.entry (λ b. IfOk result (StandsFor b)) }
    ensures damaged { OfFile (F.held files.old) index.entry (λ b. IfErr result (IsDamage b)) }
    ensures fits { IfOk result (HasAllBlocks (file_bytes (F.held files.new) index.entry.name.now)) }
    ensures kind { IfErr result IsOfIndex }
    ensures reads { ReadsFiles (F.held files.old) (F.held files.new) (F.faults files.old) (F.faults files.new) result }
{
    let mut store = FileStore::new(files, index.name, index.size);
    match open_index(alloc, &mut store) {
        Ok(index) => Ok(index),
        Err(OpenFault::Damaged { rule, at }) => Err(RunStop::Damaged { rule, at }),
        Err(OpenFault::Read) => Err(RunStop::Failed),
        Err(OpenFault::Memory) => Err(RunStop::Memory),
    }
}

/// The image of an index file. What was opened isn't held any more.
pub(crate) fn read_whole<'a, F: Files>(
    alloc: Global,
    files: &mut F,
    file: HeldFile<'_>,
) -> Result<Image, RunStop<'a>>
    requires size { IsSized (F.held files.old) file }

    ensures ok { OfFile (F.held files.old) file.entry (λ b. IfOk result (λ im. im ≡ image_of b)) }
    ensures accepted { OfFile (F.held files.old) file.entry (λ b. OnOk result (IsIndexFile b)) }
    ensures cause { OfFile (F.held files.old) file.entry (λ b. IfErr result (IsWholeCause b)) }
    ensures whole { IfOk result IsFileImage }
    ensures writable { IfOk result CanBeWritten }
    ensures kind { IfErr result IsOfWhole }
    ensures reads { ReadsFiles (F.held files.old) (F.held files.new) (F.faults files.old) (F.faults files.new) result }
{
    let index = open_held(alloc, files, file)?;
    let mut store = FileStore::new(files, file.name, file.size);
    match index.image(alloc, &mut store) {
        Ok(image) => Ok(image),
        Err(FetchFault::Changed { .. }) => Err(RunStop::Changed),
        Err(FetchFault::Read) => Err(RunStop::Failed),
        Err(FetchFault::Memory) => Err(RunStop::Memory),
    }
}
