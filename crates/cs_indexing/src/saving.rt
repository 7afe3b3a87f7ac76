//! An image, saved as a file.
ghost use Rattle.std.specs.Prelude.{◌≡◌, false, true, IfErr, OnOk, OnErr};
ghost use Rattle.std.specs.Option.{ForSome, is_some};
ghost use Rattle.std.specs.FinMap as fin;
ghost use Rattle.cs_base.specs.outside.Outside.{Grew, GrewByPrefix, Sets, but_for, file_bytes, is_file_finished, whole_file};
ghost use Rattle.cs_file.specs.Writable.{CanBeWritten};
ghost use Rattle.cs_model_index.specs.Layout.{file};
ghost use Rattle.cs_indexing.specs.Build.{IsBegun};
ghost use Rattle.cs_indexing.specs.CommandLine.{CausedBy};
ghost use Rattle.cs_indexing.specs.Views.{IsDevice, stop_ending};

use crate::ending::RunStop;
use cs_base::{Failed, FileSink, Files};
use cs_file::{Image, WriteFault, write_index};
use std::alloc::Global;

/// Makes a file of the image's bytes, and finishes it. Where that fails, the name is as it was, or holds some first bytes and isn't
/// finished.
pub(crate) fn save<'a, F: Files>(
    alloc: Global,
    image: &Image,
    files: &mut F,
    name: &str,
) -> Result<(), RunStop<'a>>
    requires { CanBeWritten image.now }

    ensures ok { OnOk result (Sets (F.held files.old) name.now (λ _. whole_file (file image.now)) (F.held files.new)) }
    ensures err { OnErr result (IsBegun (F.held files.old) name.now (file image.now) (F.held files.new)) }
    ensures kind { IfErr result IsDevice }
    ensures quiet { OnOk result (F.faults files.new ≡ F.faults files.old) }
    ensures caused { IfErr result (λ s. CausedBy (stop_ending s) (F.faults files.old) (F.faults files.new)) }
{
    files.create(name)?;
    put_image(alloc, image, files, name)?;
    files.finish(name)?;
    Ok(())
}

// Puts the bytes of the image at the end of a held file that isn't finished.
fn put_image<'a, F: Files>(
    alloc: Global,
    image: &Image,
    files: &mut F,
    name: &str,
) -> Result<(), RunStop<'a>>
    requires writable { CanBeWritten image.now }
    requires is_held { ForSome (F.held files.old) (λ h. is_some (fin.get h name.now) ≡ true) }
    requires unfinished { ForSome (F.held files.old) (λ h. is_file_finished (fin.get h name.now) ≡ false) }

    ensures ok { OnOk result (Grew (file_bytes (F.held files.old) name.now) (file image.now) (file_bytes (F.held files.new) name.now)) }
    ensures err { OnErr result (GrewByPrefix (file_bytes (F.held files.old) name.now) (file image.now) (file_bytes (F.held files.new) name.now)) }
    ensures others { but_for name.now (F.held files.new) ≡ but_for name.now (F.held files.old) }
    ensures is_held { ForSome (F.held files.new) (λ h. is_some (fin.get h name.now) ≡ true) }
    ensures unfinished { ForSome (F.held files.new) (λ h. is_file_finished (fin.get h name.now) ≡ false) }
    ensures kind { IfErr result IsDevice }
    ensures quiet { OnOk result (F.faults files.new ≡ F.faults files.old) }
    ensures caused { IfErr result (λ s. CausedBy (stop_ending s) (F.faults files.old) (F.faults files.new)) }
{
    let mut sink = FileSink::new(files, name);
    match write_index(alloc, image, &mut sink) {
        Ok(()) => Ok(()),
        Err(WriteFault::Sink) => Err(RunStop::Failed),
        Err(WriteFault::Memory) => Err(RunStop::Memory),
    }
}
