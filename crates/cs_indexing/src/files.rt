//! Files that are to be read: that they are held, with which size, and all their bytes.
ghost use Rattle.std.specs.Prelude.{◌≡◌, Some, IfOk, IfErr};
ghost use Rattle.std.specs.Option.{ForSome};
ghost use Rattle.std.specs.FinMap as fin;
ghost use Rattle.cs_indexing.specs.Met.{HasToldSize};
ghost use Rattle.cs_indexing.specs.Views.{IsAbsence, IsDevice, IsMissing, IsSized, OfFile, ReadsFiles};

use crate::ending::RunStop;
use cs_base::Files;
use std::alloc::Global;

/// A file that is held.
#[derive(Clone, Copy)]
pub struct HeldFile<'a> {
    /// Its name.
    pub name: &'a str,
    /// Its size in bytes.
    pub size: u64,
}

/// The size of a file that should be held.
pub fn told_size<'a, F: Files>(files: &mut F, name: &'a str) -> Result<u64, RunStop<'a>>
    ensures ok { IfOk result (λ n. HasToldSize (F.held files.old) name.now n) }
    ensures missing { ForSome (F.held files.old) (λ h. IfErr result (λ s. IsMissing s (fin.get h name.now))) }
    ensures absence { IfErr result (λ s. IsAbsence s name.now) }
    ensures reads { ReadsFiles (F.held files.old) (F.held files.new) (F.faults files.old) (F.faults files.new) result }
{
    match files.size(name) {
        Ok(Some(size)) => Ok(size),
        Ok(None) => Err(RunStop::Absent(name)),
        Err(_) => Err(RunStop::Failed),
    }
}

/// All bytes of a file.
pub(crate) fn read_all<'a, F: Files>(
    alloc: Global,
    files: &mut F,
    file: HeldFile<'_>,
) -> Result<Vec<u8>, RunStop<'a>>
    requires { IsSized (F.held files.old) file }

    ensures ok { OfFile (F.held files.old) file.entry (λ bytes. IfOk result (λ b. b.items ≡ bytes)) }
    ensures kind { IfErr result IsDevice }
    ensures reads { ReadsFiles (F.held files.old) (F.held files.new) (F.faults files.old) (F.faults files.new) result }
{
    let Ok(mut bytes) = vec![in alloc; 0u8; file.size as usize] else {
        return Err(RunStop::Memory);
    };
    match files.read_at(file.name, 0, &mut bytes) {
        Ok(()) => Ok(bytes),
        Err(_) => Err(RunStop::Failed),
    }
}
