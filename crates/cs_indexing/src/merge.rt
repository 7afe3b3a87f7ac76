//! `merge INDEX1 INDEX2 NEW`: the index file of the corpus in which those of two index files are joined.
ghost use Rattle.std.specs.Prelude.{◌≡◌, None, IfOk, IfErr, OnOk};
ghost use Rattle.std.specs.Option.{ForSome};
ghost use Rattle.cs_file.specs.Writable.{CanBeWritten};
ghost use Rattle.cs_model_merge.specs.Merges.{IsMerge, merge_refusal};
ghost use Rattle.cs_indexing.specs.CommandLine.{CausedBy};
ghost use Rattle.cs_indexing.specs.Merge.{AreImages, HasMerge, MergeEnds, MergeStops, MergeTold};
ghost use Rattle.cs_indexing.specs.Views.{IsMergeCause, ReadsFiles, ended, stop_ending};
ghost use Rattle.cs_file.specs.WholeImages.{IsFileImage};

use crate::ending::RunStop;
use crate::files::{HeldFile, told_size};
use crate::saving::save;
use crate::whole::read_whole;
use cs_base::Files;
use cs_file::Image;
use cs_merge::laws;
use std::alloc::Global;

/// Writes the file of the merge of two index files. Both are read whole before the new file is made, so it may have the name of
/// either.
pub fn merge_indexes<'a, F: Files>(
    alloc: Global,
    first: &'a str,
    second: &'a str,
    new: &'a str,
    files: &mut F,
) -> Result<(), RunStop<'a>>
    ensures ends { MergeEnds (ended result) first.now second.now (F.held files.old) (F.held files.new) }
    ensures told { ForSome (F.held files.old) (λ h. MergeTold (ended result) h first.now second.now new.now (F.held files.new)) }
    ensures caused { CausedBy (ended result) (F.faults files.old) (F.faults files.new) }
{
    let image = read_merged(alloc, first, second, files)?;
    save(alloc, &image, files, new)?;
    Ok(())
}

// The image of the merge of two index files, whose own images aren't held any more.
fn read_merged<'a, F: Files>(
    alloc: Global,
    first: &'a str,
    second: &'a str,
    files: &mut F,
) -> Result<Image, RunStop<'a>>
    ensures ok { ForSome (F.held files.old) (λ h. IfOk result (HasMerge h first.now second.now)) }
    ensures writable { IfOk result CanBeWritten }
    ensures stops { ForSome (F.held files.old) (λ h. IfErr result (λ s. MergeStops (stop_ending s) h first.now second.now)) }
    ensures ends { IfErr result (λ s. MergeEnds (stop_ending s) first.now second.now (F.held files.old) (F.held files.new)) }
    ensures reads { ReadsFiles (F.held files.old) (F.held files.new) (F.faults files.old) (F.faults files.new) result }
{
    let (a, b) = read_both(alloc, first, second, files)?;
    let image = merged(alloc, &a, &b)?;
    Ok(image)
}

// The images of two index files. What was opened of the first isn't held any more when the second is opened.
fn read_both<'a, F: Files>(
    alloc: Global,
    first: &'a str,
    second: &'a str,
    files: &mut F,
) -> Result<(Image, Image), RunStop<'a>>
    ensures ok { ForSome (F.held files.old) (λ h. IfOk result (AreImages h first.now second.now)) }
    ensures first { IfOk result (λ p. IsFileImage p.0) }
    ensures second { IfOk result (λ p. IsFileImage p.1) }
    ensures stops { ForSome (F.held files.old) (λ h. IfErr result (λ s. MergeStops (stop_ending s) h first.now second.now)) }
    ensures ends { IfErr result (λ s. MergeEnds (stop_ending s) first.now second.now (F.held files.old) (F.held files.new)) }
    ensures reads { ReadsFiles (F.held files.old) (F.held files.new) (F.faults files.old) (F.faults files.new) result }
{
    let size = told_size(files, first)?;
    let second_size = told_size(files, second)?;
    let a = read_whole(alloc, files, HeldFile { name: first, size })?;
    let second = HeldFile {
        name: second,
        size: second_size,
    };
    let b = read_whole(alloc, files, second)?;
    Ok((a, b))
}

// The merge of two images that index files have.
fn merged<'a>(alloc: Global, a: &Image, b: &Image) -> Result<Image, RunStop<'a>>
    requires first { IsFileImage a.now }
    requires second { IsFileImage b.now }

    ensures ok { IfOk result (IsMerge a.now b.now) }
    ensures accepted { OnOk result (merge_refusal a.now b.now ≡ None) }
    ensures writable { IfOk result CanBeWritten }
    ensures cause { IfErr result (IsMergeCause a.now b.now) }
{
    laws::files_are_taken();
    match cs_merge::merge(alloc, a, b) {
        Ok(image) => Ok(image),
        Err(fault) => Err(RunStop::Merge(fault)),
    }
}
