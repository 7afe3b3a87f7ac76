//! Index files that are opened: among the files, and of an image in memory.
ghost use Rattle.std.specs.Prelude.{◌≡◌, ◌<◌, ◌^◌, ℕ, List, [], All, Some, IfErr, IfOk};
ghost use Rattle.cs_base.specs.outside.Outside.{file_bytes};
ghost use Rattle.cs_engine.specs.Keeping.{AreGood};
ghost use Rattle.cs_file.specs.Indexes.{HasAllBlocks, StandsFor};
ghost use Rattle.cs_model_index.specs.Layout.{file};
ghost use Rattle.cs_model_kept.specs.declared.limits.TheConstants.{MAX_ENTRIES};
ghost use Rattle.cs_indexing.specs.Filed.{HasFile};
ghost use Rattle.cs_indexing.specs.Views.{IsDamage, IsOfIndex, IsSized, OfFile, ReadsFiles};

use cs_base::{Files, MemSink, MemStore, Memory};
use cs_engine::Engine;
use cs_file::{Image, Index, WriteFault, file_size, index_of, write_index};
use cs_indexing::{HeldFile, RunStop, open_held};
use cs_model_kept::MAX_ENTRIES;
use std::alloc::Global;

/// The engine of an index file, with nothing kept.
pub(crate) fn open<'a, F: Files>(
    alloc: Global,
    files: &mut F,
    index: HeldFile<'_>,
) -> Result<Engine, RunStop<'a>>
    requires size { IsSized (F.held files.old) index }

    ensures ok { OfFile (F.held files.old) index.entry (λ b. IfOk result (λ e. StandsFor b e.index)) }
    ensures good { (b : List ℕ) → IfOk result (AreGood b) }
    ensures damaged { OfFile (F.held files.old) index.entry (λ b. IfErr result (IsDamage b)) }
    ensures fits { IfOk result (λ e. HasAllBlocks (file_bytes (F.held files.new) index.entry.name.now) e.index) }
    ensures kind { IfErr result IsOfIndex }
    ensures reads { ReadsFiles (F.held files.old) (F.held files.new) (F.faults files.old) (F.faults files.new) result }
{
    let index = open_held(alloc, files, index)?;
    let engine = engine_of(alloc, index)?;
    Ok(engine)
}

// The engine of an index, with room for as many answers as there may be.
fn engine_of(alloc: Global, index: Index) -> Result<Engine, Memory>
    ensures index { IfOk result (λ e. e.index ≡ index) }
    ensures empty { IfOk result (λ e. (e.answers.entries ≡ []) × (e.answers.capacity ≡ MAX_ENTRIES)) }
    ensures good { (b : List ℕ) → IfOk result (AreGood b) }
{
    Engine::new(alloc, index, MAX_ENTRIES)
}

/// The engine over the index file of an image, with nothing kept, and that file, which stands in the memory of some bytes that are
/// of no more use.
pub(crate) fn open_image(
    alloc: Global,
    image: Image,
    memory: Vec<u8>,
) -> Result<(Engine, MemStore), Memory>
    requires { HasFile image }

    ensures bytes { IfOk result (λ p. p.1.bytes ≡ file image) }
    ensures stands { IfOk result (λ p. StandsFor (file image) p.0.index) }
    ensures fits { IfOk result (λ p. HasAllBlocks (Some (file image)) p.0.index) }
    ensures empty { IfOk result (λ p. (p.0.answers.entries ≡ []) × (p.0.answers.capacity ≡ MAX_ENTRIES)) }
    ensures good { (b : List ℕ) → IfOk result (λ p. AreGood b p.0) }
{
    let (index, store) = open_bytes(alloc, image, memory)?;
    let engine = engine_of(alloc, index)?;
    Ok((engine, store))
}

// The index of the file of an image, and that file.
fn open_bytes(alloc: Global, image: Image, memory: Vec<u8>) -> Result<(Index, MemStore), Memory>
    requires { HasFile image }

    ensures bytes { IfOk result (λ p. p.1.bytes ≡ file image) }
    ensures stands { IfOk result (λ p. StandsFor (file image) p.0) }
    ensures fits { IfOk result (λ p. HasAllBlocks (Some (file image)) p.0) }
{
    let bytes = file_of(alloc, &image, memory)?;
    are_bytes(&bytes);
    let index = index_of(alloc, image)?;
    Ok((index, MemStore::new(bytes)))
}

// What a file is made of is below 256.
fn are_bytes(bytes: &[u8])
    ensures { All (λ x. x < 2 ^ 8) bytes.now }
{}

// The bytes of the index file of an image, in the memory of others where they have room, else in so much as they need.
fn file_of(alloc: Global, image: &Image, mut memory: Vec<u8>) -> Result<Vec<u8>, Memory>
    requires { HasFile image.now }

    ensures { IfOk result (λ b. b.items ≡ file image.now) }
{
    memory.clear();
    memory.reserve_exact(file_size(image) as usize)?;
    let mut sink = MemSink::over(memory);
    match write_index(alloc, image, &mut sink) {
        Ok(()) => Ok(sink.into_bytes()),
        Err(WriteFault::Sink | WriteFault::Memory) => Err(Memory),
    }
}
