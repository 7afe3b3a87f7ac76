//! What answers lines: an engine, over an index file in memory or one that the files hold.
ghost use Rattle.std.specs.Prelude.{◌≡◌, true, false, Some, None, [], is_some};
ghost use Rattle.cs_file.specs.Indexes.{CausedReads};
ghost use Rattle.cs_hub.specs.Outcomes.{IsOutcome, IsRightOutcome, TellsChange, fails_read};
ghost use Rattle.cs_model.specs.Corpus.{Corpus};
ghost use Rattle.cs_top.specs.Answering.{AnswersOver, IsThere, bytes_there};

use cs_base::{FileStore, Files, MemStore};
use cs_engine::Engine;
use cs_hub::{RequestOutcome, outcome_over};
use cs_indexing::HeldFile;
use std::alloc::Global;
use std::marker::Model;

/// An index file, in memory or among the files.
#[derive(Drop)]
pub(crate) struct IndexFile<'a> {
    home: Home<'a>,
}

// Where it lies.
#[derive(Drop)]
enum Home<'a> {
    // In memory.
    Memory(MemStore),
    // Among the files.
    Files(HeldFile<'a>),
}

impl<'a> Model for IndexFile<'a> {
    ghost use Rattle.cs_top.specs.Answering.{FileView, home_seen};

    ghost Value = { FileView };

    ghost view = { λ f. home_seen f.home };
}

impl<'a> IndexFile<'a> {
    /// The file whose bytes a store in memory holds.
    pub(crate) fn made(store: MemStore) -> IndexFile<'a>
        ensures { result ≡ record { made = Some store.bytes; name = []; size = 0 } }
    {
        IndexFile {
            home: Home::Memory(store),
        }
    }

    /// The file that the files hold.
    pub(crate) fn held(file: HeldFile<'a>) -> IndexFile<'a>
        ensures { result ≡ record { made = None; name = file.entry.name.now; size = file.entry.size } }
    {
        IndexFile {
            home: Home::Files(file),
        }
    }
}

/// Asks what a line asks, over an index file that is there, and tells what came of it.
pub(crate) fn outcome_over_file<F: Files>(
    alloc: Global,
    engine: &mut Engine,
    file: &mut IndexFile<'_>,
    files: &mut F,
    line: &[u8],
) -> RequestOutcome
    requires there { IsThere engine.old.index file.old (F.held files.old) }

    ensures outcome { IsOutcome line.now result }
    ensures right { (k : Corpus) → AnswersOver engine.old file.old (F.held files.old) k → IsRightOutcome k line.now result }
    ensures changed { TellsChange engine.old.index (bytes_there file.old (F.held files.old)) result }
    ensures stays { (k : Corpus) → AnswersOver engine.old file.old (F.held files.old) k → AnswersOver engine.new file.new (F.held files.new) k }
    ensures unread { is_some file.old.made ≡ true → fails_read result ≡ false }
    ensures engine { engine.new.index ≡ engine.old.index }
    ensures file { file.new ≡ file.old }
    ensures files { F.held files.new ≡ F.held files.old }
    ensures caused { CausedReads (fails_read result) (F.faults files.old) (F.faults files.new) }
{
    match &mut file.home {
        Home::Memory(store) => outcome_over(alloc, engine, store, line),
        Home::Files(held) => {
            let mut store = FileStore::new(files, held.name, held.size);
            outcome_over(alloc, engine, &mut store, line)
        }
    }
}
