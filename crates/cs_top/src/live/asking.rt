//! What comes of parameters over an index under changes.
ghost use Rattle.std.specs.Prelude.{◌≡◌, ℕ, List};
ghost use Rattle.cs_base.specs.outside.Outside.{file_bytes};
ghost use Rattle.cs_file.specs.Indexes.{CausedReads, HasAllBlocks};
ghost use Rattle.cs_hub.specs.Outcomes.{ComesOf, IsRightOutcome, fails_read};
ghost use Rattle.cs_model_live.specs.LiveStates.{LiveState};
ghost use Rattle.cs_indexing.specs.Views.{IsSized};
ghost use Rattle.cs_top.specs.LiveAnswering.{LiveLeaves, LiveOver, StaysIndex, live_standing};

use cs_base::{FileStore, Files};
use cs_engine::AskFault;
use cs_hub::{Answerer, RequestOutcome, outcome_of};
use cs_indexing::HeldFile;
use cs_live::Live;
use cs_query::{Reply, Request};
use std::alloc::Global;

// An index under changes, and the file that it was opened from, which the files hold.
#[derive(Drop)]
struct AskingLive<'a, 'b, F: Files> {
    live: &'a mut Live,
    index: HeldFile<'b>,
    files: &'a mut F,
    /// The file has its size.
    pub ghost sized: { IsSized (F.held files.now) index },
    /// The file fits the index.
    pub ghost fits: { HasAllBlocks (file_bytes (F.held files.now) index.name.now) live.now.state.index },
}

impl<F: Files> Answerer for AskingLive<'_, '_, F> {
    ghost use Rattle.std.specs.Prelude.{Option, List, ℕ};
    ghost use Rattle.std.specs.Borrow.{GName};
    ghost use Rattle.cs_base.specs.outside.Outside.{Held};
    ghost use Rattle.cs_file.specs.Indexes.{IndexView};
    ghost use Rattle.cs_top.specs.LiveAnswering.{AnswersNow, LiveLeaves, LiveStanding, live_standing};

    ghost answers = { λ a k. AnswersNow a.live.now a.index.name.now (F.held a.files.now) k };

    ghost faults = { λ a. F.faults a.files.now };

    ghost Lent = { GName × (GName × (List ℕ × (IndexView × Option Held))) };

    ghost lent = { λ a. (a.live.ghost_name, (a.files.ghost_name, (a.index.name.now, (a.live.now.state.index, F.held a.files.now)))) };

    ghost Kept = { LiveStanding };

    ghost kept = { λ a. live_standing a.live.now a.index.name.now (F.held a.files.now) };

    ghost leaves = { LiveLeaves };

    fn reply(&mut self, alloc: Global, request: &Request) -> Result<Reply, AskFault> {
        let mut store = FileStore::new(self.files, self.index.name, self.index.size);
        let (reply, _) = self.live.ask(alloc, &mut store, request)?;
        Ok(reply)
    }
}

/// What comes of parameters over the corpus as it is now.
pub(super) fn outcome_now<F: Files>(
    alloc: Global,
    live: &mut Live,
    index: HeldFile<'_>,
    files: &mut F,
    params: &[u8],
) -> RequestOutcome
    requires sized { IsSized (F.held files.old) index }
    requires fits { HasAllBlocks (file_bytes (F.held files.old) index.name.now) live.old.state.index }

    ensures comes { ComesOf LiveLeaves params.now (live_standing live.old index.entry.name.now (F.held files.old)) result (live_standing live.new index.entry.name.now (F.held files.new)) }
    ensures right { (b : List ℕ) (s : LiveState) → LiveOver live.old index.entry.name.now (F.held files.old) b s → IsRightOutcome s.corpus params.now result }
    ensures live { (b : List ℕ) (s : LiveState) → LiveOver live.old index.entry.name.now (F.held files.old) b s → LiveOver live.new index.entry.name.now (F.held files.new) b s }
    ensures caused { CausedReads (fails_read result) (F.faults files.old) (F.faults files.new) }
    ensures stays { StaysIndex live.old live.new (F.held files.old) (F.held files.new) }
{
    let mut asking = AskingLive { live, index, files };
    outcome_of(alloc, &mut asking, params)
}
