//! The engine over an opened index.
ghost use Rattle.std.specs.Prelude.{◌≡◌, ◌≤◌, [], Err, false, length, IfErr, IfOk};
ghost use Rattle.std.specs.Option.{ForSome};
ghost use Rattle.cs_base.specs.outside.Causes.{ReadsWithin};
ghost use Rattle.cs_cache.specs.AnswerList.{answer_list};
ghost use Rattle.cs_file.specs.CallAnswers.{is_changed, is_read};
ghost use Rattle.cs_file.specs.Indexes.{HasAllBlocks, StandsFor, CausedReads};
ghost use Rattle.cs_file.specs.declared.fault.FetchFault.TheVariants as fetches;
ghost use Rattle.cs_model.specs.{Parameters.{HoldsLimits}, Requests.{reply_of}};
ghost use Rattle.cs_model_index.specs.Sections.{file_corpus};
ghost use Rattle.cs_model_kept.specs.{Due.{due}, Sharp.{sharp}, declared.limits.TheConstants.{MAX_ENTRIES}};
ghost use Rattle.cs_query.specs.RequestView.{asked};
ghost use Rattle.cs_rows.specs.IndexReading.{IsChangeIn, division};
ghost use Rattle.cs_engine.specs.Asking.{titles_asked};
ghost use Rattle.cs_engine.specs.HeldRanges.{range_bytes};
ghost use Rattle.cs_engine.specs.declared.held.TheConstants.{MAX_HELD_BYTES};
ghost use Rattle.cs_engine.specs.Keeping.{AreGood, IsAfter, KeepsAnswers, note_plan};

use crate::ask::ask_over;
use crate::held::Holder;
use crate::note::Note;
use crate::show::RequestOver;
use cs_base::Store;
use cs_cache::Answers;
use cs_file::{FetchFault, Index};
use cs_query::{Reply, Request};
use cs_rows::index_is_source;
use std::alloc::Global;
use std::marker::Model;

/// What answers requests over the store of an index, and keeps of its answers what serves the next ones.
///
/// Each entry that it keeps, and what it holds of ranges of words, is in the range of the index, whatever store it was read from.
#[derive(Drop)]
pub struct Engine {
    /// The index that was opened.
    pub index: Index,
    /// What is kept of answers.
    pub answers: Answers,
    // Ranges of words that were asked, with what is held of them.
    held: Holder,
}

impl Model for Engine {
    ghost use Rattle.cs_engine.specs.Keeping.{EngineView, FitsIndex, engine_with};

    ghost Value = { EngineView };

    ghost view = { λ e. engine_with e.index e.answers e.held };

    ghost invariant = { λ e. FitsIndex (engine_with e.index e.answers e.held) };
}

impl Engine {
    /// The engine of an index, with nothing kept and held, and room for so many answers.
    pub fn new(alloc: Global, index: Index, capacity: usize) -> Result<Engine, cs_base::Memory>
        requires some { 1 ≤ capacity }
        requires limit { capacity ≤ MAX_ENTRIES }

        ensures ok { IfOk result (λ e. e ≡ record { index = index; answers = answer_list [] capacity; held = [] }) }
        ensures bounded { IfOk result (λ e. range_bytes e.held ≤ MAX_HELD_BYTES) }
    {
        let answers = Answers::new(alloc, capacity)?;
        Ok(Engine {
            index,
            answers,
            held: Holder::new(alloc),
        })
    }

    /// The reply to a request, over the store from which the index was opened, and how it was answered. It goes on from what is kept and
    /// from what is held of ranges of words; blocks are read where that doesn't serve.
    ///
    /// A failed read and a change of the file are told as such, and want of memory too; the same answers are kept then. All that is held of
    /// ranges of words is given back where little memory is left before the request, and where memory is wanted.
    pub fn ask<S: Store>(
        &mut self,
        alloc: Global,
        store: &mut S,
        request: &Request,
    ) -> Result<(Reply, Note), FetchFault>
        requires limits { HoldsLimits (asked request.now) }
        requires fits { HasAllBlocks (S.bytes store.old) self.old.index }

        // Over bytes that stand for the index, where what is kept is good: the reply is right, and what is kept stays good.
        ensures ok { ForSome (S.bytes store.old) (λ b. StandsFor b self.old.index → AreGood b self.old
            → IfOk result (λ r. r.0 ≡ reply_of (file_corpus b) (asked request.now))) }
        ensures good { ForSome (S.bytes store.old) (λ b. StandsFor b self.old.index → AreGood b self.old → AreGood b self.new) }
        ensures after { ForSome (S.bytes store.old) (λ b. StandsFor b self.old.index → AreGood b self.old
            → IsAfter b request.now.query self.old result self.new) }
        ensures unchanged { ForSome (S.bytes store.old) (λ b. StandsFor b self.old.index → is_changed result ≡ false) }

        // And no block of a facet that no hit reaches is read, nor, where a kept answer is extended, one of the last part that no hit of it reaches.
        ensures sharp { ForSome (S.bytes store.old) (λ b. StandsFor b self.old.index → AreGood b self.old
            → ReadsWithin (sharp (division self.old.index) (file_corpus b) (asked request.now) (note_plan request.now.query self.old.answers)
            (titles_asked (asked request.now) result)) (S.reads store.old) (S.reads store.new)) }

        // Over each store: how much is shown, what is kept, what is left as it was, how much is read, and why it is refused. A change
        // that is told is the first rule that the bytes of a block or a title break, with its place.
        ensures few { IfOk result (λ r. length r.0.hits ≤ request.now.hits) }
        ensures keeps { KeepsAnswers self.old.index request.now.query self.old.answers result self.new.answers }
        ensures index { self.new.index ≡ self.old.index }
        ensures bytes { S.bytes store.new ≡ S.bytes store.old }
        ensures lent { S.lent store.new ≡ S.lent store.old }
        ensures reads { ReadsWithin
            (due (division self.old.index) (asked request.now) (note_plan request.now.query self.old.answers) (titles_asked (asked request.now) result))
            (S.reads store.old) (S.reads store.new) }
        ensures caused { CausedReads (is_read result) (S.faults store.old) (S.faults store.new) }
        ensures changed { IfErr result (IsChangeIn self.old.index (S.bytes store.old)) }

        // How much is held, and that it is given back where memory is wanted.
        ensures bounded { range_bytes self.new.held ≤ MAX_HELD_BYTES }
        ensures given { result ≡ Err fetches.Memory → self.new.held ≡ [] }
    {
        index_is_source(&self.index);
        let over = RequestOver {
            alloc,
            index: &self.index,
            request,
        };
        ask_over(over, store, &mut self.answers, &mut self.held)
    }
}
