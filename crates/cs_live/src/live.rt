//! An index under changes, which answers requests.
ghost use Rattle.std.specs.Prelude.{◌≡◌, ◌↔◌, ℕ, ◌+◌, ◌≤◌, ◌++◌, ◌∷◌, [], Err, None, List, length, false, true, IfErr, IfOk, OnErr, OnOk};
ghost use Rattle.std.specs.Option.{ForSome};
ghost use Rattle.cs_base.specs.outside.Causes.{ReadsWithin};
ghost use Rattle.cs_cache.specs.AnswerList.{answer_list};
ghost use Rattle.cs_rows.specs.IndexReading.{IsChangeIn, division};
ghost use Rattle.cs_engine.specs.Asking.{filed_titles};
ghost use Rattle.cs_engine.specs.HeldRanges.{range_bytes};
ghost use Rattle.cs_engine.specs.Keeping.{KeepsAnswers, note_plan};
ghost use Rattle.cs_rows.specs.Skipping.{hit_reads};
ghost use Rattle.cs_rows.specs.Sources.{seen};
ghost use Rattle.cs_file.specs.CallAnswers.{is_changed, is_read};
ghost use Rattle.cs_file.specs.Indexes.{HasAllBlocks, StandsFor, CausedReads};
ghost use Rattle.cs_file.specs.declared.fault.FetchFault.TheVariants as fetches;
ghost use Rattle.cs_model.specs.{Parameters.{HoldsLimits}, Requests.{reply_of}, Weights.{AreWeights}};
ghost use Rattle.cs_model_changes.specs.Changes.{Change, added, deleted, now};
ghost use Rattle.cs_model_index.specs.Sections.{file_corpus};
ghost use Rattle.cs_model_kept.specs.{Due.{due}, declared.limits.TheConstants.{MAX_ENTRIES}};
ghost use Rattle.cs_model_live.specs.{Courses.{IsChanged}, LiveStates.{LiveState}};
ghost use Rattle.cs_query.specs.RequestView.{asked};
ghost use Rattle.cs_live.specs.Lives.{AreGoodNow, IsOnlyDoc, HasAdded, IsAfterNow, IsBehind, IsRemoved, IsStateOf, NamesFull, changes_in};
ghost use Rattle.cs_live.specs.{Lives.{full_now, has_document, most_held, next_number}, States.{source_now}};
ghost use Rattle.cs_live.specs.declared.fault.RemoveFault.TheVariants as removals;

use crate::adding::{Addition, addition_of, put_document};
use crate::asking::ask_state;
use crate::facts::{has_room, index_weights, is_present, numbers_given};
use crate::fault::{AddFault, RemoveFault};
use crate::settling::{bring_in, bring_many_in, bring_own_in};
use crate::state::{State, rows_of_index};
use cs_base::{Doc, MAX_DOCS, MAX_ROWS, Memory, Row, Store, Weights};
use cs_cache::Answers;
use cs_engine::{Holder, Note, Reply, Request};
use cs_file::{FetchFault, Index};
use std::alloc::Global;
use std::marker::Model;

/// An index to which documents are added and from which documents are deleted in memory, with what is kept of answers.
///
/// What is kept and held is of the corpus as it is now: a change lets all of it go. Rows of added documents wait until the next request, or
/// until many wait, when their words and those of the index are brought into one order.
#[derive(Drop)]
pub struct Live {
    state: State,
    // The rows of added documents that the state hasn't yet.
    rows: Vec<Row>,
    // How many rows the index and all documents that were added have.
    met: u32,
    // How many documents were added and deleted.
    changes: u32,
    answers: Answers,
    held: Holder,
}

impl Model for Live {
    ghost use Rattle.cs_live.specs.Lives.{IsLiveKept, LiveView};

    ghost Value = { LiveView };

    ghost view = { λ l. record { state = l.state; rows = l.rows.items; met = l.met; changes = l.changes; answers = l.answers; held = l.held } };

    ghost invariant = { λ l. IsLiveKept (record { state = l.state; rows = l.rows.items; met = l.met; changes = l.changes; answers = l.answers; held = l.held }) };
}

impl Live {
    /// An index before the first change, with nothing kept and held, and room for so many answers.
    pub fn new(alloc: Global, index: Index, capacity: usize) -> Result<Live, Memory>
        requires some { 1 ≤ capacity }
        requires limit { capacity ≤ MAX_ENTRIES }

        ensures index { IfOk result (λ l. l.state.index ≡ index) }
        ensures begins { IfOk result (λ l. (b : List ℕ) → StandsFor b index → IsBehind b [] l) }
        ensures changes { IfOk result (λ l. changes_in l ≡ 0) }
        ensures good { IfOk result (λ l. (b : List ℕ) → AreGoodNow b l) }
        ensures answers { IfOk result (λ l. l.answers ≡ answer_list [] capacity) }
        ensures held { IfOk result (λ l. l.held ≡ []) }
    {
        let answers = Answers::new(alloc, capacity)?;
        let met = rows_of_index(&index);
        let state = State::opened(alloc, index)?;
        Ok(Live {
            state,
            rows: Vec::new(alloc),
            met,
            changes: 0,
            answers,
            held: Holder::new(alloc),
        })
    }

    /// How many changes there were.
    pub fn changes(&self) -> u32
        ensures changes { result ≡ changes_in self.now }

        // After changes of the corpus of bytes that stand for the index, it is the live corpus behind them.
        ensures state { (b : List ℕ) (cs : List Change) (s : LiveState) → StandsFor b self.now.state.index → IsBehind b cs self.now
            → IsChanged self.now.state.index.weights (file_corpus b) cs s → IsStateOf b self.now s }
    {
        self.changes
    }

    /// What the rows count for.
    pub fn weights(&self) -> Weights
        ensures is { result ≡ self.now.state.index.weights }
        ensures scored { AreWeights result }
    {
        index_weights(&self.state)
    }

    /// Adds a document that is read of a collection, and gives its number, which no document has had. What was kept and held goes.
    ///
    /// Documents, rows and words that are gone count as those that are there. Where it is refused, nothing changes.
    pub fn add(&mut self, alloc: Global, doc: Doc) -> Result<u32, AddFault>
        requires accepted { IsOnlyDoc self.old.state.index.weights doc }

        ensures number { IfOk result (λ n. n ≡ next_number self.old) }
        ensures added { OnOk result (HasAdded self.old doc self.new) }
        ensures behind { OnOk result ((b : List ℕ) (cs : List Change) → StandsFor b self.old.state.index → IsBehind b cs self.old
            → IsBehind b (cs ++ added doc ∷ []) self.new) }
        ensures good { OnOk result ((b : List ℕ) → AreGoodNow b self.new) }
        ensures room { OnOk result (full_now self.old doc ≡ None) }
        ensures err { IfErr result (NamesFull self.old doc) }
        ensures kept { OnErr result (self.new ≡ self.old) }
    {
        let number = numbers_given(&self.state);
        if number as usize >= MAX_DOCS {
            return Err(AddFault::FullDocs);
        }
        let weights = index_weights(&self.state);
        let Addition { title, rows } = addition_of(alloc, doc, weights, number)?;
        if rows.len() > MAX_ROWS - self.met as usize {
            return Err(AddFault::FullRows);
        }
        if !has_room(alloc, &self.state, &self.rows, &rows)? {
            return Err(AddFault::FullWords);
        }
        let met = self.met + rows.len() as u32;
        put_document(&mut self.state, &mut self.rows, title, rows)?;
        bring_many_in(alloc, &mut self.state, &mut self.rows);
        self.met = met;
        self.changes += 1;
        forget(alloc, &mut self.answers, &mut self.held);
        Ok(number)
    }

    /// Deletes the document of a number, which comes to no other one. What was kept and held goes.
    ///
    /// Rows that wait are brought in first where its own may be among them, since their words count also where it goes. Where it is refused,
    /// nothing changes.
    pub fn remove(&mut self, alloc: Global, doc: u32) -> Result<(), RemoveFault>
        ensures removed { OnOk result (IsRemoved self.old doc self.new) }
        ensures behind { OnOk result ((b : List ℕ) (cs : List Change) → StandsFor b self.old.state.index → IsBehind b cs self.old
            → IsBehind b (cs ++ deleted doc ∷ []) self.new) }
        ensures good { OnOk result ((b : List ℕ) → AreGoodNow b self.new) }
        ensures absent { (result ≡ Err removals.Absent) ↔ (has_document self.old doc ≡ false) }
        ensures kept { OnErr result (self.new ≡ self.old) }
    {
        if !is_present(&self.state, doc) {
            return Err(RemoveFault::Absent);
        }
        bring_own_in(alloc, &mut self.state, &mut self.rows, doc)?;
        self.state.remove(doc);
        self.changes += 1;
        forget(alloc, &mut self.answers, &mut self.held);
        Ok(())
    }

    /// The reply to a request over the corpus as it is now, over the store from which the index was opened, and how it was answered. It goes
    /// on from what is kept and held of this corpus; blocks are read where that doesn't serve.
    ///
    /// A failed read and a change of the file are told as such, and want of memory too; the same answers are kept then. All that is held of
    /// ranges of words is given back where little memory is left before the request, and where memory is wanted.
    pub fn ask<S: Store>(
        &mut self,
        alloc: Global,
        store: &mut S,
        request: &Request,
    ) -> Result<(Reply, Note), FetchFault>
        requires limits { HoldsLimits (asked request.now) }
        requires fits { HasAllBlocks (S.bytes store.old) self.old.state.index }

        // Over bytes that stand for the index, behind any changes of their corpus, where what is kept is good: the reply is right, and what
        // is kept stays good.
        ensures ok { ForSome (S.bytes store.old) (λ b. StandsFor b self.old.state.index → AreGoodNow b self.old → (cs : List Change) → IsBehind b cs self.old
            → IfOk result (λ r. r.0 ≡ reply_of (now self.old.state.index.weights (file_corpus b) cs) (asked request.now))) }
        ensures good { ForSome (S.bytes store.old) (λ b. StandsFor b self.old.state.index → AreGoodNow b self.old → AreGoodNow b self.new) }
        ensures after { ForSome (S.bytes store.old) (λ b. StandsFor b self.old.state.index → AreGoodNow b self.old → (cs : List Change) → IsBehind b cs self.old
            → IsAfterNow (now self.old.state.index.weights (file_corpus b) cs) request.now.query self.old result self.new) }
        ensures behind { (b : List ℕ) (cs : List Change) → StandsFor b self.old.state.index → IsBehind b cs self.old → IsBehind b cs self.new }

        // And no block of a facet that no hit reaches is read, nor, where a kept answer is extended, one of the last part that no hit of it reaches.
        ensures sharp { ForSome (S.bytes store.old) (λ b. StandsFor b self.old.state.index → AreGoodNow b self.old → (cs : List Change) → IsBehind b cs self.old
            → ReadsWithin (hit_reads (division self.old.state.index) (now self.old.state.index.weights (file_corpus b) cs) (asked request.now)
            (note_plan request.now.query self.old.answers) (filed_titles self.old.state.index.docs (asked request.now) result)) (S.reads store.old) (S.reads store.new)) }
        ensures changes { changes_in self.new ≡ changes_in self.old }
        ensures unchanged { ForSome (S.bytes store.old) (λ b. StandsFor b self.old.state.index → is_changed result ≡ false) }

        // Over each store: how much is shown, what is kept, what is left as it was, how much is read, and why it is refused.
        ensures few { IfOk result (λ r. length r.0.hits ≤ request.now.hits) }
        ensures keeps { KeepsAnswers (seen (source_now self.new.state)) request.now.query self.old.answers result self.new.answers }
        ensures index { self.new.state.index ≡ self.old.state.index }
        ensures bytes { S.bytes store.new ≡ S.bytes store.old }
        ensures lent { S.lent store.new ≡ S.lent store.old }
        ensures reads { ReadsWithin
            (due (division self.old.state.index) (asked request.now) (note_plan request.now.query self.old.answers)
            (filed_titles self.old.state.index.docs (asked request.now) result))
            (S.reads store.old) (S.reads store.new) }
        ensures caused { CausedReads (is_read result) (S.faults store.old) (S.faults store.new) }
        ensures changed { IfErr result (IsChangeIn self.old.state.index (S.bytes store.old)) }
        ensures bounded { range_bytes self.new.held ≤ most_held }
        ensures given { result ≡ Err fetches.Memory → self.new.held ≡ [] }
    {
        bring_in(alloc, &mut self.state, &mut self.rows)?;
        ask_state(
            alloc,
            &self.state,
            store,
            request,
            &mut self.answers,
            &mut self.held,
        )
    }
}

// Lets all go that was kept and held of the corpus before a change.
fn forget(alloc: Global, answers: &mut Answers, held: &mut Holder)
    ensures answers { answers.new ≡ answer_list [] answers.old.capacity }
    ensures held { held.new ≡ [] }
{
    answers.clear();
    *held = Holder::new(alloc);
}
