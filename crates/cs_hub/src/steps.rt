//! One event.
ghost use Rattle.std.specs.Prelude.{◌≡◌, ◌<◌, ℕ, not, None, true, length, is_some, slice_set};
ghost use Rattle.std.specs.FinSet as set;
ghost use Rattle.std.specs.Option.{ForSome};
ghost use Rattle.cs_base.specs.outside.Hub.{IsLive, IsOrderly};
ghost use Rattle.cs_engine.specs.Keeping.{AreGood};
ghost use Rattle.cs_file.specs.Indexes.{HasAllBlocks, StandsFor};
ghost use Rattle.cs_model.specs.Corpus.{Corpus};
ghost use Rattle.cs_model_index.specs.Sections.{file_corpus};
ghost use Rattle.cs_hub.specs.{Asked.{AsksAsSent, LeavesIndex, StaysAnswering}, Rounds.{ActsOn, Greets, Heeds, Lightens, OnlyCloses, TakesStep, closed_unless}};
ghost use Rattle.cs_hub.specs.{HubFollowing.{HasLive, HasLiveBut, IsWhole, StaysRight, left_at}, Speaking.{BreaksBy, Starved}};
ghost use Rattle.cs_hub.specs.DueReads.{AnswersWithin, SentAt, SentBefore, bytes_behind, bytes_to_answer, goes_on, requests_on};

use crate::answering::Answerer;
use crate::asking::Asking;
use crate::line::Line;
use crate::saying::starve;
use crate::slots::Core;
use cs_base::{Event, Hub, Store};
use cs_engine::Engine;
use std::alloc::Global;

impl Core {
    /// One event. A connection for which no memory is found is sent the memory response and closed.
    pub fn step<S: Store, H: Hub>(
        &mut self,
        alloc: Global,
        engine: &mut Engine,
        store: &mut S,
        hub: &mut H,
        event: Event,
        piece: &[u8],
    )
        requires fits { HasAllBlocks (S.bytes store.old) engine.old.index }
        requires live { HasLiveBut self.old (H.state hub.old) event }
        requires whole { IsWhole event piece.now }

        // Over bytes that stand for the index, where what is kept is good: where the core followed the hub before the event, it follows
        // it after the step, and what is kept stays good.
        ensures follows { ForSome (S.bytes store.old) (λ b. StandsFor b engine.old.index → AreGood b engine.old
            → StaysRight (file_corpus b) self.old self.new event piece.now (H.state hub.old) (H.state hub.new) (H.talk hub.old) (H.talk hub.new)
            (S.faults store.old) (S.faults store.new)) }
        ensures good { ForSome (S.bytes store.old) (λ b. StandsFor b engine.old.index → AreGood b engine.old → AreGood b engine.new) }
        ensures steps { TakesStep H.state H.talk H.faults H.send_faults event self.old self.new hub.old hub.new }
        // At Over nothing is sent, and the memory response to a connection that opens only where it isn't kept.
        ensures acts { ActsOn event self.old self.new piece.now (H.state hub.old) (H.state hub.new) (H.talk hub.old) (H.talk hub.new) }

        // How much is read for the requests that are answered, over every store and hub.
        ensures reads { AnswersWithin (S.bytes store.old) (goes_on self.new event) (requests_on (bytes_to_answer self.old event piece.now)) engine.old
            engine.new (S.reads store.old) (S.reads store.new) (S.faults store.old) (S.faults store.new)
            (SentAt event (goes_on self.new event) (bytes_to_answer self.old event piece.now) (H.talk hub.old) (H.talk hub.new)) }

        ensures leaves { LeavesIndex S.bytes S.lent S.faults engine.old engine.new store.old store.new }
    {
        let mut asking = Asking::new(engine, store);
        self.step_with(alloc, &mut asking, hub, event, piece);
    }

    /// One event, over anything that answers requests.
    pub(crate) fn step_with<A: Answerer, H: Hub>(
        &mut self,
        alloc: Global,
        answerer: &mut A,
        hub: &mut H,
        event: Event,
        piece: &[u8],
    )
        requires live { HasLiveBut self.old (H.state hub.old) event }
        requires whole { IsWhole event piece.now }

        ensures follows { (k : Corpus) → A.answers answerer.old k
            → StaysRight k self.old self.new event piece.now (H.state hub.old) (H.state hub.new) (H.talk hub.old) (H.talk hub.new) (A.faults answerer.old)
            (A.faults answerer.new) }
        ensures steps { TakesStep H.state H.talk H.faults H.send_faults event self.old self.new hub.old hub.new }
        ensures acts { ActsOn event self.old self.new piece.now (H.state hub.old) (H.state hub.new) (H.talk hub.old) (H.talk hub.new) }
        ensures asked { AsksAsSent A.leaves (goes_on self.new event) (requests_on (bytes_to_answer self.old event piece.now)) (A.kept answerer.old)
            (A.kept answerer.new) (SentAt event (goes_on self.new event) (bytes_to_answer self.old event piece.now) (H.talk hub.old) (H.talk hub.new)) }
        ensures stays { StaysAnswering A.answers A.lent A.faults answerer.old answerer.new }
    {
        match event {
            Event::Opened(conn) => self.open(alloc, hub, conn),
            Event::Piece(conn, _) => self.hear(alloc, answerer, hub, conn, piece),
            Event::Ended(conn) => self.remove(conn),
            Event::Over => self.close_all(hub),
        }
    }

    // A connection opens. Where there is no memory for it, it is sent the memory response and closed.
    fn open<H: Hub>(&mut self, alloc: Global, hub: &mut H, conn: u32)
        requires live { IsLive (H.state hub.old) conn }
        requires empty { left_at self.old conn ≡ None }

        ensures greets { Greets self.old self.new conn (H.state hub.old) (H.state hub.new) (H.talk hub.old) (H.talk hub.new) }
        ensures faults { H.faults hub.new ≡ H.faults hub.old }
        ensures breaks { BreaksBy (H.send_faults hub.old) (H.send_faults hub.new) (H.talk hub.old) (H.talk hub.new) }
        ensures orderly { IsOrderly (H.state hub.old) (H.talk hub.old) → IsOrderly (H.state hub.new) (H.talk hub.new) }
        ensures lighter { Lightens (Event.Opened conn) self.old self.new }
    {
        if self.add(conn, Line::new(alloc)) {
            return;
        }
        refuse(hub, conn);
    }

    // A piece comes.
    fn hear<A: Answerer, H: Hub>(
        &mut self,
        alloc: Global,
        answerer: &mut A,
        hub: &mut H,
        conn: u32,
        piece: &[u8],
    )
        requires live { IsLive (H.state hub.old) conn }
        requires held { is_some (left_at self.old conn) ≡ true }
        requires some { 0 < length piece.now }

        ensures heeds { Heeds (A.answers answerer.old) self.old self.new conn piece.now (H.state hub.old) (H.state hub.new) (A.faults answerer.old)
            (A.faults answerer.new) (H.talk hub.old) (H.talk hub.new) }
        ensures faults { H.faults hub.new ≡ H.faults hub.old }
        ensures breaks { BreaksBy (H.send_faults hub.old) (H.send_faults hub.new) (H.talk hub.old) (H.talk hub.new) }
        ensures orderly { IsOrderly (H.state hub.old) (H.talk hub.old) → IsOrderly (H.state hub.new) (H.talk hub.new) }
        ensures lighter { Lightens (Event.Piece conn (length piece.now)) self.old self.new }
        ensures asked { AsksAsSent A.leaves (is_some (left_at self.new conn)) (requests_on (bytes_behind (left_at self.old conn) piece.now))
            (A.kept answerer.old) (A.kept answerer.new)
            (SentBefore conn (is_some (left_at self.new conn)) (bytes_behind (left_at self.old conn) piece.now) (H.talk hub.old) (H.talk hub.new)) }
        ensures stays { StaysAnswering A.answers A.lent A.faults answerer.old answerer.new }
    {
        let line = self.replace(conn, Line::new(alloc));
        let kept = line.receive(alloc, answerer, hub, conn, piece);
        self.settle(hub, conn, kept);
    }

    // Keeps this of a connection, or closes it. It takes no memory.
    fn settle<H: Hub>(&mut self, hub: &mut H, conn: u32, kept: Option<Line>)
        requires held { is_some (left_at self.old conn) ≡ true }

        ensures core { self.new ≡ slice_set self.old conn kept }
        ensures state { H.state hub.new ≡ closed_unless (is_some kept) conn (H.state hub.old) }
        ensures closes { OnlyCloses H.state H.talk H.faults H.send_faults hub.old hub.new }
    {
        match kept {
            Some(line) => {
                let _ = self.replace(conn, line);
            }
            None => {
                self.remove(conn);
                hub.close(conn);
            }
        }
    }

    // Closes every live connection.
    fn close_all<H: Hub>(&mut self, hub: &mut H)
        requires live { HasLive self.old (H.state hub.old) }

        ensures live { HasLive self.new (H.state hub.new) }
        ensures none { (c : ℕ) → left_at self.new c ≡ None }
        ensures same { H.state hub.new ≡ record (H.state hub.old) { live = (H.state hub.new).live } }
        ensures closes { OnlyCloses H.state H.talk H.faults H.send_faults hub.old hub.new }
    {
        while let Some(conn) = self.pop() {
            hub.close(conn);
        }
    }
}

// Sends the memory response and closes the connection.
fn refuse<H: Hub>(hub: &mut H, conn: u32)
    requires live { IsLive (H.state hub.old) conn }

    ensures starved { Starved conn (H.talk hub.old) (H.talk hub.new) }
    ensures state { H.state hub.new ≡ record (H.state hub.old) { live = set.remove (H.state hub.old).live conn } }
    ensures faults { H.faults hub.new ≡ H.faults hub.old }
    ensures breaks { BreaksBy (H.send_faults hub.old) (H.send_faults hub.new) (H.talk hub.old) (H.talk hub.new) }
    ensures orderly { IsOrderly (H.state hub.old) (H.talk hub.old) → IsOrderly (H.state hub.new) (H.talk hub.new) }
{
    starve(hub, conn);
    hub.close(conn);
}
