//! What answers requests, as the serving core and scripts meet it.
ghost use Rattle.std.specs.Prelude.{◌≡◌, ℕ, false, Result, IfOk};
ghost use Rattle.cs_file.specs.CallAnswers.{is_changed, is_read};
ghost use Rattle.cs_file.specs.declared.fault.FetchFault.{FetchFault as Fault};
ghost use Rattle.cs_file.specs.Indexes.{CausedReads};
ghost use Rattle.cs_model.specs.Corpus.{Corpus};
ghost use Rattle.cs_model.specs.Parameters.{HoldsLimits};
ghost use Rattle.cs_model.specs.Replies.{Reply as Answer};
ghost use Rattle.cs_model.specs.Requests.{Request as Wanted, reply_of};
ghost use Rattle.cs_query.specs.RequestView.{asked};

use cs_engine::AskFault;
use cs_query::{Reply, Request};
use std::alloc::Global;

/// What answers requests.
pub trait Answerer {
    /// It answers over this corpus.
    ghost answers: { Self → Corpus → Type 0 };

    /// A count of failed reads, which never falls.
    ghost faults: { Self → ℕ };

    /// What no call changes, as what is lent to it.
    ghost Lent: { Type 0 };

    /// That of this one.
    ghost lent: { Self → Lent };

    /// What it keeps from one request to the next, and how often it read.
    ghost Kept: { Type 0 };

    /// That of this one.
    ghost kept: { Self → Kept };

    /// What a request with this answer may leave of it.
    ghost leaves: { Kept → Wanted → Result Answer Fault → Kept → Type 0 };

    /// The reply to a request.
    fn reply(&mut self, alloc: Global, request: &Request) -> Result<Reply, AskFault>
        requires limits { HoldsLimits (asked request.now) }

        ensures ok { (k : Corpus) → answers self.old k → IfOk result (λ r. r ≡ reply_of k (asked request.now)) }
        ensures unchanged { (k : Corpus) → answers self.old k → is_changed result ≡ false }
        ensures still { (k : Corpus) → answers self.old k → answers self.new k }
        ensures lent { lent self.new ≡ lent self.old }
        ensures asked { leaves (kept self.old) (asked request.now) result (kept self.new) }
        ensures caused { CausedReads (is_read result) (faults self.old) (faults self.new) };
}
