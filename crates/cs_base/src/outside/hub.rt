//! Connections, as the program meets them: events that come, and bytes that are sent.
ghost use Rattle.std.specs.Prelude.{◌≡◌, ◌<◌, ℕ, List, Option, length, take, IfOk, OnOk, OnErr};
ghost use Rattle.std.specs.Option.{option_map};
ghost use Rattle.std.specs.FinSet as set;
ghost use Rattle.cs_base.specs.outside.Causes.{Counted};
ghost use Rattle.cs_base.specs.outside.Hub.{Listening, Talk, IsLive, IsOrderly, listens, silent, Happens, came_of, hears, sends, breaks};

use crate::outside::Failed;

/// What came.
#[derive(Clone, Copy, Debug, PartialEq, Eq)]
pub enum Event {
    /// The connection of this number was opened. The numbers begin at 0 and rise by one.
    Opened(u32),
    /// So many bytes came on a live connection; they are the first ones of the buffer.
    Piece(u32, usize),
    /// A live connection ended.
    Ended(u32),
    /// Nothing more comes.
    Over,
}

/// A listener with its connections.
pub trait Hub {
    /// What every hub tells.
    ghost state: { Self → Listening };

    /// What came and was sent, where it tells that.
    ghost talk: { Self → Option Talk };

    /// A count of failures of `listen` and `next`, which never falls, up to the last value of u64.
    ghost faults: { Self → ℕ };

    /// A count of failures of `send`, which never falls, up to the last value of u64.
    ghost send_faults: { Self → ℕ };

    /// Begins to listen, with room for `conns` connections over its life.
    fn listen(&mut self, port: u16, conns: u32) -> Result<(), Failed>
        ensures ok { OnOk result ((state self.new ≡ listens port conns) × (talk self.new ≡ option_map (λ _. silent) (talk self.old))) }
        ensures err { OnErr result ((state self.new ≡ state self.old) × (talk self.new ≡ talk self.old)) }
        ensures counted { Counted (faults self.old) (faults self.new) result }
        ensures send_count { send_faults self.new ≡ send_faults self.old }
        ensures orderly { IsOrderly (state self.new) (talk self.new) };

    /// Waits for the next event. The bytes of a piece are put at the front of `into`; of the buffer behind them nothing is said.
    fn next(&mut self, into: &mut [u8]) -> Result<Event, Failed>
        requires some { 0 < length into.old }

        ensures event { IfOk result (λ e. Happens (state self.old) (length into.old) e (state self.new)) }
        ensures came { IfOk result (λ e. talk self.new ≡ option_map (hears (came_of e into.new)) (talk self.old)) }
        ensures err { OnErr result ((state self.new ≡ state self.old) × (talk self.new ≡ talk self.old)) }
        ensures counted { Counted (faults self.old) (faults self.new) result }
        ensures send_count { send_faults self.new ≡ send_faults self.old }
        ensures orderly { IsOrderly (state self.new) (talk self.new) };

    /// Sends bytes on a live connection. Where it fails, some first ones of them, and the connection is broken.
    fn send(&mut self, conn: u32, bytes: &[u8]) -> Result<(), Failed>
        requires live { IsLive (state self.old) conn }

        ensures ok { OnOk result (talk self.new ≡ option_map (sends conn bytes.now) (talk self.old)) }
        ensures err { OnErr result ((k : ℕ) × (talk self.new ≡ option_map (λ t. breaks conn (sends conn (take k bytes.now) t)) (talk self.old))) }
        ensures same { state self.new ≡ state self.old }
        ensures counted { Counted (send_faults self.old) (send_faults self.new) result }
        ensures count { faults self.new ≡ faults self.old }
        ensures orderly { IsOrderly (state self.new) (talk self.new) };

    /// Closes a connection that was opened: no event of it comes any more.
    fn close(&mut self, conn: u32)
        ensures closed { state self.new ≡ record (state self.old) { live = set.remove (state self.old).live conn } }
        ensures same { talk self.new ≡ talk self.old }
        ensures count { faults self.new ≡ faults self.old }
        ensures send_count { send_faults self.new ≡ send_faults self.old }
        ensures orderly { IsOrderly (state self.new) (talk self.new) };
}
