//! What is waited for on a connection, and how long.
ghost use Rattle.std.specs.Prelude.{◌≡◌, ◌≢◌, ◌↔◌, ◌≤◌, ◌-◌, ◌*◌, true, false};
ghost use Rattle.std.specs.Time.{instant_nanos};
ghost use Rattle.cs_system.specs.Phases.{wait_of, rest_of};

use crate::bounds::{
    FIRST_WAIT, HEAD_WAIT, IDLE_WAIT, KEEP_LEAST, LINGER, LINGER_LEAST, SEND_WAIT,
};
use std::time::{Duration, Instant};

/// What is waited for.
#[derive(Clone, Copy, Debug, PartialEq, Eq)]
pub enum Phase {
    /// The first byte.
    First,
    /// The rest of a head.
    Head,
    /// The next request.
    Next,
    /// That the peer takes what it was sent, before the own side is ended.
    Leaving,
    /// The peer's end.
    Over,
}

impl Phase {
    /// What is waited for behind a response. Where a part of the next head came already, it isn't a request that is waited for.
    pub fn behind_response(has_begun: bool) -> Phase
        ensures half { has_begun ≡ true → result ≡ Phase.Head }
        ensures whole { has_begun ≡ false → result ≡ Phase.Next }
    {
        if has_begun { Phase::Head } else { Phase::Next }
    }

    /// How long it may take, in milliseconds, or how long its peer may take nothing of what is pending for it.
    pub fn wait(self, is_pending: bool) -> u64
        ensures { result ≡ wait_of self is_pending }
    {
        if is_pending {
            return SEND_WAIT;
        }
        match self {
            Phase::First => FIRST_WAIT,
            Phase::Head => HEAD_WAIT,
            Phase::Next => IDLE_WAIT,
            Phase::Leaving => SEND_WAIT,
            Phase::Over => LINGER,
        }
    }

    /// After how many milliseconds it may make way for another connection. One that is in use never does.
    pub fn rest(self) -> Option<u64>
        ensures { result ≡ rest_of self }
    {
        match self {
            Phase::First | Phase::Next => Some(KEEP_LEAST),
            Phase::Over => Some(LINGER_LEAST),
            Phase::Head | Phase::Leaving => None,
        }
    }
}

/// Whether so many milliseconds have passed since then.
pub fn has_passed(since: Instant, now: Instant, millis: u64) -> bool
    ensures { result ≡ true ↔ (millis * 1_000_000 ≤ instant_nanos now - instant_nanos since) }
{
    Duration::from_millis(millis) <= now.duration_since(since)
}
