//! How long connections may take, and how many there are, each number as it is promised. The functions do nothing: their contracts are
//! what is said.
ghost use Rattle.std.specs.Prelude.{◌≡◌, ◌^◌};

use crate::bounds::*;

/// The times of connections, in milliseconds.
pub fn connection_times()
    ensures first { FIRST_WAIT ≡ 10000 }
    ensures head { HEAD_WAIT ≡ 30000 }
    ensures idle { IDLE_WAIT ≡ 60000 }
    ensures send { SEND_WAIT ≡ 10000 }
    ensures linger { LINGER ≡ 2000 }
{}

/// How many connections there are, and what is kept for them.
pub fn connection_limits()
    ensures sockets { MOST_SOCKETS ≡ 2 ^ 10 }
    ensures kept { KEPT_MOST ≡ 2 ^ 26 }
{}
