//! Sending on one connection.
ghost use Rattle.std.specs.Prelude.{◌≡◌, IfOk};
ghost use Rattle.cs_base.specs.outside.Hub.{IsLive};
ghost use Rattle.cs_model_serving.specs.Responses.{response_bytes};
ghost use Rattle.cs_hub.specs.Responding.{response};
ghost use Rattle.cs_hub.specs.Speaking.{SaidOn, Starved, Calm};
ghost use Rattle.cs_hub.specs.Turns.{IsSent};

use crate::answer::{Answer, Body};
use cs_base::{Hub, Memory};
use cs_http::{memory_response, wrap};
use cs_json::fault_bytes;
use std::alloc::Global;

/// Sends a text; true where it was sent whole.
pub(crate) fn say<H: Hub>(hub: &mut H, conn: u32, text: &[u8]) -> bool
    requires live { IsLive (H.state hub.old) conn }

    ensures said { SaidOn conn text.now result (H.talk hub.old) (H.talk hub.new) }
    ensures calm { Calm H.state H.talk H.faults H.send_faults hub.old hub.new }
{
    match hub.send(conn, text) {
        Ok(()) => true,
        Err(_) => false,
    }
}

/// Sends the memory response, which takes no memory.
pub(crate) fn starve<H: Hub>(hub: &mut H, conn: u32)
    requires live { IsLive (H.state hub.old) conn }

    ensures starved { Starved conn (H.talk hub.old) (H.talk hub.new) }
    ensures calm { Calm H.state H.talk H.faults H.send_faults hub.old hub.new }
{
    let _ = say(hub, conn, memory_response());
}

/// Sends a response, or the memory response where there is none or no memory for its bytes; true where the connection goes on.
pub(crate) fn deliver<H: Hub>(
    alloc: Global,
    hub: &mut H,
    conn: u32,
    answer: Result<Answer, Memory>,
) -> bool
    requires live { IsLive (H.state hub.old) conn }

    ensures sent { IsSent conn answer result (H.talk hub.old) (H.talk hub.new) }
    ensures calm { Calm H.state H.talk H.faults H.send_faults hub.old hub.new }
{
    let Ok(answer) = answer else {
        starve(hub, conn);
        return false;
    };
    match bytes_of(alloc, &answer) {
        Ok(text) => say(hub, conn, text.as_slice()) && !answer.close,
        Err(_) => {
            starve(hub, conn);
            false
        }
    }
}

// The bytes of a response.
fn bytes_of(alloc: Global, answer: &Answer) -> Result<Vec<u8>, Memory>
    ensures { IfOk result (λ v. v.items ≡ response_bytes (response answer.now)) }
{
    match &answer.body {
        Body::Reply(text) => wrap(alloc, answer.status, answer.close, text.as_slice()),
        Body::Fault(fault) => {
            let text = fault_bytes(alloc, fault)?;
            wrap(alloc, answer.status, answer.close, text.as_slice())
        }
    }
}
