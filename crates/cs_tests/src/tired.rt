//! What no clause says: of two equal requests the first one's read fails, and the second has its reply.
use crate::engine::engine_over;
use crate::hubs::{Came, hub_of};
use crate::runs::{built, same};
use cs_base::{Hub, Plan, TiredStore};
use cs_engine::AskFault;
use cs_http::request;
use cs_hub::{ServeEnd, serve};
use cs_worked::{FAILED_READ, THREE_DOCUMENTS, TYPED};
use std::alloc::Global;
use std::test::Fail;

/// The index file of a collection, in a store.
pub(crate) fn tired(alloc: Global, collection: &str) -> Result<TiredStore, Fail> {
    let files = built(alloc, collection, b"")?;
    let Some(bytes) = files.bytes("I") else {
        return Err(Fail::new("not built"));
    };
    Ok(TiredStore::new(bytes.to_vec(alloc)?))
}

#[test]
fn a_failed_read_is_that_of_one_request(rt: HostRuntime) -> Result<(), Fail> {
    let alloc = rt.alloc();
    let mut store = tired(alloc, THREE_DOCUMENTS)?;
    let mut engine = engine_over(alloc, &mut store)?;
    let heads = format!(in alloc; "{}{}", TYPED.head, TYPED.head)?;
    let rows = [
        Came::Opened,
        Came::Piece(0, heads.as_bytes()),
        Came::Ended(0),
    ];
    let mut hub = hub_of(alloc, &rows)?;
    hub.listen(8080, 1)?;
    store.fail_at(1);
    assert!(rt; serve(alloc, &mut engine, &mut store, &mut hub, 1) == ServeEnd::Done);
    let sent = format!(in alloc; "{}{}", FAILED_READ, TYPED.response)?;
    same(&rt, &hub.sent(0), &sent.as_bytes(), "sent");
    Ok(())
}

// Nothing is kept of an answer that couldn't be read.
#[test]
fn the_plan_behind_a_failed_read_is_fresh(rt: HostRuntime) -> Result<(), Fail> {
    let alloc = rt.alloc();
    let mut store = tired(alloc, THREE_DOCUMENTS)?;
    let mut engine = engine_over(alloc, &mut store)?;
    store.fail_at(1);
    let Ok(request) = request(alloc, b"q=typ") else {
        return Err(Fail::new("no request"));
    };
    assert!(rt; matches!(engine.ask(alloc, &mut store, &request), Err(AskFault::Read)));
    let Ok((_, note)) = engine.ask(alloc, &mut store, &request) else {
        return Err(Fail::new("no reply"));
    };
    assert!(rt; note.plan == Plan::Fresh);
    Ok(())
}
