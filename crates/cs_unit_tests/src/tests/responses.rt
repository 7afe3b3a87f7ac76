//! What no clause says: that heads and responses are given where there is memory.
use crate::tests::rows::{are_told, same};
use cs_base::{Memory, Text};
use cs_http::{Framed, HeadFault, Look, Seen, frame, head, memory_response, wrap};
use cs_worked::{ANNOUNCED_BODY, OTHER_METHOD, OTHER_PATH, TYPED_HEAD};
use std::alloc::Global;
use std::test::Fail;

// A head, and what is answered.
const HEADS: &[(&str, &str)] = &[
    (TYPED_HEAD, "asks q=typ, stays"),
    ("\nGET /search HTTP/1.0\n\n", "asks , closes"),
    (
        "GET /search?q=a HTTP/1.1\r\nContent-Length: 00\r\nConnection: keep-alive, close\r\n\r\n",
        "asks q=a, closes",
    ),
    (OTHER_PATH, "path, stays"),
    (OTHER_METHOD, "method, stays"),
    ("POST /x HTTP/1.0\r\n\r\n", "path, closes"),
    (ANNOUNCED_BODY, "body"),
    ("POST /x HTTP/1.1\r\nContent-Length: 1\r\n\r\n", "body"),
    ("GET /search HTTP/1.1\r\n\r\nx", "no head"),
];

#[test]
fn heads_are_judged_in_order(rt: HostRuntime) -> Result<(), Fail> {
    are_told(&rt, rt.alloc(), HEADS, told_text)
}

fn told_text(alloc: Global, text: &str) -> Result<Text, Memory> {
    told(alloc, text.as_bytes())
}

#[test]
fn a_head_is_found_in_two_pieces(rt: HostRuntime) {
    let bytes = b"\r\nGET / HTTP/1.1\r\n\r\nGET";
    same(
        &rt,
        &frame(bytes),
        &Framed::Head { skip: 2, end: 20 },
        "whole",
    );
    let Look::More(seen) = Seen::nothing().look(b"\r\nGET / HTTP/1.1\r\n\r") else {
        panic!(&rt; "more bytes were to come");
    };
    same(
        &rt,
        &seen.look(b"\nGET"),
        &Look::Head { skip: 2, end: 20 },
        "pieces",
    );
}

const METHOD: &str =
    "HTTP/1.1 405 Method Not Allowed\r\nAllow: GET\r\nContent-Type: application/json\r\nContent-Length: 18\r\nConnection: close\r\n\r\n{\"error\":\"method\"}";

#[test]
fn responses_have_their_lines_and_their_body(rt: HostRuntime) -> Result<(), Fail> {
    let method = wrap(rt.alloc(), 405, true, b"{\"error\":\"method\"}")?;
    same(&rt, &method.as_slice(), &METHOD.as_bytes(), "method");
    let memory = wrap(rt.alloc(), 503, true, b"{\"error\":\"memory\"}")?;
    same(&rt, &memory.as_slice(), &memory_response(), "memory");
    Ok(())
}

// What a head asks, or why it is refused, and whether the connection is closed.
pub(crate) fn told(alloc: Global, bytes: &[u8]) -> Result<Text, Memory> {
    let told = match head(alloc, bytes) {
        Ok(asked) => {
            let params = String::from_utf8_lossy(alloc, asked.params.as_slice())?;
            format!(in alloc; "asks {}, {}", params, closing(asked.close))?
        }
        Err(HeadFault::NotHead) => format!(in alloc; "no head")?,
        Err(HeadFault::Body) => format!(in alloc; "body")?,
        Err(HeadFault::Path { close }) => format!(in alloc; "path, {}", closing(close))?,
        Err(HeadFault::Method { close }) => format!(in alloc; "method, {}", closing(close))?,
        Err(HeadFault::Memory) => format!(in alloc; "no memory")?,
    };
    Ok(Text::from_string(told))
}

fn closing(close: bool) -> &'static str {
    if close { "closes" } else { "stays" }
}
