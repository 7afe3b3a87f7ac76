//! What a request head asks, or why it is refused.
ghost use Rattle.std.specs.Prelude.{◌≡◌, ◌==◌, ◌||◌, All, length, IfSome, IfNone, IfOk, IfErr};
ghost use Rattle.std.specs.List.{list_any};
ghost use Rattle.httparse.specs.Grammar.{RequestHead};
ghost use Rattle.httparse.specs.Spans.{IsRequestWithin, IsRequestAt, IsHeaderWithin, header_bytes};
ghost use Rattle.cs_base.specs.declared.content.limits.TheConstants.{MAX_HEAD_FIELDS as MOST};
ghost use Rattle.cs_model_serving.specs.HeadReader.{IsHead, IsNoHead};
ghost use Rattle.cs_model_serving.specs.Heads.{judge, asks, is_closing, path_of, params_of};
ghost use Rattle.cs_http.specs.Judging.{IsHeadCause};

use crate::fields::{announces_body, fields_say_close};
use cs_base::{MAX_HEAD_FIELDS, Seq};
use httparse::Status;
use httparse::spans::{EMPTY_HEADER_SPAN, HeaderSpan, RequestSpans, parse_request};
use std::alloc::{AllocError, Global};

/// What a head asks: a search.
#[derive(Debug, Drop)]
pub struct Asked {
    /// The parameters of the target.
    pub params: Seq<u8>,
    /// Whether the connection is closed after the response.
    pub close: bool,
}

/// Why bytes that should be a head aren't answered with a reply.
#[derive(Clone, Copy, Debug, PartialEq, Eq, Drop)]
pub enum HeadFault {
    /// They are no request head.
    NotHead,
    /// The head announces a body.
    Body,
    /// The target's path isn't the search.
    Path {
        /// Whether the connection is closed after the response.
        close: bool,
    },
    /// The method isn't GET.
    Method {
        /// Whether the connection is closed after the response.
        close: bool,
    },
    /// Memory ran out.
    Memory,
}

impl From<AllocError> for HeadFault {
    ghost use Rattle.std.specs.Prelude.{◌≡◌};
    ghost use Rattle.cs_http.specs.declared.heads.HeadFault.TheVariants.{Memory};

    ghost from_gives = { λ _ e. e ≡ Memory };

    fn from(_: AllocError) -> Self {
        HeadFault::Memory
    }
}

/// What the head asks that the bytes are as a whole, as in `GET /search?q=typ HTTP/1.1`.
///
/// Heads are those of RFC 9112, of at most `MAX_HEAD_FIELDS` fields. A head is judged in the order of `HeadFault`.
pub fn head(alloc: Global, bytes: &[u8]) -> Result<Asked, HeadFault>
    ensures ok { IfOk result (λ a. judge bytes.now ≡ asks a.params a.close) }

    // Each fault but want of memory is the judgement; memory is asked for parameters alone, so a refused head never lacks it.
    ensures err { IfErr result (λ e. IsHeadCause (judge bytes.now) e) }
{
    let mut spans = [EMPTY_HEADER_SPAN; MAX_HEAD_FIELDS];
    let Some(head) = whole_head(bytes, &mut spans) else {
        return Err(HeadFault::NotHead);
    };
    let fields = &spans[..head.headers];
    if announces_body(bytes, fields) {
        return Err(HeadFault::Body);
    }
    let close = closes(head.version, bytes, fields);
    let (path, params) = split_target(head.path.of(bytes));
    if path != b"/search".as_slice() {
        return Err(HeadFault::Path { close });
    }
    if head.method.of(bytes) != b"GET".as_slice() {
        return Err(HeadFault::Method { close });
    }
    let params = Vec::from_slice(alloc, params)?;
    Ok(Asked {
        params: Seq::from_vec(params),
        close,
    })
}

// The places of the parts of the head that the bytes are as a whole.
fn whole_head(bytes: &[u8], spans: &mut [HeaderSpan]) -> Option<RequestSpans>
    requires { length spans.old ≡ MOST }

    ensures within { IfSome result (IsRequestWithin bytes.now spans.new) }
    ensures some { IfSome result (λ r. (h : RequestHead) × IsHead bytes.now h × IsRequestAt bytes.now spans.new r h) }
    ensures none { IfNone result (IsNoHead bytes.now) }
{
    match parse_request(bytes, spans) {
        Ok(Status::Complete(head)) => {
            if head.len == bytes.len() {
                Some(head)
            } else {
                None
            }
        }
        _ => None,
    }
}

// Whether the connection is closed after the response to a head of this minor version.
fn closes(version: u8, bytes: &[u8], fields: &[HeaderSpan]) -> bool
    requires within { All (IsHeaderWithin (length bytes.now)) fields.now }

    ensures { result ≡ (version == 0 || list_any (λ f. is_closing (header_bytes bytes.now f)) fields.now) }
{
    version == 0 || fields_say_close(bytes, fields)
}

// The target before its first `?`, and what stands behind it.
fn split_target(target: &[u8]) -> (&[u8], &[u8])
    ensures path { result.0.now ≡ path_of target.now }
    ensures params { result.1.now ≡ params_of target.now }
{
    match target.iter().position(|&b| b == b'?') {
        Some(i) => (&target[..i], &target[i + 1..]),
        None => (target, &[]),
    }
}
