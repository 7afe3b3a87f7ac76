//! The bytes of responses.
ghost use Rattle.std.specs.Prelude.{◌≡◌, ◌==◌, true, if◌then◌else◌, [], codes, IfOk};
ghost use Rattle.cs_model_serving.specs.Responses.{is_status, head_line, memory_bytes, wrapped};
ghost use Rattle.cs_model_serving.specs.Responses.{reason as words_of};

use cs_base::Memory;
use std::alloc::Global;

const MEMORY_RESPONSE: &[u8] =
    b"HTTP/1.1 503 Service Unavailable\r\nContent-Type: application/json\r\nContent-Length: 18\r\nConnection: close\r\n\r\n{\"error\":\"memory\"}";

/// The bytes of a response of this status, after which the connection is closed or not.
pub fn wrap(alloc: Global, status: u16, close: bool, body: &[u8]) -> Result<Vec<u8>, Memory>
    requires status { is_status status ≡ true }

    ensures ok { IfOk result (λ v. v.items ≡ wrapped status close body.now) }
{
    let head = format!(in alloc;
        "HTTP/1.1 {status} {}\r\n{}Content-Type: application/json\r\nContent-Length: {}\r\n{}\r\n",
        reason(status),
        allow(status),
        body.len(),
        closing(close)
    )?;
    let mut response = head.into_bytes();
    response.extend_from_slice(body)?;
    Ok(response)
}

/// The bytes of the response for want of memory, which takes none; the connection is closed after it.
pub fn memory_response() -> &'static [u8]
    ensures { result.now ≡ memory_bytes }
{
    MEMORY_RESPONSE
}

// The words of a status.
fn reason(status: u16) -> &'static str
    requires status { is_status status ≡ true }

    ensures { result.now ≡ words_of status }
{
    match status {
        200 => "OK",
        400 => "Bad Request",
        404 => "Not Found",
        405 => "Method Not Allowed",
        431 => "Request Header Fields Too Large",
        500 => "Internal Server Error",
        _ => "Service Unavailable",
    }
}

// The line that names the method, where another one was asked.
fn allow(status: u16) -> &'static str
    ensures { result.now ≡ (if status == 405 then head_line (codes "Allow: GET") else []) }
{
    if status == 405 { "Allow: GET\r\n" } else { "" }
}

// The line that tells that the connection is closed.
fn closing(close: bool) -> &'static str
    ensures { result.now ≡ (if close then head_line (codes "Connection: close") else []) }
{
    if close { "Connection: close\r\n" } else { "" }
}
