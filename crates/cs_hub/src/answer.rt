//! A response, before its bytes are put together.
ghost use Rattle.std.specs.Prelude.{◌≡◌, true};
ghost use Rattle.cs_model_serving.specs.Responses.{is_status};

use cs_json::Fault;

/// What the body of a response is.
#[derive(Debug, Drop)]
pub(crate) enum Body {
    /// The text of a reply, which is JSON.
    Reply(Vec<u8>),
    /// The text of a fault. Memory is asked for it when it is sent, so that a fault takes none before.
    Fault(Fault),
}

/// A response.
#[derive(Debug, Drop)]
pub(crate) struct Answer {
    /// Its status.
    pub status: u16,
    /// Whether the connection is closed after it.
    pub close: bool,
    /// Its body.
    pub body: Body,
    /// The status is one of those that are sent.
    pub ghost sent: { is_status status ≡ true },
}
