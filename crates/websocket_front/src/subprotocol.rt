//! Which kind of messages a client asks for, and how that is answered.
//!
//! `tungstenite` hands no request back, so what is served is read of its octets (`asking`). What is answered is chosen
//! of the headers that it hands on; no clause ties the two.

ghost use Rattle.std.specs.Prelude.{◌≡◌, map};
ghost use Rattle.websocket_front.specs.Offers.{name_of, protocol_of, first_named, offer_chosen, is_separator};

use http::header::GetAll;
use http::{HeaderName, HeaderValue, Request, Response, StatusCode};
use std::alloc::Global;
use tungstenite::Callback;
use tungstenite::handshake::server::ErrorResponse;

/// What the messages to a client are.
#[derive(Clone, Copy, Debug, PartialEq, Eq)]
pub enum Subprotocol {
    /// Text messages, which are UTF-8: `text.ircv3.net`, or no subprotocol.
    Text,
    /// Binary messages of any octets: `binary.ircv3.net`.
    Binary,
}

impl Subprotocol {
    /// Its name.
    fn name(self) -> HeaderValue
        ensures { result.bytes ≡ name_of self }
    {
        match self {
            Subprotocol::Text => HeaderValue::from_static("text.ircv3.net"),
            Subprotocol::Binary => HeaderValue::from_static("binary.ircv3.net"),
        }
    }
}

/// The subprotocol of this name.
fn by_name(name: &[u8]) -> Option<Subprotocol>
    ensures { result ≡ protocol_of name.now }
{
    if name == b"text.ircv3.net".as_slice() {
        Some(Subprotocol::Text)
    } else if name == b"binary.ircv3.net".as_slice() {
        Some(Subprotocol::Binary)
    } else {
        None
    }
}

/// Whether an octet parts the values of a list.
fn is_separator(octet: u8) -> bool
    ensures { result ≡ is_separator octet }
{
    octet == b',' || octet == b' ' || octet == b'\t'
}

/// The first subprotocol that a header's value names, a list parted by commas and white space.
pub(crate) fn first_in_list(value: &[u8]) -> Option<Subprotocol>
    ensures { result ≡ first_named value.now }
{
    let mut start = 0;
    for place in 0..value.len() {
        if is_separator(value[place]) {
            let found = by_name(&value[start..place]);
            if found.is_some() {
                return found;
            }
            start = place + 1;
        }
    }
    by_name(&value[start..])
}

/// The first subprotocol that is offered, of those that are served, by a header's values in their order.
fn choose(values: GetAll<'_, HeaderValue>) -> Option<Subprotocol>
    ensures { result ≡ offer_chosen (map (λ v. v.bytes) values.entry) }
{
    for value in values {
        let found = first_in_list(value.as_bytes());
        if found.is_some() {
            return found;
        }
    }
    None
}

/// Chooses a subprotocol for the client that a request is of.
#[derive(Drop)]
pub(crate) struct Chooser {
    alloc: Global,
}

impl Chooser {
    pub(crate) fn new(alloc: Global) -> Chooser {
        Chooser { alloc }
    }
}

/// A response for want of memory.
fn refusal(alloc: Global) -> ErrorResponse {
    let mut response = Response::new(alloc, None);
    *response.status_mut() = StatusCode::INTERNAL_SERVER_ERROR;
    response
}

impl Callback for Chooser {
    fn on_request(
        self,
        request: &Request<()>,
        mut response: Response<()>,
    ) -> Result<Response<()>, ErrorResponse> {
        let offers = request.headers().get_all("sec-websocket-protocol");
        let Some(subprotocol) = choose(offers) else {
            return Ok(response);
        };
        let name = HeaderName::from_static("sec-websocket-protocol");
        match response.headers_mut().insert(name, subprotocol.name()) {
            Ok(_) => Ok(response),
            Err(_) => Err(refusal(self.alloc)),
        }
    }
}
