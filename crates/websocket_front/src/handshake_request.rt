//! What a request asks for, by the octets of its head.
ghost use Rattle.std.specs.Prelude.{◌≡◌, length, All, IfOk, IfErr};
ghost use Rattle.httparse.specs.Spans.{IsHeaderWithin, IsRequestWithin, IsRequestOf};
ghost use Rattle.tungstenite.specs.Heads.{IsAccepted};
ghost use Rattle.websocket.specs.Headers.{eq_ignore_case, fields_of};
ghost use Rattle.std.specs.Prelude.{codes};
ghost use Rattle.websocket_front.specs.Asked.{offers, Asks, AsksNone, IsUnasked};
ghost use Rattle.websocket_front.specs.Offers.{offer_chosen};

use crate::subprotocol::{Subprotocol, first_in_list};
use httparse::Status;
use httparse::spans::{EMPTY_HEADER_SPAN, HeaderSpan, RequestSpans, parse_request};
use websocket::handshake::HandshakeError;
use websocket::handshake::server::check_request;

/// How many headers a request may have, as the library has it.
const HEADERS: usize = 124;

/// Whether a header of this name offers subprotocols.
fn is_offer(name: &[u8]) -> bool
    ensures { result ≡ eq_ignore_case name.now (codes "sec-websocket-protocol") }
{
    name.eq_ignore_ascii_case(b"sec-websocket-protocol")
}

/// The first subprotocol that these headers offer, of those that are served.
fn first_offer(head: &[u8], spans: &[HeaderSpan]) -> Option<Subprotocol>
    requires { All (IsHeaderWithin (length head.now)) spans.now }
    ensures { result ≡ offer_chosen (offers (fields_of head.now spans.now)) }
{
    for header in spans {
        if is_offer(header.name.of(head)) {
            let found = first_in_list(header.value.of(head));
            if found.is_some() {
                return found;
            }
        }
    }
    None
}

/// The key that answers a head that asks for a WebSocket.
fn check_head(
    head: &[u8],
    found: &RequestSpans,
    spans: &[HeaderSpan],
) -> Result<[u8; 28], HandshakeError>
    requires within { IsRequestWithin head.now spans.now found.now }
    requires parsed { IsRequestOf head.now spans.now found.now }
    ensures accepted { IfOk result (λ _. IsAccepted head.now) }
    ensures refused { IfErr result (AsksNone head.now) }
{
    check_request(head, found, spans)
}

/// The subprotocol that is served to the client of this request.
pub(crate) fn subprotocol_of(head: &[u8]) -> Result<Subprotocol, HandshakeError>
    ensures asks { IfOk result (Asks head.now) }
    ensures unasked { IfErr result (IsUnasked head.now) }
{
    let mut spans = [EMPTY_HEADER_SPAN; HEADERS];
    let Ok(Status::Complete(found)) = parse_request(head, &mut spans) else {
        return Err(HandshakeError::InvalidHeader);
    };
    check_head(head, &found, &spans)?;
    match first_offer(head, &spans[..found.headers]) {
        Some(subprotocol) => Ok(subprotocol),
        None => Ok(Subprotocol::Text),
    }
}
