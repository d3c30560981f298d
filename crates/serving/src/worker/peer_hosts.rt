//! How a peer is told.
ghost use Rattle.std.specs.Prelude.{◌≡◌, true, IfSome};
ghost use Rattle.casemapping.specs.Names.{host_shape};

use casemapping::is_host;
use line_grammar::Octets;
use std::alloc::{AllocError, Global};
use std::net::SocketAddr;

/// A peer's address as a text, with a `0` before one that begins with a colon.
fn address_text(alloc: Global, peer: SocketAddr) -> Result<Octets, AllocError> {
    let text = format!(in alloc; "{}", peer.ip())?;
    if text.as_str().starts_with(':') {
        let text = format!(in alloc; "0{}", text.as_str())?;
        return Octets::copy_of(alloc, text.as_str().as_bytes());
    }
    Octets::copy_of(alloc, text.as_str().as_bytes())
}

/// The host of a peer: its address. It answers `None` where no memory is there for it, or it has not the shape of a
/// host.
pub(crate) fn host_of(alloc: Global, peer: SocketAddr) -> Option<Octets>
    ensures { IfSome result (λ host. host_shape host ≡ true) }
{
    let Ok(host) = address_text(alloc, peer) else {
        return None;
    };
    if is_host(host.as_slice()) {
        Some(host)
    } else {
        None
    }
}
