//! What the server asks a session that is idle (RFC 2812, section 3.7.2).
ghost use Rattle.std.specs.Prelude.{◌≡◌, IfOk};
ghost use Rattle.deeds.specs.Ping.{ping_line};

use numerics::Line;
use std::alloc::{AllocError, Global};

/// The line by which a server of this name asks a session whether it is there.
pub fn ping(alloc: Global, server: &[u8]) -> Result<Line, AllocError>
    ensures { IfOk result (λ l. l ≡ ping_line server.now) }
{
    Line::new(alloc, server, b"PING", &[server])
}
