//! Writing what waits for a session.
ghost use Rattle.std.specs.Prelude.{◌≡◌, true, IsSomeAnd};
ghost use Rattle.session_io.specs.declared.writing.Standing.TheVariants.{Over};
ghost use Rattle.session_io.specs.Writing.{IsWritten};

use crate::outlet::{Outlet, Pumped};
use chronicle::{SessionId, Why};
use session_ends::book::{FlushList, Naming};
use session_ends::{Host, Server, hang};
use std::io::Write;
use std::sync::Wait;
use wire::{Flow, Sink};

/// How a session's writing stands.
#[derive(Clone, Copy, Debug, PartialEq)]
pub enum Standing {
    /// More may come.
    GoesOn,
    /// Nothing more goes out: the session's last item did, or it is shut and nothing waits, or its stream has a fault.
    Over,
}

/// How a session's writing stands after what waited was written, and what came of that where this thread did it.
#[derive(Drop)]
pub struct Written<L: Naming, W: Write + Drop> {
    pub standing: Standing,
    pub pumped: Option<Pumped<L, W>>,
}

/// Writes what waits for a session, as far as its stream takes it, for the thread that ends the session once its
/// writing is over. `is_shut` says whether the session was shut before this call. After a fault of the stream the
/// session is ended with that reason.
///
/// It is over only where the session's last item went out; where the session is shut, all went out, and the outbox was
/// found empty in this call; or where its stream answered that it takes no more. What went out is said by the wire
/// itself (`Wire::in_step`), whoever pumped it: the texts of the items that its writer took, in order, but for a rest.
/// The writer comes back out of the wire.
pub fn write_some<L: Naming, W: Sink + Drop, R: Wait + Drop, H: Host>(
    rt: &R,
    server: &Server<'_, L, R, H>,
    session: SessionId,
    outlet: &Outlet<L, W>,
    is_shut: bool,
    flushes: &mut FlushList,
) -> Written<L, W>
    ensures over { result.standing ≡ Over
        → IsSomeAnd result.pumped
        (λ p. IsWritten (is_shut ≡ true) session p.before.value p.after.value) }
{
    let Some(pumped) = outlet.write_now(rt) else {
        return Written {
            standing: Standing::GoesOn,
            pumped: None,
        };
    };
    let is_over = match pumped.flow {
        _ if pumped.session != session => false,
        Ok(Flow::Ended) => true,
        Ok(Flow::Idle) => is_shut,
        Ok(Flow::Behind | Flow::More) => false,
        Err(_) => {
            let _ = hang(rt, server, session, Why::WriteFailed, flushes);
            true
        }
    };
    let standing = if is_over {
        Standing::Over
    } else {
        Standing::GoesOn
    };
    Written {
        standing,
        pumped: Some(pumped),
    }
}
