//! Who got something is told, so that what waits for them is written.
ghost use Rattle.std.specs.Prelude.{◌≡◌, ◌<◌, []};

use crate::server::{Host, Server};
use book::{FlushList, Naming};
use std::sync::Wait;

/// So many who are told are not kept waiting.
const MANY: usize = 4096;

/// Sees to it that what waits for all who are told is written, and for none of them again.
pub fn flush<L: Naming, R: Wait + Drop, H: Host>(
    server: &Server<'_, L, R, H>,
    flushes: &mut FlushList,
)
    ensures flushes { 0 < flushes.old.records → H.tells server.now.host.now flushes.old }
    ensures none { flushes.new.sessions ≡ [] }
    ensures records { flushes.new.records ≡ 0 }
{
    if flushes.records() == 0 {
        return flushes.clear();
    }
    server.host.flush(flushes);
    flushes.clear();
}

/// Whether so many are to be told that they aren't kept waiting.
pub fn are_many(flushes: &FlushList, burst: usize) -> bool {
    burst <= flushes.records() || MANY <= flushes.sessions().len()
}

/// Tells where many are to be told.
pub fn flush_many<L: Naming, R: Wait + Drop, H: Host>(
    server: &Server<'_, L, R, H>,
    flushes: &mut FlushList,
) {
    if are_many(flushes, server.burst) {
        flush(server, flushes);
    }
}
