//! What a server is told when it starts.
ghost use Rattle.std.specs.Prelude.{◌≡◌, ◌↔◌, [], length, IsTrue};
ghost use Rattle.std.specs.List.{list_all};
ghost use Rattle.line_grammar.specs.Spelling.{is_text_octet};
ghost use Rattle.registration.specs.Settings.{IsWellSet, is_motd, is_text, is_version};

use crate::Accounts;
use casemapping::is_host;
use chronicle::Moment;
use line_grammar::{Octets, OctetsList, needs_colon};
use std::alloc::AllocError;
use std::marker::Model;

/// Sessions that may be there at a time, at most.
pub const MAX_SESSIONS: usize = 1024;

/// Octets of what is told of a server, of its version, and of a line of the message of the day, at most.
const INFOLEN: usize = 100;

const VERSIONLEN: usize = 30;

const MOTDLEN: usize = 400;

/// What a server is told when it starts. No text may hold NUL, CR or LF.
#[derive(Clone, Drop)]
pub struct Settings {
    /// The server's name, which has the shape of a host name.
    pub server: Octets,
    /// What is told of the server: at most 100 octets.
    pub info: Octets,
    /// The version that is told: 1 to 30 octets, none of them a space, the first no colon.
    pub version: Octets,
    /// When the server was created: from 1970 to the end of the year 9998.
    pub created: Moment,
    /// The message of the day, whose lines have at most 400 octets. `None` where there is none.
    pub motd: Option<OctetsList>,
    /// The accounts by which users log in.
    pub accounts: Accounts,
    /// How many sessions may be there at a time, 1 to 1,024.
    pub sessions: usize,
}

fn is_text_octet(octet: u8) -> bool
    ensures { result ≡ is_text_octet octet }
{
    !matches!(octet, 0 | b'\r' | b'\n')
}

fn are_text_octets(octets: &[u8]) -> bool
    ensures { result ≡ list_all is_text_octet octets.now }
{
    octets.iter().all(|octet| is_text_octet(*octet))
}

fn is_text(text: &[u8], most: usize) -> bool
    ensures { result ≡ is_text most text.now }
{
    text.len() <= most && are_text_octets(text)
}

fn is_version(version: &[u8]) -> bool
    ensures { result ≡ is_version version.now }
{
    !needs_colon(version) && is_text(version, VERSIONLEN)
}

fn is_motd(motd: &Option<OctetsList>) -> bool
    ensures { result ≡ is_motd motd.now }
{
    match motd {
        Some(motd) => motd
            .as_slice()
            .iter()
            .all(|line| is_text(line.as_slice(), MOTDLEN)),
        None => true,
    }
}

/// Whether settings are within their limits.
pub fn is_well_set(settings: &Settings) -> bool
    ensures { IsTrue result ↔ IsWellSet settings.now }
{
    1 <= settings.sessions
        && settings.sessions <= MAX_SESSIONS
        && is_host(settings.server.as_slice())
        && settings.created.may_follow(Moment::new(0))
        && is_version(settings.version.as_slice())
        && is_text(settings.info.as_slice(), INFOLEN)
        && is_motd(&settings.motd)
}
