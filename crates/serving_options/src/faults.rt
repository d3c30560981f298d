//! What is wrong with settings that a server doesn't start with.
ghost use Rattle.std.specs.Prelude.{◌≡◌, ◌==◌, length, not, position};
ghost use Rattle.std.specs.List.{list_all};
ghost use Rattle.line_grammar.specs.Spelling.{is_text_octet};
ghost use Rattle.registration.specs.Settings.{is_text};
ghost use Rattle.serving_options.specs.Faults.{fault_of_line};

use line_grammar::OctetsList;

/// Octets of a line of the message of the day, at most.
const MOTDLEN: usize = 400;

/// What is wrong with a line of the message of the day.
#[derive(Clone, Copy, Debug, PartialEq)]
pub enum TextFault {
    /// It has more than 400 octets.
    TooLong,
    /// It ends with CR, as lines of files do that were written on another system.
    EndsWithCr,
    /// It has NUL, CR or LF.
    HasControl,
}

fn is_text_octet(octet: u8) -> bool
    ensures { result ≡ is_text_octet octet }
{
    !matches!(octet, 0 | b'\r' | b'\n')
}

fn are_text_octets(octets: &[u8]) -> bool
    ensures { result ≡ list_all is_text_octet octets.now }
{
    octets.iter().all(|octet| is_text_octet(*octet))
}

fn is_text(line: &[u8]) -> bool
    ensures { result ≡ is_text 400 line.now }
{
    line.len() <= MOTDLEN && are_text_octets(line)
}

/// What is wrong with a line of the message of the day, if anything is.
pub fn fault_of_line(line: &[u8]) -> Option<TextFault>
    ensures { result ≡ fault_of_line line.now }
{
    if is_text(line) {
        None
    } else if MOTDLEN < line.len() {
        Some(TextFault::TooLong)
    } else if line.last() == Some(&b'\r') {
        Some(TextFault::EndsWithCr)
    } else {
        Some(TextFault::HasControl)
    }
}

/// The place of the first line of a message of the day with which something is wrong.
pub fn faulty_line(motd: &OctetsList) -> Option<usize>
    ensures { result ≡ position (λ line. not (is_text 400 line)) motd.now }
{
    motd.as_slice()
        .iter()
        .position(|line| !is_text(line.as_slice()))
}
