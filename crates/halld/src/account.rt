//! An account's line, for a password that is read from standard input.
use registration::AccountFault;
use serving_options::account_line;
use std::alloc::{AllocError, Global};
use std::fmt::Display;
use std::io::{BufRead, BufReader, Read};
use std::random::RandomSource;
use std::{fmt, io};

/// Octets of which a salt's digits are made.
const SALT: usize = 8;

/// Octets of a password, at most: a client sends it in no more than 1,200 characters of base64, beside the name.
const LONGEST: usize = 800;

/// Why there is no line.
#[derive(Drop)]
pub(crate) enum NoLine {
    /// The name is no nickname.
    Name,
    /// The password is empty.
    Empty,
    /// It has more than 800 octets.
    TooLong,
    /// It has NUL or CR, which no client can send.
    Control,
    /// What was typed the second time is something else.
    Differs,
    /// The line doesn't let the user in.
    Useless,
    /// The system gave no random octets.
    NoSalt,
    /// A growth was refused.
    Memory,
    /// Standard input can't be read.
    Unreadable(io::Error),
}

impl Display for NoLine {
    fn fmt<W: fmt::Write>(&self, f: &mut fmt::Formatter<W>) -> fmt::Result {
        match self {
            NoLine::Name => f.write_str("the account's name is no nickname"),
            NoLine::Empty => f.write_str("the password is empty"),
            NoLine::TooLong => f.write_str("the password has more than 800 octets"),
            NoLine::Control => f.write_str("the password has NUL or CR"),
            NoLine::Differs => f.write_str("the passwords differ"),
            NoLine::Useless => f.write_str("the line doesn't let the user in"),
            NoLine::NoSalt => f.write_str("no random salt"),
            NoLine::Memory => f.write_str("out of memory"),
            NoLine::Unreadable(error) => write!(f, "cannot read standard input: {error}"),
        }
    }
}

impl From<AllocError> for NoLine {
    fn from(_error: AllocError) -> NoLine {
        NoLine::Memory
    }
}

impl From<AccountFault> for NoLine {
    fn from(fault: AccountFault) -> NoLine {
        match fault {
            AccountFault::Memory => NoLine::Memory,
            AccountFault::Shape | AccountFault::BadName => NoLine::Name,
            AccountFault::BadDigest | AccountFault::Twice => NoLine::Useless,
        }
    }
}

/// Reads a line, without the line feed at its end.
fn line<I: BufRead>(alloc: Global, input: &mut I) -> Result<Vec<u8>, NoLine> {
    let mut line = Vec::new(alloc);
    match input.read_until(b'\n', &mut line) {
        Ok(_) => {}
        Err(error) if error.kind() == io::ErrorKind::OutOfMemory => return Err(NoLine::Memory),
        Err(error) => return Err(NoLine::Unreadable(error)),
    }
    if line.last() == Some(&b'\n') {
        let _ = line.pop();
    }
    Ok(line)
}

/// What is wrong with a password, if anything is.
fn fault_of(password: &[u8]) -> Option<NoLine> {
    if password.is_empty() {
        Some(NoLine::Empty)
    } else if LONGEST < password.len() {
        Some(NoLine::TooLong)
    } else if password.contains(&0) || password.contains(&b'\r') {
        Some(NoLine::Control)
    } else {
        None
    }
}

/// Reads a password, twice at a terminal, which shows it.
fn password<R: Eprint, I: BufRead>(
    rt: &R,
    alloc: Global,
    input: &mut I,
    is_terminal: bool,
) -> Result<Vec<u8>, NoLine> {
    if is_terminal {
        let _ = eprint!(rt; "Password (the terminal shows it): ");
    }
    let password = line(alloc, input)?;
    if let Some(fault) = fault_of(&password) {
        return Err(fault);
    }
    if is_terminal {
        let _ = eprint!(rt; "Once more: ");
        if line(alloc, input)?.as_slice() != password.as_slice() {
            return Err(NoLine::Differs);
        }
    }
    Ok(password)
}

/// The account's line for a user of this name and the password that an input gives, with a salt that is drawn anew.
pub(crate) fn line_for<R: RandomSource + Eprint, I: Read + Drop>(
    rt: &R,
    alloc: Global,
    name: &str,
    input: I,
    is_terminal: bool,
) -> Result<Vec<u8>, NoLine> {
    let mut octets = [0u8; SALT];
    if rt.fill_bytes(&mut octets).is_err() {
        return Err(NoLine::NoSalt);
    }
    let salt = hex::encode(alloc, octets)?;
    let Ok(mut input) = BufReader::new(alloc, input) else {
        return Err(NoLine::Memory);
    };
    let password = password(rt, alloc, &mut input, is_terminal)?;
    let salt = salt.as_str().as_bytes();
    let line = account_line(alloc, name.as_bytes(), salt, &password)?;
    let mut text = line.as_slice().to_vec(alloc)?;
    match text.push(b'\n') {
        Ok(()) => Ok(text),
        Err(_) => Err(NoLine::Memory),
    }
}
