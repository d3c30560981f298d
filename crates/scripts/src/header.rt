//! Headers of a script, and the limits that they set.
ghost use Rattle.std.specs.Prelude.{◌≡◌, ◌++◌, ◌∷◌, [], None, Some, OnOk, IfOk, IsErrOf};
ghost use Rattle.scripts.specs.declared.header.HeaderFault.TheVariants.{Memory};
ghost use Rattle.scripts.specs.HeaderFaults.{fault_of};
ghost use Rattle.scripts.specs.Headers.{setting_of, header_of, default_limits, with_value};
ghost use Rattle.scripts.specs.Headers.{account_after, with_accounts, with_header, motd_of};

use crate::number::number;
use crate::split_words::split_at_space;
use line_grammar::{Octets, OctetsList};
use registration::{AccountFault, Accounts};
use std::alloc::{AllocError, Global};
use std::marker::Model;

/// What a header sets.
#[derive(Clone, Copy)]
pub(crate) enum Setting {
    Limit,
    Sendq,
    Workers,
    Sessions,
}

/// A setting with its value.
#[derive(Clone, Copy)]
pub(crate) struct Header {
    pub setting: Setting,
    pub value: u64,
}

/// Why a line is no header.
#[derive(Clone, Copy, PartialEq)]
pub(crate) enum HeaderFault {
    /// It is none of them.
    Bad,
    /// A growth was refused.
    Memory,
}

impl From<AllocError> for HeaderFault {
    ghost from_gives = { λ _ e. e ≡ Memory };

    fn from(_error: AllocError) -> HeaderFault {
        HeaderFault::Memory
    }
}

impl From<AccountFault> for HeaderFault {
    ghost from_gives = { λ fault e. e ≡ fault_of fault };

    fn from(fault: AccountFault) -> HeaderFault {
        match fault {
            AccountFault::Memory => HeaderFault::Memory,
            _ => HeaderFault::Bad,
        }
    }
}

/// Lines of the message of the day.
#[derive(Drop)]
pub(crate) struct MotdLines {
    lines: Vec<Octets>,
}

impl Model for MotdLines {
    ghost use Rattle.std.specs.Prelude.{ℕ, List};

    ghost Value = { List (List ℕ) };

    ghost view = { λ a. a.lines.items };
}

impl MotdLines {
    fn push(&mut self, line: Octets) -> Result<(), AllocError>
        ensures { OnOk result (self.new ≡ self.old ++ line ∷ []) }
    {
        self.lines.push(line)?;
        Ok(())
    }

    /// The message, where it has a line.
    pub(crate) fn copy(&self) -> Result<Option<OctetsList>, AllocError>
        ensures { IfOk result (λ motd. motd ≡ motd_of self.now) }
    {
        if self.lines.is_empty() {
            return Ok(None);
        }
        Ok(Some(OctetsList::from_vec(self.lines.clone()?)))
    }
}

/// What headers set.
#[derive(Drop)]
pub(crate) struct Limits {
    /// How many sessions may be open.
    pub sessions: usize,
    /// How many records the journal may have.
    pub records: usize,
    /// How many workers carry out lines.
    pub workers: usize,
    /// How many items may wait for one session.
    pub sendq: usize,
    /// The message of the day.
    pub motd: MotdLines,
    /// By which users log in.
    pub accounts: Accounts,
}

impl Limits {
    /// Where no header sets another.
    pub(crate) fn new(alloc: Global) -> Limits
        ensures { result ≡ default_limits }
    {
        Limits {
            sessions: 1_024,
            records: 1_000_000,
            workers: 2,
            sendq: 256,
            motd: MotdLines {
                lines: Vec::new(alloc),
            },
            accounts: Accounts::new(alloc),
        }
    }

    /// Gives a setting another value.
    fn set(&mut self, header: Header)
        ensures { self.new ≡ with_value self.old header.setting header.value }
    {
        let value = header.value as usize;
        match header.setting {
            Setting::Limit => self.records = value,
            Setting::Sendq => self.sendq = value,
            Setting::Workers => self.workers = value,
            Setting::Sessions => self.sessions = value,
        }
    }

    /// Adds the account of a line of an accounts file.
    fn add_account(&mut self, alloc: Global, line: &[u8]) -> Result<(), HeaderFault>
        ensures ok { OnOk result (with_accounts self.old (account_after self.old.accounts line.now)
            ≡ Some self.new) }
        ensures bad { IsErrOf result HeaderFault.Bad
            → with_accounts self.old (account_after self.old.accounts line.now) ≡ None }
    {
        if line.is_empty() {
            return Err(HeaderFault::Bad);
        }
        self.accounts.read_line(alloc, line)?;
        Ok(())
    }

    /// Takes a line of a script, without its LF, as a header.
    pub(crate) fn take(&mut self, alloc: Global, line: &[u8]) -> Result<(), HeaderFault>
        ensures ok { OnOk result (with_header self.old line.now ≡ Some self.new) }
        ensures bad { IsErrOf result HeaderFault.Bad → with_header self.old line.now ≡ None }
    {
        if line == b"motd".as_slice() {
            return Err(HeaderFault::Bad);
        }
        let (word, text) = split_at_space(line);
        if word == b"motd".as_slice() {
            self.motd.push(Octets::copy_of(alloc, text)?)?;
            return Ok(());
        }
        if word == b"account".as_slice() {
            return self.add_account(alloc, text);
        }
        let Some(header) = parse_header(line) else {
            return Err(HeaderFault::Bad);
        };
        self.set(header);
        Ok(())
    }
}

/// The setting that a line's first word names.
fn setting_of(word: &[u8]) -> Option<Setting>
    ensures { result ≡ setting_of word.now }
{
    if word == b"limit".as_slice() {
        Some(Setting::Limit)
    } else if word == b"sendq".as_slice() {
        Some(Setting::Sendq)
    } else if word == b"workers".as_slice() {
        Some(Setting::Workers)
    } else if word == b"sessions".as_slice() {
        Some(Setting::Sessions)
    } else {
        None
    }
}

/// The setting with its value that a line writes.
fn parse_header(line: &[u8]) -> Option<Header>
    ensures { result ≡ header_of line.now }
{
    let (word, digits) = split_at_space(line);
    let setting = setting_of(word)?;
    let value = number(digits)?;
    Some(Header { setting, value })
}
