//! Files that a command line names.
ghost use Rattle.std.specs.Prelude.{◌≡◌, ◌==◌, ℕ, map, Ok, Err, IfOk, IfErr};
ghost use Rattle.std.specs.List.{slice_split};
ghost use Rattle.registration.specs.Accounts.{accounts_in, IsReadTo};
ghost use Rattle.registration.specs.declared.accounts.AccountFault.{AccountFault};
ghost use Rattle.serving_options.specs.declared.files.FileFault.TheVariants.{Account, Memory};
ghost use Rattle.serving_options.specs.Files.{body_of, motd_in};

use line_grammar::{Octets, OctetsList};
use registration::{AccountFault, Accounts};
use std::alloc::{AllocError, Global};
use std::fs::Files;
use std::{fs, io};

/// Why a file of accounts gives none.
#[derive(Clone, Copy, Debug, PartialEq)]
pub enum FileFault {
    /// This line has a fault.
    Account(u64, AccountFault),
    /// A growth was refused.
    Memory,
}

/// What a file holds.
///
/// # Errors
///
/// Those of the system, by which a file can't be read, and `OutOfMemory`.
pub fn content_of<R: Files + Alloc<A = Global>>(rt: &R, path: &str) -> io::Result<Vec<u8>> {
    fs::read(rt, path)
}

/// A text without the line feed at its end.
fn body_of(text: &[u8]) -> &[u8]
    ensures { result.now ≡ body_of text.now }
{
    if text.last() == Some(&b'\n') {
        &text[..text.len() - 1]
    } else {
        text
    }
}

/// The lines of a text, which line feeds part.
fn lines_of(alloc: Global, text: &[u8]) -> Result<Vec<&[u8]>, AllocError>
    ensures { IfOk result (λ v. map (λ x. x.now) v.items ≡ slice_split (λ b. b == 10) text.now) }
{
    text.split(|octet| *octet == b'\n').collect(alloc)
}

/// Copies of texts.
fn copies(alloc: Global, texts: &[&[u8]]) -> Result<Vec<Octets>, AllocError>
    ensures { IfOk result (λ v. v.items ≡ map (λ x. x.now) texts.now) }
{
    let mut copies = Vec::new(alloc);
    for text in texts {
        copies.push(Octets::copy_of(alloc, text)?)?;
    }
    Ok(copies)
}

/// The lines of a file of the message of the day. Line feeds part them, and an empty last one counts for nothing.
pub fn motd_of(alloc: Global, file: &[u8]) -> Result<OctetsList, AllocError>
    ensures { IfOk result (λ motd. motd ≡ motd_in file.now) }
{
    if file.is_empty() {
        return Ok(OctetsList::from_vec(Vec::new(alloc)));
    }
    let lines = lines_of(alloc, body_of(file))?;
    Ok(OctetsList::from_vec(copies(alloc, &lines)?))
}

/// The accounts of a file.
pub fn accounts_of(alloc: Global, file: &[u8]) -> Result<Accounts, FileFault>
    ensures ok { IfOk result (λ accounts. accounts_in file.now ≡ Ok accounts) }
    ensures fault { IfErr result (λ fault. (n : ℕ) (why : AccountFault) → fault ≡ Account n why
        → accounts_in file.now ≡ Err (n, why)) }
    ensures memory { IfErr result (λ fault. fault ≡ Memory → (n : ℕ) × IsReadTo file.now n) }
{
    match Accounts::read(alloc, file) {
        Ok(accounts) => Ok(accounts),
        Err((_, AccountFault::Memory)) => Err(FileFault::Memory),
        Err((line, fault)) => Err(FileFault::Account(line, fault)),
    }
}
