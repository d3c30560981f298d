//! The line of an account.
ghost use Rattle.std.specs.Prelude.{◌≡◌, ◌⊎◌, ◌++◌, ℕ, true, false, Err, IfOk, IfErr};
ghost use Rattle.sha2.specs.Sha256.{sha256};
ghost use Rattle.registration.specs.Accounts.{accounts_in};
ghost use Rattle.registration.specs.declared.accounts.AccountFault.TheVariants as fault;
ghost use Rattle.serving_options.specs.Accounts.{account_line, LetsIn, IsFaultOf};

use line_grammar::Octets;
use registration::{AccountFault, Accounts};
use sha2::{Digest, Sha256};
use std::alloc::{AllocError, Global};

/// SHA-256 of a salt followed by a password.
fn digest_of(salt: &[u8], password: &[u8]) -> [u8; 32]
    ensures { result ≡ sha256 (salt.now ++ password.now) }
{
    let mut hasher = Sha256::new();
    hasher.update(salt);
    hasher.update(password);
    hasher.finalize()
}

/// A name, a salt and a digest, parted by spaces.
fn spell_line(
    alloc: Global,
    name: &[u8],
    salt: &[u8],
    password: &[u8],
) -> Result<Octets, AllocError>
    ensures { IfOk result (λ line. line ≡ account_line name.now salt.now password.now) }
{
    let digits = hex::encode(alloc, digest_of(salt, password))?;
    let mut line = Vec::new(alloc);
    line.extend_from_slice(name)?;
    line.push(b' ')?;
    line.extend_from_slice(salt)?;
    line.push(b' ')?;
    line.extend_from_slice(digits.as_str().as_bytes())?;
    Ok(Octets::from_vec(line))
}

/// Whether a user of this name logs in by this password where this is the file of accounts.
fn lets_in(alloc: Global, file: &[u8], name: &[u8], password: &[u8]) -> Result<bool, AccountFault>
    ensures lets { IfOk result (λ b. b ≡ true → LetsIn name.now password.now file.now) }
    ensures lets_not { IfOk result (λ b. b ≡ false → LetsIn name.now password.now file.now → ⊥) }
    ensures fault { IfErr result
        (λ e. (e ≡ fault.Memory) ⊎ ((n : ℕ) × (accounts_in file.now ≡ Err (n, e)))) }
{
    match Accounts::read(alloc, file) {
        Ok(accounts) => Ok(accounts.check(name, password)?.is_some()),
        Err((_, fault)) => Err(fault),
    }
}

/// The line by which a file of accounts has a user of this name, with this salt and this password. It is read again
/// before it is given, so what is given lets the user in.
///
/// # Errors
///
/// The fault that the line would have: `BadName` where the name is no nickname, and `Shape` where it or the salt is
/// empty or has a space or a line feed. `BadDigest` where the line doesn't let the user in, and `Memory`.
pub fn account_line(
    alloc: Global,
    name: &[u8],
    salt: &[u8],
    password: &[u8],
) -> Result<Octets, AccountFault>
    ensures line { IfOk result (λ line. line ≡ account_line name.now salt.now password.now) }
    ensures lets_in { IfOk result (λ line. LetsIn name.now password.now line) }
    ensures fault { IfErr result (λ e. (e ≡ fault.Memory)
        ⊎ IsFaultOf name.now password.now (account_line name.now salt.now password.now) e) }
{
    let line = spell_line(alloc, name, salt, password)?;
    if lets_in(alloc, line.as_slice(), name, password)? {
        Ok(line)
    } else {
        Err(AccountFault::BadDigest)
    }
}
