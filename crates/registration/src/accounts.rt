//! The accounts of users, which log in by SASL (IRCv3 SASL 3.1).
ghost use Rattle.std.specs.Prelude.{◌≡◌, ◌⊎◌, ◌↔◌, ◌++◌, ◌∷◌, ◌==◌, [], count_by, length, not, IfOk};
ghost use Rattle.std.specs.Prelude.{true, IfErr, IsTrue, IsErr, IsErrOf, IsOk, IsSome, OnOk, OnErr};
ghost use Rattle.std.specs.List.{find, zip};
ghost use Rattle.std.specs.Option.{option_copied, option_map};
ghost use Rattle.std.specs.Result.{result_ok};
ghost use Rattle.std.specs.Str.{bytes_eq};
ghost use Rattle.hex.specs.Hex.{decode_sized};
ghost use Rattle.sha2.specs.Sha256.{sha256};
ghost use Rattle.registration.specs.Accounts.{AccountsAreNamed, account_of, is_known, with_account, words_of};
ghost use Rattle.casemapping.specs.Fold.{is_same};
ghost use Rattle.casemapping.specs.Names.{nick_shape};
ghost use Rattle.line_grammar.specs.Parts.{parts};
ghost use Rattle.registration.specs.Parts.{three_of};
ghost use Rattle.registration.specs.declared.accounts.AccountFault.TheVariants.{Memory};

use crate::parts::three_parts;
use casemapping::{is_nick, is_same};
use line_grammar::{Octets, split_first};
use sha2::{Digest, Sha256};
use std::alloc::{AllocError, Global};
use std::marker::Model;

/// An account: a user's name, and what its password is checked against.
#[derive(Clone, Drop)]
pub struct Account {
    /// A nickname.
    pub name: Octets,
    /// What stands before the password where the digest is taken.
    pub salt: Octets,
    /// SHA-256 of the salt's octets followed by the password's.
    pub digest: [u8; 32],
}

/// Why a line is no account's.
#[derive(Clone, Copy, Debug, PartialEq)]
pub enum AccountFault {
    /// It isn't three words parted by single spaces.
    Shape,
    /// The first word is no nickname.
    BadName,
    /// The third word isn't 64 hexadecimal digits.
    BadDigest,
    /// The name is that of an account before it, in either case.
    Twice,
    /// A growth was refused.
    Memory,
}

impl From<AllocError> for AccountFault {
    ghost from_gives = { λ _ e. e ≡ Memory };

    fn from(_error: AllocError) -> AccountFault {
        AccountFault::Memory
    }
}

/// The accounts of a server, in the order of its file.
#[derive(Drop)]
pub struct Accounts {
    accounts: Vec<Account>,
}

impl Model for Accounts {
    ghost use Rattle.std.specs.Prelude.{List};
    ghost use Rattle.registration.specs.declared.accounts.Account.{Account};
    ghost use Rattle.registration.specs.Accounts.{AreNamed};

    ghost Value = { List Account };

    ghost view = { λ a. a.accounts.items };

    ghost invariant = { λ a. AreNamed a.accounts.items };
}

fn is_known(accounts: &[Account], name: &[u8]) -> bool
    ensures { result ≡ is_known accounts.now name.now }
{
    accounts
        .iter()
        .any(|account| is_same(account.name.as_slice(), name))
}

/// The three words of a line.
fn three_words(line: &[u8]) -> Option<(&[u8], &[u8], &[u8])>
    ensures { option_map (λ found. (found.0.now, found.1.now, found.2.now)) result
        ≡ words_of (three_of (parts 32 line.now)) }
{
    let (name, salt, digest) = three_parts(line, b' ')?;
    if name.is_empty() || salt.is_empty() || digest.is_empty() {
        return None;
    }
    Some((name, salt, digest))
}

fn read_digest(digits: &[u8]) -> Option<[u8; 32]>
    ensures { result ≡ result_ok (decode_sized digits.now 32) }
{
    let mut digest = [0; 32];
    hex::decode_to_slice(digits, &mut digest).ok()?;
    Some(digest)
}

/// The account of a line that isn't empty, after those that are known.
fn read_account(alloc: Global, known: &[Account], line: &[u8]) -> Result<Account, AccountFault>
    ensures ok { IfOk result
        (λ account. with_account known.now (account_of line.now) ≡ Ok (known.now ++ account ∷ [])) }
    ensures named { IfOk result (λ account. nick_shape account.name ≡ true) }
    ensures err { IfErr result (λ fault. (fault ≡ AccountFault.Memory)
        ⊎ (with_account known.now (account_of line.now) ≡ Err fault)) }
    ensures memory { IsErrOf result AccountFault.Memory
        → IsOk (with_account known.now (account_of line.now)) }
{
    let (name, salt, digest) = three_words(line).ok_or(AccountFault::Shape)?;
    if !is_nick(name) {
        return Err(AccountFault::BadName);
    }
    let digest = read_digest(digest).ok_or(AccountFault::BadDigest)?;
    if is_known(known, name) {
        return Err(AccountFault::Twice);
    }
    let name = Octets::copy_of(alloc, name)?;
    let salt = Octets::copy_of(alloc, salt)?;
    Ok(Account { name, salt, digest })
}

/// SHA-256 of a salt followed by a password.
fn digest_of(salt: &[u8], password: &[u8]) -> [u8; 32]
    ensures { result ≡ sha256 (salt.now ++ password.now) }
{
    let mut hasher = Sha256::new();
    hasher.update(salt);
    hasher.update(password);
    hasher.finalize()
}

/// In how many places two digests differ. Each is looked at, whatever those before it say.
fn differences(a: &[u8; 32], b: &[u8; 32]) -> usize
    ensures { result ≡ count_by (λ pair. not (pair.0 == pair.1)) (zip a.now b.now) }
{
    a.iter().zip(b).filter(|(x, y)| x != y).count()
}

fn are_equal(a: &[u8; 32], b: &[u8; 32]) -> bool
    ensures { result ≡ bytes_eq a.now b.now }
{
    differences(a, b) == 0
}

/// Accounts that are read from a file are named as nicknames are.
pub fn accounts_are_named()
    ensures { AccountsAreNamed }
{}

impl Accounts {
    ghost use Rattle.registration.specs.Accounts.{AreNamed, IsReadTo, accounts_in, logged_in, with_line};

    /// No account.
    pub fn new(alloc: Global) -> Accounts
        ensures { result ≡ [] }
    {
        Accounts {
            accounts: Vec::new(alloc),
        }
    }

    /// The accounts of a file, or the number of its first faulty line, from 1, with its first fault. A line
    /// feed ends a line, and empty lines are ignored. A line is a name, a salt and the digest of the salt's
    /// octets followed by the password's, by SHA-256 and in hexadecimal.
    #[tactic(auto, unfolding(crate::specs::Accounts::accounts_in))]
    pub fn read(alloc: Global, file: &[u8]) -> Result<Accounts, (u64, AccountFault)>
        ensures ok { IfOk result (λ accounts. accounts_in file.now ≡ Ok accounts) }
        ensures err { IfErr result
            (λ fault. (fault.1 ≡ AccountFault.Memory) ⊎ (accounts_in file.now ≡ Err fault)) }

        // Memory is wanting only where neither its line nor one before it has a fault.
        ensures memory { IfErr result
            (λ fault. fault.1 ≡ AccountFault.Memory → IsReadTo file.now fault.0) }
    {
        let mut accounts = Accounts::new(alloc);
        let mut rest = Some(file);
        let mut number = 1;
        while let Some(left) = rest {
            let (line, more) = split_first(left, b'\n');
            if let Err(fault) = accounts.read_line(alloc, line) {
                return Err((number, fault));
            }
            rest = more;
            number += 1;
        }
        Ok(accounts)
    }

    /// Reads one line more. An empty one counts for nothing.
    pub fn read_line(&mut self, alloc: Global, line: &[u8]) -> Result<(), AccountFault>
        ensures ok { OnOk result (with_line self.old line.now ≡ Ok self.new) }
        ensures err { IfErr result
            (λ fault. (fault ≡ AccountFault.Memory) ⊎ (with_line self.old line.now ≡ Err fault)) }

        // Memory is wanting only where there is no other fault.
        ensures memory { IsErrOf result AccountFault.Memory → IsOk (with_line self.old line.now) }
        ensures unchanged { OnErr result (self.new ≡ self.old) }
    {
        if line.is_empty() {
            return Ok(());
        }
        let account = read_account(alloc, &self.accounts, line)?;
        self.add(account)?;
        Ok(())
    }

    fn add(&mut self, account: Account) -> Result<(), AllocError>
        requires { nick_shape account.name ≡ true }
        ensures ok { OnOk result (self.new ≡ self.old ++ account ∷ []) }
        ensures err { OnErr result (self.new ≡ self.old) }
    {
        self.accounts.push(account)?;
        Ok(())
    }

    /// The account's name, as its line spells it, where the user is an account's in either case and SHA-256
    /// of its salt followed by the password is its digest. Digests are compared in full; nothing is claimed
    /// of how long it takes.
    #[tactic(auto, unfolding(crate::specs::Accounts::logged_in))]
    pub fn check(&self, user: &[u8], password: &[u8]) -> Result<Option<Octets>, AllocError>
        ensures name { IfOk result (λ name. name ≡ logged_in self.now user.now password.now) }

        // Memory is wanting only where the password is right.
        ensures memory { IsErr result → IsSome (logged_in self.now user.now password.now) }
    {
        let Some(account) = self.find_by_name(user) else {
            return Ok(None);
        };
        let digest = digest_of(account.salt.as_slice(), password);
        if !are_equal(&digest, &account.digest) {
            return Ok(None);
        }
        Ok(Some(account.name.clone()?))
    }

    /// The account of a name, in either case.
    fn find_by_name(&self, user: &[u8]) -> Option<&Account>
        ensures { option_copied result ≡ find (λ account. is_same account.name user.now) self.now }
    {
        self.accounts
            .iter()
            .find(|account| is_same(account.name.as_slice(), user))
    }

    /// Their names have the shape of nicknames. It does nothing: it states what the type keeps.
    pub fn are_named(&self)
        ensures { AreNamed self.now }
    {
        let _ = &self.accounts;
    }

    /// How many accounts there are.
    pub fn len(&self) -> usize
        ensures { result ≡ length self.now }
    {
        self.accounts.len()
    }

    /// Whether there is none.
    pub fn is_empty(&self) -> bool
        ensures { IsTrue result ↔ (self.now ≡ []) }
    {
        self.accounts.is_empty()
    }
}

impl Clone for Accounts {
    ghost is_clone = { λ a b. b ≡ a };

    fn clone(&self) -> Result<Accounts, AllocError> {
        Ok(Accounts {
            accounts: self.accounts.clone()?,
        })
    }
}
