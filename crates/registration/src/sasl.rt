//! The PLAIN mechanism (RFC 4616).
ghost use Rattle.std.specs.Prelude.{◌≡◌, ◌≤◌, length, take, IfOk, IfSome, IsErr, IsSome};
ghost use Rattle.std.specs.Option.{option_map};
ghost use Rattle.std.specs.Result.{result_ok};
ghost use Rattle.base64.specs.Decode.{decoded_estimate};
ghost use Rattle.base64.specs.Engines.{standard};
ghost use Rattle.base64.specs.GeneralPurpose.{decode_of};
ghost use Rattle.registration.specs.Enrol.{account_by};
ghost use Rattle.line_grammar.specs.Parts.{parts};
ghost use Rattle.registration.specs.Parts.{three_of};
ghost use Rattle.registration.specs.Plain.{ToldIsSpelled, credentials, credentials_from, credentials_of, is_own};

use crate::Accounts;
use crate::parts::three_parts;
use base64::engine::general_purpose::STANDARD;
use casemapping::is_same;
use line_grammar::Octets;
use std::alloc::AllocError;

/// Octets of all pieces of an exchange, at most.
pub(crate) const EXCHANGELEN: usize = 1200;

/// Octets that so many of base64 tell, at most.
const MESSAGELEN: usize = 900;

/// Whether an authorization identity is missing or is the user's own name.
fn is_own(identity: &[u8], user: &[u8]) -> bool
    ensures { result ≡ is_own identity.now user.now }
{
    identity.is_empty() || is_same(identity, user)
}

/// The user and the password that a message tells, where it tells them.
fn told_in(message: &[u8]) -> Option<(&[u8], &[u8])>
    ensures { option_map (λ told. credentials told.0.now told.1.now) result
        ≡ credentials_from (three_of (parts 0 message.now)) }
{
    let (identity, user, password) = three_parts(message, 0)?;
    if user.is_empty() || password.is_empty() || !is_own(identity, user) {
        return None;
    }
    Some((user, password))
}

/// What a payload tells in base64, in the standard alphabet with padding and in its one spelling: so many octets at
/// the front of the room. `None` where it is anything else.
fn decode_into(payload: &[u8], room: &mut [u8]) -> Option<usize>
    requires { decoded_estimate (length payload.now) ≤ length room.old }
    ensures found { option_map (λ len. take len room.new) result
        ≡ result_ok (decode_of standard payload.now) }
    ensures within { IfSome result (λ len. len ≤ length room.new) }
{
    STANDARD.decode_slice_unchecked(payload, room).ok()
}

/// What a payload tells is what it spells, and it is the one spelling of that.
pub fn told_is_spelled()
    ensures { ToldIsSpelled }
{}

/// The account by which a payload of PLAIN logs in, decoded in room that takes no memory. The payload is in base64, in
/// the standard alphabet with padding and in its one spelling. `None` where it is anything else, or names somebody
/// else to act as.
#[tactic(auto, unfolding(crate::specs::Plain::credentials_of))]
pub(crate) fn account_by(accounts: &Accounts, payload: &[u8]) -> Result<Option<Octets>, AllocError>
    requires { length payload.now ≤ 1200 }
    ensures account { IfOk result
        (λ account. account ≡ account_by accounts.now (credentials_of payload.now)) }
    ensures memory { IsErr result → IsSome (account_by accounts.now (credentials_of payload.now)) }
{
    let mut room = [0; MESSAGELEN];
    let Some(len) = decode_into(payload, &mut room) else {
        return Ok(None);
    };
    match told_in(&room[..len]) {
        Some((user, password)) => accounts.check(user, password),
        None => Ok(None),
    }
}
