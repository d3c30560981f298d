//! The lines that are shown, and those that answer without a number (RFC 2812, sections 2.3.1, 3.1.2, 3.1.7, 3.2.1 and
//! 3.7.3; IRCv3 Capability Negotiation, SASL 3.1, extended-join and away-notify).
ghost use Rattle.std.specs.Prelude.{◌≡◌, ◌++◌, ◌∷◌, [], codes, true, unwrap_or, option_copied, OnOk, IfOk};
ghost use Rattle.numerics.specs.Outgoing.{line};
ghost use Rattle.transactions.specs.Lines.{title, prefix, join_line, extended_join_line, away_line};
ghost use Rattle.transactions.specs.Lines.{quit_line, nick_line, pong_line, cap_line, go_on_line};

use crate::transaction::Transaction;
use chronicle::SessionId;
use line_grammar::{Octets, needs_colon};
use numerics::Line;
use std::alloc::{AllocError, Global};

/// A name, or a star before it is known.
pub fn title_text(name: Option<&Octets>) -> &[u8]
    ensures { result.now ≡ title (option_copied name.entry) }
{
    match name {
        Some(name) => name.as_slice(),
        None => b"*",
    }
}

/// Adds a name, or a star before it is known.
fn push_title(text: &mut Vec<u8>, name: Option<&Octets>) -> Result<(), AllocError>
    ensures { OnOk result (text.new.items ≡ text.old.items ++ title (option_copied name.entry)) }
{
    text.extend_from_slice(title_text(name))
}

/// Octets that are reserved for `nick!user@host`. A longer one has them grow.
const PREFIX_ROOM: usize = 96;

/// `nick!user@host`, with a star for a name that isn't known yet.
fn prefix_with(
    alloc: Global,
    nick: Option<&Octets>,
    user: Option<&Octets>,
    host: &[u8],
) -> Result<Octets, AllocError>
    ensures { IfOk result (λ p. p ≡ title (option_copied nick.entry) ++ codes "!"
        ++ title (option_copied user.entry) ++ codes "@" ++ host.now) }
{
    let mut text = Vec::with_capacity(alloc, PREFIX_ROOM)?;
    push_title(&mut text, nick)?;
    text.push(b'!')?;
    push_title(&mut text, user)?;
    text.push(b'@')?;
    text.extend_from_slice(host)?;
    Ok(Octets::from_vec(text))
}

/// Whom the lines of a session come from: `nick!user@host`, with a star for a name that isn't known yet. Where the
/// record established no fact yet its names are found by one look-up.
#[tactic(auto, unfolding(crate::specs::Lines::prefix))]
pub fn prefix_of(tx: &Transaction<'_>, session: SessionId) -> Result<Octets, AllocError>
    ensures { IfOk result (λ p. p ≡ prefix tx.now.facts session) }
{
    if tx.tells_nothing() {
        let (nick, user, host) = tx.before().names_of(session);
        return prefix_with(tx.alloc(), nick, user, host);
    }
    let enrol = tx.enrol_of(session);
    prefix_with(tx.alloc(), enrol.nick, enrol.user, tx.host_of(session))
}

/// The line that shows a join of a channel.
pub fn join_line(alloc: Global, from: &[u8], channel: &[u8]) -> Result<Line, AllocError>
    ensures { IfOk result (λ l. l ≡ join_line from.now channel.now) }
{
    Line::new(alloc, from, b"JOIN", &[channel])
}

/// A text, or none before it is known.
fn text_or_none(text: Option<&Octets>) -> &[u8]
    ensures { result.now ≡ unwrap_or (option_copied text.entry) [] }
{
    match text {
        Some(text) => text.as_slice(),
        None => b"",
    }
}

/// A join with these words.
fn extended_join_of(
    alloc: Global,
    from: &[u8],
    channel: &[u8],
    account: &[u8],
    real: &[u8],
) -> Result<Line, AllocError>
    ensures { IfOk result
        (λ l. l ≡ line from.now (codes "JOIN") (channel.now ∷ account.now ∷ real.now ∷ []) true) }
{
    Line::with_text(alloc, from, b"JOIN", &[channel, account], real)
}

/// The line that shows a join to who takes extended-join: with the account of who joined, or a star, and its real
/// name.
pub fn extended_join_line(
    alloc: Global,
    from: &[u8],
    channel: &[u8],
    account: Option<&Octets>,
    real: Option<&Octets>,
) -> Result<Line, AllocError>
    ensures { IfOk result (λ l. l ≡ extended_join_line from.now channel.now
        (option_copied account.entry) (option_copied real.entry)) }
{
    extended_join_of(
        alloc,
        from,
        channel,
        title_text(account),
        text_or_none(real),
    )
}

/// The line that shows that a session is away with a text, or here again where there is none.
pub fn away_line(alloc: Global, from: &[u8], text: Option<&Octets>) -> Result<Line, AllocError>
    ensures { IfOk result (λ l. l ≡ away_line from.now (option_copied text.entry)) }
{
    match text {
        Some(text) => Line::with_text(alloc, from, b"AWAY", &[], text.as_slice()),
        None => Line::new(alloc, from, b"AWAY", &[]),
    }
}

/// The line that shows that a session is gone.
pub fn quit_line(alloc: Global, from: &[u8], text: &[u8]) -> Result<Line, AllocError>
    ensures { IfOk result (λ l. l ≡ quit_line from.now text.now) }
{
    Line::with_text(alloc, from, b"QUIT", &[], text)
}

/// The line that shows a change of nickname.
pub fn nick_line(alloc: Global, from: &[u8], new: &[u8]) -> Result<Line, AllocError>
    ensures { IfOk result (λ l. l ≡ nick_line from.now new.now) }
{
    Line::new(alloc, from, b"NICK", &[new])
}

/// The line that answers PING with its token.
pub fn pong_line(alloc: Global, server: &[u8], token: &[u8]) -> Result<Line, AllocError>
    ensures { IfOk result (λ l. l ≡ pong_line server.now token.now) }
{
    if needs_colon(token) {
        return Line::with_text(alloc, server, b"PONG", &[server], token);
    }
    Line::new(alloc, server, b"PONG", &[server, token])
}

/// The line that answers CAP with a list of capabilities, after the subcommand that it belongs to.
pub fn cap_line(
    alloc: Global,
    server: &[u8],
    to: &[u8],
    subcommand: &[u8],
    list: &[u8],
) -> Result<Line, AllocError>
    ensures { IfOk result (λ l. l ≡ cap_line server.now to.now subcommand.now list.now) }
{
    Line::with_text(alloc, server, b"CAP", &[to, subcommand], list)
}

/// The line by which a client is to go on with its exchange of SASL.
pub fn go_on_line(alloc: Global) -> Result<Line, AllocError>
    ensures { IfOk result (λ l. l ≡ go_on_line) }
{
    Line::nameless(alloc, b"AUTHENTICATE", b"+")
}
