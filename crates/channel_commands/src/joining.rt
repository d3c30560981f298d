//! JOIN (RFC 2812, section 3.2.1; RFC 2811, section 4).
ghost use Rattle.std.specs.Prelude.{◌≡◌, ◌∷◌, ◌+◌, ◌<◌, [], true, false, length, Some, None, IfOk, OnOk};
ghost use Rattle.channel_state.specs.State.{among};
ghost use Rattle.roster.specs.LookBack.{has_member};
ghost use Rattle.transactions.specs.Words.{IsSeen, deeds_of, grown};
ghost use Rattle.query_commands.specs.Telling.{telling_more};
ghost use Rattle.channel_commands.specs.Each.{each_counted};
ghost use Rattle.channel_commands.specs.Found.{channel_of};
ghost use Rattle.channel_commands.specs.Joining.{arrival_told, arrives, makes, enters, enters_unless};
ghost use Rattle.channel_commands.specs.Joining.{joins_seen, joins_one, joins};

use crate::arriving::introduce;
use crate::bars::bar_of;
use crate::finding::channel_of;
use crate::joined::{Joined, followed_by};
use casemapping::is_channel;
use channel_state::Change;
use chronicle::SessionId;
use command_params::JoinTarget;
use line_grammar::Octets;
use numerics::Numeric;
use query_commands::{ReplyBuilder, push_members};
use std::alloc::AllocError;
use transactions::{Denial, Seen, Transaction, deny, prefix_of};

/// On how many channels a session may be.
const MAX_CHANNELS: usize = 20;

// ---- a session on a channel that it joined just now

/// Adds what a session is told.
#[tactic(auto, using(query_commands::proofs::Told::more_more))]
fn welcome(
    tx: &Transaction<'_>,
    telling: &mut ReplyBuilder<'_>,
    session: SessionId,
    joined: &Joined<'_>,
) -> Result<(), AllocError>
    requires { among session joined.now.state.members ≡ true }
    ensures { OnOk result (telling.new ≡ telling_more telling.old
        (arrival_told tx.now.settings tx.now.base session joined.now)) }
{
    if let Some(topic) = joined.state.topic() {
        let channel = joined.name.clone()?;
        let topic = topic.clone()?;
        telling.push(Numeric::Topic { channel, topic })?;
    }
    push_members(
        tx,
        telling,
        session,
        joined.name,
        joined.state,
        joined.members,
    )
}

/// All members are shown that a session joined, which is told of the channel. What it is told is spelled before,
/// since nobody's nickname changes.
fn enter(
    tx: &mut Transaction,
    session: SessionId,
    from: &[u8],
    joined: &Joined<'_>,
) -> Result<(), AllocError>
    requires { among session joined.now.state.members ≡ true }
    ensures { OnOk result (tx.new ≡ grown tx.old
        (arrives tx.old.settings tx.old.base tx.old.facts session from.now joined.now)) }
{
    let mut telling = ReplyBuilder::new(tx, session)?;
    welcome(tx, &mut telling, session, joined)?;
    introduce(tx, session, from, joined)?;
    telling.finish(tx)
}

// ---- JOIN of one channel

/// A session makes a channel that isn't there.
#[tactic(auto, using(transactions::proofs::Replay::grown_grown, crate::proofs::Rows::on_it))]
fn make(
    tx: &mut Transaction,
    session: SessionId,
    from: &[u8],
    channel: &Octets,
) -> Result<(), AllocError>
    requires { has_member tx.old.facts channel.now ≡ false }
    ensures { OnOk result (tx.new ≡ grown tx.old
        (makes tx.old.settings tx.old.base tx.old.facts session from.now channel.now)) }
{
    let seen = tx.make(session, channel)?;
    let joined = Joined {
        name: seen.name(),
        state: seen.state(),
        members: seen.state().members(),
    };
    enter(tx, session, from, &joined)
}

/// A session joins a channel that is there, whose members are looked up where it is kept.
#[tactic(auto, using(crate::proofs::Rows::some_joined, crate::proofs::Rows::last_on_it))]
fn come(
    tx: &mut Transaction,
    session: SessionId,
    from: &[u8],
    seen: &Seen,
) -> Result<(), AllocError>
    requires seen { IsSeen tx.old.facts seen.now }
    requires away { among session seen.now.state.members ≡ false }
    ensures { OnOk result (tx.new ≡ grown tx.old
        (enters tx.old.settings tx.old.base tx.old.facts session from.now seen.now)) }
{
    let members = followed_by(tx.alloc(), seen.state().members(), session)?;
    tx.establish_change(seen, Change::Joined { session })?;
    let joined = Joined {
        name: seen.name(),
        state: seen.state(),
        members: members.as_slice(),
    };
    enter(tx, session, from, &joined)
}

/// Joins a channel that is there, unless something bars the session. On how many channels it is then.
#[tactic(auto, using(crate::proofs::Rows::entered_quiet))]
fn come_unless(
    tx: &mut Transaction,
    session: SessionId,
    from: &[u8],
    count: usize,
    seen: &Seen,
    bar: Option<Denial>,
) -> Result<usize, AllocError>
    requires seen { IsSeen tx.old.facts seen.now }
    requires away { among session seen.now.state.members ≡ false }
    requires few { count < 20 }
    ensures grown { OnOk result (tx.new ≡ grown tx.old (enters_unless tx.old.settings
        tx.old.base tx.old.facts session from.now seen.now bar)) }
    ensures count { IfOk result (λ n. n ≡ count + length (deeds_of (enters_unless tx.old.settings
        tx.old.base tx.old.facts session from.now seen.now bar))) }
{
    match bar {
        Some(bar) => {
            deny(tx, session, bar, seen.name())?;
            Ok(count)
        }
        None => {
            come(tx, session, from, seen)?;
            Ok(count + 1)
        }
    }
}

/// Joins a channel that is there.
fn join_there(
    tx: &mut Transaction,
    session: SessionId,
    from: &[u8],
    count: usize,
    target: &JoinTarget,
    seen: &Seen,
) -> Result<usize, AllocError>
    requires { IsSeen tx.old.facts seen.now }
    ensures grown { OnOk result (tx.new ≡ grown tx.old (joins_seen tx.old.settings
        tx.old.base tx.old.facts session from.now count target.now (Some seen.now))) }
    ensures count { IfOk result (λ n. n ≡ count + length (deeds_of (joins_seen tx.old.settings
        tx.old.base tx.old.facts session from.now count target.now (Some seen.now)))) }
{
    if seen.state().has(session) {
        return Ok(count);
    }
    if count >= MAX_CHANNELS {
        deny(tx, session, Denial::TooManyChannels, seen.name())?;
        return Ok(count);
    }
    let bar = bar_of(seen.state(), session, from, &target.key);
    come_unless(tx, session, from, count, seen, bar)
}

/// Joins a channel that isn't there.
#[tactic(auto, using(crate::proofs::Rows::entered_quiet))]
fn join_new(
    tx: &mut Transaction,
    session: SessionId,
    from: &[u8],
    count: usize,
    target: &JoinTarget,
) -> Result<usize, AllocError>
    requires { has_member tx.old.facts target.now.channel ≡ false }
    ensures grown { OnOk result (tx.new ≡ grown tx.old (joins_seen tx.old.settings
        tx.old.base tx.old.facts session from.now count target.now None)) }
    ensures count { IfOk result (λ n. n ≡ count + length (deeds_of (joins_seen tx.old.settings
        tx.old.base tx.old.facts session from.now count target.now None))) }
{
    let channel = &target.channel;
    if count >= MAX_CHANNELS {
        deny(tx, session, Denial::TooManyChannels, channel)?;
        return Ok(count);
    }
    make(tx, session, from, channel)?;
    Ok(count + 1)
}

/// Joins the channel of a name that has the shape of one.
fn join_named(
    tx: &mut Transaction,
    session: SessionId,
    from: &[u8],
    count: usize,
    target: &JoinTarget,
) -> Result<usize, AllocError>
    ensures grown { OnOk result (tx.new
        ≡ grown tx.old (joins_seen tx.old.settings tx.old.base tx.old.facts session
        from.now count target.now (channel_of tx.old.facts target.now.channel))) }
    ensures count { IfOk result (λ n. n ≡ count + length
        (deeds_of (joins_seen tx.old.settings tx.old.base tx.old.facts session
        from.now count target.now (channel_of tx.old.facts target.now.channel)))) }
{
    match channel_of(tx, &target.channel)? {
        Some(seen) => join_there(tx, session, from, count, target, &seen),
        None => join_new(tx, session, from, count, target),
    }
}

/// Joins one channel.
fn join_one(
    tx: &mut Transaction,
    session: SessionId,
    from: &[u8],
    count: usize,
    target: &JoinTarget,
) -> Result<usize, AllocError>
    ensures grown { OnOk result (tx.new ≡ grown tx.old (joins_one tx.old.settings
        tx.old.base session from.now tx.old.facts count target.now)) }
    ensures count { IfOk result (λ n. n ≡ count + length (deeds_of (joins_one tx.old.settings
        tx.old.base session from.now tx.old.facts count target.now))) }
{
    if !is_channel(target.channel.as_slice()) {
        deny(tx, session, Denial::NoSuchChannel, &target.channel)?;
        return Ok(count);
    }
    join_named(tx, session, from, count, target)
}

// ---- JOIN

/// Joins channels, one after another.
fn join_each(
    tx: &mut Transaction,
    session: SessionId,
    from: &[u8],
    count: usize,
    targets: &[JoinTarget],
) -> Result<(), AllocError>
    ensures { OnOk result (tx.new ≡ grown tx.old (each_counted (joins_one tx.old.settings
        tx.old.base session from.now) tx.old.facts count targets.now)) }
{
    let mut joined = count;
    for target in targets {
        joined = join_one(tx, session, from, joined, target)?;
    }
    Ok(())
}

/// A session joins channels, or makes those that aren't there (RFC 2812, section 3.2.1).
pub fn join(
    tx: &mut Transaction,
    session: SessionId,
    targets: &[JoinTarget],
) -> Result<(), AllocError>
    requires first { tx.old.facts ≡ tx.old.base }
    ensures { OnOk result (tx.new
        ≡ grown tx.old (joins tx.old.settings tx.old.facts session targets.now)) }
{
    let from = prefix_of(tx, session)?;
    let count = tx.before().channel_count_of(session);
    join_each(tx, session, from.as_slice(), count, targets)
}
