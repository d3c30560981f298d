//! What a letter of MODE does to a channel (RFC 2812, section 3.2.3; RFC 2811, sections 4.1 to 4.3).
ghost use Rattle.std.specs.Prelude.{◌≡◌, decimal, take, IfOk};
ghost use Rattle.roster.specs.LookBack.{user_named};
ghost use Rattle.mode_commands.specs.Steps.{agree, ban_step, flag_of, flag_step, has_ban, has_key, has_limit};
ghost use Rattle.mode_commands.specs.Steps.{has_rank, key_given, key_lifted, key_set, key_step, limit_given};
ghost use Rattle.mode_commands.specs.Steps.{limit_lifted, limit_set, limit_step, mask_step, member_step};
ghost use Rattle.mode_commands.specs.Steps.{rank_step, shown_with, step, user_step};

use crate::letters::ModeChange;
use crate::parameters::{full_mask_of, is_key, limit_of};
use casemapping::is_same;
use channel_state::{Change, ChannelState, Flag, Rank};
use chronicle::SessionId;
use line_grammar::{Octets, needs_colon};
use roster::Roster;
use std::alloc::{AllocError, Global};
use transactions::title_of;

/// How many masks a channel bans at most.
const MAX_BANS: usize = 60;

/// How many octets a key has at most.
const MAX_KEY: usize = 23;

/// Why a letter is refused.
#[derive(Drop)]
pub enum Refusal {
    /// Its parameter is missing.
    LacksParameter,
    /// It names nobody.
    Nobody { nick: Octets },
    /// It names who isn't on the channel.
    NotMember { nick: Octets },
    /// It is no mode.
    Unknown { letter: u8 },
}

/// What comes of a letter.
#[derive(Drop)]
pub enum ModeStep {
    /// It has no effect.
    Nothing,
    /// It is refused.
    Refused { refusal: Refusal },
    /// The channel changes, which is shown.
    Changes { change: Change, shown: ModeChange },
}

/// Whether two tests say the same.
pub(crate) fn agree(a: bool, b: bool) -> bool
    ensures { result ≡ agree a b }
{
    if a { b } else { !b }
}

/// A change with the parameter that is shown.
fn shown_with(asked: &ModeChange, param: Option<Octets>) -> ModeChange
    ensures { result ≡ shown_with asked.now param }
{
    ModeChange {
        on: asked.on,
        letter: asked.letter,
        param,
    }
}

// ---- flags

/// The flag of a letter.
#[tactic(auto, unfolding(crate::specs::Steps::flag_of))]
fn flag_of(letter: u8) -> Option<Flag>
    ensures { result ≡ flag_of letter }
{
    match letter {
        b'i' => Some(Flag::InviteOnly),
        b'm' => Some(Flag::Moderated),
        b'n' => Some(Flag::NoOutside),
        b's' => Some(Flag::Secret),
        b't' => Some(Flag::TopicLocked),
        _ => None,
    }
}

fn flag_step(state: &ChannelState, asked: &ModeChange, flag: Option<Flag>) -> ModeStep
    ensures { result ≡ flag_step state.now.state asked.now flag }
{
    let Some(flag) = flag else {
        return ModeStep::Refused {
            refusal: Refusal::Unknown {
                letter: asked.letter,
            },
        };
    };
    if agree(asked.on, state.modes().is_set(flag)) {
        return ModeStep::Nothing;
    }
    ModeStep::Changes {
        change: Change::FlagSet { flag, on: asked.on },
        shown: shown_with(asked, None),
    }
}

// ---- ranks

fn has_rank(state: &ChannelState, rank: Rank, session: SessionId) -> bool
    ensures { result ≡ has_rank state.now.state rank session }
{
    match rank {
        Rank::Operator => state.is_operator(session),
        Rank::Voice => state.has_voice(session),
    }
}

/// The rank of a user, with its nickname as it is spelled.
fn member_step(
    state: &ChannelState,
    rank: Rank,
    asked: &ModeChange,
    nick: Octets,
    session: SessionId,
) -> ModeStep
    ensures { result ≡ member_step state.now.state rank asked.now nick session }
{
    if !state.has(session) {
        return ModeStep::Refused {
            refusal: Refusal::NotMember { nick },
        };
    }
    if agree(asked.on, has_rank(state, rank, session)) {
        return ModeStep::Nothing;
    }
    ModeStep::Changes {
        change: Change::RankSet {
            session,
            rank,
            on: asked.on,
        },
        shown: shown_with(asked, Some(nick)),
    }
}

fn user_step(
    alloc: Global,
    roster: &Roster,
    state: &ChannelState,
    rank: Rank,
    asked: &ModeChange,
    nick: &Octets,
) -> Result<ModeStep, AllocError>
    ensures { IfOk result (λ x. x ≡ user_step roster.now.facts state.now.state rank asked.now
        nick.now (user_named roster.now.facts nick.now)) }
{
    match roster.find(nick.as_slice()) {
        Some(session) => {
            let spelled = title_of(alloc, roster.nick_of(session))?;
            Ok(member_step(state, rank, asked, spelled, session))
        }
        None => {
            let nick = nick.clone()?;
            Ok(ModeStep::Refused {
                refusal: Refusal::Nobody { nick },
            })
        }
    }
}

fn rank_step(
    alloc: Global,
    roster: &Roster,
    state: &ChannelState,
    rank: Rank,
    asked: &ModeChange,
) -> Result<ModeStep, AllocError>
    ensures { IfOk result
        (λ x. x ≡ rank_step roster.now.facts state.now.state rank asked.now asked.now.param) }
{
    match &asked.param {
        Some(nick) => user_step(alloc, roster, state, rank, asked, nick),
        None => Ok(ModeStep::Refused {
            refusal: Refusal::LacksParameter,
        }),
    }
}

// ---- bans

fn has_ban(state: &ChannelState, mask: &[u8]) -> bool
    ensures { result ≡ has_ban state.now.state mask.now }
{
    state
        .bans()
        .iter()
        .any(|other| is_same(other.as_slice(), mask))
}

/// A completed mask is banned, or not any more.
fn mask_step(state: &ChannelState, asked: &ModeChange, mask: Octets) -> Result<ModeStep, AllocError>
    ensures { IfOk result (λ x. x ≡ mask_step state.now.state asked.now mask) }
{
    let has = has_ban(state, mask.as_slice());
    let shown = mask.clone()?;
    let shown = shown_with(asked, Some(shown));
    if asked.on {
        if has || state.bans().len() >= MAX_BANS {
            return Ok(ModeStep::Nothing);
        }
        let change = Change::BanSet { mask };
        return Ok(ModeStep::Changes { change, shown });
    }
    if !has {
        return Ok(ModeStep::Nothing);
    }
    let change = Change::BanLifted { mask };
    Ok(ModeStep::Changes { change, shown })
}

fn ban_step(alloc: Global, state: &ChannelState, asked: &ModeChange) -> Result<ModeStep, AllocError>
    ensures { IfOk result (λ x. x ≡ ban_step state.now.state asked.now asked.now.param) }
{
    let Some(mask) = &asked.param else {
        return Ok(ModeStep::Nothing);
    };
    if needs_colon(mask.as_slice()) {
        return Ok(ModeStep::Nothing);
    }
    let mask = full_mask_of(alloc, mask.as_slice())?;
    mask_step(state, asked, mask)
}

// ---- keys

fn has_key(old: &Option<Octets>, key: &Octets) -> bool
    ensures { result ≡ has_key old.now key.now }
{
    match old {
        Some(old) => old == key,
        None => false,
    }
}

/// A key is set.
fn key_set(state: &ChannelState, asked: &ModeChange, key: Octets) -> Result<ModeStep, AllocError>
    ensures { IfOk result (λ x. x ≡ key_set state.now.state asked.now key) }
{
    if has_key(&state.modes().key, &key) {
        return Ok(ModeStep::Nothing);
    }
    let shown = key.clone()?;
    Ok(ModeStep::Changes {
        change: Change::KeySet { key: Some(key) },
        shown: shown_with(asked, Some(shown)),
    })
}

/// The first octets of a key.
fn cut_key(alloc: Global, key: &[u8]) -> Result<Octets, AllocError>
    ensures { IfOk result (λ o. o ≡ take 23 key.now) }
{
    let mut cut = Vec::from_slice(alloc, key)?;
    cut.truncate(MAX_KEY);
    Ok(Octets::from_vec(cut))
}

fn key_given(
    alloc: Global,
    state: &ChannelState,
    asked: &ModeChange,
) -> Result<ModeStep, AllocError>
    ensures { IfOk result (λ x. x ≡ key_given state.now.state asked.now asked.now.param) }
{
    let Some(key) = &asked.param else {
        return Ok(ModeStep::Refused {
            refusal: Refusal::LacksParameter,
        });
    };
    if !is_key(key.as_slice()) {
        return Ok(ModeStep::Nothing);
    }
    let key = cut_key(alloc, key.as_slice())?;
    key_set(state, asked, key)
}

fn key_lifted(
    alloc: Global,
    state: &ChannelState,
    asked: &ModeChange,
) -> Result<ModeStep, AllocError>
    ensures { IfOk result (λ x. x ≡ key_lifted state.now.state asked.now) }
{
    if state.modes().key.is_none() {
        return Ok(ModeStep::Nothing);
    }
    let shown = Octets::copy_of(alloc, b"*")?;
    Ok(ModeStep::Changes {
        change: Change::KeySet { key: None },
        shown: shown_with(asked, Some(shown)),
    })
}

fn key_step(alloc: Global, state: &ChannelState, asked: &ModeChange) -> Result<ModeStep, AllocError>
    ensures { IfOk result (λ x. x ≡ key_step state.now.state asked.now asked.now.param) }
{
    if asked.on {
        return key_given(alloc, state, asked);
    }
    key_lifted(alloc, state, asked)
}

// ---- limits

fn has_limit(old: Option<u64>, limit: u64) -> bool
    ensures { result ≡ has_limit old limit }
{
    match old {
        Some(old) => old == limit,
        None => false,
    }
}

/// A number in decimal.
pub(crate) fn decimal(alloc: Global, number: u64) -> Result<Octets, AllocError>
    ensures { IfOk result (λ t. t ≡ decimal number) }
{
    Octets::copy_of(alloc, format!(in alloc; "{number}")?.as_bytes())
}

fn limit_set(
    alloc: Global,
    state: &ChannelState,
    asked: &ModeChange,
    limit: Option<u64>,
) -> Result<ModeStep, AllocError>
    ensures { IfOk result (λ x. x ≡ limit_set state.now.state asked.now limit) }
{
    let Some(limit) = limit else {
        return Ok(ModeStep::Nothing);
    };
    if has_limit(state.modes().limit, limit) {
        return Ok(ModeStep::Nothing);
    }
    let shown = decimal(alloc, limit)?;
    Ok(ModeStep::Changes {
        change: Change::LimitSet { limit: Some(limit) },
        shown: shown_with(asked, Some(shown)),
    })
}

fn limit_given(
    alloc: Global,
    state: &ChannelState,
    asked: &ModeChange,
) -> Result<ModeStep, AllocError>
    ensures { IfOk result (λ x. x ≡ limit_given state.now.state asked.now asked.now.param) }
{
    let Some(text) = &asked.param else {
        return Ok(ModeStep::Refused {
            refusal: Refusal::LacksParameter,
        });
    };
    let limit = limit_of(text.as_slice());
    limit_set(alloc, state, asked, limit)
}

fn limit_lifted(state: &ChannelState, asked: &ModeChange) -> ModeStep
    ensures { result ≡ limit_lifted state.now.state asked.now }
{
    if state.modes().limit.is_none() {
        return ModeStep::Nothing;
    }
    ModeStep::Changes {
        change: Change::LimitSet { limit: None },
        shown: shown_with(asked, None),
    }
}

fn limit_step(
    alloc: Global,
    state: &ChannelState,
    asked: &ModeChange,
) -> Result<ModeStep, AllocError>
    ensures { IfOk result (λ x. x ≡ limit_step state.now.state asked.now asked.now.param) }
{
    if asked.on {
        return limit_given(alloc, state, asked);
    }
    Ok(limit_lifted(state, asked))
}

// ---- any letter

/// What comes of a letter. Users are looked up in the roster before the line.
#[tactic(auto, unfolding(crate::specs::Steps::step))]
pub(crate) fn step_of(
    alloc: Global,
    roster: &Roster,
    state: &ChannelState,
    asked: &ModeChange,
) -> Result<ModeStep, AllocError>
    ensures { IfOk result (λ x. x ≡ step roster.now.facts state.now.state asked.now) }
{
    match asked.letter {
        b'o' => rank_step(alloc, roster, state, Rank::Operator, asked),
        b'v' => rank_step(alloc, roster, state, Rank::Voice, asked),
        b'b' => ban_step(alloc, state, asked),
        b'k' => key_step(alloc, state, asked),
        b'l' => limit_step(alloc, state, asked),
        letter => Ok(flag_step(state, asked, flag_of(letter))),
    }
}
