//! TOPIC (RFC 2812, section 3.2.4).
ghost use Rattle.std.specs.Prelude.{◌≡◌, ◌∷◌, [], Some, IfOk, OnOk};
ghost use Rattle.channel_state.specs.declared.change.Change.TheVariants.{TopicSet};
ghost use Rattle.roster.specs.declared.deed.Deed.TheVariants.{Changed};
ghost use Rattle.transactions.specs.declared.effect.Effect.TheVariants.{Establish};
ghost use Rattle.transactions.specs.Words.{IsSeen, grown, prefix};
ghost use Rattle.channel_commands.specs.Lines.{topic_line};
ghost use Rattle.channel_commands.specs.Topics.{topic_shown, topic_text, topic_of, sets_topic};
ghost use Rattle.channel_commands.specs.Topics.{topic_served, topics_seen, topics};

use crate::channel_lines::{first_octets, topic_line};
use crate::finding::channel_of;
use channel_leaving::show_members;
use channel_state::Change;
use chronicle::SessionId;
use line_grammar::Octets;
use numerics::{Line, Numeric};
use std::alloc::AllocError;
use transactions::{Denial, Seen, Transaction, deny, prefix_of, tell};

/// Octets of a topic, at most.
const TOPICLEN: usize = 300;

/// Answers with the topic of a channel.
fn show_topic(tx: &mut Transaction, session: SessionId, seen: &Seen) -> Result<(), AllocError>
    ensures { OnOk result (tx.new ≡ grown tx.old (topic_shown tx.old.settings
        tx.old.facts session seen.now.name seen.now.state.topic)) }
{
    let channel = seen.name().clone()?;
    match seen.state().topic() {
        Some(topic) => {
            let topic = topic.clone()?;
            tell(tx, session, Numeric::Topic { channel, topic })
        }
        None => tell(tx, session, Numeric::NoTopic(channel)),
    }
}

/// A text, cut to what a topic may have.
#[tactic(auto, unfolding(crate::specs::Topics::topic_text))]
fn topic_text(text: &Octets) -> Result<Octets, AllocError>
    ensures { IfOk result (λ t. t ≡ topic_text text.now) }
{
    first_octets(text, TOPICLEN)
}

/// A topic, or none where it is empty.
#[tactic(auto, unfolding(crate::specs::Topics::topic_of))]
fn topic_of(text: &Octets) -> Result<Option<Octets>, AllocError>
    ensures { IfOk result (λ t. t ≡ topic_of text.now) }
{
    if text.is_empty() {
        return Ok(None);
    }
    Ok(Some(text.clone()?))
}

/// The line that shows a topic.
fn shown_topic(
    tx: &Transaction<'_>,
    session: SessionId,
    seen: &Seen,
    text: &Octets,
) -> Result<Line, AllocError>
    ensures { IfOk result
        (λ l. l ≡ topic_line (prefix tx.now.facts session) seen.now.name text.now) }
{
    let from = prefix_of(tx, session)?;
    topic_line(
        tx.alloc(),
        from.as_slice(),
        seen.name().as_slice(),
        text.as_slice(),
    )
}

/// The topic of a channel is set.
fn change_topic(tx: &mut Transaction, seen: &Seen, text: &Octets) -> Result<(), AllocError>
    requires { IsSeen tx.old.facts seen.now }
    ensures { OnOk result (tx.new
        ≡ grown tx.old (Establish (Changed seen.now.name (TopicSet (topic_of text.now))) ∷ [])) }
{
    let topic = topic_of(text)?;
    tx.establish_change(seen, Change::TopicSet { topic })
}

/// Sets the topic of a channel, which all members are shown.
#[tactic(auto, using(transactions::proofs::Replay::grown_grown))]
fn put_topic(
    tx: &mut Transaction,
    session: SessionId,
    seen: &Seen,
    text: &Octets,
) -> Result<(), AllocError>
    requires { IsSeen tx.old.facts seen.now }
    ensures { OnOk result
        (tx.new ≡ grown tx.old (sets_topic tx.old.facts session seen.now text.now)) }
{
    let line = shown_topic(tx, session, seen, text)?;
    change_topic(tx, seen, text)?;
    show_members(tx, seen, line)
}

/// Sets the topic of a channel, where the session may.
#[tactic(auto, unfolding(crate::specs::Topics::topic_served))]
fn put_topic_if_it_may(
    tx: &mut Transaction,
    session: SessionId,
    seen: &Seen,
    text: &Octets,
) -> Result<(), AllocError>
    requires { IsSeen tx.old.facts seen.now }
    ensures { OnOk result (tx.new ≡ grown tx.old
        (topic_served tx.old.settings tx.old.facts session seen.now (Some text.now))) }
{
    if seen.state().modes().topic_locked && !seen.state().is_operator(session) {
        return deny(tx, session, Denial::ChanOPrivsNeeded, seen.name());
    }
    let text = topic_text(text)?;
    put_topic(tx, session, seen, &text)
}

/// Tells or sets the topic of a channel that the session is on.
#[tactic(auto, unfolding(crate::specs::Topics::topic_served))]
fn serve_topic(
    tx: &mut Transaction,
    session: SessionId,
    seen: &Seen,
    text: &Option<Octets>,
) -> Result<(), AllocError>
    requires { IsSeen tx.old.facts seen.now }
    ensures { OnOk result (tx.new ≡ grown tx.old
        (topic_served tx.old.settings tx.old.facts session seen.now text.now)) }
{
    match text {
        Some(text) => put_topic_if_it_may(tx, session, seen, text),
        None => show_topic(tx, session, seen),
    }
}

/// Tells or sets the topic of a channel that is there.
fn serve_seen(
    tx: &mut Transaction,
    session: SessionId,
    seen: &Seen,
    text: &Option<Octets>,
) -> Result<(), AllocError>
    requires { IsSeen tx.old.facts seen.now }
    ensures { OnOk result (tx.new ≡ grown tx.old
        (topics_seen tx.old.settings tx.old.facts session [] text.now (Some seen.now))) }
{
    if !seen.state().has(session) {
        return deny(tx, session, Denial::NotOnChannel, seen.name());
    }
    serve_topic(tx, session, seen, text)
}

/// Tells the topic of a channel, or sets it to a text; an empty one clears it (RFC 2812, section 3.2.4).
pub fn set_topic(
    tx: &mut Transaction,
    session: SessionId,
    channel: &Octets,
    text: &Option<Octets>,
) -> Result<(), AllocError>
    ensures { OnOk result (tx.new ≡ grown tx.old
        (topics tx.old.settings tx.old.facts session channel.now text.now)) }
{
    match channel_of(tx, channel)? {
        Some(seen) => serve_seen(tx, session, &seen, text),
        None => deny(tx, session, Denial::NoSuchChannel, channel),
    }
}
