//! The lines that are shown of who leaves a channel, is invited to it, or sets its topic (RFC 2812, section 3.2).
ghost use Rattle.std.specs.Prelude.{◌≡◌, take, IfOk};
ghost use Rattle.channel_commands.specs.Lines.{part_line, kick_line, invite_line, topic_line};

use line_grammar::Octets;
use numerics::Line;
use std::alloc::{AllocError, Global};

/// The first octets of a text.
pub(crate) fn first_octets(text: &Octets, most: usize) -> Result<Octets, AllocError>
    ensures { IfOk result (λ o. o ≡ take most text.now) }
{
    let mut octets = text.clone()?.into_vec();
    octets.truncate(most);
    Ok(Octets::from_vec(octets))
}

/// The line that shows that a member leaves a channel.
pub(crate) fn part_line(
    alloc: Global,
    from: &[u8],
    channel: &[u8],
    text: &[u8],
) -> Result<Line, AllocError>
    ensures { IfOk result (λ l. l ≡ part_line from.now channel.now text.now) }
{
    if text.is_empty() {
        return Line::new(alloc, from, b"PART", &[channel]);
    }
    Line::with_text(alloc, from, b"PART", &[channel], text)
}

/// The line that shows that a member is put out of a channel.
pub(crate) fn kick_line(
    alloc: Global,
    from: &[u8],
    channel: &[u8],
    nick: &[u8],
    text: &[u8],
) -> Result<Line, AllocError>
    ensures { IfOk result (λ l. l ≡ kick_line from.now channel.now nick.now text.now) }
{
    Line::with_text(alloc, from, b"KICK", &[channel, nick], text)
}

/// The line that shows a user that it is invited.
pub(crate) fn invite_line(
    alloc: Global,
    from: &[u8],
    nick: &[u8],
    channel: &[u8],
) -> Result<Line, AllocError>
    ensures { IfOk result (λ l. l ≡ invite_line from.now nick.now channel.now) }
{
    Line::new(alloc, from, b"INVITE", &[nick, channel])
}

/// The line that shows the topic of a channel that was set just now.
pub(crate) fn topic_line(
    alloc: Global,
    from: &[u8],
    channel: &[u8],
    text: &[u8],
) -> Result<Line, AllocError>
    ensures { IfOk result (λ l. l ≡ topic_line from.now channel.now text.now) }
{
    Line::with_text(alloc, from, b"TOPIC", &[channel], text)
}
