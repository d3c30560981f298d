//! Lines with their tags, as a receiver takes them (IRCv3 message-tags; IRCv3 server-time).
ghost use Rattle.std.specs.Prelude.{◌≡◌, ◌++◌, codes, decimal, IfOk, OnOk};
ghost use Rattle.message_tags.specs.Value.{escapes_of};
ghost use Rattle.numerics.specs.CivilTime.{time_text};
ghost use Rattle.labels_batches.specs.Rendered.{answered_tag, with_end, relayed_tags, text_as};
ghost use Rattle.labels_batches.specs.Rendered.{spelled_line, tag_block, with_time, with_tag};

use crate::{AnswerTag, Tagged};
use chronicle::{RecordMoment, RecordNumber};
use line_grammar::Octets;
use message_tags::push_escaped;
use numerics::{TimeFault, time_text};
use registration::{Cap, Caps};
use std::alloc::{AllocError, Global};

/// Adds a tag.
pub(crate) fn push_tag(block: &mut Octets, tag: &[u8]) -> Result<(), AllocError>
    ensures { OnOk result (block.new ≡ with_tag block.old tag.now) }
{
    let mark = if block.is_empty() { b"@" } else { b";" };
    block.extend_from_slice(mark)?;
    block.extend_from_slice(tag)
}

/// Room for the tags that may follow a label, and for their end.
pub(crate) const MORE_TAGS: usize = 32;

/// The tag of a label, with room for so many octets more.
fn label_tag(alloc: Global, label: &[u8], more: usize) -> Result<Octets, AllocError>
    ensures { IfOk result (λ t. t ≡ codes "@label=" ++ escapes_of label.now) }
{
    let room = label.len().saturating_mul(2).saturating_add(MORE_TAGS);
    let mut tag = Vec::with_capacity(alloc, room.saturating_add(more))?;
    tag.extend_from_slice(b"@label=")?;
    push_escaped(&mut tag, label)?;
    Ok(Octets::from_vec(tag))
}

/// The tag of a batch.
fn batch_tag(alloc: Global, number: RecordNumber) -> Result<Octets, AllocError>
    ensures { IfOk result (λ t. t ≡ codes "@batch=" ++ decimal number) }
{
    let number = number.number();
    Octets::copy_of(alloc, format!(in alloc; "@batch={number}")?.as_bytes())
}

/// The tags of an answer, with room for so many octets more.
fn answered_tag(alloc: Global, tag: &Option<AnswerTag>, more: usize) -> Result<Octets, AllocError>
    ensures { IfOk result (λ b. b ≡ answered_tag tag.now) }
{
    match tag {
        None => Ok(Octets::from_vec(Vec::with_capacity(alloc, more)?)),
        Some(AnswerTag::Label(label)) => label_tag(alloc, label.as_slice(), more),
        Some(AnswerTag::Batch(number)) => batch_tag(alloc, *number),
    }
}

/// The text of a record's moment.
fn moment_text(alloc: Global, moment: RecordMoment) -> Result<Octets, AllocError>
    ensures { IfOk result (λ t. t ≡ time_text moment) }
{
    match time_text(alloc, moment.moment().milliseconds()) {
        Ok(text) => Ok(text),
        Err(TimeFault::OutOfRange) => unreachable!(),
        Err(TimeFault::Memory) => Err(AllocError),
    }
}

/// Adds the moment.
pub(crate) fn push_moment(
    alloc: Global,
    block: &mut Octets,
    moment: RecordMoment,
) -> Result<(), AllocError>
    ensures { OnOk result (block.new ≡ with_tag block.old (codes "time=" ++ time_text moment)) }
{
    let text = moment_text(alloc, moment)?;
    let mark: &[u8] = if block.is_empty() {
        b"@time="
    } else {
        b";time="
    };
    block.extend_from_slice(mark)?;
    block.extend_from_slice(text.as_slice())
}

/// Adds the moment, where the receiver takes it.
fn push_time(
    alloc: Global,
    block: &mut Octets,
    caps: Caps,
    moment: RecordMoment,
) -> Result<(), AllocError>
    ensures { OnOk result (block.new ≡ with_time caps moment block.old) }
{
    if !caps.contains(Cap::ServerTime) {
        return Ok(());
    }
    push_moment(alloc, block, moment)
}

/// Adds the tags of another client, where the receiver takes them.
pub(crate) fn push_relayed(block: &mut Octets, caps: Caps, tags: &[u8]) -> Result<(), AllocError>
    ensures { OnOk result (block.new ≡ relayed_tags caps tags.now block.old) }
{
    if !caps.contains(Cap::MessageTags) || tags.is_empty() {
        return Ok(());
    }
    push_tag(block, tags)
}

/// The tags of a line but for those of another client, with room for so many octets more.
pub(crate) fn head_of(
    alloc: Global,
    tag: &Option<AnswerTag>,
    caps: Caps,
    moment: RecordMoment,
    more: usize,
) -> Result<Octets, AllocError>
    ensures { IfOk result (λ b. b ≡ with_time caps moment (answered_tag tag.now)) }
{
    let mut block = answered_tag(alloc, tag, more)?;
    push_time(alloc, &mut block, caps, moment)?;
    Ok(block)
}

/// The tags of a line.
fn tag_block(
    alloc: Global,
    line: &Tagged,
    caps: Caps,
    moment: RecordMoment,
) -> Result<Octets, AllocError>
    ensures { IfOk result (λ b. b ≡ tag_block caps moment line.now) }
{
    let mut block = head_of(alloc, &line.tag, caps, moment, 0)?;
    push_relayed(&mut block, caps, line.line.tags())?;
    Ok(block)
}

/// Ends tags.
pub(crate) fn end(block: &mut Octets) -> Result<(), AllocError>
    ensures { OnOk result (block.new ≡ with_end block.old) }
{
    if block.is_empty() {
        return Ok(());
    }
    block.extend_from_slice(b" ")
}

/// Adds a line with its tags.
#[tactic(auto, unfolding(crate::specs::Rendered::spelled_line))]
fn push_line(
    alloc: Global,
    text: &mut Octets,
    line: &Tagged,
    caps: Caps,
    moment: RecordMoment,
) -> Result<(), AllocError>
    ensures { OnOk result (text.new ≡ text.old ++ spelled_line caps moment line.now) }
{
    let mut block = tag_block(alloc, line, caps, moment)?;
    end(&mut block)?;
    text.extend_from_slice(block.as_slice())?;
    text.extend_from_slice(line.line.octets())
}

/// Lines as a receiver of these capabilities takes them, at their record's moment, each cut to 510 octets without
/// its tags and ended by CR LF: the tag of an answer first, then the moment (server-time), then the tags that
/// another client sent (message-tags).
pub fn render(
    alloc: Global,
    lines: &[Tagged],
    caps: Caps,
    moment: RecordMoment,
) -> Result<Octets, AllocError>
    ensures { IfOk result (λ t. t ≡ text_as caps moment lines.now) }
{
    let mut text = Octets::from_vec(Vec::new(alloc));
    for line in lines {
        push_line(alloc, &mut text, line, caps, moment)?;
    }
    Ok(text)
}
