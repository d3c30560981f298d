//! The text of an answer, spelled from its lines.
ghost use Rattle.std.specs.Prelude.{◌≡◌, ◌∷◌, ◌++◌, [], map, Some, None, IfOk, IfErr, OnOk, true};
ghost use Rattle.std.specs.List.{flat_map};
ghost use Rattle.labels_batches.specs.Answers.{whole_answer, with_label, tagged_as, wrap_of};
ghost use Rattle.labels_batches.specs.Headed.{batched_as, with_head, is_bare, label_mark};
ghost use Rattle.labels_batches.specs.Rendered.{with_end, relayed_tags, text_as, spelled_line};

use crate::AnswerTag;
use crate::answers::{ack, batch_ends, batch_opens};
use crate::rendering::{MORE_TAGS, end, head_of, push_relayed};
use chronicle::{RecordMoment, RecordNumber};
use line_grammar::Octets;
use numerics::Line;
use registration::{Cap, Caps};
use std::alloc::{AllocError, Global};
use std::slice;

/// Who takes an answer, and when.
#[derive(Clone, Copy)]
pub struct Receiver {
    pub caps: Caps,
    pub moment: RecordMoment,
}

/// Adds the tags of another client after those that a line has, and the space that ends them.
fn push_tags(text: &mut Vec<u8>, head: &[u8], caps: Caps, tags: &[u8]) -> Result<(), AllocError>
    ensures { OnOk result
        (text.new.items ≡ text.old.items ++ with_end (relayed_tags caps tags.now head.now)) }
{
    if caps.contains(Cap::MessageTags) && !tags.is_empty() {
        text.extend_from_slice(head)?;
        text.extend_from_slice(if head.is_empty() { b"@" } else { b";" })?;
        text.extend_from_slice(tags)?;
        return text.extend_from_slice(b" ");
    }
    if head.is_empty() {
        return Ok(());
    }
    text.extend_from_slice(head)?;
    text.extend_from_slice(b" ")
}

/// Adds a line after tags.
fn push_headed(text: &mut Vec<u8>, head: &[u8], caps: Caps, line: &Line) -> Result<(), AllocError>
    ensures { OnOk result (text.new.items ≡ text.old.items ++ with_head caps head.now line.now) }
{
    push_tags(text, head, caps, line.tags())?;
    text.extend_from_slice(line.octets())
}

/// Adds lines, each after the same tags.
fn push_all_headed(
    text: &mut Vec<u8>,
    head: &[u8],
    caps: Caps,
    lines: &[Line],
) -> Result<(), AllocError>
    ensures { OnOk result
        (text.new.items ≡ text.old.items ++ flat_map (with_head caps head.now) lines.now) }
{
    for line in lines {
        push_headed(text, head, caps, line)?;
    }
    Ok(())
}

/// How many octets lines have after as many of tags, or as many as can be counted.
fn length_of(head: &[u8], lines: &[Line]) -> usize {
    let mut length = 0usize;
    for line in lines {
        let tags = head.len().saturating_add(line.tags().len());
        length = length
            .saturating_add(tags)
            .saturating_add(line.octets().len());
    }
    length
        .saturating_add(lines.len())
        .saturating_add(lines.len())
}

/// Adds lines that all have one tag of an answer, or none.
#[tactic(auto, using(crate::proofs::AnswerTexts::rendered_lines))]
fn push_lines(
    alloc: Global,
    text: &mut Vec<u8>,
    tag: &Option<AnswerTag>,
    lines: &[Line],
    to: &Receiver,
) -> Result<(), AllocError>
    ensures { OnOk result (text.new.items ≡ text.old.items ++ text_as to.now.caps to.now.moment
        (map (tagged_as tag.now) lines.now)) }
{
    if lines.is_empty() {
        return Ok(());
    }
    let head = head_of(alloc, tag, to.caps, to.moment, 0)?;
    text.reserve(length_of(head.as_slice(), lines))?;
    push_all_headed(text, head.as_slice(), to.caps, lines)
}

/// Adds lines that have no tag of an answer.
fn push_untagged(
    alloc: Global,
    text: &mut Vec<u8>,
    lines: &[Line],
    to: &Receiver,
) -> Result<(), AllocError>
    ensures { OnOk result (text.new.items
        ≡ text.old.items ++ text_as to.now.caps to.now.moment (map (tagged_as None) lines.now)) }
{
    push_lines(alloc, text, &None, lines, to)
}

/// Adds a line that has a tag of an answer, or none.
fn push_line(
    alloc: Global,
    text: &mut Vec<u8>,
    tag: &Option<AnswerTag>,
    line: &Line,
    to: &Receiver,
) -> Result<(), AllocError>
    ensures { OnOk result (text.new.items
        ≡ text.old.items ++ text_as to.now.caps to.now.moment (tagged_as tag.now line.now ∷ [])) }
{
    push_lines(alloc, text, tag, slice::from_ref(line), to)
}

/// Adds a batch of lines.
#[tactic(auto, using(crate::proofs::AnswerTexts::rendered_batch))]
fn push_batch(
    alloc: Global,
    text: &mut Vec<u8>,
    server: &[u8],
    label: &Option<AnswerTag>,
    number: RecordNumber,
    lines: &[Line],
    to: &Receiver,
) -> Result<(), AllocError>
    ensures { OnOk result (text.new.items ≡ text.old.items ++ text_as to.now.caps to.now.moment
        (batched_as server.now label.now number lines.now)) }
{
    push_line(alloc, text, label, &batch_opens(alloc, server, number)?, to)?;
    push_lines(alloc, text, &Some(AnswerTag::Batch(number)), lines, to)?;
    push_line(alloc, text, &None, &batch_ends(alloc, server, number)?, to)
}

/// Adds the answer of a line that has a label.
fn push_labelled(
    alloc: Global,
    text: &mut Vec<u8>,
    server: &[u8],
    label: Octets,
    number: RecordNumber,
    lines: &[Line],
    to: &Receiver,
) -> Result<(), AllocError>
    ensures { OnOk result (text.new.items ≡ text.old.items ++ text_as to.now.caps to.now.moment
        (with_label server.now label number lines.now)) }
{
    let label = Some(AnswerTag::Label(label));
    match lines.len() {
        0 => push_line(alloc, text, &label, &ack(alloc, server)?, to),
        1 => push_lines(alloc, text, &label, lines, to),
        _ => push_batch(alloc, text, server, &label, number, lines, to),
    }
}

/// Adds the answer of a line.
fn push_answer(
    alloc: Global,
    text: &mut Vec<u8>,
    server: &[u8],
    label: Option<Octets>,
    number: RecordNumber,
    lines: &[Line],
    to: &Receiver,
) -> Result<(), AllocError>
    ensures { OnOk result (text.new.items ≡ text.old.items ++ text_as to.now.caps to.now.moment
        (wrap_of server.now label number lines.now)) }
{
    match label {
        Some(label) => push_labelled(alloc, text, server, label, number, lines, to),
        None => push_untagged(alloc, text, lines, to),
    }
}

/// Whether a line without a label goes out to a receiver without tags.
fn is_bare(caps: Caps, line: &Line) -> bool
    ensures { result ≡ is_bare caps line.now }
{
    !caps.contains(Cap::ServerTime) && !(caps.contains(Cap::MessageTags) && !line.tags().is_empty())
}

/// A line with its tags.
#[tactic(auto, unfolding(crate::specs::Rendered::spelled_line))]
fn tagged_text(
    alloc: Global,
    tag: &Option<AnswerTag>,
    line: &Line,
    to: &Receiver,
) -> Result<Octets, AllocError>
    ensures { IfOk result
        (λ t. t ≡ spelled_line to.now.caps to.now.moment (tagged_as tag.now line.now)) }
{
    let length = line.octets().len().saturating_add(line.tags().len());
    let more = length.saturating_add(MORE_TAGS);
    let mut text = head_of(alloc, tag, to.caps, to.moment, more)?;
    push_relayed(&mut text, to.caps, line.tags())?;
    end(&mut text)?;
    text.extend_from_slice(line.octets())?;
    Ok(text)
}

/// The text of an answer that is one line: the line's own where it goes out without tags.
#[tactic(auto, using(crate::proofs::AnswerTexts::bare_spelled))]
fn sole_text(
    alloc: Global,
    label: Option<Octets>,
    line: Line,
    to: &Receiver,
) -> Result<Octets, AllocError>
    ensures { IfOk result
        (λ t. t ≡ spelled_line to.now.caps to.now.moment (tagged_as (label_mark label) line)) }
{
    match label {
        Some(label) => tagged_text(alloc, &Some(AnswerTag::Label(label)), &line, to),
        None if is_bare(to.caps, &line) => Ok(line.into_octets()),
        None => tagged_text(alloc, &None, &line, to),
    }
}

/// The only line of an answer to which nothing else belongs. Others come back.
fn sole_line(mut reply: Vec<Line>, copies: &[Line]) -> Result<Line, Vec<Line>>
    ensures sole { IfOk result (λ l. (reply.items ≡ l ∷ []) × (copies.now ≡ [])) }
    ensures back { IfErr result (λ v. v.items ≡ reply.items) }
{
    if reply.len() != 1 || !copies.is_empty() {
        return Err(reply);
    }
    Ok(reply.remove(0))
}

/// The text of an answer of any lines, and of what its session sent to itself.
#[tactic(auto, using(crate::proofs::AnswerTexts::rendered_both))]
fn listed_text(
    alloc: Global,
    server: &[u8],
    label: Option<Octets>,
    number: RecordNumber,
    reply: &[Line],
    copies: &[Line],
    to: &Receiver,
) -> Result<Octets, AllocError>
    ensures { IfOk result (λ t. t ≡ text_as to.now.caps to.now.moment
        (whole_answer server.now label number reply.now copies.now)) }
{
    let mut text = Vec::new(alloc);
    push_answer(alloc, &mut text, server, label, number, reply, to)?;
    push_untagged(alloc, &mut text, copies, to)?;
    Ok(Octets::from_vec(text))
}

/// The text of the answer to a line of a record, and of what its session sent to itself after it, as
/// [`wrap`](crate::wrap) and [`render`](crate::render) give it, without the list of tagged lines.
#[tactic(auto, using(crate::proofs::AnswerTexts::sole_rendered))]
pub fn answer_text(
    alloc: Global,
    server: &[u8],
    label: Option<Octets>,
    number: RecordNumber,
    reply: Vec<Line>,
    copies: &[Line],
    to: &Receiver,
) -> Result<Octets, AllocError>
    ensures { IfOk result (λ t. t ≡ text_as to.now.caps to.now.moment
        (whole_answer server.now label number reply.items copies.now)) }
{
    match sole_line(reply, copies) {
        Ok(line) => sole_text(alloc, label, line, to),
        Err(reply) => listed_text(alloc, server, label, number, &reply, copies, to),
    }
}
