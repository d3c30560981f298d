//! The answer to a line as its session takes it (IRCv3 labeled-response; IRCv3 batch).
ghost use Rattle.std.specs.Prelude.{◌≡◌, ◌∷◌, ◌++◌, [], map, option_copied, IfOk, OnOk};
ghost use Rattle.labels_batches.specs.declared.answers.AnswerTag.TheVariants.{Label};
ghost use Rattle.labels_batches.specs.Answers.{ack, whole_answer, batch_ends, batch_opens, as_batch};
ghost use Rattle.labels_batches.specs.Answers.{with_label, tagged_as, wrap_of};

use chronicle::RecordNumber;
use line_grammar::Octets;
use numerics::Line;
use std::alloc::{AllocError, Global};

/// Which tag a line has of the answer that it is a part of.
#[derive(Clone, Drop)]
pub enum AnswerTag {
    /// The label of the line that is answered, as it is meant.
    Label(Octets),
    /// The batch that the line stands in. Its reference is the record's number.
    Batch(RecordNumber),
}

/// An outgoing line, and the tag that it has of an answer.
#[derive(Drop)]
pub struct Tagged {
    pub line: Line,
    pub tag: Option<AnswerTag>,
}

/// Adds lines that all have one tag, or none.
fn push_all(
    tagged: &mut Vec<Tagged>,
    tag: &Option<AnswerTag>,
    lines: Vec<Line>,
) -> Result<(), AllocError>
    ensures { OnOk result
        (tagged.new.items ≡ tagged.old.items ++ map (tagged_as tag.now) lines.items) }
{
    for line in lines {
        let tag = tag.clone()?;
        tagged.push(Tagged { line, tag })?;
    }
    Ok(())
}

/// The tag of a label.
fn label_tag(label: &Octets) -> Result<Option<AnswerTag>, AllocError>
    ensures { IfOk result (λ t. t ≡ Some (Label label.now)) }
{
    Ok(Some(AnswerTag::Label(label.clone()?)))
}

/// Adds a line that has a label.
fn push_labelled(tagged: &mut Vec<Tagged>, label: &Octets, line: Line) -> Result<(), AllocError>
    ensures { OnOk result
        (tagged.new.items ≡ tagged.old.items ++ tagged_as (Some (Label label.now)) line ∷ []) }
{
    let tag = label_tag(label)?;
    tagged.push(Tagged { line, tag })?;
    Ok(())
}

/// The line that answers what has no other answer.
pub(crate) fn ack(alloc: Global, server: &[u8]) -> Result<Line, AllocError>
    ensures { IfOk result (λ o. o ≡ ack server.now) }
{
    Line::new(alloc, server, b"ACK", &[])
}

/// The line that opens the batch of an answer.
pub(crate) fn batch_opens(
    alloc: Global,
    server: &[u8],
    number: RecordNumber,
) -> Result<Line, AllocError>
    ensures { IfOk result (λ o. o ≡ batch_opens server.now number) }
{
    let number = number.number();
    let reference = format!(in alloc; "+{number}")?;
    let words: [&[u8]; 2] = [reference.as_bytes(), b"labeled-response"];
    Line::new(alloc, server, b"BATCH", &words)
}

/// The line that ends it.
pub(crate) fn batch_ends(
    alloc: Global,
    server: &[u8],
    number: RecordNumber,
) -> Result<Line, AllocError>
    ensures { IfOk result (λ o. o ≡ batch_ends server.now number) }
{
    let number = number.number();
    let reference = format!(in alloc; "-{number}")?;
    Line::new(alloc, server, b"BATCH", &[reference.as_bytes()])
}

/// Opens the batch of an answer.
fn push_start(
    alloc: Global,
    tagged: &mut Vec<Tagged>,
    server: &[u8],
    label: &Octets,
    number: RecordNumber,
) -> Result<(), AllocError>
    ensures { OnOk result (tagged.new.items ≡ tagged.old.items
        ++ tagged_as (Some (Label label.now)) (batch_opens server.now number) ∷ []) }
{
    let line = batch_opens(alloc, server, number)?;
    push_labelled(tagged, label, line)
}

/// Ends it.
fn push_end(
    alloc: Global,
    tagged: &mut Vec<Tagged>,
    server: &[u8],
    number: RecordNumber,
) -> Result<(), AllocError>
    ensures { OnOk result (tagged.new.items
        ≡ tagged.old.items ++ tagged_as None (batch_ends server.now number) ∷ []) }
{
    let line = batch_ends(alloc, server, number)?;
    tagged.push(Tagged { line, tag: None })?;
    Ok(())
}

/// Adds a batch of lines.
fn push_batch(
    alloc: Global,
    tagged: &mut Vec<Tagged>,
    server: &[u8],
    label: &Octets,
    number: RecordNumber,
    lines: Vec<Line>,
) -> Result<(), AllocError>
    ensures { OnOk result
        (tagged.new.items ≡ tagged.old.items ++ as_batch server.now label.now number lines.items) }
{
    push_start(alloc, tagged, server, label, number)?;
    push_all(tagged, &Some(AnswerTag::Batch(number)), lines)?;
    push_end(alloc, tagged, server, number)
}

/// Adds the answer of a line that has a label.
fn push_answer(
    alloc: Global,
    tagged: &mut Vec<Tagged>,
    server: &[u8],
    label: &Octets,
    number: RecordNumber,
    lines: Vec<Line>,
) -> Result<(), AllocError>
    ensures { OnOk result
        (tagged.new.items ≡ tagged.old.items
        ++ with_label server.now label.now number lines.items) }
{
    match lines.len() {
        0 => push_labelled(tagged, label, ack(alloc, server)?),
        1 => push_all(tagged, &label_tag(label)?, lines),
        _ => push_batch(alloc, tagged, server, label, number, lines),
    }
}

/// Adds the answer of a line.
fn push_reply(
    alloc: Global,
    tagged: &mut Vec<Tagged>,
    server: &[u8],
    label: Option<&Octets>,
    number: RecordNumber,
    reply: Vec<Line>,
) -> Result<(), AllocError>
    ensures { OnOk result (tagged.new.items
        ≡ tagged.old.items ++ wrap_of server.now (option_copied label.entry) number reply.items) }
{
    match label {
        Some(label) => push_answer(alloc, tagged, server, label, number, reply),
        None => push_all(tagged, &None, reply),
    }
}

/// The answer to a line of a record, and what its session sent to itself after it, which is no part of the answer.
/// Where the line has a label, no line of an answer becomes `ACK` with the label, one line has it, and several stand
/// in a batch, whose reference is the record's number and whose first line has it (IRCv3 labeled-response,
/// "Servers").
pub fn wrap(
    alloc: Global,
    server: &[u8],
    label: Option<&Octets>,
    number: RecordNumber,
    reply: Vec<Line>,
    copies: Vec<Line>,
) -> Result<Vec<Tagged>, AllocError>
    ensures { IfOk result (λ v. v.items
        ≡ whole_answer server.now (option_copied label.entry) number reply.items copies.items) }
{
    let mut tagged = Vec::new(alloc);
    push_reply(alloc, &mut tagged, server, label, number, reply)?;
    push_all(&mut tagged, &None, copies)?;
    Ok(tagged)
}
