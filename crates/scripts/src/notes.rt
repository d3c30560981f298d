//! What a step gave, as it is written.
ghost use Rattle.std.specs.Prelude.{◌≡◌, ◌++◌, ◌∷◌, [], List, ℕ, OnOk, IfOk};
ghost use Rattle.deliveries.specs.Text.{delivery_text};
ghost use Rattle.scripts.specs.Escapes.{printed_text};
ghost use Rattle.scripts.specs.Notes.{word_line, label_line, done_text, hung_text, chosen_text, line_text};
ghost use Rattle.scripts.specs.Notes.{lines_after, note_text, refused_text, answer_text, whole_text};

use crate::escape::print_octet;
use crate::refusals::refusal_name;
use deliveries::write_out;
use interleave::{Delivery, Done, Hung, Note, RecordNumber, SessionId, StepRefusal};
use std::alloc::{AllocError, Global};

/// Adds a word as a line.
fn write_word(out: &mut Vec<u8>, word: &str) -> Result<(), AllocError>
    ensures { OnOk result (out.new.items ≡ out.old.items ++ word_line word.now) }
{
    out.extend_from_slice(word.as_bytes())?;
    out.push(b'\n')?;
    Ok(())
}

/// Adds `LABEL NUMBER` as a line.
fn write_number(
    alloc: Global,
    out: &mut Vec<u8>,
    label: &str,
    number: u64,
) -> Result<(), AllocError>
    ensures { OnOk result (out.new.items ≡ out.old.items ++ label_line label.now number) }
{
    let text = format!(in alloc; "{label} {number}")?;
    out.extend_from_slice(text.as_bytes())?;
    out.push(b'\n')?;
    Ok(())
}

/// Adds a label and the number of a record, and `missed S` for each session that missed the record.
fn write_done(alloc: Global, out: &mut Vec<u8>, label: &str, done: &Done) -> Result<(), AllocError>
    ensures { OnOk result (out.new.items ≡ out.old.items ++ done_text label.now done.now) }
{
    write_number(alloc, out, label, done.number.number())?;
    for session in done.missed.as_slice() {
        write_number(alloc, out, "missed", session.number())?;
    }
    Ok(())
}

/// Adds `hung N`, and `missed` where the session missed its last item.
fn write_hung(alloc: Global, out: &mut Vec<u8>, hung: Hung) -> Result<(), AllocError>
    ensures { OnOk result (out.new.items ≡ out.old.items ++ hung_text hung) }
{
    let number = hung.number.number();
    let text = format!(in alloc; "hung {number}")?;
    out.extend_from_slice(text.as_bytes())?;
    if hung.missed {
        out.extend_from_slice(b" missed")?;
    }
    out.push(b'\n')?;
    Ok(())
}

/// Adds `LABEL NUMBER`, or `LABEL none`.
fn write_chosen(
    alloc: Global,
    out: &mut Vec<u8>,
    label: &str,
    number: Option<RecordNumber>,
) -> Result<(), AllocError>
    ensures { OnOk result (out.new.items ≡ out.old.items ++ chosen_text label.now number) }
{
    let Some(number) = number else {
        out.extend_from_slice(label.as_bytes())?;
        return write_word(out, " none");
    };
    write_number(alloc, out, label, number.number())
}

/// Adds octets as a note prints them.
fn print_all(out: &mut Vec<u8>, octets: &[u8]) -> Result<(), AllocError>
    ensures { OnOk result (out.new.items ≡ out.old.items ++ printed_text octets.now) }
{
    for octet in octets {
        print_octet(out, *octet)?;
    }
    Ok(())
}

/// Adds `S> LINE`.
fn write_line(
    alloc: Global,
    out: &mut Vec<u8>,
    session: SessionId,
    line: &[u8],
) -> Result<(), AllocError>
    ensures { OnOk result (out.new.items ≡ out.old.items ++ line_text session line.now) }
{
    let number = session.number();
    let prefix = format!(in alloc; "{number}> ")?;
    out.extend_from_slice(prefix.as_bytes())?;
    print_all(out, line)?;
    out.push(b'\n')?;
    Ok(())
}

/// Takes one more octet of a text, and adds the line that it ends, if there is one.
fn write_octet(
    alloc: Global,
    out: &mut Vec<u8>,
    session: SessionId,
    line: &mut Vec<u8>,
    octet: u8,
) -> Result<(), AllocError>
    ensures { OnOk result ((rest : List ℕ) → out.new.items ++ lines_after session line.new.items
        rest ≡ out.old.items ++ lines_after session line.old.items (octet ∷ rest)) }
{
    if octet != b'\r' && octet != b'\n' {
        line.push(octet)?;
        return Ok(());
    }
    if !line.is_empty() {
        write_line(alloc, out, session, line)?;
        line.clear();
    }
    Ok(())
}

/// Adds `S> LINE` for each line of a text.
fn write_lines(
    alloc: Global,
    out: &mut Vec<u8>,
    session: SessionId,
    text: &[u8],
) -> Result<(), AllocError>
    ensures { OnOk result (out.new.items ≡ out.old.items ++ lines_after session [] text.now) }
{
    let mut line = Vec::new(alloc);
    for octet in text {
        write_octet(alloc, out, session, &mut line, *octet)?;
    }
    Ok(())
}

/// Adds `S> LINE` for each line of an item. `host` is the session's.
fn write_item(
    alloc: Global,
    out: &mut Vec<u8>,
    session: SessionId,
    host: &[u8],
    item: &Delivery,
) -> Result<(), AllocError>
    ensures { OnOk result (out.new.items
        ≡ out.old.items ++ lines_after session [] (delivery_text item.now host.now)) }
{
    let mut text = Vec::new(alloc);
    let (_, written) = write_out(item, host, &mut text);
    match written {
        Ok(()) => write_lines(alloc, out, session, &text),
        Err(_) => Err(AllocError),
    }
}

/// Adds what a step of a session gave. `host` is the session's.
fn write_note(
    alloc: Global,
    out: &mut Vec<u8>,
    session: SessionId,
    host: &[u8],
    note: &Note,
) -> Result<(), AllocError>
    ensures { OnOk result (out.new.items ≡ out.old.items ++ note_text session host.now note.now) }
{
    match note {
        Note::Session(opened) => write_number(alloc, out, "session", opened.number()),
        Note::Read(count) => write_number(alloc, out, "read", *count as u64),
        Note::Picked => write_word(out, "picked"),
        Note::Record(number) => write_number(alloc, out, "record", number.number()),
        Note::Put(put) => write_number(alloc, out, "put", put.number()),
        Note::Missed(missed) => write_number(alloc, out, "missed", missed.number()),
        Note::Done(done) => write_number(alloc, out, "done", done.number.number()),
        Note::Back => write_word(out, "back"),
        Note::Item(item) => write_item(alloc, out, session, host, item),
        Note::Empty => write_word(out, "empty"),
        Note::Hung(hung) => write_hung(alloc, out, *hung),
        Note::Swept(number) => write_chosen(alloc, out, "sweep", *number),
        Note::Ticked(number) => write_chosen(alloc, out, "tick", *number),
        Note::Left(count) => write_number(alloc, out, "left", *count),
    }
}

/// Adds why a step was refused.
fn write_refused(out: &mut Vec<u8>, refusal: StepRefusal) -> Result<(), AllocError>
    ensures { OnOk result (out.new.items ≡ out.old.items ++ refused_text refusal) }
{
    out.extend_from_slice(b"refused ")?;
    write_word(out, refusal_name(refusal))
}

/// The notes of a step, each a line that ends in LF. `session` is the one that the step names, and `host` its host.
pub(crate) fn notes_of(
    alloc: Global,
    session: SessionId,
    host: &[u8],
    answer: &Result<Note, StepRefusal>,
) -> Result<Vec<u8>, AllocError>
    ensures { IfOk result (λ notes. notes.items ≡ answer_text session host.now answer.now) }
{
    let mut out = Vec::new(alloc);
    match answer {
        Ok(note) => write_note(alloc, &mut out, session, host, note)?,
        Err(refusal) => write_refused(&mut out, *refusal)?,
    }
    Ok(out)
}

/// The notes of what worker 1 came to alone, of which a record has this label.
pub(crate) fn whole_notes(
    alloc: Global,
    label: &str,
    answer: &Result<Note, StepRefusal>,
) -> Result<Vec<u8>, AllocError>
    ensures { IfOk result (λ notes. notes.items ≡ whole_text label.now answer.now) }
{
    let Ok(Note::Done(done)) = answer else {
        return notes_of(alloc, SessionId::new(0), &[], answer);
    };
    let mut out = Vec::new(alloc);
    write_done(alloc, &mut out, label, done)?;
    Ok(out)
}
