//! Playing scenarios, in which one growth is refused at most.
use crate::scenario::Scenario;
use scripts::{Input, Output, PlayFault, play};
use std::alloc::{AllocError, Global};
use std::cell::Cell;
use std::io;
use std::io::{Read, Write};

/// The note of a step that was refused for want of memory.
const REFUSED: &[u8; 15] = b"refused Memory\n";

/// Room for more notes than a scenario wants, so that a right one is noted without another growth.
const ROOM: usize = 4096;

// Gives a script a line at a time, and a line anew where it was refused for want of memory.
#[derive(Drop)]
struct Steps<'a> {
    line: &'a [u8],
    // What is left of the line, and what comes after it.
    left: &'a [u8],
    rest: &'a [u8],
    is_refused: &'a Cell<bool>,
}

impl Read for Steps<'_> {
    fn read(&mut self, buf: &mut [u8]) -> io::Result<usize> {
        if self.is_refused.replace(false) {
            self.left = self.line;
        } else if self.left.is_empty() {
            let end = match self.rest.iter().position(|octet| *octet == b'\n') {
                Some(place) => place + 1,
                None => self.rest.len(),
            };
            (self.line, self.rest) = self.rest.split_at(end);
            self.left = self.line;
        }
        self.left.read(buf)
    }
}

// Keeps the notes, the first of want of memory apart: one growth is refused at most.
#[derive(Drop)]
struct Notes<'a> {
    octets: Vec<u8>,
    is_refused: &'a Cell<bool>,
    was_refused: bool,
}

impl Write for Notes<'_> {
    fn write(&mut self, buf: &[u8]) -> io::Result<usize> {
        if buf == REFUSED.as_slice() && !self.was_refused {
            self.was_refused = true;
            self.is_refused.set(true);
        } else {
            self.octets.extend_from_slice(buf)?;
        }
        Ok(buf.len())
    }

    fn flush(&mut self) -> io::Result<()> {
        Ok(())
    }
}

/// What a play gave: what its fault says, which is empty where it ended well, and its notes.
#[derive(Drop)]
struct Played {
    end: String,
    fault: Option<PlayFault>,
    notes: Vec<u8>,
    // Whether a line was refused for want of memory, and whether it was the last, which nothing follows that could
    // come anew.
    was_refused: bool,
    is_owed: bool,
}

fn play_once(alloc: Global, scenario: &Scenario<'_>) -> Result<Played, AllocError> {
    let is_refused = Cell::new(false);
    let mut input = Input::new(Steps {
        line: &[],
        left: &[],
        rest: &scenario.script.octets,
        is_refused: &is_refused,
    });
    let wanted = scenario.notes.octets.len();
    let mut output = Output::new(Notes {
        octets: Vec::with_capacity(alloc, wanted.saturating_add(ROOM))?,
        is_refused: &is_refused,
        was_refused: false,
    });
    let (end, fault) = match play(alloc, &mut input, &mut output) {
        Ok(()) => (String::new(alloc), None),
        Err(fault) => (format!(in alloc; "{fault}")?, Some(fault)),
    };
    let notes = output.into_inner();
    Ok(Played {
        end,
        fault,
        notes: notes.octets,
        was_refused: notes.was_refused,
        is_owed: is_refused.get(),
    })
}

/// Where a scenario differs first: the line of its file, what was wanted, and what came.
#[derive(Drop)]
pub(crate) struct Difference {
    pub(crate) line: u32,
    pub(crate) wanted: String,
    pub(crate) came: String,
}

/// A line of notes as a text.
fn text_of(alloc: Global, line: &[u8]) -> Result<String, AllocError> {
    let mut text = String::new(alloc);
    for octet in line {
        text.push(char::from(*octet))?;
    }
    Ok(text)
}

/// The first note that differs, if one does.
fn in_notes(
    alloc: Global,
    scenario: &Scenario<'_>,
    notes: &[u8],
) -> Result<Option<Difference>, AllocError> {
    let mut wanted = scenario.notes.octets.split(|octet| *octet == b'\n');
    let mut lines = scenario.notes.from.iter();
    for came in notes.split(|octet| *octet == b'\n') {
        let line = lines.next().copied().unwrap_or(scenario.last);
        let want = wanted.next().unwrap_or(b"");
        if came != want {
            return Ok(Some(Difference {
                line,
                wanted: text_of(alloc, want)?,
                came: text_of(alloc, came)?,
            }));
        }
    }
    Ok(None)
}

/// The line of a step's file, where it is the step that a play couldn't read.
fn line_of(scenario: &Scenario<'_>, fault: Option<PlayFault>) -> u32 {
    let Some(PlayFault::BadLine(number)) = fault else {
        return scenario.last;
    };
    let place = usize::try_from(number.wrapping_sub(1)).unwrap_or(usize::MAX);
    scenario
        .script
        .from
        .get(place)
        .copied()
        .unwrap_or(scenario.last)
}

/// What a fault says, in the words of a file.
fn fault_text(alloc: Global, fault: &str) -> Result<String, AllocError> {
    if fault.is_empty() {
        format!(in alloc; "no fault")
    } else {
        format!(in alloc; "!! {fault}")
    }
}

/// The end, where it isn't the one that is wanted, and else the first note that differs.
fn first_difference(
    alloc: Global,
    scenario: &Scenario<'_>,
    played: &Played,
) -> Result<Option<Difference>, AllocError> {
    if played.end.as_str() == scenario.end {
        return in_notes(alloc, scenario, &played.notes);
    }
    Ok(Some(Difference {
        line: line_of(scenario, played.fault),
        wanted: fault_text(alloc, scenario.end)?,
        came: fault_text(alloc, played.end.as_str())?,
    }))
}

/// Whether a play that differs only met a refused growth that ends it: the next one is whole. A fault that tells a
/// line's number may tell another, since a line came anew, and one that ends the script without a line feed doesn't
/// come anew.
fn may_go_again(scenario: &Scenario<'_>, played: &Played) -> bool {
    let is_cut = match played.fault {
        Some(PlayFault::Memory) => true,
        Some(_) => played.was_refused && !scenario.end.is_empty(),
        None => played.is_owed,
    };
    is_cut && scenario.notes.octets.starts_with(&played.notes)
}

/// Plays a scenario in which a line comes anew where it was refused for want of memory. So what is noted shows that
/// the refusal changed nothing. Returns where the scenario differs, if it does.
pub(crate) fn tell(
    alloc: Global,
    scenario: &Scenario<'_>,
) -> Result<Option<Difference>, AllocError> {
    let mut played = play_once(alloc, scenario)?;
    if may_go_again(scenario, &played) {
        played = play_once(alloc, scenario)?;
    }
    first_difference(alloc, scenario, &played)
}
