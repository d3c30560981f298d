//! A scenario: steps of a script, and the notes that they are to have.
use crate::spelling::{write_note, write_spelled};
use std::alloc::{AllocError, Global};

/// Texts, and the line of the file from which each of their lines comes.
#[derive(Drop)]
pub(crate) struct Lines {
    pub(crate) octets: Vec<u8>,
    pub(crate) from: Vec<u32>,
}

/// What is written for a line of a file before the lines that come of it, in octets.
const ROOM: usize = 4096;

impl Lines {
    fn new(alloc: Global) -> Result<Lines, AllocError> {
        Ok(Lines {
            octets: Vec::with_capacity(alloc, ROOM)?,
            from: Vec::new(alloc),
        })
    }

    fn copy(&self, alloc: Global) -> Result<Lines, AllocError> {
        let mut copy = Lines::new(alloc)?;
        copy.octets.extend_from_slice(&self.octets)?;
        copy.from.extend_from_slice(&self.from)?;
        Ok(copy)
    }

    /// Says from where what was added since comes.
    fn end(&mut self, before: usize, line: u32) -> Result<(), AllocError> {
        let added = self.octets.get(before..).unwrap_or(&[]);
        for octet in added {
            if *octet == b'\n' {
                self.from.push(line)?;
            }
        }
        Ok(())
    }
}

/// Steps, the notes that they are to have, and what the fault says with which the play is to end, which is empty
/// where it is to end well.
#[derive(Drop)]
pub(crate) struct Scenario<'a> {
    pub(crate) script: Lines,
    pub(crate) notes: Lines,
    pub(crate) end: &'a str,
    // The last line of the file that says something of it.
    pub(crate) last: u32,
}

impl<'a> Scenario<'a> {
    /// A scenario in which nothing happens.
    pub(crate) fn new(alloc: Global) -> Result<Scenario<'a>, AllocError> {
        let script = Lines::new(alloc)?;
        let notes = Lines::new(alloc)?;
        Ok(Scenario {
            script,
            notes,
            end: "",
            last: 0,
        })
    }

    /// Adds a step. One that ends with `%-` has no line feed.
    pub(crate) fn step(&mut self, line: u32, step: &str) -> Result<(), AllocError> {
        self.last = line;
        let before = self.script.octets.len();
        match step.strip_suffix("%-") {
            Some(step) => write_spelled(&mut self.script.octets, step.as_bytes())?,
            None => {
                write_spelled(&mut self.script.octets, step.as_bytes())?;
                self.script.octets.push(b'\n')?;
            }
        }
        self.script.end(before, line)
    }

    /// Adds a note, or those of a welcome.
    pub(crate) fn note(&mut self, line: u32, note: &str) -> Result<(), AllocError> {
        self.last = line;
        let before = self.notes.octets.len();
        write_note(&mut self.notes.octets, note.as_bytes())?;
        self.notes.end(before, line)
    }

    /// The same with a row: lines that end the script, and what the fault says that they meet.
    pub(crate) fn with_row(
        &self,
        alloc: Global,
        line: u32,
        row: &str,
        end: &'a str,
    ) -> Result<Scenario<'a>, AllocError> {
        let script = self.script.copy(alloc)?;
        let notes = self.notes.copy(alloc)?;
        let mut scenario = Scenario {
            script,
            notes,
            end,
            last: line,
        };
        let before = scenario.script.octets.len();
        write_spelled(&mut scenario.script.octets, row.as_bytes())?;
        scenario.script.end(before, line)?;
        Ok(scenario)
    }
}
