//! Talks: what sessions say, and what each is told then.
//!
//! A talk has a line for each thing that is said, `1 PING x`, and after it the lines that are told,
//! `1> :~ PONG ~ x`, those of session 1 first. `connect h1` opens a session, `tidy` sweeps one, and any other line
//! is a header. Nothing is told that doesn't stand there.
use crate::scenario::Scenario;
use std::alloc::{AllocError, Global};

/// A talk as a scenario.
#[derive(Drop)]
pub(crate) struct Talk {
    alloc: Global,
    // How many sessions were opened, and how many are there whose notes are all known.
    opened: u64,
    told: u64,
    records: u64,
}

/// The session that says a line, or is told it.
#[derive(Clone, Copy)]
enum Who {
    Says(u64),
    IsTold(u64),
    Nobody,
}

/// Whose line it is, by its first word.
fn who_of(word: &str) -> Who {
    if let Some(number) = word.strip_suffix('>')
        && let Ok(session) = number.parse::<u64>()
    {
        return Who::IsTold(session);
    }
    match word.parse::<u64>() {
        Ok(session) => Who::Says(session),
        Err(_) => Who::Nobody,
    }
}

impl Talk {
    pub(crate) fn new(alloc: Global) -> Talk {
        Talk {
            alloc,
            opened: 0,
            told: 0,
            records: 0,
        }
    }

    /// Adds a step whose note is the next record's number.
    fn add(
        &mut self,
        scenario: &mut Scenario<'_>,
        line: u32,
        step: &str,
        word: &str,
    ) -> Result<(), AllocError> {
        self.records = self.records.wrapping_add(1);
        let number = self.records;
        let note = format!(in self.alloc; "{word} {number}")?;
        scenario.step(line, step)?;
        scenario.note(line, note.as_str())
    }

    /// A session is opened, which is told nothing.
    fn open(
        &mut self,
        scenario: &mut Scenario<'_>,
        line: u32,
        step: &str,
    ) -> Result<(), AllocError> {
        self.records = self.records.wrapping_add(1);
        self.opened = self.opened.wrapping_add(1);
        self.told = self.opened;
        let number = self.opened;
        let step = format!(in self.alloc; "{step} 0")?;
        let note = format!(in self.alloc; "session {number}")?;
        scenario.step(line, step.as_str())?;
        scenario.note(line, note.as_str())
    }

    /// A session says a line.
    fn say(
        &mut self,
        scenario: &mut Scenario<'_>,
        line: u32,
        session: u64,
        said: &str,
    ) -> Result<(), AllocError> {
        let feed = format!(in self.alloc; "feed {session} \"{said}\\n\"")?;
        scenario.step(line, feed.as_str())?;
        scenario.note(line, "read 1")?;
        let step = format!(in self.alloc; "do {session} 0")?;
        self.add(scenario, line, step.as_str(), "record")?;
        self.drain(scenario, line)
    }

    /// Each session takes what it is told.
    fn drain(&mut self, scenario: &mut Scenario<'_>, line: u32) -> Result<(), AllocError> {
        for place in 0..self.opened {
            let session = place.wrapping_add(1);
            let step = format!(in self.alloc; "drain {session}")?;
            scenario.step(line, step.as_str())?;
        }
        self.told = 0;
        Ok(())
    }

    /// So many sessions are told nothing more.
    fn end(&mut self, scenario: &mut Scenario<'_>, sessions: u64) -> Result<(), AllocError> {
        let line = scenario.last;
        for _ in self.told..sessions.min(self.opened) {
            scenario.note(line, "empty")?;
        }
        self.told = self.told.max(sessions);
        Ok(())
    }

    /// Nobody is told anything more.
    pub(crate) fn end_all(&mut self, scenario: &mut Scenario<'_>) -> Result<(), AllocError> {
        let opened = self.opened;
        self.end(scenario, opened)
    }

    /// Adds a line of the talk, which stands in this line of its file.
    pub(crate) fn hear(
        &mut self,
        scenario: &mut Scenario<'_>,
        line: u32,
        text: &str,
    ) -> Result<(), AllocError> {
        let (word, rest) = text.split_once(' ').unwrap_or((text, ""));
        let who = who_of(word);
        if let Who::IsTold(session) = who {
            self.end(scenario, session.saturating_sub(1))?;
            return scenario.note(line, text);
        }
        self.end_all(scenario)?;
        match who {
            Who::Says(session) => self.say(scenario, line, session, rest),
            _ if word == "connect" => self.open(scenario, line, text),
            _ if word == "tidy" => {
                self.add(scenario, line, "tidy 0", "sweep")?;
                self.drain(scenario, line)
            }
            _ => scenario.step(line, text),
        }
    }
}
