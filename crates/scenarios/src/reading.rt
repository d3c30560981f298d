//! Reading a scenario from its lines.
//!
//! In each form a line that begins with `#` is a comment, and `use al bo` has the lines of these parts in its place.
//! In a script a line with four spaces before it is a note of the step above, `!! FAULT` is what the play is to end
//! with, and after `each FAULT` each line is a row: it ends a script of its own, whose front is what stands above.
use crate::block::{Form, Part};
use crate::scenario::Scenario;
use crate::talk::Talk;
use std::alloc::{AllocError, AllocFailed, Global};

/// Why a scenario can't be read.
#[derive(Drop)]
pub(crate) enum Wrong {
    /// A line uses a part that isn't there.
    NoPart(u32),
    /// A growth was refused.
    Memory,
}

impl From<AllocError> for Wrong {
    fn from(_error: AllocError) -> Wrong {
        Wrong::Memory
    }
}

impl<T: Drop> From<AllocFailed<T>> for Wrong {
    fn from(_error: AllocFailed<T>) -> Wrong {
        Wrong::Memory
    }
}

/// A scenario, as far as it was read.
#[derive(Drop)]
struct Reading<'a> {
    alloc: Global,
    scenario: Scenario<'a>,
    talk: Talk,
    is_talk: bool,
    // What the fault says that each row meets, where rows have begun.
    each: Option<&'a str>,
    rows: Vec<Scenario<'a>>,
}

impl<'a> Reading<'a> {
    /// Adds a line of a script, which stands in this line of its file.
    fn add_step(&mut self, line: u32, text: &'a str) -> Result<(), AllocError> {
        if let Some(fault) = text.strip_prefix("each ") {
            self.each = Some(fault);
            return Ok(());
        }
        if let Some(fault) = self.each {
            let row = self.scenario.with_row(self.alloc, line, text, fault)?;
            self.rows.push(row)?;
            return Ok(());
        }
        if let Some(fault) = text.strip_prefix("!! ") {
            self.scenario.end = fault;
            self.scenario.last = line;
            return Ok(());
        }
        match text.strip_prefix("    ") {
            Some(note) => self.scenario.note(line, note),
            None => self.scenario.step(line, text),
        }
    }

    /// Adds a line.
    fn add(&mut self, line: u32, text: &'a str) -> Result<(), AllocError> {
        if text.is_empty() || text.starts_with('#') {
            Ok(())
        } else if self.is_talk {
            self.talk.hear(&mut self.scenario, line, text)
        } else {
            self.add_step(line, text)
        }
    }

    /// Adds the lines of a part, which is used in this line.
    fn add_part(&mut self, line: u32, part: &Part<'a>) -> Result<(), AllocError> {
        for text in part.lines.lines() {
            self.add(line, text)?;
        }
        Ok(())
    }

    /// Nothing more is told, and nothing more follows.
    fn end(&mut self) -> Result<(), AllocError> {
        self.talk.end_all(&mut self.scenario)
    }

    /// The scenario, or one for each of its rows.
    fn scenarios(self) -> Result<Vec<Scenario<'a>>, Wrong> {
        let mut scenarios = self.rows;
        if self.each.is_none() {
            scenarios.push(self.scenario)?;
        }
        Ok(scenarios)
    }

    /// Adds the lines of the parts that a line names.
    fn use_parts(&mut self, line: u32, names: &str, parts: &[Part<'a>]) -> Result<(), Wrong> {
        for name in names.split(' ') {
            match parts.iter().find(|it| it.name == name) {
                Some(part) => self.add_part(line, part)?,
                None => return Err(Wrong::NoPart(line)),
            }
        }
        Ok(())
    }
}

/// The scenario that stands in a part of a file, or one for each of its rows.
pub(crate) fn read_scenario<'a>(
    alloc: Global,
    form: Form,
    part: &Part<'a>,
    parts: &[Part<'a>],
) -> Result<Vec<Scenario<'a>>, Wrong> {
    let mut reading = Reading {
        alloc,
        scenario: Scenario::new(alloc)?,
        talk: Talk::new(alloc),
        is_talk: form != Form::Script,
        each: None,
        rows: Vec::new(alloc),
    };
    let mut line = part.first;
    for text in part.lines.lines() {
        match text.strip_prefix("use ") {
            Some(names) => reading.use_parts(line, names, parts)?,
            None => reading.add(line, text)?,
        }
        line = line.wrapping_add(1);
    }
    reading.end()?;
    reading.scenarios()
}
