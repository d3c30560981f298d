//! The texts of a record's lines, and what several of them make.
//!
//! Most hearers of several lines hear the same of them, and take them alike. So what the lines make for one hearer is
//! kept, and shared with the next that hears the same.
ghost use Rattle.std.specs.Prelude.{◌≡◌, List, map, true, IfOk, IfSome, OnOk};
ghost use Rattle.std.specs.List.{flat_map};
ghost use Rattle.labels_batches.specs.Spellings.{Spelled};
ghost use Rattle.ledger.specs.FanOut.{text_of, spelled_at};

use crate::fan_out::Hearing;
use chronicle::RecordMoment;
use deeds::ShownLine;
use labels_batches::{Spellings, Text};
use line_grammar::Octets;
use std::alloc::{AllocError, Global};
use std::marker::Model;

/// How many texts are kept that several lines made.
const MOST: usize = 8;

/// What a hearer heard of some lines, and the text that they made.
#[derive(Drop)]
struct Whole {
    parts: Vec<Hearing>,
    text: Text,
}

/// The lines of a record, and texts that several of them made.
#[derive(Drop)]
pub(crate) struct LineTexts {
    alloc: Global,
    lines: Vec<Spellings>,
    wholes: Vec<Whole>,
}

impl Model for LineTexts {
    ghost use Rattle.std.specs.Prelude.{All, List};
    ghost use Rattle.labels_batches.specs.Spellings.{Spelled};
    ghost use Rattle.ledger.specs.FanOut.{IsWhole};

    ghost Value = { List Spelled };

    ghost view = { λ a. a.lines.items };

    ghost invariant = { λ a. All (IsWhole a.lines.items) a.wholes.items };
}

/// Whether two hear the same lines, and take each of them alike.
fn hear_alike(some: &[Hearing], others: &[Hearing]) -> bool
    ensures { result ≡ true → (ls : List Spelled)
        → flat_map (text_of ls) some.now ≡ flat_map (text_of ls) others.now }
{
    if some.len() != others.len() {
        return false;
    }
    for place in 0..some.len() {
        let (one, other) = (some[place], others[place]);
        if one.line != other.line || one.caps != other.caps {
            return false;
        }
    }
    true
}

impl LineTexts {
    /// The lines that a record shows.
    pub(crate) fn new(
        alloc: Global,
        shown: Vec<ShownLine>,
        moment: RecordMoment,
    ) -> Result<LineTexts, AllocError>
        ensures { IfOk result (λ x. x ≡ map (spelled_at moment) shown.items) }
    {
        let mut lines = Vec::with_capacity(alloc, shown.len())?;
        for one in shown {
            lines.push(Spellings::new(alloc, one.line, moment)?)?;
        }
        Ok(LineTexts {
            alloc,
            lines,
            wholes: Vec::new(alloc),
        })
    }

    /// How many there are.
    pub(crate) fn len(&self) -> usize {
        self.lines.len()
    }

    /// What is heard of one line.
    fn text_of(&mut self, hearing: Hearing) -> Result<Text, AllocError>
        ensures same { self.new ≡ self.old }
        ensures text { IfOk result (λ t. t ≡ text_of self.old hearing) }
    {
        match self.lines.get_mut(hearing.line) {
            Some(line) => line.text_for(hearing.caps),
            None => Text::new(self.alloc, Octets::from_vec(Vec::new(self.alloc))),
        }
    }

    /// The text that was kept for who hears the same.
    fn find(&self, run: &[Hearing]) -> Option<&Text>
        ensures { IfSome result (λ t. t.now ≡ flat_map (text_of self.now) run.now) }
    {
        for whole in self.wholes.iter() {
            if hear_alike(whole.parts.as_slice(), run) {
                return Some(&whole.text);
            }
        }
        None
    }

    /// Keeps what several lines made, where there is a place for it.
    fn keep(&mut self, run: &[Hearing], text: &Text) -> Result<(), AllocError>
        requires { text.now ≡ flat_map (text_of self.old) run.now }
        ensures { self.new ≡ self.old }
    {
        if MOST <= self.wholes.len() {
            return Ok(());
        }
        let whole = Whole {
            parts: Vec::from_slice(self.alloc, run)?,
            text: text.clone()?,
        };
        self.wholes.push(whole)?;
        Ok(())
    }

    /// What several lines make.
    fn whole_of(&mut self, run: &[Hearing]) -> Result<Text, AllocError>
        ensures same { self.new ≡ self.old }
        ensures text { IfOk result (λ t. t ≡ flat_map (text_of self.old) run.now) }
    {
        let mut octets = Octets::from_vec(Vec::new(self.alloc));
        for hearing in run {
            let text = self.text_of(*hearing)?;
            octets.extend_from_slice(text.as_slice())?;
        }
        Text::new(self.alloc, octets)
    }

    /// What a session hears in all.
    pub(crate) fn text_for(&mut self, run: &[Hearing]) -> Result<Text, AllocError>
        ensures same { self.new ≡ self.old }
        ensures text { IfOk result (λ t. t ≡ flat_map (text_of self.old) run.now) }
    {
        if run.len() == 1 {
            return self.text_of(run[0]);
        }
        if let Some(text) = self.find(run) {
            return text.clone();
        }
        let text = self.whole_of(run)?;
        self.keep(run, &text)?;
        Ok(text)
    }
}
