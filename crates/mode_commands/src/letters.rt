//! The letters of MODE with their signs and parameters (RFC 2812, section 3.2.3).
ghost use Rattle.std.specs.Prelude.{◌≡◌, ◌++◌, [], IfOk, OnOk};
ghost use Rattle.mode_commands.specs.Letters.{asked_changes, past, past_next, takes_param, letter_asks, with_next};

use line_grammar::Octets;
use std::alloc::{AllocError, Global};
use std::marker::Model;

/// How many letters with a parameter are served in a line.
const SERVED: usize = 4;

/// A change of a mode, as it is asked for or shown.
#[derive(Drop)]
pub struct ModeChange {
    /// Whether the mode is set, by `+`, or cleared, by `-`.
    pub on: bool,
    pub letter: u8,
    pub param: Option<Octets>,
}

/// What is known as letters are read.
#[derive(Drop)]
struct Reading<'a> {
    /// The sign in force.
    on: bool,
    /// How many letters with a parameter may still come.
    room: usize,
    /// The parameters that are left.
    params: &'a [Octets],
}

impl<'a> Model for Reading<'a> {
    ghost use Rattle.mode_commands.specs.Letters.{Reading};

    ghost Value = { Reading };

    ghost view = { λ a. record { on = a.on; room = a.room; params = a.params.now } };
}

/// Whether a letter takes a parameter.
fn takes_param(on: bool, letter: u8) -> bool
    ensures { result ≡ takes_param on letter }
{
    matches!(letter, b'o' | b'v' | b'b' | b'k') || (letter == b'l' && on)
}

impl<'a> Reading<'a> {
    /// Reads a letter that takes the next parameter, where there is one.
    fn read_with_next(&mut self, asked: &mut Vec<ModeChange>, letter: u8) -> Result<(), AllocError>
        ensures past { OnOk result (self.new ≡ past_next self.old self.old.params) }
        ensures told { OnOk result
            (asked.new.items ≡ asked.old.items ++ with_next self.old letter self.old.params) }
    {
        let on = self.on;
        let Some((param, rest)) = self.params.split_first() else {
            asked.push(ModeChange {
                on,
                letter,
                param: None,
            })?;
            return Ok(());
        };
        self.params = rest;
        if self.room == 0 {
            return Ok(());
        }
        self.room -= 1;
        let param = Some(param.clone()?);
        asked.push(ModeChange { on, letter, param })?;
        Ok(())
    }

    /// Reads a letter.
    fn read(&mut self, asked: &mut Vec<ModeChange>, letter: u8) -> Result<(), AllocError>
        ensures past { OnOk result (self.new ≡ past self.old letter) }
        ensures told { OnOk result (asked.new.items ≡ asked.old.items
            ++ letter_asks self.old letter) }
    {
        if letter == b'+' {
            self.on = true;
            return Ok(());
        }
        if letter == b'-' {
            self.on = false;
            return Ok(());
        }
        if takes_param(self.on, letter) {
            return self.read_with_next(asked, letter);
        }
        let on = self.on;
        asked.push(ModeChange {
            on,
            letter,
            param: None,
        })?;
        Ok(())
    }
}

/// The changes that letters ask for, each with its sign and its parameter.
pub(crate) fn asked_changes(
    alloc: Global,
    letters: &[u8],
    params: &[Octets],
) -> Result<Vec<ModeChange>, AllocError>
    ensures { IfOk result (λ v. v.items ≡ asked_changes letters.now params.now) }
{
    let mut asked = Vec::new(alloc);
    let mut reading = Reading {
        on: true,
        room: SERVED,
        params,
    };
    for letter in letters {
        reading.read(&mut asked, *letter)?;
    }
    Ok(asked)
}
