//! Halls in which stories are played, over one kind of outbox or over both.
ghost use Rattle.std.specs.Prelude.{◌≡◌, []};

use crate::acts::Act;
use crate::again::{copy_of, new_register};
use crate::guests::Made;
use crate::stage::Stage;
use book::{BookFault, Hall, Naming, Register, Ring, Settings, StableName};
use chronicle::Moment;
use outbox::{Sender, Writer};
use registration::Accounts;
use std::alloc::{AllocError, Global};
use std::marker::Brand;
use std::process::Abort;
use std::sync::Wait;

/// The settings of a server for so many sessions, without accounts.
fn settings(alloc: Global, sessions: usize) -> Result<Settings, AllocError> {
    Ok(Settings {
        server: copy_of(alloc, b"irc.example")?,
        info: copy_of(alloc, b"halld")?,
        version: copy_of(alloc, b"halld-1")?,
        created: Moment::new(0),
        motd: None,
        accounts: Accounts::new(alloc),
        sessions,
    })
}

/// A hall for so many sessions and records.
pub(crate) fn hall_of<L: Naming, O: StableName>(
    alloc: Global,
    register: Register<O::Name>,
    size: (usize, usize),
) -> Result<Hall<L, O>, BookFault>
    requires named { register.table ≡ L.table }
    requires empty { register.rows ≡ [] }
{
    match settings(alloc, size.0) {
        Ok(settings) => Hall::new(alloc, register, settings, size.1),
        Err(_) => Err(BookFault::Memory),
    }
}

/// Steps that are taken in turn: how many, and which was the first that wasn't as it is to be, where one wasn't.
#[derive(Drop)]
pub(crate) struct Steps {
    taken: u32,
    wrong: u32,
}

impl Steps {
    /// None is taken.
    pub(crate) fn new() -> Steps {
        Steps { taken: 0, wrong: 0 }
    }

    /// Notes a step, and whether it is as it is to be.
    pub(crate) fn note(&mut self, is_right: bool) {
        self.taken = self.taken.saturating_add(1);
        if !is_right && self.wrong == 0 {
            self.wrong = self.taken;
        }
    }

    /// Each step was as it is to be.
    pub(crate) fn assert_right<R: Abort>(&self, rt: &R) {
        assert!(rt; self.wrong == 0, "step {} is wrong", self.wrong);
    }
}

/// What happens in a hall for so many sessions and records: acts in turn, in parts, and all so often.
#[derive(Drop)]
pub(crate) struct Story {
    pub(crate) size: (usize, usize),
    pub(crate) rounds: u64,
    pub(crate) parts: &'static [&'static [Act]],
}

/// Plays a story in a hall, and notes each act.
fn plays<L: Naming, O: Made<R, T>, R, T: Drop>(
    rt: &R,
    alloc: Global,
    hall: &mut Hall<L, O>,
    story: &Story,
    steps: &mut Steps,
) {
    let mut stage: Stage<L, O, T> = Stage::new(alloc);
    stage.plays(rt, alloc, hall, story, steps);
}

/// Plays a story in a hall, which ends with it, and notes each act. It answers whether there was memory for the hall.
fn played_in<L: Naming, O: Made<R, T>, R, T: Drop>(
    rt: &R,
    alloc: Global,
    register: Register<O::Name>,
    story: &Story,
    steps: &mut Steps,
) -> bool
    requires named { register.table ≡ L.table }
    requires empty { register.rows ≡ [] }
{
    match hall_of::<L, O>(alloc, register, story.size) {
        Ok(mut hall) => {
            plays::<L, O, R, T>(rt, alloc, &mut hall, story, steps);
            true
        }
        Err(fault) => {
            steps.note(fault == BookFault::Memory);
            false
        }
    }
}

/// Plays a story in a hall with a register of its own.
fn play<O: Made<R, T>, R, T: Drop>(
    rt: &R,
    alloc: Global,
    story: &Story,
    steps: &mut Steps,
) -> bool {
    match new_register(alloc) {
        Ok(register) => played_in::<Brand, O, R, T>(rt, alloc, register, story, steps),
        Err(_) => false,
    }
}

/// A story. Where a growth is refused in making the hall, that is told as want of memory, and a hall is made once
/// more.
fn over<O: Made<R, T>, R: Abort, T: Drop>(rt: &R, alloc: Global, story: &Story) {
    let mut steps = Steps::new();
    let is_played = play::<O, R, T>(rt, alloc, story, &mut steps)
        || play::<O, R, T>(rt, alloc, story, &mut steps);
    steps.note(is_played);
    steps.assert_right(rt);
}

/// A story over rings.
pub(crate) fn over_rings<R: Abort>(rt: &R, alloc: Global, story: &Story) {
    over::<Ring, R, ()>(rt, alloc, story);
}

/// A story over channels.
pub(crate) fn over_channels<R: Wait + Abort + Drop + Copy>(rt: &R, alloc: Global, story: &Story) {
    over::<Sender<R>, R, Writer>(rt, alloc, story);
}

/// A story over rings, and over channels.
pub(crate) fn over_both<R: Wait + Abort + Drop + Copy>(rt: &R, alloc: Global, story: &Story) {
    over_rings(rt, alloc, story);
    over_channels(rt, alloc, story);
}
