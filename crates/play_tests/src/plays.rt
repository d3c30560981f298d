//! A play in which a test takes its steps. It is made here, and ends here.
ghost use Rattle.std.specs.Prelude.{◌≡◌, [], IfOk};

use crate::again::copy_of;
use crate::{growths, runs, thousand};
use interleave::{Moment, Naming, Play, PlayRefusal, Register, Settings};
use registration::Accounts;
use std::alloc::{AllocError, Global};
use std::marker::Brand;
use std::process::Abort;

pub(crate) const SESSIONS: usize = 4;

const RECORDS: usize = 1000;

const WORKERS: usize = 2;

/// Items that an outbox has room for.
const ITEMS: usize = 4;

/// What is done in a play.
#[derive(Clone, Copy)]
pub(crate) enum Story {
    /// A labelled line comes again for which there was no memory.
    Growths,
    /// Events of two workers are taken in one run.
    Run,
    /// A thousand steps are taken.
    Thousand,
}

/// The settings of a server for so many sessions.
pub(crate) fn settings(alloc: Global, sessions: usize) -> Result<Settings, AllocError> {
    Ok(Settings {
        server: copy_of(alloc, b"irc.example")?,
        info: copy_of(alloc, b"halld")?,
        version: copy_of(alloc, b"halld-1")?,
        created: Moment::new(0),
        motd: None,
        accounts: Accounts::new(alloc),
        sessions,
    })
}

/// A register of no session, once more where its growth was refused.
pub(crate) fn new_register(alloc: Global) -> Result<Register<()>, AllocError>
    ensures { IfOk result (λ r. r.rows ≡ []) }
{
    match Register::new(alloc) {
        Ok(register) => Ok(register),
        Err(_) => Register::new(alloc),
    }
}

/// Steps that are taken in turn: how many, and which was the first that wasn't as it is to be, where one wasn't.
#[derive(Drop)]
pub(crate) struct Steps {
    taken: u32,
    wrong: u32,
}

impl Steps {
    /// Notes a step, and whether it is as it is to be.
    pub(crate) fn note(&mut self, is_right: bool) {
        self.taken = self.taken.saturating_add(1);
        if !is_right && self.wrong == 0 {
            self.wrong = self.taken;
        }
    }
}

/// Does in a play what its story says, and answers whether there was memory for that.
fn tell<L: Naming>(alloc: Global, play: &mut Play<L>, story: Story, steps: &mut Steps) -> bool {
    match story {
        Story::Growths => growths::tell(alloc, play, steps),
        Story::Run => runs::tell(alloc, play, steps),
        Story::Thousand => thousand::tell(alloc, play, steps),
    }
}

/// Tells a story in a play with this register. It answers whether there was memory for that.
fn tell_in<L: Naming>(
    alloc: Global,
    register: Register<()>,
    story: Story,
    steps: &mut Steps,
) -> bool
    requires named { register.table ≡ L.table }
    requires empty { register.rows ≡ [] }
{
    match settings(alloc, SESSIONS) {
        Ok(settings) => {
            match Play::<L>::new(alloc, register, settings, RECORDS, WORKERS, ITEMS) {
                Ok(mut play) => tell(alloc, &mut play, story, steps),
                Err(refusal) => {
                    steps.note(refusal == PlayRefusal::Memory);
                    false
                }
            }
        }
        Err(_) => false,
    }
}

/// Tells a story in a play of its own. It answers whether there was memory for that.
fn tell_once(alloc: Global, story: Story, steps: &mut Steps) -> bool {
    match new_register(alloc) {
        Ok(register) => tell_in::<Brand>(alloc, register, story, steps),
        Err(_) => false,
    }
}

/// Tells a story in a play of its own, once more where a growth was refused: one is at most. Each of its steps is as
/// it is to be.
pub(crate) fn tell_story(rt: &impl Abort, alloc: Global, story: Story) {
    let mut steps = Steps { taken: 0, wrong: 0 };
    let is_told = tell_once(alloc, story, &mut steps) || tell_once(alloc, story, &mut steps);
    steps.note(is_told);
    assert!(rt; steps.wrong == 0, "step {} is wrong", steps.wrong);
}
