//! A story of sessions on a server in memory.
ghost use Rattle.std.specs.Prelude.{◌≡◌, []};

use crate::acts::{Act, Props, is_so};
use crate::fakes::Input;
use crate::making::Guest;
use crate::scene::{Scene, Surroundings};
use book::{Hall, Naming, Register};
use crew::session_io::Outlet;
use crew_apart::hall;
use outbox::{ChannelName, Sender};
use std::alloc::Global;
use std::marker::Brand;
use std::process::Abort;
use std::sync::{Mutex, Wait};
use std::thread::Threads;
use std::time::Clock;

/// Steps that are taken in turn: how many, and which was the first that wasn't as it is to be, where one wasn't.
#[derive(Drop)]
pub(crate) struct Steps {
    taken: u32,
    wrong: u32,
}

impl Steps {
    /// Notes a step, and whether it is as it is to be.
    fn note(&mut self, is_right: bool) {
        self.taken = self.taken.saturating_add(1);
        if !is_right && self.wrong == 0 {
            self.wrong = self.taken;
        }
    }
}

/// Who acts: the first that is opened, or the second.
#[derive(Clone, Copy, PartialEq)]
pub(crate) enum Who {
    Al,
    Bo,
}

/// An act of one of two.
pub(crate) type WhoActs = (Who, Act);

/// What happens: steps in turn, of which each part is repeated so often; and what is fed to a session, what it is told
/// of that, and by which record it is ended then.
#[derive(Drop)]
pub(crate) struct Story<'a> {
    pub(crate) input: &'a [u8],
    pub(crate) most: usize,
    pub(crate) ends: bool,
    pub(crate) waits: bool,
    pub(crate) output: &'a [u8],
    pub(crate) number: u64,
    pub(crate) parts: &'a [(u32, &'a [WhoActs])],
}

impl<'a> Story<'a> {
    /// What nothing is fed in.
    pub(crate) fn of(parts: &'a [(u32, &'a [WhoActs])]) -> Story<'a> {
        Story {
            input: b"",
            most: 1,
            ends: true,
            waits: false,
            output: b"",
            number: 0,
            parts,
        }
    }

    /// What is fed, whole.
    fn input(&self) -> Input<'a> {
        Input {
            octets: self.input,
            most: self.most,
            ends: self.ends,
            waits: self.waits,
            is_there: false,
        }
    }
}

/// Takes steps in turn, and notes each.
fn go<'a, L: Naming + Send + Sync, R: Threads + Wait + Clock + Copy + Drop + Send + Sync>(
    scene: &Scene<'a, L, R>,
    al: &mut Guest<L, R>,
    bo: &mut Guest<L, R>,
    props: &mut Props<'a, L>,
    acts: &[WhoActs],
    steps: &mut Steps,
) {
    for (who, act) in acts {
        let is_right = match who {
            Who::Al => is_so(scene, al, bo, props, act),
            Who::Bo => is_so(scene, bo, al, props, act),
        };
        steps.note(is_right);
    }
}

/// Plays a story.
fn play<'a, L: Naming + Send + Sync, R: Threads + Wait + Clock + Copy + Drop + Send + Sync>(
    scene: &Scene<'a, L, R>,
    al: &mut Guest<L, R>,
    bo: &mut Guest<L, R>,
    props: &mut Props<'a, L>,
    story: &Story<'_>,
    steps: &mut Steps,
) {
    for (count, acts) in story.parts {
        for _ in 0..*count {
            go(scene, al, bo, props, acts, steps);
        }
    }
}

/// Plays a story over this hall.
fn play_over<'a, L: Naming + Send + Sync, R: Threads + Wait + Clock + Copy + Drop + Send + Sync>(
    rt: &'a R,
    alloc: Global,
    hall: &'a Mutex<Hall<L, Sender<R>>>,
    around: &'a Surroundings,
    story: &'a Story<'a>,
    steps: &mut Steps,
) {
    let (mut al, mut bo) = (Guest::new(alloc), Guest::new(alloc));
    let mut props = Props {
        input: story.input(),
        output: story.output,
        number: story.number,
        outlet: Outlet::new(),
    };
    let scene = around.scene(rt, alloc, hall);
    play(&scene, &mut al, &mut bo, &mut props, story, steps);
}

/// Plays a story in a hall whose sessions this register has. It answers whether there was memory for the hall.
fn play_in<L: Naming + Send + Sync, R: Threads + Wait + Clock + Copy + Drop + Send + Sync>(
    rt: &R,
    alloc: Global,
    register: Register<ChannelName>,
    around: &Surroundings,
    story: &Story<'_>,
    steps: &mut Steps,
) -> bool
    requires named { register.table ≡ L.table }
    requires empty { register.rows ≡ [] }
{
    match hall::<L, R>(alloc, register) {
        Some(made) => {
            play_over(rt, alloc, &Mutex::new(made), around, story, steps);
            true
        }
        None => false,
    }
}

/// Plays a story in a hall with a register of its own. It answers whether there was memory for both.
fn play_once<R: Threads + Wait + Clock + Copy + Drop + Send + Sync>(
    rt: &R,
    alloc: Global,
    around: &Surroundings,
    story: &Story<'_>,
    steps: &mut Steps,
) -> bool {
    match Register::new(alloc) {
        Ok(register) => play_in::<Brand, R>(rt, alloc, register, around, story, steps),
        Err(_) => false,
    }
}

/// Plays a story in a hall, which is made once more where there was no memory for it. Each of its steps is as it is to
/// be.
pub(crate) fn try_out<R: Threads + Wait + Clock + Abort + Copy + Drop + Send + Sync>(
    rt: &R,
    alloc: Global,
    story: &Story<'_>,
) {
    let mut steps = Steps { taken: 0, wrong: 0 };
    let is_played = match Surroundings::new(rt, alloc) {
        Some(around) => {
            play_once(rt, alloc, &around, story, &mut steps)
                || play_once(rt, alloc, &around, story, &mut steps)
        }
        None => false,
    };
    steps.note(is_played);
    assert!(rt; steps.wrong == 0, "step {} is wrong", steps.wrong);
}
