//! Sessions, each with all that is held of it.
ghost use Rattle.std.specs.Prelude.{◌≡◌, [], Some, IfSome, true};
ghost use Rattle.std.specs.Option.{ForSome};
ghost use Rattle.casemapping.specs.Names.{host_shape};

use crate::fakes::{Input, Open, Stream, Turnstile, Wanted};
use crate::scene::Scene;
use book::{Baton, FlushList, Hall, Left, LineRefusal, Naming, ReapRefusal, Stub};
use casemapping::is_host;
use chronicle::{Moment, SessionId, Why};
use crew::session_io::{
    Backlog, Next, Outlet, ReapOutcome, ReceiveBuffer, close_now, give_up, hang, read_some,
};
use crew::{Desk, Gate, Job, close_up, read_on, work, work_one, write_on};
use crew_apart::work_under_slot;
use deliveries::{Item, write_out};
use line_grammar::{Octets, Piece};
use outbox::{ChannelName, Sender, Waker, Writer, pair};
use std::alloc::Global;
use std::sync::atomic::Ordering;
use std::sync::{Mutex, Wait};
use std::thread::{Threads, join};
use std::time::Clock;
use wire::{Flow, Sink, Wire};

/// A line. Memory is asked for again where there was none.
pub(crate) fn line(alloc: Global, octets: &[u8]) -> Option<Piece> {
    let octets = match Octets::copy_of(alloc, octets) {
        Ok(octets) => octets,
        Err(_) => Octets::copy_of(alloc, octets).ok()?,
    };
    Some(Piece::Line(octets))
}

/// The host of each session.
fn host(alloc: Global) -> Option<Octets>
    ensures { IfSome result (λ h. host_shape h ≡ true) }
{
    let host = Octets::copy_of(alloc, b"h1").ok()?;
    if is_host(host.as_slice()) {
        Some(host)
    } else {
        None
    }
}

/// A session's stub, and what takes its items.
#[derive(Drop)]
pub(crate) struct Ends<L: Naming> {
    stub: Stub<L, ChannelName>,
    writer: Writer,
    ghost own: { stub.outbox ≡ Some writer.channel },
}

/// What is held of a session: its tokens, each until it is handed over, its intake, and who got something by its
/// lines.
#[derive(Drop)]
pub(crate) struct Guest<L: Naming, R: Wait + Drop> {
    pub(crate) session: SessionId,
    pub(crate) flushes: FlushList,
    intake: Option<ReceiveBuffer>,
    baton: Option<Baton<L, Sender<R>>>,
    ends: Option<Ends<L>>,
    ghost its_baton: { ForSome baton (λ b. b.session ≡ session) },
    ghost its_ends: { ForSome ends (λ e. e.stub.session ≡ session) },
}

/// An intake. Memory is asked for again where there was none.
fn intake(alloc: Global) -> Option<ReceiveBuffer> {
    match ReceiveBuffer::new(alloc) {
        Ok(intake) => Some(intake),
        Err(_) => ReceiveBuffer::new(alloc).ok(),
    }
}

impl<L: Naming, R: Wait + Drop> Guest<L, R> {
    /// Nothing is held of it yet. Memory is asked for again where there was none.
    pub(crate) fn new(alloc: Global) -> Guest<L, R> {
        Guest {
            session: SessionId::new(0),
            flushes: FlushList::new(alloc),
            intake: intake(alloc),
            baton: None,
            ends: None,
        }
    }
}

/// The two ends of an outbox for sixteen items. Memory is asked for again where there was none.
fn outbox<R: Wait + Drop + Copy>(rt: &R, alloc: Global) -> Option<(Sender<R>, Writer)>
    ensures sent { IfSome result (λ p. p.0.sent ≡ []) }
    ensures channel { IfSome result (λ p. p.0.channel ≡ p.1.channel) }
{
    match pair(*rt, alloc, 16) {
        Ok(ends) => Some(ends),
        Err(_) => pair(*rt, alloc, 16).ok(),
    }
}

impl<L: Naming, R: Wait + Drop + Copy> Guest<L, R> {
    /// Opens a session with an outbox for sixteen items, and answers whether it is opened.
    fn opens_once(&mut self, scene: &Scene<'_, L, R>) -> bool {
        let Some(host) = host(scene.alloc) else {
            return false;
        };
        let Some((sender, writer)) = outbox(scene.rt, scene.alloc) else {
            return false;
        };
        match scene
            .stage
            .hall
            .lock(scene.rt)
            .open(host, Moment::new(0), sender)
        {
            Ok((session, baton, stub)) => {
                self.session = session;
                self.baton = Some(baton);
                self.ends = Some(Ends { stub, writer });
                true
            }
            Err(_) => false,
        }
    }

    /// Whether a session is opened, which has an intake. Memory is asked for again where there was none.
    pub(crate) fn comes(&mut self, scene: &Scene<'_, L, R>) -> bool {
        self.intake.is_some() && (self.opens_once(scene) || self.opens_once(scene))
    }
}

impl<L: Naming, R: Wait + Drop> Guest<L, R> {
    /// Has lines done in turn under a slot, and answers whether all were.
    pub(crate) fn works(&mut self, scene: &Scene<'_, L, R>, pieces: &[Piece]) -> bool {
        match self.baton.take() {
            Some(baton) => {
                let desk = &scene.around.desk;
                let worked = work(
                    scene.rt,
                    &scene.stage,
                    desk,
                    baton,
                    pieces,
                    &mut self.flushes,
                );
                self.baton = Some(worked.baton);
                worked.all
            }
            None => false,
        }
    }

    /// Has a line done under a slot, and answers whether it was.
    pub(crate) fn says(&mut self, scene: &Scene<'_, L, R>, octets: &[u8]) -> bool {
        match line(scene.alloc, octets) {
            Some(piece) => self.works(scene, &[piece]),
            None => false,
        }
    }

    /// Does a line by itself.
    fn works_one(&mut self, scene: &Scene<'_, L, R>, piece: Piece) -> Result<(), LineRefusal> {
        let Some(baton) = self.baton.take() else {
            return Err(LineRefusal::WrongTurn);
        };
        let (job, moment) = (Job { baton, piece }, Moment::new(0));
        let hall = scene.stage.hall;
        let back = work_one(scene.rt, hall, job, moment, &Open, &mut self.flushes);
        self.baton = Some(back.baton);
        match &back.outcome {
            Ok(_) => Ok(()),
            Err(refusal) => Err(*refusal),
        }
    }

    /// Does a line by itself.
    pub(crate) fn does(
        &mut self,
        scene: &Scene<'_, L, R>,
        octets: &[u8],
    ) -> Result<(), LineRefusal> {
        match line(scene.alloc, octets) {
            Some(piece) => self.works_one(scene, piece),
            None => Err(LineRefusal::Busy),
        }
    }

    /// Does what is left of the intake or reads once, and answers whether all was done, and how the reading goes on.
    pub(crate) fn reads<B: Backlog>(
        &mut self,
        scene: &Scene<'_, L, R>,
        backlog: &B,
        input: &mut Input<'_>,
    ) -> (bool, Next) {
        let Some(baton) = &mut self.baton else {
            return (false, Next::Nothing);
        };
        let Some(intake) = &mut self.intake else {
            return (false, Next::Nothing);
        };
        let flushes = &mut self.flushes;
        let took = read_some(
            scene.rt,
            &scene.stage,
            intake,
            baton,
            backlog,
            input,
            flushes,
        );
        (took.all, took.next)
    }

    /// Whether lines that were read aren't done.
    pub(crate) fn has_lines(&self) -> bool {
        match &self.intake {
            Some(intake) => intake.has_lines(),
            None => false,
        }
    }

    /// Reads until its reading is over, and answers whether all lines were done.
    pub(crate) fn reads_on(&mut self, scene: &Scene<'_, L, R>, input: &mut Input<'_>) -> bool {
        match self.baton.take() {
            Some(baton) => {
                let desk = &scene.around.desk;
                let worked = read_on(scene.rt, scene.alloc, &scene.stage, desk, baton, input);
                self.baton = Some(worked.baton);
                worked.all
            }
            None => false,
        }
    }

    /// Ends the session for this reason, and answers whether it is.
    pub(crate) fn hangs(&mut self, scene: &Scene<'_, L, R>, why: Why) -> bool {
        hang(scene.rt, &scene.stage, self.session, why, &mut self.flushes)
            .hung
            .is_ok()
    }

    /// Takes an item.
    pub(crate) fn takes(&mut self, rt: &R) -> Option<Item> {
        match self.ends.take() {
            Some(Ends { stub, mut writer }) => {
                let item = writer.take_now(rt).ok();
                self.ends = Some(Ends { stub, writer });
                item
            }
            None => None,
        }
    }

    /// Takes so many items, and answers whether each was there.
    pub(crate) fn hears(&mut self, rt: &R, count: u32) -> bool {
        let mut all = true;
        for _ in 0..count {
            all = self.takes(rt).is_some() && all;
        }
        all
    }

    /// Takes as many items as there are texts, and answers whether each is just its text, and none is left.
    pub(crate) fn takes_all(&mut self, rt: &R, texts: &[&[u8]]) -> bool {
        let mut all = true;
        for text in texts {
            all = match self.takes(rt) {
                Some(item) => is_text(&item, text) && all,
                None => false,
            };
        }
        self.takes(rt).is_none() && all
    }

    /// Once more the bell that is rung where something is put.
    pub(crate) fn bell(&self) -> Option<Waker> {
        match &self.ends {
            Some(ends) => ends.writer.bell().again().ok(),
            None => None,
        }
    }

    /// Makes a wire from its outbox to this stream.
    fn wire<W: Sink + Drop>(&mut self, alloc: Global, stream: W) -> Option<Wire<L, W>>
        ensures { IfSome result (λ w. w.session ≡ self.new.session) }
    {
        let host = Octets::copy_of(alloc, b"h1").ok()?;
        match self.ends.take() {
            Some(Ends { stub, writer }) => Wire::new(alloc, writer, stub, stream, host).ok(),
            None => None,
        }
    }

    /// Gives an outlet a wire to this stream, and answers whether it did.
    pub(crate) fn opens<'a>(
        &mut self,
        scene: &Scene<'_, L, R>,
        stream: Stream<'a>,
        outlet: &Outlet<L, Stream<'a>>,
    ) -> bool {
        match self.wire(scene.alloc, stream) {
            Some(wire) => {
                outlet.open(scene.rt, wire);
                true
            }
            None => false,
        }
    }

    /// Writes to this stream until its writing is over, and answers whether its wire comes back.
    pub(crate) fn writes_on(&mut self, scene: &Scene<'_, L, R>, stream: Stream<'_>) -> bool {
        match self.wire(scene.alloc, stream) {
            Some(wire) => {
                let wire = write_on(scene.rt, scene.alloc, &scene.stage, wire);
                wire.session() == self.session
            }
            None => false,
        }
    }

    /// Whether just this waits for it, in two parts, and its writing stands so then.
    pub(crate) fn is_told(
        &mut self,
        scene: &Scene<'_, L, R>,
        flow: Flow,
        parts: (&[u8], &[u8]),
    ) -> bool {
        match self.wire(scene.alloc, Vec::new(scene.alloc)) {
            Some(mut wire) => {
                let is_told = tells(scene.rt, &mut wire, flow, parts);
                let (writer, stub) = wire.apart();
                self.ends = Some(Ends { stub, writer });
                is_told
            }
            None => false,
        }
    }

    /// All its tokens.
    fn tokens(&mut self) -> Option<(Baton<L, Sender<R>>, Ends<L>)>
        ensures session { self.new.session ≡ self.old.session }
        ensures baton { IfSome result (λ t. t.0.session ≡ self.new.session) }
        ensures ends { IfSome result (λ t. t.1.stub.session ≡ self.new.session) }
    {
        let baton = self.baton.take()?;
        let ends = self.ends.take()?;
        Some((baton, ends))
    }

    /// How many items were left, where this is what is left of this session.
    fn count(&self, left: &Left<L>) -> Option<u64> {
        if left.session() == self.session {
            Some(left.count())
        } else {
            None
        }
    }

    /// Sweeps all who are shut, and gives the session up, and answers how many items were left; nothing where it isn't
    /// gone.
    pub(crate) fn closes(&mut self, scene: &Scene<'_, L, R>) -> Option<u64> {
        let (baton, Ends { stub, writer }) = self.tokens()?;
        match close_now(
            scene.rt,
            &scene.stage,
            baton,
            stub,
            writer,
            &mut self.flushes,
        ) {
            Ok(left) => self.count(&left),
            Err((baton, stub, writer)) => {
                self.baton = Some(baton);
                self.ends = Some(Ends { stub, writer });
                None
            }
        }
    }

    /// Sweeps and gives the session up, again and again until it is, and answers how many items were left.
    pub(crate) fn closes_up(&mut self, scene: &Scene<'_, L, R>) -> Option<u64> {
        let (baton, Ends { stub, writer }) = self.tokens()?;
        let left = close_up(scene.rt, scene.alloc, &scene.stage, baton, stub, writer);
        self.count(&left)
    }

    /// Gives the session up, and answers how many items were left, or why it isn't given up.
    pub(crate) fn gives_up(&mut self, scene: &Scene<'_, L, R>) -> Result<Option<u64>, ReapRefusal> {
        let Some((baton, Ends { stub, writer })) = self.tokens() else {
            return Ok(None);
        };
        let ReapOutcome { left, .. } = give_up(scene.rt, &scene.stage, baton, stub, writer);
        match left {
            Ok(left) => Ok(self.count(&left)),
            Err((refusal, baton, stub, writer)) => {
                self.baton = Some(baton);
                self.ends = Some(Ends { stub, writer });
                Err(refusal)
            }
        }
    }
}

/// Whether an item is just this.
pub(crate) fn is_text(item: &Item, octets: &[u8]) -> bool {
    let mut wanted = Wanted { left: octets };
    write_out(item.delivery(), b"h1", &mut wanted).1.is_ok() && wanted.left.is_empty()
}

/// Whether just this goes out on a wire, in two parts, and its writing stands so then.
fn tells<L: Naming, R: Wait>(
    rt: &R,
    wire: &mut Wire<L, Vec<u8>>,
    flow: Flow,
    parts: (&[u8], &[u8]),
) -> bool
    ensures { wire.new.session ≡ wire.old.session }
{
    wire.pump(rt) == Ok(flow) && wire.stream().as_slice().strip_prefix(parts.0) == Some(parts.1)
}

/// Has a line done under a slot, and answers with the session's baton.
fn say<L: Naming, R: Wait + Drop, G: Gate>(
    scene: &Scene<'_, L, R>,
    desk: &Desk,
    gate: &G,
    baton: Baton<L, Sender<R>>,
    octets: &[u8],
) -> (Baton<L, Sender<R>>, bool)
    ensures { result.0.session ≡ baton.session }
{
    let alloc = scene.alloc;
    match line(alloc, octets) {
        Some(piece) => {
            work_under_slot(scene.rt, alloc, scene.stage.hall, desk, gate, baton, piece)
        }
        None => (baton, false),
    }
}

/// Has two sessions do a line each, on two threads, and tells a gate when the second was answered.
/// It answers whether both were done.
pub(crate) fn work_two<
    L: Naming + Send + Sync,
    R: Threads + Wait + Clock + Copy + Drop + Send + Sync,
>(
    scene: &Scene<'_, L, R>,
    desk: &Desk,
    gate: &Turnstile<R>,
    al: &mut Guest<L, R>,
    bo: &mut Guest<L, R>,
) -> bool {
    let Some(baton) = al.baton.take() else {
        return false;
    };
    let Some(their_baton) = bo.baton.take() else {
        return false;
    };
    let (done, their_done) = join(
        scene.rt,
        || say(scene, desk, gate, baton, b"PING x"),
        || {
            let done = say(scene, desk, gate, their_baton, b"PING y");
            gate.is_answered.store(true, Ordering::SeqCst);
            done
        },
    );
    al.baton = Some(done.0);
    bo.baton = Some(their_done.0);
    done.1 && their_done.1
}
