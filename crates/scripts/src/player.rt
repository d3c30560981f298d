//! The steps of a script on a play.
ghost use Rattle.std.specs.Prelude.{◌≡◌, ◌++◌, [], List, Option, ℕ, OnOk, IfOk, IfErr};
ghost use Rattle.std.specs.Io.KnownBytes.{Appends};
ghost use Rattle.interleave.specs.Steps.{IsWellShaped, IsStep};
ghost use Rattle.scripts.specs.Script.{NamesHost};
ghost use Rattle.scripts.specs.Notes.{named_by, host_of, opened_by, answer_text, whole_text};
ghost use Rattle.scripts.specs.Steps.{Answer, is_item, is_hung, late_text, IsLateHung};
ghost use Rattle.scripts.specs.Steps.{IsHungOut, IsBeat, IsDrained, IsPerformed};
ghost use Rattle.scripts.specs.Streams.{IsWrites};
ghost use Rattle.scripts.specs.Faults.{IsOutside};

use crate::entry::PlayFault;
use crate::notes::{notes_of, whole_notes};
use crate::script::ScriptStep;
use crate::streams::Output;
use crate::worker_one::{do_line, hang_late, tick, tidy};
use interleave::{Event, Moment, Naming, Note, Play, SessionId, StepRefusal};
use line_grammar::Octets;
use std::alloc::{AllocError, Global};
use std::io::Write;

/// The number that no session has.
const NOBODY: u64 = 0;

/// A play with the hosts of its sessions, by their numbers.
#[derive(Drop)]
pub(crate) struct Player<L: Naming> {
    alloc: Global,
    play: Play<L>,
    hosts: Vec<Octets>,
}

/// The session that an event names, or nobody.
fn named_by(event: &Event) -> SessionId
    ensures { result ≡ named_by event.now }
{
    match event {
        Event::Feed { session, .. }
        | Event::Pick { session, .. }
        | Event::Take { session }
        | Event::Hang { session, .. }
        | Event::Reap { session } => *session,
        Event::Connect { .. }
        | Event::Begin { .. }
        | Event::Put { .. }
        | Event::End { .. }
        | Event::Back { .. }
        | Event::Sweep { .. }
        | Event::Tick { .. } => SessionId::new(NOBODY),
    }
}

/// Whether an item was taken.
fn is_item(answer: &Result<Note, StepRefusal>) -> bool
    ensures { result ≡ is_item answer.now }
{
    matches!(answer, Ok(Note::Item(_)))
}

/// Writes notes.
fn write<W: Write + Drop>(notes: &[u8], output: &mut Output<W>) -> Result<(), PlayFault>
    ensures written { OnOk result
        (Appends (W.contents output.old.inner) (W.contents output.new.inner) notes.now) }
    ensures fault { IfErr result IsOutside }
    ensures same { OnOk result (output.new.failures ≡ output.old.failures) }
    ensures cause { IfErr result (IsWrites output.old.failures output.new.failures) }
{
    output.write_all(notes)
}

impl<L: Naming> Player<L> {
    /// A player of a play that has no sessions.
    pub(crate) fn new(alloc: Global, play: Play<L>) -> Player<L>
        ensures play { result.play ≡ play }
        ensures hosts { result.hosts.items ≡ [] }
    {
        Player {
            alloc,
            play,
            hosts: Vec::new(alloc),
        }
    }

    /// The host of a session, nothing where it wasn't opened.
    fn host(&self, session: SessionId) -> &[u8]
        ensures { result.now ≡ host_of self.now.hosts.items session }
    {
        let number = session.number();
        if number == 0 || self.hosts.len() < number as usize {
            return &[];
        }
        self.hosts[number as usize - 1].as_slice()
    }

    /// Takes one event, and keeps the host of a session that it opens.
    fn take(&mut self, event: &Event) -> Result<Result<Note, StepRefusal>, AllocError>
        requires { IsWellShaped event.now }
        ensures step { IfOk result (λ answer. IsStep self.old.play event.now answer self.new.play) }
        ensures hosts { IfOk result
            (λ answer. self.new.hosts.items ≡ self.old.hosts.items ++ opened_by event.now answer) }
        ensures host { host_of self.new.hosts.items (named_by event.now)
            ≡ host_of self.old.hosts.items (named_by event.now) }
    {
        let Event::Connect { host, .. } = event else {
            return Ok(self.play.step(event));
        };
        let copy = host.clone()?;
        self.hosts.reserve(1)?;
        let answer = self.play.step(event);
        if let Ok(Note::Session(_)) = answer {
            self.hosts.push_reserved(copy);
        }
        Ok(answer)
    }

    /// Takes one event and writes its notes.
    fn one<W: Write + Drop>(
        &mut self,
        event: &Event,
        output: &mut Output<W>,
    ) -> Result<Result<Note, StepRefusal>, PlayFault>
        requires { IsWellShaped event.now }
        ensures step { IfOk result (λ answer. IsStep self.old.play event.now answer self.new.play) }
        ensures hosts { IfOk result
            (λ answer. self.new.hosts.items ≡ self.old.hosts.items ++ opened_by event.now answer) }
        ensures written { IfOk result (λ answer. Appends (W.contents output.old.inner)
            (W.contents output.new.inner) (answer_text (named_by event.now)
            (host_of self.old.hosts.items (named_by event.now)) answer)) }
        ensures fault { IfErr result IsOutside }
        ensures same { OnOk result (output.new.failures ≡ output.old.failures) }
        ensures cause { IfErr result (IsWrites output.old.failures output.new.failures) }
    {
        let answer = self.take(event)?;
        let session = named_by(event);
        let notes = notes_of(self.alloc, session, self.host(session), &answer)?;
        write(&notes, output)?;
        Ok(answer)
    }

    /// Writes the notes of what worker 1 came to alone, of which a record has this label.
    fn tell<W: Write + Drop>(
        &self,
        label: &str,
        answer: &Result<Note, StepRefusal>,
        output: &mut Output<W>,
    ) -> Result<(), PlayFault>
        ensures written { OnOk result (Appends (W.contents output.old.inner)
            (W.contents output.new.inner)
            (whole_text label.now answer.now)) }
        ensures fault { IfErr result IsOutside }
        ensures same { OnOk result (output.new.failures ≡ output.old.failures) }
        ensures cause { IfErr result (IsWrites output.old.failures output.new.failures) }
    {
        let notes = whole_notes(self.alloc, label, answer)?;
        write(&notes, output)
    }

    /// Takes what is due to a session until there is nothing more.
    fn drain<W: Write + Drop>(
        &mut self,
        session: SessionId,
        output: &mut Output<W>,
    ) -> Result<(), PlayFault>
        ensures step { OnOk result ((text : List ℕ) × IsDrained session
            (host_of self.old.hosts.items session) self.old.play text self.new.play
            × (self.new.hosts.items ≡ self.old.hosts.items)
            × Appends (W.contents output.old.inner) (W.contents output.new.inner) text) }
        ensures fault { IfErr result IsOutside }
        ensures same { OnOk result (output.new.failures ≡ output.old.failures) }
        ensures cause { IfErr result (IsWrites output.old.failures output.new.failures) }
    {
        for _ in 0..u64::MAX {
            let answer = self.one(&Event::Take { session }, output)?;
            if !is_item(&answer) {
                break;
            }
        }
        Ok(())
    }

    /// Hangs the late session of the lowest number and writes its notes, and answers whether one was hung.
    fn hang_next<W: Write + Drop>(
        &mut self,
        moment: Moment,
        output: &mut Output<W>,
    ) -> Result<bool, PlayFault>
        ensures step { IfOk result (λ more. (a : Option Answer)
            × IsLateHung moment self.old.play a self.new.play × (more ≡ is_hung a)
            × Appends (W.contents output.old.inner) (W.contents output.new.inner) (late_text a)) }
        ensures hosts { self.new.hosts.items ≡ self.old.hosts.items }
        ensures fault { IfErr result IsOutside }
        ensures same { OnOk result (output.new.failures ≡ output.old.failures) }
        ensures cause { IfErr result (IsWrites output.old.failures output.new.failures) }
    {
        let Some(answer) = hang_late(&mut self.play, moment) else {
            return Ok(false);
        };
        let notes = notes_of(self.alloc, SessionId::new(NOBODY), &[], &answer)?;
        write(&notes, output)?;
        Ok(answer.is_ok())
    }

    /// Hangs late sessions until there is none.
    fn hang_all<W: Write + Drop>(
        &mut self,
        moment: Moment,
        output: &mut Output<W>,
    ) -> Result<(), PlayFault>
        ensures step { OnOk result ((text : List ℕ) × IsHungOut moment self.old.play text
            self.new.play × Appends (W.contents output.old.inner)
            (W.contents output.new.inner) text) }
        ensures hosts { self.new.hosts.items ≡ self.old.hosts.items }
        ensures fault { IfErr result IsOutside }
        ensures same { OnOk result (output.new.failures ≡ output.old.failures) }
        ensures cause { IfErr result (IsWrites output.old.failures output.new.failures) }
    {
        for _ in 0..u64::MAX {
            if !self.hang_next(moment, output)? {
                break;
            }
        }
        Ok(())
    }

    /// Ticks, and hangs who is late.
    fn beat<W: Write + Drop>(
        &mut self,
        moment: Moment,
        output: &mut Output<W>,
    ) -> Result<(), PlayFault>
        ensures step { OnOk result ((text : List ℕ) × IsBeat moment self.old.play text self.new.play
            × Appends (W.contents output.old.inner) (W.contents output.new.inner) text) }
        ensures hosts { self.new.hosts.items ≡ self.old.hosts.items }
        ensures fault { IfErr result IsOutside }
        ensures same { OnOk result (output.new.failures ≡ output.old.failures) }
        ensures cause { IfErr result (IsWrites output.old.failures output.new.failures) }
    {
        let answer = tick(&mut self.play, moment);
        self.tell("tick", &answer, output)?;
        match answer {
            Ok(_) => self.hang_all(moment, output),
            Err(_) => Ok(()),
        }
    }

    /// Does what a step of the script asks for.
    pub(crate) fn perform<W: Write + Drop>(
        &mut self,
        step: ScriptStep,
        output: &mut Output<W>,
    ) -> Result<(), PlayFault>
        requires { NamesHost step }
        ensures step { OnOk result ((text : List ℕ) × IsPerformed step
            self.old.hosts.items self.old.play text self.new.hosts.items self.new.play
            × Appends (W.contents output.old.inner) (W.contents output.new.inner) text) }
        ensures fault { IfErr result IsOutside }
        ensures same { OnOk result (output.new.failures ≡ output.old.failures) }
        ensures cause { IfErr result (IsWrites output.old.failures output.new.failures) }
    {
        match step {
            ScriptStep::One(event) => {
                let _ = self.one(&event, output)?;
                Ok(())
            }
            ScriptStep::Do { session, moment } => {
                let answer = do_line(&mut self.play, session, moment);
                self.tell("record", &answer, output)
            }
            ScriptStep::Tidy { moment } => {
                let answer = tidy(&mut self.play, moment);
                self.tell("sweep", &answer, output)
            }
            ScriptStep::Drain { session } => self.drain(session, output),
            ScriptStep::Beat { moment } => self.beat(moment, output),
        }
    }
}
