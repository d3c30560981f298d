//! The lines of a script as they come.
ghost use Rattle.std.specs.Prelude.{◌≡◌, ◌+◌, ◌<◌, ◌≤◌, ◌^◌, ◌++◌, ◌∷◌, [], List, ℕ, None};
ghost use Rattle.std.specs.Prelude.{Some, true, length, OnOk, IfOk, IfErr};
ghost use Rattle.std.specs.Io.KnownBytes.{Appends};
ghost use Rattle.scripts.specs.Headers.{default_limits, settings_of, are_good};
ghost use Rattle.scripts.specs.Script.{step_of, NamesHost};
ghost use Rattle.scripts.specs.Lines.{check_after, check_ahead, is_set_after};
ghost use Rattle.scripts.specs.Faults.{IsFaultOf, IsGood, IsOutside};
ghost use Rattle.scripts.specs.Stages.{head_of, IsReady};
ghost use Rattle.scripts.specs.Steps.{IsPerformed};
ghost use Rattle.scripts.specs.Streams.{IsWrites};
ghost use Rattle.scripts.specs.Printed.{start_of, hosts_of, server_of, Prints, PrintsAhead, Writes, GoesOn};

use crate::entry::PlayFault;
use crate::header::{HeaderFault, Limits};
use crate::player::Player;
use crate::script::{ScriptStep, StepFault, parse_step};
use crate::streams::Output;
use interleave::{Moment, Naming, Play, PlayRefusal, Register, Settings};
use line_grammar::Octets;
use std::alloc::{AllocError, Global};
use std::io::Write;

/// The server's name in a script.
const SERVER: &[u8; 11] = b"irc.example";

/// What is told of it.
const INFO: &[u8; 5] = b"halld";

/// The version that is told.
const VERSION: &[u8; 7] = b"halld-1";

/// How far a script has come.
#[derive(Drop)]
pub(crate) enum Stage<L: Naming> {
    /// No step has come, and the headers have set these limits.
    Head(Limits),
    /// A step has come.
    Steps(Player<L>),
}

/// The part of a script that has come, and until its first step the register of the sessions to come.
#[derive(Drop)]
pub(crate) struct Reader<L: Naming> {
    alloc: Global,
    register: Option<Register<()>>,
    stage: Stage<L>,
    line: Vec<u8>,
    ended: u64,
}

/// What a server with these limits is told when it starts.
fn settings_of(alloc: Global, limits: &Limits) -> Result<Settings, AllocError>
    ensures { IfOk result (λ settings. settings ≡ settings_of limits.now) }
{
    Ok(Settings {
        server: Octets::copy_of(alloc, SERVER)?,
        info: Octets::copy_of(alloc, INFO)?,
        version: Octets::copy_of(alloc, VERSION)?,
        created: Moment::new(0),
        motd: limits.motd.copy()?,
        accounts: limits.accounts.clone()?,
        sessions: limits.sessions,
    })
}

/// A player of a server with these limits.
fn new_player<L: Naming>(
    alloc: Global,
    register: Register<()>,
    limits: &Limits,
) -> Result<Player<L>, PlayFault>
    requires named { register.table ≡ L.table }
    requires empty { register.rows ≡ [] }
    ensures ok { IfOk result (λ player. are_good limits.now ≡ true) }
    ensures play { IfOk result (λ player. player.play ≡ start_of limits.now) }
    ensures hosts { IfOk result (λ player. player.hosts.items ≡ []) }
    ensures fault { IfErr result (IsFaultOf (check_after (Some limits.now) 1 [])) }
    ensures unasked { IfErr result (λ e. (n m : ℕ) → IsWrites n m e) }
{
    let settings = settings_of(alloc, limits)?;
    match Play::new(
        alloc,
        register,
        settings,
        limits.records,
        limits.workers,
        limits.sendq,
    ) {
        Ok(play) => Ok(Player::new(alloc, play)),
        Err(PlayRefusal::BadSettings) => Err(PlayFault::BadSettings),
        Err(PlayRefusal::Memory) => Err(PlayFault::Memory),
    }
}

impl<L: Naming> Reader<L> {
    /// A reader at the start of a script.
    pub(crate) fn new(alloc: Global, register: Register<()>) -> Reader<L>
        requires named { register.table ≡ L.table }
        requires empty { register.rows ≡ [] }
        ensures ready { IsReady L.table result.stage result.register }
        ensures head { head_of result.stage ≡ Some default_limits }
        ensures line { result.line.items ≡ [] }
        ensures ended { result.ended ≡ 0 }
    {
        Reader {
            alloc,
            register: Some(register),
            stage: Stage::Head(Limits::new(alloc)),
            line: Vec::new(alloc),
            ended: 0,
        }
    }

    /// Does what a step asks for. The first one sets the server up.
    #[tactic(auto, using(crate::proofs::Faults::from_outside))]
    fn step<W: Write + Drop>(
        &mut self,
        step: ScriptStep,
        output: &mut Output<W>,
    ) -> Result<(), PlayFault>
        requires ready { IsReady L.table self.old.stage self.old.register }
        requires host { NamesHost step }
        ensures ready { OnOk result (IsReady L.table self.new.stage self.new.register) }
        ensures head { OnOk result (head_of self.new.stage ≡ None) }
        ensures set { OnOk result (is_set_after (head_of self.old.stage) [] ≡ true) }
        ensures line { self.new.line ≡ self.old.line }
        ensures ended { self.new.ended ≡ self.old.ended }
        ensures performed { OnOk result ((text : List ℕ)
            × IsPerformed step (hosts_of self.old.stage) (server_of self.old.stage []) text
            (hosts_of self.new.stage) (server_of self.new.stage [])
            × Appends (W.contents output.old.inner) (W.contents output.new.inner) text) }
        ensures fault { IfErr result (IsFaultOf (check_after (head_of self.old.stage) 1 [])) }
        ensures same { OnOk result (output.new.failures ≡ output.old.failures) }
        ensures cause { IfErr result (IsWrites output.old.failures output.new.failures) }
    {
        self.set_up()?;
        match &mut self.stage {
            Stage::Steps(player) => player.perform(step, output),
            Stage::Head(_) => unreachable!(),
        }
    }

    /// Takes the script's present line, which is no step, as a header.
    #[tactic(auto, using(crate::proofs::Ahead::header_line, crate::proofs::Ahead::bad_after, crate::proofs::Ahead::bad_before, crate::proofs::Printing::header_prints))]
    fn header(&mut self) -> Result<(), PlayFault>
        requires some { 0 < length self.old.line.items }
        requires none { step_of self.old.line.items ≡ None }
        ensures ready { IsReady L.table self.old.stage self.old.register
            → OnOk result (IsReady L.table self.new.stage self.new.register) }
        ensures line { OnOk result (self.new.line.items ≡ []) }
        ensures ended { self.new.ended ≡ self.old.ended }
        ensures ahead { OnOk result ((more : List (List ℕ))
            → check_after (head_of self.new.stage) (self.new.ended + 1) more
            ≡ check_after (head_of self.old.stage) self.old.ended (self.old.line.items ∷ more)) }
        ensures printed { OnOk result ((more : List (List ℕ)) (text : List ℕ) → Prints
            self.new.stage more text → Prints self.old.stage (self.old.line.items ∷ more) text) }
        ensures fault { IfErr result (λ e. (more : List (List ℕ)) → IsFaultOf
            (check_after (head_of self.old.stage) self.old.ended (self.old.line.items ∷ more)) e) }
        ensures unasked { IfErr result (λ e. (n m : ℕ) → IsWrites n m e) }
    {
        let Stage::Head(limits) = &mut self.stage else {
            return Err(PlayFault::BadLine(self.ended));
        };
        match limits.take(self.alloc, &self.line) {
            Ok(()) => {}
            Err(HeaderFault::Bad) => return Err(PlayFault::BadLine(self.ended)),
            Err(HeaderFault::Memory) => return Err(PlayFault::Memory),
        }
        self.line.clear();
        Ok(())
    }

    /// Ends the script's present line.
    #[tactic(auto, using(crate::proofs::Ahead::empty_line))]
    fn end_line<W: Write + Drop>(&mut self, output: &mut Output<W>) -> Result<(), PlayFault>
        requires few { self.old.ended + 1 < 2 ^ 64 }
        requires ready { IsReady L.table self.old.stage self.old.register }
        ensures ready { OnOk result (IsReady L.table self.new.stage self.new.register) }
        ensures line { OnOk result (self.new.line.items ≡ []) }
        ensures ended { OnOk result (self.new.ended ≡ self.old.ended + 1) }
        ensures ahead { OnOk result ((more : List (List ℕ))
            → check_after (head_of self.new.stage) (self.new.ended + 1) more ≡ check_after
            (head_of self.old.stage) (self.old.ended + 1) (self.old.line.items ∷ more)) }
        ensures printed { OnOk result (Writes (W.contents output.old.inner)
            (W.contents output.new.inner)
            (λ written. (more : List (List ℕ)) (text : List ℕ) → Prints self.new.stage more text
            → Prints self.old.stage (self.old.line.items ∷ more) (written ++ text))) }
        ensures fault { IfErr result (λ e. (more : List (List ℕ)) → IsFaultOf (check_after
            (head_of self.old.stage) (self.old.ended + 1) (self.old.line.items ∷ more)) e) }
        ensures same { OnOk result (output.new.failures ≡ output.old.failures) }
        ensures cause { IfErr result (IsWrites output.old.failures output.new.failures) }
    {
        self.ended += 1;
        if self.line.is_empty() {
            return Ok(());
        }
        let step = match parse_step(self.alloc, &self.line) {
            Ok(step) => step,
            Err(StepFault::Bad) => return self.header(),
            Err(StepFault::Memory) => return Err(PlayFault::Memory),
        };
        self.line.clear();
        self.step(step, output)
    }

    /// Takes the script's next octet.
    #[tactic(auto, using(crate::proofs::Ahead::line_ends, crate::proofs::Ahead::line_goes_on, crate::proofs::Printing::in_line))]
    fn take_octet<W: Write + Drop>(
        &mut self,
        octet: u8,
        output: &mut Output<W>,
    ) -> Result<(), PlayFault>
        requires few { self.old.ended + 1 < 2 ^ 64 }
        requires ready { IsReady L.table self.old.stage self.old.register }
        ensures ready { OnOk result (IsReady L.table self.new.stage self.new.register) }
        ensures ended { OnOk result (self.new.ended ≤ self.old.ended + 1) }
        ensures ahead { OnOk result ((rest : List ℕ) → check_ahead
            (head_of self.new.stage) self.new.ended self.new.line.items rest ≡ check_ahead
            (head_of self.old.stage) self.old.ended self.old.line.items (octet ∷ rest)) }
        ensures printed { OnOk result (Writes (W.contents output.old.inner)
            (W.contents output.new.inner)
            (GoesOn self.old.stage self.old.line.items self.new.stage self.new.line.items
            (octet ∷ []))) }
        ensures fault { IfErr result (λ e. (rest : List ℕ) → IsFaultOf (check_ahead
            (head_of self.old.stage) self.old.ended self.old.line.items (octet ∷ rest)) e) }
        ensures same { OnOk result (output.new.failures ≡ output.old.failures) }
        ensures cause { IfErr result (IsWrites output.old.failures output.new.failures) }
    {
        if octet == b'\n' {
            return self.end_line(output);
        }
        self.line.push(octet)?;
        Ok(())
    }

    /// Takes what comes next of the script.
    pub(crate) fn feed<W: Write + Drop>(
        &mut self,
        block: &[u8],
        output: &mut Output<W>,
    ) -> Result<(), PlayFault>
        requires few { self.old.ended + length block.now < 2 ^ 64 }
        requires ready { IsReady L.table self.old.stage self.old.register }
        ensures ready { OnOk result (IsReady L.table self.new.stage self.new.register) }
        ensures ended { OnOk result (self.new.ended ≤ self.old.ended + length block.now) }
        ensures ahead { OnOk result ((rest : List ℕ) → check_ahead
            (head_of self.new.stage) self.new.ended self.new.line.items rest ≡ check_ahead
            (head_of self.old.stage) self.old.ended self.old.line.items (block.now ++ rest)) }
        ensures printed { OnOk result
            (Writes (W.contents output.old.inner)
            (W.contents output.new.inner) (GoesOn self.old.stage
            self.old.line.items self.new.stage self.new.line.items block.now)) }
        ensures fault { IfErr result (λ e. (rest : List ℕ) → IsFaultOf (check_ahead
            (head_of self.old.stage) self.old.ended self.old.line.items (block.now ++ rest)) e) }
        ensures same { OnOk result (output.new.failures ≡ output.old.failures) }
        ensures cause { IfErr result (IsWrites output.old.failures output.new.failures) }
    {
        for octet in block {
            self.take_octet(*octet, output)?;
        }
        Ok(())
    }

    /// Sets the server up, where no step came.
    fn set_up(&mut self) -> Result<(), PlayFault>
        requires ready { IsReady L.table self.old.stage self.old.register }
        ensures ready { OnOk result (IsReady L.table self.new.stage self.new.register) }
        ensures head { OnOk result (head_of self.new.stage ≡ None) }
        ensures hosts { OnOk result (hosts_of self.new.stage ≡ hosts_of self.old.stage) }
        ensures server { OnOk result
            (server_of self.new.stage [] ≡ server_of self.old.stage []) }
        ensures line { self.new.line ≡ self.old.line }
        ensures ended { self.new.ended ≡ self.old.ended }
        ensures good { OnOk result (is_set_after (head_of self.old.stage) [] ≡ true) }
        ensures fault { IfErr result (IsFaultOf (check_after (head_of self.old.stage) 1 [])) }
        ensures unasked { IfErr result (λ e. (n m : ℕ) → IsWrites n m e) }
    {
        if let Stage::Head(limits) = &self.stage {
            let Some(register) = self.register.take() else {
                unreachable!();
            };
            let player = new_player(self.alloc, register, limits)?;
            self.stage = Stage::Steps(player);
        }
        Ok(())
    }

    /// Ends the script.
    pub(crate) fn finish<W: Write + Drop>(
        &mut self,
        output: &mut Output<W>,
    ) -> Result<(), PlayFault>
        requires few { self.old.ended + 1 < 2 ^ 64 }
        requires ready { IsReady L.table self.old.stage self.old.register }
        ensures good { OnOk result
            (IsGood (check_ahead (head_of self.old.stage) self.old.ended self.old.line.items [])) }
        ensures printed { OnOk result (Writes (W.contents output.old.inner)
            (W.contents output.new.inner)
            (PrintsAhead self.old.stage self.old.line.items [])) }
        ensures fault { IfErr result (IsFaultOf
            (check_ahead (head_of self.old.stage) self.old.ended self.old.line.items [])) }
        ensures same { OnOk result (output.new.failures ≡ output.old.failures) }
        ensures cause { IfErr result (IsWrites output.old.failures output.new.failures) }
    {
        self.end_line(output)?;
        self.set_up()
    }
}
