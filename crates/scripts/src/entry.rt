//! Playing a script from a reader to a writer.
//!
//! Input and output are lent, because only then can a clause name what the reader had. The register is made before
//! anything is read, since a type with its name stays within this call.
ghost use Rattle.std.specs.Prelude.{◌≡◌, ◌<◌, ◌≤◌, ◌^◌, [], List, ℕ, Some, true, is_ok, OnOk, IfErr, IfSome};
ghost use Rattle.std.specs.Io.KnownBytes.{Keeps};
ghost use Rattle.scripts.specs.declared.entry.PlayFault.TheVariants.{WriteFailed};
ghost use Rattle.scripts.specs.Lines.{check_of, check_ahead};
ghost use Rattle.scripts.specs.Faults.{IsFaultOf, IsGood};
ghost use Rattle.scripts.specs.Stages.{head_of, IsReady};
ghost use Rattle.scripts.specs.Printed.{IsPrinted, PrintsAhead, Writes};
ghost use Rattle.scripts.specs.Streams.{HasCause, IsWrites};

use crate::reader::Reader;
use crate::streams::{Input, Output};
use interleave::{Naming, Register};
use std::alloc::{AllocError, AllocFailed, Global};
use std::io::{ErrorKind, Read, Write};
use std::marker::Brand;
use thiserror::Error;

/// How many octets are read at once.
const BLOCK: usize = 4096;

/// How many reads a script may take.
const READS: u32 = 1_000_000;

/// Why a script was not played to its end.
#[derive(Clone, Copy, Debug, Error, PartialEq)]
pub enum PlayFault {
    /// The script's line of this number, from 1, is no step, and no header before the first step.
    #[error("script line {0}")]
    BadLine(u64),
    /// The server can't be set up as the headers say.
    #[error("settings")]
    BadSettings,
    /// The script could not be read, or takes more than a million reads.
    #[error("input failed")]
    ReadFailed,
    /// A note could not be written.
    #[error("output failed")]
    WriteFailed,
    /// A growth of the player's own was refused.
    #[error("out of memory")]
    Memory,
}

impl From<AllocError> for PlayFault {
    ghost use Rattle.std.specs.Prelude.{◌≡◌};
    ghost use Rattle.scripts.specs.declared.entry.PlayFault.TheVariants.{Memory};

    ghost from_gives = { λ _ e. e ≡ Memory };

    fn from(_error: AllocError) -> PlayFault {
        PlayFault::Memory
    }
}

impl<T: Drop> From<AllocFailed<T>> for PlayFault {
    ghost use Rattle.std.specs.Prelude.{◌≡◌};
    ghost use Rattle.scripts.specs.declared.entry.PlayFault.TheVariants.{Memory};

    ghost from_gives = { λ _ e. e ≡ Memory };

    fn from(_error: AllocFailed<T>) -> PlayFault {
        PlayFault::Memory
    }
}

/// Reads a script to its end, and writes the notes of each step.
fn play_lines<L: Naming, R: Read + Drop, W: Write + Drop>(
    reader: &mut Reader<L>,
    input: &mut Input<R>,
    output: &mut Output<W>,
) -> Result<(), PlayFault>
    requires few { reader.old.ended < 2 ^ 32 }
    requires ready { IsReady L.table reader.old.stage reader.old.register }
    ensures good { OnOk result ((script : List ℕ) → R.remaining input.old.inner ≡ Some script
        → IsGood
        (check_ahead (head_of reader.old.stage) reader.old.ended reader.old.line.items script)) }
    ensures printed { OnOk result (Writes (W.contents output.old.inner)
        (W.contents output.new.inner)
        (λ written. (script : List ℕ) → R.remaining input.old.inner ≡ Some script
        → PrintsAhead reader.old.stage reader.old.line.items script written)) }
    ensures fault { IfErr result
        (λ e. (script : List ℕ) → R.remaining input.old.inner ≡ Some script → IsFaultOf (check_ahead
        (head_of reader.old.stage) reader.old.ended reader.old.line.items script) e) }
    ensures same { OnOk result (output.new.failures ≡ output.old.failures) }
    ensures cause { IfErr result (HasCause input.old input.new output.old output.new) }
{
    let mut block = [0u8; BLOCK];
    for _ in 0..READS {
        match input.read(&mut block) {
            Ok(0) => return reader.finish(output),
            Ok(count) => reader.feed(&block[..count], output)?,
            Err(error) if error.kind() == ErrorKind::Interrupted => {}
            Err(_) => return Err(PlayFault::ReadFailed),
        }
    }
    Err(PlayFault::ReadFailed)
}

/// Flushes a writer, however a script was played.
fn flush_after<W: Write + Drop>(
    played: Result<(), PlayFault>,
    output: &mut Output<W>,
) -> Result<(), PlayFault>
    ensures played { OnOk result (is_ok played ≡ true) }
    ensures keeps { Keeps (W.contents output.old.inner) (W.contents output.new.inner) }
    ensures fault { IfErr result (λ e. IfErr played (λ f. e ≡ f)) }
    ensures write { IfErr result (λ e. OnOk played (e ≡ WriteFailed)) }
    ensures grows { output.old.failures ≤ output.new.failures }
    ensures cause { IfErr result (λ e. OnOk played (output.old.failures < output.new.failures)) }
{
    let flushed = output.flush();
    played?;
    match flushed {
        Ok(()) => Ok(()),
        Err(_) => Err(PlayFault::WriteFailed),
    }
}

/// Plays a script on a new server, whose sessions a register has that is named.
#[tactic(auto, using(crate::proofs::Known::if_known, crate::proofs::Known::start))]
fn play_named<L: Naming, R: Read + Drop, W: Write + Drop>(
    alloc: Global,
    register: Register<()>,
    input: &mut Input<R>,
    output: &mut Output<W>,
) -> Result<(), PlayFault>
    requires named { register.table ≡ L.table }
    requires empty { register.rows ≡ [] }
    ensures good { OnOk result
        (IfSome (R.remaining input.old.inner) (λ script. IsGood (check_of script))) }
    ensures printed { OnOk result (Writes (W.contents output.old.inner)
        (W.contents output.new.inner)
        (λ written. IfSome (R.remaining input.old.inner) (λ script. IsPrinted script written))) }
    ensures fault { IfErr result
        (λ fault. IfSome (R.remaining input.old.inner)
        (λ script. IsFaultOf (check_of script) fault)) }
    ensures cause { IfErr result (HasCause input.old input.new output.old output.new) }
{
    let mut reader: Reader<L> = Reader::new(alloc, register);
    let played = play_lines(&mut reader, input, output);
    drop(reader);
    flush_after(played, output)
}

/// Plays a script on a new server.
#[tactic(auto, using(crate::proofs::Known::if_known))]
pub fn play<R: Read + Drop, W: Write + Drop>(
    alloc: Global,
    input: &mut Input<R>,
    output: &mut Output<W>,
) -> Result<(), PlayFault>
    ensures good { OnOk result
        (IfSome (R.remaining input.old.inner) (λ script. IsGood (check_of script))) }
    ensures printed { OnOk result (Writes (W.contents output.old.inner)
        (W.contents output.new.inner)
        (λ written. IfSome (R.remaining input.old.inner) (λ script. IsPrinted script written))) }
    ensures fault { IfErr result
        (λ fault. IfSome (R.remaining input.old.inner)
        (λ script. IsFaultOf (check_of script) fault)) }
    ensures cause { IfErr result (HasCause input.old input.new output.old output.new) }
{
    let register = Register::new(alloc)?;
    play_named::<Brand, R, W>(alloc, register, input, output)
}
