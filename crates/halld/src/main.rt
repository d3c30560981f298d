//! The program `halld`.
#![tactic(auto)]

mod account;
mod script;
mod start;

use account::line_for;
use clap::Error;
use clap::error::ErrorKind;
use script::SCRIPT;
use scripts::{Input, Output, PlayFault, play};
use serving_options::{Subcommand, parse};
use start::{Ended, check_options, serve_options, tell_reason};
use std::alloc::AllocError;
use std::fmt::Display;
use std::io::{BufWriter, IsTerminal};
use std::process::ExitCode;
use std::{env, io};

/// The status after a fault.
const FAULT: u8 = 1;

/// The status after a command line that was refused.
const REFUSED: u8 = 2;

/// The status where the journal is full.
const FULL: u8 = 3;

/// Tells of a fault on standard error.
fn fault<D: Display + Drop>(rt: &impl Eprint, fault: D) -> ExitCode {
    let _ = eprintln!(rt; "halld: {fault}");
    ExitCode::from(FAULT)
}

/// Shows help or the version, or why the command line was refused.
fn refuse(rt: &(impl Print + Eprint), error: Error) -> ExitCode {
    if error.kind() == ErrorKind::OutOfMemory {
        return fault(rt, PlayFault::Memory);
    }
    let is_told = error.print(rt).is_ok();
    if error.use_stderr() {
        ExitCode::from(REFUSED)
    } else if is_told {
        ExitCode::SUCCESS
    } else {
        fault(rt, PlayFault::WriteFailed)
    }
}

/// Plays the script on standard input.
fn play_standard(rt: &HostRuntime) -> ExitCode {
    let alloc = rt.alloc();
    let Ok(output) = BufWriter::new(alloc, rt.stdout()) else {
        return fault(rt, PlayFault::Memory);
    };
    match play(alloc, &mut Input::new(rt.stdin()), &mut Output::new(output)) {
        Ok(()) => ExitCode::SUCCESS,
        Err(ended) => fault(rt, ended),
    }
}

/// Prints the line of an account of this name, for a password that is read from standard input.
fn print_account(rt: &HostRuntime, name: &str) -> ExitCode {
    let input = rt.stdin();
    let is_terminal = input.is_terminal();
    match line_for(rt, rt.alloc(), name, input, is_terminal) {
        Ok(line) if rt.write_all(&line).is_ok() => ExitCode::SUCCESS,
        Ok(_) => fault(rt, PlayFault::WriteFailed),
        Err(why) => fault(rt, why),
    }
}

/// Tells how a server ended.
fn tell_ended(rt: &impl Eprint, ended: Ended) -> ExitCode {
    let status = match ended {
        Ended::Well => return ExitCode::SUCCESS,
        Ended::JournalFull => FULL,
        _ => FAULT,
    };
    let _ = eprintln!(rt; "halld: {ended}");
    tell_reason(rt, &ended);
    ExitCode::from(status)
}

fn main(rt: HostRuntime) -> ExitCode {
    let alloc = rt.alloc();
    let args = match env::args(&rt) {
        Ok(args) => args,
        Err(error) if error.kind() == io::ErrorKind::InvalidData => {
            let _ = eprintln!(&rt; "error: a word of the command line isn't UTF-8");
            return ExitCode::from(REFUSED);
        }
        Err(_) => return fault(&rt, PlayFault::Memory),
    };
    let words: Result<Vec<String>, AllocError> = args.collect(alloc);
    let Ok(words) = words else {
        return fault(&rt, PlayFault::Memory);
    };
    match parse(alloc, words.as_slice(), SCRIPT) {
        Ok(Subcommand::Play) => play_standard(&rt),
        Ok(Subcommand::Check(options)) => tell_ended(&rt, check_options(&rt, options)),
        Ok(Subcommand::Account(name)) => print_account(&rt, name),
        Ok(Subcommand::Serve(options)) => tell_ended(&rt, serve_options(&rt, options, rt.stdin())),
        Err(error) => refuse(&rt, error),
    }
}
