//! Plays scenarios that stand in files: talks, what sessions say and what each is told, and scripts, steps with their
//! notes. The files are those that the command line names, or else all of the folder in which it runs.
#![tactic(auto)]

mod block;
mod playing;
mod reading;
mod scenario;
mod spelling;
mod talk;

use block::{File, Form, Part, blocks};
use playing::{Difference, tell};
use reading::{Wrong, read_scenario};
use scenario::Scenario;
use std::alloc::{AllocError, AllocFailed, Global};
use std::process::ExitCode;
use std::rt::Files;
use std::{env, fs, io};

/// The status where a scenario differs.
const DIFFERS: u8 = 1;

/// The status where the files can't be read, or for want of memory.
const UNREAD: u8 = 2;

/// Why no more is played.
#[derive(Drop)]
enum Ended {
    Unlisted,
    Unreadable(String),
    Unwritten,
    Memory,
}

impl From<AllocError> for Ended {
    fn from(_error: AllocError) -> Ended {
        Ended::Memory
    }
}

impl<T: Drop> From<AllocFailed<T>> for Ended {
    fn from(_error: AllocFailed<T>) -> Ended {
        Ended::Memory
    }
}

impl From<io::Error> for Ended {
    fn from(_error: io::Error) -> Ended {
        Ended::Unwritten
    }
}

/// How many plays there were, a scenario's or those of its rows, and how many scenarios passed and differ.
#[derive(Clone, Copy)]
struct PlayCounts {
    plays: usize,
    passed: u32,
    failed: u32,
}

impl PlayCounts {
    /// Counts a scenario of so many plays.
    fn add(&mut self, plays: usize, passed: bool) {
        self.plays = self.plays.wrapping_add(plays);
        if passed {
            self.passed = self.passed.wrapping_add(1);
        } else {
            self.failed = self.failed.wrapping_add(1);
        }
    }
}

/// Tells a scenario that differs, each of whose differences has a line.
fn tell_failed(
    rt: &impl Print,
    file: &str,
    name: &str,
    differences: &[Difference],
) -> io::Result<()> {
    println!(rt; "FAILED {file}: {name}")?;
    for it in differences {
        let (line, wanted, came) = (it.line, it.wanted.as_str(), it.came.as_str());
        println!(rt; "  {file}:{line}: wanted `{wanted}`, came `{came}`")?;
    }
    Ok(())
}

/// Where scenarios differ.
fn differences_of(alloc: Global, scenarios: &[Scenario<'_>]) -> Result<Vec<Difference>, Ended> {
    let mut found = Vec::new(alloc);
    for scenario in scenarios {
        if let Some(difference) = tell(alloc, scenario)? {
            found.push(difference)?;
        }
    }
    Ok(found)
}

/// Plays a scenario with its rows, and tells where it differs.
fn play_scenario<R: Print + Alloc<A = Global>>(
    rt: &R,
    file: &File,
    part: &Part<'_>,
    parts: &[Part<'_>],
    counts: &mut PlayCounts,
) -> Result<(), Ended> {
    let (name, scenario) = (file.name.as_str(), part.name);
    match read_scenario(rt.alloc(), file.form, part, parts) {
        Ok(scenarios) => {
            let differences = differences_of(rt.alloc(), &scenarios)?;
            counts.add(scenarios.len(), differences.is_empty());
            if !differences.is_empty() {
                tell_failed(rt, name, scenario, &differences)?;
            }
            Ok(())
        }
        Err(Wrong::NoPart(line)) => {
            counts.add(0, false);
            println!(rt; "FAILED {name}: {scenario}\n  {name}:{line}: there is no such part")?;
            Ok(())
        }
        Err(Wrong::Memory) => Err(Ended::Memory),
    }
}

/// Plays the scenarios of a file. Its parts are left for its own scenarios, and those of a file of parts for later
/// files, too.
fn play_file<'a, R: Print + Alloc<A = Global>>(
    rt: &R,
    file: &'a File,
    parts: &mut Vec<Part<'a>>,
    counts: &mut PlayCounts,
) -> Result<(), Ended> {
    let before = parts.len();
    for block in blocks(rt.alloc(), file.text.as_str())? {
        if block.is_part {
            parts.push(block.part)?;
        } else {
            play_scenario(rt, file, &block.part, parts, counts)?;
        }
    }
    if file.form != Form::Parts {
        parts.truncate(before);
    }
    Ok(())
}

/// Plays those files that are of parts, or those that aren't, in turn.
fn play_files<'a, R: Print + Alloc<A = Global>>(
    rt: &R,
    files: &'a [File],
    are_parts: bool,
    parts: &mut Vec<Part<'a>>,
    counts: &mut PlayCounts,
) -> Result<(), Ended> {
    for file in files {
        if (file.form == Form::Parts) == are_parts {
            play_file(rt, file, parts, counts)?;
        }
    }
    Ok(())
}

/// Why the folder isn't listed.
fn no_list(error: io::Error) -> Ended {
    if error.kind() == io::ErrorKind::OutOfMemory {
        Ended::Memory
    } else {
        Ended::Unlisted
    }
}

/// The names of all files of the folder, in order.
fn names_here<R: Files + Alloc<A = Global> + Clone + Drop>(rt: &R) -> Result<Vec<String>, Ended> {
    let mut names = Vec::new(rt.alloc());
    for entry in fs::read_dir(rt, ".").map_err(no_list)? {
        let entry = entry.map_err(no_list)?;
        names.push(String::from_str(rt.alloc(), entry.file_name())?)?;
    }
    names.sort_unstable();
    Ok(names)
}

/// The names that the command line has, or else those of all files of the folder.
fn names_of<R: Files + Alloc<A = Global> + Clone + Drop>(
    rt: &R,
    args: env::Args<Global>,
) -> Result<Vec<String>, Ended> {
    let mut names = Vec::new(rt.alloc());
    for name in args.skip(1) {
        names.push(name)?;
    }
    if names.is_empty() {
        names_here(rt)
    } else {
        Ok(names)
    }
}

/// The files of these names.
fn files_of<R: Files + Alloc<A = Global>>(rt: &R, names: Vec<String>) -> Result<Vec<File>, Ended> {
    let mut files = Vec::new(rt.alloc());
    for name in names {
        let form = Form::of(name.as_str());
        match fs::read_to_string(rt, name.as_str()) {
            Ok(text) => files.push(File { name, form, text })?,
            Err(error) if error.kind() == io::ErrorKind::OutOfMemory => return Err(Ended::Memory),
            Err(_) => return Err(Ended::Unreadable(name)),
        }
    }
    Ok(files)
}

/// Plays all files, those of parts first.
fn play_all<R: Print + Alloc<A = Global>>(rt: &R, files: &[File]) -> Result<PlayCounts, Ended> {
    let mut parts = Vec::new(rt.alloc());
    let mut counts = PlayCounts {
        plays: 0,
        passed: 0,
        failed: 0,
    };
    play_files(rt, files, true, &mut parts, &mut counts)?;
    play_files(rt, files, false, &mut parts, &mut counts)?;
    Ok(counts)
}

/// Tells how many files there are, and what their scenarios gave.
fn tell_counts(rt: &impl Print, files: usize, counts: PlayCounts) -> io::Result<()> {
    let PlayCounts {
        plays,
        passed,
        failed,
    } = counts;
    println!(rt;
        "{files} files\n{plays} plays\n{passed} scenarios passed\n{failed} scenarios failed"
    )
}

/// Plays all files and tells the counts. Returns whether all scenarios passed.
fn run<R: Files + Print + Alloc<A = Global> + Clone + Drop>(
    rt: &R,
    args: env::Args<Global>,
) -> Result<bool, Ended> {
    let names = names_of(rt, args)?;
    let files = files_of(rt, names)?;
    let counts = play_all(rt, &files)?;
    tell_counts(rt, files.len(), counts)?;
    Ok(counts.failed == 0)
}

/// Tells why no more is played.
fn tell_ended(rt: &impl Eprint, ended: &Ended) -> ExitCode {
    let _ = match ended {
        Ended::Unlisted => eprintln!(rt; "scenarios: cannot read the folder"),
        Ended::Unreadable(name) => eprintln!(rt; "scenarios: cannot read {name}"),
        Ended::Unwritten => eprintln!(rt; "scenarios: output failed"),
        Ended::Memory => eprintln!(rt; "scenarios: out of memory"),
    };
    ExitCode::from(UNREAD)
}

fn main(rt: HostRuntime) -> ExitCode {
    let Ok(args) = env::args(&rt) else {
        return tell_ended(&rt, &Ended::Memory);
    };
    match run(&rt, args) {
        Ok(true) => ExitCode::from(0),
        Ok(false) => ExitCode::from(DIFFERS),
        Err(ended) => tell_ended(&rt, &ended),
    }
}
