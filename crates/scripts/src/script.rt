//! A step as a line of a script.
ghost use Rattle.std.specs.Prelude.{◌≡◌, None, Some, IfOk, IfSome, IsErrOf};
ghost use Rattle.std.specs.Option.{option_map};
ghost use Rattle.line_grammar.specs.Lines.{before_space, after_space};
ghost use Rattle.scripts.specs.Numbers.{moment_of};
ghost use Rattle.scripts.specs.Script.{both, plain_of, verb_of, worker_of, plain_step, step_with, step_of, NamesHost};
ghost use Rattle.scripts.specs.declared.script.StepFault.TheVariants.{Memory};

use crate::escape::unescape;
use crate::number::moment;
use crate::split_words::split_at_space;
use crate::words::{inside_quotes, session, why, worker};
use casemapping::is_host;
use interleave::{Event, Moment, SessionId, WorkerId};
use line_grammar::Octets;
use std::alloc::{AllocError, AllocFailed, Global};

/// A step of a script.
#[derive(Drop)]
pub(crate) enum ScriptStep {
    /// One event.
    One(Event),
    /// Worker 1 carries out a session's next line.
    Do { session: SessionId, moment: Moment },
    /// Worker 1 sweeps.
    Tidy { moment: Moment },
    /// What is due to a session is taken until there is nothing more.
    Drain { session: SessionId },
    /// Worker 1 ticks, and hangs who is late.
    Beat { moment: Moment },
}

/// Why a line gives no step.
#[derive(Clone, Copy, Debug, PartialEq)]
pub(crate) enum StepFault {
    /// The line is none of the steps.
    Bad,
    /// A growth was refused.
    Memory,
}

impl From<AllocError> for StepFault {
    ghost from_gives = { λ _ e. e ≡ Memory };

    fn from(_error: AllocError) -> StepFault {
        StepFault::Memory
    }
}

impl<T: Drop> From<AllocFailed<T>> for StepFault {
    ghost from_gives = { λ _ e. e ≡ Memory };

    fn from(_error: AllocFailed<T>) -> StepFault {
        StepFault::Memory
    }
}

/// The word at the front of a step that takes no memory.
#[derive(Clone, Copy)]
enum Plain {
    Pick,
    Begin,
    Put,
    End,
    Back,
    Take,
    Hang,
    Sweep,
    Reap,
    Do,
    Tidy,
    Drain,
    Tick,
    Beat,
}

/// The word at a step's front.
#[derive(Clone, Copy)]
enum StepVerb {
    Connect,
    Feed,
    Plain(Plain),
}

/// The step that a line's first word asks for, where it takes no memory.
fn plain_of(word: &[u8]) -> Option<Plain>
    ensures { result ≡ plain_of word.now }
{
    if word == b"pick".as_slice() {
        Some(Plain::Pick)
    } else if word == b"begin".as_slice() {
        Some(Plain::Begin)
    } else if word == b"put".as_slice() {
        Some(Plain::Put)
    } else if word == b"end".as_slice() {
        Some(Plain::End)
    } else if word == b"back".as_slice() {
        Some(Plain::Back)
    } else if word == b"take".as_slice() {
        Some(Plain::Take)
    } else if word == b"hang".as_slice() {
        Some(Plain::Hang)
    } else if word == b"sweep".as_slice() {
        Some(Plain::Sweep)
    } else if word == b"reap".as_slice() {
        Some(Plain::Reap)
    } else if word == b"do".as_slice() {
        Some(Plain::Do)
    } else if word == b"tidy".as_slice() {
        Some(Plain::Tidy)
    } else if word == b"drain".as_slice() {
        Some(Plain::Drain)
    } else if word == b"tick".as_slice() {
        Some(Plain::Tick)
    } else if word == b"beat".as_slice() {
        Some(Plain::Beat)
    } else {
        None
    }
}

/// The step that a line's first word asks for.
fn verb_of(word: &[u8]) -> Option<StepVerb>
    ensures { result ≡ verb_of word.now }
{
    if word == b"connect".as_slice() {
        Some(StepVerb::Connect)
    } else if word == b"feed".as_slice() {
        Some(StepVerb::Feed)
    } else {
        Some(StepVerb::Plain(plain_of(word)?))
    }
}

/// `HOST MS`.
fn parse_connect(alloc: Global, words: &[u8]) -> Result<ScriptStep, StepFault>
    ensures ok { IfOk result (λ step. step_with StepVerb.Connect words.now ≡ Some step) }
    ensures bad { IsErrOf result StepFault.Bad → step_with StepVerb.Connect words.now ≡ None }
    ensures host { IfOk result NamesHost }
{
    let (host, milliseconds) = split_at_space(words);
    if !is_host(host) {
        return Err(StepFault::Bad);
    }
    let Some(moment) = moment(milliseconds) else {
        return Err(StepFault::Bad);
    };
    let host = Octets::copy_of(alloc, host)?;
    Ok(ScriptStep::One(Event::Connect { host, moment }))
}

/// `S "TEXT"`.
fn parse_feed(alloc: Global, words: &[u8]) -> Result<ScriptStep, StepFault>
    ensures ok { IfOk result (λ step. step_with StepVerb.Feed words.now ≡ Some step) }
    ensures bad { IsErrOf result StepFault.Bad → step_with StepVerb.Feed words.now ≡ None }
    ensures host { IfOk result NamesHost }
{
    let (name, quoted) = split_at_space(words);
    let Some(session) = session(name) else {
        return Err(StepFault::Bad);
    };
    let Some(text) = inside_quotes(quoted) else {
        return Err(StepFault::Bad);
    };
    let octets = Octets::from_vec(unescape(alloc, text)?);
    Ok(ScriptStep::One(Event::Feed { session, octets }))
}

/// `W S`.
fn parse_pick(words: &[u8]) -> Option<Event>
    ensures { option_map (λ e. ScriptStep.One e) result ≡ plain_step Plain.Pick words.now }
{
    let (worker_name, session_name) = split_at_space(words);
    let worker = worker(worker_name)?;
    let session = session(session_name)?;
    Some(Event::Pick { worker, session })
}

/// `W MS`.
fn worker_and_moment(words: &[u8]) -> Option<(WorkerId, Moment)>
    ensures { result ≡ both (λ w ms. (w, ms)) (worker_of (before_space words.now))
        (moment_of (after_space words.now)) }
{
    let (name, milliseconds) = split_at_space(words);
    Some((worker(name)?, moment(milliseconds)?))
}

/// `W S WORD MS`.
fn parse_hang(words: &[u8]) -> Option<Event>
    ensures { option_map (λ e. ScriptStep.One e) result ≡ plain_step Plain.Hang words.now }
{
    let (worker_name, more) = split_at_space(words);
    let (session_name, last) = split_at_space(more);
    let (reason, milliseconds) = split_at_space(last);
    let worker = worker(worker_name)?;
    let session = session(session_name)?;
    let why = why(reason)?;
    let moment = moment(milliseconds)?;
    Some(Event::Hang {
        worker,
        session,
        why,
        moment,
    })
}

/// `S MS`.
fn parse_do(words: &[u8]) -> Option<ScriptStep>
    ensures { result ≡ plain_step Plain.Do words.now }
{
    let (name, milliseconds) = split_at_space(words);
    let session = session(name)?;
    let moment = moment(milliseconds)?;
    Some(ScriptStep::Do { session, moment })
}

/// `W MS` of a tick.
fn parse_tick(words: &[u8]) -> Option<ScriptStep>
    ensures value { result ≡ plain_step Plain.Tick words.now }
    ensures host { IfSome result NamesHost }
{
    let (worker, moment) = worker_and_moment(words)?;
    Some(ScriptStep::One(Event::Tick { worker, moment }))
}

/// The step of a line, after a first word that takes no memory.
fn parse_plain(plain: Plain, words: &[u8]) -> Option<ScriptStep>
    ensures value { result ≡ plain_step plain words.now }
    ensures host { IfSome result NamesHost }
{
    let event = match plain {
        Plain::Pick => parse_pick(words)?,
        Plain::Begin => {
            let (worker, moment) = worker_and_moment(words)?;
            Event::Begin { worker, moment }
        }
        Plain::Put => Event::Put {
            worker: worker(words)?,
        },
        Plain::End => Event::End {
            worker: worker(words)?,
        },
        Plain::Back => Event::Back {
            worker: worker(words)?,
        },
        Plain::Take => Event::Take {
            session: session(words)?,
        },
        Plain::Hang => parse_hang(words)?,
        Plain::Sweep => {
            let (worker, moment) = worker_and_moment(words)?;
            Event::Sweep { worker, moment }
        }
        Plain::Reap => Event::Reap {
            session: session(words)?,
        },
        Plain::Do => return parse_do(words),
        Plain::Tidy => return Some(ScriptStep::Tidy {
            moment: moment(words)?,
        }),
        Plain::Drain => return Some(ScriptStep::Drain {
            session: session(words)?,
        }),
        Plain::Tick => return parse_tick(words),
        Plain::Beat => return Some(ScriptStep::Beat {
            moment: moment(words)?,
        }),
    };
    Some(ScriptStep::One(event))
}

/// The step that a line of a script, without its LF, writes.
pub(crate) fn parse_step(alloc: Global, line: &[u8]) -> Result<ScriptStep, StepFault>
    ensures ok { IfOk result (λ step. step_of line.now ≡ Some step) }
    ensures bad { IsErrOf result StepFault.Bad → step_of line.now ≡ None }
    ensures host { IfOk result NamesHost }
{
    let (first, words) = split_at_space(line);
    match verb_of(first) {
        Some(StepVerb::Connect) => parse_connect(alloc, words),
        Some(StepVerb::Feed) => parse_feed(alloc, words),
        Some(StepVerb::Plain(plain)) => parse_plain(plain, words).ok_or(StepFault::Bad),
        None => Err(StepFault::Bad),
    }
}
