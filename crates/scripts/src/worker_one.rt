//! What worker 1 does alone for one step of a script.
//!
//! `beat` asks the play who is late before each hang, so no step has to know which sessions were silent.
ghost use Rattle.scripts.specs.Steps.{IsPutOut, IsEnded, IsBegun, IsDoing, IsTidying, IsTicking, IsLateHung};

use interleave::{Event, Moment, Naming, Note, Play, SessionId, StepRefusal, Why, WorkerId};

/// The number of the worker.
const ALONE: u64 = 1;

/// Puts until a put is refused.
fn put_all<L: Naming>(play: &mut Play<L>)
    ensures { IsPutOut play.old play.new }
{
    let worker = WorkerId::new(ALONE);
    for _ in 0..u64::MAX {
        if play.step(&Event::Put { worker }).is_err() {
            break;
        }
    }
}

/// Puts what is to be put, and ends.
fn end<L: Naming>(play: &mut Play<L>) -> Result<Note, StepRefusal>
    ensures { IsEnded play.old result play.new }
{
    put_all(play);
    let worker = WorkerId::new(ALONE);
    play.step(&Event::End { worker })
}

/// Begins the line in the worker's hand and carries it out, or gives it back.
fn begin<L: Naming>(play: &mut Play<L>, moment: Moment) -> Result<Note, StepRefusal>
    ensures { IsBegun moment play.old result play.new }
{
    let worker = WorkerId::new(ALONE);
    match play.step(&Event::Begin { worker, moment }) {
        Ok(_) => end(play),
        Err(refusal) => {
            let _ = play.step(&Event::Back { worker });
            Err(refusal)
        }
    }
}

/// Carries out a session's next line. A line that was begun answers with its `Done`.
pub(crate) fn do_line<L: Naming>(
    play: &mut Play<L>,
    session: SessionId,
    moment: Moment,
) -> Result<Note, StepRefusal>
    ensures { IsDoing session moment play.old result play.new }
{
    let worker = WorkerId::new(ALONE);
    play.step(&Event::Pick { worker, session })?;
    begin(play, moment)
}

/// Sweeps. Where there was a session to be swept, the answer is the `Done` of the record.
pub(crate) fn tidy<L: Naming>(play: &mut Play<L>, moment: Moment) -> Result<Note, StepRefusal>
    ensures { IsTidying moment play.old result play.new }
{
    let worker = WorkerId::new(ALONE);
    match play.step(&Event::Sweep { worker, moment }) {
        Ok(Note::Swept(Some(_))) => end(play),
        answer => answer,
    }
}

/// Ticks. Where there was somebody to be pinged, the answer is the `Done` of the record.
pub(crate) fn tick<L: Naming>(play: &mut Play<L>, moment: Moment) -> Result<Note, StepRefusal>
    ensures { IsTicking moment play.old result play.new }
{
    let worker = WorkerId::new(ALONE);
    match play.step(&Event::Tick { worker, moment }) {
        Ok(Note::Ticked(Some(_))) => end(play),
        answer => answer,
    }
}

/// Hangs the late session of the lowest number, and answers what that gave. `None` where nobody is late.
pub(crate) fn hang_late<L: Naming>(
    play: &mut Play<L>,
    moment: Moment,
) -> Option<Result<Note, StepRefusal>>
    ensures { IsLateHung moment play.old result play.new }
{
    let worker = WorkerId::new(ALONE);
    let session = play.late(moment)?;
    let why = Why::PingTimeout;
    Some(play.step(&Event::Hang {
        worker,
        session,
        why,
        moment,
    }))
}
