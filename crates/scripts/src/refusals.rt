//! The names of refusals.
ghost use Rattle.std.specs.Prelude.{◌≡◌};
ghost use Rattle.scripts.specs.Refusals.{open_name, line_name, hang_name, sweep_name};
ghost use Rattle.scripts.specs.Refusals.{tick_name, reap_name, book_name, refusal_name};

use interleave::{
    BookRefusal, HangRefusal, LineRefusal, OpenRefusal, ReapRefusal, StepRefusal, SweepRefusal,
    TickRefusal,
};

/// The name of a refusal to open a session.
fn open_name(refusal: OpenRefusal) -> &'static str
    ensures { result.now ≡ open_name refusal }
{
    match refusal {
        OpenRefusal::Busy => "Busy",
        OpenRefusal::TooManySessions => "TooManySessions",
        OpenRefusal::JournalFull => "JournalFull",
        OpenRefusal::BadMoment => "BadMoment",
        OpenRefusal::Memory => "Memory",
    }
}

/// The name of a refusal of a line.
fn line_name(refusal: LineRefusal) -> &'static str
    ensures { result.now ≡ line_name refusal }
{
    match refusal {
        LineRefusal::Busy => "Busy",
        LineRefusal::WrongTurn => "WrongTurn",
        LineRefusal::Shut => "Shut",
        LineRefusal::JournalFull => "JournalFull",
        LineRefusal::BadMoment => "BadMoment",
        LineRefusal::Memory => "Memory",
    }
}

/// The name of a refusal to end a session.
fn hang_name(refusal: HangRefusal) -> &'static str
    ensures { result.now ≡ hang_name refusal }
{
    match refusal {
        HangRefusal::Busy => "Busy",
        HangRefusal::NoSession => "NoSession",
        HangRefusal::Shut => "Shut",
        HangRefusal::BadMoment => "BadMoment",
    }
}

/// The name of a refusal to sweep.
fn sweep_name(refusal: SweepRefusal) -> &'static str
    ensures { result.now ≡ sweep_name refusal }
{
    match refusal {
        SweepRefusal::Busy => "Busy",
        SweepRefusal::BadMoment => "BadMoment",
        SweepRefusal::Memory => "Memory",
    }
}

/// The name of a refusal to ping.
fn tick_name(refusal: TickRefusal) -> &'static str
    ensures { result.now ≡ tick_name refusal }
{
    match refusal {
        TickRefusal::Busy => "Busy",
        TickRefusal::BadMoment => "BadMoment",
        TickRefusal::JournalFull => "JournalFull",
        TickRefusal::Memory => "Memory",
    }
}

/// The name of a refusal to give a session up.
fn reap_name(refusal: ReapRefusal) -> &'static str
    ensures { result.now ≡ reap_name refusal }
{
    match refusal {
        ReapRefusal::Busy => "Busy",
        ReapRefusal::Stranger => "Stranger",
        ReapRefusal::NotGone => "NotGone",
    }
}

/// The name of the book's refusal.
fn book_name(refusal: BookRefusal) -> &'static str
    ensures { result.now ≡ book_name refusal }
{
    match refusal {
        BookRefusal::Open(refusal) => open_name(refusal),
        BookRefusal::Line(refusal) => line_name(refusal),
        BookRefusal::Hang(refusal) => hang_name(refusal),
        BookRefusal::Sweep(refusal) => sweep_name(refusal),
        BookRefusal::Tick(refusal) => tick_name(refusal),
        BookRefusal::Reap(refusal) => reap_name(refusal),
    }
}

/// The name of a refusal, which a note says after `refused`.
pub(crate) fn refusal_name(refusal: StepRefusal) -> &'static str
    ensures { result.now ≡ refusal_name refusal }
{
    match refusal {
        StepRefusal::NoSession => "NoSession",
        StepRefusal::NoWorker => "NoWorker",
        StepRefusal::Locked => "Locked",
        StepRefusal::NotHolding => "NotHolding",
        StepRefusal::HasJob => "HasJob",
        StepRefusal::NoJob => "NoJob",
        StepRefusal::InFlight => "InFlight",
        StepRefusal::NothingRead => "NothingRead",
        StepRefusal::NothingLeft => "NothingLeft",
        StepRefusal::PutsLeft => "PutsLeft",
        StepRefusal::Book(refusal) => book_name(refusal),
        StepRefusal::Memory => "Memory",
    }
}
