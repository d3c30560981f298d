//! Every step of readers, lines and writers as an event over a book, and whole runs of them.
#![tactic(auto)]

mod event;
mod inbox;
mod laws;
mod play;
mod tokens;
mod worker;

pub use book::{
    Delivery, Done, HangRefusal, Hung, Ledger, LineRefusal, Naming, OpenRefusal, ReapRefusal,
    Register, Sessions, Settings, SweepRefusal, TickRefusal,
};
pub use chronicle::{Moment, RecordNumber, SessionId, Why};
pub use event::{BookRefusal, Event, Note, PlayRefusal, StepRefusal};
pub use laws::{
    accepted_is_prefix_of_sent, answered_once_and_whole, batch_closed,
    error_at_most_after_the_close, heard_once, labelled_first, labelled_once, lone_line_unbatched,
    once_in_order, taken_in_order,
};
pub use line_grammar::{Octets, Piece};
pub use play::Play;
pub use worker::WorkerId;
