//! The ledger: the journal and, for each session, its outbox.
#![tactic(auto)]

mod base;
mod begin_line;
mod counted_outbox;
mod entry_places;
mod fan_out;
mod last_heard;
mod laws;
mod ledger;
mod line_texts;
mod outboxes;
mod outcomes;
mod plan;
mod put_queue;
mod read_line;
mod refusals;
mod seat;
mod seats;
mod settings;
mod ticks;
mod turn;

pub use base::Base;
pub use deliveries::{Delivery, Item, Text};
pub use laws::{rings_take_each_record, rings_take_what_fits};
pub use ledger::Ledger;
pub use outbox::{Outbox, PutFault, Ring};
pub use outcomes::{Done, Hung, Plan, Reaped, Rolled, Step};
pub use read_line::ReadLine;
pub use refusals::{
    BookFault, HangRefusal, LineRefusal, OpenRefusal, ReapRefusal, RollRefusal, SweepRefusal,
    TakeRefusal, TickRefusal,
};
pub use registration::{MAX_SESSIONS, Settings};
pub use roster::Sessions;
pub use settings::MAX_RECORDS;
pub use turn::Turn;
