//! The book: sessions with tokens, which come together when a session is reaped, over the journal and the outboxes.
//! What stands in a lock is a `Hall`: a book with no plan out.
#![tactic(auto)]

mod baton;
mod book;
mod flush_calls;
mod flush_list;
mod ghost_outbox;
mod hall;
mod leftover;
mod read_lines;
mod ring_book;
mod stable_name;

pub use baton::Baton;
pub use book::Book;
pub use flush_list::FlushList;
pub use hall::Hall;
pub use ledger::{
    Base, BookFault, Delivery, Done, HangRefusal, Hung, Ledger, LineRefusal, OpenRefusal, Outbox,
    Plan, PutFault, ReadLine, ReapRefusal, Ring, RollRefusal, Rolled, Sessions, Settings, Step,
    SweepRefusal, TakeRefusal, TickRefusal,
};
pub use leftover::Left;
pub use outbox;
pub use register::{Naming, Register, Stub};
pub use stable_name::StableName;
