//! The journal: the list of records that everything else is read from.
#![tactic(auto)]

mod ids;
mod journal;
mod kept_records;
mod record;
mod why;

pub use ids::{Moment, RecordMoment, RecordNumber, SessionId};
pub use journal::{Journal, JournalRefusal};
pub use record::{Kind, Record};
pub use why::Why;
