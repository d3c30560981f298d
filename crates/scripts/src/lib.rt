//! Plays a script of steps on the server's sessions and writes what each step gave.
//!
//! A script is this project's own form: a line for each header and each step, parted by LF. An empty line says
//! nothing. Words are parted by one space, and numbers are decimal digits.
//!
//! Headers stand before the first step. Of one of these that stands twice the last counts:
//!
//! - `limit N`: how many records the journal may have, 1 to 10,000,000; 1,000,000 where no header says it;
//! - `sendq N`: how many items may wait for a session, 1 to 4,096; 256 where no header says it;
//! - `workers N`: how many workers there are, 1 to 64; 2 where no header says it;
//! - `sessions N`: how many sessions may be open, 1 to 1,024; 1,024 where no header says it.
//!
//! Two add up, in their order:
//!
//! - `motd TEXT`: a line of the message of the day, which is all that follows the space: at most 400 octets, none of
//!   them NUL or CR;
//! - `account NAME SALT DIGEST`: a line of an accounts file, by which a user logs in.
//!
//! The server is set up when the first step comes, or at the end where there is none. What can't be set up is a fault.
//!
//! These steps are an event each. S is a session's number, W a worker's, and MS a moment, in milliseconds since
//! 1970-01-01T00:00:00Z:
//!
//! - `connect HOST MS` opens a session: `session S`;
//! - `feed S "TEXT"` gives octets to a session: `read N`, with the number of lines that they end. In TEXT `\r`,
//!   `\n`, `\\`, `\"` and `\xHH` are escapes;
//! - `pick W S` hands the session's next line to a worker: `picked`;
//! - `begin W MS` accepts the line in the worker's hand, who holds the lock from then on: `record N`;
//! - `put W` puts the next delivery of the record: `put S`, or `missed S` where the session's outbox was full;
//! - `end W` gives the lock and the session back: `done N`;
//! - `back W` gives back a line that wasn't begun: `back`;
//! - `take S` takes what is next due to a session: `S> LINE` for each line of it, or `empty`;
//! - `hang W S WORD MS` ends a session, for the reason `quit`, `sendq`, `ended`, `readfail`, `writefail`, `memory`,
//!   `shutdown` or `timeout`: `hung N`, or `hung N missed` where its outbox was full;
//! - `sweep W MS` accepts that a session that was shut is gone, and the worker holds the lock: `sweep N`, or
//!   `sweep none`;
//! - `tick W MS` accepts that whoever is idle for 120 seconds is pinged, and the worker holds the lock: `tick N`,
//!   or `tick none`;
//! - `reap S` gives up a session that is gone: `left N`, with the number of items that nobody took.
//!
//! And these are several:
//!
//! - `do S MS` has worker 1 pick, begin, put all and end: `record N`, and `missed S` for each session that missed
//!   it. A line that isn't begun is given back;
//! - `tidy MS` has worker 1 sweep, put all and end: `sweep N` and the same, or `sweep none`;
//! - `beat MS` has worker 1 tick, put all and end: `tick N` and the same, or `tick none`; then hang each session
//!   that is idle for 240 seconds, the lowest number first: the notes of `hang`. Where the tick is refused nobody
//!   is hung;
//! - `drain S` takes until there is nothing more.
//!
//! A step that is refused has the note `refused NAME`. In a LINE each octet but a backslash and those from 32 to 126
//! stands as `\xhh`.
#![tactic(auto)]

mod entry;
mod escape;
mod header;
mod notes;
mod number;
mod player;
mod reader;
mod refusals;
mod script;
mod split_words;
mod streams;
mod words;
mod worker_one;

pub use entry::{PlayFault, play};
pub use streams::{Input, Output};
