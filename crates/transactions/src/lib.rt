//! Effects, transactions, and how a session is answered.
#![tactic(auto)]

mod denials;
mod effect;
mod hearers;
mod replies;
mod seen_channel;
mod shown_lines;
mod targets;
mod transaction;
mod verdict;

pub use denials::{Denial, deny, deny_absent};
pub use effect::Effect;
pub use hearers::{show_away, takers};
pub use replies::{tell, tell_all, tell_away, title_of};
pub use seen_channel::Seen;
pub use shown_lines::{
    away_line, cap_line, extended_join_line, go_on_line, join_line, nick_line, pong_line,
    prefix_of, quit_line, title_text,
};
pub use targets::names_channel;
pub use transaction::Transaction;
pub use verdict::{ShownLine, Verdict};
