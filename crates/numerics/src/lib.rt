//! What the server says: outgoing lines (RFC 2812, section 2.3), the numerics (section 5), lists cut into lines, and
//! moments as texts (RFC 3339, section 5.6).
#![tactic(auto)]

mod civil_time;
mod laws;
mod line;
mod line_cuts;
mod numeric;
mod outgoing;
mod prefix;
mod pushing;
mod row_lines;
mod rows;
mod support;
mod texts;

pub use civil_time::{TimeFault, time_text};
pub use laws::{room_for_channels, room_for_names};
pub use line::Line;
pub use line_cuts::{split_names, split_tokens};
pub use numeric::{Numeric, Who};
pub use outgoing::{Out, copy_all};
pub use prefix::{Prefix, with_prefix};
pub use support::tokens;
pub use texts::joined_by_spaces;
