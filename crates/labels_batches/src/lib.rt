//! The answer to a labelled line, and lines with their tags as a receiver takes them (IRCv3 labeled-response, batch,
//! server-time and message-tags).
#![tactic(auto)]

mod answers;
mod labels;
mod laws;
mod rendering;
mod spellings;
mod text;
mod texts;

pub use answers::{AnswerTag, Tagged, wrap};
pub use labels::{label_in, takes_labels};
pub use laws::{label_stands_first, lone_line_opens_no_batch, several_lines_are_a_closed_batch};
pub use numerics::{TimeFault, time_text};
pub use rendering::render;
pub use spellings::Spellings;
pub use text::Text;
pub use texts::{Receiver, answer_text};
