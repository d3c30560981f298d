//! What is delivered.
use chronicle::{RecordNumber, Why};
use labels_batches::Text;

/// A delivery to one session.
#[derive(Clone, Debug, Drop, PartialEq)]
pub enum Delivery {
    /// What a record owes the session: its lines, each with CR LF.
    Lines { number: RecordNumber, text: Text },
    /// The session's own end, after which nothing comes: an ERROR line with the reason.
    Last { number: RecordNumber, why: Why },
}
