//! Deliveries, what the history owes each session, the items that stand in an outbox, and how a delivery is written.
#![tactic(auto)]

mod delivery;
mod item;
mod laws;
mod writing;

pub use delivery::Delivery;
pub use item::Item;
pub use labels_batches::Text;
pub use laws::{
    accepted_goes_on, facts_go_on, idle_goes_on, numbers_go_on, owed_goes_on, pinged_goes_on,
    shut_goes_on,
};
pub use writing::{WriteFault, write_out};
