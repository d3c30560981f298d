//! What a server is told when it starts, the accounts of its users, capabilities, and what a session that
//! registers is answered (RFC 2812, section 3.1; IRCv3 Capability Negotiation and SASL 3.1; RFC 4616).
#![tactic(auto)]

mod accounts;
mod caps;
mod enrol;
mod parts;
mod sasl;
mod settings;

pub use accounts::{Account, AccountFault, Accounts, accounts_are_named};
pub use caps::{Cap, Caps, after_request, each_cap_is_known};
pub use enrol::{CapAnswer, Enrol, NickAnswer, SaslAnswer, UserAnswer};
pub use sasl::told_is_spelled;
pub use settings::{MAX_SESSIONS, Settings, is_well_set};
