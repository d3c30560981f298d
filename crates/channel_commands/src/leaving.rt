//! PART (RFC 2812, section 3.2.2).
ghost use Rattle.std.specs.Prelude.{◌≡◌, ◌∷◌, [], Some, IfSome, OnOk};
ghost use Rattle.transactions.specs.Words.{IsSeen, grown};
ghost use Rattle.channel_commands.specs.Leaving.{parts_seen, parts};

use crate::channel_lines::part_line;
use crate::each_name::{DoesFor, do_for_each};
use crate::finding::channel_of;
use channel_leaving::leave;
use chronicle::SessionId;
use line_grammar::Octets;
use std::alloc::AllocError;
use transactions::{Denial, Seen, Transaction, deny, prefix_of};

/// Leaves a channel that is there.
fn part_seen(
    tx: &mut Transaction,
    session: SessionId,
    from: &[u8],
    text: &Octets,
    seen: &Seen,
) -> Result<(), AllocError>
    requires { IsSeen tx.old.facts seen.now }
    ensures { OnOk result (tx.new ≡ grown tx.old (parts_seen tx.old.settings
        tx.old.facts session from.now text.now [] (Some seen.now))) }
{
    let name = seen.name();
    if !seen.state().has(session) {
        return deny(tx, session, Denial::NotOnChannel, name);
    }
    let line = part_line(tx.alloc(), from, name.as_slice(), text.as_slice())?;
    leave(tx, seen, session, line)
}

/// A session leaves channels, by their names.
#[derive(Clone, Copy)]
struct Parting<'a> {
    session: SessionId,
    from: &'a [u8],
    text: &'a Octets,
}

impl DoesFor<Octets> for Parting<'_> {
    ghost use Rattle.channel_commands.specs.Leaving.{parts_one};

    ghost effects_of = { λ p g before facts channel. parts_one g p.session p.from.now p.text.now
        facts channel };

    fn do_for(&self, tx: &mut Transaction, channel: &Octets) -> Result<(), AllocError> {
        match channel_of(tx, channel)? {
            Some(seen) => part_seen(tx, self.session, self.from, self.text, &seen),
            None => deny(tx, self.session, Denial::NoSuchChannel, channel),
        }
    }
}

/// A session leaves channels, with a text that may be empty, which is none (RFC 2812, section 3.2.2).
pub fn part(
    tx: &mut Transaction,
    session: SessionId,
    channels: &[Octets],
    text: &Octets,
) -> Result<(), AllocError>
    ensures { OnOk result (tx.new ≡ grown tx.old
        (parts tx.old.settings tx.old.facts session channels.now text.now)) }
{
    let from = prefix_of(tx, session)?;
    let parting = Parting {
        session,
        from: from.as_slice(),
        text,
    };
    do_for_each(&parting, tx, channels)
}
