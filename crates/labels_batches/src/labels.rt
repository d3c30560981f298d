//! Which label a line has (IRCv3 labeled-response).
ghost use Rattle.std.specs.Prelude.{◌≡◌, codes, IfOk, IsErr, IsSome};
ghost use Rattle.message_tags.specs.Tags.{tag};
ghost use Rattle.message_tags.specs.Value.{value};
ghost use Rattle.labels_batches.specs.Labels.{as_label, is_label, takes_labels};

use line_grammar::Octets;
use message_tags::{last_raw_value, unescape, unescaped_len};
use registration::{Cap, Caps};
use std::alloc::{AllocError, Global};

/// The most octets of a label.
const LABELLEN: usize = 64;

/// Whether labels count for a session of these capabilities: labeled-response and batch are both on (IRCv3
/// labeled-response).
pub fn takes_labels(caps: Caps) -> bool
    ensures { result ≡ takes_labels caps }
{
    caps.contains(Cap::LabeledResponse) && caps.contains(Cap::Batch)
}

/// Whether what a value means, as it stands in a line, is a label.
fn is_label(raw_value: &[u8]) -> bool
    ensures { result ≡ is_label (value raw_value.now) }
{
    let len = unescaped_len(raw_value);
    1 <= len && len <= LABELLEN
}

/// The label in the tag data of a line, whether or not it counts for its session: the value of the last tag `label`,
/// of 1 to 64 octets (IRCv3 labeled-response). Nothing is copied before it is one.
#[tactic(auto, using(crate::proofs::Untagged::labels))]
pub fn label_in(alloc: Global, tag_data: &[u8]) -> Result<Option<Octets>, AllocError>
    ensures label { IfOk result (λ o. o ≡ as_label (tag tag_data.now (codes "label"))) }

    // Memory is wanting only where there is a label.
    ensures memory { IsErr result → IsSome (as_label (tag tag_data.now (codes "label"))) }
{
    if tag_data.is_empty() {
        return Ok(None);
    }
    match last_raw_value(tag_data, b"label") {
        Some(raw_value) if is_label(raw_value) => Ok(Some(unescape(alloc, raw_value)?)),
        _ => Ok(None),
    }
}
