//! The shape of a key (IRCv3 message-tags, "Format").
ghost use Rattle.std.specs.Prelude.{◌≡◌, ◌==◌, position};
ghost use Rattle.std.specs.List.{list_all};
ghost use Rattle.message_tags.specs.Tags.{name_octet, vendor_octet, some_of, key_shape, without_plus};

fn is_name_octet(octet: u8) -> bool
    ensures { result ≡ name_octet octet }
{
    octet.is_ascii_alphanumeric() || octet == b'-'
}

fn is_vendor_octet(octet: u8) -> bool
    ensures { result ≡ vendor_octet octet }
{
    is_name_octet(octet) || octet == b'.'
}

fn are_name_octets(octets: &[u8]) -> bool
    ensures { result ≡ list_all name_octet octets.now }
{
    octets.iter().all(|octet| is_name_octet(*octet))
}

fn are_vendor_octets(octets: &[u8]) -> bool
    ensures { result ≡ list_all vendor_octet octets.now }
{
    octets.iter().all(|octet| is_vendor_octet(*octet))
}

fn is_name(octets: &[u8]) -> bool
    ensures { result ≡ some_of name_octet octets.now }
{
    !octets.is_empty() && are_name_octets(octets)
}

fn is_vendor(octets: &[u8]) -> bool
    ensures { result ≡ some_of vendor_octet octets.now }
{
    !octets.is_empty() && are_vendor_octets(octets)
}

fn past_plus(key: &[u8]) -> &[u8]
    ensures { result.now ≡ without_plus key.now }
{
    match key.split_first() {
        Some((b'+', rest)) => rest,
        _ => key,
    }
}

/// The place of the first octet that is a mark.
pub(crate) fn place_of(mark: u8, octets: &[u8]) -> Option<usize>
    ensures { result ≡ position (λ octet. octet == mark) octets.now }
{
    octets.iter().position(|octet| *octet == mark)
}

/// Whether the octets are a key: `+` or none, a vendor and `/` or none, and a name. A name has one or
/// more letters, digits or `-`, a vendor one or more of these or `.`.
#[tactic(auto, unfolding(crate::specs::Tags::key_shape))]
pub(crate) fn is_key(key: &[u8]) -> bool
    ensures { result ≡ key_shape key.now }
{
    let path = past_plus(key);
    match place_of(b'/', path) {
        Some(slash) => is_vendor(&path[..slash]) && is_name(&path[slash + 1..]),
        None => is_name(path),
    }
}
