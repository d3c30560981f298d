//! The shapes of names (RFC 2812, sections 1.3 and 2.3.1).
ghost use Rattle.std.specs.Prelude.{◌≡◌};
ghost use Rattle.std.specs.List.{list_all};
ghost use Rattle.casemapping.specs.Names.{nick_start, nick_octet, channel_octet, host_octet};
ghost use Rattle.casemapping.specs.Names.{nick_shape, channel_shape, host_shape};

/// The most octets of a nickname: this project's own limit, above the nine of RFC 2812, section 1.2.1.
pub const NICKLEN: usize = 30;

/// The most octets of a channel name (RFC 2812, section 1.3).
pub const CHANNELLEN: usize = 50;

/// The most octets of a host name (RFC 2812, section 2.3.1).
pub const HOSTLEN: usize = 63;

fn is_nick_start(octet: u8) -> bool
    ensures { result ≡ nick_start octet }
{
    matches!(octet, b'A'..=b'Z' | b'a'..=b'z' | b'['..=b'`' | b'{'..=b'}')
}

fn is_nick_octet(octet: u8) -> bool
    ensures { result ≡ nick_octet octet }
{
    is_nick_start(octet) || matches!(octet, b'0'..=b'9' | b'-')
}

fn are_nick_octets(octets: &[u8]) -> bool
    ensures { result ≡ list_all nick_octet octets.now }
{
    octets.iter().all(|octet| is_nick_octet(*octet))
}

fn is_channel_octet(octet: u8) -> bool
    ensures { result ≡ channel_octet octet }
{
    !matches!(octet, 0 | 7 | b'\r' | b'\n' | b' ' | b',')
}

fn are_channel_octets(octets: &[u8]) -> bool
    ensures { result ≡ list_all channel_octet octets.now }
{
    octets.iter().all(|octet| is_channel_octet(*octet))
}

fn is_host_octet(octet: u8) -> bool
    ensures { result ≡ host_octet octet }
{
    matches!(octet, b'A'..=b'Z' | b'a'..=b'z' | b'0'..=b'9' | b'.' | b'-' | b':')
}

fn are_host_octets(octets: &[u8]) -> bool
    ensures { result ≡ list_all host_octet octets.now }
{
    octets.iter().all(|octet| is_host_octet(*octet))
}

/// Whether the octets are a nickname: 1 to [`NICKLEN`] of them, the first a letter or one of
/// ``[ ] \ ` _ ^ { | }``, and the others these, digits or `-` (RFC 2812, section 2.3.1).
#[tactic(auto, unfolding(crate::specs::Names::nick_shape))]
pub fn is_nick(name: &[u8]) -> bool
    ensures { result ≡ nick_shape name.now }
{
    let Some((first, rest)) = name.split_first() else {
        return false;
    };
    name.len() <= NICKLEN && is_nick_start(*first) && are_nick_octets(rest)
}

/// Whether the octets are a channel name: `#` or `&`, and then any octets but NUL, BEL, CR, LF, space
/// and comma, at most [`CHANNELLEN`] octets in all (RFC 2812, section 1.3).
#[tactic(auto, unfolding(crate::specs::Names::channel_shape))]
pub fn is_channel(name: &[u8]) -> bool
    ensures { result ≡ channel_shape name.now }
{
    let Some((first, rest)) = name.split_first() else {
        return false;
    };
    name.len() <= CHANNELLEN && matches!(first, b'#' | b'&') && are_channel_octets(rest)
}

/// Whether the octets are a host name or an address: 1 to [`HOSTLEN`] letters, digits, `.`, `-` and
/// `:`, of which the first is no `:` (RFC 2812, section 2.3.1).
#[tactic(auto, unfolding(crate::specs::Names::host_shape))]
pub fn is_host(name: &[u8]) -> bool
    ensures { result ≡ host_shape name.now }
{
    let Some(first) = name.first() else {
        return false;
    };
    name.len() <= HOSTLEN && *first != b':' && are_host_octets(name)
}
