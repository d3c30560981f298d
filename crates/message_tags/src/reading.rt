//! Tag data read as tags (IRCv3 message-tags, "Format").
ghost use Rattle.std.specs.Prelude.{◌≡◌, ◌∷◌, [], ◌++◌, map, filter, IfOk, OnOk};
ghost use Rattle.std.specs.Option.{option_map};
ghost use Rattle.std.specs.Str.{is_utf8};
ghost use Rattle.message_tags.specs.Value.{value};
ghost use Rattle.message_tags.specs.Tags.{key_of, raw_value_of, tag, tag_of, counts, counting_tags, last_value};

use crate::escaping::unescape;
use crate::key::{is_key, place_of};
use crate::list::Tags;
use crate::tag::Tag;
use line_grammar::Octets;
use std::alloc::{AllocError, Global};

fn is_text(octets: &[u8]) -> bool
    ensures { result ≡ is_utf8 octets.now }
{
    std::str::from_utf8(octets).is_ok()
}

fn key_and_raw_value(part: &[u8]) -> (&[u8], &[u8])
    ensures key { result.0.now ≡ key_of part.now }
    ensures value { result.1.now ≡ raw_value_of part.now }
{
    match place_of(b'=', part) {
        Some(equals) => (&part[..equals], &part[equals + 1..]),
        None => (part, &[]),
    }
}

fn push_tag(alloc: Global, tags: &mut Vec<Tag>, part: &[u8]) -> Result<(), AllocError>
    ensures { OnOk result
        (tags.new.items ≡ tags.old.items ++ map tag_of (filter counts (part.now ∷ []))) }
{
    let (key, raw_value) = key_and_raw_value(part);
    if is_key(key) && is_text(raw_value) {
        tags.push(Tag {
            key: Octets::copy_of(alloc, key)?,
            value: unescape(alloc, raw_value)?,
        })?;
    }
    Ok(())
}

/// The value of a part as it stands, where the part is a tag that counts and has this key.
#[tactic(auto, unfolding(crate::specs::Tags::last_value))]
fn raw_value_under<'a>(key: &[u8], part: &'a [u8]) -> Option<&'a [u8]>
    ensures { option_map (λ raw. value raw.now) result
        ≡ last_value (map tag_of (filter counts (part.now ∷ []))) key.now }
{
    let (own, raw_value) = key_and_raw_value(part);
    if own == key && is_key(own) && is_text(raw_value) {
        return Some(raw_value);
    }
    None
}

/// The value, as it stands in tag data, of the last tag with a key. `None` where no tag that counts has it. Nothing
/// is copied.
pub fn last_raw_value<'a>(tag_data: &'a [u8], key: &[u8]) -> Option<&'a [u8]>
    ensures { option_map (λ raw. value raw.now) result ≡ tag tag_data.now key.now }
{
    let mut found = None;
    for part in tag_data.split(|octet| *octet == b';') {
        found = raw_value_under(key, part).or(found);
    }
    found
}

/// The tags of tag data, which is given without its `@`. A tag counts if its key is `+` or none, a vendor
/// and `/` or none, and a name, and its value, as it stands in the line, is UTF-8 (IRCv3 message-tags,
/// "Format"). The others are dropped. A growth that was refused is the only error.
pub fn tags_of(alloc: Global, tag_data: &[u8]) -> Result<Tags, AllocError>
    ensures { IfOk result (λ tags. tags ≡ counting_tags tag_data.now) }
{
    let mut tags = Vec::new(alloc);
    for part in tag_data.split(|octet| *octet == b';') {
        push_tag(alloc, &mut tags, part)?;
    }
    Ok(Tags::from_vec(tags))
}
