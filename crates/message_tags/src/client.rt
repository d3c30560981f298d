//! The tags that clients send to one another (IRCv3 message-tags, "Client-only tags").
ghost use Rattle.std.specs.Prelude.{◌≡◌, ◌&&◌, not, ◌++◌, if◌then◌else◌, map, filter, reverse, IfOk, OnOk};
ghost use Rattle.std.specs.List.{list_any};
ghost use Rattle.message_tags.specs.Tags.{has_key};
ghost use Rattle.message_tags.specs.ClientOnly.{is_client_only, is_last, last_of_each};
ghost use Rattle.message_tags.specs.ClientOnly.{spelling_of, plus_tag, client_only_data};

use crate::escaping::push_escaped;
use crate::list::Tags;
use crate::tag::Tag;
use line_grammar::Octets;
use std::alloc::{AllocError, Global};
use std::collections::BTreeSet;

/// How many tags are compared with one another, in place of being put into a set.
const FEW_TAGS: usize = 16;

fn is_marked(tag: &Tag) -> bool
    ensures { result ≡ is_client_only tag.now }
{
    tag.key.as_slice().starts_with(b"+")
}

fn contains_key(tags: &[Tag], key: &[u8]) -> bool
    ensures { result ≡ list_any (has_key key.now) tags.now }
{
    tags.iter().any(|tag| tag.key.as_slice() == key)
}

fn push_spelling(tag_data: &mut Vec<u8>, tag: &Tag) -> Result<(), AllocError>
    ensures { OnOk result (tag_data.new.items ≡ tag_data.old.items ++ spelling_of tag.now) }
{
    tag_data.extend_from_slice(tag.key.as_slice())?;
    if !tag.value.as_slice().is_empty() {
        tag_data.push(b'=')?;
        push_escaped(tag_data, tag.value.as_slice())?;
    }
    Ok(())
}

fn push_joined(tag_data: &mut Vec<u8>, tag: &Tag) -> Result<(), AllocError>
    ensures { OnOk result (tag_data.new.items ≡ plus_tag tag_data.old.items (spelling_of tag.now)) }
{
    if !tag_data.is_empty() {
        tag_data.push(b';')?;
    }
    push_spelling(tag_data, tag)
}

fn push_if_counted(tag_data: &mut Vec<u8>, tag: &Tag, later: &[Tag]) -> Result<(), AllocError>
    ensures { OnOk result (tag_data.new.items
        ≡ (if is_client_only tag.now && is_last tag.now later.now
        then plus_tag tag_data.old.items (spelling_of tag.now) else tag_data.old.items)) }
{
    if is_marked(tag) && !contains_key(later, tag.key.as_slice()) {
        push_joined(tag_data, tag)?;
    }
    Ok(())
}

/// The tag data of few tags: a later tag of each key is looked for among those behind it.
#[tactic(auto, unfolding(crate::specs::ClientOnly::client_only_data))]
fn data_of_few(alloc: Global, tags: &[Tag]) -> Result<Vec<u8>, AllocError>
    ensures { IfOk result (λ tag_data. tag_data.items ≡ client_only_data tags.now) }
{
    let mut tag_data = Vec::new(alloc);
    let mut rest = tags;
    while let Some((tag, later)) = rest.split_first() {
        push_if_counted(&mut tag_data, tag, later)?;
        rest = later;
    }
    Ok(tag_data)
}

/// The client-only tags that are the last of their key, the last of these first.
fn last_of_keys<'a>(alloc: Global, tags: &'a [Tag]) -> Result<Vec<&'a Tag>, AllocError>
    ensures { IfOk result (λ v. map (λ tag. tag.now) v.items
        ≡ reverse (filter is_client_only (last_of_each tags.now))) }
{
    let mut keys = BTreeSet::new(alloc);
    let mut found = Vec::new(alloc);
    for tag in tags.iter().rev() {
        if is_marked(tag) && keys.insert(tag.key.as_slice())? {
            found.push(tag)?;
        }
    }
    Ok(found)
}

/// The tag data of many tags.
#[tactic(auto, unfolding(crate::specs::ClientOnly::client_only_data))]
fn data_of_many(alloc: Global, tags: &[Tag]) -> Result<Vec<u8>, AllocError>
    ensures { IfOk result (λ tag_data. tag_data.items ≡ client_only_data tags.now) }
{
    let mut left = last_of_keys(alloc, tags)?;
    let mut tag_data = Vec::new(alloc);
    while let Some(tag) = left.pop() {
        push_joined(&mut tag_data, tag)?;
    }
    Ok(tag_data)
}

/// The client-only tags as tag data, without a `@`: the tags whose key begins with `+`, of each key the
/// last, in the order of these, parted by `;`, each value escaped and an empty one left out with its `=`.
/// Empty where there are none (IRCv3 message-tags, "Client-only tags"). A growth that was refused is the
/// only error.
pub fn client_only(alloc: Global, tags: &Tags) -> Result<Octets, AllocError>
    ensures { IfOk result (λ octets. octets ≡ client_only_data tags.now) }
{
    let tags = tags.as_slice();
    let tag_data = if tags.len() <= FEW_TAGS {
        data_of_few(alloc, tags)?
    } else {
        data_of_many(alloc, tags)?
    };
    Ok(Octets::from_vec(tag_data))
}
