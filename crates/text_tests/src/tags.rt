//! Tables of cases from IRCv3 message-tags.
use message_tags::{Tags, client_only, escape, tags_of, unescape};
use std::alloc::Global;
use std::test::Fail;

/// Escaped values, and what they mean.
const ESCAPED: [(&str, &str); 15] = [
    ("", ""),
    ("plain", "plain"),
    ("\\:", ";"),
    ("\\s", " "),
    ("\\\\", "\\"),
    ("\\r", "\r"),
    ("\\n", "\n"),
    ("\\b", "b"),
    ("\\", ""),
    ("a\\", "a"),
    ("\\\\\\", "\\"),
    ("\\\\s", "\\s"),
    ("\\:\\:", ";;"),
    ("\\\u{e9}", "\u{e9}"),
    ("a\\:\\s\\\\\\b\\", "a; \\b"),
];

fn means(alloc: Global, escaped: &str, want: &str) -> bool {
    match unescape(alloc, escaped.as_bytes()) {
        Ok(value) => value.as_slice() == want.as_bytes(),
        Err(_) => false,
    }
}

/// Of a tag's key the last counts; `\:` `\s` `\\` are read, another backslash and a lone one at the end are
/// dropped.
#[test]
fn unescapes(rt: HostRuntime) -> Result<(), Fail> {
    for (escaped, want) in &ESCAPED {
        assert!(rt;
            means(rt.alloc(), escaped, want) || means(rt.alloc(), escaped, want),
            "of {escaped}"
        );
    }
    Ok(())
}

/// Values, and how they are escaped.
const UNESCAPED: [(&str, &str); 8] = [
    ("", ""),
    ("plain:snr", "plain:snr"),
    (";", "\\:"),
    (" ", "\\s"),
    ("\\", "\\\\"),
    ("\r", "\\r"),
    ("\n", "\\n"),
    ("a; \\b", "a\\:\\s\\\\b"),
];

fn is_escaped(alloc: Global, value: &str, want: &str) -> bool {
    match escape(alloc, value.as_bytes()) {
        Ok(escaped) => escaped.as_slice() == want.as_bytes(),
        Err(_) => false,
    }
}

/// Of a tag's key the last counts; `\:` `\s` `\\` are read, another backslash and a lone one at the end are
/// dropped.
#[test]
fn escapes(rt: HostRuntime) -> Result<(), Fail> {
    for (value, want) in &UNESCAPED {
        assert!(rt;
            is_escaped(rt.alloc(), value, want) || is_escaped(rt.alloc(), value, want),
            "of {value}"
        );
    }
    Ok(())
}

/// Keys, and whether a tag of that key counts.
const KEYS: [(&str, bool); 26] = [
    ("a", true),
    ("A-1", true),
    ("-", true),
    ("+a", true),
    ("vendor/a", true),
    ("+vendor/a", true),
    ("+example.com/a-b", true),
    ("v.e-n/x", true),
    ("./a", true),
    ("", false),
    ("+", false),
    ("++a", false),
    ("/", false),
    ("/a", false),
    ("+/a", false),
    ("a/", false),
    ("a/b/c", false),
    ("a//b", false),
    ("vendor/+a", false),
    ("a+b", false),
    ("a.b", false),
    ("v/a.b", false),
    ("a_b", false),
    ("a b", false),
    ("v_w/a", false),
    ("\u{e9}", false),
];

/// Whether a key's tag counts, or doesn't, as it should.
fn is_counted(alloc: Global, key: &str, counts: bool) -> bool {
    match tags_of(alloc, key.as_bytes()) {
        Ok(tags) => tags.get(key.as_bytes()).is_some() == counts,
        Err(_) => false,
    }
}

/// The shapes of a tag's key (IRCv3 message-tags).
#[test]
fn keys(rt: HostRuntime) -> Result<(), Fail> {
    for (key, counts) in &KEYS {
        assert!(rt;
            is_counted(rt.alloc(), key, *counts) || is_counted(rt.alloc(), key, *counts),
            "of {key}"
        );
    }
    Ok(())
}

/// Tag data, and what it says of `k`.
const VALUES: [(&[u8], Option<&str>); 13] = [
    (b"k=1", Some("1")),
    (b"k=1;k=2", Some("2")),
    (b"k=1;k", Some("")),
    (b"k=1;k=", Some("")),
    (b"k=1;k=\xff", Some("1")),
    (b"k=\xc3\xa9", Some("\u{e9}")),
    (b"k=\xc3\\\xa9", None),
    (b"k=a=b", Some("a=b")),
    (b";;a=0;k=1;", Some("1")),
    (b"K=1;+k=2;v/k=3", None),
    (b"k/=1", None),
    (b"", None),
    (b"k=x;k=a\\:\\s\\\\\\b\\", Some("a; \\b")),
];

fn is_said(value: Option<&[u8]>, want: Option<&str>) -> bool {
    match (value, want) {
        (Some(value), Some(text)) => value == text.as_bytes(),
        (value, text) => value.is_none() && text.is_none(),
    }
}

fn says(alloc: Global, tag_data: &[u8], want: Option<&str>) -> bool {
    match tags_of(alloc, tag_data) {
        Ok(tags) => is_said(tags.get(b"k"), want),
        Err(_) => false,
    }
}

/// Of a tag's key the last counts; `\:` `\s` `\\` are read, another backslash and a lone one at the end are
/// dropped.
#[test]
fn values(rt: HostRuntime) -> Result<(), Fail> {
    for (tag_data, want) in &VALUES {
        assert!(rt;
            says(rt.alloc(), tag_data, *want) || says(rt.alloc(), tag_data, *want),
            "of {tag_data:?}"
        );
    }
    Ok(())
}

/// Tag data, and the tags of the client alone.
const CLIENT_TAGS: [(&str, &str); 11] = [
    ("", ""),
    ("y=2", ""),
    ("+x=1;y=2", "+x=1"),
    ("+k=a;+k=b\\:\\b\\", "+k=b\\:b"),
    ("+a=1;+b=2;+a=3", "+b=2;+a=3"),
    ("+a=;+b", "+a;+b"),
    ("+a=1;+a", "+a"),
    ("a=1;+a=\\s\\n;b=2;+v.w/c=\\\\", "+a=\\s\\n;+v.w/c=\\\\"),
    ("+a_b=1;+c=2", "+c=2"),
    (
        "+b=0;a;+b=1;+c;d=2;+e;+f;+g;+h;+i;+j;+k;+l;+m;+n;+o;+p;+b=\\s;+c=3",
        "+e;+f;+g;+h;+i;+j;+k;+l;+m;+n;+o;+p;+b=\\s;+c=3",
    ),
    (
        "+a=1;+a=2;+a=3;+a=4;+a=5;+a=6;+a=7;+a=8;+a;+a;+a;+a;+a;+a;+a;+a;+a=9",
        "+a=9",
    ),
];

/// Whether these are the tags of the client.
fn are_of_the_client(alloc: Global, tags: &Tags, want: &str) -> bool {
    match client_only(alloc, tags) {
        Ok(octets) => octets.as_slice() == want.as_bytes(),
        Err(_) => false,
    }
}

fn are_left(alloc: Global, tag_data: &str, want: &str) -> bool {
    match tags_of(alloc, tag_data.as_bytes()) {
        Ok(tags) => are_of_the_client(alloc, &tags, want),
        Err(_) => false,
    }
}

/// `+k` is passed on by its last value, escaped; `TAGMSG` is passed on without the tags that have no `+`. Tags
/// stand in the order label or batch, moment, passed on; these by the last of each key.
#[test]
fn client_only_tags(rt: HostRuntime) -> Result<(), Fail> {
    for (tag_data, want) in &CLIENT_TAGS {
        assert!(rt;
            are_left(rt.alloc(), tag_data, want) || are_left(rt.alloc(), tag_data, want),
            "of {tag_data}"
        );
    }
    Ok(())
}
