//! What is found in a line and in tag data without a copy (IRCv3 message-tags).
use line_grammar::{LineFault, parse};
use message_tags::{last_raw_value, unescaped_len};
use std::alloc::Global;
use std::test::Fail;

/// Lines, and the tag data of those that are messages.
const LINES: [(&[u8], Option<&[u8]>); 7] = [
    (b"@a=1;b PING x", Some(b"a=1;b")),
    (b"@a  :al ping", Some(b"a")),
    (b"@ PING x", Some(b"")),
    (b" PING x", Some(b"")),
    (b" @a PING x", None),
    (b"@a", None),
    (b"@a PING \0", None),
];

/// The tag data of a line that is a message, which is read once more where a growth was refused.
fn tag_data(alloc: Global, line: &[u8]) -> Option<&[u8]> {
    let message = match parse(alloc, line) {
        Err(LineFault::Memory) => parse(alloc, line),
        answer => answer,
    };
    Some(message.ok()?.tags())
}

/// Tag data is what stands between `@` and the first space of a line that is a message.
#[test]
fn tag_data_of_lines(rt: HostRuntime) -> Result<(), Fail> {
    for (line, want) in &LINES {
        assert!(rt; tag_data(rt.alloc(), line) == *want, "of {line:?}");
    }
    Ok(())
}

/// Tag data, and the value of `k` as it stands there.
const RAW_VALUES: [(&[u8], Option<&[u8]>); 7] = [
    (b"k=1;k=2", Some(b"2")),
    (b"k=x;k=a\\:\\s;j=y", Some(b"a\\:\\s")),
    (b"k=1;k", Some(b"")),
    (b"k=1;k=\xff", Some(b"1")),
    (b"K=1;+k=2;v/k=3", None),
    (b"k/=1", None),
    (b"", None),
];

/// Of a tag's key the last counts, as it stands; a value that isn't UTF-8, and a key that is out of shape, counts
/// for none.
#[test]
fn raw_values(rt: HostRuntime) -> Result<(), Fail> {
    for (tags, want) in &RAW_VALUES {
        assert!(rt; last_raw_value(tags, b"k") == *want, "of {tags:?}");
    }
    Ok(())
}

/// Values as they stand in a line, and how many octets they mean.
const LENGTHS: [(&[u8], usize); 6] = [
    (b"", 0),
    (b"plain", 5),
    (b"\\", 0),
    (b"a\\", 1),
    (b"\\\\\\", 1),
    (b"\\:\\:\\b", 3),
];

/// How many octets an escaped value means: a lone backslash at the end means none.
#[test]
fn lengths_of_values(rt: HostRuntime) -> Result<(), Fail> {
    for (value, want) in &LENGTHS {
        assert!(rt; unescaped_len(value) == *want, "of {value:?}");
    }
    Ok(())
}
