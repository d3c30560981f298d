//! Tables of cases from RFC 2812, sections 1.3, 2.2, 2.3.1 and 2.5.
use casemapping::{Folded, is_channel, is_host, is_same, matches};
use std::alloc::{AllocError, Global};
use std::cmp::Ordering;
use std::test::Fail;

/// Two names, and whether they are the same.
const PAIRS: [(&str, &str, bool); 10] = [
    ("", "", true),
    ("", "a", false),
    ("Guest", "gUEST", true),
    ("[a]\\~", "{A}|^", true),
    ("a^", "A~", true),
    ("a`", "a@", false),
    ("ab", "abc", false),
    ("abc", "ab", false),
    ("abc", "abd", false),
    ("zbc", "abc", false),
];

/// Names are equal, and stand in order, by their fold.
#[test]
fn same_names(rt: HostRuntime) {
    for (a, b, want) in &PAIRS {
        assert_eq!(rt;
            is_same(a.as_bytes(), b.as_bytes()),
            *want,
            "of {a} and {b}"
        );
    }
}

const CHANNELS: [(&str, bool); 16] = [
    ("#rust", true),
    ("&local", true),
    ("+modeless", false),
    ("!12345safe", false),
    ("rust", false),
    ("#", true),
    ("##", true),
    ("#a:b", true),
    ("#a b", false),
    ("#a,b", false),
    ("#a\x07b", false),
    ("#a\rb", false),
    ("#a\nb", false),
    ("#a\0b", false),
    ("#\u{e9}", true),
    (",#a", false),
];

/// The shapes of channel names (RFC 2812, section 1.3), of at most 50 octets.
#[test]
fn channels(rt: HostRuntime) {
    for (name, want) in &CHANNELS {
        assert_eq!(rt; is_channel(name.as_bytes()), *want, "of {name}");
    }
}

const HOSTS: [(&str, bool); 12] = [
    ("irc.example.org", true),
    ("EXAMPLE", true),
    ("10.0.0.1", true),
    ("2001:db8::1", true),
    ("::1", false),
    (":", false),
    ("0::1", true),
    ("-a", true),
    ("a_b", false),
    ("a b", false),
    ("a/b", false),
    ("a@b", false),
];

/// The shapes of hosts (RFC 2812, section 2.3.1), of at most 63 octets.
#[test]
fn hosts(rt: HostRuntime) {
    for (name, want) in &HOSTS {
        assert_eq!(rt; is_host(name.as_bytes()), *want, "of {name}");
    }
}

/// Masks and texts, and whether the mask matches.
const MASKS: [(&str, &str, bool); 33] = [
    ("", "", true),
    ("", "a", false),
    ("b", "bo", false),
    ("bo", "b", false),
    ("b", "B", true),
    ("*", "", true),
    ("*", "anything at all", true),
    ("**", "", true),
    ("?", "", false),
    ("?", "a", true),
    ("?", "ab", false),
    ("??", "ab", true),
    ("*?", "", false),
    ("*?", "a", true),
    ("?*", "abc", true),
    ("a*", "a", true),
    ("a*", "b", false),
    ("*a", "banana", true),
    ("*an", "banana", false),
    ("b*n*a", "banana", true),
    ("*ana*", "banana", true),
    ("*nan?", "banana", true),
    ("a*b*c", "aXXbYYc", true),
    ("a*b*c", "aXXcYYb", false),
    ("*ab", "aab", true),
    ("*aab*", "aaab", true),
    ("b?!*@H2", "BO!b@h2", true),
    ("*!*@*.example.org", "bo!b@irc.EXAMPLE.org", true),
    ("*!*@*.example.org", "bo!b@example.org", false),
    ("[x]*", "{X}yz", true),
    ("a\\*b", "a\\xb", true),
    ("a?c", "a*c", true),
    ("a*c?", "abcc", true),
];

/// A mask with `?` and `*` matches by fold; `b` doesn't match `bo`.
#[test]
fn masks(rt: HostRuntime) {
    for (mask, text, want) in &MASKS {
        assert_eq!(rt;
            matches(mask.as_bytes(), text.as_bytes()),
            *want,
            "of {mask} and {text}"
        );
    }
}

fn stars(alloc: Global) -> Result<Vec<u8>, AllocError> {
    let mut mask = Vec::new(alloc);
    for _ in 0..200u8 {
        mask.extend_from_slice(b"*a")?;
    }
    Ok(mask)
}

/// A mask of two hundred `a` and `*` is matched against five hundred octets without trying all ways.
#[test]
fn many_stars_are_quick(rt: HostRuntime) -> Result<(), Fail> {
    let mask = stars(rt.alloc())?;
    assert!(rt; matches(&mask, &[b'a'; 500]) && !matches(&mask, &[b'a'; 199]));
    Ok(())
}

/// Two names, and how the first stands to the second once both are folded: by octets, the letters in lower case.
const ORDERS: [(&str, &str, Ordering); 7] = [
    ("#A[1]", "#a{1}", Ordering::Equal),
    ("", "", Ordering::Equal),
    ("Bo", "al", Ordering::Greater),
    ("al", "Bo", Ordering::Less),
    ("al", "ALF", Ordering::Less),
    ("_", "A", Ordering::Less),
    ("~", "^", Ordering::Equal),
];

/// How two names stand to each other, and whether they are equal.
fn order_of(alloc: Global, first: &str, second: &str) -> Result<(Ordering, bool), AllocError> {
    let first = Folded::new(alloc, first.as_bytes())?;
    let second = Folded::new(alloc, second.as_bytes())?.clone()?;
    Ok((first.cmp(&second), first == second))
}

/// Names are equal, and stand in order, by their fold.
#[test]
fn folded_names_have_an_order(rt: HostRuntime) -> Result<(), Fail> {
    for (first, second, want) in &ORDERS {
        let is_equal = *want == Ordering::Equal;
        assert_eq!(rt;
            order_of(rt.alloc(), first, second)?,
            (*want, is_equal),
            "{first} {second}"
        );
    }
    Ok(())
}
