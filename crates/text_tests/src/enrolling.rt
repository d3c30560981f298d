//! What files of accounts are answered, and who logs in by them.
use registration::{AccountFault, Accounts};
use std::alloc::{AllocError, Global};
use std::test::Fail;

const FILE: &str = "\
al a ba7816bf8f01cfea414140de5dae2223b00361a396177a9cb410ff61f20015ad

Bo abcdbcdecdefdefgefghfghighijhijkijkljklmklmnlmnomnopnop 248D6A61D20638B8E5C026930C3E6039A33CE45964FF2167F6ECEDD419DB06C1
";

const TWICE: &str = "\
al a ba7816bf8f01cfea414140de5dae2223b00361a396177a9cb410ff61f20015ad
AL b ba7816bf8f01cfea414140de5dae2223b00361a396177a9cb410ff61f20015ad";

/// Files without a fault, and such that their only line, or another, has this one first. One that has several is
/// told the first of these: its shape, its name, its digest, that it comes twice.
const FILES: [(&str, Option<(u64, AccountFault)>); 20] = [
    ("", None),
    ("\n\n", None),
    (FILE, None),
    ("al a", Some((1, AccountFault::Shape))),
    ("\n\n\nal a", Some((4, AccountFault::Shape))),
    ("1 a", Some((1, AccountFault::Shape))),
    (
        "al  a ba7816bf8f01cfea414140de5dae2223b00361a396177a9cb410ff61f20015ad",
        Some((1, AccountFault::Shape)),
    ),
    (
        " al a ba7816bf8f01cfea414140de5dae2223b00361a396177a9cb410ff61f20015ad",
        Some((1, AccountFault::Shape)),
    ),
    (
        "al a ba7816bf8f01cfea414140de5dae2223b00361a396177a9cb410ff61f20015ad ",
        Some((1, AccountFault::Shape)),
    ),
    (
        "al a ba7816bf8f01cfea414140de5dae2223b00361a396177a9cb410ff61f20015ad x",
        Some((1, AccountFault::Shape)),
    ),
    ("\n1 a b\n", Some((2, AccountFault::BadName))),
    (
        "a234567890123456789012345678901 a ba7816bf8f01cfea414140de5dae2223b00361a396177a9cb410ff61f20015ad",
        Some((1, AccountFault::BadName)),
    ),
    (
        "a23456789012345678901234567890 a ba7816bf8f01cfea414140de5dae2223b00361a396177a9cb410ff61f20015ad",
        None,
    ),
    ("al a b", Some((1, AccountFault::BadDigest))),
    (
        "al a ba7816bf8f01cfea414140de5dae2223b00361a396177a9cb410ff61f20015a",
        Some((1, AccountFault::BadDigest)),
    ),
    (
        "al a ga7816bf8f01cfea414140de5dae2223b00361a396177a9cb410ff61f20015ad",
        Some((1, AccountFault::BadDigest)),
    ),
    (
        "al a ba7816bf8f01cfea414140de5dae2223b00361a396177a9cb410ff61f20015ad\r\n",
        Some((1, AccountFault::BadDigest)),
    ),
    (
        "al a ba7816bf8f01cfea414140de5dae2223b00361a396177a9cb410ff61f20015ad\nAL a b",
        Some((2, AccountFault::BadDigest)),
    ),
    (TWICE, Some((2, AccountFault::Twice))),
    ("al a\n1 a b", Some((1, AccountFault::Shape))),
];

/// Whether a file has this first fault, or none. Where there is no memory it is read once more.
fn is_answered(alloc: Global, file: &str, want: Option<(u64, AccountFault)>) -> bool {
    let fault = match Accounts::read(alloc, file.as_bytes()).err() {
        Some((_, AccountFault::Memory)) => Accounts::read(alloc, file.as_bytes()).err(),
        fault => fault,
    };
    fault == want
}

/// A line `al a` of the accounts is out of shape, and the same account twice is told by its second line.
#[test]
fn files_are_read(rt: HostRuntime) {
    for (file, want) in &FILES {
        assert!(rt; is_answered(rt.alloc(), file, *want), "{file}");
    }
}

/// A user, a password, and the account by which they log in. The digests are those of two examples of FIPS 180-4.
const LOGINS: [(&str, &str, Option<&str>); 8] = [
    ("al", "bc", Some("al")),
    ("AL", "bc", Some("al")),
    ("bo", "q", Some("Bo")),
    ("al", "BC", None),
    ("al", "", None),
    ("al", "q", None),
    ("bo", "bc", None),
    ("cy", "bc", None),
];

/// Whether a user logs in by this account of the file, or by none.
fn is_checked(
    alloc: Global,
    user: &str,
    password: &str,
    want: Option<&str>,
) -> Result<bool, AllocError> {
    let Ok(accounts) = Accounts::read(alloc, FILE.as_bytes()) else {
        return Ok(false);
    };
    match accounts.check(user.as_bytes(), password.as_bytes())? {
        Some(name) => Ok(want.is_some_and(|want| name.as_slice() == want.as_bytes())),
        None => Ok(want.is_none()),
    }
}

/// Salt and password are hashed to the account's digest, in either case of the name.
#[test]
fn who_knows_a_password_logs_in(rt: HostRuntime) -> Result<(), Fail> {
    for (user, password, want) in &LOGINS {
        assert!(rt;
            is_checked(rt.alloc(), user, password, *want)?,
            "{user} {password}"
        );
    }
    Ok(())
}
