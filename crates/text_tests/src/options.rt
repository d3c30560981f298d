//! Command lines and files, and what they are read as.
use clap::error::ErrorKind;
use registration::{AccountFault, Accounts};
use serving_options::{
    FileFault, ServeOptions, Subcommand, TextFault, account_line, accounts_of, fault_of_line,
    faulty_line, motd_of, parse,
};
use std::alloc::Global;
use std::test::Fail;

/// Words after `serve`, and the workers, items and records that they ask for.
type Numbers = (&'static [&'static str], (u64, u64, u64));

const NUMBERS: [Numbers; 6] = [
    (
        &["halld", "serve", "--tcp", "127.0.0.1:6667"],
        (2, 256, 100_000),
    ),
    (
        &["halld", "serve", "--workers", "1", "--tcp=[::1]:1"],
        (1, 256, 100_000),
    ),
    (
        &["halld", "serve", "--ws", "127.0.0.1:8067"],
        (2, 256, 100_000),
    ),
    (
        &["halld", "serve", "--tcp", "0.0.0.0:0", "--workers", "64"],
        (64, 256, 100_000),
    ),
    (
        &[
            "halld",
            "serve",
            "--tcp",
            "0.0.0.0:0",
            "--sendq",
            "4096",
            "--limit",
            "1",
        ],
        (2, 4096, 1),
    ),
    (
        &[
            "halld",
            "serve",
            "--tcp",
            "0.0.0.0:0",
            "--sendq=1",
            "--limit=10000000",
        ],
        (2, 1, 10_000_000),
    ),
];

/// The options that words ask for.
fn serve<'a>(alloc: Global, words: &'a [&'a str]) -> Option<ServeOptions<'a>> {
    match parse(alloc, words, "") {
        Ok(Subcommand::Serve(options)) => Some(options),
        _ => None,
    }
}

/// `--workers`, `--sendq` and `--limit` are read, and are 2, 256 and 100,000 where they aren't given.
#[test]
fn numbers_are_read(rt: HostRuntime) {
    for (words, numbers) in NUMBERS {
        let found = serve(rt.alloc(), words).map(|it| (it.workers, it.sendq, it.limit));
        assert_eq!(rt; found, Some(numbers), "{words:?}");
    }
}

/// Words after `serve`, and the octets that may wait and that are read before the journal's records go.
const OCTETS: [(&[&str], (u64, u64)); 3] = [
    (
        &["halld", "serve", "--tcp", "0.0.0.0:0"],
        (4_194_304, 67_108_864),
    ),
    (
        &[
            "halld",
            "serve",
            "--tcp",
            "0.0.0.0:0",
            "--sendq-bytes",
            "65536",
            "--journal-bytes=68719476736",
        ],
        (65_536, 68_719_476_736),
    ),
    (
        &[
            "halld",
            "serve",
            "--tcp",
            "0.0.0.0:0",
            "--sendq-bytes=1073741824",
            "--journal-bytes",
            "65536",
        ],
        (1_073_741_824, 65_536),
    ),
];

/// `--sendq-bytes` and `--journal-bytes` are read, and are 4 MiB and 64 MiB where they aren't given.
#[test]
fn octets_are_read(rt: HostRuntime) {
    for (words, octets) in OCTETS {
        let found = serve(rt.alloc(), words).map(|it| (it.sendq_bytes, it.journal_bytes));
        assert_eq!(rt; found, Some(octets), "{words:?}");
    }
}

/// `--tcp` and `--ws` are read, each alone.
#[test]
fn addresses_are_read(rt: HostRuntime) {
    let words = ["halld", "serve", "--ws", "127.0.0.1:8067"];
    let found = serve(rt.alloc(), &words).map(|it| (it.tcp.is_some(), it.ws.map(|a| a.port())));
    assert_eq!(rt; found, Some((false, Some(8067))));
    let words = ["halld", "serve", "--tcp", "127.0.0.1:6667"];
    let found = serve(rt.alloc(), &words).map(|it| (it.tcp.map(|a| a.port()), it.ws.is_some()));
    assert_eq!(rt; found, Some((Some(6667), false)));
}

/// `--name`, `--accounts` and `--motd` are read; the name is `irc.example` where it isn't given.
#[test]
fn texts_are_read(rt: HostRuntime) {
    let words = ["halld", "serve", "--tcp", "127.0.0.1:6667"];
    let found = serve(rt.alloc(), &words).map(|it| (it.name, it.accounts, it.motd));
    assert_eq!(rt; found, Some(("irc.example", None, None)));
    let words = [
        "halld",
        "serve",
        "--tcp",
        "0.0.0.0:1",
        "--name",
        "a.b",
        "--accounts",
        "c",
        "--motd",
        "d",
    ];
    let found = serve(rt.alloc(), &words).map(|it| (it.name, it.accounts, it.motd));
    assert_eq!(rt; found, Some(("a.b", Some("c"), Some("d"))));
}

/// Words that are refused, and why; help and the version are asked for in the same way.
const REFUSED: [(&[&str], ErrorKind); 17] = [
    (&["halld"], ErrorKind::MissingSubcommand),
    (&["halld", "sing"], ErrorKind::InvalidSubcommand),
    (&["halld", "serve"], ErrorKind::MissingRequiredArgument),
    (
        &["halld", "serve", "--tcp", "localhost"],
        ErrorKind::ValueValidation,
    ),
    (
        &["halld", "serve", "--tcp", "127.0.0.1"],
        ErrorKind::ValueValidation,
    ),
    (
        &["halld", "serve", "--ws", "localhost:1"],
        ErrorKind::ValueValidation,
    ),
    (
        &[
            "halld",
            "serve",
            "--tcp",
            "127.0.0.1:6667",
            "--workers",
            "0",
        ],
        ErrorKind::ValueValidation,
    ),
    (
        &[
            "halld",
            "serve",
            "--tcp",
            "127.0.0.1:6667",
            "--workers",
            "65",
        ],
        ErrorKind::ValueValidation,
    ),
    (
        &[
            "halld",
            "serve",
            "--tcp",
            "127.0.0.1:6667",
            "--sendq",
            "4097",
        ],
        ErrorKind::ValueValidation,
    ),
    (
        &[
            "halld",
            "serve",
            "--tcp",
            "127.0.0.1:6667",
            "--limit",
            "10000001",
        ],
        ErrorKind::ValueValidation,
    ),
    (
        &[
            "halld",
            "serve",
            "--tcp",
            "127.0.0.1:6667",
            "--sendq-bytes",
            "65535",
        ],
        ErrorKind::ValueValidation,
    ),
    (
        &[
            "halld",
            "serve",
            "--tcp",
            "127.0.0.1:6667",
            "--sendq-bytes",
            "1073741825",
        ],
        ErrorKind::ValueValidation,
    ),
    (
        &[
            "halld",
            "serve",
            "--tcp",
            "127.0.0.1:6667",
            "--journal-bytes",
            "65535",
        ],
        ErrorKind::ValueValidation,
    ),
    (
        &[
            "halld",
            "serve",
            "--tcp",
            "127.0.0.1:6667",
            "--journal-bytes",
            "68719476737",
        ],
        ErrorKind::ValueValidation,
    ),
    (
        &[
            "halld",
            "serve",
            "--tcp",
            "127.0.0.1:6667",
            "--tls",
            "127.0.0.1:6697",
        ],
        ErrorKind::UnknownArgument,
    ),
    (&["halld", "--help"], ErrorKind::DisplayHelp),
    (&["halld", "--version"], ErrorKind::DisplayVersion),
];

/// A number beyond its limits, an address that is none and a server without an address are refused, each for its
/// cause.
#[test]
fn what_is_refused_says_why(rt: HostRuntime) {
    for (words, kind) in REFUSED {
        let found = parse(rt.alloc(), words, "").err().map(|it| it.kind());
        assert_eq!(rt; found, Some(kind), "{words:?}");
    }
}

/// `halld play` asks for a script.
#[test]
fn play_is_asked_for(rt: HostRuntime) {
    let words = ["halld", "play"];
    assert!(rt; matches!(parse(rt.alloc(), &words, ""), Ok(Subcommand::Play)));
}

/// `halld check` takes the options of `serve`, and `halld account` a name.
#[test]
fn checks_and_accounts_are_asked_for(rt: HostRuntime) {
    let words = [
        "halld",
        "check",
        "--ws",
        "[::1]:1",
        "--workers",
        "3",
        "--log",
    ];
    let found = match parse(rt.alloc(), &words, "") {
        Ok(Subcommand::Check(options)) => Some((
            options.workers,
            options.has_log,
            options.is_quiet,
        )),
        _ => None,
    };
    assert_eq!(rt; found, Some((3, true, false)));
    let words = ["halld", "account", "al"];
    assert!(rt; matches!(parse(rt.alloc(), &words, ""), Ok(Subcommand::Account("al"))));
}

/// Names, salts and passwords, and the fault by which they have no line.
const LINES: [(&str, &str, &str, Option<AccountFault>); 6] = [
    ("al", "x7", "secret", None),
    ("[a]", "0", "a b\0c%\\", None),
    ("1al", "x7", "secret", Some(AccountFault::BadName)),
    ("a l", "x7", "secret", Some(AccountFault::Shape)),
    ("", "x7", "secret", Some(AccountFault::Shape)),
    ("al", "x\n7", "secret", Some(AccountFault::Shape)),
];

/// Whether the line of an account lets a user of its name in by the password, and by no other.
fn lets_in(alloc: Global, line: &[u8], name: &str, password: &str) -> bool {
    let Ok(accounts) = Accounts::read(alloc, line) else {
        return false;
    };
    let right = accounts.check(name.as_bytes(), password.as_bytes());
    let wrong = accounts.check(name.as_bytes(), b"another");
    matches!(right, Ok(Some(_))) && matches!(wrong, Ok(None))
}

/// An account's line lets its user in, and a name that is no nickname or a salt that is no word has none.
#[test]
fn lines_of_accounts_let_their_users_in(rt: HostRuntime) {
    for (name, salt, password, fault) in LINES {
        let (spelled, given) = (name.as_bytes(), password.as_bytes());
        let found = account_line(rt.alloc(), spelled, salt.as_bytes(), given);
        let is_right = match &found {
            Ok(line) => lets_in(rt.alloc(), line.as_slice(), name, password),
            Err(_) => true,
        };
        assert!(rt; is_right && found.err() == fault, "{name:?}");
    }
}

/// Files of a message of the day, and how many octets each line has.
const MOTDS: [(&str, &[usize]); 7] = [
    ("", &[]),
    ("\n", &[0]),
    ("\n\n", &[0, 0]),
    ("one", &[3]),
    ("one\n", &[3]),
    ("one\n\nthree\n", &[3, 0, 5]),
    ("one\ntwo\r\nx", &[3, 4, 1]),
];

/// Lines of the message of the day end with a line feed, the last with or without one.
#[test]
fn line_feeds_part_the_message_of_the_day(rt: HostRuntime) -> Result<(), Fail> {
    for (file, lengths) in MOTDS {
        let motd = motd_of(rt.alloc(), file.as_bytes())?;
        let found = motd.as_slice().iter().map(|line| line.len());
        assert!(rt; found.eq(lengths.iter().copied()), "{file:?}");
    }
    Ok(())
}

/// Of the accounts the first faulty line is reported; an empty file has none.
#[test]
fn the_first_fault_of_an_account_is_told(rt: HostRuntime) {
    let found = accounts_of(rt.alloc(), b"\nal salt\n");
    assert!(rt; matches!(found, Err(FileFault::Account(2, AccountFault::Shape))));
    assert!(rt; matches!(accounts_of(rt.alloc(), b""), Ok(_)));
}

/// Files of a message of the day, the place of the first line with which something is wrong, and what.
const FAULTY: [(&str, Option<(usize, TextFault)>); 4] = [
    ("one\n\nthree\n", None),
    ("one\r\n", Some((0, TextFault::EndsWithCr))),
    ("one\n\ntwo\0x\n", Some((2, TextFault::HasControl))),
    ("a\rb\n\r\n", Some((0, TextFault::HasControl))),
];

/// Of the lines of a message of the day the first with a fault is reported: more than 400 octets, CR at its end, or
/// NUL or CR within.
#[test]
fn first_line_with_a_fault_is_told(rt: HostRuntime) -> Result<(), Fail> {
    for (file, wanted) in FAULTY {
        let motd = motd_of(rt.alloc(), file.as_bytes())?;
        let place = faulty_line(&motd);
        let line = place.and_then(|place| motd.as_slice().get(place));
        let fault = line.and_then(|line| fault_of_line(line.as_slice()));
        assert_eq!(rt; place.zip(fault), wanted, "{file:?}");
    }
    assert_eq!(rt; fault_of_line(&[b'x'; 400]), None);
    assert_eq!(rt; fault_of_line(&[b'x'; 401]), Some(TextFault::TooLong));
    Ok(())
}
