//! Steps and notes as files spell them: `~` is the server's name, `%064` so many octets `V`, `%x0d` the octet of
//! these two digits, and the note `1> welcome al!a@h1` the five lines by which session 1 is welcomed.
use std::alloc::AllocError;

/// The lines of a welcome (RFC 2812, section 5.1): `$` is the session, `^` its nickname, and `*` its whole source.
const WELCOME: &str = "\
$> :irc.example 001 ^ :Welcome to the Internet Relay Network *
$> :irc.example 002 ^ :Your host is irc.example, running version halld-1
$> :irc.example 003 ^ :This server was created 1970-01-01T00:00:00.000Z
$> :irc.example 004 ^ irc.example halld-1 i biklmnostv
$> :irc.example 005 ^ AWAYLEN=200 CASEMAPPING=rfc1459 CHANLIMIT=#&:20 CHANMODES=b,k,l,imnst CHANNELLEN=50 \
CHANTYPES=#& KICKLEN=200 MAXLIST=b:60 MODES=4 NICKLEN=30 PREFIX=(ov)@+ TOPICLEN=300 :are supported by this server
";

/// The number that digits spell.
fn number_of(digits: &[u8]) -> u32 {
    let mut number = 0u32;
    for digit in digits {
        number = number
            .wrapping_mul(10)
            .wrapping_add(u32::from(digit.wrapping_sub(b'0')));
    }
    number
}

/// The value of a hexadecimal digit.
fn digit_of(digit: u8) -> u8 {
    match digit {
        b'0'..=b'9' => digit - b'0',
        b'a'..=b'f' => digit - b'a' + 10,
        _ => 0,
    }
}

/// Adds what stands after a `%`.
fn write_special(out: &mut Vec<u8>, text: &[u8]) -> Result<(), AllocError> {
    let Some((sign, rest)) = text.split_at_checked(3) else {
        return Ok(());
    };
    match sign {
        [b'x', high, low] => out.push(digit_of(*high) << 4 | digit_of(*low))?,
        _ => {
            for _ in 0..number_of(sign) {
                out.push(b'V')?;
            }
        }
    }
    write_named(out, rest)
}

/// Adds a text in which `~` is the server's name.
fn write_named(out: &mut Vec<u8>, text: &[u8]) -> Result<(), AllocError> {
    for octet in text {
        if *octet == b'~' {
            out.extend_from_slice(b"irc.example")?;
        } else {
            out.push(*octet)?;
        }
    }
    Ok(())
}

/// Adds what a text spells.
pub(crate) fn write_spelled(out: &mut Vec<u8>, text: &[u8]) -> Result<(), AllocError> {
    let mut parts = text.split(|octet| *octet == b'%');
    if let Some(first) = parts.next() {
        write_named(out, first)?;
    }
    for part in parts {
        write_special(out, part)?;
    }
    Ok(())
}

/// Adds the lines by which a session is welcomed.
fn write_welcome(out: &mut Vec<u8>, session: u8, source: &[u8]) -> Result<(), AllocError> {
    let mut names = source.split(|octet| *octet == b'!');
    let nick = names.next().unwrap_or(b"");
    for octet in WELCOME.as_bytes() {
        match octet {
            b'$' => out.push(session)?,
            b'^' => out.extend_from_slice(nick)?,
            b'*' => out.extend_from_slice(source)?,
            _ => out.push(*octet)?,
        }
    }
    Ok(())
}

/// Adds a note, or those of a welcome.
pub(crate) fn write_note(out: &mut Vec<u8>, note: &[u8]) -> Result<(), AllocError> {
    if let Some((session, rest)) = note.split_first()
        && let Some(source) = rest.strip_prefix(b"> welcome ")
    {
        return write_welcome(out, *session, source);
    }
    write_spelled(out, note)?;
    out.push(b'\n')?;
    Ok(())
}
