//! Writing a delivery's octets to a session.
ghost use Rattle.std.specs.Prelude.{◌≡◌, ◌↔◌, ◌≤◌, ◌<◌, ◌+◌, ◌^◌, ◌++◌, ℕ, List, length, take, IsOk, Option};
ghost use Rattle.std.specs.Io.KnownBytes.{Appends};
ghost use Rattle.deliveries.specs.Text.{error_line, delivery_text, WritesFront};

use crate::delivery::Delivery;
use chronicle::Why;
use std::io::Write;

/// Why a delivery was not written to its end.
#[derive(Clone, Copy, Debug, PartialEq)]
pub enum WriteFault {
    /// A write failed. One that was interrupted is not tried again.
    Failed,
    /// A write took nothing.
    Zero,
}

/// Writes one part, in as many writes as it takes. It answers how many octets went out, from the front.
fn write_all_of<W: Write>(part: &[u8], out: &mut W) -> (usize, Result<(), WriteFault>)
    ensures { WritesFront (W.contents out.old) (W.contents out.new) part.now result }
{
    let mut count = 0;
    while count < part.len() {
        match out.write(&part[count..]) {
            Ok(0) => return (count, Err(WriteFault::Zero)),
            Ok(more) => count += more,
            Err(_) => return (count, Err(WriteFault::Failed)),
        }
    }
    (count, Ok(()))
}

/// Writes a part where all before it went out, and counts on.
#[tactic(auto, using(crate::proofs::Written::then_none))]
fn write_next<W: Write>(
    before: (usize, Result<(), WriteFault>),
    part: &[u8],
    out: &mut W,
) -> (usize, Result<(), WriteFault>)
    requires { before.0 + length part.now < 2 ^ 64 }
    ensures within { result.0 ≤ before.0 + length part.now }
    ensures front { (start : Option (List ℕ)) → (text : List ℕ)
        → WritesFront start (W.contents out.old) text before
        → WritesFront start (W.contents out.new) (text ++ part.now) result }
{
    let (count, Ok(())) = before else {
        return before;
    };
    let (more, written) = write_all_of(part, out);
    (count + more, written)
}

/// Writes the ERROR line of a session's end.
fn write_error<W: Write>(host: &[u8], why: Why, out: &mut W) -> (usize, Result<(), WriteFault>)
    ensures { WritesFront (W.contents out.old) (W.contents out.new)
        (error_line host.now why) result }
{
    let mut written = write_all_of(b"ERROR :Closing Link: ", out);
    written = write_next(written, host, out);
    written = write_next(written, b" (", out);
    written = write_next(written, why.text().as_bytes(), out);
    write_next(written, b")\r\n", out)
}

/// Writes a delivery's octets: its lines, or the ERROR line of who has this host. It answers how many went out, from
/// the front.
///
/// It takes no memory. After a fault the rest was not written.
pub fn write_out<W: Write>(
    delivery: &Delivery,
    host: &[u8],
    out: &mut W,
) -> (usize, Result<(), WriteFault>)
    ensures within { result.0 ≤ length (delivery_text delivery.now host.now) }
    ensures appended { Appends (W.contents out.old) (W.contents out.new)
        (take result.0 (delivery_text delivery.now host.now)) }
    ensures whole { IsOk result.1 ↔ (result.0 ≡ length (delivery_text delivery.now host.now)) }
{
    match delivery {
        Delivery::Lines { text, .. } => write_all_of(text.as_slice(), out),
        Delivery::Last { why, .. } => write_error(host, *why, out),
    }
}
