//! A CAN frame that comes without text.
ghost use Rattle.std.specs.Prelude.{◌≡◌, ◌++◌, ◌<◌, ◌≤◌, ◌/◌, codes, length, true, IfOk, OnOk};
ghost use Rattle.hex.specs.Hex.{encode_upper};
ghost use Rattle.n2k_wire.specs.Candump.{frame_payload};
ghost use Rattle.n2k_wire.specs.Stamp.{millis_digits};
ghost use Rattle.n2k_wire.specs.Texts.{second_digits};
ghost use Rattle.n2k_c.specs.Frame.{frame_line, is_frame};

use n2k_wire::FRAME_PAYLOAD;
use std::alloc::{AllocError, Global};

/// The first number above the CAN identifiers of 29 bits.
const FIRST_OTHER: u32 = 0x2000_0000;

/// The last second of the year 9999.
const LAST_SECOND: u64 = 253_402_300_799;

/// A CAN frame: its identifier of 29 bits, its data of at most 8 bytes, and its time since 1970 in UTC.
#[derive(Clone, Copy)]
pub struct Frame<'a> {
    pub identifier: u32,
    pub data: &'a [u8],
    pub seconds: u64,
    pub nanoseconds: u32,
}

/// Whether identifier, data and time are valid.
pub fn is_frame(frame: &Frame<'_>) -> bool
    ensures value { result ≡ is_frame frame.now.identifier frame.now.«data».now frame.now.seconds frame.now.nanoseconds }
    ensures short { result ≡ true → length frame.now.«data».now ≤ frame_payload }
    ensures time { result ≡ true → frame.now.nanoseconds < 1000000000 }
{
    frame.identifier < FIRST_OTHER
        && frame.data.len() <= FRAME_PAYLOAD
        && frame.seconds <= LAST_SECOND
        && frame.nanoseconds < 1_000_000_000
}

/// Appends at least ten digits.
#[tactic(auto, using(std::proofs::Common::append_assoc))]
fn push_seconds(seconds: u64, line: &mut Vec<u8>) -> Result<(), AllocError>
    ensures { OnOk result (line.new.items ≡ line.old.items ++ second_digits seconds) }
{
    let mut buffer = itoa::Buffer::new();
    let digits = buffer.format(seconds).as_bytes();
    line.extend_from_slice(&b"0000000000"[digits.len().min(10)..])?;
    line.extend_from_slice(digits)?;
    Ok(())
}

/// Appends the milliseconds of a second.
fn push_millis(nanoseconds: u32, line: &mut Vec<u8>) -> Result<(), AllocError>
    requires { nanoseconds < 1000000000 }
    ensures { OnOk result (line.new.items ≡ line.old.items ++ millis_digits (nanoseconds / 1000000)) }
{
    let millis = nanoseconds / 1_000_000;
    let a = b'0' + (millis / 100) as u8;
    let b = b'0' + (millis % 100 / 10) as u8;
    let c = b'0' + (millis % 100 % 10) as u8;
    line.extend_from_slice(&[a, b, c])?;
    Ok(())
}

/// Appends hexadecimal digits in upper case. `hex` writes lower case without memory.
#[tactic(auto, using(n2k_wire::proofs::CandumpLemmas::upper_of_lower))]
fn push_upper(bytes: &[u8], line: &mut Vec<u8>) -> Result<(), AllocError>
    requires { length bytes.now ≤ frame_payload }
    ensures { OnOk result (line.new.items ≡ line.old.items ++ encode_upper bytes.now) }
{
    let mut room = [0; 16];
    let digits = &mut room[..2 * bytes.len()];
    let _ = hex::encode_to_slice(bytes, digits);
    digits.make_ascii_uppercase();
    line.extend_from_slice(digits)?;
    Ok(())
}

/// Appends the time.
fn push_time(seconds: u64, nanoseconds: u32, line: &mut Vec<u8>) -> Result<(), AllocError>
    requires { nanoseconds < 1000000000 }
    ensures { OnOk result (line.new.items ≡ line.old.items ++ codes "(" ++ second_digits seconds ++ codes "."
        ++ millis_digits (nanoseconds / 1000000)) }
{
    line.extend_from_slice(b"(")?;
    push_seconds(seconds, line)?;
    line.extend_from_slice(b".")?;
    push_millis(nanoseconds, line)?;
    Ok(())
}

/// Appends the text between the milliseconds and the identifier.
fn push_interface(line: &mut Vec<u8>) -> Result<(), AllocError>
    ensures { OnOk result (line.new.items ≡ line.old.items ++ codes "000) " ++ codes "can0" ++ codes " ") }
{
    line.extend_from_slice(b"000) ")?;
    line.extend_from_slice(b"can0")?;
    line.extend_from_slice(b" ")?;
    Ok(())
}

/// The line that `candump -L` prints of a frame, to the millisecond.
#[tactic(auto, unfolding(n2k_wire::specs::Texts::candump_line))]
pub fn line_of(alloc: Global, frame: &Frame<'_>) -> Result<Vec<u8>, AllocError>
    requires short { length frame.now.«data».now ≤ frame_payload }
    requires time { frame.now.nanoseconds < 1000000000 }
    ensures { IfOk result (λ line. line.items
        ≡ frame_line frame.now.identifier frame.now.«data».now frame.now.seconds frame.now.nanoseconds) }
{
    let mut line = Vec::with_capacity(alloc, 64)?;
    push_time(frame.seconds, frame.nanoseconds, &mut line)?;
    push_interface(&mut line)?;
    push_upper(&frame.identifier.to_be_bytes(), &mut line)?;
    line.extend_from_slice(b"#")?;
    push_upper(frame.data, &mut line)?;
    line.extend_from_slice(b"\n")?;
    Ok(line)
}
