//! Control characters of a text for a terminal, as `\x1b`.
ghost use Rattle.std.specs.Prelude.{◌≡◌, ◌<◌, ◌++◌, OnOk};
ghost use Rattle.n2kdec.specs.Fault.Escape.{escape, escaped, hex_digit, is_control, is_control_of_two, shown};

use std::alloc::AllocError;

/// The first byte of the control characters U+0080 to U+009F, and of others.
const LEAD: u8 = 0xC2;

/// A byte that forms no control character with the byte before it.
const NOTHING: u8 = 0xFF;

/// A digit of a number to the base 16.
fn hex_digit(number: u8) -> u8
    requires { number < 16 }
    ensures { result ≡ hex_digit number }
{
    if number < 10 {
        b'0' + number
    } else {
        b'a' - 10 + number
    }
}

/// A byte as `\x1b`.
fn escape(byte: u8) -> [u8; 4]
    ensures { result ≡ escape byte }
{
    [b'\\', b'x', hex_digit(byte / 16), hex_digit(byte % 16)]
}

/// Whether two bytes are a control character.
fn is_control_of_two(last: u8, byte: u8) -> bool
    ensures { result ≡ is_control_of_two last byte }
{
    last == LEAD && byte < 0xA0
}

/// Whether a byte is a control character; a line feed is not if line feeds are kept.
fn is_control(keeps_lines: bool, byte: u8) -> bool
    ensures { result ≡ is_control keeps_lines byte }
{
    byte.is_ascii_control() && !(keeps_lines && byte == b'\n')
}

/// Appends a byte between these two, escaped if it is of a control character.
fn push_byte(
    keeps_lines: bool,
    last: u8,
    byte: u8,
    next: u8,
    out: &mut Vec<u8>,
) -> Result<(), AllocError>
    ensures { OnOk result (out.new.items ≡ out.old.items ++ shown keeps_lines last byte next) }
{
    if is_control(keeps_lines, byte)
        || is_control_of_two(last, byte)
        || is_control_of_two(byte, next)
    {
        out.extend_from_slice(&escape(byte))
    } else {
        out.extend_from_slice(&[byte])
    }
}

/// Appends a text with its control characters escaped, except line feeds if those are kept.
pub fn push_escaped(keeps_lines: bool, text: &[u8], out: &mut Vec<u8>) -> Result<(), AllocError>
    ensures { OnOk result (out.new.items ≡ out.old.items ++ escaped keeps_lines text.now) }
{
    let mut last = 0;
    for (index, byte) in text.iter().enumerate() {
        let next = text.get(index + 1).copied().unwrap_or(NOTHING);
        push_byte(keeps_lines, last, *byte, next, out)?;
        last = *byte;
    }
    Ok(())
}
