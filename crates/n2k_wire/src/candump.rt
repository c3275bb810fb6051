//! Lines of can-utils' `candump -L`: `(seconds.fraction) interface ID#DATA`.
ghost use Rattle.std.specs.Prelude.{◌≡◌, ◌≤◌, ◌<◌, ◌^◌, IfSome, IfOk, length, not, position, option_map};
ghost use Rattle.std.specs.Char.{is_ascii_hexdigit};
ghost use Rattle.std.specs.List.{list_all};
ghost use Rattle.n2k_wire.specs.Candump.{candump, frame_payload, is_interface_byte, is_interface, stamped, framed, of_number, identifier, is_end, is_ending, digits_len, payload, is_other_frame, frame_or_skip};
ghost use Rattle.std.specs.Int.{w32, from_be_bytes};
ghost use Rattle.std.specs.Result.{result_ok};
ghost use Rattle.hex.specs.Hex.{decode_of};
ghost use Rattle.n2k_wire.specs.Inner.Candump.{candump_entry};
ghost use Rattle.n2k_wire.specs.Inner.Stamp.{IsMoment, plain_moment};
ghost use Rattle.n2k_wire.specs.Views.{Finds, Gives};
ghost use Rattle.n2k_wire.specs.Entry.{IsEntry, settled};
ghost use Rattle.n2k_wire.specs.Packet.{IsPacket};

use crate::cuts::{after_byte, cut_at, skip_spaces};
use crate::entry::{BadCause, Entry, set_frame};
use crate::identifier::{Id, split_id};
use crate::stamp::{Moment, UTC_LEN, read_moment, utc_text};
use arrayvec::ArrayVec;
use hex::FromHex;

/// The most bytes of an interface's name.
pub(crate) const LONGEST_INTERFACE: usize = 15;

/// The most data bytes of a frame.
pub const FRAME_PAYLOAD: usize = 8;

/// The first number that isn't a CAN identifier of 29 bits.
pub(crate) const FIRST_ERROR_FRAME: u32 = 0x2000_0000;

/// The first number after those of error frames. Here are SocketCAN's flags of remote frames and of extended
/// identifiers, which `candump -L` doesn't print.
const FIRST_OTHER: u32 = 0x4000_0000;

/// The frame of a candump line.
#[derive(Drop)]
struct CandumpFrame {
    stamp: [u8; UTC_LEN],
    id: Id,
    data: ArrayVec<u8, FRAME_PAYLOAD>,
}

pub(crate) fn is_interface_byte(byte: u8) -> bool
    ensures { result ≡ is_interface_byte byte }
{
    byte >= b'!' && byte <= b'~'
}

fn are_interface_bytes(name: &[u8]) -> bool
    ensures { result ≡ list_all is_interface_byte name.now }
{
    name.iter().all(|byte| is_interface_byte(*byte))
}

/// Whether a text is the name of an interface: 1 to 15 bytes from `!` to `~`.
///
/// ```rust
/// assert!(rt; is_interface(b"can0"));
/// assert!(rt; !is_interface(b"can 0"));
/// assert!(rt; !is_interface(b""));
/// ```
#[tactic(auto, unfolding(crate::specs::Candump::is_interface))]
pub fn is_interface(name: &[u8]) -> bool
    ensures { result ≡ is_interface name.now }
{
    !name.is_empty() && name.len() <= LONGEST_INTERFACE && are_interface_bytes(name)
}

/// The text between the parentheses, and the text after them.
#[tactic(auto, unfolding(crate::specs::Candump::stamped))]
fn read_stamped(line: &[u8]) -> Option<(&[u8], &[u8])>
    ensures { Finds (λ x. (x.0.now, x.1.now)) result (stamped line.now) }
{
    let inner = after_byte(b'(', line)?;
    cut_at(b')', inner)
}

/// The text before and after the first `#` that follows spaces, an interface and spaces.
#[tactic(auto, unfolding(crate::specs::Candump::framed))]
fn read_framed(text: &[u8]) -> Option<(&[u8], &[u8])>
    ensures { Finds (λ x. (x.0.now, x.1.now)) result (framed text.now) }
{
    let text = skip_spaces(after_byte(b' ', text)?)?;
    let (interface, text) = cut_at(b' ', text)?;
    if !is_interface(interface) {
        return None;
    }
    cut_at(b'#', skip_spaces(text)?)
}

fn of_number(number: u32) -> Result<Option<u32>, BadCause>
    ensures value { Gives (λ known. known) result (of_number number) }
    ensures bits { IfOk result (λ known. IfSome known (λ n. n < 2 ^ 29)) }
{
    if number < FIRST_ERROR_FRAME {
        Ok(Some(number))
    } else if number < FIRST_OTHER {
        Ok(None)
    } else {
        Err(BadCause::Identifier)
    }
}

/// The number of eight hexadecimal digits.
fn read_word(digits: &[u8]) -> Option<u32>
    requires { length digits.now ≡ 8 }
    ensures { result ≡ option_map (from_be_bytes w32) (result_ok (decode_of digits.now)) }
{
    let bytes = <[u8; 4]>::from_hex(digits).ok()?;
    Some(u32::from_be_bytes(bytes))
}

fn are_hex_digits(digits: &[u8]) -> bool
    ensures { result ≡ list_all is_ascii_hexdigit digits.now }
{
    digits.iter().all(|byte| byte.is_ascii_hexdigit())
}

/// The 29 bits of an extended identifier. None if the frame is skipped.
#[tactic(auto, unfolding(crate::specs::Candump::identifier))]
fn read_identifier(digits: &[u8]) -> Result<Option<u32>, BadCause>
    ensures value { Gives (λ known. known) result (identifier digits.now) }
    ensures bits { IfOk result (λ known. IfSome known (λ n. n < 2 ^ 29)) }
{
    if !are_hex_digits(digits) {
        return Err(BadCause::Identifier);
    }
    match digits.len() {
        3 => Ok(None),
        8 => of_number(read_word(digits).ok_or(BadCause::Identifier)?),
        _ => Err(BadCause::Identifier),
    }
}

/// Whether nothing follows, or a space and any bytes.
fn is_end(rest: &[u8]) -> bool
    ensures { result ≡ is_end rest.now }
{
    match rest {
        [] => true,
        [byte, ..] => *byte == b' ',
    }
}

/// Whether this may follow the data of a frame.
#[tactic(auto, unfolding(crate::specs::Candump::is_ending))]
fn is_ending(rest: &[u8]) -> bool
    ensures { result ≡ is_ending rest.now }
{
    match rest {
        [] => true,
        [byte] => *byte == b' ',
        [byte, code, rest @ ..] => {
            *byte == b' ' || *byte == b'_' && code.is_ascii_hexdigit() && is_end(rest)
        }
    }
}

fn find_non_hex(text: &[u8]) -> Option<usize>
    ensures { result ≡ position (λ b. not (is_ascii_hexdigit b)) text.now }
{
    text.iter().position(|byte| !byte.is_ascii_hexdigit())
}

/// How many hexadecimal digits a text begins with.
#[tactic(auto, using(crate::proofs::Columns::none_found))]
fn digits_len(text: &[u8]) -> usize
    ensures value { result ≡ digits_len text.now }
    ensures within { result ≤ length text.now }
{
    find_non_hex(text).unwrap_or(text.len())
}

/// Whether a frame of another kind follows the first `#`: an FD frame (`#`) or a remote frame (`R`, `r`).
#[tactic(auto, unfolding(crate::specs::Candump::is_other_frame))]
fn is_other_frame(text: &[u8]) -> bool
    ensures { result ≡ is_other_frame text.now }
{
    match text {
        [] => false,
        [byte, ..] => *byte == b'#' || *byte == b'R' || *byte == b'r',
    }
}

/// The data of a frame.
#[tactic(auto, unfolding(crate::specs::Candump::payload))]
fn read_payload(text: &[u8]) -> Option<ArrayVec<u8, FRAME_PAYLOAD>>
    ensures value { Finds (λ payload. payload.items) result (payload text.now) }
    ensures short { IfSome result (λ payload. length payload.items ≤ frame_payload) }
{
    let (digits, rest) = text.split_at(digits_len(text));
    if digits.len() > 2 * FRAME_PAYLOAD || !is_ending(rest) {
        return None;
    }
    let mut bytes = [0; FRAME_PAYLOAD];
    let data = &mut bytes[..digits.len() / 2];
    hex::decode_to_slice(digits, data).ok()?;
    ArrayVec::try_from(&*data).ok()
}

/// The frame of these parts. None if it is skipped.
#[inline]
#[tactic(auto, unfolding(crate::specs::Candump::frame_or_skip))]
fn frame_or_skip(
    seen: Moment,
    known: Option<u32>,
    text: &[u8],
) -> Result<Option<CandumpFrame>, BadCause>
    requires moment { IsMoment (plain_moment seen) }
    requires bits { IfSome known (λ n. n < 2 ^ 29) }
    ensures entry { Gives candump_entry result (frame_or_skip (plain_moment seen) known text.now) }
    ensures valid { IfOk result (λ frame. IfSome frame (λ f. IsPacket f.stamp f.id f.«data».items)) }
    ensures short { IfOk result (λ frame. IfSome frame (λ f. length f.«data».items ≤ frame_payload)) }
{
    let Some(identifier) = known else {
        return Ok(None);
    };
    if is_other_frame(text) {
        return Ok(None);
    }
    let data = read_payload(text).ok_or(BadCause::Data)?;
    Ok(Some(CandumpFrame {
        stamp: utc_text(seen),
        id: split_id(identifier),
        data,
    }))
}

/// The frame of a candump line, None if it is skipped, or the first of its causes.
#[tactic(auto, unfolding(crate::specs::Candump::candump))]
fn read_frame(line: &[u8]) -> Result<Option<CandumpFrame>, BadCause>
    ensures entry { Gives candump_entry result (candump line.now) }
    ensures valid { IfOk result (λ frame. IfSome frame (λ f. IsPacket f.stamp f.id f.«data».items)) }
    ensures short { IfOk result (λ frame. IfSome frame (λ f. length f.«data».items ≤ frame_payload)) }
{
    let (stamp, text) = read_stamped(line).ok_or(BadCause::Stamp)?;
    let seen = read_moment(stamp).ok_or(BadCause::Stamp)?;
    let (digits, text) = read_framed(text).ok_or(BadCause::Form)?;
    let known = read_identifier(digits)?;
    frame_or_skip(seen, known, text)
}

/// The entry of a candump line, written over the entry of an earlier line.
pub(crate) fn read_candump(line: &[u8], out: &mut Entry)
    ensures entry { out.new ≡ settled (candump line.now) }
    ensures valid { IsEntry out.new }
{
    match read_frame(line) {
        Ok(Some(frame)) => set_frame(out, &frame.stamp, frame.id, frame.data.as_slice()),
        Ok(None) => *out = Entry::Skip,
        Err(cause) => *out = Entry::Bad(cause),
    }
}
