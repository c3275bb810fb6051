//! The decoder and the encoder for callers in C, kept between calls: `n2kdec.h` says how to call them.
#![tactic(auto)]

ghost use Rattle.std.specs.Prelude.{◌≡◌, ℕ, [], None, is_some, take};
ghost use Rattle.n2k_c.specs.Answers.{EndsLog, Feeds, FeedsFrame, Fills, IsCounted, IsStateOf, NotFramed, NotMoved, NotOpened, NotOpenedSharing, NotSaved, NotTaken, NotTold, OpensDecoder, OpensSharing, Prints, PrintsNext, TakesReports, Updates, Waits, handed_of};
ghost use Rattle.n2k_c.specs.declared.Counted.{Counted as Counts};
ghost use Rattle.n2k_c.specs.Queue.{first_line};
ghost use Rattle.n2k_c.specs.Status.{StatusMeans};

mod calls;
mod decoder;
mod frame;
mod laws;
mod queue;
mod raw_box;
mod raw_decoder;
mod refusal;
mod work;

use crate::frame::Frame;
use crate::raw_decoder::RawDecoder;
use crate::refusal::status;
use std::alloc::Global;

/// How a log is read: `whole` says that a line is a whole message, `empty` that absent fields are printed. If `encode` is
/// not 0, lines of JSON are encoded, with exact numbers (1) or the nearest ones (2), and the options of decoding are not
/// read. What is reserved is 0.
#[repr(C)]
#[derive(Clone, Copy)]
pub struct Settings {
    pub window: u32,
    pub in_order: bool,
    pub empty: bool,
    pub whole: bool,
    pub encode: u8,
    pub reserved: [u8; 24],
}

/// What the lines count; `held` are the groups that are open.
#[repr(C)]
#[derive(Drop)]
pub struct Counted {
    pub lines: u64,
    pub messages: u64,
    pub bad: u64,
    pub unknown: u64,
    pub broken: u64,
    pub held: u64,
    pub reserved: [u64; 2],
}

/// What C keeps of a decoder or an encoder: zeros, if none is open.
#[repr(C)]
#[derive(Drop)]
pub struct Handle {
    pub live: bool,
    pub hold: RawDecoder,
    pub ghost tied: { live ≡ is_some hold.holds },
}

/// Reads a table, and opens a decoder that begins a log or goes on from a saved state, or an encoder.
#[unsafe(no_mangle)]
pub extern "C" fn n2k_open(
    alloc: Global,
    toml: &[u8],
    resumes: bool,
    state: &[u8],
    settings: &Settings,
    h: &mut Handle,
) -> i32
    ensures { let handed = handed_of resumes state.now in
        StatusMeans result (OpensDecoder toml.now settings.now handed h.old.hold.holds h.new.hold.holds)
        (NotOpened toml.now settings.now handed h.old.hold.holds h.new.hold.holds) }
{
    status(calls::open(alloc, toml, resumes, state, settings, h))
}

/// Opens a decoder or an encoder with the table of another one that is open, in place of the bytes of a table.
#[unsafe(no_mangle)]
pub extern "C" fn n2k_open_sharing(
    alloc: Global,
    other: &mut Handle,
    resumes: bool,
    state: &[u8],
    settings: &Settings,
    h: &mut Handle,
) -> i32
    ensures unchanged { other.new.hold.holds ≡ other.old.hold.holds }
    ensures opened { let handed = handed_of resumes state.now in
        StatusMeans result (OpensSharing other.old.hold.holds settings.now handed h.old.hold.holds h.new.hold.holds)
        (NotOpenedSharing other.old.hold.holds settings.now handed h.old.hold.holds h.new.hold.holds) }
{
    status(calls::open_sharing(alloc, other, resumes, state, settings, h))
}

/// Takes more of a log: its lines as they complete.
#[unsafe(no_mangle)]
pub extern "C" fn n2k_feed(alloc: Global, h: &mut Handle, bytes: &[u8]) -> i32
    ensures { StatusMeans result (Updates h.old.hold.holds h.new.hold.holds (Feeds bytes.now))
        (NotTaken bytes.now h.old.hold.holds h.new.hold.holds) }
{
    status(calls::feed(alloc, h, bytes))
}

/// Takes a CAN frame, as the line that candump prints of it. An encoder takes none.
#[unsafe(no_mangle)]
pub extern "C" fn n2k_frame(
    alloc: Global,
    h: &mut Handle,
    identifier: u32,
    payload: &[u8],
    seconds: u64,
    nanoseconds: u32,
) -> i32
    ensures { StatusMeans result
        (Updates h.old.hold.holds h.new.hold.holds (FeedsFrame identifier payload.now seconds nanoseconds))
        (NotFramed identifier payload.now seconds nanoseconds h.old.hold.holds h.new.hold.holds) }
{
    let frame = Frame {
        identifier,
        data: payload,
        seconds,
        nanoseconds,
    };
    status(calls::take_frame(alloc, h, &frame))
}

/// Ends the log: its last line is taken, though no line feed ends it.
#[unsafe(no_mangle)]
pub extern "C" fn n2k_end(alloc: Global, h: &mut Handle) -> i32
    ensures { StatusMeans result (Updates h.old.hold.holds h.new.hold.holds EndsLog)
        (NotTaken [] h.old.hold.holds h.new.hold.holds) }
{
    status(calls::end(alloc, h))
}

/// Moves the waiting output to a room, if it fits, and returns its size.
#[unsafe(no_mangle)]
pub extern "C" fn n2k_take(alloc: Global, h: &mut Handle, room: &mut [u8], size: &mut usize) -> i32
    ensures { StatusMeans result (Fills room.old room.new size.new
        × Updates h.old.hold.holds h.new.hold.holds (Prints (take size.new room.new)))
        (NotMoved (λ d. d.output.held) (room.old, size.old) (room.new, size.new) h.old.hold.holds h.new.hold.holds) }
{
    status(calls::take(alloc, h, room, size))
}

/// Moves the line of the next message to a room, if it fits, and returns its size. If none waits it is empty.
#[unsafe(no_mangle)]
pub extern "C" fn n2k_next(alloc: Global, h: &mut Handle, room: &mut [u8], size: &mut usize) -> i32
    ensures { StatusMeans result (Fills room.old room.new size.new
        × Updates h.old.hold.holds h.new.hold.holds (PrintsNext (take size.new room.new)))
        (NotMoved (λ d. first_line d.output.held) (room.old, size.old) (room.new, size.new) h.old.hold.holds h.new.hold.holds) }
{
    status(calls::take_next(alloc, h, room, size))
}

/// Moves the waiting reports to a room, if they fit, and returns their size.
#[unsafe(no_mangle)]
pub extern "C" fn n2k_take_reports(
    alloc: Global,
    h: &mut Handle,
    room: &mut [u8],
    size: &mut usize,
) -> i32
    ensures { StatusMeans result (Fills room.old room.new size.new
        × Updates h.old.hold.holds h.new.hold.holds (TakesReports (take size.new room.new)))
        (NotMoved (λ d. d.reports.held) (room.old, size.old) (room.new, size.new) h.old.hold.holds h.new.hold.holds) }
{
    status(calls::take_reports(alloc, h, room, size))
}

/// Counts the lines that were taken, those before a saved state too.
#[unsafe(no_mangle)]
pub extern "C" fn n2k_counts(alloc: Global, h: &mut Handle, counted: &mut Counted) -> i32
    ensures { StatusMeans result (Updates h.old.hold.holds h.new.hold.holds (λ from to. (to ≡ from)
        × IsCounted counted.new from))
        (NotTold Counts counted.old counted.new h.old.hold.holds h.new.hold.holds) }
{
    status(calls::count(alloc, h, counted))
}

/// Tells how many bytes wait of a line that has not ended.
#[unsafe(no_mangle)]
pub extern "C" fn n2k_waiting(alloc: Global, h: &mut Handle, size: &mut usize) -> i32
    ensures { StatusMeans result (Updates h.old.hold.holds h.new.hold.holds (λ from to. (to ≡ from) × Waits size.new from))
        (NotTold ℕ size.old size.new h.old.hold.holds h.new.hold.holds) }
{
    status(calls::waiting(alloc, h, size))
}

/// Puts the state after the lines that were taken into a room, if it fits, and returns its size. An encoder has none.
#[unsafe(no_mangle)]
pub extern "C" fn n2k_save(alloc: Global, h: &mut Handle, room: &mut [u8], size: &mut usize) -> i32
    ensures { StatusMeans result (Fills room.old room.new size.new
        × Updates h.old.hold.holds h.new.hold.holds (λ from to. (to ≡ from) × IsStateOf (take size.new room.new) from))
        (NotSaved (room.old, size.old) (room.new, size.new) h.old.hold.holds h.new.hold.holds) }
{
    status(calls::save(alloc, h, room, size))
}

/// Closes what is open.
#[unsafe(no_mangle)]
pub extern "C" fn n2k_close(alloc: Global, h: &mut Handle)
    ensures { h.new.hold.holds ≡ None }
{
    calls::close(alloc, h);
}
