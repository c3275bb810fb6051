//! What the calls do, with their refusals by name.
ghost use Rattle.std.specs.Prelude.{◌≡◌, ℕ, true, false, [], Err, MatchResult, None, Some, option_map, take};
ghost use Rattle.n2k_join.specs.Window.{IsWindow};
ghost use Rattle.n2k_c.specs.Answers.{IsDecoderOf, IsEncoderOf, IsMadeBy, EndsLog, Feeds, FeedsFrame, Fills, IsClosed, IsCounted, IsNotUnderWay, IsStateOf, NotFramed, NotMade, NotMoved, NotOpened, NotOpenedSharing, NotOpenedWith, NotSaved, NotSavedInto, NotTaken, NotTold, OpensDecoder, OpensSharing, OpensWith, Prints, PrintsNext, TakesReports, Updates, Waits, are_known, handed_of, asks_encoder, asks_nearest, settings_options};
ghost use Rattle.n2k_table.specs.Table.{faults, table};
ghost use Rattle.n2k_c.specs.Inner.{IsTableOf, NotRead, NotShared};
ghost use Rattle.n2k_c.specs.Queue.{first_line};
ghost use Rattle.n2k_c.specs.declared.Counted.{Counted as Counts};
ghost use Rattle.n2k_c.specs.declared.refusal.Refusal.TheVariants.{Closed, Window as NoWindow};

use crate::decoder::{self, Decoder, put};
use crate::frame::{Frame, is_frame};
use crate::raw_box::RawBox;
use crate::raw_decoder::RawDecoder;
use crate::refusal::Refusal;
use crate::{Counted, Handle, Settings};
use n2k_join::Window;
use n2k_run::Options;
use n2k_table::Table;
use n2k_wire::Packing;
use std::alloc::Global;
use std::mem::replace;
use std::sync::Arc;

/// Whether the settings have no option that a later version may give.
fn are_known(settings: &Settings) -> bool
    ensures { result ≡ are_known settings.now }
{
    settings.encode <= 2 && settings.reserved == [0; 24]
}

/// The options that the settings name.
fn settings_options(settings: &Settings) -> Result<Options, Refusal>
    ensures { MatchResult result (λ options. options ≡ settings_options settings.now)
        (λ refusal. (refusal ≡ NoWindow) × (IsWindow settings.now.window → ⊥)) }
{
    let Some(window) = Window::new(settings.window) else {
        return Err(Refusal::Window);
    };
    Ok(Options {
        packing: if settings.whole {
            Packing::Whole
        } else {
            Packing::Frames
        },
        empty: settings.empty,
        window: if settings.in_order {
            window.in_order()
        } else {
            window
        },
    })
}

/// The state that is handed in, if any.
fn handed_in(resumes: bool, state: &[u8]) -> Option<&[u8]>
    ensures { option_map (λ bytes. bytes.now) result ≡ handed_of resumes state.now }
{
    if resumes { Some(state) } else { None }
}

/// Takes out what is open.
fn taken(alloc: Global, h: &mut Handle) -> Result<Box<Decoder, Global>, Refusal>
    ensures { MatchResult result (λ b. (h.old.hold.holds ≡ Some b.value) × (h.new.hold.holds ≡ None))
        (λ refusal. (refusal ≡ Closed) × IsClosed h.old.hold.holds h.new.hold.holds) }
{
    let closed = Handle {
        live: false,
        hold: RawDecoder::none(),
    };
    let was = replace(h, closed);
    if was.live {
        Ok(was.hold.into_raw_box(alloc).into_box())
    } else {
        Err(Refusal::Closed)
    }
}

/// Puts it back.
fn keep(h: &mut Handle, decoder: Box<Decoder, Global>)
    requires nothing_lost { h.old.hold.holds ≡ None }
    ensures { h.new.hold.holds ≡ Some decoder.value }
{
    *h = Handle {
        live: true,
        hold: RawDecoder::of(RawBox::of(decoder)),
    };
}

/// Puts back what a call left as it was, with why.
fn keep_refused(
    h: &mut Handle,
    decoder: Box<Decoder, Global>,
    refusal: Refusal,
) -> Result<(), Refusal>
    requires nothing_lost { h.old.hold.holds ≡ None }
    ensures kept { h.new.hold.holds ≡ Some decoder.value }
    ensures answer { result ≡ Err refusal }
{
    keep(h, decoder);
    Err(refusal)
}

/// Reads a table.
fn read(alloc: Global, toml: &[u8]) -> Result<Arc<Table, Global>, Refusal>
    ensures { MatchResult result (λ t. (faults toml.now ≡ []) × (t.value ≡ table toml.now)) (NotRead toml.now) }
{
    let table = Table::read(alloc, toml)?;
    match Arc::new(alloc, table) {
        Ok(table) => Ok(table),
        Err(_) => Err(Refusal::Memory),
    }
}

/// The table of what is open, which stays as it is.
fn table_of(alloc: Global, h: &mut Handle) -> Result<Arc<Table, Global>, Refusal>
    ensures unchanged { h.new.hold.holds ≡ h.old.hold.holds }
    ensures table { MatchResult result (λ t. IsTableOf h.old.hold.holds t.value) (NotShared h.old.hold.holds) }
{
    let decoder = taken(alloc, h)?;
    let table: Result<_, _> = decoder.table.clone();
    keep(h, decoder);
    Ok(table?)
}

/// A decoder with a table.
fn decoder_of(
    alloc: Global,
    table: Arc<Table, Global>,
    handed: Option<&[u8]>,
    settings: &Settings,
) -> Result<Decoder, Refusal>
    requires known { are_known settings.now ≡ true }
    requires decodes { asks_encoder settings.now ≡ false }
    ensures { let handed = option_map (λ bytes. bytes.now) handed.entry in
        MatchResult result (IsDecoderOf table.value settings.now handed) (NotMade table.value settings.now handed) }
{
    let options = match settings_options(settings) {
        Ok(options) => options,
        Err(refusal) => return Err(refusal),
    };
    match decoder::open(alloc, table, options, handed) {
        Ok(decoder) => Ok(decoder),
        Err(fault) => Err(Refusal::from(fault)),
    }
}

/// An encoder with a table.
fn encoder_of(
    alloc: Global,
    table: Arc<Table, Global>,
    handed: Option<&[u8]>,
    settings: &Settings,
) -> Result<Decoder, Refusal>
    requires known { are_known settings.now ≡ true }
    requires encodes { asks_encoder settings.now ≡ true }
    ensures { let handed = option_map (λ bytes. bytes.now) handed.entry in
        MatchResult result (IsEncoderOf table.value settings.now handed) (NotMade table.value settings.now handed) }
{
    if handed.is_some() {
        return Err(Refusal::Encoder);
    }
    Ok(decoder::open_encoder(alloc, table, settings.encode == 2))
}

/// What the settings ask for.
fn asked_of(
    alloc: Global,
    table: Arc<Table, Global>,
    handed: Option<&[u8]>,
    settings: &Settings,
) -> Result<Decoder, Refusal>
    ensures { let handed = option_map (λ bytes. bytes.now) handed.entry in
        MatchResult result (IsMadeBy (asks_encoder settings.now) table.value settings.now handed)
        (NotMade table.value settings.now handed) }
{
    if !are_known(settings) {
        return Err(Refusal::Reserved);
    }
    if settings.encode > 0 {
        encoder_of(alloc, table, handed, settings)
    } else {
        decoder_of(alloc, table, handed, settings)
    }
}

/// What the settings ask for, in a box.
fn made(
    alloc: Global,
    table: Arc<Table, Global>,
    handed: Option<&[u8]>,
    settings: &Settings,
) -> Result<Box<Decoder, Global>, Refusal>
    ensures { let handed = option_map (λ bytes. bytes.now) handed.entry in
        MatchResult result (λ b. IsMadeBy (asks_encoder settings.now) table.value settings.now handed b.value)
        (NotMade table.value settings.now handed) }
{
    let decoder = match asked_of(alloc, table, handed, settings) {
        Ok(decoder) => decoder,
        Err(refusal) => return Err(refusal),
    };
    match Box::new(alloc, decoder) {
        Ok(kept) => Ok(kept),
        Err(_) => Err(Refusal::Memory),
    }
}

/// Opens a decoder or an encoder with a table, if none is open.
fn open_with(
    alloc: Global,
    table: Arc<Table, Global>,
    resumes: bool,
    state: &[u8],
    settings: &Settings,
    h: &mut Handle,
) -> Result<(), Refusal>
    ensures { let handed = handed_of resumes state.now in
        MatchResult result (λ _. OpensWith table.value settings.now handed h.old.hold.holds h.new.hold.holds)
        (NotOpenedWith table.value settings.now handed h.old.hold.holds h.new.hold.holds) }
{
    if h.live {
        return Err(Refusal::Open);
    }
    match made(alloc, table, handed_in(resumes, state), settings) {
        Ok(decoder) => {
            keep(h, decoder);
            Ok(())
        }
        Err(refusal) => Err(refusal),
    }
}

/// Reads a table, and opens a decoder or an encoder with it.
#[tactic(auto, using(crate::proofs::Opening::not_read, crate::proofs::Opening::opens_read))]
pub fn open(
    alloc: Global,
    toml: &[u8],
    resumes: bool,
    state: &[u8],
    settings: &Settings,
    h: &mut Handle,
) -> Result<(), Refusal>
    ensures { let handed = handed_of resumes state.now in
        MatchResult result (λ _. OpensDecoder toml.now settings.now handed h.old.hold.holds h.new.hold.holds)
        (NotOpened toml.now settings.now handed h.old.hold.holds h.new.hold.holds) }
{
    let table = read(alloc, toml)?;
    open_with(alloc, table, resumes, state, settings, h)
}

/// Opens a decoder or an encoder with the table of one that is open.
#[tactic(auto, using(crate::proofs::Opening::not_shared, crate::proofs::Opening::opens_sharing))]
pub fn open_sharing(
    alloc: Global,
    other: &mut Handle,
    resumes: bool,
    state: &[u8],
    settings: &Settings,
    h: &mut Handle,
) -> Result<(), Refusal>
    ensures unchanged { other.new.hold.holds ≡ other.old.hold.holds }
    ensures opened { let handed = handed_of resumes state.now in
        MatchResult result (λ _. OpensSharing other.old.hold.holds settings.now handed h.old.hold.holds h.new.hold.holds)
        (NotOpenedSharing other.old.hold.holds settings.now handed h.old.hold.holds h.new.hold.holds) }
{
    let table = table_of(alloc, other)?;
    open_with(alloc, table, resumes, state, settings, h)
}

/// Takes out a decoder whose log goes on.
fn under_way(alloc: Global, h: &mut Handle) -> Result<Box<Decoder, Global>, Refusal>
    ensures { MatchResult result (λ b. (h.old.hold.holds ≡ Some b.value) × (h.new.hold.holds ≡ None))
        (IsNotUnderWay h.old.hold.holds h.new.hold.holds) }
{
    match taken(alloc, h) {
        Ok(decoder) => {
            if decoder.ended {
                keep(h, decoder);
                return Err(Refusal::Ended);
            }
            Ok(decoder)
        }
        Err(refusal) => Err(refusal),
    }
}

/// Feeds bytes to what is open.
pub fn feed(alloc: Global, h: &mut Handle, bytes: &[u8]) -> Result<(), Refusal>
    ensures { MatchResult result (λ _. Updates h.old.hold.holds h.new.hold.holds (Feeds bytes.now))
        (NotTaken bytes.now h.old.hold.holds h.new.hold.holds) }
{
    let mut decoder = match under_way(alloc, h) {
        Ok(decoder) => decoder,
        Err(refusal) => return Err(refusal),
    };
    match decoder.feed(alloc, bytes) {
        Ok(()) => {
            keep(h, decoder);
            Ok(())
        }
        Err(refusal) => Err(refusal),
    }
}

/// Takes a frame as its candump line.
pub fn take_frame(alloc: Global, h: &mut Handle, frame: &Frame<'_>) -> Result<(), Refusal>
    ensures { let f = frame.now in
        MatchResult result (λ _. Updates h.old.hold.holds h.new.hold.holds
        (FeedsFrame f.identifier f.«data».now f.seconds f.nanoseconds))
        (NotFramed f.identifier f.«data».now f.seconds f.nanoseconds h.old.hold.holds h.new.hold.holds) }
{
    if !is_frame(frame) {
        return Err(Refusal::Frame);
    }
    let mut decoder = match under_way(alloc, h) {
        Ok(decoder) => decoder,
        Err(refusal) => return Err(refusal),
    };
    if decoder.is_encoder() {
        keep(h, decoder);
        return Err(Refusal::Encoder);
    }
    if decoder.is_cut() {
        keep(h, decoder);
        return Err(Refusal::Unfinished);
    }
    match decoder.take_frame(alloc, frame) {
        Ok(()) => {
            keep(h, decoder);
            Ok(())
        }
        Err(refusal) => Err(refusal),
    }
}

/// Ends the log of what is open.
pub fn end(alloc: Global, h: &mut Handle) -> Result<(), Refusal>
    ensures { MatchResult result (λ _. Updates h.old.hold.holds h.new.hold.holds EndsLog)
        (NotTaken [] h.old.hold.holds h.new.hold.holds) }
{
    let mut decoder = match under_way(alloc, h) {
        Ok(decoder) => decoder,
        Err(refusal) => return Err(refusal),
    };
    match decoder.end(alloc) {
        Ok(()) => {
            keep(h, decoder);
            Ok(())
        }
        Err(refusal) => Err(refusal),
    }
}

/// Moves the output that waits.
pub fn take(alloc: Global, h: &mut Handle, room: &mut [u8], size: &mut usize) -> Result<(), Refusal>
    ensures { MatchResult result (λ _. Fills room.old room.new size.new
        × Updates h.old.hold.holds h.new.hold.holds (Prints (take size.new room.new)))
        (NotMoved (λ d. d.output.held) (room.old, size.old) (room.new, size.new) h.old.hold.holds h.new.hold.holds) }
{
    let mut decoder = match taken(alloc, h) {
        Ok(decoder) => decoder,
        Err(refusal) => return Err(refusal),
    };
    match decoder.take_output(room, size) {
        Ok(()) => {
            keep(h, decoder);
            Ok(())
        }
        Err(refusal) => keep_refused(h, decoder, refusal),
    }
}

/// Moves the next line of the output that waits.
pub fn take_next(
    alloc: Global,
    h: &mut Handle,
    room: &mut [u8],
    size: &mut usize,
) -> Result<(), Refusal>
    ensures { MatchResult result (λ _. Fills room.old room.new size.new
        × Updates h.old.hold.holds h.new.hold.holds (PrintsNext (take size.new room.new)))
        (NotMoved (λ d. first_line d.output.held) (room.old, size.old) (room.new, size.new) h.old.hold.holds h.new.hold.holds) }
{
    let mut decoder = match taken(alloc, h) {
        Ok(decoder) => decoder,
        Err(refusal) => return Err(refusal),
    };
    match decoder.take_next(room, size) {
        Ok(()) => {
            keep(h, decoder);
            Ok(())
        }
        Err(refusal) => keep_refused(h, decoder, refusal),
    }
}

/// Moves the reports that wait.
pub fn take_reports(
    alloc: Global,
    h: &mut Handle,
    room: &mut [u8],
    size: &mut usize,
) -> Result<(), Refusal>
    ensures { MatchResult result (λ _. Fills room.old room.new size.new
        × Updates h.old.hold.holds h.new.hold.holds (TakesReports (take size.new room.new)))
        (NotMoved (λ d. d.reports.held) (room.old, size.old) (room.new, size.new) h.old.hold.holds h.new.hold.holds) }
{
    let mut decoder = match taken(alloc, h) {
        Ok(decoder) => decoder,
        Err(refusal) => return Err(refusal),
    };
    match decoder.take_reports(room, size) {
        Ok(()) => {
            keep(h, decoder);
            Ok(())
        }
        Err(refusal) => keep_refused(h, decoder, refusal),
    }
}

/// Tells what the lines count.
pub fn count(alloc: Global, h: &mut Handle, counted: &mut Counted) -> Result<(), Refusal>
    ensures { MatchResult result (λ _. Updates h.old.hold.holds h.new.hold.holds (λ from to. (to ≡ from)
        × IsCounted counted.new from))
        (NotTold Counts counted.old counted.new h.old.hold.holds h.new.hold.holds) }
{
    let decoder = match taken(alloc, h) {
        Ok(decoder) => decoder,
        Err(refusal) => return Err(refusal),
    };
    let counts = decoder.counts();
    *counted = Counted {
        lines: counts.lines,
        messages: counts.messages,
        bad: counts.bad,
        unknown: counts.unknown,
        broken: counts.broken,
        held: counts.held,
        reserved: [0; 2],
    };
    keep(h, decoder);
    Ok(())
}

/// Tells how many bytes wait of a line that has not ended.
pub fn waiting(alloc: Global, h: &mut Handle, size: &mut usize) -> Result<(), Refusal>
    ensures { MatchResult result (λ _. Updates h.old.hold.holds h.new.hold.holds (λ from to. (to ≡ from) × Waits size.new from))
        (NotTold ℕ size.old size.new h.old.hold.holds h.new.hold.holds) }
{
    let decoder = match taken(alloc, h) {
        Ok(decoder) => decoder,
        Err(refusal) => return Err(refusal),
    };
    *size = decoder.waiting();
    keep(h, decoder);
    Ok(())
}

/// The state of a decoder, put into a room if it fits.
fn save_into(
    alloc: Global,
    decoder: &Decoder,
    room: &mut [u8],
    size: &mut usize,
) -> Result<(), Refusal>
    ensures { MatchResult result (λ _. Fills room.old room.new size.new × IsStateOf (take size.new room.new) decoder.now)
        (NotSavedInto (room.old, size.old) (room.new, size.new) decoder.now) }
{
    match decoder.save(alloc) {
        Ok(text) => put(room, &text, size),
        Err(refusal) => Err(refusal),
    }
}

/// Saves the state of what is open.
pub fn save(alloc: Global, h: &mut Handle, room: &mut [u8], size: &mut usize) -> Result<(), Refusal>
    ensures { MatchResult result (λ _. Fills room.old room.new size.new
        × Updates h.old.hold.holds h.new.hold.holds (λ from to. (to ≡ from) × IsStateOf (take size.new room.new) from))
        (NotSaved (room.old, size.old) (room.new, size.new) h.old.hold.holds h.new.hold.holds) }
{
    let decoder = match taken(alloc, h) {
        Ok(decoder) => decoder,
        Err(refusal) => return Err(refusal),
    };
    match save_into(alloc, &decoder, room, size) {
        Ok(()) => {
            keep(h, decoder);
            Ok(())
        }
        Err(refusal) => keep_refused(h, decoder, refusal),
    }
}

/// Closes what is open.
pub fn close(alloc: Global, h: &mut Handle)
    ensures { h.new.hold.holds ≡ None }
{
    let _gone = taken(alloc, h);
}
