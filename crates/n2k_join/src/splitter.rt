//! Splits messages into the frames of the bus.
ghost use Rattle.std.specs.Prelude.{◌≡◌, ◌+◌, ◌*◌, ◌/◌, ◌%◌, if◌then◌else◌, ◌<◌, ◌≤◌, ◌++◌, [], ◌∷◌, IfOk, IfErr, IfSome, OnOk, OnErr, IsOkUnless, MatchOption, Some, None, Err, length, option_map, slice_get, vec_len, vec_capacity};
ghost use Rattle.n2k_wire.specs.Candump.{frame_payload};
ghost use Rattle.n2k_wire.specs.Packet.{longest_message};
ghost use Rattle.n2k_table.specs.Table.{kind};
ghost use Rattle.n2k_table.specs.declared.definition.Kind.TheVariants.{Fast};
ghost use Rattle.n2k_join.specs.declared.fault.SplitFault.TheVariants.{Memory};
ghost use Rattle.n2k_join.specs.Frames.{most_frames, most_sequences};
ghost use Rattle.n2k_join.specs.Pieces.{sent_byte, piece_bytes, pieces_as, pieces_by, Stream, same_stream, stream_of, raised, first_sequences};
ghost use Rattle.n2k_join.specs.Splitter.{sequences, refusal};

use crate::fault::SplitFault;
use crate::frame::{MOST_FRAMES, MOST_SEQUENCES, byte_or_filler};
use crate::stream::Stream;
use indexmap::IndexMap;
use n2k_table::{Kind, Table};
use n2k_wire::{FRAME_PAYLOAD, Packet};
use std::alloc::Global;
use std::marker::Model;

/// The bytes of a frame after its header.
const FRAME_BYTES: usize = 7;

/// Splits messages into frames. It numbers the messages of each stream, a sender's messages of one PGN to one
/// receiver, from 0 to 7 and again from 0.
#[derive(Drop)]
pub struct Splitter {
    /// The sequence of the next message of each stream that has had one.
    next: IndexMap<Stream, u8>,
}

impl Model for Splitter {
    ghost use Rattle.std.specs.Prelude.{ℕ, List};
    ghost use Rattle.n2k_join.specs.Pieces.{Stream};
    ghost use Rattle.n2k_join.specs.Inner.Stored.{AreSequences};

    ghost Value = { List (Stream × ℕ) };

    ghost view = { λ s. s.next.entries };

    ghost invariant = { λ s. AreSequences s.next.entries };
}

/// The frames of one message under its sequence, made one at a time.
#[derive(Drop)]
pub struct Frames<'a> {
    message: &'a Packet,
    kind: Kind,
    sequence: u8,
    count: u8,
}

impl<'a> Model for Frames<'a> {
    ghost use Rattle.std.specs.Prelude.{List, Some};
    ghost use Rattle.n2k_wire.specs.Packet.{PacketParts};
    ghost use Rattle.n2k_join.specs.Inner.Stored.{AreFrames};
    ghost use Rattle.n2k_join.specs.Pieces.{pieces_as};

    ghost Value = { List PacketParts };

    ghost view = { λ f. pieces_as (Some f.kind) f.message.now f.sequence };

    ghost invariant = { λ f. AreFrames f.sequence f.count (pieces_as (Some f.kind) f.message.now f.sequence) };
}

/// The byte at a place of the stream that the frames carry: the length of the data, the data, then the filler.
fn sent_byte(data: &[u8], place: usize) -> u8
    requires short { length «data».now ≤ longest_message }
    ensures value { result ≡ sent_byte «data».now place }
{
    if place == 0 {
        return data.len() as u8;
    }
    byte_or_filler(data, place - 1)
}

/// The seven bytes of a frame that the data fill.
fn full_piece(data: &[u8], number: u8) -> Option<[u8; 7]>
    requires { length «data».now ≤ longest_message }
    ensures { IfSome result (λ bytes. bytes ≡ piece_bytes «data».now number) }
{
    if number == 0 {
        let [a, b, c, d, e, f] = *data.first_chunk::<6>()?;
        return Some([data.len() as u8, a, b, c, d, e, f]);
    }
    let first = FRAME_BYTES * number as usize - 1;
    let (_, after) = data.split_at_checked(first)?;
    let seven = after.first_chunk::<7>()?;
    Some(*seven)
}

/// The seven bytes of any frame, place by place.
#[tactic(auto, using(crate::proofs::PieceBytes::bytes_by_place), unfolding(crate::specs::Pieces::piece_bytes))]
fn piece_by_place(data: &[u8], number: u8) -> [u8; 7]
    requires { length «data».now ≤ longest_message }
    ensures { result ≡ piece_bytes «data».now number }
{
    let first = FRAME_BYTES * number as usize;
    let at = |i| sent_byte(data, first + i);
    [at(0), at(1), at(2), at(3), at(4), at(5), at(6)]
}

/// The seven bytes that a frame carries.
fn piece_bytes(data: &[u8], number: u8) -> [u8; 7]
    requires { length «data».now ≤ longest_message }
    ensures { result ≡ piece_bytes «data».now number }
{
    match full_piece(data, number) {
        Some(bytes) => bytes,
        None => piece_by_place(data, number),
    }
}

impl<'a> Frames<'a> {
    /// The number of frames, at least 1.
    ///
    /// ```rust
    /// let table = sample_table(alloc)?;
    /// let line = "1970-01-01T00:00:10.300Z,7,130820,5,255,11,a3,99,01,41,42,43,00,00,00,00,00";
    /// let message = message_in(line)?;
    /// let mut splitter = Splitter::new(alloc);
    /// let frames = splitter.split(&table, &message)?;
    /// assert_eq!(rt; frames.count(), 2);
    /// ```
    pub fn count(&self) -> u8
        ensures value { result ≡ length self.now }
        ensures some { 0 < result }
    {
        self.count
    }

    /// The data of the frame of this number, from 0 on. They may be put together in `room`.
    ///
    /// ```rust
    /// let table = sample_table(alloc)?;
    /// let line = "1970-01-01T00:00:10.300Z,7,130820,5,255,11,a3,99,01,41,42,43,00,00,00,00,00";
    /// let message = message_in(line)?;
    /// let mut splitter = Splitter::new(alloc);
    /// let frames = splitter.split(&table, &message)?;
    /// assert_eq!(rt; frames.count(), 2);
    /// let mut room = [0; 8];
    /// let last = frames.data(1, &mut room);
    /// assert_eq!(rt; last, [1, 0, 0, 0, 0, 0, 0xff, 0xff].as_slice());
    /// ```
    #[inline]
    pub fn data<'f>(&'f self, number: u8, room: &'f mut [u8; FRAME_PAYLOAD]) -> &'f [u8]
        requires { number < length self.now }
        ensures value { option_map (λ p. p.payload) (slice_get self.now number) ≡ Some result.now }
        ensures short { length result.now ≤ longest_message }
    {
        match self.kind {
            Kind::Single => self.message.data(),
            Kind::Fast => {
                let header = MOST_FRAMES * self.sequence + number;
                let [a, b, c, d, e, f, g] = piece_bytes(self.message.data(), number);
                *room = [header, a, b, c, d, e, f, g];
                room
            }
        }
    }
}

/// How a message is sent.
fn kind_of(table: &Table, message: &Packet) -> Result<Kind, SplitFault>
    ensures kind { IfOk result (λ k. kind table.now message.now.id.pgn ≡ Some k) }
    ensures fits { OnOk result (refusal (kind table.now message.now.id.pgn) message.now ≡ None) }
    ensures refused { IfErr result (λ fault. refusal (kind table.now message.now.id.pgn) message.now ≡ Some fault) }
{
    match table.kind(message.id().pgn) {
        None => Err(SplitFault::Unknown),
        Some(Kind::Fast) => Ok(Kind::Fast),
        Some(Kind::Single) => {
            if message.data().len() > FRAME_PAYLOAD {
                Err(SplitFault::TooLong)
            } else {
                Ok(Kind::Single)
            }
        }
    }
}

/// Appends frames for which there is room.
fn append_frames(packets: &mut Vec<Packet>, frames: &Frames)
    requires { vec_len packets.old + length frames.now ≤ vec_capacity packets.old }
    ensures { packets.new.items ≡ packets.old.items ++ frames.now }
{
    let mut room = [0; FRAME_PAYLOAD];
    for number in 0..frames.count() {
        let data = (&*frames).data(number, &mut room);
        packets.push(frames.message.with_data(data)).unwrap();
    }
}

impl Splitter {
    /// A splitter before its first message: every stream begins with sequence 0. It needs no memory.
    ///
    /// ```rust
    /// let table = sample_table(alloc)?;
    /// let line = "1970-01-01T00:00:10.300Z,7,130820,5,255,11,a3,99,01,41,42,43,00,00,00,00,00";
    /// let message = message_in(line)?;
    /// let mut packets = Vec::new(alloc);
    /// let mut splitter = Splitter::new(alloc);
    /// assert_eq!(rt; splitter.message(&table, &message, &mut packets), Ok(2));
    /// ```
    pub fn new(alloc: Global) -> Splitter
        ensures { sequences result ≡ first_sequences }
    {
        Splitter {
            next: IndexMap::new(alloc),
        }
    }

    /// Takes the sequence of a stream's next message, and the message after that gets the next one.
    fn take_sequence(&mut self, stream: Stream) -> Result<u8, SplitFault>
        ensures sequence { IfOk result (λ n. n ≡ sequences self.old stream) }
        ensures small { IfOk result (λ n. n < most_sequences) }
        ensures raised { OnOk result ((s : Stream)
            → sequences self.new s ≡ (if same_stream stream s then
            (sequences self.old s + 1) % most_sequences else sequences self.old s)) }
        ensures memory { IsOkUnless result Memory }
        ensures unchanged { OnErr result (self.new ≡ self.old) }
    {
        match self.next.get_mut(&stream) {
            Some(next) => {
                let sequence = *next;
                *next = (sequence + 1) % MOST_SEQUENCES;
                Ok(sequence)
            }
            None => {
                self.next.insert(stream, 1)?;
                Ok(0)
            }
        }
    }

    /// The frames of a message, to be made one at a time. A message of a single PGN is its own frame. A message of a
    /// fast PGN is cut into frames of seven bytes each: the length of the data, the data, then FF. The frames carry the
    /// sequence of the stream, which this call raises by one modulo 8.
    ///
    /// `Unknown`: the table doesn't have the PGN. `TooLong`: the PGN is single, and the data are over 8 bytes.
    /// `Memory`: a growth was refused. After a fault the splitter is unchanged.
    ///
    /// ```rust
    /// let table = sample_table(alloc)?;
    /// let line = "1970-01-01T00:00:10.300Z,7,130820,5,255,11,a3,99,01,41,42,43,00,00,00,00,00";
    /// let message = message_in(line)?;
    /// let mut splitter = Splitter::new(alloc);
    /// let frames = splitter.split(&table, &message)?;
    /// assert_eq!(rt; frames.count(), 2);
    /// let mut room = [0; 8];
    /// let last = frames.data(1, &mut room);
    /// assert_eq!(rt; last, [1, 0, 0, 0, 0, 0, 0xff, 0xff].as_slice());
    /// ```
    pub fn split<'m>(
        &mut self,
        table: &Table,
        message: &'m Packet,
    ) -> Result<Frames<'m>, SplitFault>
        ensures frames { IfOk result (λ frames. frames ≡ pieces_by (kind table.now) message.now
            (sequences self.old (stream_of message.now.id))) }
        ensures raised { OnOk result (sequences self.new
            ≡ raised (kind table.now) (sequences self.old) (stream_of message.now.id)) }

        // The PGN or the length decides a refusal; otherwise only memory can be refused.
        ensures refused { MatchOption (refusal (kind table.now message.now.id.pgn) message.now)
            (IsOkUnless result Memory) (λ fault. result ≡ Err fault) }
        ensures unchanged { OnErr result (self.new ≡ self.old) }
    {
        match kind_of(table, message)? {
            Kind::Single => Ok(Frames {
                message,
                kind: Kind::Single,
                sequence: 0,
                count: 1,
            }),
            Kind::Fast => {
                let sequence = self.take_sequence(Stream::of(message.id()))?;
                Ok(Frames {
                    message,
                    kind: Kind::Fast,
                    sequence,
                    count: (message.data().len() / FRAME_BYTES + 1) as u8,
                })
            }
        }
    }

    /// Appends the frames of a message, as `split` makes them, and returns their number. Room for all of them is
    /// reserved first, so a fault leaves the splitter and the vector unchanged.
    ///
    /// ```rust
    /// let table = sample_table(alloc)?;
    /// let line = "1970-01-01T00:00:10.300Z,7,130820,5,255,11,a3,99,01,41,42,43,00,00,00,00,00";
    /// let message = message_in(line)?;
    /// let mut packets = Vec::new(alloc);
    /// let mut splitter = Splitter::new(alloc);
    /// assert_eq!(rt; splitter.message(&table, &message, &mut packets), Ok(2));
    /// assert_eq!(rt; packets.len(), 2);
    /// let first = [0, 11, 0xa3, 0x99, 1, 0x41, 0x42, 0x43];
    /// assert_eq!(rt; packets[0].data(), first.as_slice());
    /// ```
    pub fn message(
        &mut self,
        table: &Table,
        message: &Packet,
        packets: &mut Vec<Packet>,
    ) -> Result<usize, SplitFault>
        ensures sent { let frames = pieces_by (kind table.now) message.now
            (sequences self.old (stream_of message.now.id)) in
            IfOk result (λ count. (count ≡ length frames) × (packets.new.items ≡ packets.old.items ++ frames)) }
        ensures raised { OnOk result (sequences self.new
            ≡ raised (kind table.now) (sequences self.old) (stream_of message.now.id)) }

        // The PGN or the length decides a refusal; otherwise only memory can be refused.
        ensures refused { MatchOption (refusal (kind table.now message.now.id.pgn) message.now)
            (IsOkUnless result Memory) (λ fault. result ≡ Err fault) }
        ensures unchanged { OnErr result (self.new ≡ self.old) }
        ensures vector_unchanged { OnErr result (packets.new.items ≡ packets.old.items) }
    {
        kind_of(table, message)?;
        packets.reserve(message.data().len() / FRAME_BYTES + 1)?;
        let frames = self.split(table, message)?;
        append_frames(packets, &frames);
        Ok(usize::from(frames.count()))
    }
}
