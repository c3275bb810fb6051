//! Streams of messages.
ghost use Rattle.std.specs.Prelude.{◌≡◌};
ghost use Rattle.n2k_join.specs.Pieces.{stream_of};

use n2k_wire::Id;

/// A stream: a sender's messages of one PGN to one receiver, numbered in turn.
#[derive(Clone, Copy, Debug, PartialEq, Eq, Hash)]
pub struct Stream {
    /// The sender's address.
    pub src: u8,
    /// The PGN.
    pub pgn: u32,
    /// The receiver's address, 255 for all.
    pub dst: u8,
}

impl Stream {
    /// The stream of the messages with this identifier, whatever their priority.
    ///
    /// ```rust
    /// let stream = Stream::of(split_id(0x1DFF_0405));
    /// assert_eq!(rt; (stream.src, stream.pgn, stream.dst), (5, 130820, 255));
    /// ```
    pub fn of(id: Id) -> Stream
        ensures { result ≡ stream_of id }
    {
        Stream {
            src: id.src,
            pgn: id.pgn,
            dst: id.dst,
        }
    }
}
