//! Why a line cannot be encoded.
ghost use Rattle.std.specs.Prelude.{◌≡◌};

use std::alloc::AllocError;

/// Why a line cannot be encoded. Each cause has the number that reports print. A name is the name of a field, from the
/// line or the table.
#[derive(Clone, Copy, Debug, PartialEq, Eq)]
pub enum Refusal<'a> {
    /// 1: over 65,536 bytes.
    Long,
    /// 13: not a JSON object, or an object in it has a key twice.
    Json,
    /// 14: a member is missing, unknown, of the wrong type or out of range.
    Member,
    /// 8: the table has no definition of the PGN.
    Unknown,
    /// 12: this PGN and destination cannot form a CAN identifier.
    Address,
    /// 15: no definition of the PGN has this description.
    Description,
    /// 16: the definition has no such field.
    Field(&'a str),
    /// 17: the field cannot show this value.
    Value(&'a str),
    /// 9: more than 8 bytes in a single frame, or more than 223 in a fast packet.
    Size,
    /// 18: each field is valid, but no data show all of them.
    Data(&'a str),
}

impl<'a> Refusal<'a> {
    ghost use Rattle.n2k_encode.specs.Refusal.{number_of, name_of};

    /// The number that reports print.
    ///
    /// ```rust
    /// assert_eq!(rt; Refusal::Value("COG").number(), 17);
    /// ```
    pub fn number(self) -> u8
        ensures { result ≡ number_of self.entry }
    {
        match self {
            Refusal::Long => 1,
            Refusal::Json => 13,
            Refusal::Member => 14,
            Refusal::Unknown => 8,
            Refusal::Address => 12,
            Refusal::Description => 15,
            Refusal::Field(_) => 16,
            Refusal::Value(_) => 17,
            Refusal::Size => 9,
            Refusal::Data(_) => 18,
        }
    }

    /// The name of the field, or an empty text if the refusal names none.
    ///
    /// ```rust
    /// assert_eq!(rt; Refusal::Value("COG").name(), "COG");
    /// assert_eq!(rt; Refusal::Size.name(), "");
    /// ```
    pub fn name(self) -> &'a str
        ensures { result.now ≡ name_of self.entry }
    {
        match self {
            Refusal::Field(name) | Refusal::Value(name) | Refusal::Data(name) => name,
            _ => "",
        }
    }
}

/// Why a call returns no message.
#[derive(Clone, Copy, Debug, PartialEq, Eq)]
pub enum EncodeError<'a> {
    /// Memory was refused.
    Memory,
    /// The line cannot be encoded.
    Refused(Refusal<'a>),
}

impl<'a> From<Refusal<'a>> for EncodeError<'a> {
    ghost use Rattle.std.specs.Prelude.{◌≡◌};
    ghost use Rattle.n2k_encode.specs.declared.refusal.EncodeError.TheVariants.{Refused};

    ghost from_gives = { λ refusal error. error ≡ Refused refusal };

    fn from(refusal: Refusal<'a>) -> EncodeError<'a> {
        EncodeError::Refused(refusal)
    }
}

impl<'a> From<AllocError> for EncodeError<'a> {
    ghost use Rattle.std.specs.Prelude.{◌≡◌};
    ghost use Rattle.n2k_encode.specs.declared.refusal.EncodeError.TheVariants.{Memory};

    ghost from_gives = { λ _ error. error ≡ Memory };

    fn from(_refused: AllocError) -> EncodeError<'a> {
        EncodeError::Memory
    }
}
