//! Why a line, a saved state or a message is refused.

use std::alloc::{AllocError, AllocFailed};
use thiserror::Error;

/// Why a join rejects a line. A rejected line leaves the join unchanged.
#[derive(Clone, Copy, Debug, PartialEq, Eq, Error)]
pub enum JoinFault {
    /// 1: an allocation was refused.
    #[error("out of memory")]
    Memory,
    /// 2: the line limit is reached.
    #[error("too many lines")]
    TooManyLines,
}

impl From<AllocError> for JoinFault {
    ghost use Rattle.std.specs.Prelude.{◌≡◌};
    ghost use Rattle.n2k_join.specs.declared.fault.JoinFault.TheVariants.{Memory};

    ghost from_gives = { λ _ fault. fault ≡ Memory };

    fn from(_: AllocError) -> Self {
        JoinFault::Memory
    }
}

/// Why a saved state is refused. The fault lines of `n2kdec` number the causes in this order, from 1. The first cause
/// that applies is returned, but `WindowDiffers` before `Invalid`.
#[derive(Clone, Copy, PartialEq, Eq, Debug, Error)]
pub enum StateFault {
    /// The bytes are not UTF-8, or not JSON.
    #[error("the state is not valid JSON")]
    NotJson,
    /// Not an object whose `format` is 1 or 2.
    #[error("the state's format is missing, or is not 1 or 2")]
    Format,
    /// A member is missing, unknown, or not of the kind that its name requires.
    #[error("a member is missing or unknown, or its value is of another kind")]
    Shape,
    /// The state was saved under another table.
    #[error("the state was saved under another table")]
    TableDiffers,
    /// The state's counts or groups are inconsistent.
    #[error("the state's counts or groups are inconsistent")]
    Invalid,
    /// A growth was refused.
    #[error("out of memory")]
    Memory,
    /// The state was saved under another window.
    #[error("the state was saved under another window")]
    WindowDiffers,
}

impl From<AllocError> for StateFault {
    ghost use Rattle.std.specs.Prelude.{◌≡◌};
    ghost use Rattle.n2k_join.specs.declared.fault.StateFault.TheVariants.{Memory};

    ghost from_gives = { λ _ fault. fault ≡ Memory };

    fn from(_: AllocError) -> Self {
        StateFault::Memory
    }
}

impl<T: Drop> From<AllocFailed<T>> for StateFault {
    ghost use Rattle.std.specs.Prelude.{◌≡◌};
    ghost use Rattle.n2k_join.specs.declared.fault.StateFault.TheVariants.{Memory};

    ghost from_gives = { λ _ fault. fault ≡ Memory };

    fn from(_: AllocFailed<T>) -> Self {
        StateFault::Memory
    }
}

/// Why a message isn't split into frames. A refused message leaves the splitter and the vector unchanged.
#[derive(Clone, Copy, Debug, PartialEq, Eq, Error)]
pub enum SplitFault {
    /// 1: the table doesn't have the PGN.
    #[error("the PGN isn't in the table")]
    Unknown,
    /// 2: the PGN is sent in single frames, and the data are over 8 bytes.
    #[error("too long for a single frame")]
    TooLong,
    /// 3: a growth was refused.
    #[error("out of memory")]
    Memory,
}

impl From<AllocError> for SplitFault {
    ghost use Rattle.std.specs.Prelude.{◌≡◌};
    ghost use Rattle.n2k_join.specs.declared.fault.SplitFault.TheVariants.{Memory};

    ghost from_gives = { λ _ fault. fault ≡ Memory };

    fn from(_refused: AllocError) -> SplitFault {
        SplitFault::Memory
    }
}

impl<T: Drop> From<AllocFailed<T>> for SplitFault {
    ghost use Rattle.std.specs.Prelude.{◌≡◌};
    ghost use Rattle.n2k_join.specs.declared.fault.SplitFault.TheVariants.{Memory};

    ghost from_gives = { λ _ fault. fault ≡ Memory };

    fn from(_refused: AllocFailed<T>) -> SplitFault {
        SplitFault::Memory
    }
}
