//! Why a run, or reading a file, ends without its result.

use n2k_join::JoinFault;
use std::alloc::AllocError;
use thiserror::Error;

/// Why a run ended before the end of its log.
#[derive(Clone, Copy, Debug, PartialEq, Eq, Error)]
pub enum RunFault {
    /// The log's device failed, or 10^12 reads found no end.
    #[error("the log can't be read")]
    Read,
    /// The device of the texts failed.
    #[error("the texts can't be written")]
    Write,
    /// The device of the reports failed.
    #[error("the reports can't be written")]
    Report,
    /// An allocation was refused.
    #[error("out of memory")]
    Memory,
    /// The log has more lines than the limit allows.
    #[error("too many lines")]
    TooManyLines,
}

impl From<AllocError> for RunFault {
    ghost use Rattle.std.specs.Prelude.{◌≡◌};
    ghost use Rattle.n2k_run.specs.declared.fault.RunFault.TheVariants.{Memory};

    ghost from_gives = { λ _ fault. fault ≡ Memory };

    fn from(_: AllocError) -> Self {
        RunFault::Memory
    }
}

impl From<JoinFault> for RunFault {
    ghost use Rattle.std.specs.Prelude.{◌≡◌};
    ghost use Rattle.n2k_run.specs.Fault.{fault_of_join};

    ghost from_gives = { λ refused fault. fault ≡ fault_of_join refused };

    fn from(fault: JoinFault) -> Self {
        match fault {
            JoinFault::Memory => RunFault::Memory,
            JoinFault::TooManyLines => RunFault::TooManyLines,
        }
    }
}

/// Why the bytes of a source can't be read.
#[derive(Clone, Copy, Debug, PartialEq, Eq, Error)]
pub enum BytesFault {
    /// The device failed, or 10^12 reads found no end.
    #[error("the bytes can't be read")]
    Read,
    /// There are more bytes than the limit allows.
    #[error("too many bytes")]
    TooLong,
    /// An allocation was refused.
    #[error("out of memory")]
    Memory,
}
