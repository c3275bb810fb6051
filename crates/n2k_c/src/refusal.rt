//! Why a call did not do what it is for, and the number that tells C.
ghost use Rattle.std.specs.Prelude.{◌≡◌, Result};
ghost use Rattle.n2k_c.specs.declared.refusal.Refusal.{Refusal};
ghost use Rattle.n2k_c.specs.Status.{code, state_code, answer_status, table_code};

use n2k_join::StateFault;
use n2k_run::RunFault;
use n2k_table::TableFault;
use std::alloc::AllocError;

/// Why a call did not do what it is for.
#[derive(Clone, Copy, Debug, PartialEq, Eq)]
pub enum Refusal {
    /// A text does not fit into the room; its size was returned.
    Room,
    /// An allocation was refused.
    Memory,
    /// The number of lines is not a valid window.
    Window,
    /// The log has more lines than are counted, or 10^12 bytes came at once.
    TooMuch,
    /// No decoder is open.
    Closed,
    /// A decoder is open.
    Open,
    /// The log has ended.
    Ended,
    /// A reserved byte of the settings is not 0.
    Reserved,
    /// The identifier, the data or the time of a frame is not valid.
    Frame,
    /// An unfinished line is waiting.
    Unfinished,
    /// The handle encodes: it has no state, and takes no frames.
    Encoder,
    /// The table is refused.
    Table(TableFault),
    /// The state is refused.
    State(StateFault),
}

impl From<AllocError> for Refusal {
    ghost use Rattle.std.specs.Prelude.{◌≡◌};
    ghost use Rattle.n2k_c.specs.declared.refusal.Refusal.TheVariants.{Memory};

    ghost from_gives = { λ _ refusal. refusal ≡ Memory };

    fn from(_: AllocError) -> Self {
        Refusal::Memory
    }
}

impl From<TableFault> for Refusal {
    ghost use Rattle.std.specs.Prelude.{◌≡◌};
    ghost use Rattle.n2k_c.specs.Inner.{refusal_of_table};

    ghost from_gives = { λ fault refusal. refusal ≡ refusal_of_table fault };

    fn from(fault: TableFault) -> Self {
        match fault {
            TableFault::Memory => Refusal::Memory,
            _ => Refusal::Table(fault),
        }
    }
}

impl From<StateFault> for Refusal {
    ghost use Rattle.std.specs.Prelude.{◌≡◌};
    ghost use Rattle.n2k_c.specs.Inner.{refusal_of_state};

    ghost from_gives = { λ fault refusal. refusal ≡ refusal_of_state fault };

    fn from(fault: StateFault) -> Self {
        match fault {
            StateFault::Memory => Refusal::Memory,
            _ => Refusal::State(fault),
        }
    }
}

impl From<RunFault> for Refusal {
    ghost use Rattle.std.specs.Prelude.{◌≡◌};
    ghost use Rattle.n2k_c.specs.Inner.{refusal_of_run};

    ghost from_gives = { λ fault refusal. refusal ≡ refusal_of_run fault };

    // The sinks are in memory, and fail if memory is refused.
    fn from(fault: RunFault) -> Self {
        match fault {
            RunFault::Read | RunFault::TooManyLines => Refusal::TooMuch,
            RunFault::Write | RunFault::Report | RunFault::Memory => Refusal::Memory,
        }
    }
}

/// The number of a refused table.
fn table_code(fault: TableFault) -> i32
    ensures { result ≡ table_code fault }
{
    match fault {
        TableFault::NotToml => 101,
        TableFault::Format => 102,
        TableFault::Key => 103,
        TableFault::Range => 104,
        TableFault::Text => 105,
        TableFault::Twice => 106,
        TableFault::Lookup => 107,
        TableFault::Mixed => 108,
        TableFault::TooMany => 109,
        TableFault::Memory => 110,
    }
}

/// The number of a refused state.
fn state_code(fault: StateFault) -> i32
    ensures { result ≡ state_code fault }
{
    match fault {
        StateFault::NotJson => 201,
        StateFault::Format => 202,
        StateFault::Shape => 203,
        StateFault::TableDiffers => 204,
        StateFault::Invalid => 205,
        StateFault::Memory => 206,
        StateFault::WindowDiffers => 207,
    }
}

/// The status of an answer.
pub fn status(answer: Result<(), Refusal>) -> i32
    ensures { result ≡ answer_status answer }
{
    match answer {
        Ok(()) => 0,
        Err(Refusal::Room) => 1,
        Err(Refusal::Memory) => 2,
        Err(Refusal::Window) => 3,
        Err(Refusal::TooMuch) => 4,
        Err(Refusal::Closed) => 5,
        Err(Refusal::Open) => 6,
        Err(Refusal::Ended) => 7,
        Err(Refusal::Reserved) => 8,
        Err(Refusal::Frame) => 9,
        Err(Refusal::Unfinished) => 10,
        Err(Refusal::Encoder) => 11,
        Err(Refusal::Table(fault)) => table_code(fault),
        Err(Refusal::State(fault)) => state_code(fault),
    }
}

/// No two results have one status.
pub fn statuses_differ()
    ensures { (a b : Result (Unit {0}) Refusal) → answer_status a ≡ answer_status b → a ≡ b }
{}
