//! Why the program ends without its answer: the line that it prints, and its status.
ghost use Rattle.std.specs.Prelude.{◌≡◌, ◌++◌, OnOk, OnErr};
ghost use Rattle.n2kdec.specs.Fault.{exit_status, fault_line, fault_of_run, state_line, status_of, table_line, unopened, unread};

pub mod escape;
pub mod message;
pub mod reason;
pub mod sentence;

use crate::run::difference::StateMismatch;
use crate::save::keeper::SaveError;
use n2k_join::StateFault;
use n2k_run::{Counts, RunFault};
use n2k_table::TableFault;
use std::alloc::{AllocError, Global};
use std::io::{Error, ErrorKind};

/// What is read of files.
#[derive(Clone, Copy, Debug, PartialEq, Eq)]
pub enum InputFile {
    /// The table.
    Table,
    /// The state.
    State,
    /// The log.
    Log,
}

/// Why the program ends without its answer. Each fault has a line of its own, which `fault_text` gives.
/// On a terminal its words say what is wrong, if the system has no words for it.
#[derive(Clone, Copy, Debug, thiserror::Error)]
pub enum Fault {
    /// The words of the command line are not those of a command.
    #[error("the arguments are refused")]
    Words,
    /// The interface of the frames that were asked for isn't one.
    #[error("an interface name has 1 to 15 characters from ! to ~")]
    Interface,
    /// The file of the table has more bytes than a table may have.
    #[error("over 16777216 bytes, too large for a table")]
    TableSize,
    /// The file of the state has more bytes than a state may have.
    #[error("over 16777216 bytes, too large for a state")]
    StateSize,
    /// The table is refused.
    #[error("{0}")]
    Table(TableFault),
    /// The state is refused, and what it was saved under, if that is another table or window; an error if memory to find that
    /// out is refused.
    #[error("{0}")]
    State(StateFault, Result<Option<StateMismatch>, AllocError>),
    /// The file of the table can't be opened or read, by this error.
    #[error("can't be read")]
    TableFile(Option<Error>),
    /// The file of the state can't, by this error.
    #[error("can't be read")]
    StateFile(Option<Error>),
    /// The log can't be opened or read, by this error, or its end was not found: so many lines were taken of it, those
    /// before a state too. Why the state after them could not be saved, if it could not.
    #[error("can't be read")]
    Read(u64, Option<Error>, Option<SaveError>),
    /// The output can't be written, by this error.
    #[error("can't be written")]
    Write(Option<Error>),
    /// A report or the summary can't be written.
    #[error("can't be written")]
    Report,
    /// Memory is refused while this, or the command line, is read.
    #[error("out of memory")]
    Memory(Option<InputFile>),
    /// The log has more lines than are counted.
    #[error("over 999999999999999 lines")]
    Lines,
    /// The state can't be kept, for this.
    #[error("{0}")]
    Save(SaveError),
}

impl From<AllocError> for Fault {
    ghost use Rattle.std.specs.Prelude.{◌≡◌, None};
    ghost use Rattle.n2kdec.specs.declared.fault.Fault.TheVariants.{Memory};

    ghost from_gives = { λ _ fault. fault ≡ Memory None };

    fn from(_: AllocError) -> Self {
        Fault::Memory(None)
    }
}

/// The fault of a run that took so many lines.
pub fn fault_of_run(fault: RunFault, lines: u64) -> Fault
    ensures { result ≡ fault_of_run fault lines }
{
    match fault {
        RunFault::Read => Fault::Read(lines, None, None),
        RunFault::Write => Fault::Write(None),
        RunFault::Report => Fault::Report,
        RunFault::Memory => Fault::Memory(Some(InputFile::Log)),
        RunFault::TooManyLines => Fault::Lines,
    }
}

/// The fault of a file that can't be read, for this.
pub fn unread(reading: InputFile, why: Option<Error>) -> Fault
    ensures { result ≡ unread reading why }
{
    match reading {
        InputFile::Table => Fault::TableFile(why),
        InputFile::State => Fault::StateFile(why),
        InputFile::Log => Fault::Read(0, why, None),
    }
}

/// The fault of a file that can't be opened, by this error.
pub fn unopened(reading: InputFile, error: Error) -> Fault
    ensures { result ≡ unopened reading error }
{
    match error.kind() {
        ErrorKind::OutOfMemory => Fault::Memory(Some(reading)),
        _ => unread(reading, Some(error)),
    }
}

/// The line of a refused table. Want of memory has the line that it has everywhere.
fn table_line(fault: TableFault) -> &'static [u8]
    ensures { result.now ≡ table_line fault }
{
    match fault {
        TableFault::NotToml => b"n2kdec: table 1 NotToml\n",
        TableFault::Format => b"n2kdec: table 2 Format\n",
        TableFault::Key => b"n2kdec: table 3 Key\n",
        TableFault::Range => b"n2kdec: table 4 Range\n",
        TableFault::Text => b"n2kdec: table 5 Text\n",
        TableFault::Twice => b"n2kdec: table 6 Twice\n",
        TableFault::Lookup => b"n2kdec: table 7 Lookup\n",
        TableFault::Mixed => b"n2kdec: table 8 Mixed\n",
        TableFault::TooMany => b"n2kdec: table 9 TooMany\n",
        TableFault::Memory => b"n2kdec: memory\n",
    }
}

/// The same of a refused state.
fn state_line(fault: StateFault) -> &'static [u8]
    ensures { result.now ≡ state_line fault }
{
    match fault {
        StateFault::NotJson => b"n2kdec: state 1 NotJson\n",
        StateFault::Format => b"n2kdec: state 2 Format\n",
        StateFault::Shape => b"n2kdec: state 3 Shape\n",
        StateFault::TableDiffers => b"n2kdec: state 4 TableDiffers\n",
        StateFault::Invalid => b"n2kdec: state 5 Invalid\n",
        StateFault::WindowDiffers => b"n2kdec: state 7 WindowDiffers\n",
        StateFault::Memory => b"n2kdec: memory\n",
    }
}

/// The line of a fault, as `n2kdec: read` with an LF.
pub fn fault_line(fault: Fault) -> &'static [u8]
    ensures { result.now ≡ fault_line fault }
{
    match fault {
        Fault::Words => b"n2kdec: words\n",
        Fault::Interface => b"n2kdec: interface\n",
        Fault::TableSize => b"n2kdec: table size\n",
        Fault::StateSize => b"n2kdec: state size\n",
        Fault::Table(fault) => table_line(fault),
        Fault::State(fault, _) => state_line(fault),
        Fault::TableFile(_) => b"n2kdec: table file\n",
        Fault::StateFile(_) => b"n2kdec: state file\n",
        Fault::Read(..) => b"n2kdec: read\n",
        Fault::Write(_) => b"n2kdec: write\n",
        Fault::Report => b"n2kdec: report\n",
        Fault::Memory(_) => b"n2kdec: memory\n",
        Fault::Lines => b"n2kdec: lines\n",
        Fault::Save(_) => b"n2kdec: save\n",
    }
}

/// Appends the line of a fault, as `n2kdec: read` with an LF. If memory is refused, `out` is unchanged.
pub fn fault_text(_alloc: Global, fault: &Fault, out: &mut Vec<u8>) -> Result<(), AllocError>
    ensures ok { OnOk result (out.new.items ≡ out.old.items ++ fault_line fault.now) }
    ensures unchanged { OnErr result (out.new.items ≡ out.old.items) }
{
    out.extend_from_slice(fault_line(*fault))
}

/// The exit status after a fault: 2 if the arguments, the table or the state are refused, 3
/// if a file, a device, memory or the limit of lines ended the run. It takes no memory.
pub fn status(fault: &Fault) -> u8
    ensures { result ≡ status_of fault.now }
{
    match fault {
        Fault::Table(TableFault::Memory) | Fault::State(StateFault::Memory, _) => 3,
        Fault::Words
        | Fault::Interface
        | Fault::TableSize
        | Fault::StateSize
        | Fault::Table(_)
        | Fault::State(..) => 2,
        _ => 3,
    }
}

/// The status of a run that came to its end: 0 if no line was bad, else 1.
pub fn exit_status(counts: &Counts) -> u8
    ensures { result ≡ exit_status counts.now }
{
    if counts.bad == 0 { 0 } else { 1 }
}
