//! What is written at a fault: its line, and on a terminal before it what is said of it.
ghost use Rattle.std.specs.Prelude.{◌≡◌, IfOk};
ghost use Rattle.n2kdec.specs.Run.Commands.{IsWrittenUnlessFailed, place};
ghost use Rattle.n2kdec.specs.System.Machine.{IsMessage, IsToldOf, ReportsFault};

use crate::command_line::asked::ParsedArgs;
use crate::fault::sentence::fault_sentence;
use crate::fault::{Fault, fault_line, fault_text};
use crate::system::machine::Machine;
use n2k_run::{Sink, write_all};
use std::alloc::{AllocError, Global};

/// What is said on a terminal of a fault: of refused arguments what `clap` shows, else the sentence of the fault.
fn told_of<M: Machine>(
    alloc: Global,
    machine: &M,
    request: &ParsedArgs,
    fault: Fault,
) -> Result<Vec<u8>, AllocError>
    ensures { IfOk result (λ text. IsToldOf M.words request.now fault text.items) }
{
    match request {
        ParsedArgs::Refused(_, Some(Ok(lines))) => lines.clone(),
        ParsedArgs::Refused(_, Some(Err(refused))) => Err(*refused),
        ParsedArgs::Command(command) => fault_sentence(alloc, machine, Some(command), fault),
        _ => fault_sentence(alloc, machine, None, fault),
    }
}

/// What is written at a fault: on a terminal the sentence for it, then its line.
fn fault_message<M: Machine>(
    alloc: Global,
    machine: &M,
    request: &ParsedArgs,
    fault: Fault,
) -> Result<Vec<u8>, AllocError>
    ensures { IfOk result (λ text. IsMessage (M.world machine.now) M.words request.now fault text.items) }
{
    if !machine.is_terminal() {
        return fault_line(fault).to_vec(alloc);
    }
    let mut text = told_of(alloc, machine, request, fault)?;
    fault_text(alloc, &fault, &mut text)?;
    Ok(text)
}

/// Writes a text, as far as it can be written.
pub fn write_text<E: Sink>(text: &[u8], errors: &mut E)
    ensures { IsWrittenUnlessFailed (place (E.contents errors.old) (E.failed_calls errors.old))
        (place (E.contents errors.new) (E.failed_calls errors.new)) text.now }
{
    let _ = write_all(errors, text);
}

/// Writes the line of a fault on standard error, as `fault_text` gives it, with the text before it. An error if
/// memory for that is refused: the line is written alone then.
pub fn write_fault<M: Machine, E: Sink>(
    alloc: Global,
    machine: &M,
    request: &ParsedArgs,
    fault: Fault,
    errors: &mut E,
) -> Result<(), AllocError>
    ensures { ReportsFault (M.world machine.now) M.words request.now fault result
        (place (E.contents errors.old) (E.failed_calls errors.old))
        (place (E.contents errors.new) (E.failed_calls errors.new)) }
{
    match fault_message(alloc, machine, request, fault) {
        Ok(text) => {
            write_text(&text, errors);
            Ok(())
        }
        Err(refused) => {
            write_text(fault_line(fault), errors);
            Err(refused)
        }
    }
}
