//! From the words that were typed to the status that the program ends with, over any machine.
ghost use Rattle.std.specs.Prelude.{◌≡◌, List, IfOk, IsErr, IsSome, Ok, Some, map, option_map, string_bytes};
ghost use Rattle.std.specs.Process.{exit_status as status_of_code};
ghost use Rattle.n2kdec.specs.Run.Hint.{has_other_form, hint};
ghost use Rattle.clap.specs.Walk.{texts};
ghost use Rattle.n2kdec.specs.CommandLine.Asked.{save_name};
ghost use Rattle.n2kdec.specs.Run.Commands.{place};
ghost use Rattle.n2kdec.specs.System.Machine.{AsksFor, DoesAsked, Hints, IsAdmittedSo, IsOfFile, Makes, ReadsFile};
ghost use Rattle.n2kdec.specs.System.Machine.{RunsCommand, RunsTyped, Shows, explained, outside, too_large as too_large_of};
ghost use Rattle.n2kdec.specs.declared.system.machine.FileCall.{FileCall};

use crate::command_line::asked::{Command, ParsedArgs, Subcommand};
use crate::command_line::request;
use crate::command_line::words::Word;
use crate::fault::message::{write_fault, write_text};
use crate::fault::{Fault, InputFile, exit_status, status, unopened, unread};
use crate::run::commands::run_command;
use crate::run::hint::{has_other_form, hint};
use crate::save::keeper::{SaveError, StateStore};
use crate::system::machine::{Machine, OutputStreams};
use n2k_join::Counts;
use n2k_run::{BytesFault, Sink, read_bytes, write_all};
use std::alloc::{AllocError, Global};
use std::io;
use std::io::Error;
use std::process::ExitCode;

/// The most bytes of the file of a table, and of that of a state.
const LONGEST_FILE: usize = 16_777_216;

fn texts_of(alloc: Global, words: &[String]) -> Result<Vec<&str>, AllocError>
    ensures { IfOk result (λ all. texts all.items ≡ map string_bytes words.now) }
{
    let mut all = Vec::new(alloc);
    for word in words {
        all.push(word.as_str())?;
    }
    Ok(all)
}

/// What was typed asks for this.
#[tactic(auto, using(crate::proofs::run::AskedLemmas::asks))]
fn typed_request<M: Machine>(alloc: Global, machine: &M) -> ParsedArgs
    ensures { AsksFor (M.world machine.now) result }
{
    match machine.typed(alloc) {
        Ok(typed) => match texts_of(alloc, &typed) {
            Ok(texts) => request(alloc, &texts),
            Err(_) => ParsedArgs::Refused(Fault::Memory(None), None),
        },
        Err(fault) => ParsedArgs::Refused(fault, None),
    }
}

/// The bytes of the file of this name, if one is named; or the fault of a file that is too large, that can't be
/// opened or read, or of memory.
fn read_file<M: Machine>(
    alloc: Global,
    machine: &mut M,
    name: &Option<Word>,
    reading: InputFile,
    too_large: Fault,
) -> Result<Option<Vec<u8>>, Fault>
    requires { too_large_of reading ≡ Some too_large }
    ensures same { M.world machine.new ≡ M.world machine.old }
    ensures bytes { IfOk result (λ read. IsOfFile (M.world machine.old) name.now
        (option_map (λ bytes. bytes.items) read)) }
    ensures calls { (made : List FileCall) × Makes made (M.calls machine.old) (M.calls machine.new)
        × ReadsFile (M.world machine.old) name.now reading result made }
{
    let Some(_) = name else {
        return Ok(None);
    };
    let mut file = match machine.open(name) {
        Ok(file) => file,
        Err(error) => return Err(unopened(reading, error)),
    };
    let read = read_bytes(alloc, &mut file, LONGEST_FILE);
    let why = machine.close(file);
    match read {
        Ok(bytes) => Ok(Some(bytes)),
        Err(BytesFault::TooLong) => Err(too_large),
        Err(BytesFault::Read) => Err(unread(reading, why)),
        Err(BytesFault::Memory) => Err(Fault::Memory(Some(reading))),
    }
}

/// A command's result, where the fault of its log has why the last read of that failed, and the fault of its output why
/// the last write did.
fn explained(
    answer: Result<Counts, Fault>,
    unread: Option<Error>,
    unwritten: Option<Error>,
) -> Result<Counts, Fault>
    ensures { result ≡ explained unread unwritten answer }
{
    match answer {
        Err(Fault::Read(lines, _, unkept)) => Err(Fault::Read(lines, unread, unkept)),
        Err(Fault::Write(_)) => Err(Fault::Write(unwritten)),
        _ => answer,
    }
}

/// Asks whether the state may be saved under the name that the command gives, if it gives one.
fn admit<K: StateStore>(command: &Command, keeper: &K) -> Result<(), SaveError>
    ensures answer { IsAdmittedSo K.admits command.now result }
    ensures named { IsErr result → IsSome (save_name command.now.task) }
{
    match &command.task {
        Subcommand::Decode {
            save: Some(name),
            ..
        } => keeper.admit(name.as_str(), &command.files),
        _ => Ok(()),
    }
}

/// Runs a command, if its state is admitted. Its files are read in the order of their faults: the table's and the state's,
/// each whole, and then the log's, over which it is run.
#[tactic(auto, using(crate::proofs::run::MachineLemmas::not_admitted))]
fn run_on_files<M: Machine, K: StateStore>(
    alloc: Global,
    machine: &mut M,
    command: &Command,
    outlets: &mut OutputStreams<M::Output, M::Errors, K>,
) -> Result<Counts, Fault>
    ensures same { M.world machine.new ≡ M.world machine.old }
    ensures runs { RunsCommand (M.world machine.old) command.now
        (outside M.Output.Sink M.Errors.Sink K.StateStore (M.calls machine.old) outlets.old)
        (outside M.Output.Sink M.Errors.Sink K.StateStore (M.calls machine.new) outlets.new) result }
{
    if let Err(why) = admit(command, &outlets.keeper) {
        return Err(Fault::Save(why));
    }
    let files = &command.files;
    let table = read_file(
        alloc,
        machine,
        &files.table,
        InputFile::Table,
        Fault::TableSize,
    )?;
    let state = read_file(
        alloc,
        machine,
        &files.state,
        InputFile::State,
        Fault::StateSize,
    )?;
    let mut log = match machine.open(&files.log) {
        Ok(log) => log,
        Err(error) => return Err(unopened(InputFile::Log, error)),
    };
    let table = table.unwrap_or(Vec::new(alloc));
    let state = state.as_ref().map(|bytes| bytes.as_slice());
    let answer = run_command(alloc, &command.task, &table, state, &mut log, outlets);
    let why = machine.close(log);
    explained(answer, why, machine.failure(&outlets.output))
}

/// Prints the text of the help or of the version.
fn show<M: Machine>(machine: &M, text: &Word, output: &mut M::Output) -> Result<Counts, Fault>
    ensures { Shows text.now (place (M.Output.contents output.old) (M.Output.failed_calls output.old))
        (place (M.Output.contents output.new) (M.Output.failed_calls output.new)) (M.Output.why output.new) result }
{
    match write_all(output, text.as_str().as_bytes()) {
        Ok(()) => Ok(Counts::NONE),
        Err(_) => Err(Fault::Write(machine.failure(output))),
    }
}

/// Does what was typed, and returns the outcome.
fn do_request<M: Machine, K: StateStore>(
    alloc: Global,
    machine: &mut M,
    request: &ParsedArgs,
    outlets: &mut OutputStreams<M::Output, M::Errors, K>,
) -> Result<Counts, Fault>
    ensures same { M.world machine.new ≡ M.world machine.old }
    ensures does { DoesAsked (M.world machine.old) request.now
        (outside M.Output.Sink M.Errors.Sink K.StateStore (M.calls machine.old) outlets.old)
        (outside M.Output.Sink M.Errors.Sink K.StateStore (M.calls machine.new) outlets.new) result }
{
    match request {
        ParsedArgs::Help(text) => show(machine, text, &mut outlets.output),
        ParsedArgs::Command(command) => run_on_files(alloc, machine, command, outlets),
        ParsedArgs::Refused(fault, _) => Err(*fault),
    }
}

/// Says on a terminal what to do with a log of another form, after the command of a request has read all of it.
fn say_hint<M: Machine, E: Sink>(machine: &M, request: &ParsedArgs, counts: &Counts, errors: &mut E)
    ensures { Hints (M.world machine.now) (has_other_form counts.now) (hint request.now)
        (place (E.contents errors.old) (E.failed_calls errors.old))
        (place (E.contents errors.new) (E.failed_calls errors.new)) }
{
    if has_other_form(counts) {
        if machine.is_terminal() {
            write_text(hint(request), errors);
        }
    }
}

/// Does what was typed, reports on it, and returns the exit status. An error beside it if memory for what is said of a
/// fault is refused.
pub fn run<M: Machine, K: StateStore>(
    alloc: Global,
    machine: &mut M,
    outlets: &mut OutputStreams<M::Output, M::Errors, K>,
) -> (ExitCode, Result<(), AllocError>)
    ensures { RunsTyped (M.world machine.old) M.words
        (outside M.Output.Sink M.Errors.Sink K.StateStore (M.calls machine.old) outlets.old)
        (outside M.Output.Sink M.Errors.Sink K.StateStore (M.calls machine.new) outlets.new)
        (status_of_code result.0) result.1 }
{
    let request = typed_request(alloc, machine);
    match do_request(alloc, machine, &request, outlets) {
        Ok(counts) => {
            say_hint(machine, &request, &counts, &mut outlets.errors);
            (ExitCode::from(exit_status(&counts)), Ok(()))
        }
        Err(fault) => {
            let said = write_fault(alloc, machine, &request, fault, &mut outlets.errors);
            (ExitCode::from(status(&fault)), said)
        }
    }
}
