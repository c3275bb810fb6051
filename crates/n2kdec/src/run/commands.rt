//! A command over its devices: what is printed, what is saved, and the status of it.
ghost use Rattle.std.specs.Prelude.{◌≡◌, IfErr, option_map};
ghost use Rattle.std.specs.Result.{result_err};
ghost use Rattle.n2k_run.specs.Runs.{seen};
ghost use Rattle.n2kdec.specs.CommandLine.Asked.{save_name};
ghost use Rattle.n2kdec.specs.Run.Commands.{ClosesRun, IsRefusal, Performs, Replaces, SumsUp, place, shelf};
ghost use Rattle.n2kdec.specs.Inner.Closing.{ClosesPart};

use crate::command_line::asked::{Subcommand, name_of};
use crate::command_line::words::Word;
use crate::fault::{Fault, InputFile, fault_of_run};
use crate::run::difference::difference_of;
use crate::save::keeper::{SaveError, StateStore};
use crate::system::machine::OutputStreams;
use n2k_encode_run::run_encode;
use n2k_join::Counts;
use n2k_run::{
    Options, Part, PartFault, RunFault, Sink, Source, run_counted, run_frames_counted, run_part,
    run_plain_counted, write_summary,
};
use n2k_table::Table;
use std::alloc::Global;

/// Writes the summary of what a run has counted, and returns that.
fn sum_up<E: Sink>(counts: &Counts, errors: &mut E) -> Result<Counts, Fault>
    ensures { SumsUp (place (E.contents errors.old) (E.failed_calls errors.old))
        (place (E.contents errors.new) (E.failed_calls errors.new)) counts.now result }
{
    write_summary(counts, errors).map_err(|_| Fault::Report)?;
    Ok(*counts)
}

/// Keeps the state of a part, if there is a name for it.
fn keep<K: StateStore, E: Sink>(
    save: &Option<Word>,
    part: &Part,
    keeper: &mut K,
    errors: &E,
) -> Result<(), SaveError>
    ensures { Replaces (shelf save.now (K.kept keeper.old)) (shelf save.now (K.kept keeper.new))
        part.now.state.items (E.contents errors.now) (result_err result) }
{
    match save {
        Some(name) => keeper.keep(name.as_str(), &part.state, errors),
        None => Ok(()),
    }
}

/// What follows the run of a log, which counted so much: the summary. After a fault it follows only if parts are summed
/// up and the run stopped at the end of a line.
fn close<E: Sink>(
    parts: bool,
    counts: &Counts,
    ended: Result<(), RunFault>,
    errors: &mut E,
) -> Result<Counts, Fault>
    ensures closes { ClosesRun parts (place (E.contents errors.old) (E.failed_calls errors.old))
        (place (E.contents errors.new) (E.failed_calls errors.new)) counts.now ended result }
    ensures begun { IfErr result (λ fault. IsRefusal fault → ⊥) }
{
    match ended {
        Ok(()) => sum_up(counts, errors),
        Err(fault) => {
            if parts && matches!(fault, RunFault::Read | RunFault::TooManyLines) {
                let _ = sum_up(counts, errors);
            }
            Err(fault_of_run(fault, counts.lines))
        }
    }
}

/// What follows the run of a part from a state, if one was given. After whole lines the state is kept, unless the limit of
/// lines is reached, and then the part is summed up, also if the state can't be kept. Of two faults the first counts.
fn close_part<K: StateStore, E: Sink>(
    alloc: Global,
    table: &Table,
    options: &Options,
    state: Option<&[u8]>,
    save: &Option<Word>,
    ended: Result<Part, PartFault>,
    keeper: &mut K,
    errors: &mut E,
) -> Result<Counts, Fault>
    ensures closes { ClosesPart table.now.id options.now (option_map (λ bytes. bytes.now) state.entry)
        (shelf save.now (K.kept keeper.old)) (shelf save.now (K.kept keeper.new))
        (place (E.contents errors.old) (E.failed_calls errors.old))
        (place (E.contents errors.new) (E.failed_calls errors.new)) ended result }
    ensures untouched { IfErr result (λ fault. IsRefusal fault → (keeper.new ≡ keeper.old) × (errors.new ≡ errors.old)) }
{
    match ended {
        Ok(part) => {
            let kept = keep(save, &part, keeper, errors);
            let summed = sum_up(&part.counts, errors);
            kept.map_err(Fault::Save)?;
            summed
        }
        Err(PartFault::Stopped(RunFault::Read, part)) => {
            let unkept = keep(save, &part, keeper, errors).err();
            let _ = sum_up(&part.counts, errors);
            Err(Fault::Read(part.counts.lines, None, unkept))
        }
        Err(PartFault::Stopped(fault, part)) => {
            let _ = sum_up(&part.counts, errors);
            Err(fault_of_run(fault, part.counts.lines))
        }
        Err(PartFault::State(fault)) => {
            Err(Fault::State(fault, difference_of(alloc, table, options, state, fault)))
        }
        Err(PartFault::Run(fault)) => Err(fault_of_run(fault, 0)),
        Err(PartFault::Memory) => Err(Fault::Memory(Some(InputFile::Log))),
    }
}

/// Runs a command, from the bytes of a table and of a state as far as it has them. The output gets the texts: plain
/// lines, JSON lines, or the lines of frames. The errors get the reports of bad lines and of broken groups, and then
/// the summary. Returns what was counted.
///
/// `decode` goes on from the state, or begins a log (`None`), and its counts are those of all lines so far. The state
/// after it goes to the keeper, and the summary is written after that, also if the state can't be saved. After a
/// failed read what was read is saved and summed up; at the limit of lines it is summed up alone. After any other
/// fault, and after each fault of the other commands, there is no summary, except a part of it if the errors
/// fail in it.
///
/// A table or a state with a fault is refused before the log is read, and leaves each device as it was.
pub fn run_command<R: Source, W: Sink, E: Sink, K: StateStore>(
    alloc: Global,
    task: &Subcommand,
    table: &[u8],
    state: Option<&[u8]>,
    log: &mut R,
    outlets: &mut OutputStreams<W, E, K>,
) -> Result<Counts, Fault>
    ensures performs { let before = seen R.Source W.Sink E.Sink log.old outlets.old.output outlets.old.errors in
        let after = seen R.Source W.Sink E.Sink log.new outlets.new.output outlets.new.errors in
        Performs task.now table.now (option_map (λ bytes. bytes.now) state.entry) before after
        (shelf (save_name task.now) (K.kept outlets.old.keeper))
        (shelf (save_name task.now) (K.kept outlets.new.keeper)) result }
    ensures untouched { IfErr result (λ fault. IsRefusal fault
        → (log.new ≡ log.old) × (outlets.new.output ≡ outlets.old.output) × (outlets.new.errors ≡ outlets.old.errors)
        × (outlets.new.keeper ≡ outlets.old.keeper)) }
{
    let (output, errors) = (&mut outlets.output, &mut outlets.errors);
    let mut counts = Counts::NONE;
    match task {
        Subcommand::Plain => {
            let ended = run_plain_counted(alloc, &mut counts, log, output, errors);
            close(false, &counts, ended, errors)
        }
        Subcommand::Decode { options, save } => match Table::read(alloc, table) {
            Ok(table) if save.is_none() && state.is_none() => {
                let ended = run_counted(alloc, &table, *options, &mut counts, log, output, errors);
                close(true, &counts, ended, errors)
            }
            Ok(table) => {
                let keeper = &mut outlets.keeper;
                let ended = run_part(alloc, &table, state, *options, log, output, errors);
                close_part(alloc, &table, options, state, save, ended, keeper, errors)
            }
            Err(fault) => Err(Fault::Table(fault)),
        },
        Subcommand::Frames(interface) => match Table::read(alloc, table) {
            Ok(table) => {
                let name = name_of(interface);
                let ended = run_frames_counted(
                    alloc,
                    &table,
                    name,
                    &mut counts,
                    log,
                    output,
                    errors,
                );
                close(false, &counts, ended, errors)
            }
            Err(fault) => Err(Fault::Table(fault)),
        },
        Subcommand::Encode { nearest } => match Table::read(alloc, table) {
            Ok(table) => {
                let ended = run_encode(alloc, &table, *nearest, &mut counts, log, output, errors);
                close(false, &counts, ended, errors)
            }
            Err(fault) => Err(Fault::Table(fault)),
        },
    }
}
