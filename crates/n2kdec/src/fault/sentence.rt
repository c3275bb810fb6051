//! What is said of a fault on a terminal, in one line: the file or the stream that it is of, what is wrong, what to do.
ghost use Rattle.std.specs.Prelude.{◌≡◌, ◌++◌, IfOk, OnOk, option_map};
ghost use Rattle.n2kdec.specs.Fault.Sentence.{AreWords, IsLine, IsSentence, cause_text, error_of, lines_text, named};
ghost use Rattle.n2kdec.specs.Fault.Sentence.{subject_of, table_of, tables_text, told_of, windows_text};

use crate::command_line::asked::{Command, Subcommand};
use crate::command_line::words::Word;
use crate::fault::escape::push_escaped;
use crate::fault::{Fault, InputFile};
use crate::run::difference::StateMismatch;
use crate::save::keeper::SaveError;
use crate::system::machine::Machine;
use n2k_join::StateFault;
use n2k_table::TableFault;
use std::alloc::{AllocError, Global};
use std::io::Error;

/// The error that a fault has, of the call that failed.
fn error_of(fault: Fault) -> Option<Error>
    ensures { result ≡ error_of fault }
{
    match fault {
        Fault::TableFile(why)
        | Fault::StateFile(why)
        | Fault::Read(_, why, _)
        | Fault::Write(why) => why,
        Fault::Save(SaveError::Unfound(error) | SaveError::Failed(error)) => Some(error),
        _ => None,
    }
}

/// What is wrong: the words of the system for the error that a fault has, else what the fault means.
fn words_of<M: Machine>(alloc: Global, machine: &M, fault: Fault) -> Result<Word, AllocError>
    ensures { IfOk result (λ words. AreWords M.words fault words) }
{
    match error_of(fault) {
        Some(error) => machine.words(alloc, &error),
        None => Ok(Word::of(fault.to_string(alloc)?)),
    }
}

/// Appends the tables of a state that is another's: what it was saved under, and what the table of this name is.
fn push_tables(saved: &[u8], name: &str, id: &[u8], text: &mut Vec<u8>) -> Result<(), AllocError>
    ensures { OnOk result (text.new.items ≡ text.old.items ++ tables_text saved.now name.now id.now) }
{
    text.extend_from_slice(b" (SHA-256 ")?;
    text.extend_from_slice(saved)?;
    text.extend_from_slice(b"; that of ")?;
    text.extend_from_slice(named(name).as_bytes())?;
    text.extend_from_slice(b" is ")?;
    text.extend_from_slice(id)?;
    text.extend_from_slice(b")")
}

/// Appends the windows of a state that was saved under another.
fn push_windows(
    alloc: Global,
    saved: u64,
    window: u64,
    text: &mut Vec<u8>,
) -> Result<(), AllocError>
    ensures { OnOk result (text.new.items ≡ text.old.items ++ windows_text saved window) }
{
    let windows = format!(in alloc; " ({saved}; this run has {window})")?;
    text.extend_from_slice(windows.as_bytes())
}

/// Appends how far a log was read, if anywhere.
fn push_lines(alloc: Global, lines: u64, text: &mut Vec<u8>) -> Result<(), AllocError>
    ensures { OnOk result (text.new.items ≡ text.old.items ++ lines_text lines) }
{
    if lines == 0 {
        return Ok(());
    }
    let place = format!(in alloc; " (after line {lines})")?;
    text.extend_from_slice(place.as_bytes())
}

/// Appends what is known of a fault: of a state that is another's what it is of, of a failed read how far it came.
fn push_cause(
    alloc: Global,
    command: Option<&Command>,
    fault: Fault,
    text: &mut Vec<u8>,
) -> Result<(), AllocError>
    ensures { OnOk result (text.new.items ≡ text.old.items
        ++ cause_text (option_map (λ c. c.now) command.entry) fault) }
{
    match fault {
        Fault::State(_, Ok(Some(StateMismatch::Tables(saved, id)))) => {
            push_tables(&saved, table_of(command).unwrap_or(""), &id, text)
        }
        Fault::State(_, Ok(Some(StateMismatch::Windows(saved, window)))) => {
            push_windows(alloc, saved, window, text)
        }
        Fault::Read(lines, ..) => push_lines(alloc, lines, text),
        _ => Ok(()),
    }
}

/// What became of a file to which a state could not be saved.
const UNSURE: &str =
    "; the file still has the old state, or already the new one, unless it was being overwritten in place";

/// What to do about a fault, or what became of the log.
fn advice_of(fault: Fault) -> &'static str {
    match fault {
        Fault::Table(TableFault::Memory) | Fault::State(StateFault::Memory, _) => "",
        Fault::Table(_) => "; n2kdec-table-check names the line",
        Fault::State(StateFault::TableDiffers | StateFault::WindowDiffers, _) => {
            "; use the saved one, or start without --resume"
        }
        Fault::State(..) => "; start without --resume",
        Fault::Save(SaveError::Failed(_)) =>
            "; the log was decoded; the file still has the old state, or already the new one, unless it was being overwritten in place",
        Fault::Save(SaveError::Unfound(_)) => "; nothing was decoded",
        Fault::Save(SaveError::Harm) => "; nothing was decoded: name another file for --save",
        Fault::Write(_) => "; the rest was not printed",
        Fault::Memory(_) => "; nothing was saved",
        _ => "",
    }
}

/// The text of an argument, if there is one.
fn text_of(word: &Option<Word>) -> Option<&str>
    ensures { option_map (λ text. text.now) result ≡ word.now }
{
    Some(word.as_ref()?.as_str())
}

/// The name of the table of a command.
fn table_of(command: Option<&Command>) -> Option<&str>
    ensures { option_map (λ text. text.now) result ≡ table_of (option_map (λ c. c.now) command.entry) }
{
    text_of(&command?.files.table)
}

/// What a fault is of: the name that was typed, or that of a stream.
fn subject_of(command: Option<&Command>, fault: Fault) -> Option<&str>
    ensures { option_map (λ text. text.now) result ≡ subject_of (option_map (λ c. c.now) command.entry) fault }
{
    match fault {
        Fault::Words | Fault::Report => None,
        Fault::Interface => Some("--candump"),
        Fault::Memory(None) => Some("the command line"),
        Fault::TableSize
        | Fault::Table(_)
        | Fault::TableFile(_)
        | Fault::Memory(Some(InputFile::Table)) => table_of(command),
        Fault::StateSize
        | Fault::State(..)
        | Fault::StateFile(_)
        | Fault::Memory(Some(InputFile::State)) => text_of(&command?.files.state),
        Fault::Read(..) | Fault::Lines | Fault::Memory(Some(InputFile::Log)) => {
            Some(text_of(&command?.files.log).unwrap_or("standard input"))
        }
        Fault::Write(_) => Some("standard output"),
        Fault::Save(_) => match &command?.task {
            Subcommand::Decode { save, .. } => text_of(save),
            _ => None,
        },
    }
}

/// A name, or the quotes of one that is empty.
fn named(subject: &str) -> &str
    ensures { result.now ≡ named subject.now }
{
    if subject.is_empty() { "''" } else { subject }
}

/// What is said of a subject: what is wrong with it, what is known of that, and what to do.
fn told_of(
    alloc: Global,
    command: Option<&Command>,
    subject: &str,
    words: &str,
    fault: Fault,
    advice: &str,
) -> Result<Vec<u8>, AllocError>
    ensures { IfOk result (λ text. text.items
        ≡ told_of (option_map (λ c. c.now) command.entry) subject.now words.now fault advice.now) }
{
    let mut text = named(subject).as_bytes().to_vec(alloc)?;
    text.extend_from_slice(b": ")?;
    text.extend_from_slice(words.as_bytes())?;
    push_cause(alloc, command, fault, &mut text)?;
    text.extend_from_slice(advice.as_bytes())?;
    Ok(text)
}

/// What is said of a fault of a command, or of none: one line with its LF, in which control characters are escaped;
/// nothing if it concerns no file and no stream.
fn line_of<M: Machine>(
    alloc: Global,
    machine: &M,
    command: Option<&Command>,
    fault: Fault,
    advice: &str,
) -> Result<Vec<u8>, AllocError>
    ensures { IfOk result (λ text. IsLine M.words (option_map (λ c. c.now) command.entry) fault text.items) }
{
    let Some(subject) = subject_of(command, fault) else {
        return Ok(Vec::new(alloc));
    };
    let words = words_of(alloc, machine, fault)?;
    let text = told_of(alloc, command, subject, words.as_str(), fault, advice)?;
    let mut line = b"n2kdec: ".to_vec(alloc)?;
    push_escaped(false, &text, &mut line)?;
    line.extend_from_slice(b"\n")?;
    Ok(line)
}

/// What is said of a fault of a command, or of none, in whole lines in which control characters are escaped. If the state
/// after a failed read was not saved, the sentence for that follows.
pub fn fault_sentence<M: Machine>(
    alloc: Global,
    machine: &M,
    command: Option<&Command>,
    fault: Fault,
) -> Result<Vec<u8>, AllocError>
    ensures { IfOk result (λ text. IsSentence M.words (option_map (λ c. c.now) command.entry) fault text.items) }
{
    let mut text = line_of(alloc, machine, command, fault, advice_of(fault))?;
    let Fault::Read(_, _, unkept) = fault else {
        return Ok(text);
    };
    let Some(why) = unkept else {
        return Ok(text);
    };
    let next = line_of(alloc, machine, command, Fault::Save(why), UNSURE)?;
    text.extend_from_slice(&next)?;
    Ok(text)
}
