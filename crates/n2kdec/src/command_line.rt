//! What the arguments of the command line ask for, by the matches of `clap`.
ghost use Rattle.std.specs.Prelude.{◌≡◌, true, false, IfErr, IfOk, IfSome, MatchResult, None, codes, option_map};
ghost use Rattle.std.specs.Char.{is_ascii_digit};
ghost use Rattle.std.specs.List.{list_all};
ghost use Rattle.clap.specs.Walk.{texts};
ghost use Rattle.clap.specs.Values.{kind_of};
ghost use Rattle.clap.specs.Words.{HasKind, fault_of, first_of, found_of, rows_of, subcommand_rows_of, takes};
ghost use Rattle.n2kdec.specs.declared.command_line.asked.ParsedArgs.TheVariants.{Help, Refused};
ghost use Rattle.n2kdec.specs.declared.fault.Fault.TheVariants.{Memory};
ghost use Rattle.n2kdec.specs.CommandLine.Asked.{AreLinesOf, AreMatchesOf, IsAsked};
ghost use Rattle.n2kdec.specs.Inner.Parse.{AnswersKind};
ghost use Rattle.n2kdec.specs.CommandLine.Usage.{program_app};
ghost use Rattle.n2kdec.specs.CommandLine.Words.{Names, NamesIn, command_of, decode_by, encode_by, flag_of, frames_by, lines_in};
ghost use Rattle.n2kdec.specs.CommandLine.Words.{judged, named, over, version_text, window_of};

pub mod asked;
pub mod usage;
pub mod words;

use crate::command_line::asked::{Command, Files, Interface, ParsedArgs, Subcommand};
use crate::command_line::usage::{VERSION, program};
use crate::command_line::words::Word;
use crate::fault::Fault;
use crate::fault::escape::push_escaped;
use clap::error::ErrorKind;
use clap::{ArgMatches, Error};
use n2k_join::Window;
use n2k_run::Options;
use n2k_wire::Packing;
use std::alloc::{AllocError, Global};
use std::fmt::Display;

/// The value of an argument, if it has one.
#[tactic(auto, using(crate::proofs::command_line::Rows::value_of_rows))]
fn value_of(alloc: Global, matches: &ArgMatches<'_>, id: &str) -> Result<Option<Word>, AllocError>
    ensures { IfOk result (λ value. value ≡ first_of id.now (rows_of (found_of matches.now))) }
{
    match matches.get_str(id) {
        Some(text) => Ok(Some(Word::new(alloc, text)?)),
        None => Ok(None),
    }
}

/// Whether a flag was given: `clap` gives it the value `true` then, and else `false`.
#[tactic(auto, using(crate::proofs::command_line::Rows::value_of_rows))]
fn flag_of(matches: &ArgMatches<'_>, id: &str) -> bool
    ensures { result ≡ flag_of id.now (rows_of (found_of matches.now)) }
{
    matches.get_str(id).is_some_and(|text| text == "true")
}

/// The lines of a window without `--window`.
const DEFAULT_WINDOW: u32 = 10_000;

fn are_digits(text: &[u8]) -> bool
    ensures { result ≡ list_all is_ascii_digit text.now }
{
    text.iter().all(|byte| byte.is_ascii_digit())
}

/// The window of a number of lines in decimal digits, if it can be one.
fn window_in(text: &str) -> Option<Window>
    ensures { result ≡ option_map (λ lines. record { lines = lines; in_order = false }) (lines_in text.now) }
{
    if !are_digits(text.as_bytes()) {
        return None;
    }
    Window::new(text.parse::<u32>().ok()?)
}

/// The window that the words ask for, or the default one.
#[tactic(auto, using(crate::proofs::command_line::Rows::value_of_rows))]
fn window_of(matches: &ArgMatches<'_>) -> Option<Window>
    ensures { result ≡ window_of (rows_of (found_of matches.now)) }
{
    let window = match matches.get_str("window") {
        Some(text) => window_in(text)?,
        None => Window::new(DEFAULT_WINDOW)?,
    };
    if flag_of(matches, "in-order") {
        Some(window.in_order())
    } else {
        Some(window)
    }
}

/// A command over these files.
fn over(table: Option<Word>, state: Option<Word>, log: Option<Word>, task: Subcommand) -> Command
    ensures { result ≡ over table state log task }
{
    Command {
        files: Files { table, state, log },
        task,
    }
}

/// `decode`, with its values.
fn decode_of(alloc: Global, matches: &ArgMatches<'_>) -> Result<Command, Fault>
    ensures { let rows = rows_of (found_of matches.now) in
        Names (decode_by (first_of (codes "table") rows) (window_of rows) rows) result }
{
    let table = value_of(alloc, matches, "table")?.ok_or(Fault::Words)?;
    let window = window_of(matches).ok_or(Fault::Words)?;
    let options = Options {
        packing: if flag_of(matches, "whole") {
            Packing::Whole
        } else {
            Packing::Frames
        },
        empty: flag_of(matches, "empty"),
        window,
    };
    let state = value_of(alloc, matches, "resume")?;
    let save = value_of(alloc, matches, "save")?;
    let log = value_of(alloc, matches, "log")?;
    Ok(over(
        Some(table),
        state,
        log,
        Subcommand::Decode { options, save },
    ))
}

/// `frames`, with its values.
fn frames_of(alloc: Global, matches: &ArgMatches<'_>) -> Result<Command, Fault>
    ensures { let rows = rows_of (found_of matches.now) in
        Names (frames_by (first_of (codes "table") rows) (judged (first_of (codes "candump") rows)) rows) result }
{
    let table = value_of(alloc, matches, "table")?.ok_or(Fault::Words)?;
    let candump = value_of(alloc, matches, "candump")?;
    let log = value_of(alloc, matches, "log")?;
    let interface = candump.map(Interface::new).transpose()?;
    Ok(over(Some(table), None, log, Subcommand::Frames(interface)))
}

/// `encode`, with its values.
fn encode_of(alloc: Global, matches: &ArgMatches<'_>) -> Result<Command, Fault>
    ensures { let rows = rows_of (found_of matches.now) in
        Names (encode_by (first_of (codes "table") rows) rows) result }
{
    let table = value_of(alloc, matches, "table")?.ok_or(Fault::Words)?;
    let nearest = flag_of(matches, "nearest");
    let log = value_of(alloc, matches, "log")?;
    Ok(over(Some(table), None, log, Subcommand::Encode { nearest }))
}

/// The command that was named, with its values.
fn command_of(alloc: Global, matches: &ArgMatches<'_>) -> Result<Command, Fault>
    ensures { Names (named (subcommand_rows_of matches.now)) result }
{
    let (name, values) = matches.subcommand().ok_or(Fault::Words)?;
    if name == "plain" {
        let log = value_of(alloc, values, "log")?;
        Ok(over(None, None, log, Subcommand::Plain))
    } else if name == "decode" {
        decode_of(alloc, values)
    } else if name == "frames" {
        frames_of(alloc, values)
    } else if name == "encode" {
        encode_of(alloc, values)
    } else {
        Err(Fault::Words)
    }
}

/// The text of the version.
fn version(alloc: Global) -> Result<Word, AllocError>
    ensures { IfOk result (λ word. word ≡ version_text) }
{
    Ok(Word::of(format!(in alloc; "n2kdec {VERSION}\n")?))
}

/// A text of `clap`.
fn shown_text<T: Display>(alloc: Global, shown: &T) -> Result<Word, AllocError>
    ensures { IfOk result (λ word. IfSome (T.output shown.now) (λ text. word ≡ text)) }
{
    Ok(Word::of(shown.to_string(alloc)?))
}

/// What is said of arguments that `clap` takes, if the value of `--window` is not a window.
pub const NO_WINDOW: &str = "error: a window is a number of lines from 32 to 1000000

For more information, try '--help'.";

/// What is said of refused words, in whole lines, with control characters escaped.
fn lines_of<T: Display>(alloc: Global, shown: &T) -> Result<Vec<u8>, AllocError>
    ensures { IfOk result (λ lines. AreLinesOf (T.output shown.now) lines.items) }
{
    let text = shown.to_string(alloc)?;
    let mut lines = Vec::new(alloc);
    push_escaped(true, text.as_str().trim_end().as_bytes(), &mut lines)?;
    lines.extend_from_slice(b"\n")?;
    Ok(lines)
}

/// A text that is asked for.
fn help(text: Result<Word, AllocError>) -> ParsedArgs
    ensures { MatchResult text (λ text. result ≡ Help text) (λ _. result ≡ Refused (Memory None) None) }
{
    match text {
        Ok(text) => ParsedArgs::Help(text),
        Err(_) => ParsedArgs::Refused(Fault::Memory(None), None),
    }
}

/// What a parse without matches comes to, by the kind of its error. A request for help gets the text that is shown; it
/// is not a fault, nor is a request for the version.
fn help_of<T: Display>(alloc: Global, kind: ErrorKind, shown: &T) -> ParsedArgs
    ensures answers { AnswersKind kind (T.output shown.now) result }
    ensures memory { kind ≡ ErrorKind.OutOfMemory → result ≡ Refused (Memory None) None }
{
    match kind {
        ErrorKind::DisplayHelp => help(shown_text(alloc, shown)),
        ErrorKind::DisplayVersion => help(version(alloc)),
        ErrorKind::OutOfMemory => ParsedArgs::Refused(Fault::Memory(None), None),
        _ => ParsedArgs::Refused(Fault::Words, Some(lines_of(alloc, shown))),
    }
}

/// The matches of arguments, by the command's definition.
fn matches_of<'a>(alloc: Global, words: &'a [&'a str]) -> Result<ArgMatches<'a>, Error>
    ensures matches { IfOk result (AreMatchesOf (texts words.now)) }
    ensures kinds { IfErr result (HasKind (fault_of program_app (texts words.now))) }
    ensures taken { IfErr result (λ error. takes program_app (texts words.now) ≡ true
        → kind_of error ≡ ErrorKind.OutOfMemory) }
{
    program(alloc)?.try_get_matches_from(words)
}

/// What the arguments of a command line ask for, the program's name first, as `clap` reads them by the command's
/// definition: `["n2kdec", "plain", "trip.log"]` gives `plain` with that log. If they ask for help or the version, `Help`
/// has `clap`'s help text, or `n2kdec`, the version and an LF. An invalid interface is `Fault::Interface`; arguments that
/// are refused for any other cause are `Fault::Words`, with what is said of them, or an error if memory for that is
/// refused; if memory is refused, `Fault::Memory`.
pub fn request(alloc: Global, words: &[&str]) -> ParsedArgs
    ensures asked { IsAsked result (texts words.now) }
    ensures taken { takes program_app (texts words.now) ≡ true → NamesIn (command_of (texts words.now)) result }
{
    match matches_of(alloc, words) {
        Ok(matches) => match command_of(alloc, &matches) {
            Ok(command) => ParsedArgs::Command(command),
            Err(Fault::Words) => ParsedArgs::Refused(
                Fault::Words,
                Some(lines_of(alloc, &NO_WINDOW)),
            ),
            Err(fault) => ParsedArgs::Refused(fault, None),
        },
        Err(error) => help_of(alloc, error.kind(), &error),
    }
}
