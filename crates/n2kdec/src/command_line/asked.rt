//! What words ask for: a text, or a command over files.
ghost use Rattle.std.specs.Prelude.{◌≡◌, option_map};
ghost use Rattle.n2k_run.specs.FramesOut.{IsInterface};

use crate::command_line::words::Word;
use crate::fault::Fault;
use n2k_run::Options;
use n2k_wire::is_interface;
use std::alloc::AllocError;
use std::marker::Model;

/// The name of an interface: 1 to 15 bytes from `!` to `~`.
#[derive(Debug, Drop)]
pub struct Interface {
    name: Word,
}

impl Model for Interface {
    ghost use Rattle.std.specs.Prelude.{ℕ, List, IsTrue};
    ghost use Rattle.n2k_wire.specs.Candump.{is_interface};

    ghost Value = { List ℕ };

    ghost view = { λ i. i.name };

    ghost invariant = { λ i. IsTrue (is_interface i.name) };
}

impl Interface {
    ghost use Rattle.std.specs.Prelude.{IsTrue, Ok, Err, if◌then◌else◌};
    ghost use Rattle.n2kdec.specs.declared.fault.Fault.TheVariants as faults;
    ghost use Rattle.n2k_wire.specs.Candump.{is_interface};

    /// The interface of this name. `Interface` if the name is not valid for an interface.
    pub fn new(name: Word) -> Result<Interface, Fault>
        ensures { result ≡ (if is_interface name then Ok name else Err faults.Interface) }
    {
        if is_interface(name.as_str().as_bytes()) {
            Ok(Interface { name })
        } else {
            Err(Fault::Interface)
        }
    }

    /// Its name.
    pub fn as_str(&self) -> &str
        ensures name { result.now ≡ self.now }
        ensures form { IsTrue (is_interface result.now) }
    {
        self.name.as_str()
    }
}

/// The name of an interface, if one is given.
pub fn name_of(interface: &Option<Interface>) -> Option<&str>
    ensures same { option_map (λ text. text.now) result ≡ interface.now }
    ensures form { IsInterface (option_map (λ text. text.now) result) }
{
    Some(interface.as_ref()?.as_str())
}

/// The files that a command reads.
#[derive(Debug, Drop)]
pub struct Files {
    /// The table's, if the command has one.
    pub table: Option<Word>,
    /// That of the state to go on from; none is a log's beginning.
    pub state: Option<Word>,
    /// The log's; none is standard input.
    pub log: Option<Word>,
}

/// What is done with the log.
#[derive(Debug, Drop)]
pub enum Subcommand {
    /// `plain`: each frame is printed as a plain line.
    Plain,
    /// `decode`: each message is printed as a line of JSON.
    Decode {
        /// How lines are read, grouped and printed.
        options: Options,
        /// The file that gets the state after the log.
        save: Option<Word>,
    },
    /// `frames`: each message is written as frames, in plain lines or in those of candump at an interface.
    Frames(Option<Interface>),
    /// `encode`: each line of JSON is printed as the plain line of its message.
    Encode {
        /// Whether a number is rounded to the nearest one that its field can show.
        nearest: bool,
    },
}

/// A command and the files that it reads.
#[derive(Debug, Drop)]
pub struct Command {
    /// What it reads.
    pub files: Files,
    /// What it does.
    pub task: Subcommand,
}

/// What was typed.
#[derive(Debug, Drop)]
pub enum ParsedArgs {
    /// `--help` or `--version`, with the text to print.
    Help(Word),
    /// A command.
    Command(Command),
    /// Arguments that ask for nothing that can be done, and what is said on a terminal of those that `clap` has seen, in
    /// whole lines; an error if memory for these is refused.
    Refused(Fault, Option<Result<Vec<u8>, AllocError>>),
}
