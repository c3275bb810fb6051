//! The command line of the program, as it is defined for `clap`.
ghost use Rattle.std.specs.Prelude.{◌≡◌, IfOk, false, map};
ghost use Rattle.clap.specs.Words.{app_of, new_app, rule_of};
ghost use Rattle.clap.specs.declared.builder.command.Command.TheViews.{out-Command as fields_of};
ghost use Rattle.n2kdec.specs.CommandLine.Usage.{argument_rule, decode_app, encode_app, frames_app, plain_app, program_app};
ghost use Rattle.n2kdec.specs.CommandLine.Usage.{program_top, with_rules};

use clap::{Arg, ArgAction, Command};
use std::alloc::{AllocError, Global};

/// The version of the program: the one place that has it.
pub const VERSION: &str = "1.1.0";

/// An argument of a command, with its help.
#[derive(Clone, Copy)]
enum Argument<'a> {
    /// The file that is read line by line, as the help calls it.
    Input(&'a str, &'a str),
    /// The table, which is required.
    Table,
    /// An option by its name, with a value, as the help calls it.
    Value(&'a str, &'a str, &'a str),
    /// An option by its name, without a value.
    Flag(&'a str, &'a str),
}

/// The log that a command reads.
const LOG: Argument<'static> = Argument::Input("LOG", "Log to read [default: standard input]");

/// An argument, as `clap` has it.
fn arg<'a>(alloc: Global, argument: Argument<'a>) -> Arg<'a>
    ensures rule { rule_of result ≡ argument_rule argument.entry }
    ensures own { result.global ≡ false }
{
    match argument {
        Argument::Input(value, help) => Arg::new(alloc, "log").value_name(value).help(help),
        Argument::Table => Arg::new(alloc, "table")
            .long("table")
            .value_name("F")
            .required(true)
            .help("TOML file with the table of PGNs and fields"),
        Argument::Value(name, value, help) => {
            Arg::new(alloc, name)
                .long(name)
                .value_name(value)
                .help(help)
        }
        Argument::Flag(name, help) => {
            Arg::new(alloc, name)
                .long(name)
                .action(ArgAction::SetTrue)
                .help(help)
        }
    }
}

/// A command with these arguments, the first one first.
fn command<'a>(
    alloc: Global,
    name: &'a str,
    about: &'a str,
    arguments: &[Argument<'a>],
) -> Result<Command<'a>, AllocError>
    ensures app { IfOk result (λ command. app_of command ≡ with_rules (new_app name.now) (map argument_rule arguments.now)) }
    ensures own { IfOk result (λ command. (fields_of command).has_globals ≡ false) }
{
    let mut command = Command::new(alloc, name).about(about);
    for argument in arguments {
        command = command.arg(arg(alloc, *argument))?;
    }
    Ok(command)
}

fn plain_command<'a>(alloc: Global) -> Result<Command<'a>, AllocError>
    ensures app { IfOk result (λ command. app_of command ≡ plain_app) }
    ensures own { IfOk result (λ command. (fields_of command).has_globals ≡ false) }
{
    let about = "Print each frame of a log as a plain line";
    command(alloc, "plain", about, &[LOG])
}

fn decode_command<'a>(alloc: Global) -> Result<Command<'a>, AllocError>
    ensures app { IfOk result (λ command. app_of command ≡ decode_app) }
    ensures own { IfOk result (λ command. (fields_of command).has_globals ≡ false) }
{
    let about = "Print each message of a log as a line of JSON";
    let resume = "Continue from the state in this file";
    let save = "Save the state after the log to this file (may be the file of --resume)";
    let window =
        "Discard a message that is not complete within W lines [32..1000000, default: 10000]";
    let in_order =
        "Discard a message when a frame is out of order (for logs recorded on the bus itself)";
    let arguments = [
        Argument::Table,
        Argument::Value("resume", "F", resume),
        Argument::Value("save", "F", save),
        Argument::Value("window", "W", window),
        Argument::Flag("in-order", in_order),
        Argument::Flag("empty", "Print absent fields as null"),
        Argument::Flag("whole", "Read every plain line as a whole message"),
        LOG,
    ];
    command(alloc, "decode", about, &arguments)
}

fn frames_command<'a>(alloc: Global) -> Result<Command<'a>, AllocError>
    ensures app { IfOk result (λ command. app_of command ≡ frames_app) }
    ensures own { IfOk result (λ command. (fields_of command).has_globals ≡ false) }
{
    let about = "Split the whole messages of a log into CAN frames";
    let help = "Print candump lines of this interface instead of plain lines";
    let candump = Argument::Value("candump", "IFACE", help);
    command(alloc, "frames", about, &[Argument::Table, candump, LOG])
}

fn encode_command<'a>(alloc: Global) -> Result<Command<'a>, AllocError>
    ensures app { IfOk result (λ command. app_of command ≡ encode_app) }
    ensures own { IfOk result (λ command. (fields_of command).has_globals ≡ false) }
{
    let about = "Convert each line of JSON to the plain line of a message";
    let help = "Round each number to the nearest value that its field can show";
    let nearest = Argument::Flag("nearest", help);
    let json = "Messages to read, each a line of JSON [default: standard input]";
    let input = Argument::Input("JSON", json);
    command(alloc, "encode", about, &[Argument::Table, nearest, input])
}

/// The program's command without its subcommands.
fn top<'a>(alloc: Global) -> Command<'a>
    ensures app { app_of result ≡ program_top }
    ensures own { (fields_of result).has_globals ≡ false }
{
    Command::new(alloc, "n2kdec")
        .about("Decode NMEA 2000 logs and live buses")
        .version(VERSION)
        .subcommand_required(true)
        .arg_required_else_help(true)
        .disable_help_subcommand(true)
}

/// The program's command, with its subcommands and their arguments.
pub fn program<'a>(alloc: Global) -> Result<Command<'a>, AllocError>
    ensures { IfOk result (λ command. app_of command ≡ program_app) }
{
    top(alloc)
        .subcommand(plain_command(alloc)?)?
        .subcommand(decode_command(alloc)?)?
        .subcommand(frames_command(alloc)?)?
        .subcommand(encode_command(alloc)?)
}
