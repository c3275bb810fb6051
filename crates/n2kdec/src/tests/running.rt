use crate::command_line::asked::ParsedArgs;
use crate::command_line::request;
use crate::fault::{Fault, exit_status, fault_text, status};
use crate::run::commands::run_command;
use crate::run::program::run;
use crate::save::keeper::SaveError;
use crate::system::machine::OutputStreams;
use crate::tests::memory_machine::{MemoryKeeper, MemoryMachine, Telling};
use n2k_join::{Counts, StateFault};
use n2k_run::{MemorySink, MemorySource};
use n2k_table::TableFault;
use std::alloc::{AllocError, AllocGlobal, Global};
use std::error::Error;
use std::process::{Abort, ExitCode};
use std::test::Fail;

/// Each fault, its line, and the status that goes with it.
const FAULTS: [(Fault, &str, u8); 29] = [
    (Fault::Words, "n2kdec: words\n", 2),
    (Fault::Interface, "n2kdec: interface\n", 2),
    (Fault::TableSize, "n2kdec: table size\n", 2),
    (Fault::StateSize, "n2kdec: state size\n", 2),
    (
        Fault::Table(TableFault::NotToml),
        "n2kdec: table 1 NotToml\n",
        2,
    ),
    (
        Fault::Table(TableFault::Format),
        "n2kdec: table 2 Format\n",
        2,
    ),
    (Fault::Table(TableFault::Key), "n2kdec: table 3 Key\n", 2),
    (
        Fault::Table(TableFault::Range),
        "n2kdec: table 4 Range\n",
        2,
    ),
    (Fault::Table(TableFault::Text), "n2kdec: table 5 Text\n", 2),
    (
        Fault::Table(TableFault::Twice),
        "n2kdec: table 6 Twice\n",
        2,
    ),
    (
        Fault::Table(TableFault::Lookup),
        "n2kdec: table 7 Lookup\n",
        2,
    ),
    (
        Fault::Table(TableFault::Mixed),
        "n2kdec: table 8 Mixed\n",
        2,
    ),
    (
        Fault::Table(TableFault::TooMany),
        "n2kdec: table 9 TooMany\n",
        2,
    ),
    (Fault::Table(TableFault::Memory), "n2kdec: memory\n", 3),
    (
        Fault::State(StateFault::NotJson, Ok(None)),
        "n2kdec: state 1 NotJson\n",
        2,
    ),
    (
        Fault::State(StateFault::Format, Ok(None)),
        "n2kdec: state 2 Format\n",
        2,
    ),
    (
        Fault::State(StateFault::Shape, Ok(None)),
        "n2kdec: state 3 Shape\n",
        2,
    ),
    (
        Fault::State(StateFault::TableDiffers, Ok(None)),
        "n2kdec: state 4 TableDiffers\n",
        2,
    ),
    (
        Fault::State(StateFault::Invalid, Ok(None)),
        "n2kdec: state 5 Invalid\n",
        2,
    ),
    (
        Fault::State(StateFault::WindowDiffers, Ok(None)),
        "n2kdec: state 7 WindowDiffers\n",
        2,
    ),
    (
        Fault::State(StateFault::Memory, Ok(None)),
        "n2kdec: memory\n",
        3,
    ),
    (Fault::TableFile(None), "n2kdec: table file\n", 3),
    (Fault::StateFile(None), "n2kdec: state file\n", 3),
    (Fault::Read(0, None, None), "n2kdec: read\n", 3),
    (Fault::Write(None), "n2kdec: write\n", 3),
    (Fault::Report, "n2kdec: report\n", 3),
    (Fault::Memory(None), "n2kdec: memory\n", 3),
    (Fault::Lines, "n2kdec: lines\n", 3),
    (Fault::Save(SaveError::Harm), "n2kdec: save\n", 3),
];

#[test]
fn each_fault_has_its_line_and_status(rt: HostRuntime) -> Result<(), Fail> {
    for (fault, line, code) in &FAULTS {
        let mut text = b"# ".to_vec(rt.alloc())?;
        fault_text(rt.alloc(), fault, &mut text)?;
        let expected = format!(in rt.alloc(); "# {line}")?;
        assert_eq!(rt; text.as_slice(), expected.as_bytes());
        assert_eq!(rt; status(fault), *code, "{line}");
    }
    Ok(())
}

#[test]
fn one_bad_line_gives_status_one(rt: HostRuntime) {
    let mut counts = Counts::NONE;
    counts.lines = 2;
    assert_eq!(rt; exit_status(&counts), 0);
    counts.bad = 1;
    assert_eq!(rt; exit_status(&counts), 1);
}

/// Words, and what they ask for.
const ASKED: [(&[&str], &str); 12] = [
    (
        &["n2kdec", "plain"],
        "Command(Command { files: Files { table: None, state: None, log: None }, \
            task: Plain })",
    ),
    (
        &["n2kdec", "plain", "trip.log"],
        "Command(Command { files: Files { table: None, state: None, log: Some(Word { text: \"trip.log\" }) }, \
            task: Plain })",
    ),
    (
        &["n2kdec", "plain", "--", "-x"],
        "Command(Command { files: Files { table: None, state: None, log: Some(Word { text: \"-x\" }) }, \
            task: Plain })",
    ),
    (
        &["n2kdec", "decode", "--table", "boat.toml"],
        "Command(Command { files: Files { table: Some(Word { text: \"boat.toml\" }), state: None, log: None }, \
            task: Decode { options: Options { packing: Frames, empty: false, \
            window: Window { lines: 10000, in_order: false } }, save: None } })",
    ),
    (
        &["n2kdec", "decode", "--table=boat.toml", "trip.log"],
        "Command(Command { files: Files { table: Some(Word { text: \"boat.toml\" }), state: None, log: Some(Word { text: \"trip.log\" }) }, \
            task: Decode { options: Options { packing: Frames, empty: false, \
            window: Window { lines: 10000, in_order: false } }, save: None } })",
    ),
    (
        &["n2kdec", "decode", "trip.log", "--table", "boat.toml"],
        "Command(Command { files: Files { table: Some(Word { text: \"boat.toml\" }), state: None, log: Some(Word { text: \"trip.log\" }) }, \
            task: Decode { options: Options { packing: Frames, empty: false, \
            window: Window { lines: 10000, in_order: false } }, save: None } })",
    ),
    (
        &[
            "n2kdec", "decode", "--whole", "--table", "t", "--empty", "l",
        ],
        "Command(Command { files: Files { table: Some(Word { text: \"t\" }), state: None, log: Some(Word { text: \"l\" }) }, \
            task: Decode { options: Options { packing: Whole, empty: true, \
            window: Window { lines: 10000, in_order: false } }, save: None } })",
    ),
    (
        &["n2kdec", "decode", "--table", "t", "--whole"],
        "Command(Command { files: Files { table: Some(Word { text: \"t\" }), state: None, log: None }, \
            task: Decode { options: Options { packing: Whole, empty: false, \
            window: Window { lines: 10000, in_order: false } }, save: None } })",
    ),
    (
        &[
            "n2kdec", "decode", "--save", "b", "--table", "t", "--resume", "a", "l",
        ],
        "Command(Command { files: Files { table: Some(Word { text: \"t\" }), state: Some(Word { text: \"a\" }), log: Some(Word { text: \"l\" }) }, \
            task: Decode { options: Options { packing: Frames, empty: false, \
            window: Window { lines: 10000, in_order: false } }, save: Some(Word { text: \"b\" }) } })",
    ),
    (
        &[
            "n2kdec",
            "decode",
            "--in-order",
            "--table",
            "t",
            "--window",
            "32",
        ],
        "Command(Command { files: Files { table: Some(Word { text: \"t\" }), state: None, log: None }, \
            task: Decode { options: Options { packing: Frames, empty: false, \
            window: Window { lines: 32, in_order: true } }, save: None } })",
    ),
    (
        &["n2kdec", "frames", "--table", "t"],
        "Command(Command { files: Files { table: Some(Word { text: \"t\" }), state: None, log: None }, \
            task: Frames(None) })",
    ),
    (
        &["n2kdec", "frames", "l", "--candump", "can0", "--table", "t"],
        "Command(Command { files: Files { table: Some(Word { text: \"t\" }), state: None, log: Some(Word { text: \"l\" }) }, \
            task: Frames(Some(Interface { name: Word { text: \"can0\" } })) })",
    ),
];

#[test]
fn words_name_a_command_and_its_files(rt: HostRuntime) -> Result<(), Fail> {
    for (given, command) in &ASKED {
        let text = format!(in rt.alloc(); "{:?}", request(rt.alloc(), given))?;
        assert_eq!(rt; text.as_str(), *command);
    }
    Ok(())
}

const REFUSED: [&[&str]; 25] = [
    &[],
    &["n2kdec"],
    &["n2kdec", "print"],
    &["n2kdec", "help"],
    &["n2kdec", "plain", "--version"],
    &["n2kdec", "--version=1"],
    &["n2kdec", "plain", "-x"],
    &["n2kdec", "plain", "--lines"],
    &["n2kdec", "plain", "--table", "boat.toml"],
    &["n2kdec", "plain", "trip.log", "other.log"],
    &["n2kdec", "decode"],
    &["n2kdec", "decode", "trip.log"],
    &["n2kdec", "decode", "--table"],
    &["n2kdec", "decode", "--table", "a", "--table", "b"],
    &["n2kdec", "decode", "--table", "a", "--empty", "--empty"],
    &["n2kdec", "decode", "--table", "a", "--empty=true"],
    &["n2kdec", "decode", "--table", "a", "--resume"],
    &["n2kdec", "decode", "--resume", "a", "--save", "b"],
    &["n2kdec", "decode", "--table", "a", "--candump", "can0"],
    &["n2kdec", "decode", "--table", "a", "--window", "31"],
    &["n2kdec", "decode", "--table", "a", "--window", "1000001"],
    &["n2kdec", "decode", "--table", "a", "--window", "+32"],
    &["n2kdec", "frames"],
    &["n2kdec", "frames", "--table", "a", "--candump"],
    &["n2kdec", "frames", "--table", "a", "--save", "b"],
];

#[test]
fn other_words_are_refused(rt: HostRuntime) {
    for given in &REFUSED {
        let answer = request(rt.alloc(), given);
        assert!(rt;
            matches!(&answer, ParsedArgs::Refused(Fault::Words, Some(Ok(_)))),
            "{given:?}: {answer:?}"
        );
    }
}

const ASKING_FOR_HELP: [&[&str]; 3] = [
    &["n2kdec", "--help"],
    &["n2kdec", "plain", "-h"],
    &["n2kdec", "decode", "--help"],
];

#[test]
fn help_is_no_fault(rt: HostRuntime) -> Result<(), Fail> {
    for given in &ASKING_FOR_HELP {
        let text = format!(in rt.alloc(); "{:?}", request(rt.alloc(), given))?;
        assert!(rt; text.as_str().starts_with("Help("));
        assert!(rt; text.as_str().contains("Usage: n2kdec"));
    }
    Ok(())
}

const ASKING_FOR_THE_VERSION: [&[&str]; 3] = [
    &["n2kdec", "--version"],
    &["n2kdec", "-V"],
    &["n2kdec", "--version", "plain"],
];

#[test]
fn the_version_is_no_fault(rt: HostRuntime) -> Result<(), Fail> {
    for given in &ASKING_FOR_THE_VERSION {
        let text = format!(in rt.alloc(); "{:?}", request(rt.alloc(), given))?;
        assert_eq!(rt; text.as_str(), "Help(Word { text: \"n2kdec 1.1.0\\n\" })");
    }
    Ok(())
}

#[test]
fn interfaces_are_judged(rt: HostRuntime) {
    for name in ["can0", "!", "fifteen-bytes-x"] {
        let given = ["n2kdec", "frames", "--table", "t", "--candump", name];
        let answer = request(rt.alloc(), &given);
        assert!(rt; matches!(answer, ParsedArgs::Command(_)));
    }
    for name in ["", "can 0", "sixteen-bytes-xx", "can\u{7f}", "kan\u{e4}le"] {
        let given = ["n2kdec", "frames", "--table", "t", "--candump", name];
        let answer = request(rt.alloc(), &given);
        assert!(rt; matches!(answer, ParsedArgs::Refused(Fault::Interface, None)));
    }
}

const TABLE: &str = "format = 1

[[lookup]]
name = \"Reference\"
entries = [[0, \"True\"], [1, \"Magnetic\"], [2, \"Error\"]]

[[pgn]]
number = 129026
kind = \"single\"
description = \"COG & SOG, Rapid Update\"
fields = [
  { name = \"SID\", kind = \"number\", at = 0, bits = 8 },
  { name = \"COG Reference\", kind = \"lookup\", at = 8, bits = 2, lookup = \"Reference\" },
  { name = \"COG\", kind = \"number\", at = 16, bits = 16, resolution = \"0.0001\" },
  { name = \"SOG\", kind = \"number\", at = 32, bits = 16, resolution = \"0.01\" },
]

[[pgn]]
number = 127251
kind = \"single\"
description = \"Rate of Turn\"
fields = [
  { name = \"SID\", kind = \"number\", at = 0, bits = 8 },
  { name = \"Rate\", kind = \"number\", at = 8, bits = 32, signed = true, resolution = \"0.00000003125\" },
]

[[pgn]]
number = 130820
kind = \"fast\"
description = \"Sample: Label\"
fields = [
  { name = \"Maker\", kind = \"number\", at = 0, bits = 11, match = 419 },
  { name = \"Kind\", kind = \"number\", at = 16, bits = 8 },
  { name = \"Label\", kind = \"text\", at = 24, bits = 64 },
]
";

/// Words, the state and the log that go with them, what is printed, and the state that is left.
#[derive(Drop)]
struct Example {
    words: &'static [&'static str],
    state: Option<&'static str>,
    log: &'static str,
    text: &'static str,
    left: &'static str,
}

const COG_AND_SOG: &str = "(1502979132.106111) can0 09F8027F#00FCFFFF0000FFFF\n";

const ONE_MESSAGE: &str =
    "{\"bad\":0,\"broken\":0,\"format\":2,\"groups\":[],\"lines\":1,\"messages\":1,\
        \"table\":\"6b85e2b24165c1cf1b657bbddd71b3850cd65dafaf42319db5372fef7b615284\",\"unknown\":0,\
        \"window\":10000}";

const EXAMPLES: [Example; 6] = [
    // cog-and-sog
    Example {
        words: &["n2kdec", "plain"],
        state: None,
        log: COG_AND_SOG,
        text: "2017-08-17T14:12:12.106Z,2,129026,127,255,8,00,fc,ff,ff,00,00,ff,ff\n",
        left: "",
    },
    Example {
        words: &["n2kdec", "decode", "--save", "s", "--table", "t"],
        state: None,
        log: COG_AND_SOG,
        text: "{\"timestamp\":\"2017-08-17T14:12:12.106Z\",\"prio\":2,\"src\":127,\"dst\":255,\"pgn\":129026,\
            \"description\":\"COG & SOG, Rapid Update\",\"fields\":{\"SID\":0,\"COG Reference\":\"True\",\
            \"SOG\":0.00}}\n",
        left: ONE_MESSAGE,
    },
    Example {
        words: &["n2kdec", "decode", "--save", "s", "--table", "t", "--empty"],
        state: None,
        log: COG_AND_SOG,
        text: "{\"timestamp\":\"2017-08-17T14:12:12.106Z\",\"prio\":2,\"src\":127,\"dst\":255,\"pgn\":129026,\
            \"description\":\"COG & SOG, Rapid Update\",\"fields\":{\"SID\":0,\"COG Reference\":\"True\",\
            \"COG\":null,\"SOG\":0.00}}\n",
        left: ONE_MESSAGE,
    },
    // two-sources-cut, after the second line
    Example {
        words: &[
            "n2kdec", "decode", "--save", "s", "--table", "t", "--resume", "s",
        ],
        state: Some(
            "{\"bad\":0,\"broken\":0,\"format\":1,\"groups\":[{\"dst\":255,\"first\":1,\"frames\":[[0,\
                \"0ba39901414243\"]],\"pgn\":130820,\"seq\":0,\"src\":5},{\"dst\":255,\"first\":2,\
                \"frames\":[[0,\"0ba39902585920\"]],\"pgn\":130820,\"seq\":1,\"src\":6}],\"lines\":2,\
                \"messages\":0,\"table\":\"6b85e2b24165c1cf1b657bbddd71b3850cd65dafaf42319db5372fef7b615284\",\
                \"unknown\":0}",
        ),
        log: "(10.200000) can0 1DFF0406#212020202020FFFF
(10.300000) can0 1DFF0405#010000000000FFFF
",
        text: "{\"timestamp\":\"1970-01-01T00:00:10.200Z\",\"prio\":7,\"src\":6,\"dst\":255,\"pgn\":130820,\
            \"description\":\"Sample: Label\",\"fields\":{\"Maker\":419,\"Kind\":2,\"Label\":\"XY\"}}
{\"timestamp\":\"1970-01-01T00:00:10.300Z\",\"prio\":7,\"src\":5,\"dst\":255,\"pgn\":130820,\
        \"description\":\"Sample: Label\",\"fields\":{\"Maker\":419,\"Kind\":1,\"Label\":\"ABC\"}}
",
        left: "{\"bad\":0,\"broken\":0,\"format\":2,\"groups\":[],\"lines\":4,\"messages\":2,\
            \"table\":\"6b85e2b24165c1cf1b657bbddd71b3850cd65dafaf42319db5372fef7b615284\",\"unknown\":0,\
            \"window\":10000}",
    },
    // whole-among-frames, its last line
    Example {
        words: &["n2kdec", "decode", "--save", "s", "--table", "t", "--whole"],
        state: None,
        log: "2020-01-01T00:00:00.000Z,7,130820,5,255,6,a3,99,01,41,42,43\n",
        text: "{\"timestamp\":\"2020-01-01T00:00:00.000Z\",\"prio\":7,\"src\":5,\"dst\":255,\"pgn\":130820,\
            \"description\":\"Sample: Label\",\"fields\":{\"Maker\":419,\"Kind\":1}}\n",
        left: ONE_MESSAGE,
    },
    // split-and-back
    Example {
        words: &["n2kdec", "frames", "--table", "t", "--candump", "can0"],
        state: None,
        log: "1970-01-01T00:00:10.300Z,7,130820,5,255,11,a3,99,01,41,42,43,00,00,00,00,00\n",
        text: "(0000000010.300000) can0 1DFF0405#000BA39901414243
(0000000010.300000) can0 1DFF0405#010000000000FFFF
",
        left: "",
    },
];

/// The command of an example's arguments, over devices in memory.
fn performs<R: Abort + AllocGlobal>(rt: &R, table: &[u8], example: &Example) -> Result<(), Fail> {
    let alloc = rt.alloc();
    let ParsedArgs::Command(command) = request(alloc, example.words) else {
        return Err("a command was named".into());
    };
    let state = example.state.map(|text| text.as_bytes());
    let mut log = MemorySource::new(example.log.as_bytes(), 100, 0);
    let mut outlets = OutputStreams {
        output: MemorySink::new(alloc, 100, 0),
        errors: MemorySink::new(alloc, 100, 0),
        keeper: MemoryKeeper::new(alloc),
    };
    let ended = run_command(alloc, &command.task, table, state, &mut log, &mut outlets);
    assert!(rt; matches!(ended, Ok(Counts { bad: 0, .. })));
    assert_eq!(rt; outlets.output.bytes(), example.text.as_bytes());
    let kept = format!(in alloc; "{:?}", outlets.keeper.kept)?;
    let left = match example.left {
        "" => format!(in alloc; "Some([])")?,
        text => format!(in alloc; "Some([(\"s\", {:?})])", text.as_bytes())?,
    };
    assert_eq!(rt; kept.as_str(), left.as_str());
    Ok(())
}

#[test]
fn commands_are_performed(rt: HostRuntime) -> Result<(), Fail> {
    for example in &EXAMPLES {
        performs(&rt, TABLE.as_bytes(), example)?;
    }
    Ok(())
}

const TYPED: [&str; 8] = [
    "n2kdec", "decode", "--empty", "--table", "t", "--save", "s", "l",
];

const FILES: [(&str, &str); 2] = [("l", COG_AND_SOG), ("t", TABLE)];

/// What was typed, over a machine in memory: the table and the log are the files that are named, and the state is kept
/// under its name. A file that can't be read is reported if a call on it fails, or if it doesn't exist.
#[test]
fn what_was_typed_is_run(rt: HostRuntime) -> Result<(), Fail> {
    let alloc = rt.alloc();
    let mut machine = MemoryMachine::new(alloc, &TYPED, &FILES);
    let mut outlets = OutputStreams {
        output: Telling::new(MemorySink::new(alloc, 100, 0)),
        errors: MemorySink::new(alloc, 100, 0),
        keeper: MemoryKeeper::new(alloc),
    };
    assert_eq!(rt; run(alloc, &mut machine, &mut outlets).0, ExitCode::SUCCESS);
    assert_eq!(rt; outlets.output.device.bytes(), EXAMPLES[2].text.as_bytes());
    let kept = format!(in alloc; "{:?}", outlets.keeper.kept)?;
    let expected = format!(in alloc; "Some([(\"s\", {:?})])", ONE_MESSAGE.as_bytes())?;
    assert_eq!(rt; kept.as_str(), expected.as_str());
    let calls = format!(in alloc; "{:?}", machine.calls)?;
    assert_eq!(rt;
        calls.as_str(),
        "Some([Opened(Some(Word { text: \"t\" }), None), Closed(11, None), \
            Opened(Some(Word { text: \"l\" }), None), Closed(2, None)])"
    );
    machine.calls = Some(Vec::new(alloc));
    machine.fails_at = 2;
    assert_eq!(rt; run(alloc, &mut machine, &mut outlets).0, ExitCode::from(3));
    assert!(rt; outlets.errors.bytes().ends_with(b"n2kdec: table file\n"));
    let calls = format!(in alloc; "{:?}", machine.calls)?;
    assert_eq!(rt;
        calls.as_str(),
        "Some([Opened(Some(Word { text: \"t\" }), None), Closed(2, Some(Kind(Other)))])"
    );
    let kept = format!(in alloc; "{:?}", outlets.keeper.kept)?;
    assert_eq!(rt; kept.as_str(), expected.as_str());
    Ok(())
}

/// Words, the number of the call of each file that fails, and what the terminal then shows.
const SAID: [(&[&str], u64, &str); 5] = [
    (
        &["n2kdec", "xyzzy"],
        0,
        "error: unrecognized subcommand 'xyzzy'\n\nUsage: n2kdec <COMMAND>\n\n\
            For more information, try '--help'.\nn2kdec: words\n",
    ),
    (
        &["n2kdec", "plain", "missing"],
        0,
        "n2kdec: missing: there is none\nn2kdec: read\n",
    ),
    // The table takes two calls, the log more: the third fails, after three lines.
    (
        &["n2kdec", "decode", "--table", "none", "--save", "s", "five"],
        3,
        "lines 3 messages 0 bad 0 unknown 3 broken 0 open 0\nn2kdec: five: it failed (after line 3)\nn2kdec: read\n",
    ),
    (
        &["n2kdec", "decode", "--table", "t", "--resume", "zeros", "l"],
        0,
        "n2kdec: zeros: the state was saved under another table (SHA-256 \
            0000000000000000000000000000000000000000000000000000000000000000; that of t is \
            6b85e2b24165c1cf1b657bbddd71b3850cd65dafaf42319db5372fef7b615284); use the saved one, or start \
            without --resume\nn2kdec: state 4 TableDiffers\n",
    ),
    (
        &[
            "n2kdec", "decode", "--table", "t", "--resume", "s", "--save", "s", "--window",
            "10000", "--empty", "--whole", "l",
        ],
        0,
        "lines 2 messages 2 bad 0 unknown 0 broken 0 open 0\n",
    ),
];

const FIVE: &str = "(1502979132.106111) can0 09F8027F#00FCFFFF0000FFFF
(1502979132.106111) can0 09F8027F#00FCFFFF0000FFFF
(1502979132.106111) can0 09F8027F#00FCFFFF0000FFFF
(1502979132.106111) can0 09F8027F#00FCFFFF0000FFFF
(1502979132.106111) can0 09F8027F#00FCFFFF0000FFFF
";

const ZEROS: &str = "{\"bad\":0,\"broken\":0,\"format\":1,\"groups\":[],\"lines\":0,\"messages\":0,\
    \"table\":\"0000000000000000000000000000000000000000000000000000000000000000\",\"unknown\":0}";

const READ: [(&str, &str); 6] = [
    ("l", COG_AND_SOG),
    ("t", TABLE),
    ("none", "format = 1"),
    ("five", FIVE),
    ("s", ONE_MESSAGE),
    ("zeros", ZEROS),
];

/// With ample memory no call reports that memory is refused: each fault has its sentence.
#[test]
fn with_memory_all_is_said(rt: HostRuntime) -> Result<(), Fail> {
    let alloc = rt.alloc();
    for (words, fails_at, said) in &SAID {
        let mut machine = MemoryMachine::new(alloc, words, &READ);
        machine.terminal = true;
        machine.fails_at = *fails_at;
        let mut outlets = OutputStreams {
            output: Telling::new(MemorySink::new(alloc, 100, 0)),
            errors: MemorySink::new(alloc, 100, 0),
            keeper: MemoryKeeper::new(alloc),
        };
        let (_, memory) = run(alloc, &mut machine, &mut outlets);
        assert!(rt; memory.is_ok());
        assert_eq!(rt; outlets.errors.bytes(), said.as_bytes(), "{words:?}");
    }
    Ok(())
}

/// A fault is an error with words, which say on a terminal what is wrong.
fn words_of<E: Error>(alloc: Global, fault: &E) -> Result<String, AllocError> {
    fault.to_string(alloc)
}

#[test]
fn each_fault_has_words(rt: HostRuntime) -> Result<(), Fail> {
    for (fault, words) in [
        (Fault::Lines, "over 999999999999999 lines"),
        (
            Fault::Table(TableFault::Mixed),
            "two definitions of one PGN have different kinds",
        ),
        (
            Fault::State(StateFault::Shape, Ok(None)),
            "a member is missing or unknown, or its value is of another kind",
        ),
        (
            Fault::Save(SaveError::Harm),
            "this run reads or prints to this file, or to the new file beside it",
        ),
    ] {
        let said = words_of(rt.alloc(), &fault)?;
        assert_eq!(rt; said.as_str(), words);
    }
    Ok(())
}
