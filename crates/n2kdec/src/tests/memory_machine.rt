//! A machine in memory, for tests.
ghost use Rattle.std.specs.Prelude.{◌≡◌, ◌∷◌, ◌++◌, [], IfOk, OnOk, map, option_map, string_bytes};
ghost use Rattle.clap.specs.Walk.{texts};
ghost use Rattle.n2kdec.specs.System.Machine.{Makes};
ghost use Rattle.n2kdec.specs.Tests.MemoryMachine.{bytes_under, kept_text, why_of, words_of};
ghost use Rattle.n2kdec.specs.declared.system.machine.FileCall.TheVariants.{Opened};

use crate::command_line::asked::Files;
use crate::command_line::words::Word;
use crate::fault::Fault;
use crate::save::keeper::{SaveError, StateStore};
use crate::system::machine::{FileCall, Machine};
use n2k_run::{Failed, MemorySink, MemorySource, Sink, Source};
use std::alloc::{AllocError, Global};
use std::io;
use std::io::{Error, ErrorKind};

/// How many bytes a call of a device moves at most.
const CHUNK: usize = 100;

/// The text of the first file of this name.
fn text_under<'a>(files: &[(&'a str, &'a str)], name: &str) -> Option<&'a str>
    ensures { option_map (λ text. text.now) result ≡ bytes_under name.now files.now }
{
    for (own, text) in files {
        if *own == name {
            return Some(text);
        }
    }
    None
}

/// Notes a call of files. Where memory for it is refused, the calls are known no more.
fn note(calls: &mut Option<Vec<FileCall>>, call: FileCall)
    ensures { Makes (call ∷ []) (option_map (λ all. all.items) calls.old)
        (option_map (λ all. all.items) calls.new) }
{
    let Some(mut all) = calls.take() else {
        return;
    };
    if all.push(call).is_ok() {
        *calls = Some(all);
    }
}

/// Notes so that the file of this name is opened, or is not, by this error.
fn note_opened(alloc: Global, calls: &mut Option<Vec<FileCall>>, name: &Word, why: Option<Error>)
    ensures { Makes (Opened (Some name.now) why ∷ []) (option_map (λ all. all.items) calls.old)
        (option_map (λ all. all.items) calls.new) }
{
    match Word::new(alloc, name.as_str()) {
        Ok(name) => note(calls, FileCall::Opened(Some(name), why)),
        Err(_) => *calls = None,
    }
}

/// What is said of an error of this kind.
fn words_of(kind: ErrorKind) -> &'static str
    ensures { result.now ≡ words_of kind }
{
    match kind {
        ErrorKind::NotFound => "there is none",
        _ => "it failed",
    }
}

/// Copies of texts.
fn copies(alloc: Global, words: &[&str]) -> Result<Vec<String>, AllocError>
    ensures { IfOk result (λ all. map string_bytes all.items ≡ texts words.now) }
{
    let mut all = Vec::new(alloc);
    for text in words {
        all.push(String::from_str(alloc, text)?)?;
    }
    Ok(all)
}

/// A device in memory, whose failed calls have an error.
#[derive(Drop)]
pub struct Telling<D> {
    /// The device.
    pub device: D,
    calls: u64,
    failed_calls: u64,
    error: Error,
}

impl<D> Telling<D> {
    ghost use Rattle.std.specs.Prelude.{◌≡◌, Some};

    /// A device of which no call was made.
    pub fn new(device: D) -> Self
        ensures device { result.device ≡ device }
        ensures none_called { result.calls ≡ 0 }
        ensures none_failed { result.failed_calls ≡ 0 }
    {
        Telling {
            device,
            calls: 0,
            failed_calls: 0,
            error: Error::from(ErrorKind::Other),
        }
    }

    /// Why the last call failed that did.
    fn failure(&self) -> Option<Error>
        ensures { result ≡ why_of self.now.failed_calls self.now.error }
    {
        if self.failed_calls == 0 {
            None
        } else {
            Some(self.error)
        }
    }
}

impl<D: Source> Source for Telling<D> {
    ghost calls = { λ t. t.calls };

    ghost failed_calls = { λ t. t.failed_calls };

    ghost why = { λ t. why_of t.failed_calls t.error };

    ghost remaining = { λ t. D.remaining t.device };

    fn read(&mut self, buffer: &mut [u8]) -> Result<usize, Failed> {
        let answer = self.device.read(buffer);
        self.calls = self.calls.saturating_add(1);
        if answer.is_err() {
            self.failed_calls = self.failed_calls.saturating_add(1);
        }
        answer
    }
}

impl<D: Sink> Sink for Telling<D> {
    ghost failed_calls = { λ t. t.failed_calls };

    ghost why = { λ t. why_of t.failed_calls t.error };

    ghost contents = { λ t. D.contents t.device };

    fn write(&mut self, bytes: &[u8]) -> Result<usize, Failed> {
        let answer = self.device.write(bytes);
        if answer.is_err() {
            self.failed_calls = self.failed_calls.saturating_add(1);
        }
        answer
    }
}

/// A machine with these words typed, these files, of two of one name the first, and these bytes to its input.
#[derive(Drop)]
pub struct MemoryMachine<'a> {
    alloc: Global,
    /// The words, the program's name first.
    pub words: &'a [&'a str],
    /// The files, each after its name.
    pub files: &'a [(&'a str, &'a str)],
    /// What the input has.
    pub input: &'a str,
    /// Whether its errors are a terminal.
    pub terminal: bool,
    /// The number of the call of each file that fails; 0 is none.
    pub fails_at: u64,
    /// The calls of files, unless memory for them was refused.
    pub calls: Option<Vec<FileCall>>,
}

impl<'a> MemoryMachine<'a> {
    ghost use Rattle.std.specs.Prelude.{[], Some};

    /// One of which no file was opened, with no input and no terminal, and no file of which fails.
    pub fn new(
        alloc: Global,
        words: &'a [&'a str],
        files: &'a [(&'a str, &'a str)],
    ) -> MemoryMachine<'a>
        ensures { option_map (λ all. all.items) result.calls ≡ Some [] }
    {
        MemoryMachine {
            alloc,
            words,
            files,
            input: "",
            terminal: false,
            fails_at: 0,
            calls: Some(Vec::new(alloc)),
        }
    }
}

impl<'a> Machine for MemoryMachine<'a> {
    ghost use Rattle.std.specs.Prelude.{Some, None};
    ghost use Rattle.std.specs.IoError.{error_kind};

    type File = Telling<MemorySource<'a>>;

    type Output = Telling<MemorySink>;

    type Errors = MemorySink;

    ghost world = { λ m. record {
      typed = Some (texts m.words.now);
      file = λ name. bytes_under name m.files.now;
      input = Some m.input.now;
      terminal = Some m.terminal;
    } };

    ghost calls = { λ m. option_map (λ all. all.items) m.calls };

    ghost words = { λ error. Some (words_of (error_kind error)) };

    fn typed(&self, alloc: Global) -> Result<Vec<String>, Fault> {
        Ok(copies(alloc, self.words)?)
    }

    fn open(&mut self, name: &Option<Word>) -> io::Result<Self::File> {
        let Some(name) = name else {
            note(&mut self.calls, FileCall::Opened(None, None));
            return Ok(Telling::new(MemorySource::new(self.input.as_bytes(), CHUNK, self.fails_at)));
        };
        match text_under(self.files, name.as_str()) {
            Some(text) => {
                note_opened(self.alloc, &mut self.calls, name, None);
                Ok(Telling::new(MemorySource::new(text.as_bytes(), CHUNK, self.fails_at)))
            }
            None => {
                let error = Error::from(ErrorKind::NotFound);
                note_opened(self.alloc, &mut self.calls, name, Some(error));
                Err(error)
            }
        }
    }

    fn close(&mut self, file: Self::File) -> Option<Error> {
        let why = file.failure();
        note(&mut self.calls, FileCall::Closed(file.calls, why));
        why
    }

    fn is_terminal(&self) -> bool {
        self.terminal
    }

    fn failure(&self, output: &Self::Output) -> Option<Error> {
        output.failure()
    }

    fn words(&self, alloc: Global, error: &Error) -> Result<Word, AllocError> {
        Word::new(alloc, words_of(error.kind()))
    }
}

/// Adds a text that is kept under a name.
fn push(
    alloc: Global,
    kept: &mut Vec<(String, Vec<u8>)>,
    name: &str,
    text: &[u8],
) -> Result<(), AllocError>
    ensures { OnOk result (map (λ k. kept_text (string_bytes k.0) k.1.items) kept.new.items
        ≡ map (λ k. kept_text (string_bytes k.0) k.1.items) kept.old.items ++ kept_text name.now text.now ∷ []) }
{
    let one = (String::from_str(alloc, name)?, text.to_vec(alloc)?);
    kept.push(one)?;
    Ok(())
}

/// A keeper in memory.
#[derive(Drop)]
pub struct MemoryKeeper {
    alloc: Global,
    /// What was saved, each text after its name, unless memory for one was refused.
    pub kept: Option<Vec<(String, Vec<u8>)>>,
}

impl MemoryKeeper {
    ghost use Rattle.std.specs.Prelude.{[], Some};

    /// A keeper that has kept nothing.
    pub fn new(alloc: Global) -> Self
        ensures { option_map (λ all. all.items) result.kept ≡ Some [] }
    {
        MemoryKeeper {
            alloc,
            kept: Some(Vec::new(alloc)),
        }
    }
}

impl StateStore for MemoryKeeper {
    ghost use Rattle.std.specs.Prelude.{Ok, Some};

    // What the errors held is not noted.
    ghost kept = { λ s. option_map (λ all. map (λ k. kept_text (string_bytes k.0) k.1.items) all.items) s.kept };

    ghost admits = { λ _ _. Some (Ok tt) };

    fn admit(&self, _name: &str, _files: &Files) -> Result<(), SaveError> {
        Ok(())
    }

    fn keep<E: Sink>(&mut self, name: &str, state: &[u8], _errors: &E) -> Result<(), SaveError> {
        let refused = SaveError::Failed(Error::from(ErrorKind::OutOfMemory));
        let Some(mut all) = self.kept.take() else {
            return Err(refused);
        };
        if push(self.alloc, &mut all, name, state).is_err() {
            return Err(refused);
        }
        self.kept = Some(all);
        Ok(())
    }
}
