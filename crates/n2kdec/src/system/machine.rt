//! What the program meets: the words that were typed, files, and the standard streams.
ghost use Rattle.std.specs.Prelude.{◌≡◌, ◌⊎◌, ◌∷◌, [], None, IfErr, IfOk, IfSome, IsErrOf, map, string_bytes};
ghost use Rattle.n2k_run.specs.Device.{IsWhy};
ghost use Rattle.n2kdec.specs.Fault.Sentence.{SystemWords};
ghost use Rattle.n2kdec.specs.System.Machine.{Calls, IsTerminal, Makes, Opens, Environment, bytes_named};
ghost use Rattle.n2kdec.specs.declared.system.machine.FileCall.TheVariants.{Closed};

use crate::command_line::words::Word;
use crate::fault::Fault;
use n2k_run::{Sink, Source};
use std::alloc::{AllocError, Global};
use std::io;
use std::io::Error;

/// Where the program's texts go, each to a type of its own, so that one can't stand for the other.
#[derive(Drop)]
pub struct OutputStreams<W, E, K> {
    /// Standard output.
    pub output: W,
    /// Standard error.
    pub errors: E,
    /// What keeps a state.
    pub keeper: K,
}

/// A call by which a file is opened or closed.
#[derive(Debug, Drop)]
pub enum FileCall {
    /// The file of this name, or standard input, is opened; or it is not, by this error.
    Opened(Option<Word>, Option<Error>),
    /// A file is closed of which so many reads were made; the last that failed did by this error.
    Closed(u64, Option<Error>),
}

/// The environment of the program. A call returns the result of the system.
pub trait Machine {
    /// An open file, or standard input.
    type File: Source + Drop;

    /// Standard output.
    type Output: Sink + Drop;

    /// Standard error.
    type Errors: Sink + Drop;

    /// The arguments that were typed, and the bytes that can be read, if known. No call changes them.
    ghost world: { Self → Environment };

    /// The calls by which files were opened and closed, if known.
    ghost calls: { Self → Calls };

    /// The system's text for an error, if known.
    ghost words: { SystemWords };

    /// The arguments that were typed, the program's name first. `Words` if one is not UTF-8.
    fn typed(&self, alloc: Global) -> Result<Vec<String>, Fault>
        ensures words { IfOk result (λ words. IfSome (world self.now).typed
            (λ typed. map string_bytes words.items ≡ typed)) }
        ensures fault { IfErr result (λ fault. (fault ≡ Fault.Words) ⊎ (fault ≡ Fault.Memory None)) }
        ensures texts { IsErrOf result Fault.Words → (world self.now).typed ≡ None };

    /// Opens the file of this name, or standard input, which is refused only if memory is refused.
    fn open(&mut self, name: &Option<Word>) -> io::Result<Self::File>
        ensures same { world self.new ≡ world self.old }
        ensures bytes { IfOk result (λ file. Self.File.remaining file ≡ bytes_named (world self.old) name.now) }
        ensures none_called { IfOk result (λ file. Self.File.calls file ≡ 0) }
        ensures none_failed { IfOk result (λ file. Self.File.failed_calls file ≡ 0) }
        ensures calls { Opens name.now (calls self.old) (calls self.new) result };

    /// Closes a file, and returns the error of its last read that failed.
    fn close(&mut self, file: Self::File) -> Option<Error>
        ensures same { world self.new ≡ world self.old }
        ensures told { result ≡ Self.File.why file }
        ensures why { IsWhy (Self.File.failed_calls file) result }
        ensures calls { Makes (Closed (Self.File.calls file) result ∷ []) (calls self.old) (calls self.new) };

    /// Whether standard error is a terminal.
    fn is_terminal(&self) -> bool
        ensures { IsTerminal (world self.now) result };

    /// The error of the last call of the output that failed.
    fn failure(&self, output: &Self::Output) -> Option<Error>
        ensures told { result ≡ Self.Output.why output.now }
        ensures why { IsWhy (Self.Output.failed_calls output.now) result };

    /// The words that the system has for an error, as `No such file or directory`.
    fn words(&self, alloc: Global, error: &Error) -> Result<Word, AllocError>
        ensures { IfOk result (λ said. IfSome (words error.now) (λ known. said ≡ known)) };
}
