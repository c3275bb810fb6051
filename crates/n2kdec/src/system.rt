//! The system as a machine. It is what is trusted: what was typed, which bytes a file of the system has and what
//! becomes of those that are written, no contract says.
ghost use Rattle.n2kdec.specs.System.Machine.{unknown_world};

pub mod disk;
pub mod machine;
pub mod reader;
pub mod system_disk;

use crate::command_line::words::Word;
use crate::fault::Fault;
use crate::fault::reason::words_of;
use crate::system::machine::Machine;
use crate::system::reader::Reader;
use n2k_run::{StdSink, StdSource};
use std::alloc::{AllocError, Global};
use std::fs::File;
use std::io::{Error, ErrorKind, IsTerminal, Stderr, Stdin, Stdout};
use std::os::fd::{AsFd, IntoRawFd};
use std::{env, fs, io};

/// The system's error number for a descriptor that is not open (EBADF).
const NOT_OPEN: i32 = 9;

/// If a standard stream is closed, opens the root folder as its descriptor and leaves the folder open. The descriptors
/// below it have to be open: the system gives a file the lowest free one. Each read or write of the stream still fails,
/// also through a path such as `/dev/stdout`.
fn hold<S: AsFd>(rt: &HostRuntime, stream: &S) -> io::Result<()> {
    match stream.as_fd().try_clone_to_owned() {
        Err(error) if error.raw_os_error() == Some(NOT_OPEN) => {
            let _ = fs::open(rt, "/")?.into_raw_fd();
            Ok(())
        }
        _ => Ok(()),
    }
}

/// Holds the descriptors of standard input, output and error, so that no file that is opened later gets one of them. An
/// error if a closed one can't be held.
pub fn hold_standard_streams(rt: &HostRuntime) -> Result<(), Fault> {
    hold(rt, &rt.stdin()).map_err(|why| Fault::Read(0, Some(why), None))?;
    hold(rt, &rt.stdout()).map_err(|why| Fault::Write(Some(why)))?;
    hold(rt, &rt.stderr()).map_err(|_| Fault::Report)
}

/// The running process.
#[derive(Drop)]
pub struct System<'a> {
    rt: &'a HostRuntime,
}

impl<'a> System<'a> {
    /// The process of this runtime.
    pub fn new(rt: &'a HostRuntime) -> Self {
        System { rt }
    }
}

impl<'a> Machine for System<'a> {
    type File = Reader<StdSource<File>, StdSource<Stdin>>;

    type Output = StdSink<Stdout>;

    type Errors = StdSink<Stderr>;

    ghost use Rattle.std.specs.Prelude.{None};

    ghost world = { λ _. unknown_world };

    ghost calls = { λ _. None };

    ghost words = { λ _. None };

    fn typed(&self, alloc: Global) -> Result<Vec<String>, Fault> {
        match env::args(self.rt) {
            Ok(given) => Ok(given.collect(alloc)?),
            Err(error) if error.kind() == ErrorKind::OutOfMemory => Err(Fault::Memory(None)),
            Err(_) => Err(Fault::Words),
        }
    }

    fn open(&mut self, name: &Option<Word>) -> io::Result<Self::File> {
        match name {
            Some(name) => Ok(Reader::File(StdSource::new(fs::open(self.rt, name.as_str())?))),
            None => Ok(Reader::Input(StdSource::new(self.rt.stdin()))),
        }
    }

    fn close(&mut self, file: Self::File) -> Option<Error> {
        file.failure()
    }

    fn is_terminal(&self) -> bool {
        self.rt.stderr().is_terminal()
    }

    fn failure(&self, output: &Self::Output) -> Option<Error> {
        output.failure()
    }

    fn words(&self, alloc: Global, error: &Error) -> Result<Word, AllocError> {
        words_of(alloc, error)
    }
}
