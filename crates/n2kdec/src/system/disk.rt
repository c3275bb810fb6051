//! The system's files: the calls by which a state is kept.
ghost use Rattle.std.specs.Prelude.{◌≡◌, Option, IfSome, string_bytes};
ghost use Rattle.n2kdec.specs.System.Disk.{Acts, Answers, IsAnswer, IsAnswerUnlessMemory, acted, closed, noted, open_at, remove, rename};
ghost use Rattle.n2kdec.specs.System.Disk.{set_mode, sync, sync_folder, write};

use std::fs::OpenOptions;
use std::io;

/// What a path leads to, over links.
#[derive(Clone, Copy, PartialEq, Eq)]
pub struct Found {
    /// Whether it is a regular file.
    pub is_file: bool,
    /// Whether it is a folder.
    pub is_folder: bool,
    /// Whether it is a pipe (FIFO).
    pub is_pipe: bool,
    /// How many names it has.
    pub links: u64,
    /// Its type, and who may read, write and run it.
    pub mode: u32,
    /// The device that it is on.
    pub device: u64,
    /// Its number there.
    pub number: u64,
}

/// The system's files. At most one is open at a time. Each call makes one system call, and returns its result: an
/// error is the system's own, so that its cause can be reported. The ghost members say what a path leads to, and which
/// calls were made that may change that, if known.
pub trait Disk {
    ghost use Rattle.n2kdec.specs.declared.system.disk.Found.{Found};

    /// What it returns for paths, if known.
    ghost answers: { Self → Option Answers };

    /// The calls that may have changed it, if known.
    ghost acts: { Self → Acts };

    /// What a path leads to, over links.
    fn metadata(&self, path: &str) -> io::Result<Found>
        ensures { IfSome (answers self.now) (λ a. IsAnswer (λ found. found) (a.found path.now) result) };

    /// The text of the link at a path. `InvalidInput` if there is no link.
    fn read_link(&self, path: &str) -> io::Result<String>
        ensures { IfSome (answers self.now) (λ a. IsAnswerUnlessMemory string_bytes (a.link path.now) result) };

    /// The path after all links.
    fn canonicalize(&self, path: &str) -> io::Result<String>
        ensures { IfSome (answers self.now) (λ a. IsAnswerUnlessMemory string_bytes (a.real path.now) result) };

    /// Opens a file in this way.
    fn open(&mut self, path: &str, how: &OpenOptions) -> io::Result<()>
        ensures { acts self.new ≡ noted (acted (open_at path.now how.now) result) (acts self.old) };

    /// Gives the open file a mode.
    fn set_mode(&mut self, mode: u32) -> io::Result<()>
        ensures { acts self.new ≡ noted (acted (set_mode mode) result) (acts self.old) };

    /// Writes a text to the open file, whole.
    fn write(&mut self, text: &[u8]) -> io::Result<()>
        ensures { acts self.new ≡ noted (acted (write text.now) result) (acts self.old) };

    /// Syncs the content of the open file, so that a power cut leaves it.
    fn sync(&mut self) -> io::Result<()>
        ensures { acts self.new ≡ noted (acted sync result) (acts self.old) };

    /// Closes the open file.
    fn close(&mut self)
        ensures { acts self.new ≡ noted closed (acts self.old) };

    /// Gives what has a path another, in the place of what has that.
    fn rename(&mut self, from: &str, to: &str) -> io::Result<()>
        ensures { acts self.new ≡ noted (acted (rename from.now to.now) result) (acts self.old) };

    /// Takes a path from what has it.
    fn remove(&mut self, path: &str) -> io::Result<()>
        ensures { acts self.new ≡ noted (acted (remove path.now) result) (acts self.old) };

    /// Syncs the names in a folder, so that a power cut leaves them.
    fn sync_folder(&mut self, path: &str) -> io::Result<()>
        ensures { acts self.new ≡ noted (acted (sync_folder path.now) result) (acts self.old) };
}
