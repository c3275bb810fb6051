//! Where a state is kept after a run: the trait, and the files of a disk, by which the program does it.
ghost use Rattle.std.specs.Prelude.{◌≡◌, List, Option, Result, Some, IfSome};
ghost use Rattle.std.specs.Result.{result_err};
ghost use Rattle.clap.specs.Words.{Text};
ghost use Rattle.n2kdec.specs.Run.Commands.{SaveAttempt, Keeps};
ghost use Rattle.n2kdec.specs.System.Disk.{IsAnswerUnlessMemory};
ghost use Rattle.n2kdec.specs.Save.StateStore.{Admits, KeepsState, harms, meets, meets_files};
ghost use Rattle.n2kdec.specs.declared.command_line.asked.Files.{Files};
ghost use Rattle.n2kdec.specs.declared.save.keeper.SaveError.{SaveError};

use crate::command_line::asked::Files;
use crate::command_line::words::Word;
use crate::save::destination::{Kind, find, leads};
use crate::save::replacement::keep_text;
use crate::system::disk::Disk;
use n2k_run::Sink;
use std::alloc::Global;
use std::io;
use std::io::Error;

/// Why a state is not kept.
#[derive(Clone, Copy, Debug, thiserror::Error)]
pub enum SaveError {
    /// It would harm a file that the run reads or prints to. The log is not read then.
    #[error("this run reads or prints to this file, or to the new file beside it")]
    Harm,
    /// Where it goes can't be found out. The log is not read then.
    #[error("the state can't be saved")]
    Unfound(Error),
    /// A call failed by which it is kept.
    #[error("the state can't be saved")]
    Failed(Error),
}

/// A place that keeps the state after a run.
pub trait StateStore {
    /// What it was asked to keep, the first one first, if known.
    ghost kept: { Self → Option (List SaveAttempt) };

    /// Its result on whether a state of this name may be kept by a run of these files, if known. No call
    /// changes it.
    ghost admits: { Text → Files → Option (Result (Unit {0}) SaveError) };

    /// Whether a run of these files may keep a state under this name: not if a file that is read or printed to would be
    /// harmed.
    fn admit(&self, name: &str, files: &Files) -> Result<(), SaveError>
        ensures { IfSome (admits name.now files.now) (λ known. result ≡ known) };

    /// Keeps a state under this name, in the place of what the name has. An error if it can't, or can't be sure. The
    /// errors are lent, so that a keeper may note what they held then.
    fn keep<E: Sink>(&mut self, name: &str, state: &[u8], errors: &E) -> Result<(), SaveError>
        ensures { Keeps (Some name.now) (kept self.old) (kept self.new) state.now (E.contents errors.now)
            (result_err result) };
}

/// The file that standard input is.
const STANDARD_INPUT: &str = "/dev/stdin";

/// The file that standard output is.
const STANDARD_OUTPUT: &str = "/dev/stdout";

/// The file that standard error is.
const STANDARD_ERROR: &str = "/dev/stderr";

/// Whether the file and what this path leads to, if one is given, are one regular file or one pipe.
fn meets<D: Disk>(disk: &D, own: &str, path: &Option<Word>) -> bool
    ensures { IfSome (D.answers disk.now) (λ a. result ≡ meets a own.now path.now) }
{
    match path {
        Some(path) => leads(disk, true, own, path.as_str()),
        None => false,
    }
}

/// Whether the file at this path, of this kind, is the table, the log or standard error, to which the summary goes later;
/// or standard output, if the state isn't appended to it.
fn meets_files<D: Disk>(disk: &D, own: &str, kind: Kind, files: &Files) -> bool
    ensures { IfSome (D.answers disk.now) (λ a. result ≡ meets_files a own.now kind files.now) }
{
    let log = match &files.log {
        Some(log) => log.as_str(),
        None => STANDARD_INPUT,
    };
    meets(disk, own, &files.table)
        || leads(disk, true, own, log)
        || leads(disk, false, own, STANDARD_ERROR)
        || match kind {
            Kind::Special => false,
            Kind::Alone | Kind::Shared => leads(disk, false, own, STANDARD_OUTPUT),
        }
}

/// Whether a state of this name would harm what is read or printed to. Only the new file must not be the state to go on
/// from.
#[tactic(auto, unfolding(crate::specs::Save::StateStore::harms))]
fn harms<D: Disk>(alloc: Global, disk: &D, name: &str, files: &Files) -> io::Result<bool>
    ensures { IfSome (D.answers disk.now) (λ a. IsAnswerUnlessMemory (λ harms. harms) (harms a name.now files.now) result) }
{
    let to = find(alloc, disk, name)?;
    let temp = to.temp.as_str();
    Ok(
        meets_files(disk, to.target.as_str(), to.kind, files)
            || meets_files(disk, temp, Kind::Alone, files)
            || meets(disk, temp, &files.state),
    )
}

/// The files of a disk as a keeper: a state takes the place of what its name has, which may be the file of `--resume`.
#[derive(Drop)]
pub struct StateFiles<D> {
    alloc: Global,
    disk: D,
}

impl<D: Disk> StateFiles<D> {
    ghost use Rattle.std.specs.Prelude.{◌≡◌};

    /// The files of this disk.
    pub fn new(alloc: Global, disk: D) -> Self
        ensures { result.disk ≡ disk }
    {
        StateFiles { alloc, disk }
    }
}

impl<D: Disk> StateStore for StateFiles<D> {
    ghost use Rattle.std.specs.Prelude.{None};

    // What a file has, nothing says: which calls were made of the disk, `keep` does.
    ghost kept = { λ _. None };

    // Nor does anything say which paths lead to one file: `admit` finds that by what the disk returns.
    ghost admits = { λ _ _. None };

    fn admit(&self, name: &str, files: &Files) -> Result<(), SaveError>
        ensures harmless { Admits (D.answers self.now.disk) name.now files.now result }
    {
        match harms(self.alloc, &self.disk, name, files) {
            Ok(false) => Ok(()),
            Ok(true) => Err(SaveError::Harm),
            Err(error) => Err(SaveError::Unfound(error)),
        }
    }

    fn keep<E: Sink>(&mut self, name: &str, state: &[u8], _errors: &E) -> Result<(), SaveError>
        ensures calls { KeepsState (D.answers self.old.disk) (D.acts self.old.disk) (D.acts self.new.disk)
            name.now state.now result }
    {
        keep_text(self.alloc, &mut self.disk, name, state).map_err(SaveError::Failed)
    }
}
