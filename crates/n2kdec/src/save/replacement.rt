//! How a text comes to a name: it is written beside the old one and takes its name, or it is written over it.
#![tactic(auto, using(crate::proofs::save::Making::steps, crate::proofs::save::Making::kept_nowhere))]

ghost use Rattle.std.specs.Prelude.{◌≡◌, option_map};
ghost use Rattle.n2kdec.specs.System.Disk.{failure, kind_of, remove, rename, sync_folder, write};
ghost use Rattle.n2kdec.specs.Save.Folder.{Target, Temp, is_refusal, is_taken};
ghost use Rattle.n2kdec.specs.Save.Replacement.{Closes, IsAppended, IsKept, IsMade, IsOne, KeepsText, Makes, Overwrites};
ghost use Rattle.n2kdec.specs.Save.Replacement.{RenamesIntoPlace, SetsMode, WritesContent, empty, failed, judged, make};

use crate::save::destination::{Destination, Kind, find, folder_of};
use crate::system::disk::Disk;
use std::alloc::Global;
use std::fs::OpenOptions;
use std::io;
use std::io::{Error, ErrorKind};

/// Why a new file has not come to a name.
#[derive(Clone, Copy)]
pub enum ReplaceError {
    /// The folder doesn't allow it, or the file has other names. Nothing is done to that.
    Refused,
    /// The call failed. It may be done, done in part, or not done.
    Failed(Error),
}

/// Whether a folder doesn't allow what was asked of it. By any other kind of error the call failed.
fn is_refusal(why: ErrorKind) -> bool
    ensures { result ≡ is_refusal why }
{
    matches!(
        why,
        ErrorKind::PermissionDenied
            | ErrorKind::ReadOnlyFilesystem
            | ErrorKind::InvalidFilename
            | ErrorKind::ResourceBusy
            | ErrorKind::IsADirectory
    )
}

/// What comes of a call that the folder may not allow.
fn judged(answer: io::Result<()>) -> Result<(), ReplaceError>
    ensures { result ≡ judged answer }
{
    match answer {
        Ok(()) => Ok(()),
        Err(error) if is_refusal(error.kind()) => Err(ReplaceError::Refused),
        Err(error) => Err(ReplaceError::Failed(error)),
    }
}

/// Makes the new file. A link of its name is not followed.
fn make_new<D: Disk>(disk: &mut D, to: &Destination) -> io::Result<()>
    ensures { Makes to.now (D.acts disk.old) (D.acts disk.new) (IsOne make) result }
{
    disk.open(
        to.temp.as_str(),
        OpenOptions::new().write(true).create_new(true),
    )
}

/// Takes the new file away.
fn remove_new<D: Disk>(disk: &mut D, to: &Destination) -> io::Result<()>
    ensures { Makes to.now (D.acts disk.old) (D.acts disk.new) (IsOne (remove Temp)) result }
{
    disk.remove(to.temp.as_str())
}

/// Opens the file that is there to write to it, or makes it, and takes away what it has. Its other names stay. A file that
/// is there is opened as it is: some folders let only its owner open it with a right to make it.
fn empty<D: Disk>(disk: &mut D, to: &Destination) -> io::Result<()>
    ensures { Makes to.now (D.acts disk.old) (D.acts disk.new) (IsOne (empty to.now)) result }
{
    let is_new = to.mode.is_none();
    disk.open(
        to.target.as_str(),
        OpenOptions::new().write(true).truncate(true).create(is_new),
    )
}

/// Whether something has the path of a new file.
fn is_taken(answer: &io::Result<()>) -> bool
    ensures { result ≡ is_taken (option_map kind_of (failure answer.now)) }
{
    match answer {
        Ok(()) => false,
        Err(error) => matches!(error.kind(), ErrorKind::AlreadyExists),
    }
}

/// Makes the new file, also if a power cut left something under its path.
fn make<D: Disk>(disk: &mut D, to: &Destination) -> Result<(), ReplaceError>
    ensures { Makes to.now (D.acts disk.old) (D.acts disk.new) IsMade result }
{
    let answer = make_new(disk, to);
    if !is_taken(&answer) {
        return judged(answer);
    }
    judged(remove_new(disk, to))?;
    make_new(disk, to).map_err(ReplaceError::Failed)
}

/// Gives the open file these permissions, if some are given.
fn set_mode<D: Disk>(disk: &mut D, to: &Destination, mode: Option<u32>) -> io::Result<()>
    ensures { Makes to.now (D.acts disk.old) (D.acts disk.new) (SetsMode mode) result }
{
    match mode {
        Some(mode) => disk.set_mode(mode),
        None => Ok(()),
    }
}

/// Gives the open file these permissions and the text, and syncs it.
fn pour<D: Disk>(disk: &mut D, to: &Destination, mode: Option<u32>, text: &[u8]) -> io::Result<()>
    ensures { Makes to.now (D.acts disk.old) (D.acts disk.new) (WritesContent mode text.now) result }
{
    set_mode(disk, to, mode)?;
    disk.write(text)?;
    disk.sync()
}

/// The same as `pour`, and closes the file, also after an error.
fn pour_and_close<D: Disk>(
    disk: &mut D,
    to: &Destination,
    mode: Option<u32>,
    text: &[u8],
) -> io::Result<()>
    ensures { Makes to.now (D.acts disk.old) (D.acts disk.new) (Closes (WritesContent mode text.now)) result }
{
    let poured = pour(disk, to, mode, text);
    disk.close();
    poured
}

/// Makes the new file and fills it, with the permissions of the file in whose place it comes, and then gives it the name,
/// if that is its file's one name. That of a file with other names, which would keep the old text, only shows that there
/// is room.
fn place<D: Disk>(disk: &mut D, to: &Destination, text: &[u8]) -> Result<(), ReplaceError>
    ensures { Makes to.now (D.acts disk.old) (D.acts disk.new) (RenamesIntoPlace to.now text.now) result }
{
    make(disk, to)?;
    pour_and_close(disk, to, to.mode, text).map_err(ReplaceError::Failed)?;
    match to.kind {
        Kind::Alone => {
            let new = to.temp.as_str();
            judged(disk.rename(new, to.target.as_str()))
        }
        _ => Err(ReplaceError::Refused),
    }
}

/// Writes the whole text over what the file of the name has, and takes the new file away once that is done.
fn write_over<D: Disk>(disk: &mut D, to: &Destination, text: &[u8]) -> io::Result<()>
    ensures { Makes to.now (D.acts disk.old) (D.acts disk.new) (Overwrites to.now text.now) result }
{
    empty(disk, to)?;
    pour_and_close(disk, to, None, text)?;
    let _ = remove_new(disk, to);
    Ok(())
}

/// Puts a text in the place of what has the name. At each moment of the call the name has the old text or the new one,
/// whole, also after a power cut; after Ok it has the new one, and each cut from then on leaves it. An
/// error if a call of the disk failed. The new file is removed then, if that can be done.
///
/// If the folder refuses the new file or its renaming, or if the file has other names, the text is
/// written over the old one. What a failure or a cut then leaves may be any text; a new file that has the text stays then.
pub fn replace<D: Disk>(disk: &mut D, to: &Destination, text: &[u8]) -> io::Result<()>
    ensures { Makes to.now (D.acts disk.old) (D.acts disk.new) (IsKept to.now text.now) result }
{
    match place(disk, to, text) {
        Ok(()) => disk.sync_folder(folder_of(to.target.as_str())),
        Err(ReplaceError::Refused) => write_over(disk, to, text),
        Err(ReplaceError::Failed(error)) => {
            let _ = remove_new(disk, to);
            Err(error)
        }
    }
}

/// Appends a text to what is at the name, and closes it, also after an error.
fn append<D: Disk>(disk: &mut D, to: &Destination, text: &[u8]) -> io::Result<()>
    ensures { Makes to.now (D.acts disk.old) (D.acts disk.new) (IsAppended text.now) result }
{
    disk.open(to.target.as_str(), OpenOptions::new().append(true))?;
    let written = disk.write(text);
    disk.close();
    written
}

/// Keeps a text in the file to which a name leads: a special file, or a path of an open file, gets it appended.
pub fn keep_text<D: Disk>(alloc: Global, disk: &mut D, name: &str, text: &[u8]) -> io::Result<()>
    ensures { KeepsText (D.answers disk.old) (D.acts disk.old) (D.acts disk.new) name.now text.now result }
{
    let to = find(alloc, disk, name)?;
    match to.kind {
        Kind::Alone | Kind::Shared => replace(disk, &to, text),
        Kind::Special => append(disk, &to, text),
    }
}
