//! Where a state goes: the file to which a name leads, what that is, and the new file beside it.
ghost use Rattle.std.specs.Prelude.{◌≡◌, IfSome, IfOk};
ghost use Rattle.std.specs.declared.io.ErrorKind.TheVariants.{InvalidFilename as Nameless};
ghost use Rattle.n2k_wire.specs.Steps.{or_cause};
ghost use Rattle.n2kdec.specs.Save.Destination.{are_one, destination, folder_of, if_there, is_missing, is_no_link, is_open_file};
ghost use Rattle.n2kdec.specs.Save.Destination.{kind_at, leads, link_target, linked, linked_path, new_path, target_of};
ghost use Rattle.n2kdec.specs.System.Disk.{IsAnswer, IsAnswerUnlessMemory, OfKind};

use crate::command_line::words::Word;
use crate::system::disk::{Disk, Found};
use std::alloc::{AllocError, Global};
use std::io;
use std::io::{Error, ErrorKind};
use std::path::Path;

/// What has a name.
#[derive(Clone, Copy, Debug, PartialEq, Eq)]
pub enum Kind {
    /// A regular file of this name alone, or none.
    Alone,
    /// A regular file that has other names too.
    Shared,
    /// Not a regular file, for example a pipe or a device, or a path of an open file.
    Special,
}

/// Where a state goes. The new file beside `boat` is `.boat.n2kdec-new`.
#[derive(Drop)]
pub struct Destination {
    /// The path after all links, or the name itself if it is special.
    pub target: Word,
    /// That of the new file beside it.
    pub temp: Word,
    /// What is there.
    pub kind: Kind,
    /// Who may read, write and run it, if it is there.
    pub mode: Option<u32>,
}

/// As many links are followed, one to the next, as the system follows.
const MOST_LINKS: usize = 40;

/// Those bits of a mode that say who may read, write and run a file.
const PERMISSIONS: u32 = 0o777;

/// The path of the folder in which a path lies, as it is written: `.` if it names none.
pub fn folder_of(path: &str) -> &str
    ensures { result.now ≡ folder_of path.now }
{
    match Path::new(path).parent() {
        Some(folder) if !folder.as_str().is_empty() => folder.as_str(),
        _ => ".",
    }
}

/// The path to which a link at this path leads, by the text of the link.
fn linked_path(alloc: Global, path: &str, link: &str) -> Result<Word, AllocError>
    ensures { IfOk result (λ next. next ≡ linked_path path.now link.now) }
{
    let folder = Path::new(path).parent().unwrap_or(Path::new(""));
    Ok(Word::of(folder.join(alloc, link)?.into_string()))
}

/// The path of the new file beside that of this path: hidden, with the program's name, and the same for each run. An error
/// if the path doesn't end with a name, as `boat/` doesn't.
fn new_path(alloc: Global, path: &str) -> io::Result<Word>
    ensures { IsAnswerUnlessMemory (λ new. new) (or_cause (OfKind Nameless) (new_path path.now)) result }
{
    let path = Path::new(path);
    let name = match path.file_name() {
        Some(name) if path.as_str().as_bytes().ends_with(name.as_bytes()) => name,
        _ => return Err(Error::from(ErrorKind::InvalidFilename)),
    };
    let hidden = format!(in alloc; ".{name}.n2kdec-new")?;
    Ok(Word::of(path.with_file_name(alloc, hidden.as_str())?.into_string()))
}

/// Whether nothing is there.
pub fn is_missing(why: ErrorKind) -> bool
    ensures { result ≡ is_missing why }
{
    matches!(why, ErrorKind::NotFound)
}

/// Whether it is something other than a link.
fn is_no_link(why: ErrorKind) -> bool
    ensures { result ≡ is_no_link why }
{
    matches!(why, ErrorKind::InvalidInput | ErrorKind::NotFound)
}

/// Whether a path names an open file: its folder is one of `/proc`, as the folder of `/dev/fd/3` is. An error if the folder
/// is missing.
#[tactic(auto, unfolding(crate::specs::Save::Destination::is_open_file, crate::specs::Save::Destination::is_of_proc))]
fn is_open_file<D: Disk>(disk: &D, path: &str) -> io::Result<bool>
    ensures { IfSome (D.answers disk.now) (λ a. IsAnswerUnlessMemory (λ is_open. is_open) (is_open_file a path.now) result) }
{
    let folder = disk.canonicalize(folder_of(path))?;
    let folder = folder.as_str();
    Ok(folder == "/proc" || folder.as_bytes().starts_with(b"/proc/"))
}

/// The path to which the link at this path leads; none if it is not a link.
fn follow<D: Disk>(alloc: Global, disk: &D, path: &str) -> io::Result<Option<Word>>
    ensures { IfSome (D.answers disk.now) (λ a. IsAnswerUnlessMemory (λ next. next)
        (linked path.now (a.link path.now)) result) }
{
    match disk.read_link(path) {
        Ok(link) => Ok(Some(linked_path(alloc, path, link.as_str())?)),
        Err(error) if is_no_link(error.kind()) => Ok(None),
        Err(error) => Err(error),
    }
}

/// The path after all links, of which so many are looked at, one after the other; none if one on the way leads to
/// an open file.
#[tactic(auto, using(crate::proofs::save::Finding::links))]
fn link_target<D: Disk>(
    alloc: Global,
    disk: &D,
    path: &str,
    looks: usize,
) -> io::Result<Option<Word>>
    ensures { IfSome (D.answers disk.now) (λ a. IsAnswerUnlessMemory (λ path. path) (link_target looks a path.now) result) }
{
    if looks == 0 {
        return Err(Error::from(ErrorKind::FilesystemLoop));
    }
    if is_open_file(disk, path)? {
        return Ok(None);
    }
    match follow(alloc, disk, path)? {
        Some(next) => link_target(alloc, disk, next.as_str(), looks - 1),
        None => Ok(Some(Word::new(alloc, path)?)),
    }
}

/// What is at a name, over links; none if nothing is there.
fn look<D: Disk>(disk: &D, name: &str) -> io::Result<Option<Found>>
    ensures { IfSome (D.answers disk.now) (λ a. IsAnswer (λ found. found) (if_there (a.found name.now)) result) }
{
    match disk.metadata(name) {
        Ok(found) => Ok(Some(found)),
        Err(error) if is_missing(error.kind()) => Ok(None),
        Err(error) => Err(error),
    }
}

/// The kind of what is at a name, over links; nothing will be a file of this name alone. An error if it is a folder.
fn kind_at(was: &Option<Found>) -> io::Result<Kind>
    ensures { IsAnswer (λ kind. kind) (kind_at was.now) result }
{
    match was {
        None => Ok(Kind::Alone),
        Some(found) if found.is_folder => Err(Error::from(ErrorKind::IsADirectory)),
        Some(found) if !found.is_file => Ok(Kind::Special),
        Some(found) if found.links > 1 => Ok(Kind::Shared),
        Some(_) => Ok(Kind::Alone),
    }
}

/// The path after the links at a name, which had this, and its kind. An error if it is a folder.
#[tactic(auto, unfolding(crate::specs::Save::Destination::target_of))]
fn target_of<D: Disk>(
    alloc: Global,
    disk: &D,
    name: &str,
    was: &Option<Found>,
) -> io::Result<(Word, Kind)>
    ensures { IfSome (D.answers disk.now) (λ a. IsAnswerUnlessMemory (λ to. to) (target_of a name.now was.now) result) }
{
    match kind_at(was)? {
        Kind::Special => Ok((Word::new(alloc, name)?, Kind::Special)),
        kind => match link_target(alloc, disk, name, MOST_LINKS + 1)? {
            Some(target) => Ok((target, kind)),
            None => Ok((Word::new(alloc, name)?, Kind::Special)),
        },
    }
}

/// Finds the destination of a state of this name.
#[tactic(auto, unfolding(crate::specs::Save::Destination::destination))]
pub fn find<D: Disk>(alloc: Global, disk: &D, name: &str) -> io::Result<Destination>
    ensures { IfSome (D.answers disk.now) (λ a. IsAnswerUnlessMemory (λ to. to) (destination a name.now) result) }
{
    let was = look(disk, name)?;
    let (target, kind) = target_of(alloc, disk, name, &was)?;
    let temp = new_path(alloc, target.as_str())?;
    let mode = was.map(|was| was.mode & PERMISSIONS);
    Ok(Destination {
        target,
        temp,
        kind,
        mode,
    })
}

/// Whether both are one regular file, or one pipe if pipes count: what is written to it is read from it.
fn are_one(pipes: bool, one: &Found, other: &Found) -> bool
    ensures { result ≡ are_one pipes one.now other.now }
{
    (one.is_file && other.is_file || pipes && one.is_pipe && other.is_pipe)
        && one.device == other.device
        && one.number == other.number
}

/// Whether both paths lead to one regular file, or to one pipe if pipes count. If one of them can't be looked at, the paths
/// are compared.
#[tactic(auto, unfolding(crate::specs::Save::Destination::leads))]
pub fn leads<D: Disk>(disk: &D, pipes: bool, own: &str, path: &str) -> bool
    ensures { IfSome (D.answers disk.now) (λ a. result ≡ leads pipes a own.now path.now) }
{
    match (disk.metadata(own), disk.metadata(path)) {
        (Ok(one), Ok(other)) => are_one(pipes, &one, &other),
        _ => own == path,
    }
}
