//! A disk in memory: a call of it is refused or fails, or the power is cut in it.
#![tactic(auto, unfolding(crate::specs::System::Disk::noted))]

use crate::system::disk::{Disk, Found};
use std::alloc::{AllocError, Global};
use std::fs::OpenOptions;
use std::io;
use std::io::{Error, ErrorKind};

/// How much of a call is done if it fails or is cut short, and how much a cut leaves of what is not synced.
#[derive(Clone, Copy, Debug, PartialEq, Eq)]
pub enum Extent {
    /// Nothing of it.
    Nothing,
    /// Of a text the first half, of other calls nothing.
    Part,
    /// All of it.
    Whole,
}

/// What comes in between, in the call of this number, counted from 1, and how much of that call is done.
#[derive(Clone, Copy, Debug, PartialEq, Eq)]
pub enum Trouble {
    /// Nothing does.
    No,
    /// The call fails.
    Failure(u64, Extent),
    /// The power is cut, and each call from then on fails.
    Cut(u64, Extent),
}

/// So much of a text.
fn so_much(extent: Extent, text: &[u8]) -> &[u8] {
    match extent {
        Extent::Nothing => &[],
        Extent::Part => &text[..text.len() / 2],
        Extent::Whole => text,
    }
}

/// A copy of a text, if there is one.
fn copy(alloc: Global, text: Option<&[u8]>) -> Result<Option<Vec<u8>>, AllocError> {
    match text {
        Some(text) => Ok(Some(text.to_vec(alloc)?)),
        None => Ok(None),
    }
}

/// What is at a path: a text, whether a cut leaves that, and what a cut leaves as long as the folder is not synced.
#[derive(Drop)]
struct Standing<'a> {
    path: &'a str,
    found: Found,
    text: Option<Vec<u8>>,
    is_synced: bool,
    settled: Option<Vec<u8>>,
}

impl<'a> Standing<'a> {
    /// What a cut leaves.
    fn left(&self, extent: Extent) -> Option<&[u8]> {
        match extent {
            Extent::Nothing => Some(self.settled.as_ref()?),
            Extent::Part if !self.is_synced => Some(so_much(extent, self.text.as_ref()?)),
            Extent::Part | Extent::Whole => Some(self.text.as_ref()?),
        }
    }

    /// An empty file is there.
    fn empty(&mut self, alloc: Global, done: Extent) {
        if done == Extent::Whole {
            self.text = Some(Vec::new(alloc));
            self.is_synced = false;
        }
    }

    fn write(&mut self, text: &[u8], done: Extent) -> Result<(), AllocError> {
        if done != Extent::Nothing {
            if let Some(had) = &mut self.text {
                had.extend_from_slice(so_much(done, text))?;
            }
            self.is_synced = false;
        }
        Ok(())
    }

    fn settle(&mut self, alloc: Global) -> Result<(), AllocError> {
        self.settled = copy(alloc, self.left(Extent::Part))?;
        Ok(())
    }
}

/// A disk of these paths alone.
#[derive(Drop)]
pub struct MemoryDisk<'a> {
    alloc: Global,
    all: Vec<Standing<'a>>,
    links: &'a [(&'a str, &'a str)],
    folders: &'a [(&'a str, &'a str)],
    open: Option<usize>,
    /// The number of the call that is refused, if it is one that may be; the call after it counts as the next.
    pub refused: u64,
    /// What else comes in between.
    pub trouble: Trouble,
    calls: u64,
    is_off: bool,
}

/// The text of the first of these names.
fn after<'a>(all: &[(&'a str, &'a str)], name: &str) -> Option<&'a str> {
    for (own, text) in all {
        if *own == name {
            return Some(text);
        }
    }
    None
}

impl<'a> MemoryDisk<'a> {
    /// A disk of these links, each with its text, and these folders, each with the path after all links, if that is
    /// another. No call of it was made, and nothing comes in between.
    pub fn new(
        alloc: Global,
        links: &'a [(&'a str, &'a str)],
        folders: &'a [(&'a str, &'a str)],
    ) -> MemoryDisk<'a> {
        MemoryDisk {
            alloc,
            all: Vec::new(alloc),
            links,
            folders,
            open: None,
            refused: 0,
            trouble: Trouble::No,
            calls: 0,
            is_off: false,
        }
    }

    /// Puts what a cut leaves under a path: a text, or nothing, of this kind and with so many names.
    pub fn put(
        &mut self,
        path: &'a str,
        text: Option<&[u8]>,
        is_file: bool,
        links: u64,
    ) -> Result<(), AllocError> {
        let number = self.all.len() as u64;
        let found = Found {
            is_file,
            is_folder: false,
            is_pipe: false,
            links,
            mode: 0o100640,
            device: 1,
            number,
        };
        let standing = Standing {
            path,
            found,
            text: copy(self.alloc, text)?,
            is_synced: true,
            settled: copy(self.alloc, text)?,
        };
        self.all.push(standing)?;
        Ok(())
    }

    /// What a path has after a cut that leaves so much of what is not synced; what it has now, if all is left.
    pub fn left(&self, path: &str, extent: Extent) -> Option<&[u8]> {
        self.all.get(self.place(path)?)?.left(extent)
    }

    /// How many calls that may change it were made before the power was cut.
    pub fn calls(&self) -> u64 {
        self.calls
    }

    /// Whether a file is open.
    pub fn is_open(&self) -> bool {
        self.open.is_some()
    }

    fn place(&self, path: &str) -> Option<usize> {
        for (number, standing) in self.all.iter().enumerate() {
            if standing.path == path {
                return Some(number);
            }
        }
        None
    }

    /// What is at a path.
    fn at(&mut self, path: &str) -> io::Result<&mut Standing<'a>> {
        let number = self.place(path).ok_or(Error::from(ErrorKind::NotFound))?;
        self.all
            .get_mut(number)
            .ok_or(Error::from(ErrorKind::NotFound))
    }

    /// The file that is open.
    fn open_file(&mut self) -> io::Result<&mut Standing<'a>> {
        let number = self.open.ok_or(Error::from(ErrorKind::NotFound))?;
        self.all
            .get_mut(number)
            .ok_or(Error::from(ErrorKind::NotFound))
    }

    /// How much of the next call is done.
    fn begin(&mut self) -> Extent {
        if self.is_off {
            return Extent::Nothing;
        }
        self.calls = self.calls.saturating_add(1);
        match self.trouble {
            Trouble::Failure(at, done) if at == self.calls => done,
            Trouble::Cut(at, done) if at == self.calls => {
                self.is_off = true;
                done
            }
            _ => Extent::Whole,
        }
    }

    /// The answer of the call that was made last.
    fn answer(&self) -> io::Result<()> {
        match self.trouble {
            Trouble::Failure(at, _) if at == self.calls => Err(Error::from(ErrorKind::StorageFull)),
            _ if self.is_off => Err(Error::from(ErrorKind::Other)),
            _ => Ok(()),
        }
    }

    /// Whether the call that was made last is refused.
    fn refuses(&self) -> io::Result<()> {
        if self.refused == self.calls {
            return Err(Error::from(ErrorKind::PermissionDenied));
        }
        Ok(())
    }
}

impl<'a> Disk for MemoryDisk<'a> {
    ghost use Rattle.std.specs.Prelude.{None};

    ghost answers = { λ _. None };

    ghost acts = { λ _. None };

    fn metadata(&self, path: &str) -> io::Result<Found> {
        let path = after(self.links, path).unwrap_or(path);
        for standing in &self.all {
            if standing.path == path && standing.text.is_some() {
                return Ok(standing.found);
            }
        }
        Err(Error::from(ErrorKind::NotFound))
    }

    fn read_link(&self, path: &str) -> io::Result<String> {
        match after(self.links, path) {
            Some(text) => Ok(String::from_str(self.alloc, text)?),
            None => Err(Error::from(ErrorKind::InvalidInput)),
        }
    }

    fn canonicalize(&self, path: &str) -> io::Result<String> {
        let path = after(self.folders, path).unwrap_or(path);
        Ok(String::from_str(self.alloc, path)?)
    }

    fn open(&mut self, path: &str, how: &OpenOptions) -> io::Result<()> {
        let (done, alloc) = (self.begin(), self.alloc);
        if how.asks_create_new() {
            self.refuses()?;
            if self.at(path)?.text.is_some() {
                return Err(Error::from(ErrorKind::AlreadyExists));
            }
        }
        if how.asks_create_new() || how.asks_truncate() {
            self.at(path)?.empty(alloc, done);
        }
        self.answer()?;
        self.open = self.place(path);
        Ok(())
    }

    fn set_mode(&mut self, mode: u32) -> io::Result<()> {
        if self.begin() == Extent::Whole {
            self.open_file()?.found.mode = mode;
        }
        self.answer()
    }

    fn write(&mut self, text: &[u8]) -> io::Result<()> {
        let done = self.begin();
        self.open_file()?.write(text, done)?;
        self.answer()
    }

    fn sync(&mut self) -> io::Result<()> {
        if self.begin() == Extent::Whole {
            self.open_file()?.is_synced = true;
        }
        self.answer()
    }

    fn close(&mut self) {
        self.open = None;
    }

    fn rename(&mut self, from: &str, to: &str) -> io::Result<()> {
        let done = self.begin();
        self.refuses()?;
        if done == Extent::Whole {
            let old = self.at(from)?;
            let (text, is_synced, mode) = (old.text.take(), old.is_synced, old.found.mode);
            let new = self.at(to)?;
            new.text = text;
            new.is_synced = is_synced;
            new.found.mode = mode;
        }
        self.answer()
    }

    fn remove(&mut self, path: &str) -> io::Result<()> {
        let done = self.begin();
        let standing = self.at(path)?;
        let was_there = standing.text.is_some();
        if done == Extent::Whole {
            standing.text = None;
        }
        self.answer()?;
        if was_there {
            Ok(())
        } else {
            Err(Error::from(ErrorKind::NotFound))
        }
    }

    fn sync_folder(&mut self, _path: &str) -> io::Result<()> {
        if self.begin() == Extent::Whole {
            let alloc = self.alloc;
            for standing in &mut self.all {
                standing.settle(alloc)?;
            }
        }
        self.answer()
    }
}
