//! The system's files as a disk. What a call of them does is trusted: each makes the one call of the system that it is
//! named for, and returns what that returns.
#![tactic(auto, unfolding(crate::specs::System::Disk::noted))]

use crate::system::disk::{Disk, Found};
use std::fs::{File, OpenOptions, Permissions};
use std::io::{Error, ErrorKind, Write};
use std::os::unix::fs::{FileTypeExt, MetadataExt, PermissionsExt};
use std::{fs, io};

/// The files of the system, and the one that is open.
#[derive(Drop)]
pub struct SystemDisk {
    rt: HostRuntime,
    file: Option<File>,
}

impl SystemDisk {
    /// The files of this runtime's system. None is open.
    pub fn new(rt: HostRuntime) -> Self {
        SystemDisk { rt, file: None }
    }

    fn open_file(&mut self) -> io::Result<&mut File> {
        self.file.as_mut().ok_or(Error::from(ErrorKind::NotFound))
    }
}

/// What a file of the system has, no contract says.
impl Disk for SystemDisk {
    ghost use Rattle.std.specs.Prelude.{None};

    ghost answers = { λ _. None };

    ghost acts = { λ _. None };

    fn metadata(&self, path: &str) -> io::Result<Found> {
        let found = fs::metadata(&self.rt, path)?;
        Ok(Found {
            is_file: found.is_file(),
            is_folder: found.is_dir(),
            is_pipe: found.file_type().is_fifo(),
            links: found.nlink(),
            mode: found.permissions().mode(),
            device: found.dev(),
            number: found.ino(),
        })
    }

    fn read_link(&self, path: &str) -> io::Result<String> {
        Ok(fs::read_link(&self.rt, path)?.into_string())
    }

    fn canonicalize(&self, path: &str) -> io::Result<String> {
        Ok(fs::canonicalize(&self.rt, path)?.into_string())
    }

    fn open(&mut self, path: &str, how: &OpenOptions) -> io::Result<()> {
        self.file = Some(how.open(&self.rt, path)?);
        Ok(())
    }

    fn set_mode(&mut self, mode: u32) -> io::Result<()> {
        self.open_file()?
            .set_permissions(Permissions::from_mode(mode))
    }

    fn write(&mut self, text: &[u8]) -> io::Result<()> {
        self.open_file()?.write_all(text)
    }

    fn sync(&mut self) -> io::Result<()> {
        self.open_file()?.sync_all()
    }

    fn close(&mut self) {
        self.file = None;
    }

    fn rename(&mut self, from: &str, to: &str) -> io::Result<()> {
        fs::rename(&self.rt, from, to)
    }

    fn remove(&mut self, path: &str) -> io::Result<()> {
        fs::remove_file(&self.rt, path)
    }

    fn sync_folder(&mut self, path: &str) -> io::Result<()> {
        fs::open(&self.rt, path)?.sync_all()
    }
}
