//! A folder on the disk.
ghost use Rattle.std.specs.Prelude.{◌≤◌};

use file_store::DiskFolder;
use std::alloc::Global;
use std::io::Write;
use std::path::PathBuf;
use std::{fs, io};

/// The path of a folder that nobody else uses.
#[derive(Drop)]
pub(crate) struct Disk<'a> {
    rt: &'a HostRuntime,
    path: PathBuf,
}

impl<'a> Disk<'a> {
    /// The folder of this path, which is not there yet.
    pub(crate) fn new(rt: &'a HostRuntime, path: PathBuf) -> Disk<'a> {
        Disk { rt, path }
    }

    /// Where its texts are kept.
    pub(crate) fn alloc(&self) -> Global {
        self.rt.alloc()
    }

    /// Makes the folder, with an old file of this name in it, of the bytes of so many words.
    pub(crate) fn make(&self, old: &str, words: usize) -> io::Result<DiskFolder<'a, HostRuntime>>
        requires { words ≤ 259 }
    {
        fs::create_dir(self.rt, self.path.as_path())?;
        self.write(old, 8 * words, 9)?;
        Ok(DiskFolder::new(self.alloc(), self.rt, self.path.as_str())?)
    }

    /// Makes so many bytes, each of them this one, the whole of a file.
    pub(crate) fn write(&self, name: &str, count: usize, byte: u8) -> io::Result<()> {
        let path = self.path.as_path().join(self.alloc(), name)?;
        let bytes = vec![in self.alloc(); byte; count]?;
        fs::write(self.rt, path.as_path(), bytes.as_slice())
    }

    /// Tells the byte there in a file, and how many bytes the file has.
    pub(crate) fn show<O: Write>(&self, name: &str, at: usize, out: &mut O) -> io::Result<()> {
        let path = self.path.as_path().join(self.alloc(), name)?;
        let bytes = fs::read(self.rt, path.as_path())?;
        let count = bytes.len();
        match bytes.get(at) {
            Some(byte) => write!(out, ": {byte} of {count}"),
            None => write!(out, ": none of {count}"),
        }
    }

    /// Removes the folder and its files.
    pub(crate) fn remove(&self) -> io::Result<()> {
        fs::remove_dir_all(self.rt, self.path.as_path())
    }
}
