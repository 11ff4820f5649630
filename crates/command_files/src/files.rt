//! The files that a command works on.
ghost use Rattle.std.specs.Prelude.{◌≡◌, ◌≢◌, false, ℕ, IfErr, IfOk, List, MatchResult, [], ◌∷◌, ◌++◌, None, OnOk, Option, string_bytes};
ghost use Rattle.std.specs.List.{list_any};
ghost use Rattle.std.specs.Str.{bytes_eq};
ghost use Rattle.command_files.specs.FileTexts.{HasText, IsMissing};

use crate::replacing::write_whole;
use c0_source::source::MOST_BYTES;
use file_store::{DiskFolder, Folder, MemFolder};
use std::alloc::{AllocError, Global};
use std::collections::BTreeMap;
use std::fs::File;
use std::io::Read;
use std::os::unix::fs::MetadataExt;
use std::rt::Files as SystemFiles;
use std::{fs, io};
use thiserror::Error;

/// So many bytes tell that a text has too many.
const MOST_READ: u64 = MOST_BYTES as u64 + 1;

/// Why a file was not read or written.
#[derive(Clone, Copy, Debug, PartialEq, Eq, Error)]
pub enum FileError {
    /// The file is not there, or the system refused.
    #[error("refused by the system")]
    Cannot = 1,
    /// A growth was refused.
    #[error("out of memory")]
    OutOfMemory = 2,
}

/// Files by their names, and folders for stores.
pub trait Files {
    type Place: Folder + Clone + Send;

    // What the file of a name holds, where it is known.
    ghost holds: { Self → List ℕ → Option (Option (List ℕ)) } = { λ _ _. None };

    /// The bytes of a file. `Cannot` where it is not there or the system refuses, `OutOfMemory` where a growth is refused.
    fn read(&mut self, alloc: Global, name: &str) -> Result<Vec<u8>, FileError>
        ensures text { IfOk result (λ v. HasText (holds self.old name.now) v.items) }
        ensures missing { IfErr result (λ e. e ≡ FileError.Cannot → IsMissing (holds self.old name.now)) }
        ensures same { (n : List ℕ) → holds self.new n ≡ holds self.old n };

    /// The text of a file: its bytes, or the first `MOST_BYTES + 1` where there are more, which are no text. Else as `read`.
    fn read_text(&mut self, alloc: Global, name: &str) -> Result<Vec<u8>, FileError>
        ensures text { IfOk result (λ v. HasText (holds self.old name.now) v.items) }
        ensures missing { IfErr result (λ e. e ≡ FileError.Cannot → IsMissing (holds self.old name.now)) }
        ensures same { (n : List ℕ) → holds self.new n ≡ holds self.old n };

    /// Whether two names are of one file: where they are the same, and where the system tells that one file is there under both.
    fn is_same(&self, first: &str, second: &str) -> bool
        ensures { result ≡ false → first.now ≢ second.now };

    /// Makes these bytes the whole of a file, which need not be there. Where it fails the file is as it was, and so are all others.
    fn write(&mut self, alloc: Global, name: &str, bytes: &[u8]) -> Result<(), FileError>
        ensures text { OnOk result (HasText (holds self.new name.now) bytes.now) }
        ensures failed { IfErr result (λ _. holds self.new name.now ≡ holds self.old name.now) }
        ensures others { (n : List ℕ) → (n ≡ name.now → ⊥) → holds self.new n ≡ holds self.old n };

    /// The folder of this name, for a store. Where none is there, each write and each read of a file in it fails.
    fn folder(&self, alloc: Global, name: &str) -> Result<Self::Place, AllocError>;
}

/// The files of the folder in which the program works.
#[derive(Drop)]
pub struct FolderFiles<'a, R: SystemFiles + AllocGlobal> {
    rt: &'a R,
}

impl<'a, R: SystemFiles + AllocGlobal> FolderFiles<'a, R> {
    /// The files that the runtime reaches.
    pub fn new(rt: &'a R) -> FolderFiles<'a, R>
        ensures { result.rt.now ≡ rt.entry.now }
    {
        FolderFiles { rt }
    }
}

fn refusal(error: io::Error) -> FileError {
    match error.kind() {
        io::ErrorKind::OutOfMemory => FileError::OutOfMemory,
        _ => FileError::Cannot,
    }
}

// The bytes of a file, but no more than tell that it is too long for a text.
fn read_begun<R: SystemFiles>(rt: &R, alloc: Global, name: &str) -> io::Result<Vec<u8>> {
    let mut begun = File::open(rt, name)?.take(MOST_READ);
    let mut text = Vec::new(alloc);
    begun.read_to_end(&mut text)?;
    Ok(text)
}

// Whether the system tells that one file is there under both names.
fn is_one_file<R: SystemFiles>(rt: &R, first: &str, second: &str) -> bool {
    match (fs::metadata(rt, first), fs::metadata(rt, second)) {
        (Ok(one), Ok(other)) => one.dev() == other.dev() && one.ino() == other.ino(),
        _ => false,
    }
}

impl<'a, R: SystemFiles + AllocGlobal + Sync> Files for FolderFiles<'a, R> {
    type Place = DiskFolder<'a, R>;

    fn read(&mut self, _alloc: Global, name: &str) -> Result<Vec<u8>, FileError> {
        fs::read(self.rt, name).map_err(refusal)
    }

    fn read_text(&mut self, alloc: Global, name: &str) -> Result<Vec<u8>, FileError> {
        read_begun(self.rt, alloc, name).map_err(refusal)
    }

    fn is_same(&self, first: &str, second: &str) -> bool {
        first == second || is_one_file(self.rt, first, second)
    }

    // Of what is written into a device or a pipe, a part stays there where it fails.
    fn write(&mut self, alloc: Global, name: &str, bytes: &[u8]) -> Result<(), FileError> {
        write_whole(self.rt, alloc, name, bytes).map_err(refusal)
    }

    fn folder(&self, alloc: Global, name: &str) -> Result<DiskFolder<'a, R>, AllocError> {
        DiskFolder::new(alloc, self.rt, name)
    }
}

/// Files in memory, and the names of folders that are there.
#[derive(Drop)]
pub struct MemFiles {
    files: BTreeMap<String, Vec<u8>>,
    folders: Vec<String>,
}

impl MemFiles {
    /// No files and no folders.
    pub fn new(alloc: Global) -> MemFiles
        ensures files { result.files.entries ≡ [] }
        ensures folders { result.folders.items ≡ [] }
    {
        MemFiles {
            files: BTreeMap::new(alloc),
            folders: Vec::new(alloc),
        }
    }

    /// One folder more, of this name. `Err` where a growth is refused, which changes nothing.
    pub fn add_folder(&mut self, name: String) -> Result<(), AllocError>
        ensures files { self.new.files ≡ self.old.files }
        ensures folders { MatchResult result (λ _. self.new.folders.items ≡ self.old.folders.items ++ name ∷ []) (λ _. self.new.folders.items ≡ self.old.folders.items) }
    {
        self.folders.push(name)?;
        Ok(())
    }

    // Whether there is a folder of this name.
    fn has_folder(&self, name: &str) -> bool
        ensures { result ≡ list_any (λ folder. bytes_eq (string_bytes folder) name.now) self.now.folders.items }
    {
        self.folders.iter().any(|folder| folder.as_str() == name)
    }
}

impl Files for MemFiles {
    type Place = MemFolder;

    ghost use Rattle.command_files.specs.MemTexts.{held_in};

    ghost holds = { λ m name. held_in m.files.entries name };

    fn read(&mut self, alloc: Global, name: &str) -> Result<Vec<u8>, FileError> {
        match self.files.get(name) {
            Some(bytes) => bytes.to_vec(alloc).map_err(|_| FileError::OutOfMemory),
            None => Err(FileError::Cannot),
        }
    }

    fn read_text(&mut self, alloc: Global, name: &str) -> Result<Vec<u8>, FileError> {
        self.read(alloc, name)
    }

    fn is_same(&self, first: &str, second: &str) -> bool
        ensures { result ≡ bytes_eq first.now second.now }
    {
        first == second
    }

    fn write(&mut self, alloc: Global, name: &str, bytes: &[u8]) -> Result<(), FileError> {
        let Ok(key) = String::from_str(alloc, name) else {
            return Err(FileError::OutOfMemory);
        };
        let Ok(copy) = bytes.to_vec(alloc) else {
            return Err(FileError::OutOfMemory);
        };
        match self.files.insert(key, copy) {
            Ok(_before) => Ok(()),
            Err(_refused) => Err(FileError::OutOfMemory),
        }
    }

    fn folder(&self, _alloc: Global, name: &str) -> Result<MemFolder, AllocError>
        ensures { IfOk result (λ place. place.there ≡ list_any (λ folder. bytes_eq (string_bytes folder) name.now) self.now.folders.items) }
    {
        if self.has_folder(name) {
            Ok(MemFolder::new())
        } else {
            Ok(MemFolder::missing())
        }
    }
}
