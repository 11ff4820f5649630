//! How the bytes of a file are made others.
use std::alloc::{AllocError, Global};
use std::fs::{OpenFile, OpenOptions, Permissions};
use std::io::Write;
use std::rt::Files;
use std::{fs, io};

/// How many names are tried for a file while it is written.
const MOST_NAMES: u32 = 1000;

// The name of a file while it is written, where so many others of its kind are taken.
fn unfinished_name(alloc: Global, name: &str, taken: u32) -> Result<String, AllocError> {
    if taken == 0 {
        return format!(in alloc; "{name}.unfinished");
    }
    format!(in alloc; "{name}.unfinished.{taken}")
}

// A new file beside the one of this name, and its own name. One that is there already is left alone.
fn open_unfinished<R: Files>(rt: &R, alloc: Global, name: &str) -> io::Result<(R::File, String)> {
    let mut options = OpenOptions::new();
    options.write(true).create_new(true);
    for taken in 0..MOST_NAMES {
        let fresh = unfinished_name(alloc, name, taken)?;
        match options.open(rt, fresh.as_str()) {
            Ok(file) => return Ok((file, fresh)),
            Err(error) if error.kind() == io::ErrorKind::AlreadyExists => {}
            Err(error) => return Err(error),
        }
    }
    Err(io::Error::from(io::ErrorKind::AlreadyExists))
}

// Writes all of a new file, and gives it this mode.
fn fill_new<F: Write + OpenFile + Drop>(
    mut file: F,
    mode: Option<Permissions>,
    bytes: &[u8],
) -> io::Result<()> {
    file.write_all(bytes)?;
    match mode {
        Some(mode) => file.set_permissions(mode),
        None => Ok(()),
    }
}

// A new file of these bytes takes the name, so that no half of it is ever seen. Where that fails, nothing of it is left.
fn take_name<R: Files>(
    rt: &R,
    alloc: Global,
    name: &str,
    mode: Option<Permissions>,
    bytes: &[u8],
) -> io::Result<()> {
    let (file, fresh) = open_unfinished(rt, alloc, name)?;
    let done = match fill_new(file, mode, bytes) {
        Ok(()) => fs::rename(rt, fresh.as_str(), name),
        Err(error) => Err(error),
    };
    if done.is_err() {
        // (it may be there no more)
        let _removed = fs::remove_file(rt, fresh.as_str());
    }
    done
}

// Writes into what has this name and is no regular file: a device, a pipe, or a link that leads to none.
fn write_into<R: Files>(rt: &R, name: &str, bytes: &[u8]) -> io::Result<()> {
    let mut options = OpenOptions::new();
    options.write(true).create(true).truncate(true);
    let mut file = options.open(rt, name)?;
    file.write_all(bytes)
}

// Writes a file where none is there, or a link that leads to none.
fn write_new<R: Files>(rt: &R, alloc: Global, name: &str, bytes: &[u8]) -> io::Result<()> {
    if fs::symlink_metadata(rt, name).is_ok() {
        return write_into(rt, name, bytes);
    }
    take_name(rt, alloc, name, None, bytes)
}

/// Makes these bytes the whole of a file, which need not be there. A regular file, also one to which a link leads, keeps its mode, and is as it was
/// until all is written; another kind of file is written into.
pub(crate) fn write_whole<R: Files>(
    rt: &R,
    alloc: Global,
    name: &str,
    bytes: &[u8],
) -> io::Result<()> {
    match fs::metadata(rt, name) {
        Ok(there) if there.is_file() => {
            let place = rt.canonicalize(alloc, name)?;
            take_name(rt, alloc, place.as_str(), Some(there.permissions()), bytes)
        }
        Ok(_other) => write_into(rt, name, bytes),
        Err(error) if error.kind() == io::ErrorKind::NotFound => {
            write_new(rt, alloc, name, bytes)
        }
        Err(error) => Err(error),
    }
}
