//! Command lines over files in memory, and streams of which a write may fail.
//!
//! A row is a line of a file of rows:
//! - `= NAME` begins the text of a file in memory, which is the lines behind it, up to the next row;
//! - `* N BYTES`, in a text, stands for `N` times these bytes, with no newline behind it;
//! - `+ N LINE`, in a text, stands for `N` lines like this one;
//! - `! folder NAME` makes a folder in memory, for stores;
//! - `! out N` and `! err N` have one write of that stream of the next command fail, after `N` others;
//! - `$ WORDS` does the command line of these words, with one blank between two of them;
//! - `? WORDS` does the same, and tells only the first line that is written to each stream.

use crate::rows::RowLine;
use c0far::drive::drive;
use c0far::files::{FileError, Files, MemFiles};
use c0far::stream::CountedWriter;
use std::alloc::Global;
use std::io;
use std::io::Write;
use std::sync::Wait;
use std::thread::Threads;
use std::time::Clock;

/// A writer of which one write alone fails, after so many others, or none.
#[derive(Drop)]
struct FailsOnce {
    left: Option<u8>,
    held: Vec<u8>,
}

impl FailsOnce {
    /// A writer that holds nothing.
    fn new(alloc: Global, left: Option<u8>) -> FailsOnce {
        FailsOnce {
            left,
            held: Vec::new(alloc),
        }
    }
}

impl Write for FailsOnce {
    fn write(&mut self, bytes: &[u8]) -> io::Result<usize> {
        match self.left {
            Some(0) => {
                self.left = None;
                return Err(io::Error::from(io::ErrorKind::BrokenPipe));
            }
            Some(left) => self.left = Some(left - 1),
            None => {}
        }
        self.held.write(bytes)
    }

    fn flush(&mut self) -> io::Result<()> {
        Ok(())
    }
}

/// What the rows so far have made: files, the text of the last one, and which writes of the next command fail.
#[derive(Drop)]
struct Bench {
    alloc: Global,
    files: MemFiles,
    name: String,
    text: Vec<u8>,
    failing_out: Option<u8>,
    failing_err: Option<u8>,
}

/// A file in memory is written unless a growth is refused.
fn refusal(error: FileError) -> io::Error {
    match error {
        FileError::OutOfMemory => io::Error::from(io::ErrorKind::OutOfMemory),
        FileError::Cannot => io::Error::from(io::ErrorKind::Other),
    }
}

impl Bench {
    /// No files.
    fn new(alloc: Global) -> Bench {
        Bench {
            alloc,
            files: MemFiles::new(alloc),
            name: String::new(alloc),
            text: Vec::new(alloc),
            failing_out: None,
            failing_err: None,
        }
    }

    /// The last text is whole.
    fn finish(&mut self) -> io::Result<()> {
        if !self.name.is_empty() {
            let name = self.name.as_str();
            self.files
                .write(self.alloc, name, &self.text)
                .map_err(refusal)?;
        }
        self.name.clear();
        self.text.clear();
        Ok(())
    }

    /// Begins the text of a file of this name.
    fn begin(&mut self, name: &str) -> io::Result<()> {
        self.finish()?;
        self.name.push_str(name)?;
        Ok(())
    }

    /// A line of the text.
    fn add_line(&mut self, line: &[u8]) -> io::Result<()> {
        self.text.extend_from_slice(line)?;
        self.text.push(b'\n')?;
        Ok(())
    }

    /// So many times these bytes in the text.
    fn add_often(&mut self, count: usize, bytes: &[u8]) -> io::Result<()> {
        for _ in 0..count {
            self.text.extend_from_slice(bytes)?;
        }
        Ok(())
    }

    /// So many times this line in the text.
    fn add_lines(&mut self, count: usize, line: &[u8]) -> io::Result<()> {
        for _ in 0..count {
            self.add_line(line)?;
        }
        Ok(())
    }

    /// A folder of this name, for stores.
    fn add_folder(&mut self, name: &str) -> io::Result<()> {
        let name = String::from_str(self.alloc, name)?;
        self.files.add_folder(name)?;
        Ok(())
    }

    /// One write to the standard output of the next command fails, after so many others.
    fn fail_out(&mut self, after: u8) {
        self.failing_out = Some(after);
    }

    /// One write to the standard error of the next command fails, after so many others.
    fn fail_err(&mut self, after: u8) {
        self.failing_err = Some(after);
    }

    /// Does the command line of these words, and tells its status and what it wrote, or the first lines of that.
    fn command<R: Threads + Wait + Clock + Sync, O: Write>(
        &mut self,
        rt: &R,
        words: &str,
        first_alone: bool,
        told: &mut O,
    ) -> io::Result<()> {
        self.finish()?;
        let split: Vec<&str> = words.split(' ').collect(self.alloc)?;
        let mut out = CountedWriter::new(FailsOnce::new(self.alloc, self.failing_out));
        let mut err = CountedWriter::new(FailsOnce::new(self.alloc, self.failing_err));
        self.failing_out = None;
        self.failing_err = None;
        let status = drive(self.alloc, rt, &split, &mut self.files, &mut out, &mut err);
        writeln!(told, "$ {words}")?;
        tell("", out, first_alone, told)?;
        tell("standard error: ", err, first_alone, told)?;
        writeln!(told, "status {status}")
    }
}

/// The first line of these bytes, without its end.
fn first_line(bytes: &[u8]) -> &[u8] {
    match bytes.split(|byte| *byte == b'\n').next() {
        Some(line) => line,
        None => bytes,
    }
}

/// Tells these bytes, but of a line of the time, which is another each time, that it is there.
fn tell_untimed<O: Write>(bytes: &[u8], told: &mut O) -> io::Result<()> {
    let mut behind = false;
    for line in bytes.split(|byte| *byte == b'\n') {
        if behind {
            told.write_all(b"\n")?;
        }
        behind = true;
        if line.starts_with(b"time: ") && line.ends_with(b" ms") {
            told.write_all(b"time: .. ms")?;
        } else {
            told.write_all(line)?;
        }
    }
    Ok(())
}

/// Tells what was written to a stream, or the first line of that, behind the stream's name. Of the whole it tells where its last line has no end.
fn tell<O: Write>(
    name: &str,
    stream: CountedWriter<FailsOnce>,
    first_alone: bool,
    told: &mut O,
) -> io::Result<()> {
    let FailsOnce { left: _, held } = stream.into_writer();
    if held.is_empty() {
        return Ok(());
    }
    let shown = if first_alone {
        first_line(&held)
    } else {
        held.as_slice()
    };
    write!(told, "{name}")?;
    tell_untimed(shown, told)?;
    if shown.last() == Some(&b'\n') {
        return Ok(());
    }
    if first_alone {
        writeln!(told)
    } else {
        writeln!(told, " (and no end of line)")
    }
}

/// Does what each line of these rows says.
fn go_through<R: Threads + Wait + Clock + Sync, O: Write>(
    rt: &R,
    bench: &mut Bench,
    rows: &[u8],
    out: &mut O,
) -> io::Result<()> {
    for line in rows.split(|byte| *byte == b'\n') {
        match RowLine::of(line) {
            RowLine::File(name) => bench.begin(name)?,
            RowLine::Repeated(count, text) => bench.add_often(count, text)?,
            RowLine::Lines(count, line) => bench.add_lines(count, line)?,
            RowLine::Folder(name) => bench.add_folder(name)?,
            RowLine::FailingOut(after) => bench.fail_out(after),
            RowLine::FailingErr(after) => bench.fail_err(after),
            RowLine::Command(words) => bench.command(rt, words, false, out)?,
            RowLine::Refused(words) => bench.command(rt, words, true, out)?,
            RowLine::Text(line) => bench.add_line(line)?,
        }
    }
    Ok(())
}

/// Does the command lines of these rows, and tells what each writes and its status.
pub(crate) fn do_rows<R: Threads + Wait + Clock + Sync, O: Write>(
    alloc: Global,
    rt: &R,
    rows: &[u8],
    out: &mut O,
) -> io::Result<bool> {
    let mut bench = Bench::new(alloc);
    go_through(rt, &mut bench, rows, out)?;
    Ok(true)
}
