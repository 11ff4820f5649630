//! Doing rows.
ghost use Rattle.std.specs.Prelude.{◌≡◌, length, IfOk};

use crate::disk::Disk;
use crate::rows::RowStep;
use crate::ways::Way;
use cells::Want;
use std::io::Write;
use std::{fmt, io, mem};

/// What a test holds: the words, the way that is in use, and the other.
#[derive(Drop)]
struct Bench<W: Way> {
    way: W,
    other: W,
    words: Vec<u64>,
}

/// Makes the word there this one.
fn set(words: &mut [u64], at: usize, word: u64)
    ensures { length words.new ≡ length words.old }
{
    if at < words.len() {
        words[at] = word;
    }
}

impl<W: Way> Bench<W> {
    /// Tells how a call ended, and what the way has counted.
    fn tell<E: fmt::Debug + Drop, O: Write>(
        &self,
        ended: Result<(), E>,
        out: &mut O,
    ) -> io::Result<()> {
        let counts = self.way.counts();
        match ended {
            Ok(()) => write!(out, ": {counts}"),
            Err(error) => write!(out, ": {error:?}, {counts}"),
        }
    }

    /// Tells the word there.
    fn show<O: Write>(&self, at: usize, out: &mut O) -> io::Result<()> {
        match self.words.get(at) {
            Some(word) => write!(out, ": {word}"),
            None => Ok(()),
        }
    }

    /// Does a row, and tells what came of it.
    fn row<O: Write>(&mut self, disk: &Disk, row: RowStep, out: &mut O) -> io::Result<()>
        requires { W.takes self.old.way (length self.old.words.items) × W.takes self.old.other (length self.old.words.items) }
        ensures { IfOk result (λ _. W.takes self.new.way (length self.new.words.items) × W.takes self.new.other (length self.new.words.items)) }
    {
        match row {
            RowStep::Fill(word) => {
                let count = self.words.len();
                self.words = vec![in disk.alloc(); word; count]?;
            }
            RowStep::Set(at, word) => set(&mut self.words, at, word),
            RowStep::Show(at) => self.show(at, out)?,
            RowStep::Put(object) => {
                let ended = self.way.put(object, &self.words);
                self.tell(ended, out)?;
            }
            RowStep::Get(object) => {
                let ended = self.way.get(object, &mut self.words);
                self.tell(ended, out)?;
            }
            RowStep::Counts => self.tell::<Want, O>(Ok(()), out)?,
            RowStep::Other => mem::swap(&mut self.way, &mut self.other),
            RowStep::File(name, count, byte) => disk.write(name, count, byte)?,
            RowStep::Byte(name, at) => disk.show(name, at, out)?,
            RowStep::Remove => disk.remove()?,
            RowStep::Nothing => {}
        }
        Ok(())
    }
}

/// Why a test was not begun.
fn refusal(want: Want) -> io::Error {
    match want {
        Want::OutOfMemory => io::Error::from(io::ErrorKind::OutOfMemory),
        _ => io::Error::from(io::ErrorKind::Other),
    }
}

/// Does these rows with so many words and these two ways, of which the first is in use.
pub(crate) fn play<W: Way, O: Write>(
    disk: &Disk,
    ways: Result<(W, W), Want>,
    count: usize,
    rows: &[&str],
    out: &mut O,
) -> io::Result<()>
    requires { IfOk ways (λ two. W.takes two.0 count × W.takes two.1 count) }
{
    let (way, other) = ways.map_err(refusal)?;
    let mut bench = Bench {
        way,
        other,
        words: vec![in disk.alloc(); 0; count]?,
    };
    for line in rows {
        let words: Vec<&str> = line.split(' ').collect(disk.alloc())?;
        write!(out, "{line}")?;
        bench.row(disk, RowStep::of(&words), out)?;
        writeln!(out)?;
    }
    Ok(())
}
