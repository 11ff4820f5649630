//! Puts and gets over folders in memory and on the disk, and over stores that fail or lie by plan, as its rows say, and prints what came of each. It goes
//! through the files of rows that the words name.
//!
//! A row that begins with `=` begins a test, over two ways to one new folder:
//! - `= port memory` and `= port missing`: puts and gets of an object's cells, over a folder in memory that is there, or is not;
//! - `= port disk NAME`: the same over a folder on the disk, in which a file of this name lies from before, of as many bytes as a row has, each of them 9;
//! - `= store foreign N`: writes and reads of a row's words, over two folders whose reads give so many bytes, and of which each write fails;
//! - `= store planned N`: the same over a folder in memory, where call `N` of the store fails by plan;
//! - `= port heap PLAN`: puts and gets over a store in memory that fails by plan: `never`, `at N` or `from N`;
//! - `= port lying LIE PLAN`: the same over a store in memory whose reads lie by plan: the lie is `older`, `other` or `short`. Each way has two cells, one for objects
//!   with even numbers and one for the others;
//! - `= store heap PLAN`: writes and reads of a row's words, over such a store;
//! - `= folder missing` and `= folder disk NAME`: writes and reads of a row's bytes, in such a folder itself.
//!
//! Before all these may stand `cells N`: then the pieces have so many cells, and not 64.
//!
//! The rows behind it use the words that the test holds, which are the cells of a piece where it goes over ports, and else those of a row, and one of the ways:
//! - `fill WORD` makes each of the words this one, `set AT WORD` the word there, and `show AT` tells the word there;
//! - `put OBJECT` writes the words, and `get OBJECT` reads words in their place; each tells how it ended, and what the way has counted, as `counts` does;
//! - `other` goes on with the other way;
//! - `file NAME COUNT BYTE` makes so many bytes, each of them this one, the whole of a file of the folder on the disk;
//! - `byte NAME AT` tells the byte there in a file of the folder on the disk, and how many bytes the file has;
//! - `remove` removes the folder on the disk.
//!
//! A row that is none of these is printed alone.
#![tactic(auto)]

mod disk;
mod foreign;
mod play;
mod rows;
mod tests;
mod ways;

use crate::disk::Disk;
use crate::tests::go_through;
use std::{env, fs, io, process};

fn main(rt: HostRuntime) -> io::Result<()> {
    let number = process::id(rt.process());
    let name = format!(in rt.alloc(); "file-store-tests-{number}")?;
    let disk = Disk::new(&rt, env::temp_dir(&rt)?.join(rt.alloc(), name.as_str())?);
    let words: Vec<String> = env::args(&rt)?.collect(rt.alloc())?;
    let mut out = io::writer(&rt);
    for name in words.iter().skip(1) {
        let text = fs::read_to_string(&rt, name.as_str())?;
        go_through(&disk, text.as_str(), &mut out)?;
    }
    Ok(())
}
