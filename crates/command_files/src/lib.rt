//! The files that a command works on, by their names: those of the folder in which the program works, and files in memory.
#![tactic(auto)]

mod files;
mod replacing;

pub use files::{FileError, Files, FolderFiles, MemFiles};
