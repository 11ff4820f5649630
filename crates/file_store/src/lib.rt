//! A store in files: each object's row of words in a file of its own, in a folder in memory or on a disk.
#![tactic(auto)]

mod bytes;
mod disk;
mod failures;
mod folder;
mod laws;
mod memory;
mod store;

pub use disk::{DiskFile, DiskFolder};
pub use folder::{Folder, MOST_BYTES};
pub use laws::{get_from_file, put_into_file};
pub use memory::{MemFile, MemFolder};
pub use store::{FileStore, FileStores};
