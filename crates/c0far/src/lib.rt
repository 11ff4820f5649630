//! The commands of the compiler and its runtime, over files and two streams.
#![tactic(auto)]

mod code;
pub mod drive;
mod images;
mod last_calls;
mod laws;
mod lives;
mod places;
mod plain;
mod replays;
mod room;
mod runs;
mod timing;

pub use command_files as files;
pub use command_line::{line, words};
pub use command_messages as say;
pub use laws::{live_shows_the_same, replays_never_fail};
pub use streams as stream;
