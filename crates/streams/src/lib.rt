//! Streams that tell of their failed writes.
#![tactic(auto)]

mod stream;

pub use stream::{CountedWriter, Failed, Stream};
