//! What the caller of a run sees of it and may hold up.

/// What is asked and told while programs run. No contract depends on its answers: a gate that never lets a program go holds it up for ever.
pub trait Gate: Sync {
    /// Whether the program of this number may complete its next instructions.
    fn may_go(&self, program: u32) -> bool;

    /// The program of this number has ended.
    fn stopped(&self, program: u32);

    /// The evacuator or fetcher of this number, counted on from the programs, has done a round or served a hint.
    fn turned(&self, mover: u32);
}

/// A gate that holds nothing up.
#[derive(Clone, Copy, Debug)]
pub struct OpenGate;

impl Gate for OpenGate {
    fn may_go(&self, _program: u32) -> bool {
        true
    }

    fn stopped(&self, _program: u32) {}

    fn turned(&self, _mover: u32) {}
}
