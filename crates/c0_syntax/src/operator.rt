//! Operators on one operand.

/// An operator before its operand.
#[derive(Clone, Copy, Debug, PartialEq, Eq)]
pub enum PrefixOperator {
    /// `!`.
    Not,
    /// `~`.
    Complement,
    /// `-`.
    Negate,
    /// `*`.
    Dereference,
}

/// An operator behind a destination, as a statement.
#[derive(Clone, Copy, Debug, PartialEq, Eq)]
pub enum Change {
    /// `++`.
    Increment,
    /// `--`.
    Decrement,
}
