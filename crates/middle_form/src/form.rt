//! Structured code as programs hold it: registers, functions, layouts and texts go by their numbers.
use code_form::{Kind, Operation};

/// Structured code. It goes on behind itself, or leaves some of the loops and blocks round it.
#[derive(Debug, Drop)]
pub enum Code {
    /// One behind the other.
    Sequence(Vec<Code>),
    /// A simple instruction.
    Do(Operation),
    /// Register `to` gets what a cell holds: that `displacement` cells behind the offset, in what `register` refers to.
    Load {
        to: u32,
        register: u32,
        offset: Option<u32>,
        displacement: u32,
    },
    /// Such a cell gets what register `from` holds.
    Store {
        register: u32,
        offset: Option<u32>,
        displacement: u32,
        from: u32,
    },
    /// Calls a function with what these registers hold; `to` is where its result goes, if it has one.
    Call {
        to: Option<u32>,
        function: u32,
        arguments: Vec<u32>,
    },
    /// Stops the program with a text.
    Fail {
        text: u32,
    },
    /// The first where the condition is true, else the second.
    Choose {
        condition: u32,
        then_code: Box<Code>,
        else_code: Box<Code>,
    },
    /// The test, and while the condition is true behind it, the body and the test again.
    Loop {
        test: Box<Code>,
        condition: u32,
        body: Box<Code>,
    },
    /// Code that can be left.
    Block(Box<Code>),
    /// Leaves this many of the loops and blocks round it, and one more.
    Exit(u32),
}

/// A function. Its first `parameters` registers are its parameters.
#[derive(Debug, Drop)]
pub struct Function {
    /// The kind of its result; none where it gives nothing back.
    pub result: Option<Kind>,
    pub parameters: u32,
    /// The kind of each register.
    pub kinds: Vec<Kind>,
    pub body: Code,
    /// The register that holds its result behind its code.
    pub value: u32,
}

/// A program; function 0 is `main`.
#[derive(Debug, Drop)]
pub struct Middle {
    /// The text with number 1, then the others.
    pub texts: Vec<String>,
    /// For each struct or element that is allocated, the kinds of its cells.
    pub layouts: Vec<Vec<Kind>>,
    pub functions: Vec<Function>,
}
