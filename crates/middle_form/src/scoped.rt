//! Scoped code as programs hold it: the middle form, with the scopes by which cells are reached.
use code_form::{Kind, Operation};

/// Structured code that says by which scope it reaches each cell. Cells are named as in the middle form.
#[derive(Debug, Drop)]
pub enum ScopedCode {
    /// One behind the other.
    Sequence(Vec<ScopedCode>),
    /// A simple instruction.
    Do(Operation),
    /// The scope is aimed at a cell, and register `to` gets what the cell holds.
    Load {
        to: u32,
        scope: u8,
        register: u32,
        offset: Option<u32>,
        displacement: u32,
    },
    /// The scope is aimed at a cell, and the cell gets what register `from` holds.
    Store {
        scope: u8,
        register: u32,
        offset: Option<u32>,
        displacement: u32,
        from: u32,
    },
    /// Register `to` gets what the cell holds at which the scope was aimed before.
    LoadBy {
        to: u32,
        scope: u8,
        register: u32,
        offset: Option<u32>,
        displacement: u32,
    },
    /// The cell at which the scope was aimed before gets what register `from` holds.
    StoreBy {
        scope: u8,
        register: u32,
        offset: Option<u32>,
        displacement: u32,
        from: u32,
    },
    /// The scope is aimed at a cell, or at nothing where there is no such cell.
    Aim {
        scope: u8,
        register: u32,
        offset: Option<u32>,
        displacement: u32,
    },
    /// The scope is shut.
    Leave(u8),
    /// Does nothing, and no instruction comes of it: from here on nothing is known of the scope.
    Loose(u8),
    /// Calls a function with what these registers hold; `to` is where its result goes, if it has one.
    Call {
        to: Option<u32>,
        function: u32,
        arguments: Vec<u32>,
    },
    /// Stops the program with a text.
    Fail {
        text: u32,
    },
    /// The first where the condition is true, else the second.
    Choose {
        condition: u32,
        then_code: Box<ScopedCode>,
        else_code: Box<ScopedCode>,
    },
    /// The test, and while the condition is true behind it, the body and the test again.
    Loop {
        test: Box<ScopedCode>,
        condition: u32,
        body: Box<ScopedCode>,
    },
    /// Code that can be left.
    Block(Box<ScopedCode>),
    /// Leaves this many of the loops and blocks round it, and one more.
    Exit(u32),
}

/// A function. Its first `parameters` registers are its parameters.
#[derive(Debug, Drop)]
pub struct ScopedFunction {
    /// The kind of its result; none where it gives nothing back.
    pub result: Option<Kind>,
    pub parameters: u32,
    /// The kind of each register.
    pub kinds: Vec<Kind>,
    /// How many scopes it has.
    pub scopes: u8,
    pub body: ScopedCode,
    /// The register that holds its result behind its code.
    pub value: u32,
}

/// A program with its scopes; function 0 is `main`.
#[derive(Debug, Drop)]
pub struct Scoped {
    /// The text with number 1, then the others.
    pub texts: Vec<String>,
    /// For each struct or element that is allocated, the kinds of its cells.
    pub layouts: Vec<Vec<Kind>>,
    pub functions: Vec<ScopedFunction>,
}
