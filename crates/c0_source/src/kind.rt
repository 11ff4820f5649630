//! What a token can be.

/// An operator between two operands.
#[derive(Clone, Copy, Debug, PartialEq, Eq)]
pub enum Operator {
    Or,
    And,
    BitOr,
    BitXor,
    BitAnd,
    Equal,
    NotEqual,
    Less,
    LessEqual,
    Greater,
    GreaterEqual,
    ShiftLeft,
    ShiftRight,
    Add,
    Subtract,
    Multiply,
    Divide,
    Modulo,
}

/// A type that has a keyword.
#[derive(Clone, Copy, Debug, PartialEq, Eq)]
pub enum Base {
    Int,
    Bool,
    Char,
    String,
    Void,
}

/// A word of contracts that is a keyword inside annotations.
#[derive(Clone, Copy, Debug, PartialEq, Eq)]
pub enum Clause {
    Requires,
    Ensures,
    LoopInvariant,
}

/// What a token is. The signs `-` and `*` are `Infix` before an operand too.
#[derive(Clone, Copy, Debug, PartialEq, Eq)]
pub enum Kind {
    /// No bytes, behind the last token of a text.
    EndOfText,
    Name,
    /// A name that a `typedef` declared; the lexer gives `Name`.
    TypeName,
    Text,
    Use,
    /// A number by its value, at most 2^31 where it is decimal.
    Number(u32),
    /// A character by its code.
    Character(u8),
    Truth(bool),
    Null,
    Base(Base),
    Struct,
    Typedef,
    If,
    Else,
    While,
    For,
    Return,
    Assert,
    Error,
    Alloc,
    AllocArray,
    Break,
    Continue,
    Clause(Clause),
    /// `\result`.
    Result,
    /// `\length`.
    Length,
    /// The opening of an annotation.
    Begin,
    /// The end of an annotation: `@*/`, or the end of its line, which has no bytes at the text's end.
    End,
    LParen,
    RParen,
    LBrace,
    RBrace,
    LBracket,
    RBracket,
    Semi,
    Comma,
    Dot,
    Arrow,
    Question,
    Colon,
    Bang,
    Tilde,
    Assign,
    PlusPlus,
    MinusMinus,
    Infix(Operator),
    /// An operator with `=` behind it, as `+=`.
    Update(Operator),
}

/// Where a token stands: outside annotations, in one of `//@`, or in one of `/*@`.
#[derive(Clone, Copy, Debug, PartialEq, Eq)]
pub enum Mode {
    Plain,
    Line,
    Block,
}

/// What a piece of a text is: a blank or a comment, the opening of an annotation, or another token.
#[derive(Clone, Copy, Debug, PartialEq, Eq)]
pub enum Piece {
    Gap,
    Opens(Mode),
    Token(Kind),
}
