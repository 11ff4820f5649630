//! Typed programs as code holds them: names are numbers, and each node tells its type.

ghost use Rattle.std.specs.Prelude.{◌≡◌, IfOk};
ghost use Rattle.c0_typed.specs.Views.{plain_of, target_of, type_of};

use cells::Int32Op;
use std::alloc::{AllocError, Global};
use std::sync::Arc;

/// A type that is neither a pointer nor an array.
#[derive(Clone, Copy, PartialEq, Eq, Debug)]
pub enum PlainType {
    /// What a function without a result gives; no value has it.
    Void,
    Int,
    Bool,
    Char,
    /// The language's `string`.
    Text,
    /// The struct with this number.
    Struct(u32),
}

/// The pointers and arrays that stand round a type, from the outermost on. Types that were made of one another share those further in, so that
/// they are had once more by one step, however many there are.
#[derive(Debug, PartialEq, Eq, Drop)]
pub enum Levels {
    /// None: the type itself.
    Innermost,
    Pointer(Arc<Levels>),
    Array(Arc<Levels>),
}

/// What a pointer points to, or an array holds: a type within pointers and arrays.
#[derive(Debug, PartialEq, Eq, Drop)]
pub struct Target {
    pub levels: Arc<Levels>,
    pub innermost: PlainType,
}

/// A type of a value, or of what is allocated.
#[derive(Debug, PartialEq, Eq, Drop)]
pub enum ValueType {
    Plain(PlainType),
    /// A pointer, to what has this type.
    Pointer(Target),
    /// An array, of elements of this type.
    Array(Target),
}

impl Target {
    /// A target that is neither a pointer nor an array. `Err` where memory is refused.
    pub fn of_plain(alloc: Global, innermost: PlainType) -> Result<Target, AllocError>
        ensures { IfOk result (λ r. target_of r ≡ plain_of innermost) }
    {
        let levels = Arc::new(alloc, Levels::Innermost)?;
        Ok(Target { levels, innermost })
    }

    /// The type that this is. `Err` where there are 2^64 - 1 of it.
    pub fn value_type(&self) -> Result<ValueType, AllocError>
        ensures { IfOk result (λ r. type_of r ≡ target_of self.now) }
    {
        let innermost = self.innermost;
        match &*self.levels {
            Levels::Innermost => Ok(ValueType::Plain(innermost)),
            Levels::Pointer(inner) => {
                let levels = inner.clone()?;
                Ok(ValueType::Pointer(Target { levels, innermost }))
            }
            Levels::Array(inner) => {
                let levels = inner.clone()?;
                Ok(ValueType::Array(Target { levels, innermost }))
            }
        }
    }

    /// The same target once more. `Err` where there are 2^64 - 1 of it.
    pub fn share(&self) -> Result<Target, AllocError>
        ensures { IfOk result (λ r. target_of r ≡ target_of self.now) }
    {
        Ok(Target {
            levels: self.levels.clone()?,
            innermost: self.innermost,
        })
    }
}

/// An operator on one value.
#[derive(Clone, Copy, PartialEq, Eq, Debug)]
pub enum UnaryOperator {
    Negate,
    Complement,
    Not,
}

/// A comparison.
#[derive(Clone, Copy, PartialEq, Eq, Debug)]
pub enum Relation {
    Equal,
    Unequal,
    Below,
    AtMost,
    Above,
    AtLeast,
}

/// A call of the library that prints.
#[derive(Clone, Copy, PartialEq, Eq, Debug)]
pub enum Output {
    Print,
    Println,
    Printint,
    Printbool,
    Printchar,
    Flush,
}

/// A constant.
#[derive(Clone, Copy, PartialEq, Eq, Debug)]
pub enum Constant {
    Number(i32),
    Truth(bool),
    Letter(u8),
    /// The text with this number: 0 is the empty one, then come those of the program.
    Text(u32),
}

/// Where a part of a program stands in the text: the offset of its first byte.
#[derive(Clone, Copy, PartialEq, Eq, Debug)]
pub struct Site {
    pub offset: usize,
}

/// An expression.
#[derive(Debug, Drop)]
#[cycle(expression)]
pub enum Expression {
    /// An expression, and where it stands. What stops a program tells this of its first operand, or of its condition; it means nothing else.
    At(Site, Box<Expression>),
    Constant(Constant),
    /// NULL, of this pointer type.
    Null(ValueType),
    /// The local with this number: 0 is the function's result, then come the parameters and the other locals.
    Local(u32),
    Unary(UnaryOperator, Box<Expression>),
    /// An operator on two numbers, from left to right.
    Binary(Int32Op, Box<Expression>, Box<Expression>),
    /// A comparison of values of this type.
    Compare(ValueType, Relation, Box<Expression>, Box<Expression>),
    And(Box<Expression>, Box<Expression>),
    Or(Box<Expression>, Box<Expression>),
    /// `condition ? first : second`, of this type.
    Choose(ValueType, Box<Expression>, Box<Expression>, Box<Expression>),
    /// A call of the function with this number.
    Call(u32, Vec<Expression>),
    /// A call of the library.
    Print(Output, Vec<Expression>),
    /// What stands at a place, of this type.
    Load(ValueType, Box<Place>),
    /// A fresh pointer to what has this type.
    Alloc(ValueType),
    /// A fresh array of elements of this type, and how many.
    AllocArray(ValueType, Box<Expression>),
    /// The length of an array of elements of this type.
    Length(ValueType, Box<Expression>),
}

/// A place of the heap.
#[derive(Debug, Drop)]
#[cycle(expression)]
pub enum Place {
    /// What a pointer points to, of this type.
    Deref(ValueType, Box<Expression>),
    /// An element of an array, of this type, by its index.
    Index(ValueType, Box<Expression>, Box<Expression>),
    /// Of the struct with this number at a place, the field with this number.
    Field(u32, Box<Place>, u32),
}

/// A statement.
#[derive(Debug, Drop)]
pub enum Statement {
    /// Statements in order.
    Block(Vec<Statement>),
    /// Gives a local a value.
    Set(u32, Expression),
    /// Gives a local the value of an operator on what it held before, and the expression's value.
    Update(u32, Int32Op, Expression),
    /// Writes a value to a place, which is found before the value.
    Store(Place, Expression),
    /// Writes the value of an operator on what stood at a place before, and the expression's value. The place is found first.
    StoreUpdate(Place, Int32Op, Expression),
    /// Evaluates an expression.
    Do(Expression),
    If(Expression, Box<Statement>, Box<Statement>),
    /// The invariants, the condition, the body and the third part of a loop.
    Loop(Vec<Expression>, Expression, Box<Statement>, Box<Statement>),
    /// Returns no value.
    Return,
    /// Returns a value.
    ReturnValue(Expression),
    /// Ends the nearest loop.
    Break,
    /// Ends a turn of the nearest loop, which goes on with its third part.
    Continue,
    Assert(Expression),
    /// Stops the program with a text.
    Error(Expression),
    /// Conditions of a contract that must hold here, where contracts are checked.
    Check(Vec<Expression>),
}

/// A function of the text. A body that runs off its end returns what its result holds.
#[derive(Debug, Drop)]
pub struct Function {
    pub result: ValueType,
    pub parameters: Vec<ValueType>,
    /// The locals beside the parameters.
    pub locals: Vec<ValueType>,
    /// What must hold on entry.
    pub preconditions: Vec<Expression>,
    /// What must hold at each return.
    pub postconditions: Vec<Expression>,
    pub body: Vec<Statement>,
}

/// A struct: the types of its fields.
#[derive(Debug, Drop)]
pub struct Struct {
    pub fields: Vec<ValueType>,
}

/// A program as the static rules leave it.
#[derive(Debug, Drop)]
pub struct Typed {
    /// In the order of their definitions.
    pub structs: Vec<Struct>,
    pub functions: Vec<Function>,
    /// The text with number 1, then the others.
    pub texts: Vec<String>,
    /// The number of the function `main`.
    pub main: usize,
}
