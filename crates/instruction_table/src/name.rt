//! The instructions' names, words and codes.
ghost use Rattle.instruction_table.specs.Table.{arithmetic_code, arithmetic_word, code_of, name_among, name_with, relation_code, relation_word, unary_code, unary_word, word_of};
ghost use Rattle.std.specs.Prelude.{◌≡◌};

use cells::Int32Op;
use code_form::{Relation, UnaryOperator};

/// The name of an instruction.
#[derive(Clone, Copy, PartialEq, Eq, Debug)]
pub enum Name {
    Const,
    TextOf,
    BoolOf,
    CharOf,
    Null,
    Move,
    Binary(Int32Op),
    Unary(UnaryOperator),
    Compare(Relation),
    CheckNull,
    CheckIndex,
    Len,
    Aim,
    Load,
    Store,
    Leave,
    Prefetch,
    Alloc,
    AllocArray,
    Call,
    Print,
    Println,
    Printint,
    Printbool,
    Printchar,
    Flush,
    Assert,
    Jump,
    Branch,
    Return,
    ReturnVoid,
    Error,
}

/// All names, by their codes.
static NAMES: [Name; 48] = [
    Name::Const,
    Name::TextOf,
    Name::BoolOf,
    Name::CharOf,
    Name::Null,
    Name::Move,
    Name::Binary(Int32Op::Add),
    Name::Binary(Int32Op::Sub),
    Name::Binary(Int32Op::Mul),
    Name::Binary(Int32Op::Div),
    Name::Binary(Int32Op::Mod),
    Name::Binary(Int32Op::And),
    Name::Binary(Int32Op::Or),
    Name::Binary(Int32Op::Xor),
    Name::Binary(Int32Op::Shl),
    Name::Binary(Int32Op::Shr),
    Name::Unary(UnaryOperator::Negate),
    Name::Unary(UnaryOperator::Complement),
    Name::Unary(UnaryOperator::Not),
    Name::Compare(Relation::Equal),
    Name::Compare(Relation::NotEqual),
    Name::Compare(Relation::Less),
    Name::Compare(Relation::LessOrEqual),
    Name::Compare(Relation::Greater),
    Name::Compare(Relation::GreaterOrEqual),
    Name::CheckNull,
    Name::CheckIndex,
    Name::Len,
    Name::Aim,
    Name::Load,
    Name::Store,
    Name::Leave,
    Name::Prefetch,
    Name::Alloc,
    Name::AllocArray,
    Name::Call,
    Name::Print,
    Name::Println,
    Name::Printint,
    Name::Printbool,
    Name::Printchar,
    Name::Flush,
    Name::Assert,
    Name::Jump,
    Name::Branch,
    Name::Return,
    Name::ReturnVoid,
    Name::Error,
];

fn code_of_arithmetic(operator: Int32Op) -> u8
    ensures { result ≡ arithmetic_code operator }
{
    match operator {
        Int32Op::Add => 0x10,
        Int32Op::Sub => 0x11,
        Int32Op::Mul => 0x12,
        Int32Op::Div => 0x13,
        Int32Op::Mod => 0x14,
        Int32Op::And => 0x15,
        Int32Op::Or => 0x16,
        Int32Op::Xor => 0x17,
        Int32Op::Shl => 0x18,
        Int32Op::Shr => 0x19,
    }
}

fn code_of_unary(operator: UnaryOperator) -> u8
    ensures { result ≡ unary_code operator }
{
    match operator {
        UnaryOperator::Negate => 0x1a,
        UnaryOperator::Complement => 0x1b,
        UnaryOperator::Not => 0x1c,
    }
}

fn code_of_relation(relation: Relation) -> u8
    ensures { result ≡ relation_code relation }
{
    match relation {
        Relation::Equal => 0x20,
        Relation::NotEqual => 0x21,
        Relation::Less => 0x22,
        Relation::LessOrEqual => 0x23,
        Relation::Greater => 0x24,
        Relation::GreaterOrEqual => 0x25,
    }
}

fn word_of_arithmetic(operator: Int32Op) -> &'static str
    ensures { result.now ≡ arithmetic_word operator }
{
    match operator {
        Int32Op::Add => "add",
        Int32Op::Sub => "sub",
        Int32Op::Mul => "mul",
        Int32Op::Div => "div",
        Int32Op::Mod => "mod",
        Int32Op::And => "and",
        Int32Op::Or => "or",
        Int32Op::Xor => "xor",
        Int32Op::Shl => "shl",
        Int32Op::Shr => "shr",
    }
}

fn word_of_unary(operator: UnaryOperator) -> &'static str
    ensures { result.now ≡ unary_word operator }
{
    match operator {
        UnaryOperator::Negate => "neg",
        UnaryOperator::Complement => "not",
        UnaryOperator::Not => "lnot",
    }
}

fn word_of_relation(relation: Relation) -> &'static str
    ensures { result.now ≡ relation_word relation }
{
    match relation {
        Relation::Equal => "eq",
        Relation::NotEqual => "ne",
        Relation::Less => "lt",
        Relation::LessOrEqual => "le",
        Relation::Greater => "gt",
        Relation::GreaterOrEqual => "ge",
    }
}

impl Name {
    /// The byte that stands for it in the bytes of an image.
    pub fn code(self) -> u8
        ensures { result ≡ code_of self }
    {
        match self {
            Name::Const => 0x01,
            Name::TextOf => 0x02,
            Name::BoolOf => 0x03,
            Name::CharOf => 0x04,
            Name::Null => 0x05,
            Name::Move => 0x06,
            Name::Binary(operator) => code_of_arithmetic(operator),
            Name::Unary(operator) => code_of_unary(operator),
            Name::Compare(relation) => code_of_relation(relation),
            Name::CheckNull => 0x30,
            Name::CheckIndex => 0x31,
            Name::Len => 0x32,
            Name::Aim => 0x33,
            Name::Load => 0x34,
            Name::Store => 0x35,
            Name::Leave => 0x36,
            Name::Prefetch => 0x37,
            Name::Alloc => 0x40,
            Name::AllocArray => 0x41,
            Name::Call => 0x50,
            Name::Print => 0x51,
            Name::Println => 0x52,
            Name::Printint => 0x53,
            Name::Printbool => 0x54,
            Name::Printchar => 0x55,
            Name::Flush => 0x56,
            Name::Assert => 0x57,
            Name::Jump => 0x60,
            Name::Branch => 0x61,
            Name::Return => 0x62,
            Name::ReturnVoid => 0x63,
            Name::Error => 0x64,
        }
    }

    /// The word that stands for it in a listing.
    pub fn word(self) -> &'static str
        ensures { result.now ≡ word_of self }
    {
        match self {
            Name::Const => "const",
            Name::TextOf => "text",
            Name::BoolOf => "bool",
            Name::CharOf => "char",
            Name::Null => "null",
            Name::Move => "move",
            Name::Binary(operator) => word_of_arithmetic(operator),
            Name::Unary(operator) => word_of_unary(operator),
            Name::Compare(relation) => word_of_relation(relation),
            Name::CheckNull => "chk_null",
            Name::CheckIndex => "chk_index",
            Name::Len => "len",
            Name::Aim => "aim",
            Name::Load => "ld",
            Name::Store => "st",
            Name::Leave => "leave",
            Name::Prefetch => "prefetch",
            Name::Alloc => "alloc",
            Name::AllocArray => "alloc_array",
            Name::Call => "call",
            Name::Print => "print",
            Name::Println => "println",
            Name::Printint => "printint",
            Name::Printbool => "printbool",
            Name::Printchar => "printchar",
            Name::Flush => "flush",
            Name::Assert => "assert",
            Name::Jump => "jump",
            Name::Branch => "branch",
            Name::Return => "ret",
            Name::ReturnVoid => "retv",
            Name::Error => "error",
        }
    }
}

/// The first of these names that has this code.
fn first_with(names: &[Name], code: u8) -> Option<Name>
    ensures { result ≡ name_among names.now code }
{
    for name in names {
        if name.code() == code {
            return Some(*name);
        }
    }
    None
}

/// The name with this code, if there is one.
pub fn name_of_code(code: u8) -> Option<Name>
    ensures { result ≡ name_with code }
{
    first_with(&NAMES, code)
}
