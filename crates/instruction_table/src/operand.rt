//! What the operands of each instruction are.
ghost use Rattle.instruction_table.specs.Table.{cases_of};
ghost use Rattle.std.specs.Prelude.{◌≡◌, ◌∷◌, ◌≤◌, [], take};

use crate::name::Name;

/// A kind of operand: what stands in its place.
#[derive(Clone, Copy, PartialEq, Eq, Debug)]
pub enum Operand {
    Register,
    /// A register, or none.
    OptionalRegister,
    Scope,
    Block,
    Function,
    Layout,
    /// A text of the image, or 0 for the empty one.
    TextNumber,
    /// A number of cells.
    Number,
    Integer,
    Truth,
    Character,
    /// Any number of registers.
    Registers,
}

/// The kinds of an instruction's operands: the first `count` of these.
#[derive(Clone, Copy, PartialEq, Eq, Debug)]
pub struct Operands {
    pub kinds: [Operand; 4],
    pub count: usize,
}

fn some(kinds: [Operand; 4], count: usize) -> Operands
    ensures { result ≡ record { kinds = kinds; count = count } }
{
    Operands { kinds, count }
}

fn one(first: Operand) -> Operands
    ensures count { result.count ≡ 1 }
    ensures kinds { take result.count result.kinds ≡ first ∷ [] }
{
    some([first, first, first, first], 1)
}

fn two(first: Operand, second: Operand) -> Operands
    ensures count { result.count ≡ 2 }
    ensures kinds { take result.count result.kinds ≡ first ∷ second ∷ [] }
{
    some([first, second, second, second], 2)
}

fn three(first: Operand, second: Operand, third: Operand) -> Operands
    ensures count { result.count ≡ 3 }
    ensures kinds { take result.count result.kinds ≡ first ∷ second ∷ third ∷ [] }
{
    some([first, second, third, third], 3)
}

fn four(first: Operand, second: Operand, third: Operand, fourth: Operand) -> Operands
    ensures count { result.count ≡ 4 }
    ensures kinds { take result.count result.kinds ≡ first ∷ second ∷ third ∷ fourth ∷ [] }
{
    some([first, second, third, fourth], 4)
}

impl Name {
    /// The kinds of its operands, in their order.
    pub fn operands(self) -> Operands
        ensures few { result.count ≤ 4 }
        ensures kinds { take result.count result.kinds ≡ cases_of self }
    {
        use Operand::{
            Block, Character, Function, Integer, Layout, Number, OptionalRegister, Register,
            Registers, Scope, TextNumber, Truth,
        };
        match self {
            Name::Const => two(Register, Integer),
            Name::TextOf => two(Register, TextNumber),
            Name::BoolOf => two(Register, Truth),
            Name::CharOf => two(Register, Character),
            Name::Move | Name::Unary(_) | Name::Len => two(Register, Register),
            Name::Binary(_) | Name::Compare(_) => three(Register, Register, Register),
            Name::CheckIndex => four(Register, Register, Register, Number),
            Name::Aim => four(Scope, Register, OptionalRegister, Number),
            Name::Load => two(Register, Scope),
            Name::Store => two(Scope, Register),
            Name::Leave => one(Scope),
            Name::Prefetch => three(Register, OptionalRegister, Number),
            Name::Alloc => two(Register, Layout),
            Name::AllocArray => three(Register, Layout, Register),
            Name::Call => three(OptionalRegister, Function, Registers),
            Name::Jump => one(Block),
            Name::Branch => three(Register, Block, Block),
            Name::Null | Name::CheckNull | Name::Print | Name::Println | Name::Printint => one(
                Register,
            ),
            Name::Printbool | Name::Printchar | Name::Assert | Name::Return | Name::Error => one(
                Register,
            ),
            Name::Flush | Name::ReturnVoid => some([Register, Register, Register, Register], 0),
        }
    }
}
