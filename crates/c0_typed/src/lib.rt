//! Typed programs, their bounded meaning, and the types of what they do.
#![tactic(auto)]

mod tree;

ghost use Rattle.c0_typed.specs.Laws.{OffsetTold, CellThere};
ghost use Rattle.c0_typed.specs.More.{MoreTurnsExtend};
ghost use Rattle.c0_typed.specs.Typing.{EvalSound, LocateSound, ExecSound, CallSound, FreshSound, LoadSound, StoreSound, MainSound};

pub use tree::{
    Constant, Expression, Function, Levels, Output, Place, PlainType, Relation, Site, Statement,
    Struct, Target, Typed, UnaryOperator, ValueType,
};

/// A well-typed program does what its types say, in every well-typed state: an expression gives a value of its type,
/// a place holds what its type says, and each allocation keeps what it was made for.
pub fn sound()
    ensures eval { EvalSound }
    ensures locate { LocateSound }
    ensures exec { ExecSound }
    ensures call { CallSound }
    ensures main { MainSound }
    ensures fresh { FreshSound }
    ensures load { LoadSound }
    ensures store { StoreSound }
{}

/// Trees of one type have the same shape, so that the offset of a place is told by the types on its way.
pub fn layouts()
    ensures offset { OffsetTold }
    ensures cell { CellThere }
{}

/// More turns change nothing where the program has ended, and else print more.
pub fn more_turns()
    ensures { MoreTurnsExtend }
{}
