//! Laying out a program: its tokens in order, each with the gap before it.

ghost use Rattle.std.specs.Prelude.{◌≡◌, [], ◌∷◌, ◌++◌, map, IfOk};
ghost use Rattle.c0_source.specs.Terminals.{Word, Sign};
ghost use Rattle.c0_syntax.specs.Layouts.{behind, touching, spaced, layout_type};
ghost use Rattle.c0_syntax.specs.Marks.{mark_of, terminal_of};
ghost use Rattle.c0_syntax.specs.Views.{name_of, type_of};

use crate::mark::{Gap, Mark, Terminal};
use crate::name::Name;
use crate::value_type::{TypeKind, ValueType};
use c0_source::kind::{Kind, Operator};
use std::alloc::{AllocError, Global};
use std::marker::Model;

mod expressions;
mod levels;
mod programs;
mod statements;

/// Tokens so far, each with the gap before it.
#[derive(Drop)]
pub struct Layout<'a> {
    marks: Vec<Mark<'a>>,
}

impl<'a> Model for Layout<'a> {
    ghost use Rattle.std.specs.Prelude.{List, map};
    ghost use Rattle.c0_syntax.specs.Layouts as l;
    ghost use Rattle.c0_syntax.specs.Marks.{mark_of};

    ghost Value = { List l.Mark };

    ghost view = { λ s. map mark_of s.marks.items };
}

impl<'a> Layout<'a> {
    /// No tokens.
    pub fn new(alloc: Global) -> Layout<'a>
        ensures { result ≡ [] }
    {
        Layout {
            marks: Vec::new(alloc),
        }
    }

    /// The tokens so far.
    pub fn marks(&self) -> &[Mark<'a>]
        ensures { map mark_of result.now ≡ self.now }
    {
        &self.marks
    }

    fn push(&mut self, gap: Gap, terminal: Terminal<'a>) -> Result<(), AllocError>
        ensures { IfOk result (λ _. self.new ≡ self.old ++ behind gap (terminal_of terminal.entry) ∷ []) }
    {
        self.marks.push(Mark { gap, terminal })?;
        Ok(())
    }

    fn sign(&mut self, gap: Gap, kind: Kind) -> Result<(), AllocError>
        ensures { IfOk result (λ _. self.new ≡ self.old ++ behind gap (Sign kind) ∷ []) }
    {
        self.push(gap, Terminal::Sign(kind))
    }

    fn touching(&mut self, kind: Kind) -> Result<(), AllocError>
        ensures { IfOk result (λ _. self.new ≡ self.old ++ touching kind ∷ []) }
    {
        self.sign(Gap::Touching, kind)
    }

    fn spaced(&mut self, kind: Kind) -> Result<(), AllocError>
        ensures { IfOk result (λ _. self.new ≡ self.old ++ spaced kind ∷ []) }
    {
        self.sign(Gap::Blank, kind)
    }

    fn name(&mut self, gap: Gap, name: &'a Name) -> Result<(), AllocError>
        ensures { IfOk result (λ _. self.new ≡ self.old ++ behind gap (Word (name_of name.now)) ∷ []) }
    {
        self.push(gap, Terminal::Word(&name.text))
    }

    fn value_type(&mut self, gap: Gap, value_type: &'a ValueType) -> Result<(), AllocError>
        ensures { IfOk result (λ _. self.new ≡ self.old ++ layout_type gap (type_of value_type.now)) }
    {
        match &value_type.kind {
            TypeKind::Basic(base) => self.sign(gap, Kind::Base(*base)),
            TypeKind::Struct(name) => {
                self.sign(gap, Kind::Struct)?;
                self.name(Gap::Blank, name)
            }
            TypeKind::Named(name) => self.name(gap, name),
            TypeKind::Pointer(to) => {
                self.value_type(gap, to)?;
                self.touching(Kind::Infix(Operator::Multiply))
            }
            TypeKind::Array(of) => {
                self.value_type(gap, of)?;
                self.touching(Kind::LBracket)?;
                self.touching(Kind::RBracket)
            }
        }
    }
}
