//! Types.

ghost use Rattle.std.specs.Prelude.{◌≡◌, ◌<◌, ◌≤◌, Ok, IfOk};
ghost use Rattle.c0_syntax.specs.Views.{type_of};
ghost use Rattle.c0_grammar_laws.specs.Outcome.{Gives, Outcome, kind_at, plain_at};
ghost use Rattle.c0_grammar_laws.specs.ReadExpressions.{ReadType, array_behind, base_by, leaf_type, pointer_to, read_type, suffix_by, suffixes};
ghost use Rattle.c0_grammar_laws.specs.Places.{Position, TypeStands};
ghost use Rattle.c0_parser_cursor.specs.Found.{GivesType, found_type, height_of_step, type_of_step};

use super::Cursor;
use crate::found::{FoundType, TypeStep};
use crate::type_names::TypeNames;
use c0_grammar_laws::read_error::ReadError;
use c0_source::kind::{Kind, Operator};
use c0_syntax::value_type::{TypeKind, ValueType};

impl<'a> Cursor<'a> {
    fn type_node(&self, start: usize, kind: TypeKind) -> ValueType
        ensures node { result.kind ≡ kind }
        ensures start { result.span.start ≡ start }
        ensures end { result.span.end ≡ self.now.position.end }
    {
        ValueType {
            kind,
            span: self.span_from(start),
        }
    }

    /// A type without `*` and `[]`.
    fn base_type(&mut self, types: &TypeNames<'_>) -> Result<ValueType, ReadError>
        ensures given { Gives (λ t. leaf_type (type_of t) self.new.seen) result (base_by (kind_at types.now self.old.seen) self.old.seen) }
        ensures placed { IfOk result (λ t. TypeStands self.old.position t self.new.position) }
    {
        let start = self.start();
        match self.peek_among(types) {
            Kind::Base(base) => {
                self.advance();
                Ok(self.type_node(start, TypeKind::Basic(base)))
            }
            Kind::Struct => {
                self.advance();
                let name = self.name()?;
                Ok(self.type_node(start, TypeKind::Struct(name)))
            }
            Kind::TypeName => {
                let name = self.take_name()?;
                Ok(self.type_node(start, TypeKind::Named(name)))
            }
            _ => Err(self.syntax()),
        }
    }

    /// The type with the `*` that stands next.
    fn pointer_type(&mut self, depth: usize, of: FoundType) -> Result<FoundType, ReadError>
        requires { of.height < depth }
        ensures given { Gives (found_type self.new.seen) result (Ok (pointer_to (found_type self.old.seen of))) }
        ensures placed { (first : Position) → TypeStands first of.value_type self.old.position → IfOk result (λ f. TypeStands first f.value_type self.new.position) }
        ensures small { IfOk result (λ f. f.height ≤ depth) }
    {
        self.advance();
        let start = of.value_type.span.start;
        let inner = Box::new(self.alloc, of.value_type)?;
        Ok(FoundType {
            value_type: self.type_node(start, TypeKind::Pointer(inner)),
            height: of.height + 1,
        })
    }

    /// The type with the `[]` whose `[` stands next.
    fn array_type(&mut self, depth: usize, of: FoundType) -> Result<FoundType, ReadError>
        requires { of.height < depth }
        ensures given { Gives (found_type self.new.seen) result (array_behind (found_type self.old.seen of)) }
        ensures placed { (first : Position) → TypeStands first of.value_type self.old.position → IfOk result (λ f. TypeStands first f.value_type self.new.position) }
        ensures small { IfOk result (λ f. f.height ≤ depth) }
    {
        self.advance();
        self.rbracket()?;
        let start = of.value_type.span.start;
        let inner = Box::new(self.alloc, of.value_type)?;
        Ok(FoundType {
            value_type: self.type_node(start, TypeKind::Array(inner)),
            height: of.height + 1,
        })
    }

    /// The type with the `*` or `[]` that stands next, if one does.
    fn type_suffix(&mut self, depth: usize, found: FoundType) -> Result<TypeStep, ReadError>
        requires { found.height ≤ depth }
        ensures given { (go_on : ReadType → Outcome ReadType) → GivesType go_on self.new.seen result (suffix_by depth go_on (plain_at self.old.seen) (found_type self.old.seen found)) }
        ensures placed { (first : Position) → TypeStands first found.value_type self.old.position → IfOk result (λ step. TypeStands first (type_of_step step) self.new.position) }
        ensures small { IfOk result (λ step. height_of_step step ≤ depth) }
    {
        match self.peek() {
            Kind::Infix(Operator::Multiply) => {
                if found.height >= depth {
                    return Err(self.too_deep());
                }
                let pointer = self.pointer_type(depth, found)?;
                Ok(TypeStep::More(pointer))
            }
            Kind::LBracket => {
                if found.height >= depth {
                    return Err(self.too_deep());
                }
                let array = self.array_type(depth, found)?;
                Ok(TypeStep::More(array))
            }
            _ => Ok(TypeStep::Done(found)),
        }
    }

    fn type_suffixes(&mut self, depth: usize, found: FoundType) -> Result<FoundType, ReadError>
        requires { found.height ≤ depth }
        ensures given { Gives (found_type self.new.seen) result (suffixes depth depth (found_type self.old.seen found)) }
        ensures placed { (first : Position) → TypeStands first found.value_type self.old.position → IfOk result (λ f. TypeStands first f.value_type self.new.position) }
        ensures small { IfOk result (λ f. f.height ≤ depth) }
    {
        let mut found = found;
        for _turn in 0..depth {
            match self.type_suffix(depth, found)? {
                TypeStep::More(more) => found = more,
                TypeStep::Done(done) => return Ok(done),
            }
        }
        Err(self.too_deep())
    }

    /// A type of at most `depth` nodes on a path.
    pub fn value_type(
        &mut self,
        types: &TypeNames<'_>,
        depth: usize,
    ) -> Result<FoundType, ReadError>
        ensures given { Gives (found_type self.new.seen) result (read_type types.now depth self.old.seen) }
        ensures placed { IfOk result (λ f. TypeStands self.old.position f.value_type self.new.position) }
        ensures small { IfOk result (λ f. f.height ≤ depth) }
    {
        if depth == 0 {
            return Err(self.too_deep());
        }
        let value_type = self.base_type(types)?;
        self.type_suffixes(
            depth,
            FoundType {
                value_type,
                height: 1,
            },
        )
    }
}
