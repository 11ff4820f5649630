//! Laying out expressions.

ghost use Rattle.std.specs.Prelude.{◌≡◌, true, [], ◌∷◌, ◌++◌, IfOk};
ghost use Rattle.c0_source.specs.declared.kind.Kind.TheVariants as k;
ghost use Rattle.c0_source.specs.Terminals.{Word, Sign};
ghost use Rattle.c0_syntax.specs.declared.mark.Gap.TheVariants as g;
ghost use Rattle.c0_syntax.specs.Trees as t;
ghost use Rattle.c0_syntax.specs.Expressions.{prefix_sign as spec_prefix_sign};
ghost use Rattle.c0_syntax.specs.Layouts.{behind, touching, spaced, comma_unless, gap_of_item, layout_type, layout_expression, layout_arguments};
ghost use Rattle.c0_syntax.specs.Views.{name_of, type_of, expression_of, expressions_of};

use super::Layout;
use crate::expression::{Expression, ExpressionKind};
use crate::mark::{Gap, Terminal};
use crate::name::Name;
use crate::operator::PrefixOperator;
use crate::value_type::ValueType;
use c0_source::kind::{Kind, Operator};
use std::alloc::AllocError;

fn prefix_sign(operator: PrefixOperator) -> Kind
    ensures { result ≡ spec_prefix_sign operator }
{
    match operator {
        PrefixOperator::Not => Kind::Bang,
        PrefixOperator::Complement => Kind::Tilde,
        PrefixOperator::Negate => Kind::Infix(Operator::Subtract),
        PrefixOperator::Dereference => Kind::Infix(Operator::Multiply),
    }
}

impl<'a> Layout<'a> {
    // A sign and `(`.
    fn open(&mut self, gap: Gap, sign: Kind) -> Result<(), AllocError>
        ensures { IfOk result (λ _. self.new ≡ self.old ++ behind gap (Sign sign) ∷ touching k.LParen ∷ []) }
    {
        self.sign(gap, sign)?;
        self.touching(Kind::LParen)
    }

    // `alloc` or `alloc_array`, `(` and a type.
    fn open_alloc(
        &mut self,
        gap: Gap,
        sign: Kind,
        value_type: &'a ValueType,
    ) -> Result<(), AllocError>
        ensures { IfOk result (λ _. self.new ≡ self.old ++ behind gap (Sign sign) ∷ touching k.LParen ∷ layout_type g.Touching (type_of value_type.now)) }
    {
        self.open(gap, sign)?;
        self.value_type(Gap::Touching, value_type)
    }

    fn alloc(&mut self, gap: Gap, value_type: &'a ValueType) -> Result<(), AllocError>
        ensures { IfOk result (λ _. self.new ≡ self.old ++ layout_expression gap (t.Alloc (type_of value_type.now))) }
    {
        self.open_alloc(gap, Kind::Alloc, value_type)?;
        self.touching(Kind::RParen)
    }

    /// An expression, its first token behind this gap.
    #[cycle(expression)]
    pub fn expression(&mut self, gap: Gap, expression: &'a Expression) -> Result<(), AllocError>
        ensures { IfOk result (λ _. self.new ≡ self.old ++ layout_expression gap (expression_of expression.now)) }
    {
        match &expression.kind {
            ExpressionKind::Number(value) => self.sign(gap, Kind::Number(*value)),
            ExpressionKind::Character(code) => self.sign(gap, Kind::Character(*code)),
            ExpressionKind::Truth(truth) => self.sign(gap, Kind::Truth(*truth)),
            ExpressionKind::Null => self.sign(gap, Kind::Null),
            ExpressionKind::Text(text) => self.push(gap, Terminal::Text(text)),
            ExpressionKind::Variable(name) => self.name(gap, name),
            ExpressionKind::Parenthesized(inner) => self.parenthesized(gap, inner),
            ExpressionKind::Call(name, arguments) => {
                self.name(gap, name)?;
                self.arguments(arguments)
            }
            ExpressionKind::Alloc(value_type) => self.alloc(gap, value_type),
            ExpressionKind::AllocArray(value_type, length) => {
                self.open_alloc(gap, Kind::AllocArray, value_type)?;
                self.item(false, length)?;
                self.touching(Kind::RParen)
            }
            ExpressionKind::Result => self.sign(gap, Kind::Result),
            ExpressionKind::Length(array) => self.length(gap, array),
            ExpressionKind::Index(array, index) => {
                self.expression(gap, array)?;
                self.index(index)
            }
            ExpressionKind::Field(of, field) => self.member(gap, of, Kind::Dot, field),
            ExpressionKind::PointerField(of, field) => self.member(gap, of, Kind::Arrow, field),
            ExpressionKind::Unary(operator, operand) => self.prefixed(gap, *operator, operand),
            ExpressionKind::Binary(operator, left, right) => {
                self.expression(gap, left)?;
                self.operand(Kind::Infix(*operator), right)
            }
            ExpressionKind::Conditional(condition, first, second) => {
                self.expression(gap, condition)?;
                self.operand(Kind::Question, first)?;
                self.operand(Kind::Colon, second)
            }
        }
    }

    #[cycle(expression)]
    fn parenthesized(&mut self, gap: Gap, inner: &'a Expression) -> Result<(), AllocError>
        ensures { IfOk result (λ _. self.new ≡ self.old ++ layout_expression gap (t.Parenthesized (expression_of inner.now))) }
    {
        self.sign(gap, Kind::LParen)?;
        self.expression(Gap::Touching, inner)?;
        self.touching(Kind::RParen)
    }

    #[cycle(expression)]
    fn length(&mut self, gap: Gap, array: &'a Expression) -> Result<(), AllocError>
        ensures { IfOk result (λ _. self.new ≡ self.old ++ layout_expression gap (t.Length (expression_of array.now))) }
    {
        self.open(gap, Kind::Length)?;
        self.expression(Gap::Touching, array)?;
        self.touching(Kind::RParen)
    }

    // An index in its brackets.
    #[cycle(expression)]
    fn index(&mut self, index: &'a Expression) -> Result<(), AllocError>
        ensures { IfOk result (λ _. self.new ≡ self.old ++ touching k.LBracket ∷ layout_expression g.Touching (expression_of index.now) ++ touching k.RBracket ∷ []) }
    {
        self.touching(Kind::LBracket)?;
        self.expression(Gap::Touching, index)?;
        self.touching(Kind::RBracket)
    }

    // A field, behind `.` or `->`.
    #[cycle(expression)]
    fn member(
        &mut self,
        gap: Gap,
        of: &'a Expression,
        sign: Kind,
        field: &'a Name,
    ) -> Result<(), AllocError>
        ensures { IfOk result (λ _. self.new ≡ self.old ++ layout_expression gap (expression_of of.now) ++ touching sign ∷ behind g.Touching (Word (name_of field.now)) ∷ []) }
    {
        self.expression(gap, of)?;
        self.touching(sign)?;
        self.name(Gap::Touching, field)
    }

    #[cycle(expression)]
    fn prefixed(
        &mut self,
        gap: Gap,
        operator: PrefixOperator,
        operand: &'a Expression,
    ) -> Result<(), AllocError>
        ensures { IfOk result (λ _. self.new ≡ self.old ++ layout_expression gap (t.Unary operator (expression_of operand.now))) }
    {
        self.sign(gap, prefix_sign(operator))?;
        self.expression(Gap::Touching, operand)
    }

    // A sign and the operand behind it.
    #[cycle(expression)]
    fn operand(&mut self, sign: Kind, operand: &'a Expression) -> Result<(), AllocError>
        ensures { IfOk result (λ _. self.new ≡ self.old ++ spaced sign ∷ layout_expression g.Blank (expression_of operand.now)) }
    {
        self.spaced(sign)?;
        self.expression(Gap::Blank, operand)
    }

    // The arguments of a call in their parentheses.
    #[cycle(expression)]
    fn arguments(&mut self, arguments: &'a Vec<Expression>) -> Result<(), AllocError>
        ensures { IfOk result (λ _. self.new ≡ self.old ++ touching k.LParen ∷ layout_arguments true (expressions_of arguments.now.items)) }
    {
        self.touching(Kind::LParen)?;
        let mut first = true;
        for argument in arguments {
            self.item(first, argument)?;
            first = false;
        }
        self.touching(Kind::RParen)
    }

    // An argument, behind a comma where it isn't the first.
    #[cycle(expression)]
    fn item(&mut self, first: bool, argument: &'a Expression) -> Result<(), AllocError>
        ensures { IfOk result (λ _. self.new ≡ self.old ++ comma_unless first ++ layout_expression (gap_of_item first) (expression_of argument.now)) }
    {
        if first {
            return self.expression(Gap::Touching, argument);
        }
        self.touching(Kind::Comma)?;
        self.expression(Gap::Blank, argument)
    }
}
