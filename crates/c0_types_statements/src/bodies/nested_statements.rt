//! Statements with others in them.
//! A tree held where a step may fail is boxed before, or dropped there by a call: a drop that `?` makes is proved
//! variant by variant.

ghost use Rattle.std.specs.Prelude.{◌≡◌, ◌⊎◌, List, Err, IfErr, IfOk, IsOkAnd, MatchResult, false, true, box_value, is_err, map, option_map};
ghost use Rattle.c0_source.specs.declared.fault.FaultKind.TheVariants.{NotInLoop, OutOfMemory};
ghost use Rattle.c0_syntax.specs.Trees as t;
ghost use Rattle.c0_syntax.specs.Views.{annotation_of, expression_of, simple_of, statement_of, statement_of_kind, statements_of};
ghost use Rattle.c0_typed.specs.Trees as y;
ghost use Rattle.c0_typed.specs.Views.{block_of, exp_of, exps_of, stmt_of};
ghost use Rattle.c0_types_bodies.specs.Bodies.{Gives, GivesBy, InFor, InIfElse, InLoop, PartHasTexts, SpecsHaveTexts, StatementHasTexts, StatementsHaveTexts, block_in_scope, in_scope, loop_behind, scope_of, turn_in_scope};
ghost use Rattle.c0_rules.specs.FaultStatements.{InAnnotations, InBody, InPart, InStatement, InWanted, ReturnCause, ThirdCause};
ghost use Rattle.c0_rules.specs.FaultExpressions.{Told};
ghost use Rattle.c0_rules.specs.Mentions.{specs_in};
ghost use Rattle.c0_rules.specs.Statements.{Invariant, declares, in_body, typed_part, typed_statement, typed_statements, within};
ghost use Rattle.c0_types_terms.specs.Terms.{HasTexts};
ghost use Rattle.c0_rules.specs.Types.{BoolType, Environment, Name};
ghost use Rattle.c0_types_tables.specs.Views.{environment_of};

use super::Body;
use c0_source::fault::{Fault, FaultKind, Span};
use c0_syntax::expression::Expression;
use c0_syntax::statement::{Annotation, SimpleKind, SimpleStatement, Statement, StatementKind};
use c0_typed::Statement as TypedStatement;
use c0_types_bodies::branches::{choice, chosen, followed, skip};
use c0_types_bodies::loops::repeated;
use c0_types_tables::resolved::ResolvedType;

impl<'a> Body<'a> {
    // A `return` without a value.
    fn returned(&self, span: Span) -> Result<TypedStatement, Fault>
        ensures answers { Gives self.now.texts.now self.now.scope result (typed_statement (environment_of self.now.environment.now) t.Return (scope_of self.now.scope)) }
        ensures cause { IfErr result (λ f. InStatement (environment_of self.now.environment.now) f (scope_of self.now.scope) StatementKind.Return span) }
    {
        if !self.scope.result.same_as(&ResolvedType::VOID) {
            return Err(Fault {
                kind: FaultKind::TypeMismatch,
                span,
            });
        }
        Ok(TypedStatement::Return)
    }

    // A `break` or a `continue`, here, stands in a loop.
    fn check_in_loop(&self, span: Span) -> Result<(), Fault>
        ensures { MatchResult result (λ _. self.now.scope.in_loop ≡ true) (λ f. (self.now.scope.in_loop ≡ false) × Told NotInLoop span f) }
    {
        if !self.scope.in_loop {
            return Err(Fault {
                kind: FaultKind::NotInLoop,
                span,
            });
        }
        Ok(())
    }

    // A `break`.
    fn broken(&self, span: Span) -> Result<TypedStatement, Fault>
        ensures answers { Gives self.now.texts.now self.now.scope result (typed_statement (environment_of self.now.environment.now) t.Break (scope_of self.now.scope)) }
        ensures cause { IfErr result (λ f. InStatement (environment_of self.now.environment.now) f (scope_of self.now.scope) StatementKind.Break span) }
    {
        self.check_in_loop(span)?;
        Ok(TypedStatement::Break)
    }

    // A `continue`.
    fn continued(&self, span: Span) -> Result<TypedStatement, Fault>
        ensures answers { Gives self.now.texts.now self.now.scope result (typed_statement (environment_of self.now.environment.now) t.Continue (scope_of self.now.scope)) }
        ensures cause { IfErr result (λ f. InStatement (environment_of self.now.environment.now) f (scope_of self.now.scope) StatementKind.Continue span) }
    {
        self.check_in_loop(span)?;
        Ok(TypedStatement::Continue)
    }

    // A `return` with a value; of a void function it is refused, whatever the value is.
    fn returned_value(&self, value: &Expression) -> Result<TypedStatement, Fault>
        requires { HasTexts self.now.texts.now (expression_of value.now) }
        ensures answers { Gives self.now.texts.now self.now.scope result (typed_statement (environment_of self.now.environment.now) (t.ReturnValue (expression_of value.now)) (scope_of self.now.scope)) }
        ensures cause { IfErr result (λ f. (f.kind ≡ OutOfMemory) ⊎ ReturnCause (environment_of self.now.environment.now) f (scope_of self.now.scope) value.now) }
    {
        if self.scope.result.same_as(&ResolvedType::VOID) {
            return Err(Fault {
                kind: FaultKind::TypeMismatch,
                span: value.span,
            });
        }
        let value = self.wanted(&self.scope.result, value)?;
        Ok(TypedStatement::ReturnValue(value))
    }

    /// A statement. What is in scope behind an `Err` is not told.
    #[cycle(statement)]
    pub(crate) fn statement(
        &mut self,
        kind: &StatementKind,
        span: Span,
    ) -> Result<TypedStatement, Fault>
        requires { StatementHasTexts self.old.texts.now (statement_of_kind kind.now) }
        ensures environment { self.new.environment ≡ self.old.environment }
        ensures texts { self.new.texts ≡ self.old.texts }
        ensures answers { Gives self.old.texts.now self.new.scope result (typed_statement (environment_of self.old.environment.now) (statement_of_kind kind.now) (scope_of self.old.scope)) }
        ensures cause { IfErr result (λ f. (f.kind ≡ OutOfMemory) ⊎ InStatement (environment_of self.old.environment.now) f (scope_of self.old.scope) kind.now span) }
    {
        match kind {
            StatementKind::Simple(simple) => self.simple(simple),
            StatementKind::Block(statements) => self.block(statements),
            StatementKind::Annotated(annotation) => {
                Ok(TypedStatement::Check(self.assertions(&annotation.specs)?))
            }
            StatementKind::Return => self.returned(span),
            StatementKind::ReturnValue(value) => self.returned_value(value),
            StatementKind::If(condition, body) => self.choice_of(condition, body),
            StatementKind::While(condition, annotations, body) => {
                self.while_loop(condition, annotations, body)
            }
            StatementKind::IfElse(condition, body, other) => {
                self.choice_of_two(condition, body, other)
            }
            StatementKind::For(first, condition, third, annotations, body) => {
                self.for_loop(first, condition, third, annotations, body)
            }
            StatementKind::Assert(condition) => {
                let condition = self.sited(&ResolvedType::BOOL, condition)?;
                Ok(TypedStatement::Assert(condition))
            }
            StatementKind::Error(text) => {
                Ok(TypedStatement::Error(self.sited(&ResolvedType::TEXT, text)?))
            }
            StatementKind::Break => self.broken(span),
            StatementKind::Continue => self.continued(span),
        }
    }

    /// Statements in order. What is in scope behind an `Err` is not told.
    #[cycle(statement)]
    pub fn statements(&mut self, statements: &[Statement]) -> Result<Vec<TypedStatement>, Fault>
        requires { StatementsHaveTexts self.old.texts.now (statements_of statements.now) }
        ensures environment { self.new.environment ≡ self.old.environment }
        ensures texts { self.new.texts ≡ self.old.texts }
        ensures answers { GivesBy (λ v. block_of self.old.texts.now v.items) self.new.scope result (typed_statements (environment_of self.old.environment.now) (statements_of statements.now) (scope_of self.old.scope)) }
        ensures cause { IfErr result (λ f. (f.kind ≡ OutOfMemory) ⊎ InBody (environment_of self.old.environment.now) f (scope_of self.old.scope) statements.now) }
    {
        let mut all = Vec::new(self.alloc);
        for statement in statements {
            let found = self.statement(&statement.kind, statement.span)?;
            all.push(found)?;
        }
        Ok(all)
    }

    // A block, which is a scope.
    #[cycle(statement)]
    fn block(&mut self, statements: &[Statement]) -> Result<TypedStatement, Fault>
        requires { StatementsHaveTexts self.old.texts.now (statements_of statements.now) }
        ensures environment { self.new.environment ≡ self.old.environment }
        ensures texts { self.new.texts ≡ self.old.texts }
        ensures answers { Gives self.old.texts.now self.new.scope result (block_in_scope (environment_of self.old.environment.now) (statements_of statements.now) (scope_of self.old.scope)) }
        ensures cause { IfErr result (λ f. (f.kind ≡ OutOfMemory) ⊎ InBody (environment_of self.old.environment.now) f (scope_of self.old.scope) statements.now) }
    {
        let outer = self.scope.locals.len();
        let all = self.statements(statements)?;
        self.scope.leave(outer);
        Ok(TypedStatement::Block(all))
    }

    // A statement in a scope of its own.
    #[cycle(statement)]
    fn inner(&mut self, body: &Statement) -> Result<TypedStatement, Fault>
        requires { StatementHasTexts self.old.texts.now (statement_of body.now) }
        ensures environment { self.new.environment ≡ self.old.environment }
        ensures texts { self.new.texts ≡ self.old.texts }
        ensures answers { Gives self.old.texts.now self.new.scope result (in_scope (environment_of self.old.environment.now) (statement_of body.now) (scope_of self.old.scope)) }
        ensures cause { IfErr result (λ f. (f.kind ≡ OutOfMemory) ⊎ InStatement (environment_of self.old.environment.now) f (scope_of self.old.scope) body.now.kind body.now.span) }
    {
        let count = self.scope.locals.len();
        let found = self.statement(&body.kind, body.span)?;
        self.scope.leave(count);
        Ok(found)
    }

    // The body of a loop, which is a scope.
    #[cycle(statement)]
    fn turn(&mut self, body: &Statement) -> Result<TypedStatement, Fault>
        requires { StatementHasTexts self.old.texts.now (statement_of body.now) }
        ensures environment { self.new.environment ≡ self.old.environment }
        ensures texts { self.new.texts ≡ self.old.texts }
        ensures answers { Gives self.old.texts.now self.new.scope result (turn_in_scope (environment_of self.old.environment.now) (statement_of body.now) (scope_of self.old.scope)) }
        ensures cause { IfErr result (λ f. (f.kind ≡ OutOfMemory) ⊎ InStatement (environment_of self.old.environment.now) f (in_body (scope_of self.old.scope)) body.now.kind body.now.span) }
    {
        let count = self.scope.locals.len();
        let outer = self.scope.in_loop;
        self.scope.in_loop = true;
        let found = self.statement(&body.kind, body.span)?;
        self.scope.leave(count);
        self.scope.in_loop = outer;
        Ok(found)
    }

    // An `if` without `else`.
    #[cycle(statement)]
    fn choice_of(
        &mut self,
        condition: &Expression,
        body: &Statement,
    ) -> Result<TypedStatement, Fault>
        requires { HasTexts self.old.texts.now (expression_of condition.now) × StatementHasTexts self.old.texts.now (statement_of body.now) }
        ensures environment { self.new.environment ≡ self.old.environment }
        ensures texts { self.new.texts ≡ self.old.texts }
        ensures answers { Gives self.old.texts.now self.new.scope result (typed_statement (environment_of self.old.environment.now) (t.If (expression_of condition.now) (statement_of body.now)) (scope_of self.old.scope)) }
        ensures cause { IfErr result (λ f. (f.kind ≡ OutOfMemory) ⊎ InWanted (environment_of self.old.environment.now) f (scope_of self.old.scope) BoolType condition.now ⊎ InStatement (environment_of self.old.environment.now) f (scope_of self.old.scope) body.now.kind body.now.span) }
    {
        let condition = self.wanted(&ResolvedType::BOOL, condition)?;
        match self.inner(body) {
            Ok(first) => Ok(choice(self.alloc, condition, first, skip(self.alloc))?),
            Err(fault) => {
                drop(condition);
                Err(fault)
            }
        }
    }

    // An `if` with `else`.
    #[cycle(statement)]
    fn choice_of_two(
        &mut self,
        condition: &Expression,
        body: &Statement,
        other: &Statement,
    ) -> Result<TypedStatement, Fault>
        requires { HasTexts self.old.texts.now (expression_of condition.now) × StatementHasTexts self.old.texts.now (statement_of body.now) × StatementHasTexts self.old.texts.now (statement_of other.now) }
        ensures environment { self.new.environment ≡ self.old.environment }
        ensures texts { self.new.texts ≡ self.old.texts }
        ensures answers { Gives self.old.texts.now self.new.scope result (typed_statement (environment_of self.old.environment.now) (t.IfElse (expression_of condition.now) (statement_of body.now) (statement_of other.now)) (scope_of self.old.scope)) }
        ensures cause { IfErr result (λ f. (f.kind ≡ OutOfMemory) ⊎ InIfElse (environment_of self.old.environment.now) f (scope_of self.old.scope) condition.now body.now other.now) }
    {
        let condition = self.wanted(&ResolvedType::BOOL, condition)?;
        match self.inner(body) {
            Ok(first) => {
                let second = self.inner(other);
                chosen(self.alloc, condition, first, second)
            }
            Err(fault) => {
                drop(condition);
                Err(fault)
            }
        }
    }

    // A `while`.
    #[cycle(statement)]
    fn while_loop(
        &mut self,
        condition: &Expression,
        annotations: &[Annotation],
        body: &Statement,
    ) -> Result<TypedStatement, Fault>
        requires { HasTexts self.old.texts.now (expression_of condition.now) × SpecsHaveTexts self.old.texts.now (specs_in (map annotation_of annotations.now)) × StatementHasTexts self.old.texts.now (statement_of body.now) }
        ensures environment { self.new.environment ≡ self.old.environment }
        ensures texts { self.new.texts ≡ self.old.texts }
        ensures answers { Gives self.old.texts.now self.new.scope result (typed_statement (environment_of self.old.environment.now) (t.While (expression_of condition.now) (map annotation_of annotations.now) (statement_of body.now)) (scope_of self.old.scope)) }
        ensures cause { IfErr result (λ f. (f.kind ≡ OutOfMemory) ⊎ InWanted (environment_of self.old.environment.now) f (scope_of self.old.scope) BoolType condition.now ⊎ InAnnotations (environment_of self.old.environment.now) f Invariant (within (scope_of self.old.scope)) annotations.now ⊎ InStatement (environment_of self.old.environment.now) f (in_body (scope_of self.old.scope)) body.now.kind body.now.span) }
    {
        let head = self.while_head(condition, annotations)?;
        let inside = self.turn(body);
        repeated(self.alloc, head, inside)
    }

    // The loop of a `for`, behind its first part.
    #[cycle(statement)]
    fn loop_behind(
        &mut self,
        condition: &Expression,
        third: &Option<SimpleStatement>,
        annotations: &[Annotation],
        body: &Statement,
    ) -> Result<TypedStatement, Fault>
        requires { HasTexts self.old.texts.now (expression_of condition.now) × PartHasTexts self.old.texts.now (option_map simple_of third.now) × SpecsHaveTexts self.old.texts.now (specs_in (map annotation_of annotations.now)) × StatementHasTexts self.old.texts.now (statement_of body.now) }
        ensures environment { self.new.environment ≡ self.old.environment }
        ensures texts { self.new.texts ≡ self.old.texts }
        ensures answers { Gives self.old.texts.now self.new.scope result (loop_behind (environment_of self.old.environment.now) (expression_of condition.now) (option_map simple_of third.now) (map annotation_of annotations.now) (statement_of body.now) (scope_of self.old.scope)) }
        ensures cause { IfErr result (λ f. (f.kind ≡ OutOfMemory) ⊎ ThirdCause (environment_of self.old.environment.now) f third.now ⊎ InLoop (environment_of self.old.environment.now) f (scope_of self.old.scope) condition.now third.now annotations.now body.now) }
    {
        let head = self.head(condition, third, annotations)?;
        let inside = self.turn(body);
        repeated(self.alloc, head, inside)
    }

    // A `for`, which is a scope.
    #[cycle(statement)]
    fn for_loop(
        &mut self,
        first: &Option<SimpleStatement>,
        condition: &Expression,
        third: &Option<SimpleStatement>,
        annotations: &[Annotation],
        body: &Statement,
    ) -> Result<TypedStatement, Fault>
        requires { PartHasTexts self.old.texts.now (option_map simple_of first.now) × HasTexts self.old.texts.now (expression_of condition.now) × PartHasTexts self.old.texts.now (option_map simple_of third.now) × SpecsHaveTexts self.old.texts.now (specs_in (map annotation_of annotations.now)) × StatementHasTexts self.old.texts.now (statement_of body.now) }
        ensures environment { self.new.environment ≡ self.old.environment }
        ensures texts { self.new.texts ≡ self.old.texts }
        ensures answers { Gives self.old.texts.now self.new.scope result (typed_statement (environment_of self.old.environment.now) (t.For (option_map simple_of first.now) (expression_of condition.now) (option_map simple_of third.now) (map annotation_of annotations.now) (statement_of body.now)) (scope_of self.old.scope)) }
        ensures cause { IfErr result (λ f. (f.kind ≡ OutOfMemory) ⊎ InFor (environment_of self.old.environment.now) f (scope_of self.old.scope) first.now condition.now third.now annotations.now body.now) }
    {
        let before = self.scope.locals.len();
        let first = self.part(first)?;
        let repeats = self.loop_behind(condition, third, annotations, body);
        self.scope.leave(before);
        followed(self.alloc, first, repeats)
    }
}
