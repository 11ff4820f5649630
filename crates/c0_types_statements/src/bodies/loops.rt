//! The parts of loops beside their bodies.

ghost use Rattle.std.specs.Prelude.{◌≡◌, ◌⊎◌, IfErr, IfOk, None, map, option_map};
ghost use Rattle.c0_source.specs.declared.fault.FaultKind.TheVariants.{OutOfMemory};
ghost use Rattle.c0_syntax.specs.Views.{annotation_of, expression_of, simple_of};
ghost use Rattle.c0_typed.specs.Views.{stmt_of};
ghost use Rattle.c0_types_bodies.specs.Bodies.{Gives, InHead, PartHasTexts, SpecsHaveTexts, head_of, loop_head, scope_of, step_of};
ghost use Rattle.c0_rules.specs.Answers.{Answers};
ghost use Rattle.c0_rules.specs.FaultStatements.{InAnnotations, InPart, InWanted, ThirdCause};
ghost use Rattle.c0_rules.specs.Mentions.{specs_in};
ghost use Rattle.c0_rules.specs.Statements.{Invariant, typed_part, within};
ghost use Rattle.c0_rules.specs.Types.{BoolType};
ghost use Rattle.c0_types_tables.specs.Views.{environment_of};
ghost use Rattle.c0_types_terms.specs.Terms.{HasTexts};

use super::Body;
use c0_source::fault::Fault;
use c0_syntax::expression::Expression;
use c0_syntax::statement::{Annotation, SimpleStatement};
use c0_typed::Statement as TypedStatement;
use c0_types_bodies::branches::skip;
use c0_types_bodies::loops::{LoopHead, check_third, headed};
use c0_types_tables::resolved::ResolvedType;

impl<'a> Body<'a> {
    // A part of a `for`.
    pub(super) fn part(&mut self, part: &Option<SimpleStatement>) -> Result<TypedStatement, Fault>
        requires { PartHasTexts self.old.texts.now (option_map simple_of part.now) }
        ensures environment { self.new.environment ≡ self.old.environment }
        ensures texts { self.new.texts ≡ self.old.texts }
        ensures answers { Gives self.old.texts.now self.new.scope result (typed_part (environment_of self.old.environment.now) (option_map simple_of part.now) (scope_of self.old.scope)) }
        ensures cause { IfErr result (λ f. (f.kind ≡ OutOfMemory) ⊎ InPart (environment_of self.old.environment.now) f (scope_of self.old.scope) part.now) }
    {
        match part {
            Some(simple) => self.simple(simple),
            None => Ok(skip(self.alloc)),
        }
    }

    // The third part of a `for`.
    fn third_part(&mut self, third: &Option<SimpleStatement>) -> Result<TypedStatement, Fault>
        requires { PartHasTexts self.old.texts.now (option_map simple_of third.now) }
        ensures environment { self.new.environment ≡ self.old.environment }
        ensures texts { self.new.texts ≡ self.old.texts }
        ensures scope { IfOk result (λ _. scope_of self.new.scope ≡ scope_of self.old.scope) }
        ensures answers { Answers (stmt_of self.old.texts.now) result (step_of (environment_of self.old.environment.now) (option_map simple_of third.now) (scope_of self.old.scope)) }
        ensures cause { IfErr result (λ f. (f.kind ≡ OutOfMemory) ⊎ ThirdCause (environment_of self.old.environment.now) f third.now ⊎ InPart (environment_of self.old.environment.now) f (scope_of self.old.scope) third.now) }
    {
        check_third(third)?;
        self.part(third)
    }

    /// The parts of a `while` beside its body, in the order of the text; its third part does nothing.
    pub(super) fn while_head(
        &self,
        condition: &Expression,
        annotations: &[Annotation],
    ) -> Result<LoopHead, Fault>
        requires { HasTexts self.now.texts.now (expression_of condition.now) × SpecsHaveTexts self.now.texts.now (specs_in (map annotation_of annotations.now)) }
        ensures answers { Answers (head_of self.now.texts.now) result (loop_head (environment_of self.now.environment.now) (expression_of condition.now) None (map annotation_of annotations.now) (scope_of self.now.scope)) }
        ensures cause { IfErr result (λ f. (f.kind ≡ OutOfMemory) ⊎ InWanted (environment_of self.now.environment.now) f (scope_of self.now.scope) BoolType condition.now ⊎ InAnnotations (environment_of self.now.environment.now) f Invariant (within (scope_of self.now.scope)) annotations.now) }
    {
        let condition = self.wanted(&ResolvedType::BOOL, condition)?;
        let invariants = self.invariants(annotations);
        headed(condition, skip(self.alloc), invariants)
    }

    /// The parts of the loop of a `for` beside its body, in the order of the text. What is in scope behind an `Err` is not told.
    pub(super) fn head(
        &mut self,
        condition: &Expression,
        third: &Option<SimpleStatement>,
        annotations: &[Annotation],
    ) -> Result<LoopHead, Fault>
        requires { HasTexts self.old.texts.now (expression_of condition.now) × PartHasTexts self.old.texts.now (option_map simple_of third.now) × SpecsHaveTexts self.old.texts.now (specs_in (map annotation_of annotations.now)) }
        ensures environment { self.new.environment ≡ self.old.environment }
        ensures texts { self.new.texts ≡ self.old.texts }
        ensures scope { IfOk result (λ _. scope_of self.new.scope ≡ scope_of self.old.scope) }
        ensures answers { Answers (head_of self.old.texts.now) result (loop_head (environment_of self.old.environment.now) (expression_of condition.now) (option_map simple_of third.now) (map annotation_of annotations.now) (scope_of self.old.scope)) }
        ensures cause { IfErr result (λ f. (f.kind ≡ OutOfMemory) ⊎ ThirdCause (environment_of self.old.environment.now) f third.now ⊎ InHead (environment_of self.old.environment.now) f (scope_of self.old.scope) condition.now third.now annotations.now) }
    {
        let condition = self.wanted(&ResolvedType::BOOL, condition)?;
        match self.third_part(third) {
            Ok(third) => {
                let invariants = self.invariants(annotations);
                headed(condition, third, invariants)
            }
            Err(fault) => {
                drop(condition);
                Err(fault)
            }
        }
    }
}
