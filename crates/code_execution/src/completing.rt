//! Instructions that use a scope or tell a cell, and those that aim or leave one, once it is known what they lead to.
ghost use Rattle.call_execution.specs.Decisions.{completed};
ghost use Rattle.call_execution.specs.Planning.{planned};
ghost use Rattle.code_form.specs.Form.{instruction_of};
ghost use Rattle.std.specs.Prelude.{◌≡◌, ◌∷◌, drop};

use crate::calls::Calls;
use call_execution::{Plan, Scope};
use code_form::Instruction;

impl<'a> Calls<'a> {
    /// Does the next instruction as it was planned; `loaded` is what the cell holds that it loads, if it loads one.
    #[inline(always)]
    pub(crate) fn carry_out(&mut self, plan: Plan, loaded: u64)
        ensures { self.new ≡ record self.old { top = planned plan self.old.top loaded } }
    {
        match plan {
            Plan::Aims { scope, aim, .. } => self.change_scope(scope, Scope::Aimed(aim)),
            Plan::Loads { to, .. } => self.write(to, loaded),
            Plan::Stores { .. } => self.advance(),
            Plan::Leaves { scope } => self.change_scope(scope, Scope::Shut),
        }
    }

    /// Does an instruction, the next one, where it uses a scope or tells a cell; `loaded` is what the cell holds that it loads, if it loads one.
    #[inline(always)]
    fn complete_by(&mut self, instruction: &'a Instruction, loaded: u64)
        requires { self.old.top.rest ≡ instruction_of instruction.now ∷ drop 1 self.old.top.rest }
        ensures { self.new ≡ record self.old { top = completed (instruction_of instruction.now ∷ drop 1 self.old.top.rest) self.old.top loaded } }
    {
        match instruction {
            Instruction::Load { to, .. } => self.write(*to, loaded),
            Instruction::Aim {
                scope,
                register,
                offset,
                displacement,
            } => {
                let aim = self.aim(*register, *offset, *displacement);
                self.change_scope(*scope, Scope::Aimed(aim));
            }
            Instruction::Leave { scope } => self.change_scope(*scope, Scope::Shut),
            Instruction::Store { .. } | Instruction::Simple(_) => self.advance(),
            Instruction::Call { .. }
            | Instruction::Jump { .. }
            | Instruction::Branch { .. }
            | Instruction::Return { .. }
            | Instruction::ReturnVoid
            | Instruction::Error { .. } => (),
        }
    }

    /// Does the next instruction, where it uses a scope or tells a cell; `loaded` is what the cell holds that it loads, if it loads one.
    #[inline(always)]
    pub(crate) fn complete(&mut self, loaded: u64)
        ensures { self.new ≡ record self.old { top = completed self.old.top.rest self.old.top loaded } }
    {
        if let Some(instruction) = self.first() {
            self.complete_by(instruction, loaded);
        }
    }
}
