//! What is known before an instruction: which checks were made, and where scopes are aimed. Nothing is gone through at a write or at the head of a block: a
//! clock goes on there, and what was learned counts from its time on.
ghost use Rattle.code_form.specs.Form.{instruction_of};
ghost use Rattle.code_form.specs.Known.{Known, after as after_instruction, after_operation as after_simple, facts_known, nothing, with_inside, with_nonnull, with_scope, wrote as wrote_register, wrote_some as wrote_some_register};
ghost use Rattle.scope_verifier_laws.specs.Decided.{is_inside as inside_known, is_nonnull as nonnull_known};
ghost use Rattle.scope_verifier_laws.specs.declared.fault.VerifyFault.TheVariants.{OutOfMemory};
ghost use Rattle.scope_verifier.specs.Shown.{FactHasPlace, Follows, HasPlace, IsReady, OperationHasPlace, OptionBelow, Shows, checks, is_check, is_fresh, learned, offset_fresh, state_of, told_now as told_still};
ghost use Rattle.scope_verifier.specs.declared.knowledge.Check.{Check as CheckForm};
ghost use Rattle.std.specs.List.{filter, list_any};
ghost use Rattle.std.specs.Prelude.{◌≡◌, ◌+◌, ◌<◌, ◌&&◌, ◌++◌, ◌∷◌, ℕ, All, [], IfOk, List, MatchResult, OnOk, length, nat_le, replicate, slice_index, slice_index_or, slice_set};

use code_form::{Fact, Instruction, Operation, written_by};
use scope_verifier_laws::VerifyFault;
use std::alloc::{AllocError, Global};

/// What is known of a scope.
#[derive(Clone, Copy)]
pub(crate) enum ScopeState {
    Unknown,
    Shut,
    /// Aimed at the cell that is `displacement` cells behind the offset, in what `register` refers to.
    Aimed {
        register: u32,
        offset: Option<u32>,
        displacement: u32,
    },
}

/// What was learned of a scope, and when.
#[derive(Clone, Copy)]
pub(crate) struct Told {
    state: ScopeState,
    at: u64,
}

/// That an offset was found to be that of an element of an array, and when.
#[derive(Clone, Copy, Drop)]
pub(crate) struct Check {
    array: u32,
    at: u64,
}

/// What is known in a block of a function.
#[derive(Drop)]
pub(crate) struct Knowledge {
    clock: u64,
    /// When the block began.
    since: u64,
    /// When each register was last written.
    written: Vec<u64>,
    /// When each register was last found not to be NULL.
    nonnull: Vec<u64>,
    /// The checks of each register as an offset.
    inside: Vec<Vec<Check>>,
    scopes: Vec<Told>,
}

/// The time behind this one.
fn next(time: u64) -> Result<u64, VerifyFault>
    ensures { MatchResult result (λ t. t ≡ time + 1) (λ f. f ≡ OutOfMemory) }
{
    if time == u64::MAX {
        return Err(VerifyFault::OutOfMemory);
    }
    Ok(time + 1)
}

/// The time that is held for a register.
fn time_of(times: &[u64], register: u32) -> u64
    ensures { result ≡ slice_index times.now register }
{
    match times.get(register as usize) {
        Some(time) => *time,
        None => 0,
    }
}

/// Holds a time for a register.
fn stamp(times: &mut Vec<u64>, register: u32, time: u64)
    ensures { times.new.items ≡ slice_set times.old.items register time }
{
    if (register as usize) < times.len() {
        times[register as usize] = time;
    }
}

/// Whether a check still holds, where its array was not written since.
fn is_held(check: Check, since: u64, written: u64) -> bool
    ensures { result ≡ is_fresh since written check.at }
{
    since <= check.at && written <= check.at
}

/// Lets go of the checks that do not hold any more: those before a block began, or before their offset was written.
fn drop_stale(list: &mut Vec<Check>, since: u64, written: u64)
    ensures { list.new.items ≡ filter (λ (c : CheckForm). is_fresh since written c.at) list.old.items }
{
    list.retain(|check| is_held(*check, since, written));
}

/// One more check of an offset, in place of those that do not hold any more.
fn renew(list: &mut Vec<Check>, check: Check, since: u64, written: u64) -> Result<(), AllocError>
    ensures { OnOk result (list.new.items ≡ filter (λ (c : CheckForm). is_fresh since written c.at) list.old.items ++ check ∷ []) }
{
    drop_stale(list, since, written);
    list.push(check)?;
    Ok(())
}

/// One more check of an offset.
fn add_check(
    lists: &mut Vec<Vec<Check>>,
    offset: u32,
    check: Check,
    since: u64,
    written: u64,
) -> Result<(), AllocError>
    ensures { OnOk result (checks lists.new.items ≡ slice_set (checks lists.old.items) offset (filter (λ (c : CheckForm). is_fresh since written c.at) (slice_index_or (checks lists.old.items) offset []) ++ check ∷ [])) }
{
    let place = offset as usize;
    if place < lists.len() {
        renew(&mut lists[place], check, since, written)?;
    }
    Ok(())
}

/// Holds what was told of a scope.
fn note(scopes: &mut Vec<Told>, scope: u8, told: Told)
    ensures { scopes.new.items ≡ slice_set scopes.old.items scope told }
{
    if (scope as usize) < scopes.len() {
        scopes[scope as usize] = told;
    }
}

/// Whether one of these checks is for this array, and still holds.
fn has_check(list: &[Check], array: u32, since: u64, written: u64, array_written: u64) -> bool
    ensures { result ≡ list_any (is_check since written array_written array) list.now }
{
    for check in list {
        if check.array == array && (is_held(*check, since, written) && array_written <= check.at) {
            return true;
        }
    }
    false
}

/// Whether a place still is where it was at a time.
fn is_same_place(written: &[u64], register: u32, offset: Option<u32>, at: u64) -> bool
    ensures { result ≡ (nat_le (slice_index written.now register) at && offset_fresh written.now offset at) }
{
    time_of(written, register) <= at
        && match offset {
            None => true,
            Some(offset) => time_of(written, offset) <= at,
        }
}

/// What still holds of what was told of a scope.
fn told_now(written: &[u64], since: u64, told: Told) -> ScopeState
    ensures { state_of result ≡ told_still since written.now told }
{
    if told.at < since {
        return ScopeState::Unknown;
    }
    match told.state {
        ScopeState::Aimed {
            register,
            offset,
            ..
        } if !is_same_place(written, register, offset, told.at) => ScopeState::Unknown,
        state => state,
    }
}

/// No checks of so many registers.
fn no_checks(alloc: Global, registers: usize) -> Result<Vec<Vec<Check>>, AllocError>
    ensures { IfOk result (λ v. (length v.items ≡ registers) × All (λ xs. xs ≡ []) (checks v.items)) }
{
    let mut lists = Vec::new(alloc);
    for _index in 0..registers {
        lists.push(Vec::new(alloc))?;
    }
    Ok(lists)
}

impl Knowledge {
    /// For a function with so many registers and scopes.
    pub(crate) fn new(alloc: Global, registers: usize, scopes: u8) -> Result<Knowledge, AllocError>
        ensures { IfOk result (λ n. IsReady registers scopes n) }
    {
        let never = Told {
            state: ScopeState::Unknown,
            at: 0,
        };
        Ok(Knowledge {
            clock: 0,
            since: 0,
            written: vec![in alloc; 0; registers]?,
            nonnull: vec![in alloc; 0; registers]?,
            inside: no_checks(alloc, registers)?,
            scopes: vec![in alloc; never; scopes as usize]?,
        })
    }

    /// At the head of a block, where nothing is known.
    fn begin(&mut self) -> Result<(), VerifyFault>
        ensures { MatchResult result (λ _. (registers scopes : ℕ) → IsReady registers scopes self.old → Shows registers scopes self.new nothing) (λ f. f ≡ OutOfMemory) }
    {
        self.clock = next(self.clock)?;
        self.since = self.clock;
        Ok(())
    }

    /// A register was written.
    fn wrote(&mut self, register: u32) -> Result<(), VerifyFault>
        ensures { MatchResult result (λ _. Follows self.old self.new (λ registers _. register < registers) (wrote_register register)) (λ f. f ≡ OutOfMemory) }
    {
        self.clock = next(self.clock)?;
        stamp(&mut self.written, register, self.clock);
        Ok(())
    }

    /// A register is not NULL.
    fn found(&mut self, register: u32)
        ensures { Follows self.old self.new (λ registers _. register < registers) (with_nonnull register) }
    {
        stamp(&mut self.nonnull, register, self.clock);
    }

    /// A register holds the offset of an element of an array.
    fn indexed(&mut self, offset: u32, array: u32) -> Result<(), VerifyFault>
        ensures { MatchResult result (λ _. Follows self.old self.new (λ registers _. offset < registers) (with_inside offset array)) (λ f. f ≡ OutOfMemory) }
    {
        let written = time_of(&self.written, offset);
        let check = Check {
            array,
            at: self.clock,
        };
        add_check(&mut self.inside, offset, check, self.since, written)?;
        Ok(())
    }

    /// The state of a scope.
    fn told(&mut self, scope: u8, state: ScopeState)
        ensures { Follows self.old self.new (λ _ scopes. scope < scopes) (with_scope scope (state_of state)) }
    {
        let told = Told {
            state,
            at: self.clock,
        };
        note(&mut self.scopes, scope, told);
    }

    /// Whether a register is known not to be NULL.
    pub(crate) fn is_nonnull(&self, register: u32) -> bool
        ensures { (registers scopes : ℕ) (k : Known) → Shows registers scopes self.now k → result ≡ nonnull_known k register }
    {
        let at = time_of(&self.nonnull, register);
        self.since <= at && time_of(&self.written, register) <= at
    }

    /// Whether a register is known to hold the offset of an element of an array.
    pub(crate) fn is_inside(&self, offset: u32, array: u32) -> bool
        ensures { (registers scopes : ℕ) (k : Known) → Shows registers scopes self.now k → result ≡ inside_known k offset array }
    {
        let written = time_of(&self.written, offset);
        let array_written = time_of(&self.written, array);
        match self.inside.get(offset as usize) {
            None => false,
            Some(list) => has_check(list, array, self.since, written, array_written),
        }
    }

    /// What is known of a scope.
    pub(crate) fn scope(&self, scope: u8) -> ScopeState
        ensures { (registers scopes : ℕ) (k : Known) → Shows registers scopes self.now k → state_of result ≡ k.scope scope }
    {
        match self.scopes.get(scope as usize) {
            None => ScopeState::Unknown,
            Some(told) => told_now(&self.written, self.since, *told),
        }
    }

    /// Behind a simple instruction.
    fn after_operation(&mut self, operation: &Operation) -> Result<(), VerifyFault>
        ensures { MatchResult result (λ _. Follows self.old self.new (λ registers _. OperationHasPlace registers operation.now) (after_simple operation.now)) (λ f. f ≡ OutOfMemory) }
    {
        match *operation {
            Operation::CheckNull { register } => {
                self.found(register);
                Ok(())
            }
            Operation::CheckIndex { to, register, .. } => {
                self.wrote(to)?;
                self.indexed(to, register)
            }
            _ => self.wrote_some(written_by(operation)),
        }
    }

    /// Where a register was written, if one was.
    fn wrote_some(&mut self, register: Option<u32>) -> Result<(), VerifyFault>
        ensures { MatchResult result (λ _. Follows self.old self.new (λ registers _. OptionBelow registers register) (wrote_some_register register)) (λ f. f ≡ OutOfMemory) }
    {
        match register {
            None => Ok(()),
            Some(register) => self.wrote(register),
        }
    }

    /// Behind an instruction.
    pub(crate) fn after(&mut self, instruction: &Instruction) -> Result<(), VerifyFault>
        ensures { MatchResult result (λ _. Follows self.old self.new (λ registers scopes. HasPlace registers scopes (instruction_of instruction.now)) (after_instruction (instruction_of instruction.now))) (λ f. f ≡ OutOfMemory) }
    {
        match instruction {
            Instruction::Simple(operation) => self.after_operation(operation),
            Instruction::Aim {
                scope,
                register,
                offset,
                displacement,
            } => {
                let state = ScopeState::Aimed {
                    register: *register,
                    offset: *offset,
                    displacement: *displacement,
                };
                self.told(*scope, state);
                Ok(())
            }
            Instruction::Load { to, .. } => self.wrote(*to),
            Instruction::Leave { scope } => {
                self.told(*scope, ScopeState::Shut);
                Ok(())
            }
            Instruction::Call { to, .. } => self.wrote_some(*to),
            _ => Ok(()),
        }
    }

    /// An entry fact of the block, where those behind it are known.
    fn learn(&mut self, fact: Fact) -> Result<(), VerifyFault>
        ensures { MatchResult result (λ _. Follows self.old self.new (λ registers scopes. FactHasPlace registers scopes fact) (learned fact)) (λ f. f ≡ OutOfMemory) }
    {
        match fact {
            Fact::Nonnull(register) => {
                self.found(register);
                Ok(())
            }
            Fact::Inside(offset, array) => self.indexed(offset, array),
            Fact::Aimed {
                scope,
                register,
                offset,
                displacement,
            } => {
                let state = ScopeState::Aimed {
                    register,
                    offset,
                    displacement,
                };
                self.told(scope, state);
                Ok(())
            }
            Fact::Shut(scope) => {
                self.told(scope, ScopeState::Shut);
                Ok(())
            }
        }
    }

    /// At the head of a block with these entry facts.
    pub(crate) fn enter(&mut self, facts: &[Fact]) -> Result<(), VerifyFault>
        ensures { MatchResult result (λ _. (registers scopes : ℕ) → IsReady registers scopes self.old → All (FactHasPlace registers scopes) facts.now → Shows registers scopes self.new (facts_known facts.now)) (λ f. f ≡ OutOfMemory) }
    {
        self.begin()?;
        for index in (0..facts.len()).rev() {
            self.learn(facts[index])?;
        }
        Ok(())
    }
}
