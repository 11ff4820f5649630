//! Laws of the definitions: functions that do nothing, and whose contracts hold.
ghost use Rattle.cells.specs.Stops.{ArithFault, Ended, ErrorCalled, NullFault};
ghost use Rattle.cells.specs.declared.int32.Int32Op.TheVariants.{Add, Div};
ghost use Rattle.code_form.specs.Code.{Aimed, IsStuck, Shut, Stale, code, output_of, stop_of};
ghost use Rattle.code_form.specs.Computed.{image_of_each, image_v, image_with, touch_after};
ghost use Rattle.code_form.specs.Effects.{code_run};
ghost use Rattle.code_form.specs.Form.{Aim, Alloc, Binary, CheckNull, Const, Jump, Leave, Load, Move, Prefetch, Simple};
ghost use Rattle.code_form.specs.Laws.{OutputGrows, StepsAdd, StepsSuc, StoppedStays, StuckStays};
ghost use Rattle.code_form.specs.Placed.{HaveAddresses, HeapAllocated, HeapStored};
ghost use Rattle.code_form.specs.Touches.{cell};
ghost use Rattle.code_form.specs.Tracked.{AlwaysEndsSo, AlwaysTidy, AlwaysTracked, AlwaysWaitsShut};
ghost use Rattle.code_form.specs.WorkedFacts.{IsTold};
ghost use Rattle.code_form.specs.declared.form.Fact.TheVariants as fact;
ghost use Rattle.code_form.specs.declared.touch.Touch.TheVariants as touch;
ghost use Rattle.std.specs.Prelude.{◌++◌, ◌∷◌, ◌≡◌, [], None, Some, codes, pos, true};

/// What two images come to: one of ten instructions that returns 5, and one with most other instructions.
pub fn computed()
    ensures five { stop_of (code_run (code image_v) 10).0 ≡ Some (Ended (pos 5)) }
    ensures not_yet { stop_of (code_run (code image_v) 9).0 ≡ None }
    ensures stays { stop_of (code_run (code image_v) 1000).0 ≡ Some (Ended (pos 5)) }
    ensures printed { output_of (code_run (code image_of_each) 40).0 ≡ codes "25hi\n!true3" }
    ensures error { stop_of (code_run (code image_of_each) 40).0 ≡ Some (ErrorCalled (codes "b")) }
    ensures null { stop_of (code_run (code (image_with (Simple (CheckNull 0) ∷ []))) 1).0 ≡ Some NullFault }
    ensures arith { stop_of (code_run (code (image_with (Simple (Binary Div 1 1 1) ∷ []))) 1).0 ≡ Some ArithFault }
{}

/// Each cause of being stuck.
pub fn stuck()
    ensures no_aim { IsStuck (code_run (code (image_with (Load 1 0 ∷ []))) 1).0 ≡ true }
    ensures shut { IsStuck (code_run (code (image_with (Simple (Alloc 0 0) ∷ Aim 0 0 None 0 ∷ Leave 0 ∷ Load 1 0 ∷ []))) 4).0 ≡ true }
    ensures stale { IsStuck (code_run (code (image_with (Simple (Alloc 0 0) ∷ Aim 0 0 None 0 ∷ Simple (Move 0 0) ∷ Load 1 0 ∷ []))) 4).0 ≡ true }
    ensures null { IsStuck (code_run (code (image_with (Aim 0 0 None 0 ∷ Load 1 0 ∷ []))) 2).0 ≡ true }
    ensures outside { IsStuck (code_run (code (image_with (Simple (Alloc 0 0) ∷ Aim 0 0 None 1 ∷ Load 1 0 ∷ []))) 3).0 ≡ true }
    ensures kind { IsStuck (code_run (code (image_with (Simple (Alloc 0 0) ∷ Aim 0 0 None 0 ∷ Load 2 0 ∷ []))) 3).0 ≡ true }
    ensures operand { IsStuck (code_run (code (image_with (Simple (Binary Add 1 1 2) ∷ []))) 1).0 ≡ true }
    ensures register { IsStuck (code_run (code (image_with (Simple (Const 3 (pos 0)) ∷ []))) 1).0 ≡ true }
    ensures block { IsStuck (code_run (code (image_with (Jump 1 ∷ []))) 1).0 ≡ true }
    ensures layout { IsStuck (code_run (code (image_with (Simple (Alloc 0 1) ∷ []))) 1).0 ≡ true }
    ensures scope { IsStuck (code_run (code (image_with (Aim 1 0 None 0 ∷ []))) 1).0 ≡ true }
    ensures no_instruction { IsStuck (code_run (code (image_with [])) 1).0 ≡ true }
{}

/// What a prefetch tells: the cell that it names, and none at NULL and outside the allocation.
pub fn hinted()
    ensures element { touch_after image_of_each 4 ≡ touch.Hints (Some (cell 1 2)) }
    ensures first { touch_after (image_with (Simple (Alloc 0 0) ∷ Simple (Prefetch 0 None 0) ∷ [])) 1 ≡ touch.Hints (Some (cell 1 0)) }
    ensures outside { touch_after (image_with (Simple (Alloc 0 0) ∷ Simple (Prefetch 0 None 1) ∷ [])) 1 ≡ touch.Hints None }
    ensures null { touch_after (image_with (Simple (Prefetch 0 None 0) ∷ [])) 0 ≡ touch.Hints None }
    ensures number { touch_after (image_with (Simple (Prefetch 1 None 0) ∷ [])) 0 ≡ touch.Wrong }
{}

/// What entry facts say of worked calls: each fact holds of one, and not of others.
pub fn worked_facts()
    ensures nonnull { IsTold (1 ∷ 2 ∷ 4 ∷ []) [] (fact.Nonnull 0) }
    ensures null { IsTold (0 ∷ 2 ∷ 4 ∷ []) [] (fact.Nonnull 0) → ⊥ }
    ensures no_allocation { IsTold (3 ∷ 2 ∷ 4 ∷ []) [] (fact.Nonnull 0) → ⊥ }
    ensures inside { IsTold (1 ∷ 2 ∷ 4 ∷ []) [] (fact.Inside 2 1) }
    ensures behind { IsTold (1 ∷ 2 ∷ 6 ∷ []) [] (fact.Inside 2 1) → ⊥ }
    ensures between { IsTold (1 ∷ 2 ∷ 3 ∷ []) [] (fact.Inside 2 1) → ⊥ }
    ensures empty { IsTold (1 ∷ 0 ∷ 0 ∷ []) [] (fact.Inside 2 1) → ⊥ }
    ensures aimed { IsTold (1 ∷ 2 ∷ 4 ∷ []) (Aimed 1 (Some 2) 1 2 5 ∷ []) (fact.Aimed 0 1 (Some 2) 1) }
    ensures elsewhere { IsTold (1 ∷ 2 ∷ 2 ∷ []) (Aimed 1 (Some 2) 1 2 5 ∷ []) (fact.Aimed 0 1 (Some 2) 1) → ⊥ }
    ensures stale { IsTold (1 ∷ 2 ∷ 4 ∷ []) (Stale 2 5 ∷ []) (fact.Aimed 0 1 (Some 2) 1) → ⊥ }
    ensures shut { IsTold (1 ∷ 2 ∷ 4 ∷ []) (Shut ∷ []) (fact.Shut 0) }
    ensures not_shut { IsTold (1 ∷ 2 ∷ 4 ∷ []) (Stale 2 5 ∷ []) (fact.Shut 0) → ⊥ }
    ensures no_scope { IsTold (1 ∷ 2 ∷ 4 ∷ []) [] (fact.Shut 0) → ⊥ }
{}

/// What holds of all runs: they can be cut anywhere, a state that has stopped or is stuck stays, and output only grows.
pub fn run_laws()
    ensures add { StepsAdd }
    ensures next { StepsSuc }
    ensures stopped { StoppedStays }
    ensures stuck { StuckStays }
    ensures output { OutputGrows }
{}

/// What each instruction of each image changes of the allocations and of what the scopes hold, and that only an end stops the program.
pub fn effect_laws()
    ensures tidy { AlwaysTidy }
    ensures tracked { AlwaysTracked }
    ensures waits { AlwaysWaitsShut }
    ensures ends { AlwaysEndsSo }
{}

/// How the cells of allocations lie in objects.
pub fn heap_laws()
    ensures addresses { HaveAddresses }
    ensures stored { HeapStored }
    ensures allocated { HeapAllocated }
{}
