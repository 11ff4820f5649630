//! Laws of the first fault: functions that do nothing, and whose contracts hold.
ghost use Rattle.code_form.specs.Code.{Covered};
ghost use Rattle.code_form.specs.Computed.{image_v};
ghost use Rattle.code_form.specs.Form.{Aim, Call, Image, Jump, Leave, Load, Return, Simple, Store};
ghost use Rattle.code_form.specs.declared.form.Fact.TheVariants as fact;
ghost use Rattle.code_form.specs.declared.form.Kind.TheVariants as kind;
ghost use Rattle.code_form.specs.declared.form.Operation.TheVariants.{Alloc, CheckNull, Const, Null};
ghost use Rattle.code_verification.specs.Verified.{IsVerified};
ghost use Rattle.scope_verifier_laws.specs.Faults.{fault_of};
ghost use Rattle.scope_verifier_laws.specs.Laws.{NamesItsLayouts};
ghost use Rattle.scope_verifier_laws.specs.Worked.{image_of_block, image_of_blocks, image_of_code, image_of_functions, main_takes, turning, whole, with_cell, with_jump, with_pointer, without_aim, without_check, without_leave};
ghost use Rattle.scope_verifier_laws.specs.declared.fault.VerifyFault.TheVariants.{EntryFacts, NotAimed, NotChecked, OpenScope, OperandKind, OutOfCode, TooManyScopes};
ghost use Rattle.std.specs.Prelude.{◌∷◌, ◌≡◌, [], None, Some, pos};

use code_verification::verified_is_covered;

/// An image without a fault is verified, so that no run of it is stuck and its scopes are few enough.
pub fn accepted_is_verified()
    ensures verified { (C : Image) → fault_of C ≡ None → IsVerified C }
    ensures covered { (C : Image) → fault_of C ≡ None → Covered C }
{
    verified_is_covered();
}

/// A verified image has no fault, where its kinds name layouts that are there.
pub fn verified_is_accepted()
    ensures { (C : Image) → IsVerified C → NamesItsLayouts C → fault_of C ≡ None }
{}

/// The first faults of worked images.
pub fn worked_faults()
    ensures none { fault_of image_v ≡ None }
    ensures same { fault_of (image_of_code whole) ≡ None }
    // Each fault by a change of that image.
    ensures not_aimed { fault_of (image_of_code without_aim) ≡ Some NotAimed }
    ensures not_checked { fault_of (image_of_code without_check) ≡ Some NotChecked }
    ensures open_scope { fault_of (image_of_code without_leave) ≡ Some OpenScope }
    ensures scopes { fault_of (image_of_block 5 (fact.Shut 0 ∷ []) whole) ≡ Some TooManyScopes }
    ensures out_of_code { fault_of (image_of_code with_jump) ≡ Some OutOfCode }
    ensures operand_kind { fault_of (image_of_code with_pointer) ≡ Some OperandKind }
    ensures entry_facts { fault_of (image_of_block 1 (fact.Shut 0 ∷ fact.Nonnull 0 ∷ []) whole) ≡ Some EntryFacts }
    // Further causes of each.
    ensures written { fault_of (image_of_code (Simple (CheckNull 0) ∷ Aim 0 0 None 0 ∷ Simple (Null 0) ∷ Load 1 0 ∷ Leave 0 ∷ Return 1 ∷ [])) ≡ Some NotAimed }
    ensures no_cell { fault_of (image_of_code (Simple (CheckNull 0) ∷ Aim 0 0 None 1 ∷ Load 1 0 ∷ Leave 0 ∷ Return 1 ∷ [])) ≡ Some NotChecked }
    ensures not_told { fault_of (image_of_block 1 [] (Return 1 ∷ [])) ≡ Some OpenScope }
    ensures still_open { fault_of (image_of_code (Aim 0 0 None 0 ∷ Simple (Null 0) ∷ Return 1 ∷ [])) ≡ Some OpenScope }
    ensures no_scope { fault_of (image_of_code (Leave 1 ∷ Return 1 ∷ [])) ≡ Some TooManyScopes }
    ensures no_instruction { fault_of (image_of_code []) ≡ Some OutOfCode }
    ensures no_block { fault_of (image_of_blocks 0 []) ≡ Some OutOfCode }
    ensures no_end { fault_of (image_of_code (Simple (Null 0) ∷ [])) ≡ Some OutOfCode }
    ensures goes_on { fault_of (image_of_code (Return 1 ∷ Return 1 ∷ [])) ≡ Some OutOfCode }
    ensures no_function { fault_of (image_of_functions []) ≡ Some OperandKind }
    ensures takes { fault_of main_takes ≡ Some OperandKind }
    ensures no_register { fault_of (image_of_code (Return 2 ∷ [])) ≡ Some OperandKind }
    ensures no_layout { fault_of (with_cell (kind.Ptr 1)) ≡ Some OperandKind }
    ensures offset { fault_of (with_cell (kind.Off 0)) ≡ Some OperandKind }
    ensures not_kept { fault_of turning ≡ Some EntryFacts }
    // The numbers of the whole image come first, and of one instruction those of blocks and scopes.
    ensures numbers_first { fault_of (image_of_code (Store 0 1 ∷ Call None 1 [] ∷ Return 1 ∷ [])) ≡ Some OperandKind }
    ensures scope_first { fault_of (image_of_code (Store 1 2 ∷ Return 1 ∷ [])) ≡ Some TooManyScopes }
{}
