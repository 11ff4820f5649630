//! The laws of verified images, and worked images: functions that do nothing, and whose contracts hold.
ghost use Rattle.code_form.specs.Code.{Covered};
ghost use Rattle.code_form.specs.Computed.{image_v};
ghost use Rattle.code_form.specs.Form.{Aim, Branch, Call, Image, Jump, Leave, Load, Return, Simple};
ghost use Rattle.code_form.specs.declared.form.Operation.TheVariants.{Alloc, CheckIndex, CheckNull, Null};
ghost use Rattle.code_form.specs.declared.form.Fact.TheVariants as fact;
ghost use Rattle.code_verification.specs.Entries.{EntryFactsHold, entered_after};
ghost use Rattle.code_verification.specs.Verified.{IsVerified};
ghost use Rattle.code_verification.specs.WellFormed.{IsWellFormed};
ghost use Rattle.code_verification.specs.Worked.{IsRefused, brings, branching, calling, idle_block, image_of_blocks, image_of_code, image_through_jump, image_with_arrays, many_scopes, shut_block};
ghost use Rattle.std.specs.Prelude.{◌∷◌, ◌≡◌, [], None, Some, true};

/// A verified image is covered: no function has more than four scopes, and no state of a run is stuck, has more scopes open than the function with the most
/// has, or has one open at an allocation, a call or a return. And wherever a run enters a block, each entry fact of that block holds of the call that runs.
pub fn verified_is_covered()
    ensures covered { (C : Image) → IsVerified C → Covered C }
    ensures facts { (C : Image) → IsVerified C → EntryFactsHold C }
{}

/// Which images are well formed, and each cause why another is not.
pub fn formed()
    ensures accepted { IsWellFormed image_v }
    ensures aimed { IsWellFormed (image_through_jump (Some 4) (fact.Aimed 0 3 (Some 4) 0 ∷ [])) }
    ensures no_end { IsWellFormed (image_of_code []) → ⊥ }
    ensures goes_on { IsWellFormed (image_of_code (Return 1 ∷ Return 1 ∷ [])) → ⊥ }
    ensures outside { IsWellFormed (image_of_code (Jump 1 ∷ [])) → ⊥ }
    ensures shut { IsWellFormed (image_of_code (Load 1 0 ∷ Return 1 ∷ [])) → ⊥ }
    ensures another_kind { IsWellFormed (image_of_code (Return 0 ∷ [])) → ⊥ }
    ensures no_function { IsWellFormed (image_of_code (Call None 2 [] ∷ Return 1 ∷ [])) → ⊥ }
    // A load after the register or the offset of its aim was written again.
    ensures written { IsWellFormed (image_of_code (Aim 0 0 None 0 ∷ Simple (Null 0) ∷ Load 1 0 ∷ Leave 0 ∷ Return 1 ∷ [])) → ⊥ }
    ensures offset_written { IsWellFormed (image_of_code (Aim 0 3 (Some 4) 0 ∷ Simple (CheckIndex 4 3 1 1) ∷ Load 1 0 ∷ Leave 0 ∷ Return 1 ∷ [])) → ⊥ }
    // A scope open at a call, at a return, and at an allocation.
    ensures open_call { IsWellFormed (image_of_code (Aim 0 0 None 0 ∷ Call None 1 [] ∷ Leave 0 ∷ Return 1 ∷ [])) → ⊥ }
    ensures open_return { IsWellFormed (image_of_code (Aim 0 0 None 0 ∷ Return 1 ∷ [])) → ⊥ }
    ensures open_allocation { IsWellFormed (image_of_code (Aim 0 0 None 0 ∷ Simple (Alloc 0 0) ∷ Leave 0 ∷ Return 1 ∷ [])) → ⊥ }
    // An aim with another offset, and a check, that a block asks and a jump does not bring; and one that a function's entry does not.
    ensures another_offset { IsWellFormed (image_through_jump None (fact.Aimed 0 3 (Some 4) 0 ∷ [])) → ⊥ }
    ensures not_brought { IsWellFormed (image_through_jump (Some 4) (fact.Nonnull 0 ∷ fact.Aimed 0 3 (Some 4) 0 ∷ [])) → ⊥ }
    ensures not_at_entry { IsWellFormed (image_of_blocks (record { facts = fact.Shut 0 ∷ fact.Nonnull 0 ∷ []; code = Return 1 ∷ [] } ∷ [])) → ⊥ }
{}

/// Which images are verified, and each cause why an image that is well formed is not.
pub fn verified()
    ensures pointed { IsVerified image_v }
    ensures element { IsVerified (image_of_code (Simple (CheckIndex 4 3 1 1) ∷ Aim 0 3 (Some 4) 0 ∷ Load 1 0 ∷ Leave 0 ∷ Return 1 ∷ [])) }
    // A check that a call leaves, and one that goes through a jump with the aim.
    ensures called { IsVerified (image_of_code (Simple (CheckNull 0) ∷ Call None 1 [] ∷ Aim 0 0 None 0 ∷ Load 1 0 ∷ Leave 0 ∷ Return 1 ∷ [])) }
    ensures brought { IsVerified brings }
    ensures unchecked { IsRefused (image_of_code (Aim 0 0 None 0 ∷ Load 1 0 ∷ Leave 0 ∷ Return 1 ∷ [])) }
    // The pointer that was checked is written before it is aimed by.
    ensures overwritten { IsRefused (image_of_code (Simple (CheckNull 0) ∷ Simple (Null 0) ∷ Aim 0 0 None 0 ∷ Load 1 0 ∷ Leave 0 ∷ Return 1 ∷ [])) }
    // The index was checked for another array.
    ensures another_array { IsRefused (image_with_arrays (Simple (CheckIndex 4 3 1 1) ∷ Aim 0 5 (Some 4) 0 ∷ Load 1 0 ∷ Leave 0 ∷ Return 1 ∷ [])) }
    // The aim goes through a jump, and the check does not.
    ensures not_brought { IsRefused (image_through_jump (Some 4) (fact.Aimed 0 3 (Some 4) 0 ∷ [])) }
    // An entry fact of a block, which nothing leads to, tells of a number what is told of pointers.
    ensures no_pointer { IsRefused (image_of_blocks (shut_block (Return 1 ∷ []) ∷ record { facts = fact.Nonnull 1 ∷ fact.Shut 0 ∷ []; code = Return 1 ∷ [] } ∷ [])) }
    ensures scopes { IsRefused many_scopes }
{}

/// Which blocks a run enters, and when: by the start, a call, a jump and a branch, and not by a return.
pub fn entered()
    ensures start { entered_after branching 0 ≡ Some calling }
    ensures call { entered_after branching 1 ≡ Some idle_block }
    ensures back { entered_after branching 2 ≡ None }
    ensures jump { entered_after branching 3 ≡ Some (shut_block (Branch 2 0 2 ∷ [])) }
    ensures branch { entered_after branching 4 ≡ Some (shut_block (Return 1 ∷ [])) }
    ensures end { entered_after branching 5 ≡ None }
{}
