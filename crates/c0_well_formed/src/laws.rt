//! Functions that compute nothing, and whose contracts are the laws.

ghost use Rattle.c0_well_formed.specs.Laws.{ImagesAreConsistent, ImagesAreVerified, ImagesHaveNoFault, IsConsistent, LoweredIsGuarded, LoweredIsWellFormed};
ghost use Rattle.c0_well_formed.specs.Passes.{PassesAreAccepted};
ghost use Rattle.c0_well_formed.specs.Worked.{consistent_image, far_aim, far_fact, five_scopes, large_byte, large_character, large_displacement, large_number, missing_scope, offset_as_parameter, offset_in_layout, with_pieces, with_texts, without_layout};
ghost use Rattle.c0_well_formed.specs.WorkedPasses.{behind_place, calling, calling_hoisted, failing, failing_hoisted, many, many_hoisted, nested, nested_hoisted, returning, returning_hoisted, scan, scan_hoisted, setting, setting_hoisted, walking, walking_hoisted};
ghost use Rattle.middle_form.specs.Scoped.{Block};
ghost use Rattle.scoped_building.specs.Building.{in_order};
ghost use Rattle.std.specs.Prelude.{◌≡◌, ◌∷◌, ◌^◌, ◌≤◌, [], ℕ};

use scope_verifier_laws::verified_is_accepted;

/// The structured code of a well-typed program is well formed.
pub fn lowered_is_well_formed()
    ensures { LoweredIsWellFormed }
{}

/// In it each load and each store of a place comes behind its check, of NULL or of the index, with no write between them of a register that the check names,
/// and a place without an offset is that of a pointer.
pub fn lowered_is_guarded()
    ensures { LoweredIsGuarded }
{}

/// The image of every well-typed program is verified: each jump leads to a block of its function and brings what is known at its entry, each block ends in
/// one instruction that leads out of it, all that an instruction names is there and of the right kind, each load and store is by a scope that is freshly
/// aimed at a place whose check was made, and no scope is open at an allocation, a call or a return.
pub fn images_are_verified()
    ensures { ImagesAreVerified }
{}

/// In the image of a well-typed program, for pieces of one of the sizes that there are, where no list of it has 2^32 items, each kind names a layout that is there, offsets stand in registers alone, no
/// function has more than four scopes, numbers and displacements are of 32 bits, characters and texts are ASCII, and entry facts name what is there.
pub fn images_are_consistent()
    ensures { ImagesAreConsistent }
{}

/// The verifier finds no fault in the image of a well-typed program, however long its lists are.
pub fn images_are_accepted()
    ensures { ImagesHaveNoFault }
{
    verified_is_accepted();
}

/// The image of scoped code that `place`, `hoist` and `prefetch` give of the structured code of a well-typed program is verified, and the verifier finds no fault
/// in it, whichever of the last two passes were done behind the first, and in which order.
pub fn passes_are_accepted()
    ensures { PassesAreAccepted }
{
    verified_is_accepted();
}

/// Which images are consistent, and each cause why another is not.
pub fn worked_images()
    ensures accepted { IsConsistent consistent_image }
    ensures largest { IsConsistent (with_pieces 256) }
    ensures pieces { IsConsistent (with_pieces 48) → ⊥ }
    ensures items { (n : ℕ) → 2 ^ 32 ≤ n → IsConsistent (with_texts n) → ⊥ }
    ensures layout { IsConsistent without_layout → ⊥ }
    ensures cell { IsConsistent offset_in_layout → ⊥ }
    ensures parameter { IsConsistent offset_as_parameter → ⊥ }
    ensures scopes { IsConsistent five_scopes → ⊥ }
    ensures text { IsConsistent large_byte → ⊥ }
    ensures character { IsConsistent large_character → ⊥ }
    ensures number { IsConsistent large_number → ⊥ }
    ensures displacement { IsConsistent large_displacement → ⊥ }
    ensures aim { IsConsistent far_aim → ⊥ }
    ensures told { IsConsistent far_fact → ⊥ }
    ensures fact { IsConsistent missing_scope → ⊥ }
{}

/// What `hoist` puts in place of eight programs' code, behind `place`: a scan leaves no scope in its body; a pointer is aimed before its loop, and before the
/// outermost of two, and its check stays in the body; one that the loop assigns is aimed at each load; a loop with a call or a return stays as it is; one
/// that an error may stop, or that is left in its middle, leaves its scope behind it; and of five arrays the one that is used most has the first scope.
pub fn worked_passes()
    ensures scan { behind_place scan ≡ scan_hoisted }
    ensures setting { behind_place setting ≡ setting_hoisted }
    ensures nested { behind_place nested ≡ nested_hoisted }
    ensures walking { behind_place walking ≡ walking_hoisted }
    ensures calling { behind_place calling ≡ calling_hoisted }
    ensures returning { behind_place returning ≡ Block (in_order (returning_hoisted ∷ [])) ∷ [] }
    ensures failing { behind_place failing ≡ failing_hoisted }
    ensures many { behind_place many ≡ many_hoisted }
{}
