//! What the definitions come to for some programs: functions that do nothing, and whose contracts hold.
ghost use Rattle.cells.specs.Stops.{BoundsFault, Ended, ErrorCalled, NullFault};
ghost use Rattle.middle_form.specs.Discipline.{IsScoped};
ghost use Rattle.middle_form.specs.Form.{Exit, Load, Call};
ghost use Rattle.middle_form.specs.Meaning.{means};
ghost use Rattle.middle_form.specs.Samples.{counting, failing, fibonacci, indexing, null_checked, null_loaded, pointing, program_of, stepping};
ghost use Rattle.middle_form.specs.Scoped.{plain_program};
ghost use Rattle.middle_form.specs.ScopedMeaning.{scoped_means};
ghost use Rattle.middle_form.specs.ScopedSamples.{left, left_open, left_shut, shared, stale};
ghost use Rattle.middle_form.specs.WellFormed.{is_well_formed};
ghost use Rattle.std.specs.Prelude.{◌≡◌, [], None, Some, codes, false, pos, true};

/// What programs mean: each turn counts, exits leave what they name, a cell holds what was stored, and each stop tells itself.
pub fn computed()
    ensures calls { means fibonacci 16 ≡ Some (record { stop = Some (Ended (pos 5)); output = [] }) }
    ensures turns { means fibonacci 15 ≡ Some (record { stop = None; output = [] }) }
    ensures no_turn { means fibonacci 0 ≡ Some (record { stop = None; output = [] }) }
    ensures left { means counting 4 ≡ Some (record { stop = Some (Ended (pos 3)); output = codes "012" }) }
    ensures cut { means counting 3 ≡ Some (record { stop = None; output = codes "01" }) }
    ensures behind { means stepping 4 ≡ Some (record { stop = Some (Ended (pos 3)); output = [] }) }
    ensures pointed { means pointing 1 ≡ Some (record { stop = Some (Ended (pos 7)); output = [] }) }
    ensures element { means (indexing 2) 1 ≡ Some (record { stop = Some (Ended (pos 9)); output = [] }) }
    ensures other { means (indexing 0) 1 ≡ Some (record { stop = Some (Ended (pos 0)); output = [] }) }
    ensures bounds { means (indexing 3) 1 ≡ Some (record { stop = Some BoundsFault; output = [] }) }
    ensures error { means failing 1 ≡ Some (record { stop = Some (ErrorCalled (codes "no")); output = codes "0" }) }
    ensures null { means null_checked 1 ≡ Some (record { stop = Some NullFault; output = [] }) }
{}

/// Which programs are well formed, and that code which is not may be stuck; so may a load of NULL, which no form of code forbids.
pub fn formed()
    ensures calls { is_well_formed fibonacci ≡ true }
    ensures loops { is_well_formed counting ≡ true }
    ensures blocks { is_well_formed stepping ≡ true }
    ensures cells { is_well_formed pointing ≡ true }
    ensures elements { is_well_formed (indexing 3) ≡ true }
    ensures exit { is_well_formed (program_of (Exit 0)) ≡ false }
    ensures function { is_well_formed (program_of (Call None 1 [])) ≡ false }
    ensures kind { is_well_formed (program_of (Load 1 3 None 0)) ≡ false }
    ensures stuck_exit { means (program_of (Exit 0)) 1 ≡ None }
    ensures stuck_function { means (program_of (Call None 1 [])) 1 ≡ None }
    ensures stuck_kind { means (program_of (Load 1 3 None 0)) 1 ≡ None }
    ensures stuck_null { means null_loaded 1 ≡ None }
{}

/// What scoped programs mean: a load is by a scope that is aimed, and stuck by one whose register was written since or that was left, where the same
/// code without scopes is not. Which of them keep the discipline: not one that leaves a block with a scope open.
pub fn scoped_computed()
    ensures shared { scoped_means shared 1 ≡ Some (record { stop = Some (Ended (pos 7)); output = [] }) }
    ensures stale { scoped_means stale 1 ≡ None }
    ensures stale_plain { means (plain_program stale) 1 ≡ Some (record { stop = Some (Ended (pos 7)); output = [] }) }
    ensures left { scoped_means left 1 ≡ None }
    ensures left_plain { means (plain_program left) 1 ≡ Some (record { stop = Some (Ended (pos 7)); output = [] }) }
    ensures shared_kept { IsScoped shared }
    ensures shut_kept { IsScoped left_shut }
    ensures refused { IsScoped left_open → ⊥ }
{}
