//! What is promised of every image that is generated: functions that do nothing, and whose contracts hold.
ghost use Rattle.cells.specs.Stops.{BoundsFault, Ended, ErrorCalled, NullFault};
ghost use Rattle.code_form.specs.Code.{Covered};
ghost use Rattle.code_form.specs.declared.form.Fact.TheVariants as fact;
ghost use Rattle.codegen.specs.Correct.{IsSafe, Keeps, ran};
ghost use Rattle.codegen.specs.Generated.{facts_of, generated};
ghost use Rattle.codegen.specs.Samples.{counting, failing, fibonacci, held, indexing, null_checked, pointing, program_of, stepping};
ghost use Rattle.code_verification.specs.Verified.{IsVerified};
ghost use Rattle.middle_form.specs.Discipline.{IsScoped};
ghost use Rattle.middle_form.specs.Guarded.{is_guarded_program};
ghost use Rattle.middle_form.specs.Scoped.{Program, plain_program};
ghost use Rattle.middle_form.specs.WellFormed.{is_well_formed};
ghost use Rattle.std.specs.Prelude.{◌∷◌, ◌≡◌, ℕ, [], None, Some, codes, pos, true};

use code_form::run_laws;
use code_verification::verified_is_covered;

/// What is generated does what the scoped code means, both ways, and is never stuck.
pub fn generated_keeps_the_meaning()
    ensures { (cells : ℕ) (P : Program) → IsSafe P → Keeps P (generated cells P) }
{
    run_laws();
}

/// What is generated of scoped code that keeps the discipline is verified, where the code is well formed and checks each place before it uses it: each jump
/// leads to a block of its function and brings what is known at its entry, each block ends in one instruction that leads out of it, all that an instruction
/// names is there and of the right kind, each load and store is by a scope that is freshly aimed at a place whose check was made, and no scope is open at an
/// allocation, a call or a return.
pub fn generated_is_verified()
    ensures { (cells : ℕ) (P : Program) → is_well_formed (plain_program P) ≡ true → is_guarded_program (plain_program P) ≡ true → IsScoped P → IsVerified (generated cells P) }
{}

/// So what is generated of it is covered: no function has more than four scopes, and no state of a run is stuck, has more scopes open than the function with
/// the most has, or has one open at an allocation, a call or a return.
pub fn generated_is_covered()
    ensures { (cells : ℕ) (P : Program) → is_well_formed (plain_program P) ≡ true → is_guarded_program (plain_program P) ≡ true → IsScoped P → Covered (generated cells P) }
{
    verified_is_covered();
}

/// What the images of some programs come to: calls return, exits leave what they name, a cell holds what was stored, each stop tells itself, and an aim
/// lasts through a loop, at the entry of whose blocks it is told.
pub fn computed()
    ensures calls { ran (generated 64 fibonacci) 200 ≡ record { stop = Some (Ended (pos 5)); output = [] } }
    ensures left { ran (generated 64 counting) 60 ≡ record { stop = Some (Ended (pos 3)); output = codes "012" } }
    ensures cut { ran (generated 64 counting) 22 ≡ record { stop = None; output = codes "01" } }
    ensures behind { ran (generated 64 stepping) 60 ≡ record { stop = Some (Ended (pos 3)); output = [] } }
    ensures pointed { ran (generated 64 pointing) 30 ≡ record { stop = Some (Ended (pos 7)); output = [] } }
    ensures element { ran (generated 64 (indexing 2)) 30 ≡ record { stop = Some (Ended (pos 9)); output = [] } }
    ensures bounds { ran (generated 64 (indexing 3)) 30 ≡ record { stop = Some BoundsFault; output = [] } }
    ensures error { ran (generated 64 failing) 10 ≡ record { stop = Some (ErrorCalled (codes "no")); output = codes "0" } }
    ensures null { ran (generated 64 null_checked) 5 ≡ record { stop = Some NullFault; output = [] } }
    ensures printed { ran (generated 64 (program_of held)) 60 ≡ record { stop = Some (Ended (pos 3)); output = codes "555" } }
    ensures told { facts_of held ≡ (fact.Shut 0 ∷ []) ∷ (fact.Aimed 0 3 None 0 ∷ []) ∷ (fact.Aimed 0 3 None 0 ∷ []) ∷ (fact.Aimed 0 3 None 0 ∷ []) ∷ [] }
{}
