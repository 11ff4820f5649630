//! The laws of the world, each as the contract of a function that does nothing.
ghost use Rattle.std.specs.Prelude.{ℕ, ◌<◌, ◌≤◌, ◌≡◌, ◌∷◌, ◌++◌, [], List, None, Some, false, is_some, pos, true};
ghost use Rattle.cells.specs.Stops.{Ended, NullFault, Stop};
ghost use Rattle.cells.specs.declared.ending.Want.{Want};
ghost use Rattle.cells.specs.declared.ending.Want.TheVariants.{StoreFailed};
ghost use Rattle.code_form.specs.Code.{is_blocked, stop_of};
ghost use Rattle.code_form.specs.Form.{Image};
ghost use Rattle.pointer_word.specs.Sound.{IsSafe};
ghost use Rattle.world_semantics.specs.declared.event.Actor.{Actor};
ghost use Rattle.world_semantics.specs.declared.event.Actor.TheVariants.{Program};
ghost use Rattle.world_semantics.specs.declared.event.Choice.{Choice};
ghost use Rattle.world_semantics.specs.declared.event.Choice.TheVariants.{Next};
ghost use Rattle.world_semantics.specs.Causes.{HasCause, HasFailed, IsCaused};
ghost use Rattle.world_semantics.specs.Enabled.{CanGo, OneAsked, TriesAsked, is_enabled};
ghost use Rattle.world_semantics.specs.Enough.{IsUnheld, need};
ghost use Rattle.world_semantics.specs.Following.{IsAt};
ghost use Rattle.world_semantics.specs.Holding.{HoldsFit};
ghost use Rattle.world_semantics.specs.Programs.{Bringing, Hold, Ready, Wanted, hold_at, next_touch};
ghost use Rattle.world_semantics.specs.Scopes.{AimsIn, IsFramed, ScopeFits};
ghost use Rattle.world_semantics.specs.Steps.{IsSound, IsStep};
ghost use Rattle.world_semantics.specs.Turns.{Answer};
ghost use Rattle.world_semantics.specs.Worlds.{Event, Follows, IsHonest, Sizes, World, event, is_actor, setting, start};
ghost use Rattle.world_semantics.specs.Rows.{NoPuts, NoReads, Reliable, begun_first, brought_back, brought_back_later, brought_by, e0, e0_leave, e0_mark, f0, f0_begin, failed_itself, faulty, fetch_failed, fetched_first, five, five_fetched, get_failed, given_up, held_meanwhile, holding_one, left_clean, left_itself, moved_itself, opened_first, p0, put_away, put_failed, read_meanwhile, row, times, two_objects, two_written, written};

use code_form::{effect_laws, heap_laws, run_laws};

/// What worked schedules of one program, one evacuator, and one fetcher or none come to: how many lines they have, how the program has stopped or what
/// it wants, the bits of object 0's word, and cell 0 of two frames. None where a line is refused.
pub fn worked_schedules()
    ensures brought_back { row (five Reliable) (brought_back ++ p0 ∷ []) ≡ (214, Some (record { stop = Some (Ended (pos 5)); want = None; word = 0x1000_0000_0018_0000; first = 5; second = 5 })) }
    ensures not_returned { row (five Reliable) brought_back ≡ (213, Some (record { stop = None; want = None; word = 0x1000_0000_0018_0000; first = 5; second = 5 })) }
    ensures read_meanwhile { row (five Reliable) read_meanwhile ≡ (146, Some (record { stop = Some (Ended (pos 5)); want = None; word = 0; first = 5; second = 0 })) }
    ensures held_meanwhile { row (five Reliable) held_meanwhile ≡ (146, Some (record { stop = Some (Ended (pos 5)); want = None; word = 0x8_0000; first = 5; second = 0 })) }
    ensures idle { row (five Reliable) (written ++ e0 ∷ []) ≡ (75, None) }
    ensures no_frame { row (five Reliable) (written ++ e0_mark 0 2 ∷ []) ≡ (75, None) }
    ensures elsewhere { row (five Reliable) (written ++ e0_mark 0 1 ∷ []) ≡ (75, Some (record { stop = None; want = None; word = 0x8_0000; first = 5; second = 0 })) }
    ensures put_failed { row (five NoPuts) put_failed ≡ (145, Some (record { stop = Some (Ended (pos 5)); want = None; word = 0x8_0000; first = 5; second = 0 })) }
    ensures get_failed { row (five NoReads) get_failed ≡ (149, Some (record { stop = None; want = Some StoreFailed; word = 0; first = 5; second = 0 })) }
    ensures no_more { row (five NoReads) (get_failed ++ p0 ∷ []) ≡ (150, None) }
    ensures closes { row faulty (holding_one ++ p0 ∷ []) ≡ (71, Some (record { stop = None; want = None; word = 0x1000_0000_0008_0000; first = 0; second = 0 })) }
    ensures stops { row faulty (holding_one ++ times 2 p0) ≡ (72, Some (record { stop = Some NullFault; want = None; word = 0x1000_0000_0008_0000; first = 0; second = 0 })) }
    ensures left_itself { row (two_objects Reliable) left_itself ≡ (144, Some (record { stop = Some (Ended (pos 5)); want = None; word = 0; first = 0; second = 0 })) }
    ensures moved_itself { row (two_written Reliable) moved_itself ≡ (212, Some (record { stop = Some (Ended (pos 5)); want = None; word = 0; first = 0; second = 0 })) }
    ensures failed_itself { row (two_written NoPuts) failed_itself ≡ (145, Some (record { stop = None; want = Some StoreFailed; word = 0x8_0000; first = 5; second = 0 })) }
    ensures fetched_first { row (five_fetched Reliable) fetched_first ≡ (214, Some (record { stop = Some (Ended (pos 5)); want = None; word = 0x1000_0000_0018_0000; first = 5; second = 5 })) }
    ensures brought_by { row (five_fetched Reliable) brought_by ≡ (210, Some (record { stop = None; want = None; word = 0x1000_0000_0018_0000; first = 5; second = 5 })) }
    ensures given_up { row (five_fetched Reliable) given_up ≡ (144, Some (record { stop = None; want = None; word = 0; first = 5; second = 0 })) }
    ensures given_up_twice { row (five_fetched Reliable) (given_up ++ f0 ∷ []) ≡ (145, None) }
    ensures opened_first { row (five_fetched Reliable) opened_first ≡ (144, Some (record { stop = None; want = None; word = 1; first = 5; second = 0 })) }
    ensures nothing_begun { row (five_fetched Reliable) (opened_first ++ f0 ∷ []) ≡ (145, None) }
    ensures begun_first { row (five_fetched Reliable) begun_first ≡ (146, Some (record { stop = None; want = None; word = 1; first = 5; second = 0 })) }
    ensures fetch_failed { row (five_fetched NoReads) fetch_failed ≡ (148, Some (record { stop = None; want = None; word = 1; first = 5; second = 0 })) }
    ensures no_fetcher { row (five Reliable) (put_away ++ f0_begin 0 ∷ []) ≡ (143, None) }
    ensures brought_back_later { row (five Reliable) brought_back_later ≡ (215, Some (record { stop = Some (Ended (pos 5)); want = None; word = 0x1000_0000_0018_0000; first = 5; second = 5 })) }
    ensures leaves_not { row (five Reliable) (written ++ e0_leave 0 0 ∷ []) ≡ (75, Some (record { stop = None; want = None; word = 0x8_0000; first = 5; second = 0 })) }
    ensures left_clean { row (five Reliable) left_clean ≡ (216, Some (record { stop = Some (Ended (pos 5)); want = None; word = 0; first = 5; second = 5 })) }
    ensures no_mark { row (five Reliable) (brought_back ++ e0_mark 0 1 ∷ []) ≡ (214, Some (record { stop = None; want = None; word = 0x1000_0000_0018_0000; first = 5; second = 5 })) }
    ensures nothing_marked { row (five Reliable) (brought_back ++ e0_mark 0 1 ∷ e0 ∷ []) ≡ (215, None) }
{}

/// Whatever events whichever actors make in whichever order, over any number of programs, evacuators and fetchers, any images, frames and objects
/// and pieces of any size: the machine is sound and each actor has in hand what its mode says, over a store that is honest and
/// over one that isn't. Each event makes at most one call, which the actor may make and which changes words, frame words and
/// cells lawfully; and it changes no other actor, whatever the store answers.
pub fn every_schedule()
    ensures sound { (z : Sizes) (images : ℕ → Image) (events : List Event) (v : World) → Follows (Unit {0}) z images (start images) events v → IsSound (Unit {0}) z v }
    ensures safe { (z : Sizes) (images : ℕ → Image) (events : List Event) (v : World) → Follows (Unit {0}) z images (start images) events v → IsSafe (Unit {0}) z.cells v.lock }
    ensures unsound_store { (z : Sizes) (images : ℕ → Image) (events : List Event) (v : World) → Follows ⊥ z images (start images) events v → IsSafe ⊥ z.cells v.lock }
    ensures step { (z : Sizes) (images : ℕ → Image) (w u : World) (e : Event) → IsSound (Unit {0}) z w → IsHonest z w e.actor e.answer → event z images w e ≡ Some u → IsStep (Unit {0}) z w e u × IsSound (Unit {0}) z u }
    ensures step_unsound { (z : Sizes) (images : ℕ → Image) (w u : World) (e : Event) → IsSound ⊥ z w → event z images w e ≡ Some u → IsStep ⊥ z w e u × IsSound ⊥ z u }
{}

/// After any events over an honest store each program is where the run of its code is after as many instructions as it has completed, and its
/// cells are read off the contents of its objects, wherever they are. Its scopes hold objects of its share, whose words count them, over any store.
pub fn programs_follow()
    ensures at { (z : Sizes) (images : ℕ → Image) (events : List Event) (v : World) → 0 < z.cells → Follows (Unit {0}) z images (start images) events v → (k : ℕ) → IsAt z images v k }
    ensures holds { (z : Sizes) (images : ℕ → Image) (events : List Event) (v : World) → 0 < z.cells → Follows (Unit {0}) z images (start images) events v → (k : ℕ) → HoldsFit z v k }
    ensures holds_unsound { (z : Sizes) (images : ℕ → Image) (events : List Event) (v : World) → 0 < z.cells → Follows ⊥ z images (start images) events v → (k : ℕ) → HoldsFit z v k }
{
    effect_laws();
    heap_laws();
    run_laws();
}

/// Whether an event is enabled does not depend on what is answered: on whether a put succeeds, on what is read, or on whether memory grows.
pub fn answers()
    ensures honest { (z : Sizes) (images : ℕ → Image) (w : World) (e : Event) (a : Answer) → IsSound (Unit {0}) z w → is_some (event z images w (record e { answer = a })) ≡ is_some (event z images w e) }
    ensures unsound_store { (z : Sizes) (images : ℕ → Image) (w : World) (e : Event) (a : Answer) → IsSound ⊥ z w → is_some (event z images w (record e { answer = a })) ≡ is_some (event z images w e) }
{}

/// After any events, over a store that is honest and over one that isn't, an event is enabled exactly where there are such an actor, object and
/// frame, and its actor has something to do: the machine refuses no call. A program that is ready goes on wherever its code is neither stuck,
/// stopped nor blocked, and aims none but its four scopes. Each call that is made, or tried and refused, meets what is asked of its caller: an
/// owner names objects of its own, and a mover what it has in hand.
pub fn enabled_calls()
    ensures enabled { (z : Sizes) (images : ℕ → Image) (events : List Event) (v : World) (e : Event) → 0 < z.cells → Follows (Unit {0}) z images (start images) events v → is_some (event z images v e) ≡ is_enabled z images v e }
    ensures enabled_unsound { (z : Sizes) (images : ℕ → Image) (events : List Event) (v : World) (e : Event) → 0 < z.cells → Follows ⊥ z images (start images) events v → is_some (event z images v e) ≡ is_enabled z images v e }
    ensures goes_on { (z : Sizes) (images : ℕ → Image) (events : List Event) (v : World) (k : ℕ) (a : Answer) → 0 < z.cells → Follows ⊥ z images (start images) events v → k < z.programs → (v.programs k).mode ≡ Ready → is_blocked (v.programs k).core ≡ false → CanGo (next_touch (setting z images k) (v.programs k)) → is_some (event z images v (record { actor = Program k; choice = Next; answer = a })) ≡ true }
    ensures asked { (z : Sizes) (images : ℕ → Image) (events : List Event) (v u : World) (e : Event) → 0 < z.cells → Follows (Unit {0}) z images (start images) events v → event z images v e ≡ Some u → OneAsked (Unit {0}) z v e.actor u }
    ensures asked_unsound { (z : Sizes) (images : ℕ → Image) (events : List Event) (v u : World) (e : Event) → 0 < z.cells → Follows ⊥ z images (start images) events v → event z images v e ≡ Some u → OneAsked ⊥ z v e.actor u }
    ensures tries { (z : Sizes) (images : ℕ → Image) (events : List Event) (v : World) (who : Actor) (c : Choice) (a : Answer) → 0 < z.cells → Follows (Unit {0}) z images (start images) events v → is_actor z who ≡ true → TriesAsked (Unit {0}) z images v who c a }
    ensures tries_unsound { (z : Sizes) (images : ℕ → Image) (events : List Event) (v : World) (who : Actor) (c : Choice) (a : Answer) → 0 < z.cells → Follows ⊥ z images (start images) events v → is_actor z who ≡ true → TriesAsked ⊥ z images v who c a }
{
    effect_laws();
    heap_laws();
    run_laws();
}

/// After any events over any store, each scope of a program holds the object of the cell that the scope of its code's run has, and nothing where that
/// has none, but for what an instruction under way has opened or shut, and a want has shut. A program that has stopped holds nothing, and
/// what one holds that is within no instruction is in the frame that it was told.
pub fn scopes_follow()
    ensures scopes { (z : Sizes) (images : ℕ → Image) (events : List Event) (v : World) → 0 < z.cells → Follows ⊥ z images (start images) events v → (k s : ℕ) → ScopeFits (setting z images k) (v.programs k) (v.programs k).mode s }
    ensures under_way { (z : Sizes) (images : ℕ → Image) (events : List Event) (v : World) → 0 < z.cells → Follows ⊥ z images (start images) events v → (k : ℕ) → AimsIn (setting z images k) (v.programs k) (v.programs k).mode }
    ensures stopped { (z : Sizes) (images : ℕ → Image) (events : List Event) (v : World) (k : ℕ) (x : Stop) → 0 < z.cells → Follows ⊥ z images (start images) events v → stop_of (v.programs k).core ≡ Some x → (s : ℕ) → hold_at (v.programs k).holds s ≡ None }
    ensures framed { (z : Sizes) (images : ℕ → Image) (events : List Event) (v : World) (k s : ℕ) (x : Hold) → 0 < z.cells → Follows ⊥ z images (start images) events v → (v.programs k).mode ≡ Ready → hold_at (v.programs k).holds s ≡ Some x → IsFramed v.lock x }
{
    effect_laws();
    heap_laws();
    run_laws();
}

/// Where there is a frame for each scope of a program, each evacuator and each fetcher, one is free or holds one of the objects with no hold that is in
/// no mover's hands wherever a program seeks a frame, after any events over any store.
pub fn enough_frames()
    ensures { (z : Sizes) (images : ℕ → Image) (events : List Event) (v : World) (k o : ℕ) → 0 < z.cells → Follows ⊥ z images (start images) events v → need z images ≤ z.frames → k < z.programs → (v.programs k).mode ≡ Bringing o → (f : ℕ) × (f < z.frames) × IsUnheld z v.lock f }
{
    effect_laws();
    heap_laws();
    run_laws();
}

/// What an event of a program leads it to want has its cause. A program that wants something has met the cause in an event of
/// its own; and one whose store failed has itself called the store and been refused, whatever the store answered to others.
pub fn wants()
    ensures cause { (z : Sizes) (images : ℕ → Image) (w u : World) (e : Event) (k : ℕ) → event z images w e ≡ Some u → e.actor ≡ Program k → IsCaused (setting z images k) (w.programs k) e.answer (u.programs k).mode }
    ensures wanted { (z : Sizes) (images : ℕ → Image) (events : List Event) (v : World) (k : ℕ) (want : Want) → Follows (Unit {0}) z images (start images) events v → (v.programs k).mode ≡ Wanted want → HasCause (Unit {0}) z images k want (start images) events }
    ensures store_failed { (z : Sizes) (images : ℕ → Image) (events : List Event) (v : World) (k : ℕ) → Follows (Unit {0}) z images (start images) events v → HasFailed (v.programs k).mode → HasCause (Unit {0}) z images k StoreFailed (start images) events }
    ensures unsound_store { (z : Sizes) (images : ℕ → Image) (events : List Event) (v : World) (k : ℕ) (want : Want) → Follows ⊥ z images (start images) events v → (v.programs k).mode ≡ Wanted want → HasCause ⊥ z images k want (start images) events }
    ensures unsound_failure { (z : Sizes) (images : ℕ → Image) (events : List Event) (v : World) (k : ℕ) → Follows ⊥ z images (start images) events v → HasFailed (v.programs k).mode → HasCause ⊥ z images k StoreFailed (start images) events }
{}
