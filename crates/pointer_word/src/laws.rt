//! The laws of the machine and of its words, each as the contract of a function that does nothing.
ghost use Rattle.std.specs.Prelude.{◌≡◌, ℕ, suc, ◌+◌, ◌-◌, ◌%◌, ◌<◌, Bool, true, false, Some, List, [], ◌∷◌, ◌++◌, length, bit_and};
ghost use Rattle.pointer_word.specs.Words.{Place, Away, Coming, Here, Leaving, face, PlaceFits, cleared, keep_plain, keep_here, keep_coming, arrival};
ghost use Rattle.pointer_word.specs.Hands.{Hand, listed, filling, copying};
ghost use Rattle.pointer_word.specs.Machine.{State, Kept, opening, latest};
ghost use Rattle.pointer_word.specs.Sound.{Inv, IsSafe};
ghost use Rattle.pointer_word.specs.Calls.{Call, May, Runs, act, Filled, Copied, IsLawful, stored};
ghost use Rattle.pointer_word.specs.Asked.{Asked};
ghost use Rattle.pointer_word.specs.Pasts.{moves, uses};
ghost use Rattle.pointer_word.specs.Ordered.{IsFilled, IsCopied};
ghost use Rattle.pointer_word.specs.Legal.{legal, Agrees};
ghost use Rattle.pointer_word.specs.Rows.{words_after, start, clean_start, written_meanwhile, moved_out_and_in, left_clean, written_clean};

use crate::word::{KEEP_COMING, KEEP_HERE, KEEP_PLAIN};

/// Whatever calls whichever seats make in whichever order: each keeps the machine sound and makes exactly its change, each state
/// that is reached is safe, over a store that is honest and over one that isn't. An object's history is the list of what was stored in it, its past what its owner
/// did with it, and the past of a mover's hand what it did, in the order of the calls. What an owner finds in the frame where its object is, is the latest store.
pub fn every_run()
    ensures keeps { (n : ℕ) (s : State) (c : Call) → May (Unit {0}) n s c → Inv (Unit {0}) n s → Inv (Unit {0}) n (act s c) }
    ensures sound { (n : ℕ) (calls : List Call) (t : State) → Runs (Unit {0}) n opening calls t → IsSafe (Unit {0}) n t }
    ensures unsound_store { (n : ℕ) (calls : List Call) (t : State) → Runs ⊥ n opening calls t → IsSafe ⊥ n t }
    ensures lawful { (n : ℕ) (s : State) (c : Call) → May (Unit {0}) n s c → Inv (Unit {0}) n s → IsLawful s c }
    ensures lawful_unsound { (n : ℕ) (s : State) (c : Call) → May ⊥ n s c → Inv ⊥ n s → IsLawful s c }
    ensures history { (n : ℕ) (calls : List Call) (t : State) → Runs (Unit {0}) n opening calls t → (o : ℕ) → (t.note o).history ≡ stored o calls }
    ensures uses { (n : ℕ) (calls : List Call) (t : State) → Runs (Unit {0}) n opening calls t → (o : ℕ) → (t.note o).past ≡ uses o calls }
    ensures moves { (n : ℕ) (calls : List Call) (t : State) → Runs (Unit {0}) n opening calls t → (m : ℕ) → (t.hand m).past ≡ moves m opening calls }
    ensures load { (n : ℕ) (s : State) (o f i : ℕ) → (s.note o).frame ≡ Some f → i < n → Inv (Unit {0}) n s → s.cell f i ≡ latest s o i }
{}

/// What each call asks of its caller is enough to keep the machine sound.
pub fn conditions()
    ensures honest { (owner : ℕ → ℕ) (n : ℕ) (s : State) (mover : ℕ) (c : Call) → Asked owner (Unit {0}) n s mover c → May (Unit {0}) n s c }
    ensures unsound_store { (owner : ℕ → ℕ) (n : ℕ) (s : State) (mover : ℕ) (c : Call) → Asked owner ⊥ n s mover c → May ⊥ n s c }
{}

/// The test that a call may be made, and what an honest store adds to it.
pub fn legal_calls()
    ensures may { (n : ℕ) (s : State) (c : Call) → legal n s c ≡ true → Agrees (Unit {0}) n s c → May (Unit {0}) n s c }
    ensures legal { (n : ℕ) (s : State) (c : Call) → May (Unit {0}) n s c → (legal n s c ≡ true) × Agrees (Unit {0}) n s c }
    ensures unsound_store { (n : ℕ) (s : State) (c : Call) → legal n s c ≡ true → May ⊥ n s c }
{}

/// Who fills and copies in the order of the indexes may arrive and commit at the end.
pub fn in_order()
    ensures fills { (x : Hand) (ws : List ℕ) (k : ℕ) → IsFilled x ws k → IsFilled (filling x k (listed ws k)) ws (suc k) }
    ensures filled { (n : ℕ) (x : Hand) (ws : List ℕ) → ((i : ℕ) → i < n → listed ws i ≡ listed x.promised i) → IsFilled x ws n → Filled (Unit {0}) n x }
    ensures copies { (x : Hand) (ws : List ℕ) (v : ℕ) → IsCopied x ws (length ws) → IsCopied (copying x (length ws) v) (ws ++ v ∷ []) (suc (length ws)) }
    ensures copied { (n : ℕ) (x : Hand) (ws : List ℕ) → IsCopied x ws n → Copied n x (Kept ws) }
{}

/// Each operation on a word's bits is the change of its fields, and the masks are those of the definitions.
pub fn bits_and_fields()
    ensures masks { (KEEP_PLAIN ≡ keep_plain) × (KEEP_HERE ≡ keep_here) × (KEEP_COMING ≡ keep_coming) }
    ensures opens { (p : Place) (c n : ℕ) → PlaceFits p → c < 65535 → n ≡ face p c → (n + 1) % 18446744073709551616 ≡ face p (c + 1) }
    ensures closes { (p : Place) (c n : ℕ) → PlaceFits p → c < 65535 → 0 < c → n ≡ face p c → (n + 18446744073709551615) % 18446744073709551616 ≡ face p (c - 1) }
    ensures clears { (p : Place) (c n : ℕ) → PlaceFits p → c < 65536 → n ≡ face p c → bit_and n keep_plain ≡ face (cleared p) c }
    ensures arrives { (f m c n : ℕ) → f < 16777216 → m < 65536 → c < 65536 → n ≡ face (Coming m) c → (n + arrival m f) % 18446744073709551616 ≡ face (Here f true) c }
    ensures retreats { (m c n : ℕ) → m < 65536 → c < 65536 → n ≡ face (Coming m) c → bit_and n keep_coming ≡ face Away c }
    ensures aborts { (f m c n : ℕ) (b : Bool) → f < 16777216 → m < 65536 → c < 65536 → n ≡ face (Leaving f m b) c → bit_and n keep_here ≡ face (Here f false) c }
{}

/// The words that worked rows of calls leave: of an object that is written while a mover moves it out; of one that is moved out and brought in again, and then, as nothing was
/// stored in it, leaves without being copied, where no mark can be made; and of one that is clean, and is held and then to be written.
pub fn worked_rows()
    ensures written_meanwhile { words_after start written_meanwhile ≡ 0x2000_002B_0000 ∷ 0x2000_002B_0001 ∷ 0x2000_002A_0001 ∷ 0x2000_002A_0000 ∷ 0x2000_002A_0000 ∷ 0x28_0000 ∷ [] }
    ensures moved { words_after start moved_out_and_in ≡ 0x2000_002B_0000 ∷ 0x2000_002B_0000 ∷ 0 ∷ 1 ∷ 0x1000_0004_0001 ∷ 0x1000_0000_0028_0001 ∷ [] }
    ensures left { words_after start (moved_out_and_in ++ left_clean) ≡ 0x2000_002B_0000 ∷ 0x2000_002B_0000 ∷ 0 ∷ 1 ∷ 0x1000_0004_0001 ∷ 0x1000_0000_0028_0001 ∷ 0x1000_0000_0028_0000 ∷ 0x1000_0000_0028_0000 ∷ 0 ∷ 0 ∷ [] }
    ensures written { words_after clean_start written_clean ≡ 0x1000_0000_0028_0001 ∷ 0x1000_0000_0028_0001 ∷ 0x28_0001 ∷ [] }
{}
