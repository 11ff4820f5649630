//! What a berth promises over files, whatever the folder.
ghost use Rattle.std.specs.Prelude.{◌≡◌, ℕ, ◌+◌, ◌%◌, ◌<◌, ◌≤◌, List, ◌∷◌, length, Some, IfOk, IfErr, MatchResult};
ghost use Rattle.remote_store.specs.Kept.{Keeps, Took, RefusedFor, next_version};
ghost use Rattle.remote_store.specs.Refusing.{RefusesGet, refused_once};
ghost use Rattle.file_store.specs.FileRows.{row_in, word_bytes};

use crate::folder::Folder;
use crate::store::FileStore;
use remote_store::{Berth, Failed, MOST_CELLS, Port, Refusal, RefusedCall};

/// `Berth::put` over files: where it succeeds, the berth's file holds the bytes of the object, the version, the number of
/// cells and the cells. `Failed` exactly where a call of this store failed.
pub fn put_into_file<D: Folder>(
    berth: &mut Berth<D::File>,
    port: &mut Port<FileStore<D>>,
    obj: usize,
    words: &[u64],
) -> Result<(), Failed>
    requires { length words.now ≤ MOST_CELLS }
    ensures version { berth.new.version ≡ next_version berth.old.version }
    ensures whole { IfOk result (λ _. D.content berth.new.cell ≡ Some (word_bytes (obj ∷ berth.new.version ∷ length words.now ∷ words.now))) }
    ensures put { IfOk result (λ _. Keeps (length words.now) berth.new.version (row_in (D.content berth.new.cell)) obj words.now) }
    ensures counted { MatchResult result (λ _. (port.new.refusals ≡ port.old.refusals) × (port.new.store.failures.count ≡ port.old.store.failures.count))
        (λ failed. (port.new.refusals ≡ refused_once port.old.refusals (RefusedCall.Put obj failed.cause)) × (port.new.store.failures.count ≡ (port.old.store.failures.count + 1) % 18446744073709551616)) }
{
    berth.put(port, obj, words)?;
    Ok(())
}

/// `Berth::get` over files: where it succeeds and the folder is honest, it takes the cells of the last put, and in any case those that
/// follow the berth's header in the bytes that the folder gave. `Failed` exactly where a call of this store failed, `Wrong` exactly
/// where the bytes of another header came. The berth stays, and after a refusal so do `words`.
pub fn get_from_file<D: Folder>(
    berth: &Berth<D::File>,
    port: &mut Port<FileStore<D>>,
    obj: usize,
    words: &mut [u64],
) -> Result<(), Refusal>
    requires { (length words.old ≤ MOST_CELLS) × (0 < berth.now.version) }
    ensures got { IfOk result (λ _. D.honest → (ws : List ℕ) → Keeps (length words.old) berth.now.version (row_in (D.content berth.now.cell)) obj ws → words.new ≡ ws) }
    ensures refused { IfErr result (λ why. (words.new ≡ words.old) × RefusesGet why obj port.old.refusals port.new.refusals) }
    ensures read { MatchResult result (λ _. Took (length words.old) (λ row. D.read_gives port.old.store.folder berth.now.cell (word_bytes row) port.new.store.folder) berth.now.version obj words.new)
        (λ why. RefusedFor (length words.old) (port.new.store.failures.count ≡ (port.old.store.failures.count + 1) % 18446744073709551616)
        (λ row. D.read_gives port.old.store.folder berth.now.cell (word_bytes row) port.new.store.folder × (port.new.store.failures.count ≡ port.old.store.failures.count)) berth.now.version obj why) }
{
    berth.get(port, obj, words)
}
