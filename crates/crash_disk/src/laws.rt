//! Laws of every disk, of torn ranges, and of the disks in memory.

ghost use Rattle.std.specs.Prelude.{◌≡◌, ℕ, Bool, IsTrue, ◌+◌, ◌<◌, ◌≤◌, max, List, [], ◌∷◌, ◌++◌, length, slice_index, slice_range, Some, None};
ghost use Rattle.store_spec.specs.Disk.{leaves_now, overwritten, IsTorn, IsSettled, AddsNoCrashImage, TearsAtMost, LeavesOnly, LeavesOnlyOnceSynced, SyncsFirst};
ghost use Rattle.crash_disk.specs.Figures.{HasThreeCrashImages, HasOneCrashImage};

use crate::disk::Disk;

/// A crash leaves of a settled disk what a read gives, and nothing else.
pub fn only_crash_image<D: Disk>()
    ensures only { (disk : D) (bytes c : List ℕ) → IsSettled D.seen D.calls D.may_leave disk
        → D.seen disk ≡ Some bytes → leaves_now D.calls D.may_leave disk c → c ≡ bytes }
    ensures image { (disk : D) (bytes : List ℕ) → IsSettled D.seen D.calls D.may_leave disk
        → D.seen disk ≡ Some bytes → leaves_now D.calls D.may_leave disk bytes }
{}

/// A disk that does not tell its bytes owes nothing: it is settled.
pub fn untold_is_settled<D: Disk>()
    ensures { (disk : D) → D.seen disk ≡ None → IsSettled D.seen D.calls D.may_leave disk }
{}

/// Two writes to a settled disk and a sync, whatever each of them answers: at each moment from the first call to the
/// last, a crash leaves the bytes of before, but for a range that covers both writes.
pub fn two_writes_and_a_sync<D: Disk>()
    ensures { (settled one two synced : D) (bytes : List ℕ) (at n from k then j : ℕ)
        → IsSettled D.seen D.calls D.may_leave settled → D.seen settled ≡ Some bytes
        → at ≤ from → from + k ≤ at + n → at ≤ then → then + j ≤ at + n
        → TearsAtMost D.calls D.may_leave from k settled one
        → TearsAtMost D.calls D.may_leave then j one two
        → AddsNoCrashImage D.calls D.may_leave two synced
        → LeavesOnly D.calls D.may_leave settled synced (IsTorn at n bytes) }
{}

/// A sync that succeeds and a run behind it: up to the sync's return a crash leaves what it might have left before.
pub fn synced_first<D: Disk>()
    ensures { (old synced new : D) (p : List ℕ → Bool)
        → AddsNoCrashImage D.calls D.may_leave old synced
        → LeavesOnly D.calls D.may_leave synced new (λ c. IsTrue (p c))
        → LeavesOnlyOnceSynced D.calls D.may_leave old new (λ c. IsTrue (p c)) }
{}

/// What holds of each crash image of the start, and of each one from the first sync on, holds at each moment, whether
/// that sync succeeds or fails.
pub fn syncs_first<D: Disk>()
    ensures { (old new : D) (p q : List ℕ → Bool)
        → ((c : List ℕ) → leaves_now D.calls D.may_leave old c → IsTrue (p c))
        → ((c : List ℕ) → IsTrue (q c) → IsTrue (p c))
        → SyncsFirst D.calls D.may_leave old new (λ c. IsTrue (q c))
        → LeavesOnly D.calls D.may_leave old new (λ c. IsTrue (p c)) }
{}

/// What a write that succeeds leaves for a read: its bytes in its range, and a size that covers it. It is one of the
/// ways in which the range may be torn.
pub fn written_range()
    ensures read_back { (at : ℕ) (bytes old : List ℕ) → at ≤ length old
        → slice_range (overwritten at bytes old) at (at + length bytes) ≡ bytes }
    ensures size { (at : ℕ) (bytes old : List ℕ) → at ≤ length old
        → length (overwritten at bytes old) ≡ max (length old) (at + length bytes) }
    ensures torn { (at : ℕ) (bytes old : List ℕ) → at ≤ length old
        → IsTorn at (length bytes) old (overwritten at bytes old) }
{}

/// A byte that was written is read back. Two writes, one behind the other, are one, and a write of what stands there
/// already, or of nothing, changes nothing.
pub fn written_again()
    ensures byte { (at x : ℕ) (old : List ℕ) → at ≤ length old
        → slice_index (overwritten at (x ∷ []) old) at ≡ x }
    ensures next { (at k : ℕ) (xs ys old : List ℕ) → at ≤ length old → length xs ≡ k
        → overwritten (at + k) ys (overwritten at xs old) ≡ overwritten at (xs ++ ys) old }
    ensures same { (at n : ℕ) (bytes old : List ℕ) → length bytes ≡ n
        → bytes ≡ slice_range old at (at + n) → overwritten at bytes old ≡ old }
    ensures nothing { (at : ℕ) (old : List ℕ) → overwritten at [] old ≡ old }
{}

/// A torn range leaves the bytes outside. It leaves the size, where it lies within the size.
pub fn torn_range()
    ensures before { (at n i j : ℕ) (old new : List ℕ) → j ≤ at → IsTorn at n old new
        → slice_range new i j ≡ slice_range old i j }
    ensures behind { (at n i j : ℕ) (old new : List ℕ) → at + n ≤ i → IsTorn at n old new
        → slice_range new i j ≡ slice_range old i j }
    ensures byte_before { (at n i : ℕ) (old new : List ℕ) → i < at → IsTorn at n old new
        → slice_index new i ≡ slice_index old i }
    ensures byte_behind { (at n i : ℕ) (old new : List ℕ) → at + n ≤ i → IsTorn at n old new
        → slice_index new i ≡ slice_index old i }
    ensures size { (at n : ℕ) (old new : List ℕ) → at + n ≤ length old → IsTorn at n old new
        → length new ≡ length old }
{}

/// Where a range is torn, and then a part of it again, the whole range is torn. Two ranges are parts of one that
/// covers both, and nothing torn is torn too.
pub fn torn_again()
    ensures part { (at n from k : ℕ) (first mid last : List ℕ) → at ≤ from → from + k ≤ at + n
        → IsTorn at n first mid → IsTorn from k mid last → IsTorn at n first last }
    ensures same { (at n : ℕ) (bytes : List ℕ) → IsTorn at n bytes bytes }
{}

/// The model is not empty. A disk in memory that held one byte and was told to write another may have, after a
/// crash, the old byte, the new one, or a third. After the sync it has the new one.
pub fn three_crash_images_and_one()
    ensures before { HasThreeCrashImages }
    ensures after { HasOneCrashImage }
{}
