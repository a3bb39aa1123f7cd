//! A disk as the store sees it: what a read gives now, and what a crash may leave at each moment.

ghost use Rattle.std.specs.Prelude.{◌≡◌, ℕ, ◌+◌, ◌≤◌, List, length, slice_range, Option, Some, option_map, is_some, IsSome, IfSome, IfOk, OnOk, OnErr};
ghost use Rattle.std.specs.Option.{ForSome};
ghost use Rattle.store_spec.specs.Fault.{last_count, CountsFault};
ghost use Rattle.store_spec.specs.Disk.{leaves_now, overwritten, SeenTorn, KeepsCrashImages, AddsNoCrashImage, KeepsThemInside, TearsAtMost, TearsExactly, IsSettled};

use outside_io::Failed;

/// Bytes that a crash may change at any moment: after so many calls, or inside the next one. A disk need not tell
/// its bytes. Then nothing is said of its bytes and crash images, and a caller learns only why a call failed.
pub trait Disk {
    /// The bytes that a read gives now, where the disk tells them.
    ghost seen: { Self → Option (List ℕ) };

    /// What a crash at a moment may leave. A disk that does not tell its bytes has none here.
    ghost may_leave: { Self → ℕ → List ℕ → Type 0 };

    /// How many calls of `size`, `read`, `write_at` and `sync` were made.
    ghost calls: { Self → ℕ };

    /// How many faults there were.
    ghost faults: { Self → ℕ };

    /// That calls lead from one state to another. What it says is for each disk to choose: whatever makes calls on a
    /// disk ensures it of the states before and after.
    ghost leads_to: { Self → Self → Type 0 };

    /// The same where the last call failed, and none before it.
    ghost fails_to: { Self → Self → Type 0 };

    /// How many bytes there are.
    fn size(&mut self) -> Result<u64, Failed>
        ensures size { IfOk result (λ size. IfSome (seen self.old) (λ bytes. size ≡ length bytes)) }
        ensures same_bytes { seen self.new ≡ seen self.old }
        ensures crash_images { KeepsCrashImages calls may_leave self.old self.new }
        ensures fault { CountsFault result (faults self.old) (faults self.new) }
        ensures leads { leads_to self.old self.new }
        ensures fails { OnErr result (fails_to self.old self.new) };

    /// Reads as many bytes as `buf` has, from `at` on. After `Failed` nothing is said of `buf`.
    fn read(&mut self, at: u64, buf: &mut [u8]) -> Result<(), Failed>
        requires { ForSome (seen self.old) (λ bytes. at + length buf.old ≤ length bytes) }
        ensures read { OnOk result (IfSome (seen self.old)
            (λ bytes. buf.new ≡ slice_range bytes at (at + length buf.old))) }
        ensures same_bytes { seen self.new ≡ seen self.old }
        ensures crash_images { KeepsCrashImages calls may_leave self.old self.new }
        ensures fault { CountsFault result (faults self.old) (faults self.new) }
        ensures leads { leads_to self.old self.new }
        ensures fails { OnErr result (fails_to self.old self.new) };

    /// Writes over what is there, and past the end. Until a sync a crash may leave any bytes in the range, and any
    /// size between the old and the new. After `Failed` a read may give such bytes too.
    fn write_at(&mut self, at: u64, bytes: &[u8]) -> Result<(), Failed>
        requires { ForSome (seen self.old) (λ old. at ≤ length old) }
        ensures written { OnOk result
            (seen self.new ≡ option_map (overwritten at bytes.now) (seen self.old)) }
        ensures torn { OnErr result
            (SeenTorn at (length bytes.now) (seen self.old) (seen self.new)) }
        ensures crash_images { TearsAtMost calls may_leave at (length bytes.now) self.old self.new }
        ensures any_bytes { OnOk result
            (TearsExactly calls may_leave at (length bytes.now) self.old self.new) }
        ensures fault { CountsFault result (faults self.old) (faults self.new) }
        ensures leads { leads_to self.old self.new }
        ensures fails { OnErr result (fails_to self.old self.new) };

    /// Once it has succeeded, a crash can leave only what a read gives. After `Failed` nothing is safe, and a read may
    /// give whatever a crash could have left.
    fn sync(&mut self) -> Result<(), Failed>
        ensures same_bytes { OnOk result (seen self.new ≡ seen self.old) }
        ensures told { is_some (seen self.new) ≡ is_some (seen self.old) }
        ensures crash_images { AddsNoCrashImage calls may_leave self.old self.new }
        ensures inside { KeepsThemInside calls may_leave self.old self.new }
        ensures settled { OnOk result (IsSettled seen calls may_leave self.new) }
        ensures unsettled { OnErr result (KeepsCrashImages calls may_leave self.old self.new) }
        ensures fault { CountsFault result (faults self.old) (faults self.new) }
        ensures leads { leads_to self.old self.new }
        ensures fails { OnErr result (fails_to self.old self.new) };

    /// How many calls of the four above were made. It stays at 2^64 - 1.
    fn calls(&self) -> u64
        ensures { result ≡ calls self.now };

    /// How many calls there were is never above the last value of a count.
    ghost counted_calls: { (disk : Self) → calls disk ≤ last_count };

    /// Nor is how many faults there were.
    ghost counted_faults: { (disk : Self) → faults disk ≤ last_count };

    /// What a read gives is one thing that a crash now can leave.
    ghost seen_is_crash_image: { (disk : Self) (bytes : List ℕ) → seen disk ≡ Some bytes
        → leaves_now calls may_leave disk bytes };

    /// A disk that does not tell its bytes has no crash images.
    ghost crash_images_told: { (disk : Self) (moment : ℕ) (image : List ℕ)
        → may_leave disk moment image
        → IsSome (seen disk) };

    /// Where no call is made, the state leads to itself.
    ghost leads_to_itself: { (disk : Self) → leads_to disk disk };

    /// Calls that follow others lead on from where those led.
    ghost leads_on: { (old mid new : Self) → leads_to old mid → leads_to mid new
        → leads_to old new };

    /// A call that failed behind calls of which none did is one that failed from where those began.
    ghost fails_on: { (old mid new : Self) → leads_to old mid → faults mid ≡ faults old
        → fails_to mid new → fails_to old new };
}
