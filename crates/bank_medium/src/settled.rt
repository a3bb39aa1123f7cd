//! A write to a settled disk, and the sync that settles it.

ghost use Rattle.std.specs.Prelude.{◌≡◌, ◌≤◌, ℕ, List, length, Some, option_map, is_some, OnOk, OnErr};
ghost use Rattle.std.specs.Option.{ForSome};
ghost use Rattle.crash_disk.specs.MadeCalls.{MakesCalls};
ghost use Rattle.store_spec.specs.Disk.{overwritten, IsTorn, IsSettled, LeavesOnly};
ghost use Rattle.store_spec.specs.Fault.{CountsFault};

use crash_disk::Disk;
use outside_io::Failed;

/// Writes over a range and settles it. At each moment a crash leaves what was there, but for that range.
pub(crate) fn write_settled<D: Disk>(disk: &mut D, at: u64, bytes: &[u8]) -> Result<(), Failed>
    requires settled { IsSettled D.seen D.calls D.may_leave disk.old }
    requires at { ForSome (D.seen disk.old) (λ old. at ≤ length old) }
    ensures written { OnOk result
        (D.seen disk.new ≡ option_map (overwritten at bytes.now) (D.seen disk.old)) }
    ensures settled { OnOk result (IsSettled D.seen D.calls D.may_leave disk.new) }
    ensures any_moment { (old : List ℕ) → D.seen disk.old ≡ Some old
        → LeavesOnly D.calls D.may_leave disk.old disk.new (IsTorn at (length bytes.now) old) }
    ensures calls { MakesCalls D.seen D.calls D.faults D.leads_to (CountsFault result) disk.old disk.new }
    ensures fails { OnErr result (D.fails_to disk.old disk.new) }
{
    disk.write_at(at, bytes)?;
    disk.sync()
}
