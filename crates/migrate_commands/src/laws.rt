//! Laws of a migration that is stopped. Each function here states a law and does nothing.

ghost use Rattle.checkpoint.specs.Unused.{IsUnusedOrHolds};
ghost use Rattle.migrate_commands.specs.Migrate.{FillsTarget, HoldsOld, migrate_row};
ghost use Rattle.run_outcome.specs.Row.{Content, NothingFailed, Tells};
ghost use Rattle.run_outcome.specs.World.{Reported, World};
ghost use Rattle.run_outcome.specs.declared.status.Status.{Status};
ghost use Rattle.run_outcome.specs.declared.status.Status.TheVariants as statuses;
ghost use Rattle.std.specs.Prelude.{◌≡◌, ◌⊎◌, ◌∷◌, [], ℕ, List, None, Some};
ghost use Rattle.store_spec.specs.Ballot.{Ballot};
ghost use Rattle.store_spec.specs.Disk.{LeavesOnly, disk_model, leaves_now};
ghost use Rattle.store_spec.specs.Election.{Election, IsElection};
ghost use Rattle.store_spec.specs.Medium.{Holds, HoldsAtMost, HoldsSet, IsUnused};

use crash_disk::Disk;
use outside_io::{Sink, Source};

/// Where each crash image of the target at the start holds nothing, a stop at any moment leaves one that holds nothing or
/// the set of the old medium. Where each is unused, a stop leaves one that is so still or holds that set.
pub fn a_stop_leaves_none_or_the_set<D: Disk>()
    ensures holds { (e : Election) (from before after : D) (medium bytes : List ℕ) (set : List Ballot)
        → IsElection e → D.seen from ≡ Some medium → HoldsOld e medium set → D.seen before ≡ Some bytes
        → ((c : List ℕ) → leaves_now D.calls D.may_leave before c → Holds e c None)
        → FillsTarget (disk_model D.seen D.calls D.may_leave D.faults) e from before after
        → LeavesOnly D.calls D.may_leave before after (HoldsAtMost e set) }
    ensures unused { (e : Election) (from before after : D) (medium bytes : List ℕ) (set : List Ballot)
        → IsElection e → D.seen from ≡ Some medium → HoldsOld e medium set → D.seen before ≡ Some bytes
        → ((c : List ℕ) → leaves_now D.calls D.may_leave before c → IsUnused e c)
        → FillsTarget (disk_model D.seen D.calls D.may_leave D.faults) e from before after
        → LeavesOnly D.calls D.may_leave before after (IsUnusedOrHolds e set) }
{}

/// On what such a stop leaves, the same command again, where no call fails, fills the target, or wants memory, or finds a
/// gate open; and then the target holds the set already, so that a session makes it canonical.
pub fn the_same_command_again<S: Source, K: Sink, D: Disk>()
    ensures { (e : Election) (status : Status) (report : Reported) (before after : World S K D) (content : Content)
        (image : List ℕ) (set : List Ballot) → IsElection e
        → Tells (disk_model D.seen D.calls D.may_leave D.faults) migrate_row.touches before content
        → HoldsOld e content.disk set → content.more ≡ image ∷ [] → IsUnusedOrHolds e set image
        → NothingFailed (disk_model D.seen D.calls D.may_leave D.faults) migrate_row.touches before after
        → migrate_row.ends (disk_model D.seen D.calls D.may_leave D.faults) e status report before after
        → (status ≡ statuses.Ok) ⊎ (status ≡ statuses.Memory)
        ⊎ ((status ≡ statuses.MediumInUse 1) × HoldsSet e image set) }
{}
