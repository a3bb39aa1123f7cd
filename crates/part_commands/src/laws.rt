//! Laws of a store in parts whose run was stopped. Each function here states a law and does nothing.

ghost use Rattle.outside_io.specs.Outside.{Input, Output};
ghost use Rattle.part_commands.specs.Part.{PartsHaveBegun};
ghost use Rattle.part_commands.specs.Standing.{BeginsOfTwo, LosesNoShare, RunsOnTwo};
ghost use Rattle.parted_store.specs.Slots.{models_of};
ghost use Rattle.partition_store.specs.Parted.{bits_of};
ghost use Rattle.run_outcome.specs.Row.{Content};
ghost use Rattle.run_outcome.specs.World.{Reported, World};
ghost use Rattle.run_outcome.specs.declared.status.Status.{Status};
ghost use Rattle.run_outcome.specs.declared.status.Status.TheVariants as statuses;
ghost use Rattle.session_run.specs.History.{HoldsOne};
ghost use Rattle.std.specs.Prelude.{◌≡◌, ◌⊎◌, ◌≤◌, Bool, ℕ, List, length, true};
ghost use Rattle.store_spec.specs.Ballot.{Ballot};
ghost use Rattle.store_spec.specs.Disk.{disk_model};
ghost use Rattle.store_spec.specs.Election.{Election, IsElection};
ghost use Rattle.store_spec.specs.Input.{script_limit};
ghost use Rattle.store_spec.specs.Parts.{share};

use crash_disk::Disk;
use outside_io::{Sink, Source};

/// Where a crash at the start could leave nothing else of some parts than their shares of the set with which a session
/// began, a stop at any moment leaves of each of them its share of the set that was acknowledged last, or of the one
/// that was being checkpointed.
pub fn no_share_is_lost<S: Source, K: Sink, D: Disk>()
    ensures { (e : Election) (status : Status) (report : Reported) (old new : Input S) (sink sunk : Output K)
        (one after : D) (more now : List D)
        (begun : PartsHaveBegun (disk_model D.seen D.calls D.may_leave D.faults) e status report old new sink sunk
        one after more now) (parts : ℕ → Bool) → ((part : ℕ) → part ≤ length more → parts part ≡ true
        → HoldsOne (models_of (disk_model D.seen D.calls D.may_leave D.faults)
        (disk_model D.seen D.calls D.may_leave D.faults) part)
        e (share (bits_of (length more)) part begun.set) (one, more))
        → LosesNoShare (disk_model D.seen D.calls D.may_leave D.faults) e begun.set report
        one after more now parts }
{}

/// A stop in a checkpoint leaves parts of the old set and parts of the new one. Media of which each holds its part's
/// share of one of two sets are opened, where no call fails, or memory is wanting: a session begins with the set of
/// which each part has the share that its medium held. It may be one that was never acknowledged.
pub fn parts_of_two_sets_open<S: Source, K: Sink, D: Disk>()
    ensures opens { (e : Election) (old other : List Ballot) (content : Content) (status : Status)
        (report : Reported) (before after : World S K D) → IsElection e
        → RunsOnTwo (disk_model D.seen D.calls D.may_leave D.faults) e old other content status report
        before after
        → BeginsOfTwo (disk_model D.seen D.calls D.may_leave D.faults) e old other content status report
        before after
        ⊎ (status ≡ statuses.Memory) }
    ensures ends { (e : Election) (old other : List Ballot) (content : Content) (status : Status)
        (report : Reported) (before after : World S K D) → IsElection e
        → RunsOnTwo (disk_model D.seen D.calls D.may_leave D.faults) e old other content status report
        before after
        → length content.script ≤ script_limit → (status ≡ statuses.Ok) ⊎ (status ≡ statuses.Memory) }
{}
