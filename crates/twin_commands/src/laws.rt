//! Laws of two disks of which one is lost. Each function here states a law and does nothing.

ghost use Rattle.any_store.specs.Checkpointed.{IsMediumNow};
ghost use Rattle.run_outcome.specs.World.{Reported, World};
ghost use Rattle.run_outcome.specs.declared.status.Status.{Status};
ghost use Rattle.run_outcome.specs.declared.status.Status.TheVariants as statuses;
ghost use Rattle.session_run.specs.History.{LosesNothing};
ghost use Rattle.std.specs.Prelude.{◌≡◌, ◌⊎◌, ◌<◌, ◌≤◌, ℕ, List, IsSome, Some};
ghost use Rattle.store_spec.specs.Ballot.{Ballot};
ghost use Rattle.store_spec.specs.Disk.{LeavesOnly, after_calls, disk_model, leaves_now};
ghost use Rattle.store_spec.specs.Election.{Election, IsElection};
ghost use Rattle.store_spec.specs.Fault.{last_count};
ghost use Rattle.store_spec.specs.Medium.{HoldsSet, IsUnused};
ghost use Rattle.twin_commands.specs.Standing.{BringsBack, HoldsOwnOr, IsLostOr, RunsOnOne, StandsAt};
ghost use Rattle.twin_commands.specs.Twin.{LeavesPair};

use crash_disk::Disk;
use outside_io::{Sink, Source};

/// Until two disks are a pair, a stop at any moment leaves of each one what it held, where a crash at the start could leave
/// nothing else, or the set of the pair. One that was lost is so still, or holds that set.
pub fn a_stop_before_the_pair<D: Disk>()
    ensures first_holds { (e : Election) (one one_after two two_after : D) (a b : List ℕ) (own : List Ballot)
        → IsElection e → D.seen one ≡ Some a → D.seen two ≡ Some b → HoldsSet e a own
        → ((c : List ℕ) → leaves_now D.calls D.may_leave one c → HoldsSet e c own)
        → LeavesPair (disk_model D.seen D.calls D.may_leave D.faults) e one one_after two two_after
        → LeavesOnly D.calls D.may_leave one one_after (HoldsOwnOr e a b own) }
    ensures first_lost { (e : Election) (one one_after two two_after : D) (a b : List ℕ)
        → IsElection e → D.seen one ≡ Some a → D.seen two ≡ Some b → IsUnused e a
        → ((c : List ℕ) → leaves_now D.calls D.may_leave one c → IsUnused e c)
        → LeavesPair (disk_model D.seen D.calls D.may_leave D.faults) e one one_after two two_after
        → LeavesOnly D.calls D.may_leave one one_after (IsLostOr e a b) }
    ensures second_holds { (e : Election) (one one_after two two_after : D) (a b : List ℕ) (own : List Ballot)
        → IsElection e → D.seen one ≡ Some a → D.seen two ≡ Some b → HoldsSet e b own
        → ((c : List ℕ) → leaves_now D.calls D.may_leave two c → HoldsSet e c own)
        → LeavesPair (disk_model D.seen D.calls D.may_leave D.faults) e one one_after two two_after
        → LeavesOnly D.calls D.may_leave two two_after (HoldsOwnOr e a b own) }
    ensures second_lost { (e : Election) (one one_after two two_after : D) (a b : List ℕ)
        → IsElection e → D.seen one ≡ Some a → D.seen two ≡ Some b → IsUnused e b
        → ((c : List ℕ) → leaves_now D.calls D.may_leave two c → IsUnused e c)
        → LeavesPair (disk_model D.seen D.calls D.may_leave D.faults) e one one_after two two_after
        → LeavesOnly D.calls D.may_leave two two_after (IsLostOr e a b) }
{}

/// Once two disks are a pair, a stop at any moment leaves on each one a set that stands then: the one that was acknowledged
/// last, or the one that was being checkpointed.
pub fn a_stop_leaves_a_set_that_stands<D: Disk>()
    ensures { (e : Election) (ready after : D) (set : List Ballot) (marks : List ℕ)
        (acknowledged tried : List (List Ballot)) → IsElection e → IsSome (D.seen ready)
        → IsMediumNow (disk_model D.seen D.calls D.may_leave D.faults) e set ready
        → LosesNothing (disk_model D.seen D.calls D.may_leave D.faults) e set ready after marks acknowledged tried
        → D.calls after < last_count
        → (m : ℕ) → after_calls (D.calls ready) ≤ m → m ≤ after_calls (D.calls after)
        → (image : List ℕ) → D.may_leave after m image
        → (one : List Ballot) × StandsAt m set marks acknowledged tried one × HoldsSet e image one }
{}

/// Either disk is enough: beside a lost disk, whichever of the two that is, one that holds a set brings it back on both,
/// where no call fails, or memory is wanting.
pub fn either_disk_is_enough<S: Source, K: Sink, D: Disk>()
    ensures { (e : Election) (image : List ℕ) (set : List Ballot) (status : Status) (report : Reported)
        (before after : World S K D) → IsElection e → HoldsSet e image set
        → RunsOnOne (disk_model D.seen D.calls D.may_leave D.faults) e image status report before after
        → BringsBack (disk_model D.seen D.calls D.may_leave D.faults) e set status report before after
        ⊎ (status ≡ statuses.Memory) }
{}

/// So whichever disk is lost, at whatever moment from the pairing on, the other one brings back, on both, the set that was
/// acknowledged last or the one that was being checkpointed.
pub fn whichever_disk_is_lost<S: Source, K: Sink, D: Disk>()
    ensures { (e : Election) (ready after : D) (set : List Ballot) (marks : List ℕ)
        (acknowledged tried : List (List Ballot)) → IsElection e → IsSome (D.seen ready)
        → IsMediumNow (disk_model D.seen D.calls D.may_leave D.faults) e set ready
        → LosesNothing (disk_model D.seen D.calls D.may_leave D.faults) e set ready after marks acknowledged tried
        → D.calls after < last_count
        → (m : ℕ) → after_calls (D.calls ready) ≤ m → m ≤ after_calls (D.calls after)
        → (image : List ℕ) → D.may_leave after m image
        → (status : Status) (report : Reported) (start end : World S K D)
        → RunsOnOne (disk_model D.seen D.calls D.may_leave D.faults) e image status report start end
        → ((one : List Ballot) × StandsAt m set marks acknowledged tried one
        × BringsBack (disk_model D.seen D.calls D.may_leave D.faults) e one status report start end)
        ⊎ (status ≡ statuses.Memory) }
{}
