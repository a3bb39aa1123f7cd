//! Laws of stores in parts. Each function here states a law and does nothing.

ghost use Rattle.std.specs.Prelude.{◌≡◌, ◌↔◌, ℕ, ◌^◌, ◌<◌, ◌≤◌, All, IsTrue, List, Bool, [], get_or, Result, Some};
ghost use Rattle.std.specs.List.{AllZip};
ghost use Rattle.partition_store.specs.Opening.{HoldsThroughout, LooksThenRecovers};
ghost use Rattle.partition_store.specs.declared.fault.PartFault.{PartFault};
ghost use Rattle.partition_store.specs.Parted.{AreBits, AreParts, Parted, joined, shares};
ghost use Rattle.recovery.specs.Refused.{HoldsSetOf};
ghost use Rattle.store_spec.specs.Ballot.{Ballot, IsBallotSet, IsValid};
ghost use Rattle.store_spec.specs.Disk.{disk_model, leaves_now, LeavesOnly};
ghost use Rattle.store_spec.specs.Election.{Election, IsElection};
ghost use Rattle.store_spec.specs.Medium.{HoldsSet};
ghost use Rattle.store_spec.specs.Parts.{of_parts, part_of, share};
ghost use Rattle.store_spec.specs.Session.{Effect, of_one_store};

use crash_disk::Disk;

/// Each number belongs to one of the parts, and greater numbers to none before.
pub fn every_part()
    ensures part { (bits number : ℕ) → AreBits bits → number < 2 ^ 64
        → part_of bits number < 2 ^ bits }
    ensures rises { (bits x y : ℕ) → AreBits bits → x ≤ y → part_of bits x ≤ part_of bits y }
{}

/// The shares of a set, in the order of the parts, are the set.
pub fn every_share()
    ensures { (e : Election) (bits : ℕ) (set : List Ballot) → AreBits bits → IsBallotSet e set
        → joined (shares bits set) ≡ set }
{}

/// The sets of the parts of a store, in order, are a set, of which each is the share of its part.
pub fn sets_of_parts()
    ensures set { (e : Election) (bits : ℕ) (sets : List (List Ballot)) → AreBits bits
        → AreParts bits sets → All (IsBallotSet e) sets → IsBallotSet e (joined sets) }
    ensures shares { (bits part : ℕ) (sets : List (List Ballot)) → AreParts bits sets
        → share bits part (joined sets) ≡ get_or sets part [] }
{}

/// Of a store in one part a close asks what it asks of a closed store.
pub fn one_part()
    ensures casting { (e : Election) (set : List Ballot) (lists : List (List Ballot)) (effect : Effect)
        → IsBallotSet e set → All (All (IsValid e)) lists
        → (of_parts 0 e).casting set lists effect ↔ (of_one_store e).casting set lists effect }
    ensures withdrawing { (e : Election) (set : List Ballot) (lists : List (List ℕ)) (effect : Effect)
        → IsBallotSet e set → All (All (λ number. number < 2 ^ 64)) lists
        → (of_parts 0 e).withdrawing set lists effect
        ↔ (of_one_store e).withdrawing set lists effect }
{}

/// What each crash image of the start has, and each one that holds the set that was read, each image of each moment of
/// an opening has.
pub fn every_property<D: Disk>()
    ensures { (e : Election) (old new : D) (bytes : List ℕ) (p : List ℕ → Bool)
        → D.seen old ≡ Some bytes
        → ((c : List ℕ) → leaves_now D.calls D.may_leave old c → IsTrue (p c))
        → ((c : List ℕ) → HoldsSetOf e bytes c → IsTrue (p c))
        → HoldsThroughout (disk_model D.seen D.calls D.may_leave D.faults) e old new
        → LeavesOnly D.calls D.may_leave old new (λ c. IsTrue (p c)) }
{}

/// Where all crash images of the start hold one set, all images of all moments of an opening hold it.
pub fn one_held_set<D: Disk>()
    ensures { (e : Election) (old new : D) (bytes : List ℕ) (set : List Ballot) → IsElection e
        → D.seen old ≡ Some bytes
        → ((c : List ℕ) → leaves_now D.calls D.may_leave old c → HoldsSet e c set)
        → HoldsThroughout (disk_model D.seen D.calls D.may_leave D.faults) e old new
        → LeavesOnly D.calls D.may_leave old new (λ c. HoldsSet e c set) }
{}

/// Where the media were looked at and then recovered, each crash image of each moment of each disk is one of the start,
/// or holds the set that was read.
pub fn looked_then_recovered<A: Disk, B: Disk>()
    ensures first { (e : Election) (answer : Result Parted PartFault) (one after : A) (more now : List B)
        → LooksThenRecovers (disk_model A.seen A.calls A.may_leave A.faults)
        (disk_model B.seen B.calls B.may_leave B.faults) e answer one after more now
        → HoldsThroughout (disk_model A.seen A.calls A.may_leave A.faults) e one after }
    ensures further { (e : Election) (answer : Result Parted PartFault) (one after : A) (more now : List B)
        → LooksThenRecovers (disk_model A.seen A.calls A.may_leave A.faults)
        (disk_model B.seen B.calls B.may_leave B.faults) e answer one after more now
        → AllZip (HoldsThroughout (disk_model B.seen B.calls B.may_leave B.faults) e) more now }
{}
