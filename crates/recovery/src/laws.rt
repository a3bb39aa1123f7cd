//! Laws of what recovery promises. Each function here states a law and does nothing.

ghost use Rattle.std.specs.Prelude.{◌≡◌, ℕ, Bool, IsTrue, List, Some, None};
ghost use Rattle.recovery.specs.Refused.{IsRefusedMedium};
ghost use Rattle.recovery.specs.declared.fault.RecoverFault.{RecoverFault};
ghost use Rattle.recovery.specs.declared.fault.RecoverFault.TheVariants.{DiskFault, Memory};
ghost use Rattle.std.specs.Prelude.{◌≢◌};
ghost use Rattle.store_spec.specs.Ballot.{Ballot};
ghost use Rattle.store_spec.specs.Disk.{leaves_now, LeavesOnly, SyncsFirst};
ghost use Rattle.store_spec.specs.Election.{Election, IsElection};
ghost use Rattle.store_spec.specs.Medium.{Holds, HoldsSet, HoldsTheSame};

use crash_disk::Disk;

/// What each crash image of the start has, and each one that holds what the bytes read hold, each image of each moment
/// of a recovery has.
pub fn every_property<D: Disk>()
    ensures { (e : Election) (old new : D) (bytes : List ℕ) (p : List ℕ → Bool)
        → ((c : List ℕ) → leaves_now D.calls D.may_leave old c → IsTrue (p c))
        → ((c : List ℕ) → HoldsTheSame e bytes c → IsTrue (p c))
        → SyncsFirst D.calls D.may_leave old new (HoldsTheSame e bytes)
        → LeavesOnly D.calls D.may_leave old new (λ c. IsTrue (p c)) }
{}

/// Where all crash images of the start hold one set, all images of all moments of a recovery hold it.
pub fn one_held_set<D: Disk>()
    ensures { (e : Election) (old new : D) (bytes : List ℕ) (set : List Ballot)
        → D.seen old ≡ Some bytes
        → ((c : List ℕ) → leaves_now D.calls D.may_leave old c → HoldsSet e c set)
        → SyncsFirst D.calls D.may_leave old new (HoldsTheSame e bytes)
        → LeavesOnly D.calls D.may_leave old new (λ c. HoldsSet e c set) }
{}

/// But for faults of the disk and want of memory, bytes are refused for one reason, and then they hold nothing.
pub fn one_refusal()
    ensures one { (e : Election) (bytes : List ℕ) (a b : RecoverFault)
        → a ≢ DiskFault → a ≢ Memory → b ≢ DiskFault → b ≢ Memory
        → IsRefusedMedium e bytes a → IsRefusedMedium e bytes b → a ≡ b }
    ensures held { (e : Election) (bytes : List ℕ) (fault : RecoverFault) → IsElection e
        → fault ≢ DiskFault → fault ≢ Memory → IsRefusedMedium e bytes fault
        → Holds e bytes None }
{}
