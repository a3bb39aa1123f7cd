//! Laws of what an audit tells. Each function here states a law and does nothing.

ghost use Rattle.std.specs.Prelude.{◌≡◌, ◌≢◌, ℕ, List, MatchResult, Result, Err};
ghost use Rattle.audit_medium.specs.Audited.{IsAudited};
ghost use Rattle.audit_medium.specs.declared.finding.Audit.{Audit};
ghost use Rattle.audit_medium.specs.declared.finding.Audit.TheVariants.{Canonical, Differs};
ghost use Rattle.recovery.specs.Refused.{IsRefusedMedium};
ghost use Rattle.recovery.specs.declared.fault.RecoverFault.{RecoverFault};
ghost use Rattle.recovery.specs.declared.fault.RecoverFault.TheVariants.{DiskFault, Memory};
ghost use Rattle.store_spec.specs.Ballot.{Ballot};
ghost use Rattle.store_spec.specs.Election.{Election, IsElection};
ghost use Rattle.store_spec.specs.Medium.{HoldsSet, IsMediumOf};

/// But for faults of the disk and want of memory, the bytes decide the answer.
pub fn one_audit()
    ensures { (e : Election) (bytes : List ℕ) (a b : Result Audit RecoverFault) → IsElection e
        → a ≢ Err DiskFault → a ≢ Err Memory → b ≢ Err DiskFault → b ≢ Err Memory
        → MatchResult a (IsAudited e bytes) (IsRefusedMedium e bytes)
        → MatchResult b (IsAudited e bytes) (IsRefusedMedium e bytes) → a ≡ b }
{}

/// Bytes that hold a set are told canonical where they are the medium of that set, and to differ where they are not.
pub fn held_set()
    ensures canonical { (e : Election) (bytes : List ℕ) (set : List Ballot) (held : ℕ)
        → IsElection e → HoldsSet e bytes set → IsAudited e bytes (Canonical held)
        → IsMediumOf e bytes set }
    ensures differs { (e : Election) (bytes : List ℕ) (set : List Ballot) (place : ℕ)
        → IsElection e → HoldsSet e bytes set → IsAudited e bytes (Differs place)
        → ¬ IsMediumOf e bytes set }
{}
