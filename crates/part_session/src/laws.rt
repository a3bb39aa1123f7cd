//! What is always so of the closes of a store in parts. Each function states a law and does nothing.

ghost use Rattle.part_session.specs.Runs.{AnsweredPhase, AreAlikeAt, AreClosed, IsClosed, MayHoldParts, answered_at, asked, reply_words, waiting_at};
ghost use Rattle.part_session.specs.Scripts.{AreAlikeScripts, AreClosedBy, PlaysAlikeAt, closes_in};
ghost use Rattle.partition_store.specs.Parted.{AreBits, IsParted, Parted, joined};
ghost use Rattle.phase_gate.specs.Replies.{ClosesBy};
ghost use Rattle.phase_gate.specs.Standing.{MayWait};
ghost use Rattle.std.specs.Prelude.{◌≡◌, ◌^◌, ◌<◌, ℕ, All, List, Option, map};
ghost use Rattle.store_spec.specs.Ballot.{Ballot};
ghost use Rattle.store_spec.specs.Election.{Election};
ghost use Rattle.store_spec.specs.Parts.{of_parts, share};
ghost use Rattle.store_spec.specs.Session.{Effect, Phase, PlaysBy, State, begun, closing};
ghost use Rattle.store_spec.specs.Session.Phase.{Closed};

/// What a close does is to tell a reply to each item that waited; it tells which, and the set after it.
pub fn a_close_answers()
    ensures some { (e : Election) (bits : ℕ) (set : List Ballot) (phase : Phase) (effect : Effect)
        → ClosesBy (of_parts bits e) set phase effect
        → (one : AnsweredPhase) × (after : List Ballot) × (asked one ≡ phase)
        × (effect ≡ closing (reply_words one) after) }
    ensures one { (one other : AnsweredPhase) (after left : List Ballot) → asked one ≡ asked other
        → closing (reply_words one) after ≡ closing (reply_words other) left → (one ≡ other) × (after ≡ left) }
{}

/// The set of each store in parts may be held.
pub fn stores_may_hold()
    ensures { (store : Parted) → IsParted store
        → MayHoldParts store.bits store.election (joined store.sets) }
{}

/// What is replied to the items of a part, and what is left of it, hangs on that part alone: a phase that begins with the
/// same share of the part, and with the same items of it in each list, may have the same replies to these items, and
/// then leaves the same share. So may phases one after another.
pub fn each_part_by_itself()
    ensures close { (e : Election) (bits part : ℕ) (set other after : List Ballot) (one : AnsweredPhase)
        (phase : Phase)
        → AreBits bits → part < 2 ^ bits → MayHoldParts bits e other → MayWait e phase
        → share bits part other ≡ share bits part set
        → waiting_at bits part phase ≡ waiting_at bits part (asked one)
        → IsClosed (of_parts bits e) set one after
        → (too : AnsweredPhase) × (left : List Ballot) × IsClosed (of_parts bits e) other too left
        × (asked too ≡ phase) × (answered_at bits part too ≡ answered_at bits part one)
        × (share bits part left ≡ share bits part after) }
    ensures run { (e : Election) (bits part : ℕ) (set other end : List Ballot) (run : List AnsweredPhase)
        (phases : List Phase)
        → AreBits bits → part < 2 ^ bits → MayHoldParts bits e other → All (MayWait e) phases
        → share bits part other ≡ share bits part set → AreAlikeAt bits part phases (map asked run)
        → AreClosed (of_parts bits e) set run end
        → (too : List AnsweredPhase) × (left : List Ballot) × AreClosed (of_parts bits e) other too left
        × (map asked too ≡ phases)
        × (map (answered_at bits part) too ≡ map (answered_at bits part) run)
        × (share bits part left ≡ share bits part end) }
{}

/// Lines that a session over a store in parts handles close phases one after another, with a reply to each item that
/// waited, as the closes of a store in parts ask.
pub fn lines_close_phases()
    ensures some { (e : Election) (bits n : ℕ) (s end : State) (lines : List (Option (List ℕ)))
        (effects : List Effect)
        → PlaysBy (of_parts bits e) e n s lines effects end
        → (run : List AnsweredPhase)
        × AreClosedBy (of_parts bits e) s.set run (closes_in s.phase effects) end.set }
    ensures closed { (e : Election) (bits : ℕ) (set end : List Ballot) (run : List AnsweredPhase)
        (others : List (Phase × Effect))
        → AreClosedBy (of_parts bits e) set run others end → AreClosed (of_parts bits e) set run end }
{}

/// What the lines of a script come to in a part hangs on the lines of that part alone, and on those that open and close
/// phases: a script that has the same of these, from a set with the same share of the part, may have the same words for
/// its items, and then leaves the same share. The numbers of other replies may differ: they count over all parts.
pub fn each_part_by_its_lines()
    ensures { (e : Election) (bits part : ℕ) (set other : List Ballot)
        (lines others : List (Option (List ℕ))) (effects : List Effect) (end : State)
        (run : List AnsweredPhase)
        → AreBits bits → part < 2 ^ bits → MayHoldParts bits e other
        → share bits part other ≡ share bits part set → AreAlikeScripts e bits part lines others
        → PlaysBy (of_parts bits e) e 1 (begun set) lines effects end
        → AreClosedBy (of_parts bits e) set run (closes_in Closed effects) end.set
        → PlaysAlikeAt e bits part (begun other) others run end }
{}
