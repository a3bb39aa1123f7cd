//! Laws of the session machine. Each function here states a law and does nothing.

pub mod large;

ghost use Rattle.session_laws.specs.NewBallots.{AreNew, ballots_cast};
ghost use Rattle.session_laws.specs.SessionStates.{IsSessionState, LeavesChoice};
ghost use Rattle.std.specs.Prelude.{◌≡◌, ℕ, List, [], ◌∷◌, ◌++◌, Option, map, All, IsPermutation, codes};
ghost use Rattle.store_spec.specs.Ballot.{Ballot, IsBallotSet, IsWithinLimit};
ghost use Rattle.store_spec.specs.BallotPhase.{BallotOutcome, CastLine};
ghost use Rattle.store_spec.specs.BallotPhase.CastReply.{Accepted};
ghost use Rattle.store_spec.specs.Election.{Election};
ghost use Rattle.store_spec.specs.Session.{Answers, ClosesCasting, ClosesWithdrawing, Effect, Plays, State, begun};

/// What is replied to a line decides what it does. So scripts that are replied alike end alike.
pub fn replies_decide()
    ensures line { (e : Election) (n : ℕ) (s : State) (line : Option (List ℕ)) (a b : Effect)
        → Answers e n s line a → Answers e n s line b → a.reply ≡ b.reply → a ≡ b }
    ensures script { (e : Election) (n : ℕ) (s : State) (lines : List (Option (List ℕ)))
        (xs ys : List Effect) (x y : State) → Plays e n s lines xs x → Plays e n s lines ys y
        → map (λ effect. effect.reply) xs ≡ map (λ effect. effect.reply) ys
        → (xs ≡ ys) × (x ≡ y) }
{}

/// Only the close of a phase of casting or of withdrawing leaves a choice.
pub fn only_closes_vary()
    ensures { (e : Election) (n : ℕ) (s : State) (line : Option (List ℕ)) (a b : Effect)
        → Answers e n s line a → Answers e n s line b
        → ¬ ((line ≡ Some (codes "close")) × LeavesChoice s.phase) → a ≡ b }
{}

/// Where all wait in one list, the close leaves no choice either.
pub fn one_list_leaves_no_choice()
    ensures casting { (e : Election) (set list : List Ballot) (a b : Effect)
        → ClosesCasting e set (list ∷ []) a → ClosesCasting e set (list ∷ []) b → a ≡ b }
    ensures withdrawing { (set : List Ballot) (list : List ℕ) (a b : Effect)
        → ClosesWithdrawing set (list ∷ []) a → ClosesWithdrawing set (list ∷ []) b → a ≡ b }
{}

/// A session begins in one of its states, where its set is within the limit, and each line leads from one to another.
pub fn states_are_kept()
    ensures begins { (e : Election) (set : List Ballot)
        → IsBallotSet e set → IsWithinLimit e set → IsSessionState e (begun set) }
    ensures line { (e : Election) (n : ℕ) (s : State) (line : Option (List ℕ)) (effect : Effect)
        → IsSessionState e s → Answers e n s line effect → IsSessionState e effect.next }
    ensures script { (e : Election) (n : ℕ) (s : State) (lines : List (Option (List ℕ)))
        (effects : List Effect) (end : State)
        → IsSessionState e s → Plays e n s lines effects end → IsSessionState e end }
{}

/// Every line does something in every state that a session can be in, so every script plays.
pub fn every_line_is_answered()
    ensures line { (e : Election) (n : ℕ) (s : State) (line : Option (List ℕ))
        → IsSessionState e s → (effect : Effect) × Answers e n s line effect }
    ensures script { (e : Election) (n : ℕ) (s : State) (lines : List (Option (List ℕ)))
        → IsSessionState e s
        → (effects : List Effect) × (end : State) × Plays e n s lines effects end }
{}

/// Where all ballots that are cast are new, and there is room for them, each is accepted. So the set after the phase
/// does not depend on who cast them, nor in which order.
pub fn new_ballots_are_accepted()
    ensures all { (e : Election) (set after : List Ballot) (lists : List (List CastLine))
        → BallotOutcome e set lists after → AreNew e set (ballots_cast lists)
        → All (All (λ l. l.reply ≡ Accepted)) lists }
    ensures same_set { (e : Election) (set x y : List Ballot) (lists others : List (List CastLine))
        → BallotOutcome e set lists x → BallotOutcome e set others y
        → AreNew e set (ballots_cast lists) → IsPermutation (ballots_cast lists) (ballots_cast others)
        → x ≡ y }
{}
