//! What is always so of the outcome of a withdrawing phase. Each function states a law and does nothing.

ghost use Rattle.phase_delete.specs.Closing.{ClosesAs, all_numbers};
ghost use Rattle.phase_delete.specs.Tray.{TrayWithdrawal};
ghost use Rattle.body_store.specs.Contents.{Contents};
ghost use Rattle.std.specs.Prelude.{◌≡◌, ◌↔◌, ℕ, Contains, List, map};
ghost use Rattle.step_core.specs.WithdrawCore.{reply_of};
ghost use Rattle.step_core.specs.declared.withdrawer.WithdrawReply.{WithdrawReply};
ghost use Rattle.store_spec.specs.Ballot.{Ballot};
ghost use Rattle.store_spec.specs.Session.{ClosesWithdrawing, Effect, closing, withdraw_text};
ghost use Rattle.store_spec.specs.WithdrawPhase.{Withdrawal, WithdrawOutcome, listed};

/// The set after the phase is the set before it without the numbers of the lists, whoever withdrew them and in whatever
/// order. So the numbers alone fix it.
pub fn the_numbers_fix_the_set()
    ensures rest { (held after : List ℕ) (lists : List (List Withdrawal))
        → WithdrawOutcome held lists after
        → (x : ℕ) → Contains after x ↔ (Contains held x × ¬ Contains (listed lists) x) }
    ensures same_set { (held x y : List ℕ) (lists others : List (List Withdrawal))
        → WithdrawOutcome held lists x → WithdrawOutcome held others y
        → ((n : ℕ) → Contains (listed lists) n ↔ Contains (listed others) n) → x ≡ y }
    ensures same_ballots { (base : Contents) (x y : List Ballot) (trays others : List (List TrayWithdrawal))
        (replies answers : List (List WithdrawReply))
        → ClosesAs base trays replies x → ClosesAs base others answers y
        → ((n : ℕ) → Contains (all_numbers trays) n ↔ Contains (all_numbers others) n) → x ≡ y }
{}

/// What a close tells is what a session asks of it, with the replies of the trays.
pub fn a_session_may_close_so()
    ensures { (base : Contents) (trays : List (List TrayWithdrawal)) (replies : List (List WithdrawReply))
        (after : List Ballot) (effect : Effect)
        → ClosesAs base trays replies after
        → effect ≡ closing (map (map (λ reply. withdraw_text (reply_of reply))) replies) after
        → ClosesWithdrawing base.ballots (map (map (λ w. w.item)) trays) effect }
{}
