//! The withdrawing invariant holds when a phase opens, each row of the table keeps it, and it gives the layout once all
//! are at rest.

ghost use Rattle.step_core.specs.WithdrawKept.{KeepsInvariant};
ghost use Rattle.step_core.specs.WithdrawTables.{FitsIn, MayFind};
ghost use Rattle.std.specs.Prelude.{◌≡◌, ◌≢◌, ℕ, ◌+◌, ◌<◌, ◌≤◌, ◌⊎◌, List, [], ◌∷◌, ◌++◌, All, AllPairs, Contains, Some, length, replicate, slice_get, slice_index, slice_set};
ghost use Rattle.step_core.specs.Withdrawing.{HasEnded, IsDone, IsDoneAt, Runs, Steps, Withdrawing, answered_in, lists_in, opened};
ghost use Rattle.step_core.specs.WithdrawingInvariant.{IsWithdrawing};
ghost use Rattle.store_spec.specs.Act.{word_of};
ghost use Rattle.store_spec.specs.Layout.{layout_of, numbers_in};
ghost use Rattle.store_spec.specs.Measure.{Falls};
ghost use Rattle.store_spec.specs.WithdrawInvariant.{IsBase, IsOfBase, WithdrawInvariant, begun_by, cell_words, times, times_begun};
ghost use Rattle.store_spec.specs.WithdrawPhase.{without};
ghost use Rattle.store_spec.specs.WithdrawStep.{FirstRow, Fits, StandsInBase, WithdrawNote, WithdrawRow, WithdrawState, WithdrawStep, WithdrawView, fresh_withdraw_view, withdraw_number, withdraw_act, withdraw_measure};
ghost use Rattle.store_spec.specs.WithdrawStep.WithdrawNote.{Quiet, Gone, Begun, Done};
ghost use Rattle.store_spec.specs.WithdrawStep.WithdrawState.{Rest, Chosen, Owing, Up, Down};

/// A flag that is set already: the number is gone.
pub fn found_gone()
    ensures { (home : ℕ → ℕ) (base : List ℕ) (x cell : ℕ) → StandsInBase base x cell
        → KeepsInvariant home base x Rest (length base + cell) 1 1 Rest Gone }
{}

/// A flag that is set here: the number is chosen.
pub fn chose()
    ensures { (home : ℕ → ℕ) (base : List ℕ) (x cell : ℕ) → StandsInBase base x cell
        → KeepsInvariant home base x Rest (length base + cell) 0 1 (Chosen x (home x)) Quiet }
{}

/// The walk passes a greater word.
pub fn walked_on()
    ensures { (home : ℕ → ℕ) (base : List ℕ) (x place word : ℕ) → x < word
        → KeepsInvariant home base x (Chosen x place) place word word (Chosen x (place + 1)) Quiet }
{}

/// The walk ends, and a removal is owed.
pub fn began()
    ensures { (home : ℕ → ℕ) (base : List ℕ) (x place word : ℕ) → word ≤ x
        → KeepsInvariant home base x (Chosen x place) place word word (Owing x place) Begun }
{}

/// The owed number is at its bound.
pub fn found_owed()
    ensures { (home : ℕ → ℕ) (base : List ℕ) (x bound : ℕ)
        → KeepsInvariant home base x (Owing x bound) bound x x (Up x bound (bound + 1)) Quiet }
{}

/// The owed number is lower.
pub fn looked_lower()
    ensures { (home : ℕ → ℕ) (base : List ℕ) (x bound word : ℕ) → word ≢ x
        → KeepsInvariant home base x (Owing x (bound + 1)) (bound + 1) word word (Owing x bound) Quiet }
{}

/// A word that does not fit is passed on the way up.
pub fn looked_higher()
    ensures { (home : ℕ → ℕ) (base : List ℕ) (x bound place word : ℕ) → ¬ Fits home x bound word
        → KeepsInvariant home base x (Up x bound place) place word word (Up x bound (place + 1)) Quiet }
{}

/// A word that fits ends the way up.
pub fn found_candidate()
    ensures { (home : ℕ → ℕ) (base : List ℕ) (x bound place word : ℕ) → Fits home x bound word
        → KeepsInvariant home base x (Up x bound (place + 1)) (place + 1) word word
        (Down x bound place word (place + 1)) Quiet }
{}

/// A word that fits is the candidate from here on.
pub fn found_lower_candidate()
    ensures { (home : ℕ → ℕ) (base : List ℕ) (x bound place c source word : ℕ)
        → bound ≤ place → Fits home x bound word
        → KeepsInvariant home base x (Down x bound (place + 1) c source) (place + 1) word word
        (Down x bound place word (place + 1)) Quiet }
{}

/// A word that does not fit is passed on the way down.
pub fn kept_candidate()
    ensures { (home : ℕ → ℕ) (base : List ℕ) (x bound place c source word : ℕ)
        → bound ≤ place → ¬ Fits home x bound word
        → KeepsInvariant home base x (Down x bound (place + 1) c source) (place + 1) word word
        (Down x bound place c source) Quiet }
{}

/// The hole is emptied: a copy and a debt end together.
pub fn emptied()
    ensures { (home : ℕ → ℕ) (base : List ℕ) (x bound source : ℕ)
        → KeepsInvariant home base x (Down x bound bound 0 source) bound x 0 Rest Done }
{}

/// The hole is filled with the candidate, whose other copy is owed.
pub fn refilled()
    ensures { (home : ℕ → ℕ) (base : List ℕ) (x bound c source : ℕ) → c ≢ 0
        → KeepsInvariant home base x (Down x bound bound c source) bound x c (Owing c source) Quiet }
{}

/// The number stands in the hole no more.
pub fn lost()
    ensures { (home : ℕ → ℕ) (base : List ℕ) (x bound c source word : ℕ) → word ≢ x
        → KeepsInvariant home base x (Down x (bound + 1) (bound + 1) c source) (bound + 1) word word
        (Owing x bound) Quiet }
{}

/// Whatever step a withdrawer makes, the invariant is kept.
pub fn each_step()
    ensures { (home : ℕ → ℕ) (base words : List ℕ) (views : List WithdrawView) (id : ℕ)
        (now : List ℕ) (views_now : List WithdrawView)
        → WithdrawStep home base words views id now views_now
        → WithdrawInvariant home base words views → WithdrawInvariant home base now views_now }
{}

/// The invariant holds when a phase opens: no flag is set, and the withdrawers are new.
pub fn opening()
    ensures { (home : ℕ → ℕ) (base : List ℕ) (views : List WithdrawView)
        → IsBase home base → All (λ view. view ≡ fresh_withdraw_view) views
        → WithdrawInvariant home base (base ++ replicate (length base) 0) views }
{}

/// A withdrawer more, who is new.
pub fn seat_made()
    ensures { (home : ℕ → ℕ) (base words : List ℕ) (views : List WithdrawView)
        → WithdrawInvariant home base words views
        → WithdrawInvariant home base words (views ++ fresh_withdraw_view ∷ []) }
{}

/// A withdrawer at rest hands its lists to another at rest, and is as a new one then.
pub fn seat_taken_in()
    ensures { (home : ℕ → ℕ) (base words : List ℕ) (views : List WithdrawView) (id other : ℕ)
        (view from : WithdrawView)
        → WithdrawInvariant home base words views
        → slice_get views id ≡ Some view → slice_get views other ≡ Some from → id ≢ other
        → view.state ≡ Rest → from.state ≡ Rest
        → WithdrawInvariant home base words
        (slice_set (slice_set views id
        (record { state = Rest; begun = view.begun ++ from.begun; gone = view.gone ++ from.gone }))
        other fresh_withdraw_view) }
{}

/// Once all are at rest, the cells are the layout of the base without the numbers whose removal was begun. Of these
/// none was begun twice, each is of the base, and each number that was found gone is one of them.
pub fn at_rest()
    ensures cells { (home : ℕ → ℕ) (base words : List ℕ) (views : List WithdrawView)
        → WithdrawInvariant home base words views → All (λ view. view.state ≡ Rest) views
        → cell_words base words
        ≡ layout_of home (length base) (without (numbers_in base) (begun_by views)) }
    ensures once { (home : ℕ → ℕ) (base words : List ℕ) (views : List WithdrawView) (x : ℕ)
        → WithdrawInvariant home base words views → All (λ view. view.state ≡ Rest) views
        → times (begun_by views) x ≤ 1 }
    ensures begun { (home : ℕ → ℕ) (base words : List ℕ) (views : List WithdrawView)
        → WithdrawInvariant home base words views → All (λ view. All (IsOfBase base) view.begun) views }
    ensures gone { (home : ℕ → ℕ) (base words : List ℕ) (views : List WithdrawView)
        → WithdrawInvariant home base words views → All (λ view. view.state ≡ Rest) views
        → All (λ view. All (Contains (begun_by views)) view.gone) views }
{}

/// A withdrawer that is not at rest meets what the tables ask of its state and of the word that it finds, and each row
/// leaves it less to do.
pub fn a_step_may_be_made()
    ensures fits { (home : ℕ → ℕ) (base words : List ℕ) (views : List WithdrawView) (id : ℕ)
        (view : WithdrawView)
        → WithdrawInvariant home base words views → slice_get views id ≡ Some view
        → FitsIn (length base) view.state }
    ensures may_find { (home : ℕ → ℕ) (base words : List ℕ) (views : List WithdrawView) (id : ℕ)
        (view : WithdrawView)
        → WithdrawInvariant home base words views → slice_get views id ≡ Some view
        → view.state ≢ Rest
        → MayFind view.state (slice_index words (word_of (withdraw_act view.state))) }
    ensures falls { (home : ℕ → ℕ) (base words : List ℕ) (views : List WithdrawView) (id : ℕ)
        (view : WithdrawView) (word found left : ℕ) (new : WithdrawState) (note : WithdrawNote)
        → WithdrawInvariant home base words views → slice_get views id ≡ Some view
        → WithdrawRow home view.state word found left new note
        → Falls (withdraw_measure (length base) new) (withdraw_measure (length base) view.state) }
{}

/// A flag is 0 or 1, and it is 1 for a number that the withdrawer has begun to remove or found gone before.
pub fn a_flag()
    ensures zero_or_one { (home : ℕ → ℕ) (base words : List ℕ) (views : List WithdrawView)
        (cell : ℕ)
        → WithdrawInvariant home base words views → slice_index words (length base + cell) ≤ 1 }
    ensures found_again { (home : ℕ → ℕ) (base words : List ℕ) (views : List WithdrawView) (id : ℕ)
        (view : WithdrawView) (x cell : ℕ)
        → WithdrawInvariant home base words views → slice_get views id ≡ Some view
        → StandsInBase base x cell → Contains view.begun x ⊎ Contains view.gone x
        → slice_index words (length base + cell) ≡ 1 }
{}

/// What a step finds decides the rest of its row.
pub fn one_row()
    ensures first { (home : ℕ → ℕ) (x found : ℕ) (a b : WithdrawState) (m n : WithdrawNote)
        → FirstRow home x found a m → FirstRow home x found b n → (a ≡ b) × (m ≡ n) }
    ensures later { (home : ℕ → ℕ) (from : WithdrawState) (v w found l k : ℕ)
        (a b : WithdrawState) (m n : WithdrawNote)
        → WithdrawRow home from v found l a m → WithdrawRow home from w found k b n
        → (v ≡ w) × (l ≡ k) × (a ≡ b) × (m ≡ n) }
{}

/// Over every schedule what holds of a phase at its opening holds on, a schedule has one run, and a phase whose
/// withdrawers are all done has ended with its outcome.
pub fn every_schedule()
    ensures opens { (bits salt limit : ℕ) (start : List ℕ) (lists : List (List ℕ))
        → bits ≤ 16 → length start ≤ limit → All (λ x. x ≢ 0) start → AllPairs (λ a b. a ≢ b) start
        → IsWithdrawing (opened bits salt limit start lists) }
    ensures keeps { (w : Withdrawing) (ids : List ℕ) (end : Withdrawing)
        → Runs w ids end → IsWithdrawing w → IsWithdrawing end }
    ensures one_run { (w : Withdrawing) (ids : List ℕ) (a b : Withdrawing)
        → IsWithdrawing w → Runs w ids a → Runs w ids b → a ≡ b }
    ensures ends { (w : Withdrawing) → IsWithdrawing w → All IsDone w.tabs → HasEnded w }
{}

/// The answered numbers of a withdrawer, and then those that are left, stay its list.
pub fn lists_stay()
    ensures opened { (bits salt limit : ℕ) (start : List ℕ) (lists : List (List ℕ))
        → lists_in (opened bits salt limit start lists) ≡ lists }
    ensures stepped { (w now : Withdrawing) (id : ℕ) → IsWithdrawing w → Steps w id now
        → lists_in now ≡ lists_in w }
    ensures run { (w end : Withdrawing) (ids : List ℕ) → IsWithdrawing w → Runs w ids end
        → lists_in end ≡ lists_in w }
    ensures answered { (w : Withdrawing) → All IsDone w.tabs → answered_in w ≡ lists_in w }
{}

/// A schedule that was run goes on with one more step, or with a withdrawer that has nothing left to do.
pub fn a_run_goes_on()
    ensures steps { (w now end : Withdrawing) (ids : List ℕ) (id : ℕ) → Runs w ids now
        → Steps now id end → Runs w (ids ++ id ∷ []) end }
    ensures rests { (w now : Withdrawing) (ids : List ℕ) (id : ℕ) → Runs w ids now
        → IsDoneAt now id → Runs w (ids ++ id ∷ []) now }
{}
