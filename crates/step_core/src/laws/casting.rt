//! A casting phase that is made step by step, over every list of steps.

ghost use Rattle.std.specs.Prelude.{◌≡◌, ◌++◌, ◌∷◌, [], ℕ, All, List};
ghost use Rattle.step_core.specs.Casting.{Casting, HasEnded, IsDone, IsDoneAt, MayOpen, Runs, Steps, answered_in, lists_in, opened};
ghost use Rattle.step_core.specs.CastingInvariant.{FallsAt, IsCasting};

/// What holds of a phase at its opening holds after any list of steps of its tabulators.
pub fn every_list_of_steps()
    ensures { (bits salt limit : ℕ) (start : List ℕ) (lists : List (List ℕ)) (schedule : List ℕ)
        (end : Casting)
        → MayOpen bits limit start lists → Runs (opened bits salt limit start lists) schedule end
        → IsCasting end }
{}

/// Once all tabulators are at rest with their lists used up, the phase has its outcome, and the cells are the layout of
/// the set after it.
pub fn every_end()
    ensures { (phase : Casting) → IsCasting phase → All IsDone phase.tabs → HasEnded phase }
{}

/// A step keeps what holds of the phase, and the measure of its tabulator falls.
pub fn every_step()
    ensures keeps { (phase now : Casting) (id : ℕ) → IsCasting phase → Steps phase id now
        → IsCasting now }
    ensures falls { (phase now : Casting) (id : ℕ) → IsCasting phase → Steps phase id now
        → FallsAt phase id now }
{}

/// The answered numbers of a tabulator, and then those that are left, stay its list.
pub fn lists_stay()
    ensures opened { (bits salt limit : ℕ) (start : List ℕ) (lists : List (List ℕ))
        → lists_in (opened bits salt limit start lists) ≡ lists }
    ensures stepped { (phase now : Casting) (id : ℕ) → Steps phase id now
        → lists_in now ≡ lists_in phase }
    ensures run { (phase end : Casting) (schedule : List ℕ) → Runs phase schedule end
        → lists_in end ≡ lists_in phase }
    ensures answered { (phase : Casting) → All IsDone phase.tabs
        → answered_in phase ≡ lists_in phase }
{}

/// A schedule that was run goes on with one more step, or with a tabulator that has nothing left to do.
pub fn a_run_goes_on()
    ensures steps { (phase now end : Casting) (schedule : List ℕ) (id : ℕ) → Runs phase schedule now
        → Steps now id end → Runs phase (schedule ++ id ∷ []) end }
    ensures rests { (phase now : Casting) (schedule : List ℕ) (id : ℕ) → Runs phase schedule now
        → IsDoneAt now id → Runs phase (schedule ++ id ∷ []) now }
{}

/// A schedule has one run.
pub fn one_run()
    ensures { (phase : Casting) (schedule : List ℕ) (a b : Casting) → IsCasting phase
        → Runs phase schedule a → Runs phase schedule b → a ≡ b }
{}
