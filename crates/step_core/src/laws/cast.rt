//! What holds between any two steps of casting: the invariant at the opening, each row of the table that keeps it, and
//! what it says once all are at rest.

ghost use Rattle.std.specs.Prelude.{◌≡◌, ◌≢◌, ◌↔◌, ◌++◌, ◌+◌, ◌<◌, ◌≤◌, [], ◌∷◌, ℕ, All, Contains, List, Some, length, replicate, slice_get, slice_index, slice_set, take};
ghost use Rattle.step_core.specs.CastKept.{KeepsInvariant};
ghost use Rattle.step_core.specs.CastTables.{FitsIn, MayFind};
ghost use Rattle.store_spec.specs.Act.{word_of};
ghost use Rattle.store_spec.specs.CastInvariant.{CastInvariant, EachOnce, HasRoomFor, HoldSame, accepted_of, count_of, hands_of};
ghost use Rattle.store_spec.specs.CastStep.{CastNote, CastRow, CastState, CastStep, CastView, Table, cast_act, cast_measure, claim_word, fresh_cast_view, joined_cast_view};
ghost use Rattle.store_spec.specs.CastStep.CastNote.{Claimed, Full, Placed, Quiet, Taken};
ghost use Rattle.store_spec.specs.CastStep.CastState.{Carrying, Probing, Ready, Rest};
ghost use Rattle.store_spec.specs.Layout.{IsOrdered, layout_of};
ghost use Rattle.store_spec.specs.Measure.{Falls};

/// At the opening the cells are ordered and hold the base, all claim words are free, and all tabulators are new.
pub fn opening()
    ensures { (t : Table) (base cells : List ℕ) (views : List CastView)
        → IsOrdered t.home cells → length cells ≡ t.cells → HoldSame cells base → EachOnce base
        → All (λ view. view ≡ fresh_cast_view) views
        → CastInvariant t base (cells ++ replicate t.claims 0) views }
{}

/// A claim word is won: its number comes into the hand, before its home.
pub fn claim_won()
    ensures { (t : Table) (x k : ℕ)
        → KeepsInvariant t (Probing x k) (claim_word t x k) 0 x (Carrying x (t.home x)) Claimed }
{}

/// A claim word is met that holds the number already.
pub fn claim_met()
    ensures { (t : Table) (x k : ℕ) → KeepsInvariant t (Probing x k) (claim_word t x k) x x Rest Taken }
{}

/// A claim word is passed that holds another number, and one is left.
pub fn claim_passed()
    ensures { (t : Table) (x k found : ℕ) → found ≢ 0 → found ≢ x → k + 1 < t.claims
        → KeepsInvariant t (Probing x k) (claim_word t x k) found found (Probing x (k + 1)) Quiet }
{}

/// The last claim word holds another number too.
pub fn claims_full()
    ensures { (t : Table) (x k found : ℕ) → found ≢ 0 → found ≢ x → k + 1 ≡ t.claims
        → KeepsInvariant t (Probing x k) (claim_word t x k) found found Rest Full }
{}

/// A look finds a greater number, and passes it.
pub fn look_passes()
    ensures { (t : Table) (v i found : ℕ) → v < found
        → KeepsInvariant t (Carrying v i) i found found (Carrying v (i + 1)) Quiet }
{}

/// A look finds a lower number or none, and the hand is ready to take the cell.
pub fn look_becomes_ready()
    ensures { (t : Table) (v i found : ℕ) → found < v
        → KeepsInvariant t (Carrying v i) i found found (Ready v i found) Quiet }
{}

/// An exchange puts the number into an empty cell.
pub fn takes_an_empty_cell()
    ensures { (t : Table) (v i : ℕ) → KeepsInvariant t (Ready v i 0) i 0 v Rest Placed }
{}

/// An exchange puts the number in place of a lower one, which comes into the hand, before the next cell.
pub fn displaces_a_lower_number()
    ensures { (t : Table) (v i seen : ℕ) → seen ≢ 0
        → KeepsInvariant t (Ready v i seen) i seen v (Carrying seen (i + 1)) Quiet }
{}

/// An exchange is lost to a greater number, which is passed.
pub fn lost_to_a_greater_number()
    ensures { (t : Table) (v i seen found : ℕ) → v < found
        → KeepsInvariant t (Ready v i seen) i found found (Carrying v (i + 1)) Quiet }
{}

/// An exchange is lost to a lower number, of which the hand takes the cell next.
pub fn lost_to_a_lower_number()
    ensures { (t : Table) (v i seen found : ℕ) → found < v
        → KeepsInvariant t (Ready v i seen) i found found (Ready v i found) Quiet }
{}

/// Any row of the table.
pub fn any_row()
    ensures { (t : Table) (from : CastState) (word found left : ℕ) (new : CastState)
        (note : CastNote)
        → CastRow t from word found left new note → KeepsInvariant t from word found left new note }
{}

/// Any step, the first of a number too.
pub fn any_step()
    ensures { (t : Table) (base words : List ℕ) (views : List CastView) (id : ℕ)
        (now : List ℕ) (views_now : List CastView)
        → HasRoomFor t base → CastInvariant t base words views
        → CastStep t base words views id now views_now → CastInvariant t base now views_now }
{}

/// A new tabulator comes last.
pub fn a_seat_made()
    ensures { (t : Table) (base words : List ℕ) (views : List CastView)
        → CastInvariant t base words views → CastInvariant t base words (views ++ fresh_cast_view ∷ []) }
{}

/// A tabulator at rest takes in the lists of another at rest, which is as new from then on.
pub fn a_seat_taken_in()
    ensures { (t : Table) (base words : List ℕ) (views : List CastView) (id other : ℕ)
        (view gone : CastView) → CastInvariant t base words views → id ≢ other
        → slice_get views id ≡ Some view → slice_get views other ≡ Some gone
        → view.state ≡ Rest → gone.state ≡ Rest
        → CastInvariant t base words (slice_set (slice_set views id
        (joined_cast_view view gone)) other fresh_cast_view) }
{}

/// A number stands at most once in all cells and hands, and exactly where it is of the base or accepted.
pub fn each_number_stands_once()
    ensures once { (t : Table) (base words : List ℕ) (views : List CastView) (v : ℕ)
        → CastInvariant t base words views → v ≢ 0
        → count_of v (take t.cells words ++ hands_of views) ≤ 1 }
    ensures where_it_should { (t : Table) (base words : List ℕ) (views : List CastView) (v : ℕ)
        → CastInvariant t base words views → v ≢ 0
        → Contains (take t.cells words ++ hands_of views) v
        ↔ Contains (base ++ accepted_of views) v }
    ensures accepted_once { (t : Table) (base words : List ℕ) (views : List CastView)
        → CastInvariant t base words views → EachOnce (base ++ accepted_of views) }
{}

/// The state of a tabulator fits the table: its place is a cell and a claim word is left to try. And what its step finds
/// is not the number in its hand.
pub fn a_state_fits()
    ensures fits { (t : Table) (base words : List ℕ) (views : List CastView) (id : ℕ)
        (view : CastView)
        → HasRoomFor t base → CastInvariant t base words views → slice_get views id ≡ Some view
        → FitsIn t view.state }
    ensures finds { (t : Table) (base words : List ℕ) (views : List CastView) (id : ℕ)
        (view : CastView)
        → HasRoomFor t base → CastInvariant t base words views → slice_get views id ≡ Some view
        → view.state ≢ Rest
        → MayFind view.state (slice_index words (word_of (cast_act t view.state))) }
{}

/// The measure of a tabulator falls at each of its steps.
pub fn the_measure_falls()
    ensures { (t : Table) (base words : List ℕ) (views : List CastView) (id : ℕ) (view : CastView)
        (word left : ℕ) (new : CastState) (note : CastNote)
        → HasRoomFor t base → CastInvariant t base words views → slice_get views id ≡ Some view
        → CastRow t view.state word (slice_index words word) left new note
        → Falls (cast_measure t new) (cast_measure t view.state) }
{}

/// A number that wins a claim word was met by its tabulator in no way before, and that met no full claim words.
pub fn what_is_claimed_is_new()
    ensures { (t : Table) (base words : List ℕ) (views : List CastView) (id : ℕ) (view : CastView)
        (x k : ℕ)
        → CastInvariant t base words views → slice_get views id ≡ Some view
        → view.state ≡ Probing x k → slice_index words (claim_word t x k) ≡ 0
        → (¬ Contains view.accepted x) × (¬ Contains view.taken x) × (view.full ≡ []) }
{}

/// Where the claim words were full for a number, it is not accepted, and as many are as there are claim words.
pub fn full_means_no_room()
    ensures { (t : Table) (base words : List ℕ) (views : List CastView) (id : ℕ) (view : CastView)
        (x : ℕ)
        → CastInvariant t base words views → slice_get views id ≡ Some view → Contains view.full x
        → (¬ Contains (accepted_of views) x) × (length (accepted_of views) ≡ t.claims) }
{}

/// Once all tabulators are at rest, the cells are the layout of the base and what was accepted.
pub fn at_rest_the_layout()
    ensures { (t : Table) (base words : List ℕ) (views : List CastView)
        → HasRoomFor t base → CastInvariant t base words views → All
        (λ view. view.state ≡ Rest) views
        → take t.cells words ≡ layout_of t.home t.cells (base ++ accepted_of views) }
{}
