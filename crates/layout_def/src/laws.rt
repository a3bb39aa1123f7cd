//! What a layout is like, and that nothing else is like it. Each function here states a law and does nothing.

ghost use Rattle.std.specs.Prelude.{◌≡◌, ◌≢◌, ◌++◌, ℕ, ◌+◌, ◌<◌, ◌≤◌, List, ◌∷◌, All, AllPairs, Contains, IsPermutation, length, set, slice_index, take};
ghost use Rattle.store_spec.specs.Layout.{HasRoom, HoldsExactly, IsLayout, IsOrdered, MayStand, layout_of, numbers_in, placed};

/// The layout does not depend on the order in which its numbers are listed.
pub fn any_listing()
    ensures { (home : ℕ → ℕ) (count : ℕ) (xs ys : List ℕ) → IsPermutation xs ys
        → layout_of home count xs ≡ layout_of home count ys }
{}

/// Whichever way they came about, ordered cells with the numbers of a set, and no others, are its layout.
pub fn ordered_cells_are_the_layout()
    ensures { (home : ℕ → ℕ) (homes count : ℕ) (numbers cells : List ℕ)
        → HasRoom home homes count numbers
        → length cells ≡ count → IsOrdered home cells → HoldsExactly cells numbers
        → cells ≡ layout_of home count numbers }
{}

/// Ordered cells are the layout of the numbers in them, however many homes there are, and also where no cell is empty.
pub fn ordered_cells_are_their_own_layout()
    ensures { (home : ℕ → ℕ) (cells : List ℕ) → IsOrdered home cells
        → cells ≡ layout_of home (length cells) (numbers_in cells) }
{}

/// The layout of a set is ordered, holds exactly the numbers of that set, and leaves its last cell empty.
pub fn layout_is_ordered()
    ensures { (home : ℕ → ℕ) (homes count : ℕ) (numbers : List ℕ)
        → HasRoom home homes count numbers
        → IsLayout home count numbers (layout_of home count numbers) }
{}

/// As many ordered cells with the same numbers are the same cells.
pub fn numbers_determine_ordered_cells()
    ensures { (home : ℕ → ℕ) (a b : List ℕ)
        → IsOrdered home a → IsOrdered home b → length a ≡ length b
        → ((v : ℕ) → v ≢ 0 → Contains a v → Contains b v)
        → ((v : ℕ) → v ≢ 0 → Contains b v → Contains a v)
        → a ≡ b }
{}

/// In ordered cells no number stands twice.
pub fn each_number_stands_once()
    ensures { (home : ℕ → ℕ) (cells : List ℕ) → IsOrdered home cells
        → AllPairs (λ a b. a ≢ b) (numbers_in cells) }
{}

/// The first of some ordered cells are ordered.
pub fn a_front_is_ordered()
    ensures { (home : ℕ → ℕ) (front more : List ℕ)
        → IsOrdered home (front ++ more) → IsOrdered home front }
{}

/// Ordered cells are the first cells of the layout of the numbers in them.
pub fn ordered_cells_are_a_front()
    ensures { (home : ℕ → ℕ) (homes count : ℕ) (front : List ℕ)
        → HasRoom home homes count (numbers_in front)
        → IsOrdered home front → length front ≤ count
        → take (length front) (layout_of home count (numbers_in front)) ≡ front }
{}

/// The least number of a set comes last, into the first cell from its home on that is still empty.
pub fn least_number_comes_last()
    ensures { (home : ℕ → ℕ) (count v : ℕ) (numbers : List ℕ) → All (λ w. v < w) numbers
        → layout_of home count (v ∷ numbers) ≡ placed v (home v) (layout_of home count numbers) }
{}

/// The greatest number of some ordered cells stands at its home.
pub fn greatest_number_is_at_home()
    ensures { (home : ℕ → ℕ) (cells : List ℕ) (place : ℕ)
        → IsOrdered home cells → slice_index cells place ≢ 0
        → All (λ w. w ≤ slice_index cells place) cells → home (slice_index cells place) ≡ place }
{}

/// A number that may stand at a place, and meets a greater number there, may stand at the next.
pub fn a_number_passes_a_greater_one()
    ensures { (home : ℕ → ℕ) (cells : List ℕ) (v place : ℕ) → MayStand home cells v place
        → v < slice_index cells place → MayStand home cells v (place + 1) }
{}

/// A place at which a number may stand stays one where no cell falls.
pub fn a_place_stays_where_no_cell_falls()
    ensures { (home : ℕ → ℕ) (cells now : List ℕ) (v place : ℕ)
        → ((k : ℕ) → slice_index cells k ≤ slice_index now k)
        → MayStand home cells v place → MayStand home now v place }
{}

/// Ordered cells stay ordered where a number takes a place at which it may stand from a lower one, or from none.
pub fn displacing_keeps_order()
    ensures { (home : ℕ → ℕ) (cells : List ℕ) (v place : ℕ) → IsOrdered home cells
        → MayStand home cells v place → place < length cells → slice_index cells place < v
        → IsOrdered home (set cells place v) }
{}

/// The number that is displaced so may stand at the next place.
pub fn a_displaced_number_moves_on()
    ensures { (home : ℕ → ℕ) (cells : List ℕ) (v place : ℕ)
        → IsOrdered home cells → place < length cells
        → slice_index cells place ≢ 0 → slice_index cells place < v
        → MayStand home (set cells place v) (slice_index cells place) (place + 1) }
{}
