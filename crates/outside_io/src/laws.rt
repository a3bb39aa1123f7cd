//! Laws of lines, and of how they are read.

ghost use Rattle.std.specs.Prelude.{◌≡◌, ◌≢◌, ℕ, ◌+◌, ◌<◌, ◌≤◌, List, [], ◌∷◌, ◌++◌, length, take, drop, Option};
ghost use Rattle.store_spec.specs.Input.{script_limit, first_width, lines_of, ended_lines, lines_within, taken_within, IsTooLong};
ghost use Rattle.outside_io.specs.Reading.{Ending, ReadLines, ReadFirst};
ghost use Rattle.outside_io.specs.Reading.Ending.{Faulted};

/// A reading has one answer. What ended it and what is left tell the lines; where it was no fault, the text alone tells
/// what ended it, what is left and the lines.
pub fn one_reading()
    ensures lines { (ending : Ending) (text left : List ℕ) (a b : List (Option (List ℕ)))
        → ReadLines ending text left a → ReadLines ending text left b → a ≡ b }
    ensures ending { (x y : Ending) (text left rest : List ℕ) (a b : List (Option (List ℕ)))
        → x ≢ Faulted → y ≢ Faulted → ReadLines x text left a → ReadLines y text rest b
        → (x ≡ y) × (left ≡ rest) × (a ≡ b) }
{}

/// However a reading ended, its lines are the first of those that are taken of the text within the limit; and all of
/// these where it was no fault.
pub fn first_lines()
    ensures first { (ending : Ending) (text left : List ℕ) (lines : List (Option (List ℕ)))
        → ReadLines ending text left lines → ReadFirst text left lines }
    ensures all { (ending : Ending) (text left : List ℕ) (lines : List (Option (List ℕ)))
        → ending ≢ Faulted → ReadLines ending text left lines
        → lines ≡ taken_within script_limit text }
{}

/// The first line within a room stands up to the first line end, and the others are the lines behind it. A text of no
/// bytes has no line, and one that is too long for the room has none within it.
pub fn first_line()
    ensures first { (room left : ℕ) (text : List ℕ) → 0 < length text → ¬ IsTooLong text room
        → room + length (drop (first_width text + 1) text) ≡ left + length text
        → lines_within room text
        ≡ take (first_width text) text ∷ lines_within left (drop (first_width text + 1) text) }
    ensures empty { (room : ℕ) → lines_within room [] ≡ [] }
    ensures too_long { (room : ℕ) (text : List ℕ) → IsTooLong text room
        → lines_within room text ≡ [] }
{}

/// Behind a front whose lines all have an end, the lines of a text are those of the front and those of the rest.
pub fn joined_lines()
    ensures all { (front rest : List ℕ) → ended_lines front ≡ lines_of front
        → lines_of (front ++ rest) ≡ lines_of front ++ lines_of rest }
    ensures ended { (front rest : List ℕ) → ended_lines front ≡ lines_of front
        → ended_lines (front ++ rest) ≡ lines_of front ++ ended_lines rest }
{}
