//! The texts of a replay.

ghost use Rattle.std.specs.Prelude.{◌≡◌, ◌++◌, IfOk, string_bytes};
ghost use Rattle.schedule_replay.specs.Replayed.{cell_line, cell_lines, steps_line};

use outside_io::Memory;

/// Appends how many steps were scheduled.
pub fn push_count(text: &mut String, count: usize) -> Result<(), Memory>
    ensures { IfOk result
        (λ _. string_bytes text.new ≡ string_bytes text.old ++ steps_line count) }
{
    write!(text, "steps {count}\n")?;
    Ok(())
}

/// Appends a line for each cell that is not empty.
pub fn push_cells(text: &mut String, cells: &[u64]) -> Result<(), Memory>
    ensures { IfOk result
        (λ _. string_bytes text.new ≡ string_bytes text.old ++ cell_lines 0 cells.now) }
{
    'cells: for (place, number) in cells.iter().enumerate() {
        if *number != 0 {
            push_cell(text, place, *number)?;
        }
    }
    Ok(())
}

fn push_cell(text: &mut String, place: usize, number: u64) -> Result<(), Memory>
    ensures { IfOk result
        (λ _. string_bytes text.new ≡ string_bytes text.old ++ cell_line place number) }
{
    write!(text, "cell {place} {number}\n")?;
    Ok(())
}
