//! Tables turned round: the workers of each phase become the teams, with a worker of each phase, or the other way.

ghost use Rattle.phase_kind.specs.Table.{IsTurned, grown};
ghost use Rattle.std.specs.Prelude.{◌≡◌, [], All, IfOk, length, map};

use outside_io::Memory;
use std::alloc::Global;

/// The columns of a table, of which there are so many.
pub fn turned<X: Drop>(
    alloc: Global,
    places: usize,
    rows: Vec<Vec<X>>,
) -> Result<Vec<Vec<X>>, Memory>
    requires { All (λ row. length row.items ≡ places) rows.items }
    ensures { IfOk result (λ columns. IsTurned places (map (λ row. row.items) rows.items)
        (map (λ column. column.items) columns.items)) }
{
    let mut columns = empty(alloc, places, rows.len())?;
    for row in rows {
        deal(&mut columns, row)?;
    }
    Ok(columns)
}

/// So many columns with room for so many rows.
fn empty<X: Drop>(alloc: Global, places: usize, rows: usize) -> Result<Vec<Vec<X>>, Memory>
    ensures as_many { IfOk result (λ columns. length columns.items ≡ places) }
    ensures empty { IfOk result (λ columns. All (λ column. column.items ≡ []) columns.items) }
{
    let mut columns = Vec::with_capacity(alloc, places)?;
    for _ in 0..places {
        columns.push(Vec::with_capacity(alloc, rows)?)?;
    }
    Ok(columns)
}

/// Deals a row out to the columns.
fn deal<X: Drop>(columns: &mut Vec<Vec<X>>, row: Vec<X>) -> Result<(), Memory>
    requires { length row.items ≡ length columns.old.items }
    ensures { IfOk result (λ _. map (λ column. column.items) columns.new.items
        ≡ grown (map (λ column. column.items) columns.old.items) row.items) }
{
    for (place, entry) in row.into_iter().enumerate() {
        columns[place].push(entry)?;
    }
    Ok(())
}
