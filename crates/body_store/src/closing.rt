//! A close: the image of the ballots of before becomes that of the ballots of after.

ghost use Rattle.body_store.specs.Closing.{Change, IsClose};
ghost use Rattle.body_store.specs.Contents.{all_listed};
ghost use Rattle.body_store.specs.Held.{Shows};
ghost use Rattle.layout_def.specs.Changes.{AreChanges};
ghost use Rattle.std.specs.Prelude.{◌≡◌, All, OnErr, OnOk};
ghost use Rattle.store_spec.specs.Image.{cells_of};

use crate::cells::Cells;
use crate::relay::relay;
use ballot_record::{BallotList, Election};
use layout_def::CellChange;
use outside_io::Memory;
use std::alloc::Global;

/// Makes an image and its cells those of the ballots of after, in whose layout each change has its number. They stood in it
/// before, or are in these lists. After `Memory` both are as they were.
pub fn close(
    alloc: Global,
    election: &Election,
    lists: &[BallotList],
    cells: &mut Cells,
    mut changes: Vec<CellChange>,
    image: &mut Vec<u8>,
) -> Result<(), Memory>
    ghost change: { Change }
    requires close { IsClose election.now (all_listed lists.now) change }
    requires election { All (λ list. list.election ≡ election.now) lists.now }
    requires shown { Shows election.now change.old image.old.items cells.old }
    requires changes { AreChanges cells.old (cells_of election.now change.rest) changes.items }
    ensures shown { OnOk result (Shows election.now change.rest image.new.items cells.new) }
    ensures image { OnErr result (image.new.items ≡ image.old.items) }
    ensures cells { OnErr result (cells.new ≡ cells.old) }
{
    cells.exchange(&mut changes);
    let numbers = cells.numbers();
    if let Err(refused) = fill(alloc, election, lists, numbers, &changes, image) {
        cells.exchange(&mut changes);
        return Err(refused);
    }
    Ok(())
}

/// Makes an image that of the ballots of after, whose cells these are. Each change says which number a cell had before. After
/// `Memory` it is as it was.
pub fn fill(
    alloc: Global,
    election: &Election,
    lists: &[BallotList],
    cells: &[u64],
    changes: &[CellChange],
    image: &mut Vec<u8>,
) -> Result<(), Memory>
    ghost change: { Change }
    requires close { IsClose election.now (all_listed lists.now) change }
    requires election { All (λ list. list.election ≡ election.now) lists.now }
    requires shown { Shows election.now change.old image.old.items (cells_of election.now change.old) }
    requires layout { cells.now ≡ cells_of election.now change.rest }
    requires changes { AreChanges cells.now (cells_of election.now change.old) changes.now }
    ensures shown { OnOk result (Shows election.now change.rest image.new.items cells.now) }
    ensures unchanged { OnErr result (image.new.items ≡ image.old.items) }
{
    let order = election.order();
    relay(alloc, &order, election, lists, cells, changes, image)
}
