//! What the media of all parts are found to hold. Nothing is written here.

ghost use Rattle.std.specs.Prelude.{◌≡◌, ◌++◌, ◌+◌, ◌≤◌, ℕ, ◌∷◌, [], IfErr, IfOk, List, OnOk, Some, length, option_map};
ghost use Rattle.std.specs.List.{AllZip};
ghost use Rattle.partition_store.specs.Foreign.{IsAmong, IsFirstForeign, IsForeignIn, IsLeastForeign, first_foreign, least_with};
ghost use Rattle.partition_store.specs.Opening.{AllHoldOwn, IsAgainst, RefusesLook, RefusesParts};
ghost use Rattle.partition_store.specs.Parted.{AreBits, AreFurther, bits_of};
ghost use Rattle.recovery.specs.Media.{EachHolds, HoldsIfTold, NoneRose};
ghost use Rattle.recovery.specs.ReadsOnly.{WritesNothing};
ghost use Rattle.store_spec.specs.Ballot.{Ballot};
ghost use Rattle.store_spec.specs.Disk.{disk_model};

use crate::fault::{PartFault, fault_at};
use crate::part::part_of;
use ballot_record::Election;
use crash_disk::Disk;
use recovery::look;
use std::alloc::Global;

/// A part that holds a number of another part, and the least such number.
#[derive(Clone, Copy)]
pub(crate) struct Foreign {
    pub(crate) index: u32,
    pub(crate) number: u64,
}

/// The lesser of this number and one of before.
fn lesser(least: Option<u64>, number: u64) -> u64
    ensures { result ≡ least_with least number }
{
    match least {
        Some(other) => other.min(number),
        None => number,
    }
}

/// The least number of before that belongs to another part, with the number in one cell more.
fn least_with_cell(least: Option<u64>, number: u64, bits: u8, part: usize) -> Option<u64>
    requires bits { AreBits bits }
    ensures { (cells : List ℕ) → IsLeastForeign bits part (IsAmong cells) least
        → IsLeastForeign bits part (IsAmong (cells ++ number ∷ [])) result }
{
    if number == 0 || part_of(bits, number) == part {
        return least;
    }
    Some(lesser(least, number))
}

/// The least number in the cells of a part that belongs to another part.
pub(crate) fn least_foreign(cells: &[u64], bits: u8, part: usize) -> Option<u64>
    requires bits { AreBits bits }
    ensures { IsLeastForeign bits part (IsAmong cells.now) result }
{
    let mut least = None;
    for number in cells {
        least = least_with_cell(least, *number, bits, part);
    }
    least
}

/// Looks at the medium of a part, and answers the least number there that belongs to another part.
fn look_part<D: Disk>(
    alloc: Global,
    disk: &mut D,
    election: &Election,
    bits: u8,
    index: u32,
) -> Result<Option<u64>, PartFault>
    requires { AreBits bits }
    ensures found { IfOk result (λ foreign. (set : List Ballot)
        × HoldsIfTold (disk_model D.seen D.calls D.may_leave D.faults) election.now disk.old set
        × IsForeignIn bits index set foreign) }
    ensures refused { IfErr result (RefusesLook
        (disk_model D.seen D.calls D.may_leave D.faults) election.now index disk.old disk.new) }
    ensures steady { OnOk result (D.faults disk.new ≡ D.faults disk.old) }
    ensures reads { WritesNothing D.seen D.calls D.may_leave disk.old disk.new }
    ensures later { D.calls disk.old ≤ D.calls disk.new }
    ensures leads { D.leads_to disk.old disk.new }
{
    let store = match look(alloc, disk, election) {
        Ok(store) => store,
        Err(why) => return Err(fault_at(index, why)),
    };
    Ok(least_foreign(store.cells(), bits, index as usize))
}

/// The first part that holds a number of another part: this one, or else the next one.
fn first_of(first: Option<Foreign>, index: u32, number: Option<u64>) -> Option<Foreign>
    ensures { result ≡ first_foreign first index number }
{
    match (first, number) {
        (None, Some(number)) => Some(Foreign { index, number }),
        (first, _) => first,
    }
}

/// Looks at the further media in order, where `first` is what the first medium was found to hold of another part.
fn look_further<B: Disk>(
    alloc: Global,
    more: &mut [B],
    election: &Election,
    bits: u8,
    first: Option<Foreign>,
) -> Result<Option<Foreign>, PartFault>
    requires bits { AreBits bits }
    requires few { length more.old ≤ 7 }
    ensures found { IfOk result (λ foreign. (sets : List (List Ballot))
        × EachHolds (disk_model B.seen B.calls B.may_leave B.faults) election.now more.old sets
        × ((set : List Ballot) → IsFirstForeign bits (set ∷ []) first
        → IsFirstForeign bits (set ∷ sets) foreign)) }
    ensures refused { IfErr result (RefusesParts
        (disk_model B.seen B.calls B.may_leave B.faults) election.now more.old more.new) }
    ensures steady { OnOk result
        (NoneRose (disk_model B.seen B.calls B.may_leave B.faults) more.old more.new) }
    ensures reads { AllZip (WritesNothing B.seen B.calls B.may_leave) more.old more.new }
    ensures later { AllZip (λ old new. B.calls old ≤ B.calls new) more.old more.new }
    ensures leads { AllZip B.leads_to more.old more.new }
{
    let mut foreign = first;
    for place in 0..more.len() {
        let index = place as u32 + 1;
        let number = look_part(alloc, &mut more[place], election, bits, index)?;
        foreign = first_of(foreign, index, number);
    }
    Ok(foreign)
}

/// Looks at the media of all parts in order, and then sees that no number stands in another part than its own.
pub(crate) fn look_all<A: Disk, B: Disk>(
    alloc: Global,
    disk: &mut A,
    more: &mut [B],
    election: &Election,
    bits: u8,
) -> Result<(), PartFault>
    requires further { AreFurther (length more.old) }
    requires bits { bits ≡ bits_of (length more.old) }
    ensures refused { IfErr result (IsAgainst (disk_model A.seen A.calls A.may_leave A.faults)
        (disk_model B.seen B.calls B.may_leave B.faults)
        election.now disk.old disk.new more.old more.new) }
    ensures held { OnOk result (AllHoldOwn (disk_model A.seen A.calls A.may_leave A.faults)
        (disk_model B.seen B.calls B.may_leave B.faults) election.now disk.old more.old) }
    ensures steady { OnOk result (A.faults disk.new ≡ A.faults disk.old) }
    ensures others_steady { OnOk result
        (NoneRose (disk_model B.seen B.calls B.may_leave B.faults) more.old more.new) }
    ensures reads { WritesNothing A.seen A.calls A.may_leave disk.old disk.new }
    ensures others_read { AllZip (WritesNothing B.seen B.calls B.may_leave) more.old more.new }
    ensures later { A.calls disk.old ≤ A.calls disk.new }
    ensures others_later { AllZip (λ old new. B.calls old ≤ B.calls new) more.old more.new }
    ensures leads { A.leads_to disk.old disk.new }
    ensures others_lead { AllZip B.leads_to more.old more.new }
{
    let number = look_part(alloc, disk, election, bits, 0)?;
    let first = first_of(None, 0, number);
    match look_further(alloc, more, election, bits, first)? {
        Some(Foreign { index, number }) => Err(PartFault::Misplaced { index, number }),
        None => Ok(()),
    }
}
