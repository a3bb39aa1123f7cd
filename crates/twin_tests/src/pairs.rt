//! Two disks of each kind are paired.

ghost use Rattle.crash_disk.specs.Recorded.{recorded_sees, recorded_leaves, recorded_calls};
ghost use Rattle.store_spec.specs.Disk.{IsSettled};

use crate::media::{Found, Kind, Set, all_kinds, disk_of, medium_of, set_of};
use crate::twins::four_calls_on_both;
use ballot_record::Election;
use crash_disk::{Disk, MemoryDisk};
use image_builder::Scratch;
use std::alloc::Global;
use std::process::Abort;
use std::test::Fail;
use twin_media::{PairFault, Paired, pair};

/// What a pairing is to answer: the first disk's set is taken unless the first is lost.
pub(crate) fn wanted(found: (Found, Found)) -> Result<(Set, Paired), PairFault> {
    match found {
        (Found::Refused(why), _) => Err(PairFault::First { why }),
        (_, Found::Refused(why)) => Err(PairFault::Second { why }),
        (Found::Lost, Found::Lost) => Err(PairFault::BothLost),
        (Found::Lost, Found::Holds(set)) => Ok((set, Paired::FirstRestored)),
        (Found::Holds(set), Found::Lost) => Ok((set, Paired::SecondRestored)),
        (Found::Holds(set), Found::Holds(other)) => {
            let same = set == other;
            Ok((
                set,
                if same {
                    Paired::Equal
                } else {
                    Paired::Differed
                },
            ))
        }
    }
}

/// Two disks are the medium of a set. Of a twin over both no call fails, and the counts rise alike from the disks' on.
/// Afterwards both are changed.
fn assert_twin(rt: &impl Abort, first: &mut MemoryDisk, second: &mut MemoryDisk, set: Set)
    requires first_settled { IsSettled recorded_sees recorded_calls recorded_leaves first.old }
    requires second_settled { IsSettled recorded_sees recorded_calls recorded_leaves second.old }
{
    let medium = medium_of(set);
    assert!(rt; first.bytes() == medium.as_slice());
    assert!(rt; second.bytes() == medium.as_slice());
    let begun = (first.calls(), second.calls());
    let ended = (begun.0.wrapping_add(4), begun.1.wrapping_add(4));
    let outcome = four_calls_on_both(first, second);
    assert!(rt; outcome == ([true; 4], None, begun, ended));
}

/// Pairs two disks, and makes calls on the twin over both. It answers the set of the store.
pub(crate) fn paired(
    rt: &impl Abort,
    alloc: Global,
    first: &mut MemoryDisk,
    second: &mut MemoryDisk,
    scratch: &mut Scratch,
) -> Result<(Set, Paired), PairFault> {
    let (store, paired) = pair(alloc, first, second, &Election::example(), scratch)?;
    let set = set_of(store.image()).expect(rt, "a set");
    assert_twin(rt, first, second, set);
    Ok((set, paired))
}

/// Pairs two disks of these kinds. Where they are refused, neither is written; where the first one is, no call is made on
/// the second.
pub(crate) fn assert_pair_of(
    rt: &impl Abort,
    alloc: Global,
    one: &Kind,
    two: &Kind,
    scratch: &mut Scratch,
) -> Result<(), Fail> {
    let mut first = disk_of(rt, alloc, &one.bytes, 0)?;
    let mut second = disk_of(rt, alloc, &two.bytes, 0)?;
    let wanted = wanted((one.found, two.found));
    let answer = paired(rt, alloc, &mut first, &mut second, scratch);
    assert_eq!(rt; answer, wanted);
    if wanted.is_err() {
        assert!(rt; first.bytes() == one.bytes.as_slice());
        assert!(rt; second.bytes() == two.bytes.as_slice());
    }
    let refused = matches!(wanted, Err(PairFault::First { .. }));
    assert!(rt; !refused || second.calls() == 0);
    Ok(())
}

#[test]
fn every_pair_of_kinds(rt: HostRuntime) -> Result<(), Fail> {
    let alloc = rt.alloc();
    let mut scratch = Scratch::new(alloc)?;
    let kinds = all_kinds(&rt, alloc)?;
    assert!(rt; kinds.len() == 76);
    for one in &kinds {
        for two in &kinds {
            assert_pair_of(&rt, alloc, one, two, &mut scratch)?;
        }
    }
    Ok(())
}
