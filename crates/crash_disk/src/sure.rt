//! A disk that never fails.

ghost use Rattle.std.specs.Prelude.{◌≡◌, None};

use crate::disk::Disk;
use outside_io::{Count, Failed};

/// A disk that never fails: its count of faults is constant. It keeps no bytes, and tells none.
#[derive(Clone, Copy, Debug, PartialEq, Eq)]
pub struct SureDisk {
    calls: Count,
}

impl SureDisk {
    ghost use Rattle.outside_io.specs.Count.{count_value};

    /// A disk that has made no calls.
    pub fn new() -> SureDisk
        ensures { count_value result.calls ≡ 0 }
    {
        SureDisk {
            calls: Count::zero(),
        }
    }
}

impl Disk for SureDisk {
    ghost use Rattle.std.proofs.Common.{arith};
    ghost use Rattle.outside_io.specs.Count.{count_value};

    ghost seen = { λ _. None };

    ghost may_leave = { λ _ _ _. ⊥ };

    ghost calls = { λ disk. count_value disk.calls };

    ghost faults = { λ _. 0 };

    ghost leads_to = { λ _ _. Unit {0} };

    ghost fails_to = { λ _ _. Unit {0} };

    ghost counted_calls = { λ disk. disk.calls.within };

    ghost counted_faults = { λ _. Prim.omega arith };

    ghost seen_is_crash_image = { λ disk bytes is. Prim.cc };

    ghost crash_images_told = { λ disk moment image left. absurd left };

    ghost leads_to_itself = { λ _. tt };

    ghost leads_on = { λ _ _ _ _ _. tt };

    ghost fails_on = { λ _ _ _ _ _ _. tt };

    fn size(&mut self) -> Result<u64, Failed> {
        self.calls.add_one();
        Ok(0)
    }

    fn read(&mut self, _at: u64, _buf: &mut [u8]) -> Result<(), Failed> {
        self.calls.add_one();
        Ok(())
    }

    fn write_at(&mut self, _at: u64, _bytes: &[u8]) -> Result<(), Failed> {
        self.calls.add_one();
        Ok(())
    }

    fn sync(&mut self) -> Result<(), Failed> {
        self.calls.add_one();
        Ok(())
    }

    fn calls(&self) -> u64 {
        self.calls.value()
    }
}
