//! Turns at which two workers wait for each other.

use outside_io::Turns;
use std::hint::spin_loop;
use std::sync::atomic::{AtomicU64, Ordering};

/// How often a worker looks for the other one before it goes on alone.
const MOST_LOOKS: u32 = 10_000_000;

/// The first two workers of a phase wait for each other: at its first turn, each goes on once the other's first turn has
/// begun. Where one thread does the work of both, the first one waits in vain.
#[derive(Drop)]
pub struct Meeting {
    came: [AtomicU64; 2],
    met: AtomicU64,
}

impl Meeting {
    /// Nobody came yet.
    pub fn new() -> Meeting {
        Meeting {
            came: [AtomicU64::new(0), AtomicU64::new(0)],
            met: AtomicU64::new(0),
        }
    }

    /// How often a worker saw the other one come, over all phases so far: twice in each, where both were at work at once.
    pub fn met(&self) -> u64 {
        self.met.load(Ordering::SeqCst)
    }
}

impl Turns for Meeting {
    fn turn(&self, tab: usize, index: usize, _seen: u64) {
        if tab > 1 || index > 0 {
            return;
        }
        let phases = self.came[tab].fetch_add(1, Ordering::SeqCst);
        for _ in 0..MOST_LOOKS {
            if self.came[1 - tab].load(Ordering::SeqCst) > phases {
                self.met.fetch_add(1, Ordering::SeqCst);
                return;
            }
            spin_loop();
        }
    }
}
