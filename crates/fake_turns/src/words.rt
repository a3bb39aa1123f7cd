//! Turns that keep what the workers were handed.

use outside_io::Turns;
use std::sync::atomic::{AtomicU64, Ordering};

/// How many turns are kept.
const ROOM: usize = 16;

/// What a worker was handed at a turn: its list, the place of the item there, and the word that it had seen.
#[derive(Clone, Copy, Debug, PartialEq, Eq)]
pub struct Turn {
    pub tab: u64,
    pub index: u64,
    pub seen: u64,
}

/// Keeps what was handed over at the first turns, in a fixed row of words.
#[derive(Drop)]
pub struct SeenWords {
    turns: AtomicU64,
    tabs: [AtomicU64; ROOM],
    indexes: [AtomicU64; ROOM],
    words: [AtomicU64; ROOM],
}

impl SeenWords {
    /// No turn yet.
    pub fn new() -> SeenWords {
        SeenWords {
            turns: AtomicU64::new(0),
            tabs: zeros(),
            indexes: zeros(),
            words: zeros(),
        }
    }

    /// How many turns there were.
    pub fn count(&self) -> u64 {
        self.turns.load(Ordering::SeqCst)
    }

    /// A turn, counted from 0, where it is kept.
    pub fn turn_at(&self, place: usize) -> Option<Turn> {
        if place >= ROOM || place as u64 >= self.count() {
            return None;
        }
        Some(Turn {
            tab: self.tabs[place].load(Ordering::SeqCst),
            index: self.indexes[place].load(Ordering::SeqCst),
            seen: self.words[place].load(Ordering::SeqCst),
        })
    }
}

impl Turns for SeenWords {
    fn turn(&self, tab: usize, index: usize, seen: u64) {
        let place = self.turns.fetch_add(1, Ordering::SeqCst) as usize;
        if place < ROOM {
            self.tabs[place].store(tab as u64, Ordering::SeqCst);
            self.indexes[place].store(index as u64, Ordering::SeqCst);
            self.words[place].store(seen, Ordering::SeqCst);
        }
    }
}

fn zeros() -> [AtomicU64; ROOM] {
    std::array::from_fn(|_| AtomicU64::new(0))
}
