//! What a run reports of its checkpoints, to whoever called it.

ghost use Rattle.any_store.specs.Beside.{row_width};
ghost use Rattle.phase_gate.specs.Around.{rows_of};
ghost use Rattle.phase_gate.specs.Beside.{AddsRow, IsOneMore};
ghost use Rattle.std.specs.Prelude.{◌≡◌, ◌<◌, ◌≤◌, ℕ, List, [], None, IfOk, OnOk, length, vec_capacity, vec_len};

use any_store::{Disks, Store};
use outside_io::Memory;
use std::alloc::Global;

/// What a run says of its checkpoints.
#[derive(Drop)]
pub struct Report {
    /// How many calls the disk had seen when each checkpoint was acknowledged, in order.
    pub marks: Vec<u64>,
    /// How many calls the further disks had seen at each of these marks: one list for each.
    pub others: Vec<Vec<u64>>,
    /// How many calls the first disk and the second had seen when they were paired, if two were.
    pub begun: Option<(u64, u64)>,
    /// How many ballots the last closed store held.
    pub held: u32,
}

impl Report {
    /// Nothing was acknowledged yet.
    pub fn new(alloc: Global) -> Report
        ensures marks { result.marks.items ≡ [] }
        ensures others { result.others.items ≡ [] }
        ensures begun { result.begun ≡ None }
        ensures held { result.held ≡ 0 }
    {
        Report {
            marks: Vec::new(alloc),
            others: Vec::new(alloc),
            begun: None,
            held: 0,
        }
    }

    /// Takes the room for the list of one more mark: an empty list, which has room for so many numbers.
    pub fn room(&mut self, alloc: Global, width: usize) -> Result<Vec<u64>, Memory>
        ensures marks { self.new.marks ≡ self.old.marks }
        ensures others { self.new.others.items ≡ self.old.others.items }
        ensures begun { self.new.begun ≡ self.old.begun }
        ensures held { self.new.held ≡ self.old.held }
        ensures room { OnOk result (vec_len self.new.others < vec_capacity self.new.others) }
        ensures empty { IfOk result (λ list. list.items ≡ []) }
        ensures list { IfOk result (λ list. width ≤ vec_capacity list) }
    {
        self.others.reserve(1)?;
        Ok(Vec::with_capacity(alloc, width)?)
    }

    /// Adds the list of the last mark, where that has none yet: what stands beside a mark that was made now.
    pub fn complete<S: Store, M: Disks<S>>(&mut self, disks: &M, mut list: Vec<u64>)
        requires before { (marks : List ℕ) × IsOneMore marks self.old.marks.items
            × (length self.old.others.items ≡ length marks) }
        requires room { vec_len self.old.others < vec_capacity self.old.others }
        requires empty { list.items ≡ [] }
        requires list { row_width M.disks self.old.begun ≤ vec_capacity list }
        ensures rows { (marks : List ℕ) → IsOneMore marks self.old.marks.items
            → length self.old.others.items ≡ length marks
            → AddsRow M.disks disks.now self.new.begun marks self.new.marks.items
            (rows_of self.old) (rows_of self.new) }
        ensures marks { self.new.marks ≡ self.old.marks }
        ensures begun { self.new.begun ≡ self.old.begun }
        ensures held { self.new.held ≡ self.old.held }
    {
        if self.others.len() == self.marks.len() {
            return;
        }
        let Some(mark) = self.marks.last() else {
            return;
        };
        disks.beside(self.begun, *mark, &mut list);
        self.others.push_reserved(list);
    }
}
