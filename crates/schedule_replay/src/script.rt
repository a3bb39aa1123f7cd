//! A replay script so far, and which lines may come next.

ghost use Rattle.std.specs.Prelude.{◌≡◌, ◌≢◌, ◌↔◌, ◌++◌, ◌<◌, ◌≤◌, [], List, All, AllPairs, IfOk, IsTrue, length, vec_len};
ghost use Rattle.std.specs.List.Sorted.{IsStrictlyIncreasing};
ghost use Rattle.store_spec.specs.Election as definition;
ghost use Rattle.store_spec.specs.ScriptLine.{most_tabs};
ghost use Rattle.schedule_replay.specs.Input.{word_of_kind};
ghost use Rattle.schedule_replay.specs.Script.{AreRead, HasBothLines, HasRead, MayCome, TakesLine, TakesRead, line_at};

use crate::fault::Refusal;
use crate::line::{Kind, Word, read_line};
use ballot_record::{Election, LineWhy};
use outside_io::Memory;
use std::alloc::Global;

/// Which lines may come next.
#[derive(Clone, Copy, Debug, PartialEq, Eq)]
pub enum Stage {
    /// The base.
    Base,
    /// The kind of phase, and how many take part.
    Kind,
    /// Numbers of lists, or turns.
    Lists,
    /// Turns.
    Turns,
}

impl Stage {
    fn allows(self, word: Word) -> bool
        ensures { IsTrue result ↔ MayCome self word }
    {
        match self {
            Stage::Base => matches!(word, Word::Start),
            Stage::Kind => matches!(word, Word::Cast | Word::Withdraw),
            Stage::Lists => matches!(word, Word::List | Word::Steps),
            Stage::Turns => matches!(word, Word::Steps),
        }
    }
}

/// The lines of a script so far: a base, a kind of phase, a list for each that takes part, and a schedule.
#[derive(Drop)]
pub struct Script {
    pub stage: Stage,
    pub base: Vec<u64>,
    pub kind: Kind,
    pub lists: Vec<Vec<u64>>,
    pub schedule: Vec<u8>,
}

impl Script {
    /// That of no line.
    pub fn new(alloc: Global) -> Script
        ensures { (e : definition.Election) → HasRead e result [] }
    {
        Script {
            stage: Stage::Base,
            base: Vec::new(alloc),
            kind: Kind::Cast,
            lists: Vec::new(alloc),
            schedule: Vec::new(alloc),
        }
    }

    /// Whether both lines that an input must have are there.
    pub fn is_whole(&self) -> bool
        ensures { IsTrue result ↔ HasBothLines self.now.stage }
    {
        matches!(self.stage, Stage::Lists | Stage::Turns)
    }

    /// Takes the next line, where there is no reason to refuse it. Its numbers come into `numbers`.
    pub fn take(
        &mut self,
        alloc: Global,
        election: &Election,
        line: &[u8],
        numbers: &mut Vec<u64>,
    ) -> Result<(), Refusal>
        ensures { TakesLine result election.now line.now self.old self.new }
    {
        let Some(word) = read_line(line, numbers)? else {
            return Err(Refusal::Bad(LineWhy::Malformed));
        };
        if !self.stage.allows(word) {
            return Err(Refusal::Bad(LineWhy::Malformed));
        }
        match word {
            Word::Start => self.take_base(alloc, election, numbers),
            Word::Cast => self.take_kind(alloc, Kind::Cast, numbers),
            Word::Withdraw => self.take_kind(alloc, Kind::Withdraw, numbers),
            Word::List => self.take_addition(numbers),
            Word::Steps => self.take_turns(numbers),
        }
    }

    fn take_base(
        &mut self,
        alloc: Global,
        election: &Election,
        numbers: &[u64],
    ) -> Result<(), Refusal>
        requires stage { self.old.stage ≡ Stage.Base }
        requires read { AreRead Word.Start numbers.now }
        ensures { TakesRead result election.now (line_at Word.Start numbers.now) self.old
            self.new }
    {
        if numbers.len() > election.limit() as usize || !are_distinct(alloc, numbers)? {
            return Err(Refusal::Bad(LineWhy::Invalid));
        }
        self.base.extend_from_slice(numbers)?;
        self.stage = Stage::Kind;
        Ok(())
    }

    fn take_kind(&mut self, alloc: Global, kind: Kind, numbers: &[u64]) -> Result<(), Refusal>
        requires stage { self.old.stage ≡ Stage.Kind }
        requires read { AreRead (word_of_kind kind) numbers.now }
        ensures { (e : definition.Election)
            → TakesRead result e (line_at (word_of_kind kind) numbers.now) self.old self.new }
    {
        for _ in 0..numbers[0] {
            self.lists.push(Vec::new(alloc))?;
        }
        self.kind = kind;
        self.stage = Stage::Lists;
        Ok(())
    }

    fn take_addition(&mut self, numbers: &[u64]) -> Result<(), Refusal>
        requires stage { self.old.stage ≡ Stage.Lists }
        requires read { AreRead Word.List numbers.now }
        ensures { (e : definition.Election)
            → TakesRead result e (line_at Word.List numbers.now) self.old self.new }
    {
        let tab = numbers[0];
        if tab > self.lists.len() as u64 {
            return Err(Refusal::Bad(LineWhy::Invalid));
        }
        self.lists[tab as usize - 1].extend_from_slice(&numbers[1..])?;
        Ok(())
    }

    fn take_turns(&mut self, numbers: &[u64]) -> Result<(), Refusal>
        requires stage { MayCome self.old.stage Word.Steps }
        requires read { AreRead Word.Steps numbers.now }
        ensures { (e : definition.Election)
            → TakesRead result e (line_at Word.Steps numbers.now) self.old self.new }
    {
        if !are_at_most(numbers, self.lists.len() as u64) {
            return Err(Refusal::Bad(LineWhy::Invalid));
        }
        push_turns(&mut self.schedule, numbers)?;
        self.stage = Stage::Turns;
        Ok(())
    }
}

/// Appends turns, of 64 at most.
fn push_turns(schedule: &mut Vec<u8>, turns: &[u64]) -> Result<(), Memory>
    requires { All (λ tab. tab ≤ most_tabs) turns.now }
    ensures { IfOk result (λ _. schedule.new.items ≡ schedule.old.items ++ turns.now) }
{
    for tab in turns {
        schedule.push(*tab as u8)?;
    }
    Ok(())
}

/// Whether no number stands twice.
fn are_distinct(alloc: Global, numbers: &[u64]) -> Result<bool, Memory>
    ensures { IfOk result (λ distinct. IsTrue distinct
        ↔ AllPairs (λ a b. a ≢ b) numbers.now) }
{
    let mut sorted = Vec::from_slice(alloc, numbers)?;
    sorted.sort_unstable();
    Ok(rises(&sorted))
}

/// Whether each number is above the one before it.
fn rises(numbers: &[u64]) -> bool
    ensures { IsTrue result ↔ IsStrictlyIncreasing numbers.now }
{
    numbers.windows(2).all(|pair| pair[0] < pair[1])
}

fn are_at_most(numbers: &[u64], most: u64) -> bool
    ensures { IsTrue result ↔ All (λ n. n ≤ most) numbers.now }
{
    numbers.iter().all(|number| *number <= most)
}
