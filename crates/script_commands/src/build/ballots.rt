//! The ballots of a build's script so far.

ghost use Rattle.std.specs.Prelude.{◌≡◌, [], IfOk, length};
ghost use Rattle.store_spec.specs.Ballot.{IsValid};
ghost use Rattle.store_spec.specs.Election.{cell_size};
ghost use Rattle.store_spec.specs.Image.{IsEmptyCell, cell_bytes, cells_of};
ghost use Rattle.ballot_record.specs.Record.{ballot};

use crate::build::index::Index;
use ballot_record::{BallotList, Election, LineFault, LineWhy, Record, read_line_into};
use body_store::layout;
use outside_io::Memory;
use std::alloc::{AllocFailed, Global};

/// Why the ballot of a line was not taken.
#[derive(Clone, Copy, Debug, PartialEq, Eq)]
pub enum Refusal {
    /// The line is bad.
    Bad(LineWhy),
    /// There was no memory.
    Memory,
}

impl<T: Drop> From<AllocFailed<T>> for Refusal {
    ghost use Rattle.std.specs.Prelude.{◌≡◌};
    ghost use Rattle.script_commands.specs.declared.build.ballots.Refusal.TheVariants.{Memory};

    ghost from_gives = { λ _ refusal. refusal ≡ Memory };

    fn from(_: AllocFailed<T>) -> Self {
        Refusal::Memory
    }
}

impl From<Memory> for Refusal {
    ghost use Rattle.std.specs.Prelude.{◌≡◌};
    ghost use Rattle.script_commands.specs.declared.build.ballots.Refusal.TheVariants as refusals;

    ghost from_gives = { λ _ refusal. refusal ≡ refusals.Memory };

    fn from(_: Memory) -> Self {
        Refusal::Memory
    }
}

/// The ballots of the lines so far, in the order of the lines, and each under its number.
#[derive(Drop)]
pub struct Ballots {
    list: BallotList,
    index: Index,
}

impl Ballots {
    ghost use Rattle.script_commands.specs.Ballots.{Adds, Judges, AreGoodBallots, ballots_so_far, election_of};

    /// Those of no line, with room for as many as the election allows.
    pub fn new(alloc: Global, election: &Election) -> Result<Ballots, Memory>
        ensures none { IfOk result (λ ballots. ballots_so_far ballots ≡ []) }
        ensures sound { IfOk result (AreGoodBallots election.now) }
    {
        Ok(Ballots {
            list: BallotList::with_room(alloc, election, election.limit() as usize)?,
            index: Index::new(alloc)?,
        })
    }

    /// Judges the next line, and takes its ballot where there is no reason to refuse it.
    pub fn judge(&mut self, line: &[u8], election: &Election) -> Result<(), Refusal>
        requires { AreGoodBallots election.now self.old }
        ensures { Judges result election.now line.now self.old self.new }
    {
        let mut read = Record::blank();
        match read_line_into(line, election, &mut read) {
            Ok(()) => self.add(&read, election),
            Err(LineFault::Malformed) => Err(Refusal::Bad(LineWhy::Malformed)),
            Err(LineFault::Invalid) => Err(Refusal::Bad(LineWhy::Invalid)),
        }
    }

    fn add(&mut self, cast: &Record, election: &Election) -> Result<(), Refusal>
        requires sound { AreGoodBallots election.now self.old }
        requires valid { IsValid election.now (ballot cast.now) }
        ensures { Adds result election.now cast.now self.old self.new }
    {
        let place = match self.index.look(&self.list, cast.number) {
            Ok(held) => {
                return Err(Refusal::Bad(if self.list.record(held, election) == *cast {
                    LineWhy::Duplicate
                } else {
                    LineWhy::Conflict
                }));
            }
            Err(place) => place,
        };
        if self.list.len() >= election.limit() as usize {
            return Err(Refusal::Bad(LineWhy::Full));
        }
        self.index.note(&self.list, cast.number, place)?;
        self.list.push(cast, election)?;
        Ok(())
    }

    /// The cells of a store that holds the ballots.
    pub fn layout(&self, alloc: Global, election: &Election) -> Result<Vec<u64>, Memory>
        requires { AreGoodBallots election.now self.now }
        ensures { IfOk result
            (λ cells. cells.items ≡ cells_of election.now (ballots_so_far self.now)) }
    {
        layout(alloc, election, &self.list)
    }

    /// The bytes of a cell with this number: those of the ballot that has it, or those of an empty one where none has.
    pub fn cell_with<'a>(&'a self, number: u64, empty: &'a [u8]) -> &'a [u8]
        requires sound { AreGoodBallots (election_of self.now) self.now }
        requires empty { IsEmptyCell (election_of self.now) empty.now }
        ensures cell { result.now
            ≡ cell_bytes (election_of self.now) (ballots_so_far self.now) number }
        ensures long { length result.now ≡ cell_size (election_of self.now) }
    {
        match self.index.look(&self.list, number) {
            Ok(place) => self.list.cell(place),
            Err(_) => empty,
        }
    }
}
