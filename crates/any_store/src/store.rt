//! What a session needs of its store, and of the disks on which it is acknowledged.

ghost use Rattle.std.specs.Prelude.{◌≡◌, ◌<◌, ◌≤◌, ◌^◌, [], List, OnErr, OnOk, length, vec_capacity};
ghost use Rattle.outside_io.specs.Stream.{TakesAll, TakesSome};
ghost use Rattle.any_store.specs.Beside.{row_beside, row_width};
ghost use Rattle.any_store.specs.Checkpointed.{AreCheckpointed, AreMedia, FailsCheckpoint};
ghost use Rattle.any_store.specs.Disks.{AcknowledgesNothing, AreSteady, StoreDisks, first_of};
ghost use Rattle.store_spec.specs.Ballot.{Ballot};
ghost use Rattle.store_spec.specs.Election as elections;
ghost use Rattle.store_spec.specs.Fault.{CountsFaultIf};
ghost use Rattle.store_spec.specs.Report.{export_text, tally_text};
ghost use Rattle.store_spec.specs.Session.{Closes};
ghost use denote.Param.Send.{IsSync};

use ballot_record::Election;
use image_builder::Scratch;
use outside_io::{Failed, Sink};
use std::alloc::Global;
use std::thread::Threads;
use tally_export::PutFault;

/// What a session needs of its store, whatever that is made of.
pub trait Store: Sized + Drop {
    /// Its election.
    ghost election: { Self → elections.Election };

    /// The set that it holds.
    ghost ballots: { Self → List Ballot };

    /// What the close of a phase asks of it.
    ghost closes: { elections.Election → Closes };

    /// Its election.
    fn election(&self) -> &Election
        ensures election { result.now ≡ election self.now };

    /// How many ballots it holds.
    fn len(&self) -> usize
        ensures count { result ≡ length (ballots self.now) }
        ensures few { result < 2 ^ 32 };

    /// Counts its ballots and writes their tally.
    fn tally<R: Threads + Sync, K: Sink>(
        &self,
        rt: &R,
        alloc: Global,
        out: &mut K,
    ) -> Result<(), PutFault>
        requires sync { IsSync R.row }
        ensures all { OnOk result (TakesAll (K.taken out.old)
            (tally_text (election self.now) (ballots self.now)) (K.taken out.new)) }
        ensures some { OnErr result (TakesSome (K.taken out.old)
            (tally_text (election self.now) (ballots self.now)) (K.taken out.new)) }
        ensures fault { CountsFaultIf (result ≡ Err PutFault.WriteFault)
            (K.faults out.old) (K.faults out.new) };

    /// Writes its ballots.
    fn export<K: Sink>(&self, alloc: Global, out: &mut K) -> Result<(), PutFault>
        ensures all { OnOk result (TakesAll (K.taken out.old)
            (export_text (election self.now) (ballots self.now)) (K.taken out.new)) }
        ensures some { OnErr result (TakesSome (K.taken out.old)
            (export_text (election self.now) (ballots self.now)) (K.taken out.new)) }
        ensures fault { CountsFaultIf (result ≡ Err PutFault.WriteFault)
            (K.faults out.old) (K.faults out.new) };

    /// A close is replied, and acknowledges nothing.
    ghost closes_acknowledge_nothing: { (e : elections.Election) → AcknowledgesNothing (closes e) };
}

/// The disks on which a store is acknowledged, as one thing.
pub trait Disks<S: Store> {
    /// What each of them is, and what of a set it holds.
    ghost disks: { StoreDisks Self };

    /// That calls lead from one state to another. What it says is for each kind of disks to choose.
    ghost leads_to: { Self → Self → Type 0 };

    /// The same where the last call failed, and none before it.
    ghost fails_to: { Self → Self → Type 0 };

    /// Makes them the media of the set that a store holds.
    fn acknowledge(&mut self, store: &S, scratch: &mut Scratch) -> Result<(), Failed>
        requires media { (set : List Ballot) × AreMedia disks (S.election store.now) set self.old }
        ensures done { OnOk result
            (AreCheckpointed disks (S.election store.now) (S.ballots store.now) self.old self.new) }
        ensures failed { OnErr result
            (FailsCheckpoint disks (S.election store.now) (S.ballots store.now) self.old self.new) }
        ensures leads { leads_to self.old self.new }
        ensures fails { OnErr result (fails_to self.old self.new) };

    /// How many calls the first of them has seen.
    fn made(&self) -> u64
        ensures { result ≡ (first_of disks).calls self.now };

    /// How many numbers stand beside a mark of the first of them, where two disks were paired with such counts of
    /// calls, or none were.
    fn width(&self, begun: Option<(u64, u64)>) -> usize
        ensures { result ≡ row_width disks begun };

    /// Puts the calls of the further disks, which stand beside a mark that was made now, into a row that has the
    /// room.
    fn beside(&self, begun: Option<(u64, u64)>, mark: u64, row: &mut Vec<u64>)
        requires nothing { row.old.items ≡ [] }
        requires room { row_width disks begun ≤ vec_capacity row.old }
        ensures { row.new.items ≡ row_beside disks self.now begun mark };

    /// Where no call is made, the state leads to itself.
    ghost leads_to_itself: { (now : Self) → leads_to now now };

    /// Calls that follow others lead on from where those led.
    ghost leads_on: { (old mid new : Self) → leads_to old mid → leads_to mid new
        → leads_to old new };

    /// A call that failed behind calls of which none did is one that failed from where those began.
    ghost fails_on: { (old mid new : Self) → leads_to old mid → AreSteady disks old mid
        → fails_to mid new → fails_to old new };
}
