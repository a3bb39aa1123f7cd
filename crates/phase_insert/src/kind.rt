//! Casting as a kind of phase: its workers are tabulators, which cast ballots.

ghost use Rattle.phase_insert.specs.CastPhase.{claims_left};
ghost use Rattle.std.specs.Prelude.{◌≡◌, ◌≤◌, IfOk};
ghost use Rattle.store_spec.specs.CastStep.{fresh_cast_view};
ghost use Rattle.store_spec.specs.Election.{most_cells};
ghost use Rattle.store_spec.specs.Image.{cells_of};
ghost use Rattle.word_rule.specs.Places.{AreAll, AreMadeOf};
ghost use Rattle.word_rule.specs.Stores.{IsShapeOf};

use crate::claiming::claim;
use crate::closing::{add_accepted, casts_in, room_for_finals};
use crate::{CastReply, Final};
use ballot_record::BallotList;
use body_store::Closed;
use outside_io::Memory;
use phase_kind::{Kind, PhaseOf, Tray, Worker};
use std::alloc::Global;
use std::collections::LinkedList;
use std::marker::Model;
use step_core::Shape;
use word_rule::{CastSeat, CastSight, CastWords};

/// The kind of phase in which ballots are cast.
#[derive(Drop)]
pub struct Casting;

/// A casting phase.
pub type CastPhase = PhaseOf<Casting>;

/// A tabulator: a worker that casts ballots.
pub type Tabulator = Worker<Casting>;

/// Ballots that were cast, and at the place of each what it was answered.
pub type CastTray = Tray<BallotList, CastReply>;

/// A ballot, as contracts see what a tabulator casts. No value of it is made.
pub struct CastBallot {
    number: u64,
    style: u64,
    marks: LinkedList<u64>,
}

impl Model for CastBallot {
    ghost use Rattle.store_spec.specs.Ballot.{Ballot};

    ghost Value = { Ballot };

    ghost view = { λ b. record { number = b.number; style = b.style; marks = b.marks } };
}

impl Kind for Casting {
    ghost use Rattle.std.specs.Prelude.{◌≡◌, All, IfOk, OnErr, OnOk, map};
    ghost use Rattle.body_store.specs.Contents.{IsStored};
    ghost use Rattle.phase_insert.specs.Tray.{IsTrayOf, IsTrayPaired, casts_of};
    ghost use Rattle.phase_kind.specs.Phase.{AreWordsOfStore};
    ghost use Rattle.phase_kind.specs.Worker.{AreLeft};
    ghost use Rattle.store_spec.specs.CastStep.{fresh_cast_view};
    ghost use Rattle.word_rule.specs.CastSeats.{IsAtRest};
    ghost use Rattle.phase_insert.specs.CastPhase.{claims_left};
    ghost use Rattle.phase_insert.specs.Closing.{ClosesAs};
    ghost use Rattle.phase_insert.specs.Replies.{IsReply};

    type Sight = CastSight;

    type Words = CastWords;

    type Seat = CastSeat;

    type Item = CastBallot;

    type List = BallotList;

    type Reply = CastReply;

    type Final = Final;

    ghost seen = { λ words. words };

    ghost standing = { λ seat. seat };

    ghost fresh = { fresh_cast_view };

    ghost rests = { IsAtRest };

    ghost items = { λ list. list.ballots };

    ghost number = { λ ballot. ballot.number };

    ghost room = { λ list. list.room };

    ghost is_of = { λ store list. list.election ≡ store.election };

    ghost may_claim = { claims_left };

    ghost answers = { IsReply };

    ghost tells = { IsTrayOf };

    ghost closes = { ClosesAs };

    fn new_list(alloc: Global, closed: &Closed, places: usize) -> Result<BallotList, Memory> {
        BallotList::with_room(alloc, closed.election(), places)
    }

    fn len(list: &BallotList) -> usize {
        list.len()
    }

    fn push_from(list: &mut BallotList, from: &BallotList, place: usize) {
        list.push_from(from, place).unwrap();
    }

    fn number(list: &BallotList, place: usize) -> u64 {
        list.number(place)
    }

    fn claims(closed: &Closed) -> usize {
        closed.election().limit() as usize - closed.len()
    }

    fn prepare(closed: &mut Closed) -> Result<(), Memory> {
        closed.make_words()
    }

    fn begin(
        alloc: Global,
        closed: &Closed,
        shape: Shape,
        seats: usize,
    ) -> Result<(CastWords, Vec<CastSeat>), Memory> {
        begin_words(alloc, closed, shape, seats)
    }

    fn peek(words: &CastWords, cell: usize) -> u64 {
        words.peek(cell)
    }

    fn reply(
        closed: &Closed,
        shape: &Shape,
        words: &CastWords,
        seat: &mut CastSeat,
        list: &BallotList,
        place: usize,
    ) -> CastReply {
        let number = list.number(place);
        let cell = list.cell(place);
        match closed.cell_of(number) {
            Some(held) if held == cell => CastReply::Duplicate,
            Some(_) => CastReply::Conflict,
            None => claim(words, shape.claims, seat, number),
        }
    }

    fn end(
        alloc: Global,
        closed: &mut Closed,
        words: CastWords,
        seats: Vec<CastSeat>,
        trays: Vec<CastTray>,
    ) -> Result<Vec<Vec<Final>>, Memory>
        requires stored { IsStored closed.old }
        requires own { AreWordsOfStore claims_left closed.old words }
        requires left { AreLeft IsTrayOf (record { base = closed.old; words = words })
            (map (λ seat. seat) seats.items) (map casts_of trays.items) }
        requires is_of { All (λ tray. tray.items.election ≡ closed.old.election) trays.items }
        requires paired { All IsTrayPaired trays.items }
        ensures election { OnOk result (closed.new.election ≡ closed.old.election) }
        ensures stored { OnOk result (IsStored closed.new) }
        ensures closes { IfOk result (λ finals. ClosesAs closed.old (map casts_of trays.items)
            (map (λ list. list.items) finals.items) closed.new.ballots) }
        ensures unchanged { OnErr result (closed.new ≡ closed.old) }
    {
        let changes = words.close(alloc, seats, closed.cells(), casts_in(&trays))?;
        let mut finals = room_for_finals(alloc, &trays)?;
        add_accepted(alloc, closed, trays, changes, &mut finals)?;
        Ok(finals)
    }

    fn trays_tell() {}
}

/// The words of a phase over a store. Where it has zeros for all claim words behind its cells, these are not copied.
fn begin_words(
    alloc: Global,
    closed: &Closed,
    shape: Shape,
    seats: usize,
) -> Result<(CastWords, Vec<CastSeat>), Memory>
    requires some_seat { 1 ≤ seats }
    requires shape { IsShapeOf closed.now.election shape }
    requires few_cells { shape.cells ≤ most_cells }
    requires claims { claims_left closed.now shape.claims }
    ensures words { IfOk result
        (λ made. AreMadeOf shape (cells_of closed.now.election closed.now.ballots) seats made.0) }
    ensures seats { IfOk result (λ made. AreAll fresh_cast_view made.0 made.1.items) }
{
    let words = closed.words();
    if words.len() == shape.cells + shape.claims {
        return CastWords::of_words(alloc, shape, words, seats);
    }
    CastWords::new(alloc, shape, closed.cells(), seats)
}
