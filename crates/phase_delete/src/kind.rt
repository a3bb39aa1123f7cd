//! Withdrawing as a kind of phase: its workers are withdrawers, which withdraw numbers.

ghost use Rattle.std.specs.Prelude.{◌≡◌, IfOk, map};

use crate::removing::withdraw;
use body_store::Closed;
use outside_io::Memory;
use phase_kind::{Kind, PhaseOf, Tray, Worker};
use std::alloc::Global;
use step_core::{Shape, WithdrawReply};
use word_rule::{WithdrawSeat, WithdrawSight, WithdrawWords};

/// The kind of phase in which numbers are withdrawn.
#[derive(Drop)]
pub struct Withdrawing;

/// A withdrawing phase.
pub type WithdrawPhase = PhaseOf<Withdrawing>;

/// A withdrawer: a worker that withdraws numbers.
pub type Withdrawer = Worker<Withdrawing>;

impl Kind for Withdrawing {
    ghost use Rattle.std.specs.Prelude.{◌≡◌, ◌-◌, All, IfOk, OnErr, OnOk, length, map, vec_capacity};
    ghost use Rattle.body_store.specs.Contents.{IsStored};
    ghost use Rattle.phase_kind.specs.Phase.{AreWordsOfStore};
    ghost use Rattle.phase_kind.specs.AnsweredItem.{answered_items};
    ghost use Rattle.phase_kind.specs.Worker.{AreLeft};
    ghost use Rattle.store_spec.specs.WithdrawStep.{fresh_withdraw_view};
    ghost use Rattle.word_rule.specs.WithdrawSeats.{IsAtRest};
    ghost use Rattle.phase_delete.specs.Closing.{ClosesAs};
    ghost use Rattle.phase_delete.specs.Replies.{IsReply, claims_none};
    ghost use Rattle.phase_delete.specs.Tray.{IsTrayOf};

    type Sight = WithdrawSight;

    type Words = WithdrawWords;

    type Seat = WithdrawSeat;

    type Item = u64;

    type List = Vec<u64>;

    type Reply = WithdrawReply;

    type Final = WithdrawReply;

    ghost seen = { λ words. words };

    ghost standing = { λ seat. seat };

    ghost fresh = { fresh_withdraw_view };

    ghost rests = { IsAtRest };

    ghost items = { λ list. list.items };

    ghost number = { λ number. number };

    ghost room = { λ list. vec_capacity list - length list.items };

    ghost is_of = { λ store list. Unit {0} };

    ghost may_claim = { claims_none };

    ghost answers = { IsReply };

    ghost tells = { IsTrayOf };

    ghost closes = { ClosesAs };

    fn new_list(alloc: Global, _closed: &Closed, places: usize) -> Result<Vec<u64>, Memory> {
        Ok(Vec::with_capacity(alloc, places)?)
    }

    fn len(list: &Vec<u64>) -> usize {
        list.len()
    }

    fn push_from(list: &mut Vec<u64>, from: &Vec<u64>, place: usize) {
        list.push_reserved(from[place]);
    }

    fn number(list: &Vec<u64>, place: usize) -> u64 {
        list[place]
    }

    fn claims(_closed: &Closed) -> usize {
        0
    }

    fn prepare(_closed: &mut Closed) -> Result<(), Memory> {
        Ok(())
    }

    fn begin(
        alloc: Global,
        closed: &Closed,
        shape: Shape,
        seats: usize,
    ) -> Result<(WithdrawWords, Vec<WithdrawSeat>), Memory> {
        let (words, seats) = WithdrawWords::new(alloc, shape, closed.cells(), seats)?;
        Ok((words, seats))
    }

    fn peek(words: &WithdrawWords, cell: usize) -> u64 {
        words.peek(cell)
    }

    fn reply(
        closed: &Closed,
        shape: &Shape,
        words: &WithdrawWords,
        seat: &mut WithdrawSeat,
        list: &Vec<u64>,
        place: usize,
    ) -> WithdrawReply {
        withdraw(closed, shape, words, seat, list[place])
    }

    fn end(
        alloc: Global,
        closed: &mut Closed,
        words: WithdrawWords,
        seats: Vec<WithdrawSeat>,
        trays: Vec<Tray<Vec<u64>, WithdrawReply>>,
    ) -> Result<Vec<Vec<WithdrawReply>>, Memory>
        requires stored { IsStored closed.old }
        requires own { AreWordsOfStore claims_none closed.old words }
        requires left { AreLeft IsTrayOf (record { base = closed.old; words = words })
            (map (λ seat. seat) seats.items)
            (map (λ tray. answered_items tray.items.items tray.replies.items) trays.items) }
        requires paired { All (λ tray. length tray.items.items ≡ length tray.replies.items)
            trays.items }
        ensures election { OnOk result (closed.new.election ≡ closed.old.election) }
        ensures stored { OnOk result (IsStored closed.new) }
        ensures closes { IfOk result (λ finals. ClosesAs closed.old
            (map (λ tray. answered_items tray.items.items tray.replies.items) trays.items)
            (map (λ list. list.items) finals.items) closed.new.ballots) }
        ensures unchanged { OnErr result (closed.new ≡ closed.old) }
    {
        let changes = words.close(
            alloc,
            seats,
            closed.cells(),
            lines_in(&trays).min(closed.len()),
        )?;
        let replies = all_replies(alloc, trays)?;
        closed.without(alloc, changes)?;
        Ok(replies)
    }

    fn trays_tell() {}
}

/// How many lines trays have.
fn lines_in(trays: &[Tray<Vec<u64>, WithdrawReply>]) -> usize {
    let mut count: usize = 0;
    for tray in trays {
        count = count.saturating_add(tray.replies.len());
    }
    count
}

/// The replies of trays.
fn all_replies(
    alloc: Global,
    trays: Vec<Tray<Vec<u64>, WithdrawReply>>,
) -> Result<Vec<Vec<WithdrawReply>>, Memory>
    ensures { IfOk result (λ replies. map (λ list. list.items) replies.items
        ≡ map (λ tray. tray.replies.items) trays.items) }
{
    let mut replies = Vec::with_capacity(alloc, trays.len())?;
    for tray in trays {
        let Tray {
            items: _,
            replies: told,
        } = tray;
        replies.push(told)?;
    }
    Ok(replies)
}
