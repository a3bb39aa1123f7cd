//! The close of a phase: what waited is handled, and each item is answered.

ghost use Rattle.std.specs.Prelude.{◌≡◌, ◌++◌, IfOk, codes, string_bytes};
ghost use Rattle.phase_gate.specs.Replies.{ClosesBy, words_of};
ghost use Rattle.phase_gate.specs.Standing.{MayWait};
ghost use Rattle.phase_gate.specs.Writing.{written_of};
ghost use Rattle.phase_gate.specs.Waiting.{AreListsOf, phase_of};
ghost use Rattle.store_spec.specs.Session.{all_reply_lines, closing, counted, of_one_store};

use crate::replies::Replies;
use crate::text::write_closing;
use crate::waiting::Waiting;
use crate::writing::Writing;
use body_store::Closed;
use outside_io::{Memory, Turns};
use phase_play::{play_casting, play_finding, play_withdrawing};
use std::alloc::Global;
use std::thread::Threads;

/// Plays a phase of one closed store to its close. It gives the store after it, and a reply to each item that waited.
pub fn play_phase<R: Threads + Sync, T: Turns>(
    rt: &R,
    alloc: Global,
    store: Closed,
    waiting: Waiting,
    turns: &T,
) -> Result<(Closed, Replies), Memory>
    requires waiting { MayWait store.election (phase_of waiting) }
    requires lists { AreListsOf store.election waiting }
    ensures election { IfOk result (λ played. played.0.election ≡ store.election) }
    ensures closes { IfOk result (λ played. ClosesBy (of_one_store store.election) store.ballots (phase_of waiting)
        (closing (words_of played.1) played.0.ballots)) }
{
    match waiting {
        Waiting::Casting(lists) => {
            let (after, finals) = play_casting(rt, alloc, store, lists, turns)?;
            Ok((after, Replies::Cast(finals)))
        }
        Waiting::Withdrawing(lists) => {
            let (after, answers) = play_withdrawing(rt, alloc, store, lists, turns)?;
            Ok((after, Replies::Withdrawn(answers)))
        }
        Waiting::Finding(lists) => {
            let found = play_finding(rt, alloc, &store, &lists, turns)?;
            Ok((store, Replies::Found(found)))
        }
    }
}

/// Tells the replies to a phase, and how many ballots are held after it.
pub fn tell_replies(
    text: &mut String,
    writing: Writing,
    replies: &Replies,
    held: usize,
) -> Result<(), Memory>
    ensures { IfOk result (λ _. string_bytes text.new ≡ string_bytes text.old
        ++ written_of writing (all_reply_lines 1 (words_of replies.now) ++ counted (codes "closed") held)) }
{
    match replies {
        Replies::Cast(finals) => write_closing(text, writing, finals, held),
        Replies::Withdrawn(answers) => write_closing(text, writing, answers, held),
        Replies::Found(found) => write_closing(text, writing, found, held),
    }
}
