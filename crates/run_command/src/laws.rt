//! Laws of what a run promises.

ghost use Rattle.std.specs.Prelude.{◌≡◌, ◌⊎◌, ℕ, List, IsSome};
ghost use Rattle.run_command.specs.Command.{Forms, row};
ghost use Rattle.run_command.specs.ElectionText.{GivesElection};
ghost use Rattle.run_command.specs.Outcome.{Ends};
ghost use Rattle.run_command.specs.declared.command.Command.{Command};
ghost use Rattle.outside_io.specs.Outside.{Input};
ghost use Rattle.run_outcome.specs.Row.{Content, NothingFailed, Tells};
ghost use Rattle.run_outcome.specs.Status.{IsDecided};
ghost use Rattle.run_outcome.specs.World.{IsSteady, Reported, World};
ghost use Rattle.run_outcome.specs.declared.status.Status.{Status};
ghost use Rattle.run_outcome.specs.declared.status.Status.TheVariants as statuses;
ghost use Rattle.store_spec.specs.Disk.{disk_model};
ghost use Rattle.store_spec.specs.Election.{Election};

use crash_disk::Disk;
use outside_io::{Sink, Source};

/// Words form one command at most.
pub fn one_command()
    ensures { (words : List (List ℕ)) (a b : Command) → Forms words a → Forms words b → a ≡ b }
{}

/// Where the election's source tells its bytes, and so does what the command touches beside it, the words and what stands
/// outside before the run decide how it ends, but for faults and want of memory: each other status comes exactly where its
/// outcome says.
pub fn one_answer<E: Source, S: Source, K: Sink, D: Disk>()
    ensures { (words : List (List ℕ)) (a b : Status) (p q : Reported) (old a_new b_new : Input E)
        (before a_after b_after : World S K D) → IsSome old.left
        → ((command : Command) → Forms words command → (content : Content)
        × Tells (disk_model D.seen D.calls D.may_leave D.faults) (row command).touches before content)
        → Ends (disk_model D.seen D.calls D.may_leave D.faults) words a p old a_new before a_after
        → Ends (disk_model D.seen D.calls D.may_leave D.faults) words b q old b_new before b_after
        → IsDecided a → IsDecided b → a ≡ b }
{}

/// Where nothing stands against a command, it is carried out, or there was no memory: the words form it, the election's
/// source describes an election within its limit, what else the command reads is what it needs, and no count of faults
/// rose. So a session on a medium that holds a set answers `Ok` or `Memory`, and an audit of it also `NotCanonical`,
/// exactly where the medium is not that of the set.
pub fn a_served_command_is_carried_out<E: Source, S: Source, K: Sink, D: Disk>()
    ensures { (words : List (List ℕ)) (command : Command) (e : Election) (content : Content) (status : Status)
        (report : Reported) (old new : Input E) (before after : World S K D)
        → Ends (disk_model D.seen D.calls D.may_leave D.faults) words status report old new before after
        → Forms words command → GivesElection old e
        → Tells (disk_model D.seen D.calls D.may_leave D.faults) (row command).touches before content
        → (row command).served e content → IsSteady old.faults new.faults
        → NothingFailed (disk_model D.seen D.calls D.may_leave D.faults) (row command).touches before after
        → (row command).done e content status ⊎ (status ≡ statuses.Memory) }
{}
