//! What is written of a line, and of the replies of a session.

ghost use Rattle.std.specs.Prelude.{◌≡◌, OnErr, OnOk};
ghost use Rattle.outside_io.specs.Stream.{TakesAll, TakesSome};
ghost use Rattle.phase_gate.specs.InnerSession.{ballots_of, election_of, written_at};
ghost use Rattle.store_spec.specs.Fault.{CountsFaultIf};

use crate::inner::{InnerSession, Task};
use any_store::Store;
use outside_io::Sink;
use std::alloc::Global;
use std::thread::Threads;
use tally_export::PutFault;

/// What a session writes of its replies.
#[derive(Clone, Copy, Debug, PartialEq, Eq)]
pub enum Writing {
    /// All of them.
    All,
    /// Their summary: of their lines those that count what a closed phase, a checkpoint or a tally left.
    Summary,
}

/// Writes a text, where there is one.
pub fn write_text<K: Sink>(text: &str, out: &mut K) -> Result<(), PutFault>
    ensures all { OnOk result (TakesAll (K.taken out.old) text.now (K.taken out.new)) }
    ensures some { OnErr result (TakesSome (K.taken out.old) text.now (K.taken out.new)) }
    ensures fault { CountsFaultIf (result ≡ Err PutFault.WriteFault)
        (K.faults out.old) (K.faults out.new) }
{
    if text.is_empty() {
        return Ok(());
    }
    out.write_all(text.as_bytes())?;
    Ok(())
}

/// Writes the reply to a line, for which this text was put. A report goes straight to the sink.
pub fn write_task<S: Store, R: Threads + Sync, K: Sink>(
    rt: &R,
    alloc: Global,
    task: Task,
    inner: &InnerSession<S>,
    text: &str,
    out: &mut K,
) -> Result<(), PutFault>
    ensures all { OnOk result (TakesAll (K.taken out.old)
        (written_at task (election_of inner.now) (ballots_of inner.now) text.now) (K.taken out.new)) }
    ensures some { OnErr result (TakesSome (K.taken out.old)
        (written_at task (election_of inner.now) (ballots_of inner.now) text.now) (K.taken out.new)) }
    ensures fault { CountsFaultIf (result ≡ Err PutFault.WriteFault)
        (K.faults out.old) (K.faults out.new) }
{
    match task {
        Task::Nothing | Task::Acknowledge => write_text(text, out),
        Task::Tally => inner.store.tally(rt, alloc, out),
        Task::Export => inner.store.export(alloc, out),
    }
}
