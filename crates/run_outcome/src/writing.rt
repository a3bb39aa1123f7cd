//! What a command writes to its sink, with its status where that fails.

ghost use Rattle.std.specs.Prelude.{◌≡◌, IfErr, OnErr, OnOk};
ghost use Rattle.outside_io.specs.Stream.{TakesAll, TakesSome};
ghost use Rattle.run_outcome.specs.declared.status.Status.TheVariants as statuses;
ghost use Rattle.store_spec.specs.Fault.{CountsFault};

use crate::status::Status;
use outside_io::Sink;

/// Writes to the sink.
pub fn write_out<K: Sink>(out: &mut K, text: &[u8]) -> Result<(), Status>
    ensures all { OnOk result (TakesAll (K.taken out.old) text.now (K.taken out.new)) }
    ensures some { OnErr result (TakesSome (K.taken out.old) text.now (K.taken out.new)) }
    ensures failed { IfErr result (λ status. status ≡ statuses.WriteFault) }
    ensures fault { CountsFault result (K.faults out.old) (K.faults out.new) }
{
    match out.write_all(text) {
        Ok(()) => Ok(()),
        Err(_) => Err(Status::WriteFault),
    }
}
