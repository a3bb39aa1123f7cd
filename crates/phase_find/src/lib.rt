//! Finding: the ballots of a closed store, looked up by their numbers.
#![tactic(auto)]

mod running;

ghost use Rattle.ballot_record.specs.Record.{ballot};
ghost use Rattle.std.specs.Prelude.{◌≡◌, option_map};
ghost use Rattle.store_spec.specs.Ballot.{ballot_of};

use ballot_record::Record;
use body_store::Closed;
pub use running::{is_held, run_find};

/// The ballot with this number. `None` where none is held, as for 0.
pub fn find(closed: &Closed, number: u64) -> Option<Record>
    ensures { option_map ballot result ≡ ballot_of closed.now.ballots number }
{
    closed.record_of(number)
}
