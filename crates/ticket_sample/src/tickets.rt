//! The ticket of a ballot number.

ghost use Rattle.std.specs.Prelude.{◌≡◌};
ghost use Rattle.ticket_sample.specs.Ticket.{ticket_of};

use sha2::{Digest, Sha256};

/// How many bytes a ticket has.
pub const TICKET_BYTES: usize = 32;

/// The ticket that a ballot number has under some dice: the SHA-256 digest of the dice and then of the number's eight
/// bytes, the most significant first.
#[tactic(auto, unfolding(crate::specs::Ticket::ticket_of))]
pub fn ticket(dice: &[u8], number: u64) -> [u8; TICKET_BYTES]
    ensures { result ≡ ticket_of dice.now number }
{
    let mut hasher = Sha256::new();
    hasher.update(dice);
    hasher.update(&number.to_be_bytes());
    hasher.finalize()
}
