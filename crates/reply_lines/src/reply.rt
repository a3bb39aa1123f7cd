//! The word of each reply.

ghost use Rattle.std.specs.Prelude.{◌≡◌, ◌≤◌, List, length, ℕ};
ghost use Rattle.reply_lines.specs.Words.{met_text};
ghost use Rattle.step_core.specs.CastCore.{met_of};
ghost use Rattle.step_core.specs.WithdrawCore.{reply_of};
ghost use Rattle.store_spec.specs.Session.{find_text, withdraw_text};

use crate::lines::MAX_WORD;
use step_core::{CastMet, WithdrawReply};

/// A reply with a word of its own.
pub trait Reply {
    /// The word.
    ghost word: { Self → List ℕ };

    /// The word.
    fn word(&self) -> &'static str
        ensures word { result.now ≡ word self.now }
        ensures short { length result.now ≤ MAX_WORD };
}

impl Reply for CastMet {
    ghost word = { λ met. met_text (met_of met) };

    fn word(&self) -> &'static str {
        match self {
            CastMet::Held => "held",
            CastMet::Accepted => "accepted",
            CastMet::Taken => "taken",
            CastMet::Full => "full",
        }
    }
}

impl Reply for WithdrawReply {
    ghost word = { λ reply. withdraw_text (reply_of reply) };

    fn word(&self) -> &'static str {
        match self {
            WithdrawReply::Withdrawn => "withdrawn",
            WithdrawReply::Gone => "gone",
            WithdrawReply::Absent => "absent",
        }
    }
}

/// Whether a number is held.
impl Reply for bool {
    ghost word = { find_text };

    fn word(&self) -> &'static str {
        if *self { "present" } else { "absent" }
    }
}
