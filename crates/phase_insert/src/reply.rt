//! The replies to a ballot, when it is cast and when its phase closes.

ghost use Rattle.phase_insert.specs.Closing.{reply_of};
ghost use Rattle.store_spec.specs.Session.{cast_text};

use reply_lines::Reply;

/// What a ballot is answered as soon as it is cast.
#[derive(Clone, Copy, Debug, PartialEq, Eq)]
pub enum CastReply {
    /// Its number was claimed here.
    Accepted,
    /// The same ballot was held at the opening of the phase.
    Duplicate,
    /// Another ballot with its number was held at the opening of the phase.
    Conflict,
    /// Its number was claimed before in this phase, for this ballot or for another one.
    Taken,
    /// There was no room for it.
    Full,
}

/// What a ballot is answered at the close of its phase.
#[derive(Clone, Copy, Debug, PartialEq, Eq)]
pub enum Final {
    /// It is accepted here.
    Accepted,
    /// The same ballot is in the set without it.
    Duplicate,
    /// Another ballot with its number is in the set.
    Conflict,
    /// There was no room for it.
    Full,
}

impl Reply for Final {
    ghost word = { λ reply. cast_text (reply_of reply) };

    fn word(&self) -> &'static str {
        match self {
            Final::Accepted => "accepted",
            Final::Duplicate => "duplicate",
            Final::Conflict => "conflict",
            Final::Full => "full",
        }
    }
}
