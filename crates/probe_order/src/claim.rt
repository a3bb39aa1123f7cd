//! The order in which the claim words of a number are tried.

ghost use Rattle.std.specs.Prelude.{◌≡◌, ◌+◌, ◌%◌, ◌<◌};
ghost use Rattle.store_spec.specs.CastStep.{claim_place};

/// The claim word that is tried for a number after so many others: one of its own at first, and on from there, round
/// the array.
pub fn claim_place(number: u64, tries: usize, length: usize) -> usize
    requires { tries < length }
    ensures place { result ≡ claim_place number tries length }
    ensures within { result < length }
{
    claim_place_from(first_claim_place(number, length), tries, length)
}

/// The claim word that is tried first for a number.
pub fn first_claim_place(number: u64, length: usize) -> usize
    requires { 0 < length }
    ensures { result ≡ number % length }
{
    (number % length as u64) as usize
}

/// The claim word that is tried after so many others, where this one was the first.
pub fn claim_place_from(first: usize, tries: usize, length: usize) -> usize
    requires first { first < length }
    requires tries { tries < length }
    ensures place { result ≡ (first + tries) % length }
    ensures within { result < length }
{
    let behind = length - first;
    if tries < behind {
        first + tries
    } else {
        tries - behind
    }
}
