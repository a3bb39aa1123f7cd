//! Which line of the generated script does what.

ghost use Rattle.std.specs.Prelude.{◌≡◌, ◌-◌, ◌≤◌, slice_get};
ghost use Rattle.script_lines.specs.Parts.{casting_parts, closing_parts, withdrawing_parts};

/// What a line of the generated script does.
#[derive(Clone, Copy, Debug, PartialEq, Eq)]
pub enum Part {
    /// The casting phase opens.
    OpenCasting,
    /// This ballot is cast, counted from 1.
    Cast(u32),
    /// The withdrawing phase opens.
    OpenWithdrawing,
    /// This one of the tenth ballots is withdrawn, counted from 1.
    Withdraw(u32),
    /// The phase closes.
    Close,
    /// What is held goes to the medium.
    Checkpoint,
    /// What is held is counted.
    Tally,
}

/// The part behind so many parts of the end.
fn closing_part(before: u64) -> Option<Part>
    ensures { result ≡ slice_get closing_parts before }
{
    match before {
        0 => Some(Part::Close),
        1 => Some(Part::Checkpoint),
        2 => Some(Part::Tally),
        _ => None,
    }
}

/// The part behind so many of those that follow the ballots, where so many are withdrawn.
fn withdrawing_part(before: u64, tenths: u32) -> Option<Part>
    ensures { result ≡ slice_get (withdrawing_parts tenths) before }
{
    if before == 0 {
        return Some(Part::Close);
    }
    if before == 1 {
        return Some(Part::OpenWithdrawing);
    }
    let before = before - 2;
    if before < u64::from(tenths) {
        Some(Part::Withdraw(before as u32 + 1))
    } else {
        closing_part(before - u64::from(tenths))
    }
}

/// What line `index` does, counted from 1, in a script of so many ballots. `None` is past its end.
pub fn part_at(index: u64, ballots: u32) -> Option<Part>
    requires { 1 ≤ index }
    ensures { result ≡ slice_get (casting_parts ballots) (index - 1) }
{
    if index == 1 {
        return Some(Part::OpenCasting);
    }
    let before = index - 2;
    if before < u64::from(ballots) {
        Some(Part::Cast(before as u32 + 1))
    } else {
        withdrawing_part(before - u64::from(ballots), ballots / 10)
    }
}
