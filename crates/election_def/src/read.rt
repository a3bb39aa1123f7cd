//! The reading of an election from its JSON text.

ghost use Rattle.std.specs.Prelude.{◌≡◌, ◌<◌, ◌≤◌, ℕ, List, length, Err, IfOk, OnOk};
ghost use Rattle.serde_json.specs.View.{view};
ghost use Rattle.store_spec.specs.Election as definition;
ghost use Rattle.ballot_record.specs.Contest.{contests_of};
ghost use Rattle.election_def.specs.Text.{IsArrayOf, IsContestIn, IsStyleIn, IsElectionIn, Describes, IsElectionText};

use crate::ElectionFault;
use crate::parts::{contest, has_no_key_but, number_by_key, salt, style, version};
use ballot_record::{Contest, Election, MAX_BITS, MAX_CONTESTS, MAX_LIMIT, most_choices};
use serde_json::Value;
use std::alloc::Global;

const ELECTION_KEYS: [&str; 6] = ["version", "contests", "styles", "limit", "bits", "salt"];

/// The contests of so many choices at most that an array describes.
fn contests(alloc: Global, value: &Value, most: u8) -> Result<Vec<Contest>, ElectionFault>
    ensures contests { IfOk result
        (λ v. IsArrayOf (IsContestIn most) (contests_of v.items) (view value.now)) }
    ensures refused { result ≡ Err ElectionFault.NotElection
        → (cs : List definition.Contest) → ¬ IsArrayOf (IsContestIn most) cs (view value.now) }
{
    let Some(items) = value.as_array() else {
        return Err(ElectionFault::NotElection);
    };
    let mut contests = Vec::new(alloc);
    for item in items {
        let Some(contest) = contest(item, most) else {
            return Err(ElectionFault::NotElection);
        };
        contests.push(contest)?;
    }
    Ok(contests)
}

/// The styles over so many contests that an array describes.
fn styles(alloc: Global, value: &Value, count: usize) -> Result<Vec<u32>, ElectionFault>
    requires { count ≤ MAX_CONTESTS }
    ensures styles { IfOk result (λ v. IsArrayOf (IsStyleIn count) v.items (view value.now)) }
    ensures refused { result ≡ Err ElectionFault.NotElection
        → (ss : List ℕ) → ¬ IsArrayOf (IsStyleIn count) ss (view value.now) }
{
    let Some(items) = value.as_array() else {
        return Err(ElectionFault::NotElection);
    };
    let mut styles = Vec::new(alloc);
    for item in items {
        let Some(style) = style(item, count) else {
            return Err(ElectionFault::NotElection);
        };
        styles.push(style)?;
    }
    Ok(styles)
}

/// The election that a value describes.
fn election_in(alloc: Global, value: &Value) -> Result<Election, ElectionFault>
    ensures election { IfOk result (λ e. IsElectionIn (view value.now) e) }
    ensures refused { result ≡ Err ElectionFault.NotElection
        → (e : definition.Election) → ¬ IsElectionIn (view value.now) e }
{
    if !has_no_key_but(value, &ELECTION_KEYS) {
        return Err(ElectionFault::NotElection);
    }
    let version = version(value).ok_or(ElectionFault::NotElection)?;
    let contests_value = value.get("contests").ok_or(ElectionFault::NotElection)?;
    let contests = contests(alloc, contests_value, most_choices(version))?;
    if contests.len() > MAX_CONTESTS {
        return Err(ElectionFault::NotElection);
    }
    let styles_value = value.get("styles").ok_or(ElectionFault::NotElection)?;
    let styles = styles(alloc, styles_value, contests.len())?;
    let limit = number_by_key(value, "limit", MAX_LIMIT as u64).ok_or(ElectionFault::NotElection)?;
    let bits = number_by_key(value, "bits", MAX_BITS as u64).ok_or(ElectionFault::NotElection)?;
    let salt_text = value
        .get("salt")
        .and_then(Value::as_str)
        .ok_or(ElectionFault::NotElection)?;
    let salt = salt(salt_text).ok_or(ElectionFault::NotElection)?;
    Election::from_parts(version, &contests, &styles, limit as u32, bits as u8, salt).ok_or(
        ElectionFault::NotElection,
    )
}

/// The election that the bytes describe. `NotElection` comes exactly where they describe none, but for want of memory,
/// which may come in place of any answer.
pub fn read_election(alloc: Global, bytes: &[u8]) -> Result<Election, ElectionFault>
    ensures election { IfOk result (λ e. Describes bytes.now e) }
    ensures refused { result ≡ Err ElectionFault.NotElection → ¬ IsElectionText bytes.now }
{
    let Ok(text) = str::from_utf8(bytes) else {
        return Err(ElectionFault::NotElection);
    };
    let value = Value::from_str(alloc, text)?;
    election_in(alloc, &value)
}
