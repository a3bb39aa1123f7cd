//! The parts of an election, read from JSON values.

ghost use Rattle.std.specs.Prelude.{◌≡◌, ◌↔◌, ℕ, ◌<◌, ◌≤◌, ◌^◌, map, string_bytes, bytes_eq, Some, IsTrue, IsSome, IsNone, IfSome};
ghost use Rattle.std.specs.List.{list_any, list_all};
ghost use Rattle.std.specs.Map.{keys_of};
ghost use Rattle.serde_json.specs.View.{view};
ghost use Rattle.store_spec.specs.Election as definition;
ghost use Rattle.ballot_record.specs.Contest.{contest_of};
ghost use Rattle.election_def.specs.Text.{HasNoKeyBut, IsVersionIn, IsContestIn, IsStyleIn, IsSaltText, IsSaltDigit, contest_keys, salt_digit, number_in, number_by_key};

use ballot_record::{Contest, MAX_CONTESTS};
use serde_json::{Map, Value};

const CONTEST_KEYS: [&str; 2] = ["choices", "allowed"];

fn is_among(key: &str, keys: &[&str]) -> bool
    ensures { result ≡ list_any (λ k. bytes_eq k.now key.now) keys.now }
{
    keys.iter().any(|known| *known == key)
}

fn all_among(members: &Map<String, Value>, keys: &[&str]) -> bool
    ensures { result
        ≡ list_all (λ key. list_any (λ k. bytes_eq k.now (string_bytes key)) keys.now)
        (keys_of members.now.entries) }
{
    members.keys().all(|key| is_among(key.as_str(), keys))
}

/// Whether a value has no key but these.
pub fn has_no_key_but(value: &Value, keys: &[&str]) -> bool
    ensures { IsTrue result ↔ HasNoKeyBut (map (λ k. k.now) keys.now) (view value.now) }
{
    match value.as_object() {
        Some(members) => all_among(members, keys),
        None => true,
    }
}

/// The number that a value is, where it is at most so much.
pub fn number(value: &Value, most: u64) -> Option<u64>
    ensures value { IfSome result (λ n. number_in (view value.now) ≡ Some n) }
    ensures at_most { IfSome result (λ n. n ≤ most) }
    ensures refused { IsNone result → (n : ℕ) → number_in (view value.now) ≡ Some n → most < n }
{
    match value.as_u64() {
        Some(n) if n <= most => Some(n),
        _ => None,
    }
}

/// The number at a key of a value, where it is at most so much.
pub fn number_by_key(value: &Value, key: &str, most: u64) -> Option<u64>
    ensures value { IfSome result (λ n. number_by_key key.now (view value.now) ≡ Some n) }
    ensures at_most { IfSome result (λ n. n ≤ most) }
    ensures refused { IsNone result
        → (n : ℕ) → number_by_key key.now (view value.now) ≡ Some n → most < n }
{
    number(value.get(key)?, most)
}

/// The version that the value of an election says, where it is at most `u16::MAX`: 1 where there is no such key.
pub fn version(value: &Value) -> Option<u16>
    ensures value { IfSome result (λ v. IsVersionIn (view value.now) v) }
    ensures refused { IsNone result → (v : ℕ) → IsVersionIn (view value.now) v → 2 ^ 16 ≤ v }
{
    match value.get("version") {
        Some(version) => Some(number(version, u16::MAX as u64)? as u16),
        None => Some(1),
    }
}

/// The contest of so many choices at most that a value describes.
pub fn contest(value: &Value, most: u8) -> Option<Contest>
    ensures value { IfSome result (λ c. IsContestIn most (view value.now) (contest_of c)) }
    ensures refused { IsNone result
        → (c : definition.Contest) → ¬ IsContestIn most (view value.now) c }
{
    if !has_no_key_but(value, &CONTEST_KEYS) {
        return None;
    }
    let choices = number_by_key(value, "choices", most as u64)?;
    let allowed = number_by_key(value, "allowed", choices)?;
    let contest = Contest {
        choices: choices as u8,
        allowed: allowed as u8,
    };
    if contest.is_valid(most) {
        Some(contest)
    } else {
        None
    }
}

/// The style over so many contests that a value describes.
pub fn style(value: &Value, contests: usize) -> Option<u32>
    requires { contests ≤ MAX_CONTESTS }
    ensures value { IfSome result (λ s. IsStyleIn contests (view value.now) s) }
    ensures refused { IsNone result → (s : ℕ) → ¬ IsStyleIn contests (view value.now) s }
{
    let mut style: u32 = 0;
    let mut last = 0;
    for item in value.as_array()? {
        let k = number(item, contests as u64)?;
        if k <= last {
            return None;
        }
        style |= 1 << (k - 1);
        last = k;
    }
    if last == 0 { None } else { Some(style) }
}

fn salt_digit(digit: u8) -> Option<u8>
    ensures digit { IfSome result (λ _. IsSaltDigit digit) }
    ensures value { IfSome result (λ d. d ≡ salt_digit digit) }
    ensures refused { IsNone result → ¬ IsSaltDigit digit }
{
    match digit {
        b'0'..=b'9' => Some(digit - b'0'),
        b'a'..=b'f' => Some(digit - b'a' + 10),
        _ => None,
    }
}

/// The salt that a text spells.
pub fn salt(text: &str) -> Option<u64>
    ensures value { IfSome result (λ s. IsSaltText text.now s) }
    ensures refused { IsNone result → (s : ℕ) → ¬ IsSaltText text.now s }
{
    if text.len() != 16 {
        return None;
    }
    let mut salt: u64 = 0;
    for digit in text.as_bytes() {
        salt = salt * 16 + u64::from(salt_digit(*digit)?);
    }
    Some(salt)
}
