//! An election: its parts, their limits, and the numbers that its store and its medium are laid out by.

ghost use Rattle.std.specs.Prelude.{◌≡◌, ℕ, ◌+◌, ◌-◌, ◌^◌, ◌<◌, ◌≤◌, ◌++◌, ◌↔◌, length, replicate, All, Some, IsTrue, IsSome, IfSome, slice_get};
ghost use Rattle.store_spec.specs.Election.{IsContest, IsContestUpTo, IsStyle, HasVersionOne, IsElection, as_version_one, choices_of, choices_on, is_on_style, cell_count, most_cells, most_choices, example};
ghost use Rattle.ballot_record.specs.Contest.{contest_of, contests_of, no_contest};
ghost use Rattle.ballot_record.specs.OnStyle.{AreOnStyle, AreTheirs};
ghost use Rattle.ballot_record.specs.Parts.{parts_of, AreContests, AreStyles};

use crate::{Contest, MAX_CONTESTS, most_choices, most_contests};
use probe_order::Salted;
use std::marker::Model;

/// The most ballot styles of an election.
pub const MAX_STYLES: usize = 255;

/// The most ballots that a store may hold.
pub const MAX_LIMIT: u32 = 32768;

/// The most bits of a home.
pub const MAX_BITS: u8 = 16;

/// The last version of elections.
const LAST_VERSION: u16 = 2;

const NO_CONTEST: Contest = Contest {
    choices: 0,
    allowed: 0,
};

/// An election: its contests, its ballot styles, and how its store is laid out. It has no memory of its own.
#[derive(Clone, Copy)]
pub struct Election {
    contests: [Contest; MAX_CONTESTS],
    contest_count: u8,
    styles: [u32; MAX_STYLES],
    style_count: u8,
    limit: u32,
    bits: u8,
    salt: u64,
    version: u16,
}

impl Model for Election {
    ghost use Rattle.store_spec.specs.Election as definition;

    ghost Value = { definition.Election };

    ghost use Rattle.ballot_record.specs.Kept.{election_of, kept_of, IsKept, kept_of-election_of};

    ghost view = { election_of };

    ghost invariant = { IsKept };

    ghost inverse = { kept_of };

    ghost inverse_ok = { kept_of-election_of };
}

fn each_is_valid(contests: &[Contest], most: u8) -> bool
    ensures { IsTrue result
        ↔ All (λ contest. IsContestUpTo most (contest_of contest)) contests.now }
{
    contests.iter().all(|contest| contest.is_valid(most))
}

fn are_contests(contests: &[Contest], most: usize, most_choices: u8) -> bool
    ensures { IsTrue result ↔ AreContests most most_choices (contests_of contests.now) }
{
    let count = contests.len();
    1 <= count && count <= most && each_is_valid(contests, most_choices)
}

fn are_styles(styles: &[u32], contests: usize) -> bool
    requires { contests ≤ MAX_CONTESTS }
    ensures { IsTrue result ↔ AreStyles contests styles.now }
{
    !styles.is_empty()
        && styles.len() <= MAX_STYLES
        && styles
            .iter()
            .all(|style| 1 <= *style && *style < 1 << contests)
}

fn contests_kept(contests: &[Contest]) -> [Contest; MAX_CONTESTS]
    requires { length contests.now ≤ MAX_CONTESTS }
    ensures { result
        ≡ contests.now ++ replicate (MAX_CONTESTS - length contests.now) no_contest }
{
    let mut kept = [NO_CONTEST; MAX_CONTESTS];
    kept[..contests.len()].copy_from_slice(contests);
    kept
}

fn styles_kept(styles: &[u32]) -> [u32; MAX_STYLES]
    requires { length styles.now ≤ MAX_STYLES }
    ensures { result ≡ styles.now ++ replicate (MAX_STYLES - length styles.now) 0 }
{
    let mut kept = [0; MAX_STYLES];
    kept[..styles.len()].copy_from_slice(styles);
    kept
}

impl Election {
    /// The election of these parts. Contests and styles come in the order of their numbers, from 1; in a style bit k - 1
    /// stands for contest k. `None` where the version is neither 1 nor 2, or another rule on elections fails.
    pub fn from_parts(
        version: u16,
        contests: &[Contest],
        styles: &[u32],
        limit: u32,
        bits: u8,
        salt: u64,
    ) -> Option<Election>
        ensures valid { IsSome result
            ↔ IsElection (parts_of version contests.now styles.now limit bits salt) }
        ensures parts { IfSome result
            (λ election. election ≡ parts_of version contests.now styles.now limit bits salt) }
    {
        if version == 0 || version > LAST_VERSION {
            return None;
        }
        if !are_contests(contests, most_contests(version), most_choices(version)) {
            return None;
        }
        if !are_styles(styles, contests.len()) {
            return None;
        }
        if limit == 0 || limit > MAX_LIMIT || bits > MAX_BITS {
            return None;
        }
        Some(Election {
            contests: contests_kept(contests),
            contest_count: contests.len() as u8,
            styles: styles_kept(styles),
            style_count: styles.len() as u8,
            limit,
            bits,
            salt,
            version,
        })
    }

    /// The same parts in version 1. `None` exactly where the version is 1, or there are more contests, or more choices of
    /// a contest, than version 1 allows.
    pub fn as_version_one(&self) -> Option<Election>
        ensures some { IsSome result ↔ HasVersionOne self.now }
        ensures same { IfSome result (λ election. election ≡ as_version_one self.now) }
    {
        if self.version == 1 {
            return None;
        }
        let contests = &self.contests[..self.contests()];
        let styles = &self.styles[..self.styles()];
        Election::from_parts(1, contests, styles, self.limit, self.bits, self.salt)
    }

    /// The example of the documents in version 1: two contests on one style, at most 8 ballots and 8 homes.
    #[tactic(auto, unfolding(store_spec::specs::Election::in_version))]
    pub fn example() -> Election
        ensures { result ≡ example }
    {
        let contests = [
            Contest {
                choices: 4,
                allowed: 1,
            },
            Contest {
                choices: 3,
                allowed: 2,
            },
        ];
        match Election::from_parts(1, &contests, &[0b11], 8, 3, 0) {
            Some(election) => election,
            None => unreachable!(),
        }
    }

    /// Its version, 1 or 2.
    pub fn version(&self) -> u16
        ensures version { result ≡ self.now.version }
        ensures valid { IsElection self.now }
    {
        self.version
    }

    /// How many contests it has.
    pub fn contests(&self) -> usize
        ensures count { result ≡ length self.now.contests }
        ensures at_most { result ≤ MAX_CONTESTS }
        ensures valid { IsElection self.now }
    {
        usize::from(self.contest_count)
    }

    /// Contest `k`, counted from 1.
    pub fn contest(&self, k: usize) -> Contest
        requires first { 1 ≤ k }
        requires last { k ≤ length self.now.contests }
        ensures contest { slice_get self.now.contests (k - 1) ≡ Some (contest_of result) }
        ensures valid { IsContest self.now (contest_of result) }
    {
        let contests = &self.contests;
        contests[k - 1]
    }

    /// How many ballot styles it has.
    pub fn styles(&self) -> usize
        ensures count { result ≡ length self.now.styles }
        ensures valid { IsElection self.now }
    {
        usize::from(self.style_count)
    }

    /// Whether contest `k` is on a style, both counted from 1. It is not where the election lacks one of them.
    pub fn on_style(&self, style: u8, k: usize) -> bool
        ensures on_style { result ≡ is_on_style self.now style k }
        ensures known { IsTrue result → (1 ≤ k) × (k ≤ length self.now.contests) }
    {
        let style = usize::from(style);
        if style == 0 || style > self.styles() || k == 0 || k > self.contests() {
            return false;
        }
        self.styles[style - 1] >> (k - 1) & 1 == 1
    }

    /// The contests on a style: bit k - 1 stands for contest k. It has no bit where the election lacks the style.
    pub fn contests_on(&self, style: u8) -> u32
        ensures these { AreOnStyle self.now style result }
        ensures known { AreTheirs self.now result }
    {
        let style = usize::from(style);
        if style == 0 || style > self.styles() {
            return 0;
        }
        self.styles[style - 1]
    }

    /// How many choices a ballot of a style has in contest `k`: none where the contest is not on the style.
    pub fn choices_on(&self, style: u8, k: usize) -> u8
        ensures choices { result ≡ choices_on self.now style k }
        ensures at_most { result ≤ most_choices self.now }
    {
        if self.on_style(style, k) {
            self.contest(k).choices
        } else {
            0
        }
    }

    /// The most ballots that its store may hold.
    pub fn limit(&self) -> u32
        ensures limit { result ≡ self.now.limit }
        ensures valid { IsElection self.now }
    {
        self.limit
    }

    /// How many bits a home has: there are 2 to this power homes.
    pub fn bits(&self) -> u8
        ensures bits { result ≡ self.now.bits }
        ensures valid { IsElection self.now }
    {
        self.bits
    }

    /// What spreads the homes.
    pub fn salt(&self) -> u64
        ensures { result ≡ self.now.salt }
    {
        self.salt
    }

    /// Where the numbers of its ballots belong.
    pub fn order(&self) -> Salted
        ensures bits { result.bits ≡ self.now.bits }
        ensures salt { result.salt ≡ self.now.salt }
        ensures valid { IsElection self.now }
    {
        Salted {
            bits: self.bits,
            salt: self.salt,
        }
    }

    /// How many cells a bank has.
    pub fn cells(&self) -> usize
        ensures count { result ≡ cell_count self.now }
        ensures at_most { result ≤ most_cells }
    {
        (1 << self.bits) + self.limit as usize
    }
}
