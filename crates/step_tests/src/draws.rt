//! What tests draw from seeds: numbers on few homes, and whose turn it is.

ghost use Rattle.std.specs.Prelude.{◌≡◌, ◌≢◌, ◌+◌, ◌*◌, ◌<◌, ◌≤◌, All, AllPairs, IfOk, length};

use outside_io::Memory;
use probe_order::Salted;
use std::alloc::Global;

pub const LISTS: usize = 8;

/// All numbers have one of four homes.
pub const FEW_HOMES: Salted = Salted {
    bits: 2,
    salt: 0x5eed,
};

/// A number below `below`, which is drawn from a seed.
pub fn drawn(seed: &mut u64, below: usize) -> usize
    requires { 0 < below }
    ensures { result < below }
{
    *seed ^= *seed << 13;
    *seed ^= *seed >> 7;
    *seed ^= *seed << 17;
    (*seed >> 32) as usize % below
}

/// The number at this place of three hundred.
pub fn number_at(place: usize) -> u64
    requires { place < 300 }
    ensures { result ≡ 7 + place * 20015998343868 }
{
    7 + place as u64 * 0x1234_5678_9abc
}

/// The numbers among three hundred that none of the lists has.
pub fn numbers_without(alloc: Global, lists: &[Vec<u64>]) -> Result<Vec<u64>, Memory>
    ensures few { IfOk result (λ v. length v.items ≤ 300) }
    ensures some { IfOk result (λ v. All (λ x. x ≢ 0) v.items) }
    ensures distinct { IfOk result (λ v. AllPairs (λ a b. a ≢ b) v.items) }
{
    let mut numbers = Vec::new(alloc);
    for k in 0..300 {
        let number = number_at(k);
        if !is_listed(lists, number) {
            numbers.push(number)?;
        }
    }
    Ok(numbers)
}

fn is_listed(lists: &[Vec<u64>], number: u64) -> bool {
    lists.iter().any(|list| list.contains(&number))
}
