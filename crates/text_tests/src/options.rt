//! The options of a large run, as read from words.

use large_options::{Options, are_options, options_of};
use std::alloc::{AllocError, Global};
use std::test::Fail;

/// The words of a line.
fn words_of(alloc: Global, line: &str) -> Result<Vec<String>, AllocError> {
    let mut words = Vec::new(alloc);
    for word in line.split(' ') {
        words.push(String::from_str(alloc, word)?)?;
    }
    Ok(words)
}

/// The options of a line, in each order, and at each end of their ranges.
const GOOD: [(&str, u32, u32, u32); 11] = [
    ("--seed 1 --count 20000 --tabs 8", 1, 20_000, 8),
    ("--seed 1 --tabs 8 --count 20000", 1, 20_000, 8),
    ("--count 20000 --seed 1 --tabs 8", 1, 20_000, 8),
    ("--count 20000 --tabs 8 --seed 1", 1, 20_000, 8),
    ("--tabs 8 --seed 1 --count 20000", 1, 20_000, 8),
    ("--tabs 8 --count 20000 --seed 1", 1, 20_000, 8),
    (
        "--seed 4294967295 --count 32768 --tabs 64",
        4_294_967_295,
        32_768,
        64,
    ),
    ("--seed 1 --count 1 --tabs 1", 1, 1, 1),
    ("--tabs 10 --count 100 --seed 1000", 1_000, 100, 10),
    ("--count 5 --tabs 5 --seed 5", 5, 5, 5),
    ("--seed 2 --count 3 --tabs 4", 2, 3, 4),
];

#[test]
fn good_words(rt: HostRuntime) -> Result<(), Fail> {
    for (line, seed, count, tabs) in GOOD.iter() {
        let words = words_of(rt.alloc(), line)?;
        assert!(rt; are_options(&words), "{line}");
        let options = Options {
            seed: *seed,
            count: *count,
            tabs: *tabs,
        };
        assert_eq!(rt; options_of(rt.alloc(), &words), Ok(options), "{line}");
    }
    Ok(())
}
