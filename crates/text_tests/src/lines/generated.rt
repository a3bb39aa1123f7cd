//! The generated script, line by line and in pieces.

use ballot_record::{Contest, Election};
use outside_io::Source;
use script_lines::{GeneratedScript, large_line};
use std::test::Fail;

/// The whole script of the example election, which holds 8 ballots, where 10 are asked for.
const OF_EXAMPLE: &str = "open cast 2
cast 2 11702685578574552874 1 3/1
cast 1 8330656331007053503 1 4/2
cast 2 4958627083439554132 1 1/3
cast 1 1586597835872054761 1 2/1
cast 2 16661312662014107006 1 3/2
cast 1 13289283414446607635 1 4/3
cast 2 9917254166879108264 1 -/-
cast 1 6545224919311608893 1 2/2
close
open withdraw 2
close
checkpoint
tally
";

/// The whole script of a precinct's election, with 21 ballots at 3 tabulators.
const OF_PRECINCT: &str = "open cast 3
cast 2 16033641046621552640 2 3/4/-
cast 3 12661611799054053269 1 4/5/2
cast 1 9289582551486553898 2 1/6/-
cast 2 5917553303919054527 1 2/7/2
cast 3 2545524056351555156 2 3/8/-
cast 1 17620238882493607401 1 4/9/2
cast 2 14248209634926108030 2 -/-/-
cast 3 10876180387358608659 1 2/2/2
cast 1 7504151139791109288 2 3/3/-
cast 2 4132121892223609917 1 4/4/2
cast 3 760092644656110546 2 1/5/-
cast 1 15834807470798162791 1 2/6/2
cast 2 12462778223230663420 2 3/7/-
cast 3 9090748975663164049 1 -/-/-
cast 1 5718719728095664678 2 1/9/-
cast 2 2346690480528165307 1 2/1/2
cast 3 17421405306670217552 2 3/2/-
cast 1 14049376059102718181 1 4/3/2
cast 2 10677346811535218810 2 1/4/-
cast 3 7305317563967719439 1 2/5/2
cast 1 3933288316400220068 2 -/-/-
close
open withdraw 3
withdraw 2 4132121892223609917
withdraw 3 7305317563967719439
close
checkpoint
tally
";

fn precinct() -> Option<Election> {
    let contests = [
        Contest {
            choices: 4,
            allowed: 1,
        },
        Contest {
            choices: 9,
            allowed: 3,
        },
        Contest {
            choices: 2,
            allowed: 1,
        },
    ];
    Election::from_parts(1, &contests, &[0b111, 0b11], 2000, 11, 0)
}

#[test]
fn lines_one_by_one(rt: HostRuntime) -> Result<(), Fail> {
    let mut line = Vec::new(rt.alloc());
    let mut lines = OF_EXAMPLE.lines();
    for index in 1..=14 {
        let some = large_line(1, 10, 2, index, &Election::example(), &mut line)?;
        assert!(rt; some);
        let expected = lines.next().ok_or("a line")?;
        assert_eq!(rt; line.as_slice(), expected.as_bytes());
    }
    assert!(rt; lines.next().is_none());
    for index in [15, 16, u64::MAX] {
        let some = large_line(1, 10, 2, index, &Election::example(), &mut line)?;
        assert!(rt; !some);
        assert!(rt; line.is_empty());
    }
    Ok(())
}

/// What a source gives that is read in pieces of so many bytes.
fn given(rt: &HostRuntime, source: &mut GeneratedScript, piece: usize) -> Result<Vec<u8>, Fail> {
    let mut text = Vec::new(rt.alloc());
    let mut buffer = vec![in rt.alloc(); 0; piece]?;
    for _ in 0..100_000 {
        let Ok(count) = source.read(&mut buffer) else {
            return Ok(text);
        };
        if count == 0 {
            return Ok(text);
        }
        text.extend_from_slice(&buffer[..count])?;
    }
    Ok(text)
}

#[test]
fn the_script_in_pieces(rt: HostRuntime) -> Result<(), Fail> {
    let precinct = precinct().ok_or("an election")?;
    for piece in [1, 7, 4096] {
        let mut source = GeneratedScript::new(rt.alloc(), 1, 10, 2, &Election::example())?;
        let text = given(&rt, &mut source, piece)?;
        assert_eq!(rt; text.as_slice(), OF_EXAMPLE.as_bytes());
        let mut source = GeneratedScript::new(rt.alloc(), u32::MAX, 21, 3, &precinct)?;
        let text = given(&rt, &mut source, piece)?;
        assert_eq!(rt; text.as_slice(), OF_PRECINCT.as_bytes());
    }
    Ok(())
}
