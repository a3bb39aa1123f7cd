//! Elections read from their texts.

use ballot_record::Election;
use election_def::{ElectionFault, read_election};
use std::alloc::{AllocError, Global};
use std::test::Fail;

#[test]
fn faults_as_text(rt: HostRuntime) -> Result<(), Fail> {
    let rows = [
        (ElectionFault::NotElection, "no election"),
        (ElectionFault::Memory, "out of memory"),
    ];
    for (fault, text) in rows {
        assert_eq!(rt; fault.to_string(rt.alloc())?.as_str(), text);
    }
    Ok(())
}

const OTHER: &[u8] = b"{\"contests\":[{\"choices\":4,\"allowed\":1},{\"choices\":3,\"allowed\":2}],\
    \"styles\":[[2],[1],[1,2]],\"limit\":8,\"bits\":3,\"salt\":\"0123456789abcdef\"}";

#[test]
fn an_election(rt: HostRuntime) -> Result<(), Fail> {
    let election = read_election(rt.alloc(), OTHER)?;
    let example = Election::example();
    assert_eq!(rt; election.version(), 1);
    assert_eq!(rt; election.salt(), 0x0123_4567_89ab_cdef);
    for (style, first, second) in [(1, 0, 3), (2, 4, 0), (3, 4, 3)] {
        assert_eq!(rt; election.choices_on(style, 1), first, "{style}");
        assert_eq!(rt; election.choices_on(style, 2), second, "{style}");
    }
    assert_eq!(rt; election.contests(), 2);
    assert_eq!(rt; election.contest(1), example.contest(1));
    assert_eq!(rt; election.contest(2), example.contest(2));
    assert_eq!(rt;
        read_election(rt.alloc(), b"\xff").err(),
        Some(ElectionFault::NotElection)
    );
    Ok(())
}

/// Members that stand before, between and after those of an election, and the version of the election that they make.
const MEMBERS: [(&str, &str, &str, Option<u16>); 26] = [
    ("", "", "", Some(1)),
    ("'version':1,", "", "", Some(1)),
    ("", "'version':1,", "", Some(1)),
    ("", "", ",'version':1", Some(1)),
    ("'version':2,", "", "", Some(2)),
    ("", "'version':2,", "", Some(2)),
    ("", "", ",'version':2", Some(2)),
    (" 'version' : 2 , ", "", "", Some(2)),
    ("'version':1,", "", ",'version':2", Some(2)),
    ("'version':2,", "'version':1,", "", Some(1)),
    ("'version':3,'version':2,", "", "", Some(2)),
    ("", "'version':'2',", ",'version':1", Some(1)),
    ("'version':2,", "", ",'version':3", None),
    ("'version':2,", "", ",'version':null", None),
    ("'version':0,", "", "", None),
    ("'version':3,", "", "", None),
    ("'version':-1,", "", "", None),
    ("'version':2.0,", "", "", None),
    ("'version':2e0,", "", "", None),
    ("'version':65538,", "", "", None),
    ("'version':18446744073709551618,", "", "", None),
    ("'version':'2',", "", "", None),
    ("'version':[2],", "", "", None),
    ("'version':null,", "", "", None),
    ("'Version':2,", "", "", None),
    ("'version':2,", "", ",'more':0", None),
];

/// What a text reads as that has `'` in place of each quotation mark.
fn read_quoted(alloc: Global, text: &str) -> Result<Result<Election, ElectionFault>, AllocError> {
    let text = text.replace(alloc, '\'', "\"")?;
    Ok(read_election(alloc, text.as_bytes()))
}

#[test]
fn versions(rt: HostRuntime) -> Result<(), Fail> {
    let alloc = rt.alloc();
    for (before, between, after, version) in MEMBERS {
        let text = format!(in alloc;
            "{{{before}'contests':[{{'choices':4,'allowed':1}}],{between}'styles':[[1]],\
             'limit':8,'bits':3,'salt':'0000000000000000'{after}}}"
        )?;
        match read_quoted(alloc, text.as_str())? {
            Ok(election) => assert_eq!(rt; Some(election.version()), version, "{text}"),
            Err(fault) => {
                assert_eq!(rt; fault, ElectionFault::NotElection, "{text}");
                assert_eq!(rt; version, None, "{text}");
            }
        }
    }
    Ok(())
}

/// A version, so many contests of so many choices, and whether there is such an election.
const SIZES: [(u16, usize, u8, bool); 18] = [
    (1, 1, 1, true),
    (1, 16, 1, true),
    (1, 1, 32, true),
    (1, 16, 32, true),
    (1, 17, 1, false),
    (1, 24, 1, false),
    (1, 1, 33, false),
    (1, 1, 64, false),
    (2, 1, 1, true),
    (2, 16, 32, true),
    (2, 16, 33, true),
    (2, 17, 32, true),
    (2, 24, 1, true),
    (2, 1, 64, true),
    (2, 24, 64, true),
    (2, 25, 1, false),
    (2, 1, 65, false),
    (2, 0, 1, false),
];

/// An election of so many contests that are alike, with the last one on its style, as `read_quoted` takes it.
fn text_of(
    alloc: Global,
    version: u16,
    contests: usize,
    choices: u8,
) -> Result<String, AllocError> {
    let mut text = format!(in alloc; "{{'version':{version},'contests':[")?;
    for k in 0..contests {
        let comma = if k == 0 { "" } else { "," };
        let contest = format!(in alloc; "{comma}{{'choices':{choices},'allowed':{choices}}}")?;
        text.push_str(contest.as_str())?;
    }
    let rest = format!(in alloc;
        "],'styles':[[{contests}]],'limit':8,'bits':3,'salt':'0000000000000000'}}"
    )?;
    text.push_str(rest.as_str())?;
    Ok(text)
}

#[test]
fn sizes(rt: HostRuntime) -> Result<(), Fail> {
    let alloc = rt.alloc();
    for (version, contests, choices, some) in SIZES {
        let text = text_of(alloc, version, contests, choices)?;
        match read_quoted(alloc, text.as_str())? {
            Ok(election) => {
                assert!(rt; some, "{text}");
                assert_eq!(rt; election.version(), version, "{text}");
                assert_eq!(rt; election.contests(), contests, "{text}");
                assert_eq!(rt; election.choices_on(1, contests), choices, "{text}");
                let fits = version == 2 && contests <= 16 && choices <= 32;
                let first = election.as_version_one();
                assert_eq!(rt; first.is_some(), fits, "{text}");
                if let Some(first) = first {
                    assert_eq!(rt; first.version(), 1, "{text}");
                    assert_eq!(rt; first.choices_on(1, contests), choices, "{text}");
                }
            }
            Err(fault) => {
                assert!(rt; !some, "{text}");
                assert_eq!(rt; fault, ElectionFault::NotElection, "{text}");
            }
        }
    }
    Ok(())
}
