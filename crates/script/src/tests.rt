//! Lines, and what they mean.
use crate::command::{Command, Meaning, Stop, VoteKind};
use crate::lines::meaning;
use ord_types::{Bytes, List, NoMemory};
use std::alloc::Global;
use std::test::Fail;

/// Why a line stops, or a place of 0 where it doesn't.
fn stop_of(alloc: Global, line: &[u8]) -> Result<Stop, NoMemory> {
    match meaning(alloc, line)? {
        Meaning::Wrong(stop) => Ok(stop),
        _ => Ok(Stop::Malformed(0)),
    }
}

/// The members that a `genesis` line names, and the Byzantine ids.
fn genesis_ids(alloc: Global, line: &[u8]) -> Result<(List<u32>, List<u32>), Fail> {
    match meaning(alloc, line)? {
        Meaning::Means(Command::Genesis { members, byzantine }) => Ok((members, byzantine)),
        _ => Err(Fail::from("genesis")),
    }
}

#[test]
fn genesis(rt: HostRuntime) -> Result<(), Fail> {
    let (members, byzantine) = genesis_ids(rt.alloc(), b"genesis bft 1,12,4294967295 batch=1")?;
    assert_eq!(rt; members.as_slice(), [1, 12, 4294967295].as_slice());
    assert_eq!(rt; byzantine.len(), 0);
    let (members, byzantine) = genesis_ids(rt.alloc(), b"genesis bft 1,12 batch=1 byz=2,12")?;
    assert_eq!(rt; members.as_slice(), [1, 12].as_slice());
    assert_eq!(rt; byzantine.as_slice(), [2, 12].as_slice());
    Ok(())
}

#[test]
fn submit(rt: HostRuntime) -> Result<(), Fail> {
    match meaning(
        rt.alloc(),
        b"submit 4294967295 0 18446744073709551615 00aff9",
    )? {
        Meaning::Means(
            Command::Submit {
                node,
                client,
                serial,
                payload,
            },
        ) => {
            assert_eq!(rt;
                (node, client, serial),
                (4294967295, 0, 18446744073709551615)
            );
            assert_eq!(rt; payload.as_slice(), [0, 175, 249].as_slice());
            Ok(())
        }
        _ => Err(Fail::from("submit")),
    }
}

#[test]
fn raw(rt: HostRuntime) -> Result<(), Fail> {
    match meaning(rt.alloc(), b"raw 7 0100ff")? {
        Meaning::Means(Command::Raw { node, bytes }) => {
            assert_eq!(rt; node, 7);
            assert_eq!(rt; bytes.as_slice(), [1, 0, 255].as_slice());
            Ok(())
        }
        _ => Err(Fail::from("raw")),
    }
}

#[test]
fn tick(rt: HostRuntime) -> Result<(), Fail> {
    match meaning(rt.alloc(), b"tick 7")? {
        Meaning::Means(Command::Tick { node, count }) => {
            assert_eq!(rt; (node, count), (7, 1));
            Ok(())
        }
        _ => Err(Fail::from("tick")),
    }
}

#[test]
fn flush(rt: HostRuntime) -> Result<(), Fail> {
    match meaning(rt.alloc(), b"flush")? {
        Meaning::Means(Command::Flush { only }) => {
            assert!(rt; only.is_none());
            Ok(())
        }
        _ => Err(Fail::from("flush")),
    }
}

#[test]
fn show(rt: HostRuntime) -> Result<(), Fail> {
    match meaning(rt.alloc(), b"show 7 4611686018427387903")? {
        Meaning::Means(Command::Show { node, number }) => {
            assert_eq!(rt; (node, number), (7, 4611686018427387903));
            Ok(())
        }
        _ => Err(Fail::from("show")),
    }
}

#[test]
fn propose(rt: HostRuntime) -> Result<(), Fail> {
    match meaning(
        rt.alloc(),
        b"byz-propose 1 4294967295 4611686018427387903 0 18446744073709551615 aa",
    )? {
        Meaning::Means(
            Command::Propose {
                from,
                to,
                view,
                client,
                serial,
                payload,
            },
        ) => {
            assert_eq!(rt; (from, to, view), (1, 4294967295, 4611686018427387903));
            assert_eq!(rt; (client, serial), (0, 18446744073709551615));
            assert_eq!(rt; payload.as_slice(), [170].as_slice());
            Ok(())
        }
        _ => Err(Fail::from("byz-propose")),
    }
}

/// What a `byz-vote` line names.
fn vote_of(alloc: Global, line: &[u8]) -> Result<(u32, u32, VoteKind, u64, u64), Fail> {
    match meaning(alloc, line)? {
        Meaning::Means(
            Command::Vote {
                from,
                to,
                kind,
                view,
                entry,
            },
        ) => Ok((from, to, kind, view, entry)),
        _ => Err(Fail::from("byz-vote")),
    }
}

#[test]
fn vote(rt: HostRuntime) -> Result<(), Fail> {
    let prepare = vote_of(rt.alloc(), b"byz-vote 1 2 prepare 3 4")?;
    assert_eq!(rt; prepare, (1, 2, VoteKind::Prepare, 3, 4));
    let commit = vote_of(rt.alloc(), b"byz-vote 1 2 commit 0 4611686018427387903")?;
    assert_eq!(rt; commit, (1, 2, VoteKind::Commit, 0, 4611686018427387903));
    Ok(())
}

#[test]
fn lie(rt: HostRuntime) -> Result<(), Fail> {
    match meaning(rt.alloc(), b"lie 4 1 ff00")? {
        Meaning::Means(Command::Lie { from, to, bytes }) => {
            assert_eq!(rt; (from, to), (4, 1));
            assert_eq!(rt; bytes.as_slice(), [255, 0].as_slice());
            Ok(())
        }
        _ => Err(Fail::from("lie")),
    }
}

#[test]
fn seal(rt: HostRuntime) -> Result<(), Fail> {
    match meaning(rt.alloc(), b"seal 0 -")? {
        Meaning::Means(Command::Seal { id, bytes }) => {
            assert_eq!(rt; (id, bytes.len()), (0, 0));
            Ok(())
        }
        _ => Err(Fail::from("seal")),
    }
}

/// How many bytes the payload of a `byz-propose` line has by so many digits, or 0 where it doesn't fit.
fn payload_length(alloc: Global, count: usize) -> Result<usize, Fail> {
    let digits = vec![in alloc; b'a'; count]?;
    let mut line = Bytes::from_slice(alloc, b"byz-propose 1 2 0 1 1 ")?;
    line.extend_from_slice(digits.as_slice())?;
    match meaning(alloc, line.as_slice())? {
        Meaning::Means(Command::Propose { payload, .. }) => Ok(payload.len()),
        _ => Ok(0),
    }
}

#[test]
fn longest_payload(rt: HostRuntime) -> Result<(), Fail> {
    assert_eq!(rt; payload_length(rt.alloc(), 131_072)?, 65_536);
    assert_eq!(rt; payload_length(rt.alloc(), 131_074)?, 0);
    Ok(())
}

#[test]
fn nothing(rt: HostRuntime) -> Result<(), Fail> {
    for line in [b"".as_slice(), b"#", b"# tick 0"] {
        match meaning(rt.alloc(), line)? {
            Meaning::Nothing => {}
            _ => return Err(Fail::from("nothing")),
        }
    }
    Ok(())
}

#[test]
fn malformed_lines(rt: HostRuntime) -> Result<(), Fail> {
    for (line, place) in [
        (b"tick x".as_slice(), 6),
        (b"tick", 5),
        (b"tick ", 6),
        (b" tick 1", 1),
        (b"tick 0", 6),
        (b"tick 01", 6),
        (b"tick 4294967296", 6),
        (b"flush\r", 1),
        (b"flush ", 7),
        (b"flush 2,1", 7),
        (b"tick 1 0", 8),
        (b"tick 1 10001", 8),
        (b"tick 1 1 1", 10),
        (b"deliver", 8),
        (b"deliver 3-1", 9),
        (b"Flush", 1),
    ] {
        assert_eq!(rt;
            stop_of(rt.alloc(), line)?,
            Stop::Malformed(place),
            "place {place}"
        );
    }
    Ok(())
}

#[test]
fn malformed_requests(rt: HostRuntime) -> Result<(), Fail> {
    for (line, place) in [
        (b"submit 1 2 3".as_slice(), 13),
        (b"submit 1 2 3 ", 14),
        (b"submit 1 2 3 AA", 14),
        (b"submit 1 2 3 a", 14),
        (b"submit 1  2 3 aa", 10),
        (b"submit 1 2 18446744073709551616 aa", 12),
        (b"submit 1 2 3 - -", 16),
        (b"raw", 4),
        (b"raw 0 aa", 5),
        (b"raw 1", 6),
        (b"raw 1 a", 7),
        (b"raw 1 - -", 9),
        (b"show 1", 7),
        (b"show 1 ", 8),
        (b"show 1 01", 8),
        (b"show 1 4611686018427387904", 8),
        (b"show 1 2 3", 10),
    ] {
        assert_eq!(rt;
            stop_of(rt.alloc(), line)?,
            Stop::Malformed(place),
            "place {place}"
        );
    }
    Ok(())
}

#[test]
fn malformed_genesis(rt: HostRuntime) -> Result<(), Fail> {
    for (line, place) in [
        (b"genesis batch=1".as_slice(), 9),
        (b"genesis bft 2,1 batch=1", 13),
        (b"genesis bft 0,1 batch=1", 13),
        (b"genesis bft 1, batch=1", 13),
        (b"genesis bft 1,2,3,4 byz=4 batch=1", 27),
        (b"genesis bft 1,2,3,4 batch=2 batch=1", 29),
        (b"genesis bft 1,2,3,4 byz=3 byz=4 batch=1", 27),
        (b"genesis bft 1 batch=1 batch=1", 23),
        (b"genesis bft 1 batch=1000 batch=1", 26),
        (b"genesis bft 1 batch=1001 batch=1", 15),
        (b"genesis bft 1 batch=0 batch=1", 15),
        (b"genesis bft 1 batch=01 batch=1", 15),
        (b"genesis bft 1 byz=1 batch=1", 21),
        (b"genesis bft 1 byz=x batch=1", 15),
        (b"genesis bft 1 batch=1 byz=", 23),
        (b"genesis bft 1 batch=1 byz=0", 23),
        (b"genesis bft 1 batch=1 byz=2,1", 23),
        (b"genesis bft 1 batch=1 byz=1 byz=1", 29),
        (b"genesis bft 1 batch=1 ", 23),
    ] {
        assert_eq!(rt;
            stop_of(rt.alloc(), line)?,
            Stop::Malformed(place),
            "place {place}"
        );
    }
    Ok(())
}

#[test]
fn malformed_proposals(rt: HostRuntime) -> Result<(), Fail> {
    for (line, place) in [
        (b"byz-propose".as_slice(), 12),
        (b"byz-propose 0 1 0 1 1 aa", 13),
        (b"byz-propose 1 0 0 1 1 aa", 15),
        (b"byz-propose 1 2 4611686018427387904 1 1 aa", 17),
        (b"byz-propose 1 2 0 4294967296 1 aa", 19),
        (b"byz-propose 1 2 0 1 18446744073709551616 aa", 21),
        (b"byz-propose 1 2 0 1 1", 22),
        (b"byz-propose 1 2 0 1 1 a", 23),
        (b"byz-propose 1 2 0 1 1 aa bb", 26),
    ] {
        assert_eq!(rt;
            stop_of(rt.alloc(), line)?,
            Stop::Malformed(place),
            "place {place}"
        );
    }
    Ok(())
}

#[test]
fn malformed_votes(rt: HostRuntime) -> Result<(), Fail> {
    for (line, place) in [
        (b"byz-vote 1 2".as_slice(), 13),
        (b"byz-vote 4294967296 2 prepare 0 1", 10),
        (b"byz-vote 1 2 Prepare 0 1", 14),
        (b"byz-vote 1 2 0 prepare 1", 14),
        (b"byz-vote 1 2 commit 4611686018427387904 1", 21),
        (b"byz-vote 1 2 commit 0 4611686018427387904", 23),
        (b"byz-vote 1 2 commit 0", 22),
        (b"byz-vote 1 2 commit 0 1 2", 25),
    ] {
        assert_eq!(rt;
            stop_of(rt.alloc(), line)?,
            Stop::Malformed(place),
            "place {place}"
        );
    }
    Ok(())
}

#[test]
fn malformed_lies_and_seals(rt: HostRuntime) -> Result<(), Fail> {
    for (line, place) in [
        (b"lie 1 2".as_slice(), 8),
        (b"lie 0 2 aa", 5),
        (b"lie 1 0 aa", 7),
        (b"lie 1 2 AA", 9),
        (b"lie 1 2 aa ", 12),
        (b"seal", 5),
        (b"seal 4294967296 aa", 6),
        (b"seal 1 ", 8),
        (b"seal 1 aa 1", 11),
    ] {
        assert_eq!(rt;
            stop_of(rt.alloc(), line)?,
            Stop::Malformed(place),
            "place {place}"
        );
    }
    Ok(())
}

#[test]
fn lines_not_built(rt: HostRuntime) -> Result<(), Fail> {
    for line in [
        b"byz-change".as_slice(),
        b"byz-report 1",
        b"join x",
        b"genesis",
        b"genesis bft 1",
        b"genesis bft 1 byz=2",
        b"genesis raft 1 batch=1",
        b"genesis bft x batch=1 byz= extra=",
    ] {
        assert_eq!(rt; stop_of(rt.alloc(), line)?, Stop::NotBuilt);
    }
    Ok(())
}
