use crate::{Command, Image, Meaning, Stop, meaning};
use ord_types::NoMemory;
use std::alloc::Global;
use std::test::Fail;

#[test]
fn stop(rt: HostRuntime) -> Result<(), Fail> {
    for (line, wanted) in [
        (b"stop 3 keep".as_slice(), Image::Keep),
        (b"stop 3 drop", Image::Undo),
        (b"stop 3 fill=ff", Image::Fill(0xff)),
        (b"stop 3 fill=0a", Image::Fill(10)),
    ] {
        match meaning(rt.alloc(), line)? {
            Meaning::Means(Command::Stop { node, image }) => {
                assert_eq!(rt; (node, image), (3, wanted));
            }
            _ => return Err(Fail::from("stop")),
        }
    }
    Ok(())
}

#[test]
fn stop_at(rt: HostRuntime) -> Result<(), Fail> {
    match meaning(rt.alloc(), b"stop-at 3 1000000 drop")? {
        Meaning::Means(Command::StopAt { node, call, image }) => {
            assert_eq!(rt; (node, call, image), (3, 1_000_000, Image::Undo));
            Ok(())
        }
        _ => Err(Fail::from("stop-at")),
    }
}

#[test]
fn start(rt: HostRuntime) -> Result<(), Fail> {
    match meaning(rt.alloc(), b"start 4294967295")? {
        Meaning::Means(Command::Start { node }) => {
            assert_eq!(rt; node, 4_294_967_295);
            Ok(())
        }
        _ => Err(Fail::from("start")),
    }
}

/// Why a line stops, or a place of 0 where it doesn't.
fn stop_of(alloc: Global, line: &[u8]) -> Result<Stop, NoMemory> {
    match meaning(alloc, line)? {
        Meaning::Wrong(stop) => Ok(stop),
        _ => Ok(Stop::Malformed(0)),
    }
}

#[test]
fn malformed(rt: HostRuntime) -> Result<(), Fail> {
    for (line, place) in [
        (b"stop".as_slice(), 5),
        (b"stop 1", 7),
        (b"stop 0 keep", 6),
        (b"stop 1 kept", 8),
        (b"stop 1 fill=f", 8),
        (b"stop 1 fill=FF", 8),
        (b"stop 1 fill=fff", 8),
        (b"stop 1 keep 2", 13),
        (b"stop-at 1 0 keep", 11),
        (b"stop-at 1 1000001 keep", 11),
        (b"stop-at 1 keep", 11),
        (b"stop-at 1 2", 12),
        (b"start", 6),
        (b"start x", 7),
        (b"start 1 keep", 9),
    ] {
        assert_eq!(rt;
            stop_of(rt.alloc(), line)?,
            Stop::Malformed(place),
            "place {place}"
        );
    }
    Ok(())
}
