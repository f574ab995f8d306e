// The expected bytes were written out by hand from the layout of the file.
ghost use Rattle.std.specs.Prelude.{◌≤◌};
ghost use Rattle.ord_types.specs.Causes.{Rose};

use crate::whole::read_whole;
use crate::{Disk, GateLog, Image, LogFault, MemDisk};
use ord_types::{Bytes, Failed, List, NoMemory};
use std::alloc::Global;
use std::test::Fail;

// A disk in memory of which nothing is told, so that a test needs no proof of what it holds.
#[derive(Drop)]
struct Quiet {
    disk: MemDisk,
    faults: u64,
}

impl Quiet {
    fn fault(&mut self) -> Failed
        ensures { (self.old.faults ≤ self.new.faults) × Rose self.old.faults self.new.faults }
    {
        self.faults = self.faults.saturating_add(1);
        Failed
    }
}

impl Disk for Quiet {
    ghost use Rattle.std.specs.Prelude.{false, []};
    ghost use Rattle.std.proofs.lemmas.Bool.{false≢true};

    ghost tells = { λ _. false };

    ghost moments = { λ _. [] };

    ghost faults = { λ quiet. quiet.faults };

    fn len(&mut self, file: u8) -> Result<u64, Failed> {
        match self.disk.len(file) {
            Ok(len) => Ok(len),
            Err(_) => Err(self.fault()),
        }
    }

    fn read(&mut self, file: u8, at: u64, into: &mut [u8]) -> Result<usize, Failed> {
        let Ok(len) = self.disk.len(file) else {
            return Err(self.fault());
        };
        if at >= len {
            return Err(self.fault());
        }
        match self.disk.read(file, at, into) {
            Ok(count) => Ok(count),
            Err(_) => Err(self.fault()),
        }
    }

    fn write_at(&mut self, file: u8, at: u64, bytes: &[u8]) -> Result<(), Failed> {
        match self.disk.write_at(file, at, bytes) {
            Ok(()) => Ok(()),
            Err(_) => Err(self.fault()),
        }
    }

    fn sync(&mut self, file: u8) -> Result<(), Failed> {
        match self.disk.sync(file) {
            Ok(()) => Ok(()),
            Err(_) => Err(self.fault()),
        }
    }

    ghost reads_is_left = { λ quiet file told. absurd (false≢true told) };
}

fn empty(alloc: Global) -> Result<Quiet, NoMemory> {
    let disk = MemDisk::new(alloc)?;
    Ok(Quiet { disk, faults: 0 })
}

// A disk whose file 0 has these bytes.
fn holding(alloc: Global, bytes: &[u8]) -> Result<Quiet, LogFault> {
    let mut quiet = empty(alloc)?;
    quiet.write_at(0, 0, bytes)?;
    quiet.sync(0)?;
    Ok(quiet)
}

// The disk after a crash.
fn crashed(quiet: Quiet) -> Result<Quiet, NoMemory> {
    let disk = quiet.disk.crash(Image::Keep)?;
    Ok(Quiet { disk, faults: 0 })
}

// The generation and the number of entries of file 0, or why it doesn't open.
fn opened(alloc: Global, quiet: &mut Quiet) -> Result<(u64, usize), LogFault> {
    let log = GateLog::open(alloc, quiet, 0)?;
    Ok((log.generation(), log.entries().len()))
}

#[test]
fn fresh_and_one_entry(rt: HostRuntime) -> Result<(), Fail> {
    let mut quiet = empty(rt.alloc())?;
    let mut log = GateLog::open(rt.alloc(), &mut quiet, 0)?;
    assert_eq!(rt; log.generation(), 1);
    assert!(rt; log.entries().is_empty());
    let fresh = read_whole(rt.alloc(), &mut quiet, 0)?;
    assert_eq!(rt;
        fresh.as_slice(),
        b"ORDLOG1\n\x01\0\0\0\0\0\0\0\x01\0".as_slice()
    );
    assert_eq!(rt; log.append(rt.alloc(), &mut quiet, b"\xaa\xbb"), Ok(()));
    let one = read_whole(rt.alloc(), &mut quiet, 0)?;
    assert_eq!(rt;
        one.as_slice(),
        b"ORDLOG1\n\x01\0\0\0\0\0\0\0\x01\x01\0\0\0\x02\xaa\xbb\0".as_slice()
    );
    let again = GateLog::open(rt.alloc(), &mut quiet, 0)?;
    for entry in again.entries().as_slice() {
        assert_eq!(rt; entry.as_slice(), b"\xaa\xbb".as_slice());
    }
    assert_eq!(rt; opened(rt.alloc(), &mut quiet), Ok((1, 1)));
    let other = read_whole(rt.alloc(), &mut quiet, 1)?;
    assert!(rt; other.is_empty());
    Ok(())
}

#[test]
fn readings(rt: HostRuntime) -> Result<(), Fail> {
    for (bytes, answer) in [
        (b"".as_slice(), Ok((1, 0))),
        // at most 9 bytes
        (b"ORDLOG1\n\x01", Ok((1, 0))),
        (b"ORDLOG1\n\0", Ok((1, 0))),
        (b"123456789", Ok((1, 0))),
        // the first byte that differs
        (
            b"\0\0\0\0\0\0\0\0\0\0\0\0\0\0\0\0\0\0",
            Err(LogFault::Foreign(0)),
        ),
        (b"oRDLOG1\n\0\0", Err(LogFault::Foreign(0))),
        (b"OrDLOG1\n\0\0", Err(LogFault::Foreign(1))),
        (b"ORdLOG1\n\0\0", Err(LogFault::Foreign(2))),
        (b"ORDlOG1\n\0\0", Err(LogFault::Foreign(3))),
        (b"ORDLoG1\n\0\0", Err(LogFault::Foreign(4))),
        (b"ORDLOg1\n\0\0", Err(LogFault::Foreign(5))),
        (b"ORDLOG2\n\0\0", Err(LogFault::Foreign(6))),
        (b"ORDLOG1\0\0\0", Err(LogFault::Foreign(7))),
        // a closed head gate
        (b"ORDLOG1\n\0rubbish, and more of it", Ok((1, 0))),
        // an open one, and too few bytes
        (b"ORDLOG1\n\x01\0", Err(LogFault::Foreign(10))),
        (
            b"ORDLOG1\n\x01\0\0\0\0\0\0\0\x01",
            Err(LogFault::Foreign(17)),
        ),
        // the generation
        (
            b"ORDLOG1\n\x01\0\0\0\0\0\0\0\0\0",
            Err(LogFault::Foreign(9)),
        ),
        (
            b"ORDLOG1\n\x01\x40\0\0\0\0\0\0\0\0",
            Err(LogFault::Foreign(9)),
        ),
        (
            b"ORDLOG1\n\x01\x3f\xff\xff\xff\xff\xff\xff\xff\0",
            Ok((4_611_686_018_427_387_903, 0)),
        ),
        // an open gate with no whole entry and gate behind it
        (
            b"ORDLOG1\n\x01\0\0\0\0\0\0\0\x05\x01",
            Err(LogFault::Foreign(17)),
        ),
        (
            b"ORDLOG1\n\x01\0\0\0\0\0\0\0\x05\x01\0\0\0\0",
            Err(LogFault::Foreign(17)),
        ),
        (
            b"ORDLOG1\n\x01\0\0\0\0\0\0\0\x05\x01\0\0\0\x02\xaa\xbb",
            Err(LogFault::Foreign(17)),
        ),
        (
            b"ORDLOG1\n\x01\0\0\0\0\0\0\0\x05\x01\0\0\0\x02\xaa\xbb\x01",
            Err(LogFault::Foreign(24)),
        ),
        (
            b"ORDLOG1\n\x01\0\0\0\0\0\0\0\x05\x01\xff\xff\xff\xff\xaa\xbb\0",
            Err(LogFault::Foreign(17)),
        ),
        // gates may hold any byte but 0, and what stands behind the first closed one is ignored
        (
            b"ORDLOG1\n\xff\0\0\0\0\0\0\0\x05\xfe\0\0\0\x02\xaa\xbb\x02\0\0\0\0\0\x01",
            Ok((5, 2)),
        ),
    ] {
        let mut quiet = holding(rt.alloc(), bytes)?;
        assert_eq!(rt; opened(rt.alloc(), &mut quiet), answer);
    }
    Ok(())
}

// A log of generation 1 with one entry.
fn one_entry(alloc: Global) -> Result<Quiet, LogFault> {
    holding(
        alloc,
        b"ORDLOG1\n\x01\0\0\0\0\0\0\0\x01\x01\0\0\0\x02\xaa\xbb\0",
    )
}

const IMAGES: [Image; 4] = [Image::Keep, Image::Undo, Image::Fill(0), Image::Fill(0x7f)];

// Whether a byte that is written as 1 over 0 is open in this image.
fn opens(image: Image) -> bool {
    match image {
        Image::Keep => true,
        Image::Undo => false,
        Image::Fill(byte) => byte != 0,
    }
}

// Whether a byte that is written as 0 over 1 is open in this image.
fn stays_open(image: Image) -> bool {
    match image {
        Image::Keep => false,
        Image::Undo => true,
        Image::Fill(byte) => byte != 0,
    }
}

#[test]
fn stopped_appends(rt: HostRuntime) -> Result<(), Fail> {
    for image in IMAGES {
        for call in 1..=5 {
            let mut quiet = one_entry(rt.alloc())?;
            let mut log = GateLog::open(rt.alloc(), &mut quiet, 0)?;
            quiet.disk.arm(call, image);
            let answer = log.append(rt.alloc(), &mut quiet, b"\xcc");
            assert_eq!(rt; answer.is_ok(), call == 5);
            assert_eq!(rt; quiet.disk.stopped(), call < 5);
            let mut left = crashed(quiet)?;
            assert!(rt; !left.disk.stopped());
            let added = call == 5 || (call >= 3 && opens(image));
            let entries = if added { 2 } else { 1 };
            assert_eq!(rt; opened(rt.alloc(), &mut left), Ok((1, entries)));
        }
    }
    Ok(())
}

// Two entries.
fn two(alloc: Global) -> Result<List<Bytes>, NoMemory> {
    let mut entries = List::new(alloc);
    entries.push(Bytes::from_slice(alloc, b"")?)?;
    entries.push(Bytes::from_slice(alloc, b"\xcc")?)?;
    Ok(entries)
}

#[test]
fn stopped_restarts(rt: HostRuntime) -> Result<(), Fail> {
    let entries = two(rt.alloc())?;
    for image in IMAGES {
        for call in 1..=7 {
            let mut quiet = one_entry(rt.alloc())?;
            quiet.disk.arm(call, image);
            let answer = GateLog::restart_with(rt.alloc(), &mut quiet, 0, 9, &entries);
            assert_eq!(rt; answer.is_ok(), call == 7);
            let mut left = crashed(quiet)?;
            let earlier = call <= 2 && stays_open(image);
            let renewed = call == 7 || (call >= 5 && opens(image));
            let found = if earlier {
                (1, 1)
            } else if renewed {
                (9, 2)
            } else {
                (1, 0)
            };
            assert_eq!(rt; opened(rt.alloc(), &mut left), Ok(found));
        }
    }
    Ok(())
}

#[test]
fn stopped_opens(rt: HostRuntime) -> Result<(), Fail> {
    for image in IMAGES {
        for (bytes, calls) in [
            (b"".as_slice(), 7),
            (b"12345678\0", 7),
            (b"ORDLOG1\n\x01", 7),
            (b"ORDLOG1\n\0", 5),
            (b"ORDLOG1\n\0rubbish", 5),
        ] {
            for call in 1..=8 {
                let mut quiet = holding(rt.alloc(), bytes)?;
                quiet.disk.arm(call, image);
                let answer = opened(rt.alloc(), &mut quiet);
                assert_eq!(rt; answer.is_ok(), call > calls);
                let mut left = crashed(quiet)?;
                assert_eq!(rt; opened(rt.alloc(), &mut left), Ok((1, 0)));
            }
        }
    }
    Ok(())
}

#[test]
fn restarts(rt: HostRuntime) -> Result<(), Fail> {
    let entries = two(rt.alloc())?;
    let renewed = b"ORDLOG1\n\x01\0\0\0\0\0\0\0\x09\x01\0\0\0\0\x01\0\0\0\x01\xcc\0".as_slice();
    for (bytes, tail) in [
        (b"".as_slice(), b"".as_slice()),
        (b"ORDLOG1\n\0", b""),
        (
            b"ORDLOG1\n\x01\0\0\0\0\0\0\0\x01\x01\0\0\0\x02\xaa\xbb\x01\0\0\0\x02\xaa\xbb\0",
            b"\xaa\xbb\0",
        ),
    ] {
        let mut quiet = holding(rt.alloc(), bytes)?;
        let log = GateLog::restart_with(rt.alloc(), &mut quiet, 0, 9, &entries)?;
        assert_eq!(rt; log.generation(), 9);
        assert_eq!(rt; log.entries().len(), 2);
        let whole = read_whole(rt.alloc(), &mut quiet, 0)?;
        assert!(rt; whole.starts_with(renewed));
        assert!(rt; whole.ends_with(tail));
        assert_eq!(rt; whole.len(), 29 + tail.len());
    }
    let mut foreign = holding(rt.alloc(), b"a file of someone else")?;
    let answer = GateLog::restart_with(rt.alloc(), &mut foreign, 0, 9, &entries);
    assert!(rt; matches!(answer, Err(LogFault::Foreign(0))));
    let left = read_whole(rt.alloc(), &mut foreign, 0)?;
    assert_eq!(rt; left.as_slice(), b"a file of someone else".as_slice());
    Ok(())
}

#[test]
fn lengths(rt: HostRuntime) -> Result<(), Fail> {
    let longest = vec![in rt.alloc(); 7; 4_194_304]?;
    let mut quiet = empty(rt.alloc())?;
    let mut log = GateLog::open(rt.alloc(), &mut quiet, 0)?;
    assert_eq!(rt; log.append(rt.alloc(), &mut quiet, &longest), Ok(()));
    let mut entries = List::new(rt.alloc());
    entries.push(Bytes::from_slice(rt.alloc(), &longest)?)?;
    assert!(rt; GateLog::restart_with(rt.alloc(), &mut quiet, 0, 2, &entries).is_ok());
    let longer = vec![in rt.alloc(); 7; 4_194_305]?;
    let refused = log.append(rt.alloc(), &mut quiet, &longer);
    assert_eq!(rt; refused, Err(LogFault::TooLong(4_194_305)));
    entries.push(Bytes::from_slice(rt.alloc(), &longer)?)?;
    let answer = GateLog::restart_with(rt.alloc(), &mut quiet, 0, 3, &entries);
    assert!(rt; matches!(answer, Err(LogFault::TooLong(4_194_305))));
    assert_eq!(rt; opened(rt.alloc(), &mut quiet), Ok((2, 1)));
    Ok(())
}

#[test]
fn failing_calls(rt: HostRuntime) -> Result<(), Fail> {
    for call in 1..=20 {
        let mut calls = List::new(rt.alloc());
        calls.push(call)?;
        let disk = MemDisk::failing(rt.alloc(), calls)?;
        let mut quiet = Quiet { disk, faults: 0 };
        let first = opened(rt.alloc(), &mut quiet);
        // sync, len, and three writes with their syncs
        assert_eq!(rt;
            first,
            if call <= 8 {
                Err(LogFault::Failed)
            } else {
                Ok((1, 0))
            }
        );
        assert_eq!(rt; quiet.faults > 0, call <= 8);
        if call > 8 {
            continue;
        }
        assert_eq!(rt; opened(rt.alloc(), &mut quiet), Ok((1, 0)));
        let mut left = crashed(quiet)?;
        assert_eq!(rt; opened(rt.alloc(), &mut left), Ok((1, 0)));
    }
    Ok(())
}

#[test]
fn many_appends(rt: HostRuntime) -> Result<(), Fail> {
    let entry = [0xab; 200];
    let mut quiet = empty(rt.alloc())?;
    let mut log = GateLog::open(rt.alloc(), &mut quiet, 0)?;
    for _ in 0..100_000 {
        log.append(rt.alloc(), &mut quiet, &entry)?;
    }
    let mut left = crashed(quiet)?;
    assert_eq!(rt; opened(rt.alloc(), &mut left), Ok((1, 100_000)));
    Ok(())
}
