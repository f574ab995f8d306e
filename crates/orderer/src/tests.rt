use crate::offline::run_offline;
use ord_types::{Bytes, List, MemSink, MemSource, NoMemory};
use std::alloc::Global;
use std::test::Fail;

/// One call of a source or a sink that fails, or none at 0.
fn failing(alloc: Global, call: u64) -> Result<List<u64>, NoMemory> {
    let mut calls = List::new(alloc);
    calls.push(call)?;
    Ok(calls)
}

/// The words of a command.
fn words(alloc: Global, texts: &[&str]) -> Result<Vec<String>, Fail> {
    let mut words = Vec::new(alloc);
    for text in texts {
        words.push(String::from_str(alloc, text)?)?;
    }
    Ok(words)
}

/// Plays a script, of whose reads and writes these fail: the status, and what was written.
pub(crate) fn played(
    alloc: Global,
    script: &[u8],
    read: u64,
    write: u64,
) -> Result<(u8, MemSink), Fail> {
    let words = words(alloc, &["world", "FILE"])?;
    let bytes = Bytes::from_slice(alloc, script)?;
    let mut source = MemSource::new(bytes, failing(alloc, read)?);
    let mut sink = MemSink::new(alloc, failing(alloc, write)?)?;
    let status = run_offline(alloc, words.as_slice(), &mut source, &mut sink);
    Ok((status, sink))
}

const FIRST: &[u8] = b"genesis bft 1,2,3,4 batch=1
submit 1 1 1 aa
tick 1
flush
";

/// The worked examples beside the program's own run.
#[test]
fn worked_examples(rt: HostRuntime) -> Result<(), Fail> {
    for (script, text) in [
        (b"".as_slice(), b"sent 0\n".as_slice()),
        (
            b"genesis bft 7 batch=1
submit 7 1 1 -
tick 7
",
            b"1 genesis
2 submit 7 admitted
3 block 7 1 config 0 view 0 requests 1 first 1:1 signers 7
3 tick 7
node 7 height 2 config 0 view 0 left 0
sent 0
",
        ),
        (
            b"genesis bft 1,2,3,4,5 batch=1
submit 1 1 1 aa
tick 1
flush 1,2,3
flush 1,2,3,4
",
            b"1 genesis
2 submit 1 admitted
3 tick 1
4 flush 8
5 block 3 1 config 0 view 0 requests 1 first 1:1 signers 1,2,3,4
5 block 1 1 config 0 view 0 requests 1 first 1:1 signers 1,2,3,4
5 block 2 1 config 0 view 0 requests 1 first 1:1 signers 1,2,3,4
5 block 4 1 config 0 view 0 requests 1 first 1:1 signers 1,2,3,4
5 flush 19
node 1 height 2 config 0 view 0 left 0
node 2 height 2 config 0 view 0 left 0
node 3 height 2 config 0 view 0 left 0
node 4 height 2 config 0 view 0 left 0
node 5 height 1 config 0 view 0 left 0
sent 36
",
        ),
        (
            b"genesis bft 1,2,3,4 batch=1
submit 1 1 1 aa
tick 1
deliver 1-15
deliver 16
deliver 16
deliver 16
deliver 19
",
            b"1 genesis
2 submit 1 admitted
3 tick 1
4 deliver 15
5 deliver 1
6 deliver 1
7 deliver 1
8 block 1 1 config 0 view 0 requests 1 first 1:1 signers 1,3,4
8 deliver 1
node 1 height 2 config 0 view 0 left 0
node 2 height 1 config 0 view 0 left 0
node 3 height 1 config 0 view 0 left 0
node 4 height 1 config 0 view 0 left 0
sent 27
",
        ),
        (
            b"genesis bft 1,2,3,4 batch=1
submit 1 1 1 aa
tick 1
deliver 1,10
",
            b"1 genesis
2 submit 1 admitted
3 tick 1
4 refused no entry
node 1 height 1 config 0 view 0 left 0
node 2 height 1 config 0 view 0 left 0
node 3 height 1 config 0 view 0 left 0
node 4 height 1 config 0 view 0 left 0
sent 9
",
        ),
        (
            b"flush
genesis bft 1,2 batch=1
genesis bft 1 batch=1
tick 9
submit 1 1 1 aa
submit 1 1 1 bb
",
            b"1 refused no world
2 genesis
3 refused second genesis
4 refused unknown node
5 submit 1 admitted
6 submit 1 known pending
node 1 height 1 config 0 view 0 left 0
node 2 height 1 config 0 view 0 left 0
sent 0
",
        ),
        (
            b"genesis bft 7 batch=1
raw 7 00
raw 7 01
raw 7 0100000001000000000000000100000000ff
raw 7 0100000001000000000000000100000001aa
raw 7 0100000001000000000000000100000001bb
raw 7 0200000001000000000000000200000000
",
            b"1 genesis
2 raw 7 malformed grammar 0
3 raw 7 malformed grammar 1
4 raw 7 malformed grammar 17
5 raw 7 admitted
6 raw 7 known pending
7 raw 7 malformed grammar 0
node 7 height 1 config 0 view 0 left 0
sent 0
",
        ),
        (
            b"genesis bft 1,2,3,4 batch=1
show 1 0
show 1 1
show 9 0
tick 9
",
            b"1 genesis
2 block 1 0 config 0 raft requests 1 first 0:0 hash 0651a9d8988004632c994654b243e2ef417692ac286fe373a9c54ff4ca2f8f75
3 refused no block
4 refused unknown node
5 refused unknown node
node 1 height 1 config 0 view 0 left 0
node 2 height 1 config 0 view 0 left 0
node 3 height 1 config 0 view 0 left 0
node 4 height 1 config 0 view 0 left 0
sent 0
",
        ),
    ] {
        let (status, sink) = played(rt.alloc(), script, 0, 0)?;
        assert_eq!(rt; status, 0);
        assert_eq!(rt; sink.bytes(), text);
    }
    Ok(())
}

/// A script's own endings.
#[test]
fn endings(rt: HostRuntime) -> Result<(), Fail> {
    for (script, status, text) in [
        (
            b"#\ntick x\nflush\n".as_slice(),
            3,
            b"2 malformed at 6\n".as_slice(),
        ),
        (b"flush\njoin 1\n", 17, b"1 refused no world\n2 not built\n"),
        (b"genesis bft 1,2\n", 17, b"1 not built\n"),
    ] {
        let (found, sink) = played(rt.alloc(), script, 0, 0)?;
        assert_eq!(rt; found, status);
        assert_eq!(rt; sink.bytes(), text);
    }
    Ok(())
}

/// A line that is too long, and a line too many, give 9.
#[test]
fn limits(rt: HostRuntime) -> Result<(), Fail> {
    for (byte, count, text) in [
        (b'#', 8_500_001, b"1 limit 8500000\n".as_slice()),
        (b'\n', 1_000_001, b"1000001 limit 1000000\n"),
    ] {
        let script = vec![in rt.alloc(); byte; count]?;
        let (status, sink) = played(rt.alloc(), script.as_slice(), 0, 0)?;
        assert_eq!(rt; status, 9);
        assert_eq!(rt; sink.bytes(), text);
    }
    Ok(())
}

/// A call of the source that fails gives 6, and one of the sink 7.
#[test]
fn faults(rt: HostRuntime) -> Result<(), Fail> {
    for call in 1..3u64 {
        let (status, _sink) = played(rt.alloc(), FIRST, call, 0)?;
        assert_eq!(rt; status, 6);
    }
    for call in 1..6u64 {
        let (status, _sink) = played(rt.alloc(), FIRST, 0, call)?;
        assert_eq!(rt; status, 7);
    }
    Ok(())
}

/// Words that are no command give 2, and those of later parts 17; nothing is read or written.
#[test]
fn other_words(rt: HostRuntime) -> Result<(), Fail> {
    for (texts, status) in [
        ([].as_slice(), 2),
        (["world"].as_slice(), 2),
        (["world", "a", "b"].as_slice(), 2),
        (["World", "a"].as_slice(), 2),
        (["audit", "a", "b"].as_slice(), 17),
        (["genesis", "a", "b"].as_slice(), 17),
        (["world-gen", "1", "0"].as_slice(), 17),
        (["world-gen", "1", "100001"].as_slice(), 2),
        (["world-gen", "01", "1"].as_slice(), 2),
    ] {
        let words = words(rt.alloc(), texts)?;
        let mut source = MemSource::new(Bytes::new(rt.alloc()), failing(rt.alloc(), 1)?);
        let mut sink = MemSink::new(rt.alloc(), failing(rt.alloc(), 1)?)?;
        let found = run_offline(rt.alloc(), words.as_slice(), &mut source, &mut sink);
        assert_eq!(rt; found, status);
        assert_eq!(rt; sink.bytes(), b"".as_slice());
    }
    Ok(())
}
