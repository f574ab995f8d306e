//! Scripts in which nodes stop and start again.
use crate::tests::played;
use std::alloc::Global;
use std::fmt::Write;
use std::str;
use std::test::Fail;

/// The worked examples with stops.
#[test]
fn stop_examples(rt: HostRuntime) -> Result<(), Fail> {
    for (script, text) in [
        (
            b"genesis bft 1,2,3,4 batch=1
submit 1 1 1 aa
stop-at 1 4 keep
tick 1
start 1
submit 1 1 2 bb
tick 1
flush
"
                .as_slice(),
            b"1 genesis
2 submit 1 admitted
3 stop-at 1
4 stopped 1
5 start 1
6 submit 1 admitted
7 tick 1
8 block 1 1 config 0 view 0 requests 1 first 1:1 signers 1,3,4
8 block 2 1 config 0 view 0 requests 1 first 1:1 signers 2,3,4
8 block 3 1 config 0 view 0 requests 1 first 1:1 signers 1,3,4
8 block 4 1 config 0 view 0 requests 1 first 1:1 signers 1,3,4
8 flush 27
node 1 height 2 config 0 view 0 left 0
node 2 height 2 config 0 view 0 left 0
node 3 height 2 config 0 view 0 left 0
node 4 height 2 config 0 view 0 left 0
sent 27
"
                .as_slice(),
        ),
        (
            b"genesis bft 1,2,3,4 batch=1
submit 1 1 1 aa
stop-at 1 4 drop
tick 1
start 1
submit 1 1 2 bb
tick 1
flush
",
            b"1 genesis
2 submit 1 admitted
3 stop-at 1
4 stopped 1
5 start 1
6 submit 1 admitted
7 tick 1
8 block 1 1 config 0 view 0 requests 1 first 1:2 signers 1,3,4
8 block 2 1 config 0 view 0 requests 1 first 1:2 signers 2,3,4
8 block 3 1 config 0 view 0 requests 1 first 1:2 signers 1,3,4
8 block 4 1 config 0 view 0 requests 1 first 1:2 signers 1,3,4
8 flush 27
node 1 height 2 config 0 view 0 left 0
node 2 height 2 config 0 view 0 left 0
node 3 height 2 config 0 view 0 left 0
node 4 height 2 config 0 view 0 left 0
sent 27
",
        ),
        (
            b"genesis bft 1,2,3,4 batch=1 byz=4
stop 2 drop
tick 2
submit 2 1 1 aa
show 2 0
stop 2 keep
stop-at 2 1 keep
start 1
stop 4 keep
start 5
lie 4 2 ff
deliver 1
flush
start 2
flush
stop 3 fill=ff
",
            b"1 genesis
2 stopped 2
3 refused stopped
4 refused stopped
5 refused stopped
6 refused stopped
7 refused stopped
8 refused running
9 refused no core
10 refused unknown node
11 lie 1
12 deliver 0
13 flush 0
14 start 2
15 flush 1
16 stopped 3
node 1 height 1 config 0 view 0 left 0
node 2 height 1 config 0 view 0 left 0
node 3 stopped
node 4 byzantine
sent 1
",
        ),
        // a flush goes on where a stop is reached
        (
            b"genesis bft 1,2,3,4 batch=1
submit 1 1 1 aa
tick 1
stop-at 2 1 keep
flush
start 2
flush
",
            b"1 genesis
2 submit 1 admitted
3 tick 1
4 stop-at 2
5 stopped 2
5 block 3 1 config 0 view 0 requests 1 first 1:1 signers 1,3,4
5 block 1 1 config 0 view 0 requests 1 first 1:1 signers 1,3,4
5 block 4 1 config 0 view 0 requests 1 first 1:1 signers 1,3,4
5 flush 15
6 start 2
7 flush 6
node 1 height 2 config 0 view 0 left 0
node 2 height 1 config 0 view 0 left 0
node 3 height 2 config 0 view 0 left 0
node 4 height 2 config 0 view 0 left 0
sent 21
",
        ),
    ] {
        let (status, sink) = played(rt.alloc(), script, 0, 0)?;
        assert_eq!(rt; status, 0);
        assert_eq!(rt; sink.bytes(), text);
    }
    Ok(())
}

/// A script of three requests in which a node is to stop at a call of its disk.
fn stopping(alloc: Global, node: u32, call: u32, mode: &str) -> Result<String, Fail> {
    let mut script = String::new(alloc);
    write!(
        script,
        "genesis bft 1,2,3,4 batch=1\nstop-at {node} {call} {mode}\n"
    )?;
    for serial in 1..4 {
        write!(script, "submit 1 1 {serial} aa\ntick 1\nflush\n")?;
    }
    write!(script, "start {node}\n")?;
    for id in 1..5 {
        write!(script, "tick {id} 2\n")?;
    }
    script.push_str("flush\n")?;
    for number in 1..4 {
        for id in 1..5 {
            write!(script, "show {id} {number}\n")?;
        }
    }
    Ok(script)
}

/// Where the word stands in a text, as a slice that begins behind it.
fn behind<'a>(text: &'a str, word: &str) -> Option<&'a str> {
    let (_, rest) = text.split_once(word)?;
    Some(rest)
}

/// How many blocks of one number are shown, one in each line; it fails where two have different hashes.
fn shown(text: &str, number: u32, alloc: Global) -> Result<usize, Fail> {
    let mut word = String::new(alloc);
    write!(word, " {number} config")?;
    let mut hashes = Vec::new(alloc);
    for line in text.split('\n') {
        if let Some(rest) = behind(line, word.as_str()) {
            if let Some(hash) = behind(rest, " hash ") {
                hashes.push(hash)?;
            }
        }
    }
    let hashes = hashes.as_slice();
    if let Some(first) = hashes.first() {
        if hashes.iter().any(|hash| hash != first) {
            return Err(Fail::new("two blocks of one number"));
        }
    }
    Ok(hashes.len())
}

/// Whether the stop was reached in a script. The blocks that the nodes show agree; where a follower is stopped, the others show
/// all three; where the leader is, a block that one of them has is had by three.
fn stop_is_reached(alloc: Global, node: u32, call: u32, mode: &str) -> Result<bool, Fail> {
    let script = stopping(alloc, node, call, mode)?;
    let (status, sink) = played(alloc, script.as_bytes(), 0, 0)?;
    if status != 0 {
        return Err(Fail::new("another status"));
    }
    let text = str::from_utf8(sink.bytes())?;
    let stopped = text.contains(" stopped ");
    for number in 1..4 {
        let count = shown(text, number, alloc)?;
        let few = count < 3 && !(node == 1 && count == 0);
        if few || (!stopped && count != 4) {
            return Err(Fail::new("too few blocks"));
        }
    }
    Ok(stopped)
}

/// Each node of a script of three requests is stopped at each counted call of its disk, with this image, and started again. The
/// answer is at how many calls the last one was.
fn stops_agree(alloc: Global, mode: &str) -> Result<u32, Fail> {
    let mut stops = 0;
    for node in 1..5 {
        for call in 1..100 {
            if !stop_is_reached(alloc, node, call, mode)? {
                break;
            }
            stops = call;
        }
        if stops < 20 {
            return Err(Fail::new("too few stops"));
        }
    }
    Ok(stops)
}

#[test]
fn stopped_and_kept(rt: HostRuntime) -> Result<(), Fail> {
    assert!(rt; stops_agree(rt.alloc(), "keep")? < 99);
    Ok(())
}

#[test]
fn stopped_and_dropped(rt: HostRuntime) -> Result<(), Fail> {
    assert!(rt; stops_agree(rt.alloc(), "drop")? < 99);
    Ok(())
}

#[test]
fn stopped_and_filled(rt: HostRuntime) -> Result<(), Fail> {
    assert!(rt; stops_agree(rt.alloc(), "fill=ff")? < 99);
    Ok(())
}
