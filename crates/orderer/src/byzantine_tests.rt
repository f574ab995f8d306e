//! Scripts with Byzantine members.
use crate::tests::played;
use std::alloc::Global;
use std::str;
use std::test::Fail;

/// The worked examples with Byzantine members.
#[test]
fn byzantine_examples(rt: HostRuntime) -> Result<(), Fail> {
    for (script, status, text) in [
        (
            b"genesis bft 1,2,3,4 batch=1 byz=1
byz-propose 1 2 0 1 1 aa
byz-propose 1 3 0 1 1 bb
byz-propose 1 4 0 1 1 bb
flush
"
                .as_slice(),
            0,
            b"1 genesis
2 byz-propose 1
3 byz-propose 2
4 byz-propose 3
5 flush 9
node 1 byzantine
node 2 height 1 config 0 view 0 left 0
node 3 height 1 config 0 view 0 left 0
node 4 height 1 config 0 view 0 left 0
sent 12
"
                .as_slice(),
        ),
        (
            b"genesis bft 1,2,3,4 batch=1 byz=4
seal 4 aa
seal 1 aa
show 1 0
lie 4 1 ff
deliver 1
lie 4 1 0f000000000000000101
",
            0,
            b"1 genesis
2 seal 0
3 refused not byzantine
4 block 1 0 config 0 raft requests 1 first 0:0 hash 0651a9d8988004632c994654b243e2ef417692ac286fe373a9c54ff4ca2f8f75
5 lie 1
6 deliver 1
7 refused raft message
node 1 height 1 config 0 view 0 left 0
node 2 height 1 config 0 view 0 left 0
node 3 height 1 config 0 view 0 left 0
node 4 byzantine
sent 1
",
        ),
        (
            b"genesis bft 1,2,3,4 batch=1 byz=3,4
",
            5,
            b"1 too many faulty: configuration 0 has 2, bound 1
",
        ),
    ] {
        let (found, sink) = played(rt.alloc(), script, 0, 0)?;
        assert_eq!(rt; found, status);
        assert_eq!(rt; sink.bytes(), text);
    }
    Ok(())
}

/// Blocks 1 and 2 of every member.
const SHOWN: &[u8] = b"show 1 1
show 2 1
show 3 1
show 4 1
show 1 2
show 2 2
show 3 2
show 4 2
";

/// The first messages come once more, in another order.
const AGAIN: &[u8] = b"deliver 7-9,4-6,1-3
flush
";

/// How many blocks a text shows, where all that have one number have one hash.
fn shown(alloc: Global, text: &str) -> Result<Option<usize>, Fail> {
    let mut blocks: Vec<(&str, &str)> = Vec::new(alloc);
    for line in text.lines() {
        if let Some((front, hash)) = line.split_once(" hash ") {
            let number = front.split_whitespace().nth(3).unwrap_or("");
            if blocks
                .iter()
                .any(|block| block.0 == number && block.1 != hash)
            {
                return Ok(None);
            }
            blocks.push((number, hash))?;
        }
    }
    Ok(Some(blocks.len()))
}

/// What a script prints, where blocks are shown behind it, messages come once more, and blocks are shown
/// again.
fn printed(alloc: Global, moves: &[u8]) -> Result<String, Fail> {
    let mut script = Vec::new(alloc);
    script.extend_from_slice(moves)?;
    script.extend_from_slice(SHOWN)?;
    script.extend_from_slice(AGAIN)?;
    script.extend_from_slice(SHOWN)?;
    let (status, sink) = played(alloc, script.as_slice(), 0, 0)?;
    if status != 0 {
        return Err(Fail::new("another status"));
    }
    let text = str::from_utf8(sink.bytes())?;
    Ok(String::from_str(alloc, text)?)
}

/// Whatever a leader or a follower proposes, votes and signs, all ledgers agree.
#[test]
fn ledgers_agree(rt: HostRuntime) -> Result<(), Fail> {
    for (moves, count) in [
        (
            b"genesis bft 1,2,3,4 batch=1 byz=1
byz-propose 1 2 0 1 1 aa
byz-propose 1 3 0 1 1 bb
byz-propose 1 4 0 1 1 bb
byz-propose 1 2 0 1 1 bb
byz-propose 1 3 0 1 1 aa
byz-vote 1 3 prepare 0 2
byz-vote 1 4 prepare 0 2
flush
byz-vote 1 3 commit 0 2
byz-vote 1 4 commit 0 2
flush
"
                .as_slice(),
            4,
        ),
        (
            b"genesis bft 1,2,3,4 batch=1 byz=4
byz-propose 4 1 0 1 1 aa
byz-propose 4 2 0 1 1 bb
byz-propose 4 3 0 1 1 bb
submit 1 1 1 cc
tick 1
byz-vote 4 2 prepare 0 2
byz-vote 4 3 prepare 0 2
flush
byz-propose 4 2 0 2 2 aa
byz-propose 4 3 0 2 2 bb
submit 1 1 2 dd
tick 1
flush
",
            12,
        ),
        (
            b"genesis bft 1,2,3,4 batch=1 byz=1
byz-propose 1 2 0 1 1 aa
byz-propose 1 3 0 1 1 bb
byz-propose 1 4 0 1 1 bb
byz-vote 1 2 prepare 0 1
byz-vote 1 2 prepare 0 2
byz-vote 1 3 prepare 0 2
byz-vote 1 3 prepare 0 1
byz-vote 1 4 prepare 0 2
byz-vote 1 2 commit 0 1
byz-vote 1 2 commit 0 2
byz-vote 1 3 commit 0 1
byz-vote 1 3 commit 0 2
byz-vote 1 4 commit 0 2
flush
",
            2,
        ),
        (
            b"genesis bft 1,2,3,4 batch=1 byz=4
submit 1 1 1 aa
tick 1
byz-propose 4 1 0 1 1 bb
byz-vote 4 1 prepare 0 7
byz-vote 4 1 prepare 0 1
byz-vote 4 2 prepare 0 1
byz-vote 4 2 prepare 0 7
byz-vote 4 3 prepare 0 1
byz-vote 4 1 commit 0 7
byz-vote 4 1 commit 0 1
byz-vote 4 2 commit 0 1
byz-vote 4 2 commit 0 7
byz-vote 4 3 commit 0 7
flush
",
            6,
        ),
        (
            b"genesis bft 1,2,3,4 batch=1 byz=1
byz-propose 1 2 0 1 1 aa
byz-propose 1 3 0 1 1 aa
byz-vote 1 2 prepare 0 1
byz-vote 1 3 prepare 0 1
flush 1,2,3
lie 1 2 030000000000000000000000000000000000000000000000018c3456971bc82974c2deeaadc1bed3d7b3a5f18974cfdcd1827cf5eed85cb58b0000000100080000000000000000
lie 1 2 030000000000000000000000000000000000000000000000018c3456971bc82974c2deeaadc1bed3d7b3a5f18974cfdcd1827cf5eed85cb58b0000000300080000000000000000
lie 1 2 030000000000000000000000000000000000000000000000018c3456971bc82974c2deeaadc1bed3d7b3a5f18974cfdcd1827cf5eed85cb58b0000000100083fffffffffffffff
lie 1 2 030000000000000000000000000000000000000000000000018c3456971bc82974c2deeaadc1bed3d7b3a5f18974cfdcd1827cf5eed85cb58b000000010000
lie 1 2 030000000000000000000000000000000000000000000000018c3456971bc82974c2deeaadc1bed3d7b3a5f18974cfdcd1827cf5eed85cb58b00000001001000000000000000000000000000000000
flush 1,2,3
show 2 1
byz-vote 1 2 commit 0 1
flush 1,2,3
",
            2,
        ),
        (
            b"genesis bft 1,2,3,4 batch=1 byz=4
submit 1 1 1 aa
tick 1
byz-vote 4 1 prepare 0 1
byz-vote 4 2 prepare 0 1
flush 1,2,4
lie 4 1 030000000000000000000000000000000000000000000000018c3456971bc82974c2deeaadc1bed3d7b3a5f18974cfdcd1827cf5eed85cb58b0000000400080000000000000000
lie 4 1 030000000000000000000000000000000000000000000000018c3456971bc82974c2deeaadc1bed3d7b3a5f18974cfdcd1827cf5eed85cb58b0000000200080000000000000000
lie 4 1 030000000000000000000000000000000000000000000000018c3456971bc82974c2deeaadc1bed3d7b3a5f18974cfdcd1827cf5eed85cb58b0000000400083fffffffffffffff
lie 4 1 030000000000000000000000000000000000000000000000018c3456971bc82974c2deeaadc1bed3d7b3a5f18974cfdcd1827cf5eed85cb58b000000040000
lie 4 1 030000000000000000000000000000000000000000000000018c3456971bc82974c2deeaadc1bed3d7b3a5f18974cfdcd1827cf5eed85cb58b00000004001000000000000000000000000000000000
flush 1,2,4
show 1 1
byz-vote 4 1 commit 0 1
flush 1,2,4
",
            4,
        ),
    ] {
        let text = printed(rt.alloc(), moves)?;
        assert_eq!(rt; shown(rt.alloc(), text.as_str())?, Some(count));
    }
    Ok(())
}

/// A block of one request: `N` stands for a number, `Z` for a digest.
const BLOCK: &str = "NZZZ000000010100000000000000000000000000000000NNN0000";

/// The messages of each kind, and bytes that are none: `B` stands for a block.
const LIES: &[&str] = &[
    "01NNNB00",
    "01NNNB01N0200000001000800000000000000000000000200080000000000000001",
    "02NNNZ",
    "03NNNZffffffff0000",
    "04NN",
    "05NNN00000000000000000000",
    "05NNN01ZN0001NZ01NZ000000010008000000000000000001B",
    "06NN0000",
    "06NN01N00000000000001000001B",
    "07NNN",
    "08NN",
    "090100000000N00000000",
    "0901ffffffffN00000001ff",
    "0aN00",
    "0aN01",
    "0aN08",
    "0aN09",
    "0bBN00",
    "0cN",
    "0d0000",
    "0d0001NZZZ",
    "0eNNN",
    "0fN00",
    "0fN01",
    "10NNZ00",
    "10NNZ01B",
    "11NNZ00",
    "11NNZ01",
    "12B",
    "00",
    "13",
    "ffNNN",
    "-",
];

/// Adds a byte of a pattern, where `N` is this number in hex, and `Z` a digest.
fn put_byte(script: &mut Vec<u8>, byte: u8, number: &str) -> Result<(), Fail> {
    match byte {
        b'N' => script.extend_from_slice(number.as_bytes())?,
        b'Z' => script.extend_from_slice(&[b'0'; 64])?,
        _ => script.push(byte)?,
    }
    Ok(())
}

/// Adds a pattern, with a block for each `B`.
fn put_pattern(script: &mut Vec<u8>, pattern: &str, number: &str) -> Result<(), Fail> {
    for byte in pattern.bytes() {
        if byte == b'B' {
            for inner in BLOCK.bytes() {
                put_byte(script, inner, number)?;
            }
        } else {
            put_byte(script, byte, number)?;
        }
    }
    Ok(())
}

/// Adds lies with the least and the greatest number, and with the first that is none.
fn put_lies(script: &mut Vec<u8>, front: &[u8]) -> Result<(), Fail> {
    for number in ["0000000000000000", "3fffffffffffffff", "4000000000000000"] {
        for pattern in LIES {
            script.extend_from_slice(front)?;
            put_pattern(script, pattern, number)?;
            script.push(b'\n')?;
        }
    }
    Ok(())
}

/// Messages of every kind with numbers at their bounds change no ledger. Those of Raft are refused.
#[test]
fn lies_of_every_kind(rt: HostRuntime) -> Result<(), Fail> {
    for (start, front, end, count) in [
        (
            b"genesis bft 1,2,3,4 batch=1 byz=1
byz-propose 1 2 0 1 1 aa
byz-propose 1 3 0 1 1 aa
"
                .as_slice(),
            b"lie 1 2 ".as_slice(),
            b"byz-propose 1 4 0 1 1 aa
flush
"
                .as_slice(),
            6,
        ),
        (
            b"genesis bft 1,2,3,4 batch=1 byz=4
submit 1 1 1 aa
tick 1
",
            b"lie 4 2 ",
            b"flush
",
            6,
        ),
    ] {
        let mut script = Vec::new(rt.alloc());
        script.extend_from_slice(start)?;
        put_lies(&mut script, front)?;
        script.extend_from_slice(end)?;
        let text = printed(rt.alloc(), script.as_slice())?;
        assert_eq!(rt;
            text.lines()
                .filter(|line| line.ends_with(" refused raft message"))
                .count(),
            16
        );
        assert_eq!(rt; shown(rt.alloc(), text.as_str())?, Some(count));
    }
    Ok(())
}
