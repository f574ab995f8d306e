ghost use Rattle.std.specs.Prelude.{◌≡◌, IfOk};
ghost use Rattle.ord_types.specs.Lengths.{FitsRequests, FitsMeta};

use crate::{BlockRefusal, check_block, is_next};
use ord_types::{
    Batch, Block, Bytes, Config, Digest, Header, Kind, List, Meta, Mode, NoMemory, Place, ReqId,
    ReqKind, Request, content_hash, meta_hash,
};
use signer_edge::SealBox;
use std::alloc::Global;

const A: Digest = [1; 32];

const B: Digest = [2; 32];

// SHA-256, made elsewhere, of one ordinary request 7:1 with the payload `abc`.
const CONTENT: Digest = [
    0x35, 0x95, 0x30, 0x22, 0xa7, 0x33, 0x99, 0x97, 0xa6, 0xc9, 0x1c, 0xd0, 0xaf, 0x00, 0x15, 0xc3,
    0x1c, 0x36, 0x29, 0x35, 0x41, 0xd0, 0x57, 0x68, 0x71, 0xe5, 0x84, 0xfa, 0x3b, 0x5f, 0x94, 0x01,
];

// The same of a meta under configuration 3, in view 0, with nothing else.
const META: Digest = [
    0x1d, 0x17, 0x99, 0x01, 0xcd, 0x6a, 0x90, 0xc1, 0xf1, 0xea, 0x6c, 0x31, 0xd4, 0xef, 0x99, 0x8f,
    0xa7, 0x81, 0x7e, 0x85, 0xad, 0xdd, 0x74, 0xfc, 0x3a, 0xf2, 0x3a, 0x7f, 0x21, 0x1f, 0xfa, 0xe4,
];

// Members 1 to 4 under configuration 3, whose blocks have at most 40 bytes of requests.
fn config_of_four(alloc: Global, mode: Mode) -> Result<Config, NoMemory> {
    let mut members = List::new(alloc);
    for member in [1, 2, 3, 4] {
        members.push(member)?;
    }
    let batch = Batch {
        count: 2,
        preferred: 20,
        absolute: 40,
        wait: 10,
    };
    Ok(Config {
        number: 3,
        kind: Kind::Bft,
        mode,
        members,
        batch,
        rotation: 0,
    })
}

fn meta_of(alloc: Global, config: u64) -> Meta
    ensures { FitsMeta result }
{
    Meta {
        config,
        view: 0,
        decided: 0,
        blacklist: List::new(alloc),
        signers: List::new(alloc),
    }
}

// A ledger whose next block has this number, behind one of the hash A.
fn place_at(alloc: Global, height: u64, mode: Mode) -> Result<Place, NoMemory> {
    Ok(Place {
        config: config_of_four(alloc, mode)?,
        start: 0,
        height,
        last: A,
        last_meta: meta_of(alloc, 3),
        last_cert: None,
    })
}

fn request_of(alloc: Global, kind: ReqKind, payload: &[u8]) -> Result<Request, NoMemory>
    ensures { IfOk result (λ request. request.payload ≡ payload.now) }
{
    Ok(Request {
        kind,
        id: ReqId {
            client: 7,
            serial: 1,
        },
        payload: Bytes::from_slice(alloc, payload)?,
    })
}

// How the requests of a block are made: which kinds they have, and whether the first one is above the bound.
#[derive(Clone, Copy)]
enum Requests {
    None,
    One(ReqKind),
    Two(ReqKind, ReqKind),
    Three,
    Long,
    OneAndLong,
}

// These requests, each of 20 bytes, and the long one of 41.
fn requests_of(alloc: Global, requests: Requests) -> Result<List<Request>, NoMemory>
    ensures { IfOk result FitsRequests }
{
    let ordinary = ReqKind::Ordinary;
    let mut list = List::new(alloc);
    match requests {
        Requests::None => {}
        Requests::One(kind) => list.push(request_of(alloc, kind, b"abc")?)?,
        Requests::Two(first, second) => {
            list.push(request_of(alloc, first, b"abc")?)?;
            list.push(request_of(alloc, second, b"def")?)?;
        }
        Requests::Three => {
            list.push(request_of(alloc, ordinary, b"abc")?)?;
            list.push(request_of(alloc, ordinary, b"def")?)?;
            list.push(request_of(alloc, ordinary, b"ghi")?)?;
        }
        Requests::Long => list.push(request_of(alloc, ordinary, &[0; 24])?)?,
        Requests::OneAndLong => {
            list.push(request_of(alloc, ordinary, b"abc")?)?;
            list.push(request_of(alloc, ordinary, &[0; 24])?)?;
        }
    }
    Ok(list)
}

// What a block is to be made of.
#[derive(Clone, Copy)]
struct Made {
    number: u64,
    previous: Digest,
    requests: Requests,
    config: u64,
    false_content: bool,
    false_meta: bool,
}

// A good block 5 behind the hash A.
const GOOD: Made = Made {
    number: 5,
    previous: A,
    requests: Requests::One(ReqKind::Ordinary),
    config: 3,
    false_content: false,
    false_meta: false,
};

fn block_of(alloc: Global, made: Made) -> Result<Block, NoMemory> {
    let requests = requests_of(alloc, made.requests)?;
    let stands = meta_of(alloc, made.config);
    let content = if made.false_content {
        A
    } else {
        content_hash(&requests)
    };
    let meta = if made.false_meta {
        A
    } else {
        meta_hash(&stands)
    };
    let previous = made.previous;
    let header = Header {
        number: made.number,
        previous,
        content,
        meta,
    };
    Ok(Block {
        header,
        requests,
        meta: stands,
    })
}

// The refusal of a block at the place, if there is one. No configuration comes with a block yet.
fn answer(alloc: Global, place: &Place, block: &Block) -> Result<Option<BlockRefusal>, NoMemory> {
    let seat = SealBox::new(alloc)?.seat(1);
    match check_block(alloc, place, block, &seat) {
        Ok(None) => Ok(None),
        Ok(Some(_)) => Ok(Some(BlockRefusal::NoMemory)),
        Err(refusal) => Ok(Some(refusal)),
    }
}

#[test]
fn hashes_made_elsewhere_are_taken(rt: HostRuntime) -> Result<(), NoMemory> {
    let alloc = rt.alloc();
    let place = place_at(alloc, 5, Mode::Normal)?;
    let block = Block {
        header: Header {
            number: 5,
            previous: A,
            content: CONTENT,
            meta: META,
        },
        requests: requests_of(alloc, Requests::One(ReqKind::Ordinary))?,
        meta: meta_of(alloc, 3),
    };
    assert_eq!(rt; answer(alloc, &place, &block)?, None);
    assert!(rt; is_next(&place.last, 4, &place.config, &block));
    assert!(rt; !is_next(&place.last, 5, &place.config, &block));
    Ok(())
}

#[test]
fn each_block_has_its_first_refusal(rt: HostRuntime) -> Result<(), NoMemory> {
    let alloc = rt.alloc();
    let place = place_at(alloc, 5, Mode::Normal)?;
    let ordinary = ReqKind::Ordinary;
    let change = ReqKind::Change;
    for (made, want) in [
        (GOOD, None),
        (
            Made {
                requests: Requests::Two(ordinary, ordinary),
                ..GOOD
            },
            None,
        ),
        (
            Made {
                number: 6,
                previous: B,
                ..GOOD
            },
            Some(BlockRefusal::WrongNumber(6)),
        ),
        (
            Made {
                previous: B,
                false_content: true,
                ..GOOD
            },
            Some(BlockRefusal::WrongPrevious(B, A)),
        ),
        (
            Made {
                false_content: true,
                false_meta: true,
                ..GOOD
            },
            Some(BlockRefusal::WrongContent),
        ),
        (
            Made {
                false_meta: true,
                config: 4,
                ..GOOD
            },
            Some(BlockRefusal::WrongMeta),
        ),
        (
            Made {
                config: 4,
                requests: Requests::None,
                ..GOOD
            },
            Some(BlockRefusal::WrongConfig(4)),
        ),
        (
            Made {
                requests: Requests::None,
                ..GOOD
            },
            Some(BlockRefusal::Unlawful(0)),
        ),
        (
            Made {
                requests: Requests::One(change),
                ..GOOD
            },
            Some(BlockRefusal::Unlawful(0)),
        ),
        (
            Made {
                requests: Requests::Two(ordinary, change),
                ..GOOD
            },
            Some(BlockRefusal::Unlawful(1)),
        ),
        (
            Made {
                requests: Requests::Three,
                ..GOOD
            },
            Some(BlockRefusal::Unlawful(2)),
        ),
        (
            Made {
                requests: Requests::Long,
                ..GOOD
            },
            Some(BlockRefusal::Unlawful(0)),
        ),
        (
            Made {
                requests: Requests::OneAndLong,
                ..GOOD
            },
            Some(BlockRefusal::Unlawful(1)),
        ),
    ] {
        let block = block_of(alloc, made)?;
        assert_eq!(rt; answer(alloc, &place, &block)?, want);
    }
    Ok(())
}

#[test]
fn some_places_have_no_next_block(rt: HostRuntime) -> Result<(), NoMemory> {
    let alloc = rt.alloc();
    let block = block_of(alloc, GOOD)?;
    let maintained = place_at(alloc, 5, Mode::Maintenance)?;
    assert_eq!(rt;
        answer(alloc, &maintained, &block)?,
        Some(BlockRefusal::Unlawful(0))
    );
    let most = 1 << 62;
    let last = place_at(alloc, most - 1, Mode::Normal)?;
    let full = place_at(alloc, most, Mode::Normal)?;
    let before = block_of(
        alloc,
        Made {
            number: most - 1,
            ..GOOD
        },
    )?;
    let past = block_of(
        alloc,
        Made {
            number: most,
            ..GOOD
        },
    )?;
    assert_eq!(rt; answer(alloc, &last, &before)?, None);
    assert_eq!(rt;
        answer(alloc, &full, &past)?,
        Some(BlockRefusal::WrongNumber(most))
    );
    assert!(rt; !is_next(&full.last, most - 1, &full.config, &past));
    Ok(())
}
