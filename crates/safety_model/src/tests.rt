ghost use Rattle.std.specs.Prelude.{◌≡◌, length, IfOk};
ghost use Rattle.ord_types.specs.declared.values.Kind.TheVariants.{Bft};
ghost use Rattle.ord_types.specs.Lengths.{FitsRequests, FitsMeta};

use crate::{Fact, FactLog, FactRefusal};
use ord_types::{
    Batch, Block, Bytes, Cert, Config, Digest, Header, Kind, List, Meta, Mode, NoMemory, Proof,
    ReqId, ReqKind, Request, Sig, block_hash, content_hash, genesis_block, meta_hash,
};
use std::alloc::Global;

pub const A: Digest = [1; 32];

pub const B: Digest = [2; 32];

fn ids_of(alloc: Global, ids: &[u32]) -> Result<List<u32>, NoMemory> {
    let mut list = List::new(alloc);
    for id in ids {
        list.push(*id)?;
    }
    Ok(list)
}

// Members 1 to 4, whose blocks have at most 20 bytes of requests.
fn config_of_four(alloc: Global, mode: Mode) -> Result<Config, NoMemory>
    ensures members { IfOk result (λ config. length config.members ≡ 4) }
    ensures kind { IfOk result (λ config. config.kind ≡ Bft) }
{
    let mut members = List::new(alloc);
    members.push(1)?;
    members.push(2)?;
    members.push(3)?;
    members.push(4)?;
    let batch = Batch {
        count: 1,
        preferred: 20,
        absolute: 20,
        wait: 10,
    };
    Ok(Config {
        number: 0,
        kind: Kind::Bft,
        mode,
        members,
        batch,
        rotation: 0,
    })
}

// An empty log, and the hash of its block 0.
pub fn log_of_four(
    alloc: Global,
    mode: Mode,
    byzantine: &[u32],
) -> Result<(FactLog, Digest), NoMemory> {
    let config = config_of_four(alloc, mode)?;
    let genesis = genesis_block(alloc, &config)?;
    let hash = block_hash(&genesis.header);
    let log = FactLog::new(alloc, config, genesis, ids_of(alloc, byzantine)?)?;
    Ok((log, hash))
}

// A vote of a member under configuration 0.
pub fn accepted(member: u32, config: u64, view: u64, number: u64, digest: Digest) -> Fact {
    Fact::Accepted {
        member,
        config,
        view,
        number,
        digest,
    }
}

pub fn prepared(member: u32, config: u64, view: u64, number: u64, digest: Digest) -> Fact {
    Fact::Prepared {
        member,
        config,
        view,
        number,
        digest,
    }
}

fn request_of(alloc: Global, kind: ReqKind, payload: &[u8; 3]) -> Result<Request, NoMemory>
    ensures { IfOk result (λ request. length request.payload ≡ 3) }
{
    Ok(Request {
        kind,
        id: ReqId {
            client: 7,
            serial: 1,
        },
        payload: Bytes::from_slice(alloc, payload)?,
    })
}

// The requests of a block: at most two, of 20 bytes each.
fn requests_of(alloc: Global, kind: ReqKind, count: u32) -> Result<List<Request>, NoMemory>
    ensures { IfOk result FitsRequests }
{
    let mut requests = List::new(alloc);
    if count > 0 {
        requests.push(request_of(alloc, kind, b"abc")?)?;
    }
    if count > 1 {
        requests.push(request_of(alloc, kind, b"def")?)?;
    }
    Ok(requests)
}

fn meta_of(alloc: Global, config: u64) -> Meta
    ensures { FitsMeta result }
{
    Meta {
        config,
        view: 0,
        decided: 0,
        blacklist: List::new(alloc),
        signers: List::new(alloc),
    }
}

// What a block is to be made of.
#[derive(Clone, Copy)]
pub struct Made {
    number: u64,
    previous: Digest,
    config: u64,
    kind: ReqKind,
    count: u32,
    false_content: bool,
    false_meta: bool,
}

pub fn block_of(alloc: Global, made: Made) -> Result<Block, NoMemory> {
    let requests = requests_of(alloc, made.kind, made.count)?;
    let stands = meta_of(alloc, made.config);
    let previous = made.previous;
    let content = if made.false_content {
        A
    } else {
        content_hash(&requests)
    };
    let meta = if made.false_meta {
        A
    } else {
        meta_hash(&stands)
    };
    let header = Header {
        number: made.number,
        previous,
        content,
        meta,
    };
    Ok(Block {
        header,
        requests,
        meta: stands,
    })
}

// A certificate of these signers.
pub fn cert_of(alloc: Global, view: u64, signers: &[u32]) -> Result<Proof, NoMemory> {
    let mut sigs = List::new(alloc);
    for signer in signers {
        sigs.push(Sig {
            signer: *signer,
            bytes: Bytes::new(alloc),
        })?;
    }
    Ok(Proof::Bft(Cert { view, sigs }))
}

pub fn delivered(member: u32, block: Block, proof: Proof) -> Fact {
    Fact::Delivered {
        member,
        block,
        proof,
    }
}

// A good block 1 after this hash.
pub fn first_after(previous: Digest) -> Made {
    Made {
        number: 1,
        previous,
        config: 0,
        kind: ReqKind::Ordinary,
        count: 1,
        false_content: false,
        false_meta: false,
    }
}

// The first rule that the fact breaks; 0 where it was added.
pub fn answer(log: &mut FactLog, fact: Fact) -> u8 {
    match log.push_allowed(fact) {
        Ok(()) => 0,
        Err(FactRefusal::Rule(rule)) => rule,
        Err(FactRefusal::NoMemory) => 255,
    }
}

#[test]
fn a_second_acceptance_is_refused(rt: HostRuntime) -> Result<(), NoMemory> {
    let (mut log, _) = log_of_four(rt.alloc(), Mode::Normal, &[])?;
    assert_eq!(rt; log.push_allowed(accepted(1, 0, 0, 1, A)), Ok(()));
    assert_eq!(rt;
        log.push_allowed(accepted(1, 0, 0, 1, B)),
        Err(FactRefusal::Rule(7))
    );
    log.agrees();
    Ok(())
}

#[test]
fn rules_of_acceptances(rt: HostRuntime) -> Result<(), NoMemory> {
    let (mut log, _) = log_of_four(rt.alloc(), Mode::Normal, &[4])?;
    for (member, config, view, number, want) in [
        (4, 0, 0, 1, 1),
        (5, 0, 0, 1, 3),
        (1, 1, 0, 1, 4),
        (1, 0, 0, 2, 5),
        (1, 0, 1, 1, 6),
        (1, 0, 0, 1, 0),
        (1, 0, 0, 1, 7),
        (2, 0, 0, 1, 0),
    ] {
        let fact = accepted(member, config, view, number, A);
        assert_eq!(rt; answer(&mut log, fact), want, "of {member}");
    }
    let (mut above, _) = log_of_four(rt.alloc(), Mode::Normal, &[3, 4])?;
    assert_eq!(rt; answer(&mut above, accepted(1, 0, 0, 1, A)), 2);
    Ok(())
}

#[test]
fn rules_of_preparations(rt: HostRuntime) -> Result<(), NoMemory> {
    let (mut log, _) = log_of_four(rt.alloc(), Mode::Normal, &[4])?;
    assert_eq!(rt; answer(&mut log, accepted(1, 0, 0, 1, A)), 0);
    assert_eq!(rt; answer(&mut log, prepared(1, 0, 0, 1, A)), 9);
    assert_eq!(rt; answer(&mut log, accepted(2, 0, 0, 1, A)), 0);
    for (member, config, view, number, want) in [
        (4, 0, 0, 1, 1),
        (5, 0, 0, 1, 3),
        (1, 1, 0, 1, 4),
        (1, 0, 0, 2, 5),
        (1, 0, 1, 1, 6),
        (3, 0, 0, 1, 9),
        (1, 0, 0, 1, 0),
    ] {
        let fact = prepared(member, config, view, number, A);
        assert_eq!(rt; answer(&mut log, fact), want, "of {member}");
    }
    let (mut above, _) = log_of_four(rt.alloc(), Mode::Normal, &[3, 4])?;
    assert_eq!(rt; answer(&mut above, prepared(1, 0, 0, 1, A)), 2);
    Ok(())
}

// All accept the block, and these prepare it.
pub fn prepare(log: &mut FactLog, hash: Digest, members: &[u32]) -> u8 {
    for member in [1, 2, 3, 4] {
        if answer(log, accepted(member, 0, 0, 1, hash)) != 0 {
            return 1;
        }
    }
    for member in members {
        if answer(log, prepared(*member, 0, 0, 1, hash)) != 0 {
            return 2;
        }
    }
    0
}

#[test]
fn certificates_of_deliveries(rt: HostRuntime) -> Result<(), NoMemory> {
    let alloc = rt.alloc();
    let (mut log, genesis) = log_of_four(alloc, Mode::Normal, &[])?;
    let made = first_after(genesis);
    let hash = block_hash(&block_of(alloc, made)?.header);
    assert_eq!(rt; prepare(&mut log, hash, &[1, 2, 4]), 0);
    let raft = delivered(1, block_of(alloc, made)?, Proof::Raft);
    assert_eq!(rt; answer(&mut log, raft), 16);
    for (view, third, want) in [(0, 3, 16), (0, 2, 16), (0, 5, 16), (1, 4, 16), (0, 4, 0)] {
        let cert = cert_of(alloc, view, &[1, 2, third])?;
        let fact = delivered(1, block_of(alloc, made)?, cert);
        assert_eq!(rt; answer(&mut log, fact), want, "of {third}");
    }
    // a node that is no member delivers too
    let other = delivered(9, block_of(alloc, made)?, cert_of(alloc, 0, &[4, 2, 1])?);
    assert_eq!(rt; answer(&mut log, other), 0);
    assert_eq!(rt; answer(&mut log, accepted(1, 0, 0, 1, hash)), 5);
    assert_eq!(rt; answer(&mut log, accepted(1, 0, 0, 2, A)), 0);
    Ok(())
}

#[test]
fn blocks_of_deliveries(rt: HostRuntime) -> Result<(), NoMemory> {
    let alloc = rt.alloc();
    let (mut log, genesis) = log_of_four(alloc, Mode::Normal, &[])?;
    let good = first_after(genesis);
    let hash = block_hash(&block_of(alloc, good)?.header);
    assert_eq!(rt; prepare(&mut log, hash, &[1, 2, 3]), 0);
    for (made, want) in [
        (Made { number: 2, ..good }, 5),
        (
            Made {
                previous: A,
                ..good
            },
            15,
        ),
        (
            Made {
                false_content: true,
                ..good
            },
            15,
        ),
        (
            Made {
                false_meta: true,
                ..good
            },
            15,
        ),
        (Made { config: 1, ..good }, 15),
        (Made { count: 0, ..good }, 15),
        (Made { count: 2, ..good }, 15),
        (
            Made {
                kind: ReqKind::Change,
                ..good
            },
            15,
        ),
        (good, 0),
    ] {
        let fact = delivered(1, block_of(alloc, made)?, cert_of(alloc, 0, &[1, 2, 3])?);
        assert_eq!(rt; answer(&mut log, fact), want);
    }
    Ok(())
}

#[test]
fn other_rules_of_deliveries(rt: HostRuntime) -> Result<(), NoMemory> {
    let alloc = rt.alloc();
    for (mode, other, member, want) in [
        (Mode::Normal, 9, 4, 1),
        (Mode::Normal, 3, 1, 2),
        (Mode::Maintenance, 9, 1, 15),
        (Mode::Normal, 9, 1, 16),
    ] {
        let (mut log, genesis) = log_of_four(alloc, mode, &[4, other])?;
        let block = block_of(alloc, first_after(genesis))?;
        let fact = delivered(member, block, cert_of(alloc, 0, &[1, 2, 4])?);
        assert_eq!(rt; answer(&mut log, fact), want);
    }
    Ok(())
}
