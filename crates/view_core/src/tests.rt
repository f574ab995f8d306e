//! Each call once with ample memory.
ghost use Rattle.std.specs.Prelude.{◌≤◌, length, true};
ghost use Rattle.ord_types.specs.Lengths.{FitsSig};
ghost use Rattle.view_core.specs.Places.{IsPlace};

use crate::held::ViewState;
use bft_wire::{Commit, PrePrepare, Prepare, Reason};
use ord_types::{
    Batch, Block, Bytes, Cert, Config, Digest, Kind, List, Meta, Mode, NoMemory, Place, ReqId,
    ReqKind, Request, Sig, block_hash,
};
use signer_edge::Verifier;
use std::alloc::Global;
use std::test::Fail;
use view_model::Act;

/// Accepts each signature.
struct Trusting;

impl Verifier for Trusting {
    ghost accepts = { λ verifier statement sig. true };

    fn verify(&self, _statement: &[u8], _sig: &Sig) -> bool {
        true
    }
}

/// Block 1 is the next one, the first under configuration 0.
fn place(alloc: Global, members: List<u32>) -> Place
    requires some { 1 ≤ length members }
    requires few { length members ≤ 31 }
    ensures { IsPlace result }
{
    let batch = Batch {
        count: 10,
        preferred: 1000,
        absolute: 10000,
        wait: 2,
    };
    Place {
        config: Config {
            number: 0,
            kind: Kind::Bft,
            mode: Mode::Normal,
            members,
            batch,
            rotation: 0,
        },
        start: 1,
        height: 1,
        last: [5; 32],
        last_meta: Meta {
            config: 0,
            view: 0,
            decided: 0,
            blacklist: List::new(alloc),
            signers: List::new(alloc),
        },
        last_cert: None,
    }
}

fn offer(alloc: Global) -> Result<List<Request>, NoMemory> {
    let mut offer = List::new(alloc);
    offer.push(Request {
        kind: ReqKind::Ordinary,
        id: ReqId {
            client: 3,
            serial: 1,
        },
        payload: Bytes::from_slice(alloc, b"pay")?,
    })?;
    Ok(offer)
}

fn commit(alloc: Global, signer: u32, digest: Digest) -> Commit
    ensures { FitsSig result.sig }
{
    Commit {
        config: 0,
        view: 0,
        number: 1,
        digest,
        sig: Sig {
            signer,
            bytes: Bytes::new(alloc),
        },
    }
}

fn accepted(act: Act) -> Option<Block> {
    match act {
        Act::Accept(block) => Some(block),
        _ => None,
    }
}

fn prepared(act: Act) -> Option<Digest> {
    match act {
        Act::Prepare(digest) => Some(digest),
        _ => None,
    }
}

fn delivered(act: Act) -> Option<(Block, Cert)> {
    match act {
        Act::Deliver(block, cert) => Some((block, cert)),
        _ => None,
    }
}

#[test]
fn a_single_member_orders_a_block(rt: HostRuntime) -> Result<(), Fail> {
    let alloc = rt.alloc();
    let mut members = List::new(alloc);
    members.push(7)?;
    let place = place(alloc, members);
    let mut state = ViewState::new(alloc, 7)?;
    let idle = state.due(&place, &Trusting)?;
    assert!(rt; matches!(&idle, Act::Nothing(Reason::NotYet)));
    let proposed = state.propose(&place, offer(alloc)?, &Trusting)?;
    let block = accepted(proposed).ok_or("not accepted")?;
    assert_eq!(rt; block.header.number, 1);
    let digest = block_hash(&block.header);
    let told = state.due(&place, &Trusting)?;
    assert_eq!(rt; prepared(told).ok_or("not prepared")?, digest);
    let vote = commit(alloc, 7, digest);
    let told = state.on_commit(&place, 7, vote, &Trusting)?;
    let (block, cert) = delivered(told).ok_or("not delivered")?;
    assert_eq!(rt; block_hash(&block.header), digest);
    assert_eq!(rt; cert.view, 0);
    assert_eq!(rt; cert.sigs.len(), 1);
    Ok(())
}

#[test]
fn a_follower_prepares_what_the_leader_proposes(rt: HostRuntime) -> Result<(), Fail> {
    let alloc = rt.alloc();
    let mut members = List::new(alloc);
    members.push(7)?;
    members.push(8)?;
    members.push(9)?;
    let place = place(alloc, members);
    let mut leader = ViewState::new(alloc, 7)?;
    let proposed = leader.propose(&place, offer(alloc)?, &Trusting)?;
    let message = PrePrepare {
        config: 0,
        view: 0,
        number: 1,
        block: accepted(proposed).ok_or("not proposed")?,
        cert: None,
    };
    let mut follower = ViewState::new(alloc, 8)?;
    let told = follower.on_preprepare(&place, 7, message, &Trusting)?;
    let block = accepted(told).ok_or("not accepted")?;
    let digest = block_hash(&block.header);
    let vote = Prepare {
        config: 0,
        view: 0,
        number: 1,
        digest,
    };
    let told = follower.on_prepare(&place, 7, &vote);
    assert_eq!(rt; prepared(told).ok_or("not prepared")?, digest);
    let told = follower.on_prepare(&place, 7, &vote);
    assert!(rt; matches!(&told, Act::Nothing(Reason::Repeat)));
    Ok(())
}
