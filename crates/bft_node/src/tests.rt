ghost use Rattle.std.specs.Prelude.{◌≡◌, ◌≤◌, true, false, length, None};
ghost use Rattle.ord_types.specs.Hashes.{block_hash as block_hash_of};
ghost use Rattle.ord_types.specs.Members.{is_raft};
ghost use Rattle.signer_edge.specs.Certificates.{is_good_cert};
ghost use Rattle.chan_config.specs.Blocks.{is_next_at};
ghost use Rattle.ord_types.specs.declared.values.Proof.TheVariants.{Bft};
ghost use Rattle.block_ledger.specs.Chains.{IsSomeGenesis};
ghost use Rattle.block_ledger.specs.Judging.{next_refusal};
ghost use Rattle.view_core.specs.Places.{IsPlace};

use crate::fixtures::{Echo, ONE, Quiet, crashed, empty, first_block, first_cert, genesis_of};
use crate::{OpenFault, Store, StoreFault};
use bft_wire::Prepare;
use chan_config::check_block;
use gate_log::{Disk, Image};
use ord_types::{Block, Cert, Config, Kind, Place, block_hash};
use signer_edge::{Verifier, check_cert};
use std::alloc::Global;
use std::test::Fail;
use view_core::{Act, ViewState};

// What is made durable.
#[derive(Clone, Copy, PartialEq)]
enum Deed {
    Accept,
    Prepare,
    Deliver,
}

// Whether it is a BFT configuration whose members can be counted.
fn is_bft(config: &Config) -> bool
    ensures { result ≡ true → (1 ≤ length config.now.members) × (length config.now.members ≤ 31)
        × (is_raft config.now ≡ false) }
{
    let members = config.members.len();
    match config.kind {
        Kind::Raft => false,
        Kind::Bft => members >= 1 && members <= 31,
    }
}

fn may_come<V: Verifier>(alloc: Global, place: &Place, block: &Block, verifier: &V) -> bool
    ensures { result ≡ is_next_at place.now.last place.now.height place.now.config block.now }
{
    check_block(alloc, place, block, verifier).is_ok()
}

fn is_good<V: Verifier>(config: &Config, block: &Block, cert: &Cert, verifier: &V) -> bool
    requires some { 1 ≤ length config.now.members }
    requires few { length config.now.members ≤ 31 }
    ensures { result
        ≡ is_good_cert (V.accepts verifier.now) config.now block.now.header.number (block_hash_of block.now) cert.now }
{
    let hash = block_hash(&block.header);
    check_cert(config, block.header.number, &hash, cert, verifier).is_ok()
}

// Whether the block with its certificate may come next.
fn is_next<V: Verifier>(
    alloc: Global,
    place: &Place,
    block: &Block,
    cert: &Cert,
    verifier: &V,
) -> bool
    ensures { result ≡ true
        → next_refusal (V.accepts verifier.now) place.now (block.now, Bft cert.now) ≡ None }
{
    if !is_bft(&place.config) {
        return false;
    }
    let next = may_come(alloc, place, block, verifier);
    let good = is_good(&place.config, block, cert, verifier);
    if next { good } else { false }
}

// Whether a view can stand at the place, at the start of a configuration.
fn is_start(place: &Place) -> bool
    ensures { result ≡ true → IsPlace place.now }
{
    let members = place.config.members.len();
    members >= 1
        && members <= 31
        && place.height >= 1
        && place.height < 1 << 62
        && place.last_meta.decided < 1 << 62
        && place.last_cert.is_none()
}

fn open(alloc: Global, quiet: &mut Quiet, genesis: &Block) -> Result<Store, Fail>
    requires { IsSomeGenesis genesis.now }
{
    match Store::open(alloc, quiet, genesis, &Echo) {
        Ok(store) => Ok(store),
        Err(_) => Err(Fail::from("a store")),
    }
}

// One deed under configuration 0, in view 0, at number 1.
fn act(
    alloc: Global,
    store: &mut Store,
    quiet: &mut Quiet,
    deed: Deed,
) -> Result<Result<(), StoreFault>, Fail> {
    let block = first_block(alloc)?;
    match deed {
        Deed::Accept => Ok(store.accept(alloc, quiet, 0, 0, 1, block)),
        Deed::Prepare => Ok(store.prepare(alloc, quiet, 0, 0, 1, ONE)),
        Deed::Deliver => {
            let cert = first_cert(alloc)?;
            if !is_next(alloc, store.ledger().place(), &block, &cert, &Echo) {
                return Err(Fail::from("a block that comes next"));
            }
            Ok(store.deliver(alloc, quiet, block, cert, &Echo))
        }
    }
}

// Whether the leader may propose, and whether it prepares the block at a quorum's Prepares.
fn tried(place: &Place, view: &mut ViewState) -> (bool, bool)
    requires { IsPlace place.now }
{
    let proposes = view.may_propose(place);
    let message = Prepare {
        config: 0,
        view: 0,
        number: 1,
        digest: ONE,
    };
    let _ = view.on_prepare(place, 2, &message);
    let prepares = match view.on_prepare(place, 3, &message) {
        Act::Prepare(_) => true,
        _ => false,
    };
    (proposes, prepares)
}

// The height, and at number 1 what the leader does.
fn found(
    alloc: Global,
    quiet: &mut Quiet,
    genesis: &Block,
) -> Result<(u64, Option<(bool, bool)>), Fail>
    requires { IsSomeGenesis genesis.now }
{
    let store = open(alloc, quiet, genesis)?;
    let place = store.ledger().place();
    if !is_start(place) {
        return Ok((place.height, None));
    }
    let mut view = store.resumed(alloc, 1)?;
    Ok((place.height, Some(tried(place, &mut view))))
}

const NOTHING: (u64, Option<(bool, bool)>) = (1, Some((true, false)));

const ACCEPTED: (u64, Option<(bool, bool)>) = (1, Some((false, true)));

const PREPARED: (u64, Option<(bool, bool)>) = (1, Some((false, false)));

const DELIVERED: (u64, Option<(bool, bool)>) = (2, None);

#[test]
fn an_opening_finds_what_was_done(rt: HostRuntime) -> Result<(), Fail> {
    let alloc = rt.alloc();
    let genesis = genesis_of(alloc)?;
    let mut quiet = empty(alloc)?;
    assert_eq!(rt; found(alloc, &mut quiet, &genesis)?, NOTHING);
    for (deed, after) in [
        (Deed::Accept, ACCEPTED),
        (Deed::Prepare, PREPARED),
        (Deed::Deliver, DELIVERED),
    ] {
        let mut store = open(alloc, &mut quiet, &genesis)?;
        assert_eq!(rt; act(alloc, &mut store, &mut quiet, deed)?, Ok(()));
        assert_eq!(rt; found(alloc, &mut quiet, &genesis)?, after);
    }
    let store = open(alloc, &mut quiet, &genesis)?;
    assert_eq!(rt; store.ledger().last_hash(), ONE);
    let durable = store.wal().durable(alloc, 0, 2)?;
    assert!(rt; durable.accepted.is_empty());
    assert!(rt; durable.prepared.is_none());
    Ok(())
}

const IMAGES: [Image; 4] = [Image::Keep, Image::Undo, Image::Fill(0), Image::Fill(0x7f)];

// Whether a gate that is written as 1 over 0 is open in this image.
fn opens(image: Image) -> bool {
    match image {
        Image::Keep => true,
        Image::Undo => false,
        Image::Fill(byte) => byte != 0,
    }
}

// A disk on which this was done.
fn done(alloc: Global, genesis: &Block, deeds: &[Deed]) -> Result<Quiet, Fail>
    requires { IsSomeGenesis genesis.now }
{
    let mut quiet = empty(alloc)?;
    let mut store = open(alloc, &mut quiet, genesis)?;
    for deed in deeds {
        if act(alloc, &mut store, &mut quiet, *deed)?.is_err() {
            return Err(Fail::from("a deed"));
        }
    }
    Ok(quiet)
}

#[test]
fn stopped_calls(rt: HostRuntime) -> Result<(), Fail> {
    let alloc = rt.alloc();
    let genesis = genesis_of(alloc)?;
    let cases: [(
        &[Deed],
        Deed,
        (u64, Option<(bool, bool)>),
        (u64, Option<(bool, bool)>),
    ); 3] = [
        (&[], Deed::Accept, NOTHING, ACCEPTED),
        (&[Deed::Accept], Deed::Prepare, ACCEPTED, PREPARED),
        (&[Deed::Accept], Deed::Deliver, ACCEPTED, DELIVERED),
    ];
    for (before, deed, without, with) in cases {
        for image in IMAGES {
            for call in 1..=5 {
                let mut quiet = done(alloc, &genesis, before)?;
                let mut store = open(alloc, &mut quiet, &genesis)?;
                quiet.disk.arm(call, image);
                let answer = act(alloc, &mut store, &mut quiet, deed)?;
                assert_eq!(rt; answer.is_ok(), call == 5);
                let mut left = crashed(quiet, image)?;
                let added = call == 5 || (call >= 3 && opens(image));
                let expected = if added { with } else { without };
                assert_eq!(rt; found(alloc, &mut left, &genesis)?, expected);
            }
        }
    }
    Ok(())
}

#[test]
fn the_ledgers_fault_comes_first(rt: HostRuntime) -> Result<(), Fail> {
    let alloc = rt.alloc();
    let genesis = genesis_of(alloc)?;
    let mut quiet = empty(alloc)?;
    assert!(rt; quiet.write_at(0, 0, &[0; 18]).is_ok());
    assert_eq!(rt;
        Store::open(alloc, &mut quiet, &genesis, &Echo).err(),
        Some(OpenFault::Foreign(0, 0))
    );
    assert!(rt; quiet.write_at(2, 0, &[0; 18]).is_ok());
    assert_eq!(rt;
        Store::open(alloc, &mut quiet, &genesis, &Echo).err(),
        Some(OpenFault::Foreign(2, 0))
    );
    Ok(())
}
