ghost use Rattle.std.specs.Prelude.{◌≡◌};
ghost use Rattle.block_ledger.specs.Chains.{IsSomeGenesis};

use crate::fixtures::{
    Behind, Echo, FIRST, Made, ONE, Quiet, RAFT_ZERO, SECOND, TWO, ZERO, crashed, empty, entry_of,
    genesis_entry, genesis_of, put_behind, sealed, stored,
};
use crate::{Ledger, LedgerFault, StoredWhy};
use chan_config::BlockRefusal;
use gate_log::Image;
use ord_types::{Block, Bytes, Copied, Kind, List, block_hash};
use signer_edge::CertRefusal;
use std::alloc::Global;
use std::test::Fail;

// The height of the ledger, or why it doesn't open.
fn opened(alloc: Global, quiet: &mut Quiet, genesis: &Block) -> Result<u64, LedgerFault>
    requires { IsSomeGenesis genesis.now }
{
    let ledger = Ledger::open(alloc, quiet, genesis, &Echo)?;
    Ok(ledger.height())
}

#[test]
fn a_chain_of_three(rt: HostRuntime) -> Result<(), Fail> {
    let alloc = rt.alloc();
    let genesis = genesis_of(alloc, Kind::Bft)?;
    assert_eq!(rt; block_hash(&genesis.header), ZERO);
    let mut quiet = empty(alloc)?;
    let mut ledger = match Ledger::open(alloc, &mut quiet, &genesis, &Echo) {
        Ok(ledger) => ledger,
        Err(_) => return Err(Fail::from("a new ledger")),
    };
    assert_eq!(rt; ledger.height(), 1);
    assert_eq!(rt; ledger.last_hash(), ZERO);
    for made in [FIRST, SECOND] {
        let (block, proof) = sealed(alloc, made)?;
        assert_eq!(rt;
            ledger.append(alloc, &mut quiet, block, proof, &Echo),
            Ok(())
        );
    }
    assert_eq!(rt; ledger.height(), 3);
    assert_eq!(rt; ledger.last_hash(), TWO);
    assert_eq!(rt; ledger.place().start, 1);
    assert!(rt; ledger.place().last_cert.is_some());
    assert!(rt; ledger.config_at(3).is_some());
    assert!(rt; ledger.config_at(4).is_none());
    for (number, hash) in [(0, Some(ZERO)), (1, Some(ONE)), (2, Some(TWO)), (3, None)] {
        let found = match ledger.get(alloc, &mut quiet, number) {
            Ok(found) => found,
            Err(_) => return Err(Fail::from("a block or none")),
        };
        assert_eq!(rt; found.map(|(block, _)| block_hash(&block.header)), hash);
    }
    assert_eq!(rt; opened(alloc, &mut quiet, &genesis), Ok(3));
    let raft = genesis_of(alloc, Kind::Raft)?;
    assert_eq!(rt;
        opened(alloc, &mut quiet, &raft),
        Err(LedgerFault::Stored(0, StoredWhy::Other(ZERO, RAFT_ZERO)))
    );
    Ok(())
}

#[test]
fn refused_appends(rt: HostRuntime) -> Result<(), Fail> {
    let alloc = rt.alloc();
    let genesis = genesis_of(alloc, Kind::Bft)?;
    let mut quiet = empty(alloc)?;
    let mut ledger = match Ledger::open(alloc, &mut quiet, &genesis, &Echo) {
        Ok(ledger) => ledger,
        Err(_) => return Err(Fail::from("a new ledger")),
    };
    for (made, fault) in [
        (SECOND, LedgerFault::WrongNumber(2)),
        (
            Made {
                previous: TWO,
                ..FIRST
            },
            LedgerFault::WrongPrevious(TWO, ZERO),
        ),
        (
            Made {
                content: ONE,
                behind: Behind::Raft,
                ..FIRST
            },
            LedgerFault::BadBlock(BlockRefusal::WrongContent),
        ),
        (
            Made { config: 1, ..FIRST },
            LedgerFault::BadBlock(BlockRefusal::WrongMeta),
        ),
        (
            Made {
                behind: Behind::Raft,
                ..FIRST
            },
            LedgerFault::BadProof,
        ),
        (
            Made {
                behind: FEW,
                ..FIRST
            },
            LedgerFault::BadCert(CertRefusal::Few(2, 3)),
        ),
        (
            Made {
                behind: STRANGE,
                ..FIRST
            },
            LedgerFault::BadCert(CertRefusal::Stranger(9)),
        ),
        (
            Made {
                behind: FLIPPED,
                ..FIRST
            },
            LedgerFault::BadCert(CertRefusal::Bad(3)),
        ),
    ] {
        let (block, proof) = sealed(alloc, made)?;
        assert_eq!(rt;
            ledger.append(alloc, &mut quiet, block, proof, &Echo),
            Err(fault)
        );
        assert_eq!(rt; ledger.height(), 1);
    }
    let (block, proof) = sealed(alloc, FIRST)?;
    assert_eq!(rt;
        ledger.append(alloc, &mut quiet, block, proof, &Echo),
        Ok(())
    );
    Ok(())
}

// How the bytes of the last entry are changed.
#[derive(Clone, Copy)]
enum Change {
    Nothing,
    // to so many bytes
    Cut(usize),
    // by one more byte
    More,
    // this byte at a place
    Byte(usize, u8),
}

fn changed(alloc: Global, bytes: &Bytes, change: Change) -> Result<Bytes, Fail> {
    let mut new = bytes.copy()?;
    match change {
        Change::Nothing => {}
        Change::Cut(count) => new.truncate(count),
        Change::More => new.push(0)?,
        Change::Byte(at, byte) => {
            if at >= bytes.len() {
                return Err(Fail::from("a place in the bytes"));
            }
            new = Bytes::from_slice(alloc, &bytes.as_slice()[..at])?;
            new.push(byte)?;
            new.extend_from_slice(&bytes.as_slice()[at + 1..])?;
        }
    }
    Ok(new)
}

// What a file opens to that has the genesis block and these, the last one changed.
fn reopened(
    alloc: Global,
    genesis: &Block,
    blocks: &[Made],
    change: Change,
) -> Result<Result<u64, LedgerFault>, Fail>
    requires { IsSomeGenesis genesis.now }
{
    let mut last = genesis_entry(alloc, genesis)?;
    let mut entries = List::new(alloc);
    for made in blocks {
        entries.push(last)?;
        last = entry_of(alloc, *made)?;
    }
    entries.push(changed(alloc, &last, change)?)?;
    let mut quiet = stored(alloc, entries.as_slice())?;
    Ok(opened(alloc, &mut quiet, genesis))
}

fn block_fault(number: u64, refusal: BlockRefusal) -> Result<u64, LedgerFault> {
    Err(LedgerFault::Stored(number, StoredWhy::Block(refusal)))
}

fn cert_fault(number: u64, refusal: CertRefusal) -> Result<u64, LedgerFault> {
    Err(LedgerFault::Stored(number, StoredWhy::Cert(refusal)))
}

fn grammar_fault(number: u64, at: usize) -> Result<u64, LedgerFault> {
    Err(LedgerFault::Stored(number, StoredWhy::Grammar(at)))
}

const FEW: Behind = Behind::Signed {
    signers: &[2, 4],
    flip: false,
};

const STRANGE: Behind = Behind::Signed {
    signers: &[1, 2, 9],
    flip: false,
};

// One bit of the last signature is changed.
const FLIPPED: Behind = Behind::Signed {
    signers: &[1, 2, 3],
    flip: true,
};

#[test]
fn stored_blocks(rt: HostRuntime) -> Result<(), Fail> {
    let alloc = rt.alloc();
    let genesis = genesis_of(alloc, Kind::Bft)?;
    let nothing = Change::Nothing;
    let unlinked = Made {
        previous: ZERO,
        ..SECOND
    };
    let other_content = Made {
        content: ONE,
        ..SECOND
    };
    let unsigned = Made {
        behind: Behind::Raft,
        ..FIRST
    };
    let few = Made {
        behind: FEW,
        ..FIRST
    };
    let strange = Made {
        behind: STRANGE,
        ..FIRST
    };
    let flipped = Made {
        behind: FLIPPED,
        ..FIRST
    };
    let cases: [(&[Made], Change, Result<u64, LedgerFault>); 15] = [
        (&[], nothing, Ok(1)),
        (&[FIRST, SECOND], nothing, Ok(3)),
        (&[FIRST], Change::Cut(352), grammar_fault(1, 352)),
        (&[FIRST, SECOND], Change::Cut(0), grammar_fault(2, 0)),
        (&[FIRST], Change::More, grammar_fault(1, 353)),
        (&[FIRST], Change::Byte(0, 0xff), grammar_fault(1, 0)),
        (&[FIRST], Change::Byte(154, 2), grammar_fault(1, 154)),
        (
            &[SECOND],
            nothing,
            block_fault(1, BlockRefusal::WrongNumber(2)),
        ),
        (
            &[FIRST, unlinked],
            nothing,
            block_fault(2, BlockRefusal::WrongPrevious(ZERO, ONE)),
        ),
        (
            &[FIRST, other_content],
            nothing,
            block_fault(2, BlockRefusal::WrongContent),
        ),
        (
            &[unsigned, SECOND],
            Change::More,
            Err(LedgerFault::Stored(1, StoredWhy::Proof)),
        ),
        (&[few], nothing, cert_fault(1, CertRefusal::Few(2, 3))),
        (&[strange], nothing, cert_fault(1, CertRefusal::Stranger(9))),
        (
            &[flipped, SECOND],
            nothing,
            cert_fault(1, CertRefusal::Bad(3)),
        ),
        // the payload of block 0 alone is another one
        (
            &[],
            Change::Byte(130, 7),
            Err(LedgerFault::Stored(0, StoredWhy::Other(ZERO, ZERO))),
        ),
    ];
    for (blocks, change, answer) in cases {
        assert_eq!(rt; reopened(alloc, &genesis, blocks, change)?, answer);
    }
    Ok(())
}

#[test]
fn genesis_with_a_certificate(rt: HostRuntime) -> Result<(), Fail> {
    let alloc = rt.alloc();
    let genesis = genesis_of(alloc, Kind::Bft)?;
    let mut entry = genesis_entry(alloc, &genesis)?;
    entry.truncate(entry.len().saturating_sub(1));
    put_behind(&mut entry, FIRST)?;
    let mut quiet = stored(alloc, &[entry])?;
    assert_eq!(rt;
        opened(alloc, &mut quiet, &genesis),
        Err(LedgerFault::Stored(0, StoredWhy::Proof))
    );
    Ok(())
}

const IMAGES: [Image; 4] = [Image::Keep, Image::Undo, Image::Fill(0), Image::Fill(0x7f)];

// Whether a gate that is written as 1 over 0 is open in this image.
fn opens(image: Image) -> bool {
    match image {
        Image::Keep => true,
        Image::Undo => false,
        Image::Fill(byte) => byte != 0,
    }
}

#[test]
fn stopped_appends(rt: HostRuntime) -> Result<(), Fail> {
    let alloc = rt.alloc();
    let genesis = genesis_of(alloc, Kind::Bft)?;
    for image in IMAGES {
        for call in 1..=5 {
            let mut quiet = stored(
                alloc,
                &[genesis_entry(alloc, &genesis)?, entry_of(alloc, FIRST)?],
            )?;
            let mut ledger = match Ledger::open(alloc, &mut quiet, &genesis, &Echo) {
                Ok(ledger) => ledger,
                Err(_) => return Err(Fail::from("a ledger of two blocks")),
            };
            let (block, proof) = sealed(alloc, SECOND)?;
            quiet.disk.arm(call, image);
            let answer = ledger.append(alloc, &mut quiet, block, proof, &Echo);
            assert_eq!(rt; answer.is_ok(), call == 5);
            assert_eq!(rt; ledger.height(), if call == 5 { 3 } else { 2 });
            let mut left = crashed(quiet, image)?;
            let added = call == 5 || (call >= 3 && opens(image));
            let height = if added { 3 } else { 2 };
            assert_eq!(rt; opened(alloc, &mut left, &genesis), Ok(height));
        }
    }
    Ok(())
}

#[test]
fn stopped_opens(rt: HostRuntime) -> Result<(), Fail> {
    let alloc = rt.alloc();
    let genesis = genesis_of(alloc, Kind::Raft)?;
    for image in IMAGES {
        for call in 1..=12 {
            let mut quiet = empty(alloc)?;
            quiet.disk.arm(call, image);
            // one sync, three writes with their syncs for the log, two for block 0
            let answer = opened(alloc, &mut quiet, &genesis);
            assert_eq!(rt; answer.is_ok(), call == 12);
            let mut left = crashed(quiet, image)?;
            assert_eq!(rt; opened(alloc, &mut left, &genesis), Ok(1));
        }
    }
    Ok(())
}
