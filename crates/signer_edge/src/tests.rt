ghost use Rattle.std.specs.Prelude.{◌≡◌, length, IfOk};

use crate::{
    CertRefusal, SealBox, SealSeat, SignFault, Signer, Verifier, check_cert, commit_statement,
};
use ord_types::{Batch, Cert, Config, Copied, Kind, List, Mode, NoMemory, Sig};
use std::alloc::Global;
use std::test::Fail;

/// A configuration of members 1 to 4.
fn four_members(alloc: Global) -> Result<Config, NoMemory>
    ensures { IfOk result (λ config. length config.members ≡ 4) }
{
    let mut members = List::new(alloc);
    members.push(1)?;
    members.push(2)?;
    members.push(3)?;
    members.push(4)?;
    Ok(Config {
        number: 5,
        kind: Kind::Bft,
        mode: Mode::Normal,
        members,
        batch: Batch {
            count: 1,
            preferred: 1,
            absolute: 1,
            wait: 1,
        },
        rotation: 0,
    })
}

/// The signatures of these signers on the statement, and the box.
fn signatures(
    alloc: Global,
    signers: &[u32],
    statement: &[u8],
) -> Result<(SealSeat, List<Sig>), SignFault> {
    let mut seat = SealBox::new(alloc)?.seat(0);
    let mut sigs = List::new(alloc);
    for signer in signers {
        seat = seat.back().seat(*signer);
        sigs.push(seat.sign(statement)?)?;
    }
    Ok((seat, sigs))
}

#[test]
fn commit_statement_has_57_bytes(rt: HostRuntime) {
    let hash = [0xab; 32];
    let statement = commit_statement(0, 1, 1, &hash);
    let one = [0, 0, 0, 0, 0, 0, 0, 1];
    assert_eq!(rt; &statement[..9], [1, 0, 0, 0, 0, 0, 0, 0, 0].as_slice());
    assert_eq!(rt; &statement[9..17], one.as_slice());
    assert_eq!(rt; &statement[17..25], one.as_slice());
    assert_eq!(rt; &statement[25..], hash.as_slice());
}

#[test]
fn a_seat_accepts_what_stands_in_the_box(rt: HostRuntime) -> Result<(), Fail> {
    let (seat, sigs) = signatures(rt.alloc(), &[7, 8], b"text")?;
    let [first, second] = sigs.as_slice() else {
        return Err(Fail::from("two signatures"));
    };
    assert_eq!(rt; seat.id(), 8);
    assert_eq!(rt; second.signer, 8);
    assert_eq!(rt;
        second.bytes.as_slice(),
        [0, 0, 0, 0, 0, 0, 0, 1].as_slice()
    );
    assert!(rt; seat.verify(b"text", first));
    assert!(rt; seat.verify(b"text", second));
    assert!(rt; !seat.verify(b"texT", second));
    let forged = Sig {
        signer: 7,
        bytes: second.bytes.copy()?,
    };
    assert!(rt; !seat.verify(b"text", &forged));
    Ok(())
}

#[test]
fn a_certificate_has_a_quorum_of_members(rt: HostRuntime) -> Result<(), Fail> {
    let alloc = rt.alloc();
    let config = four_members(alloc)?;
    let hash = [0xcd; 32];
    let statement = commit_statement(5, 2, 9, &hash);
    let cases: [(&[u32], u64, Result<(), CertRefusal>); 6] = [
        (&[1, 2, 4], 2, Ok(())),
        (&[1, 3], 2, Err(CertRefusal::Few(2, 3))),
        (&[3, 1, 3], 2, Err(CertRefusal::Few(2, 3))),
        (&[], 2, Err(CertRefusal::Few(0, 3))),
        (&[1, 9, 2], 2, Err(CertRefusal::Stranger(9))),
        (&[4, 2, 9], 3, Err(CertRefusal::Bad(4))),
    ];
    for (signers, view, answer) in cases {
        let (seat, sigs) = signatures(alloc, signers, &statement)?;
        let cert = Cert { view, sigs };
        assert_eq!(rt; check_cert(&config, 9, &hash, &cert, &seat), answer);
    }
    Ok(())
}
