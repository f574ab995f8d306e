ghost use Rattle.std.specs.Prelude.{IfOk};
ghost use Rattle.ord_types.specs.Genesis.{IsGenesisConfig};

use crate::fixtures::{Quiet, crashed, empty};
use crate::{Node, Setup};
use gate_log::Image;
use ord_types::{Batch, Config, Kind, List, Mode, NoMemory};
use signer_edge::{SealBox, SealSeat};
use std::alloc::Global;
use std::test::Fail;

// Member 7 alone.
fn config_of_one(alloc: Global) -> Result<Config, NoMemory>
    ensures { IfOk result IsGenesisConfig }
{
    let mut members = List::new(alloc);
    members.push(7)?;
    Ok(Config {
        number: 0,
        kind: Kind::Bft,
        mode: Mode::Normal,
        members,
        batch: Batch {
            count: 1,
            preferred: 20,
            absolute: 1000,
            wait: 10,
        },
        rotation: 0,
    })
}

fn opened(
    alloc: Global,
    setup: &Setup,
    quiet: &mut Quiet,
    seat: &mut SealSeat,
) -> Result<Node, Fail>
    requires { IsGenesisConfig setup.now.genesis }
{
    match Node::open(alloc, setup, quiet, seat) {
        Ok(node) => Ok(node),
        Err(_) => Err(Fail::from("a node")),
    }
}

#[test]
fn a_node_opens_again(rt: HostRuntime) -> Result<(), Fail> {
    let alloc = rt.alloc();
    let setup = Setup {
        me: 7,
        genesis: config_of_one(alloc)?,
    };
    let mut quiet = empty(alloc)?;
    let mut seat = SealBox::new(alloc)?.seat(7);
    let node = opened(alloc, &setup, &mut quiet, &mut seat)?;
    assert!(rt; node.may_propose());
    assert_eq!(rt; node.ledger().height(), 1);
    let mut left = crashed(quiet, Image::Undo)?;
    let node = opened(alloc, &setup, &mut left, &mut seat)?;
    assert!(rt; node.may_propose());
    assert_eq!(rt; node.ledger().height(), 1);
    Ok(())
}
