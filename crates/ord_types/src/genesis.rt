ghost use Rattle.std.specs.Prelude.{◌≡◌, IfOk};
ghost use Rattle.ord_types.specs.Genesis.{genesis_block, genesis_meta, genesis_request};
ghost use Rattle.ord_types.specs.Lengths.{FitsBlock, FitsConfig};

use crate::hashes::{content_hash, meta_hash};
use crate::lists::{Bytes, List, NoMemory};
use crate::spelling::{put_config, put_sig};
use crate::values::{Block, Config, Header, Meta, ReqId, ReqKind, Request, Sig};
use std::alloc::Global;

// The change request that carries the first configuration. The signature on it has no bytes.
fn genesis_request(alloc: Global, config: &Config) -> Result<Request, NoMemory>
    requires { FitsConfig config.now }
    ensures { IfOk result (λ request. request ≡ genesis_request config.now) }
{
    let unsigned = Sig {
        signer: 0,
        bytes: Bytes::new(alloc),
    };
    let mut payload = Bytes::new(alloc);
    put_config(&mut payload, config)?;
    put_sig(&mut payload, &unsigned)?;
    Ok(Request {
        kind: ReqKind::Change,
        id: ReqId {
            client: 0,
            serial: 0,
        },
        payload,
    })
}

fn genesis_meta(alloc: Global) -> Meta
    ensures { result ≡ genesis_meta }
{
    Meta {
        config: 0,
        view: 0,
        decided: 0,
        blacklist: List::new(alloc),
        signers: List::new(alloc),
    }
}

/// Block 0 of the chain that begins with this configuration. It stands behind a zero hash, and its one
/// request is the configuration.
#[tactic(auto, using(crate::proofs::Sizes::genesis_fits, crate::proofs::Sizes::genesis_block_fits), unfolding(crate::specs::Genesis::genesis_block))]
pub fn genesis_block(alloc: Global, config: &Config) -> Result<Block, NoMemory>
    requires { FitsConfig config.now }
    ensures block { IfOk result (λ block. block ≡ genesis_block config.now) }
    ensures fits { IfOk result FitsBlock }
{
    let mut requests = List::new(alloc);
    requests.push(genesis_request(alloc, config)?)?;
    let meta = genesis_meta(alloc);
    let header = Header {
        number: 0,
        previous: [0; 32],
        content: content_hash(&requests),
        meta: meta_hash(&meta),
    };
    Ok(Block {
        header,
        requests,
        meta,
    })
}
