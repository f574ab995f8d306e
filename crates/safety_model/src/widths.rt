//! The numbers of a value have the widths of their types, so its spelling is its own. These functions do
//! nothing: they read each number, and their contracts say what its type says of it.
ghost use Rattle.std.specs.Prelude.{◌<◌, ◌^◌};
ghost use Rattle.std.specs.List.{All};
ghost use Rattle.safety_model.specs.Safety.{Fits, FactFits, RequestFits};

use crate::fact::Fact;
use ord_types::{Block, Request};

fn ids_fit(ids: &[u32])
    ensures { All (λ id. id < 2 ^ 32) ids.now }
{}

fn request_fits(request: &Request)
    ensures { RequestFits request.now }
{
    let _client = request.id.client;
    let _serial = request.id.serial;
}

fn requests_fit(requests: &[Request])
    ensures { All RequestFits requests.now }
{
    for request in requests {
        request_fits(request);
    }
}

fn block_fits(block: &Block)
    ensures { Fits block.now }
{
    let _view = block.meta.view;
    let _decided = block.meta.decided;
    ids_fit(block.meta.blacklist.as_slice());
    ids_fit(block.meta.signers.as_slice());
    requests_fit(block.requests.as_slice());
}

/// Nothing: the block of the fact, if it has one, fits.
pub fn fact_fits(fact: &Fact)
    ensures { FactFits fact.now }
{
    match fact {
        Fact::Delivered { block, .. } => block_fits(block),
        _ => {}
    }
}
