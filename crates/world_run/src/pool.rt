//! The waiting requests of a node.
ghost use Rattle.std.specs.List.{flat_map, list_any};
ghost use Rattle.std.specs.Prelude.{◌≡◌, IfOk, List as Items, Ok, map};
ghost use Rattle.safety_model.specs.Blocks.{Request as SomeRequest, is_ordinary};
ghost use Rattle.world_model.specs.Pools.{answer, entered, has_id, id_eq, judged, offer, pool_after, settled};
ghost use Rattle.world_run.specs.Answers.{answer_of};
ghost use Rattle.bft_node.specs.declared.live.Done.{Done as SomeDone};

use bft_node::Done;
use ord_types::{Copied, List, NoMemory, ReadFault, ReqId, ReqKind, Request, whole_request};
use std::alloc::Global;

/// What a pool answers to bytes.
#[derive(Clone, Copy, Debug, PartialEq, Eq)]
pub(crate) enum Answer {
    Admitted,
    /// The place of the byte that isn't in the grammar.
    Malformed(u64),
    KnownPending,
}

fn has_id(id: ReqId, requests: &[Request]) -> bool
    ensures { result ≡ has_id id requests.now }
{
    requests.iter().any(|request| request.id == id)
}

fn is_ordinary(request: &Request) -> bool
    ensures { result ≡ is_ordinary request.now }
{
    match request.kind {
        ReqKind::Ordinary => true,
        ReqKind::Change => false,
    }
}

/// Takes a request into a pool. No change is taken yet.
fn enter(pool: &mut Vec<Request>, request: Request) -> Result<Answer, NoMemory>
    ensures answer { IfOk result (λ given. answer_of given ≡ judged pool.old.items (Ok request)) }
    ensures after { IfOk result (λ given. pool.new.items ≡ entered pool.old.items (Ok request)) }
{
    if !is_ordinary(&request) {
        return Ok(Answer::Malformed(0));
    }
    if has_id(request.id, pool.as_slice()) {
        return Ok(Answer::KnownPending);
    }
    pool.push(request)?;
    Ok(Answer::Admitted)
}

/// Submits bytes to a pool.
#[tactic(auto, unfolding(world_model::specs::Pools::request_in))]
pub(crate) fn submit(
    alloc: Global,
    pool: &mut Vec<Request>,
    bytes: &[u8],
) -> Result<Answer, NoMemory>
    ensures answer { IfOk result (λ given. answer_of given ≡ answer pool.old.items bytes.now) }
    ensures after { IfOk result (λ given. pool.new.items ≡ pool_after pool.old.items bytes.now) }
{
    match whole_request(alloc, bytes) {
        Ok(request) => enter(pool, request),
        Err(ReadFault::Short(at)) => Ok(Answer::Malformed(at as u64)),
        Err(ReadFault::BadField(at)) => Ok(Answer::Malformed(at as u64)),
        Err(ReadFault::Trailing(at)) => Ok(Answer::Malformed(at as u64)),
        Err(ReadFault::NoMemory) => Err(NoMemory),
    }
}

/// What a pool offers for the next block: its first request.
pub(crate) fn offer(alloc: Global, pool: &[Request]) -> Result<List<Request>, NoMemory>
    ensures { IfOk result (λ offered. offered ≡ offer pool.now) }
{
    let mut offer = List::new(alloc);
    if let [first, ..] = pool {
        offer.push(first.copy()?)?;
    }
    Ok(offer)
}

/// Whether a request of this id was delivered.
fn is_done(id: ReqId, done: &[Done]) -> bool
    ensures { result
        ≡ list_any (λ (block : SomeDone). list_any (λ other. id_eq other id) block.ids) done.now }
{
    done.iter().any(|block| block.ids.as_slice().contains(&id))
}

/// Drops the requests that were delivered.
pub(crate) fn settle(pool: &mut Vec<Request>, done: &[Done])
    ensures { (delivered : Items SomeRequest) → flat_map (λ (block : SomeDone). block.ids) done.now
        ≡ map (λ r. r.id) delivered → pool.new.items ≡ settled delivered pool.old.items }
{
    pool.retain(|request| !is_done(request.id, done));
}
