//! The lines that a world prints.
ghost use Rattle.std.specs.Prelude.{◌≡◌, ◌++◌, OnOk, codes, decimal, length, string_bytes};
ghost use Rattle.std.specs.List.{flat_map};
ghost use Rattle.signer_edge.specs.Certificates.{signers_in};
ghost use Rattle.ord_types.specs.declared.values.Proof.TheVariants as proof_of;
ghost use Rattle.hex.specs.Hex.{encode_lower};
ghost use Rattle.safety_model.specs.Facts.{signers_of};
ghost use Rattle.world_model.specs.Texts.{
  admitted_text,
  answer_text,
  block_front_text,
  block_text,
  block_told,
  byzantine_text,
  closed_text,
  deliver_text,
  fact_text,
  flush_text,
  first_id_text,
  genesis_text,
  hash_front,
  id_text,
  ids_joined,
  limit_text,
  lied_text,
  line_end,
  malformed_text,
  node_text,
  order_text,
  pending_text,
  raft_text,
  refused_text,
  requests_count_text,
  seal_text,
  sent_text,
  show_text,
  start_text,
  stop_at_text,
  stopped_text,
  signers_text,
  tick_text,
  view_text,
};
ghost use Rattle.world_run.specs.Answers.{answer_of};

use crate::pool::Answer;
use hex::encode;
use ord_types::{Block, Cert, Digest, Proof, ReqId, Request, Sig, block_hash};
use safety_model::Fact;
use std::alloc::AllocError;

#[tactic(auto, unfolding(world_model::specs::Texts::genesis_text))]
pub(crate) fn put_genesis(text: &mut String, number: u64) -> Result<(), AllocError>
    ensures { OnOk result (string_bytes text.new ≡ string_bytes text.old ++ genesis_text number) }
{
    write!(text, "{number} genesis\n")
}

#[tactic(auto, unfolding(world_model::specs::Texts::tick_text))]
pub(crate) fn put_tick(text: &mut String, number: u64, node: u32) -> Result<(), AllocError>
    ensures { OnOk result (string_bytes text.new ≡ string_bytes text.old ++ tick_text number node) }
{
    write!(text, "{number} tick {node}\n")
}

#[tactic(auto, unfolding(world_model::specs::Texts::deliver_text))]
pub(crate) fn put_deliver(text: &mut String, number: u64, count: u64) -> Result<(), AllocError>
    ensures { OnOk result (string_bytes text.new ≡ string_bytes text.old ++ deliver_text number count) }
{
    write!(text, "{number} deliver {count}\n")
}

#[tactic(auto, unfolding(world_model::specs::Texts::flush_text))]
pub(crate) fn put_flush(text: &mut String, number: u64, count: u64) -> Result<(), AllocError>
    ensures { OnOk result (string_bytes text.new ≡ string_bytes text.old ++ flush_text number count) }
{
    write!(text, "{number} flush {count}\n")
}

#[tactic(auto, unfolding(world_model::specs::Texts::refused_text))]
pub(crate) fn put_refused(text: &mut String, number: u64, reason: &str) -> Result<(), AllocError>
    ensures { OnOk result (string_bytes text.new ≡ string_bytes text.old ++ refused_text number reason.now) }
{
    write!(text, "{number} refused {reason}\n")
}

#[tactic(auto, unfolding(world_model::specs::Texts::limit_text))]
pub(crate) fn put_limit(text: &mut String, number: u64, limit: u64) -> Result<(), AllocError>
    ensures { OnOk result (string_bytes text.new ≡ string_bytes text.old ++ limit_text number limit) }
{
    write!(text, "{number} limit {limit}\n")
}

/// A node is stopped, by a line or by its disk.
#[tactic(auto, unfolding(world_model::specs::Texts::stopped_text))]
pub(crate) fn put_stopped(text: &mut String, number: u64, node: u32) -> Result<(), AllocError>
    ensures { OnOk result (string_bytes text.new ≡ string_bytes text.old ++ stopped_text number node) }
{
    write!(text, "{number} stopped {node}\n")
}

#[tactic(auto, unfolding(world_model::specs::Texts::stop_at_text))]
pub(crate) fn put_stop_at(text: &mut String, number: u64, node: u32) -> Result<(), AllocError>
    ensures { OnOk result (string_bytes text.new ≡ string_bytes text.old ++ stop_at_text number node) }
{
    write!(text, "{number} stop-at {node}\n")
}

#[tactic(auto, unfolding(world_model::specs::Texts::start_text))]
pub(crate) fn put_start(text: &mut String, number: u64, node: u32) -> Result<(), AllocError>
    ensures { OnOk result (string_bytes text.new ≡ string_bytes text.old ++ start_text number node) }
{
    write!(text, "{number} start {node}\n")
}

/// What a Byzantine member sent, by a line that begins with this word: the number of the entry.
#[tactic(auto, unfolding(world_model::specs::Texts::lied_text))]
pub(crate) fn put_lied(
    text: &mut String,
    number: u64,
    word: &str,
    sent: usize,
) -> Result<(), AllocError>
    ensures { OnOk result (string_bytes text.new ≡ string_bytes text.old ++ lied_text number word.now sent) }
{
    write!(text, "{number} {word} {sent}\n")
}

/// The place of a seal in the box.
#[tactic(auto, unfolding(world_model::specs::Texts::seal_text))]
pub(crate) fn put_seal(text: &mut String, number: u64, place: usize) -> Result<(), AllocError>
    ensures { OnOk result (string_bytes text.new ≡ string_bytes text.old ++ seal_text number place) }
{
    write!(text, "{number} seal {place}\n")
}

#[tactic(auto, unfolding(world_model::specs::Texts::admitted_text))]
fn put_admitted(text: &mut String, number: u64, word: &str, node: u32) -> Result<(), AllocError>
    ensures { OnOk result (string_bytes text.new
        ≡ string_bytes text.old ++ admitted_text number word.now node) }
{
    write!(text, "{number} {word} {node} admitted\n")
}

#[tactic(auto, unfolding(world_model::specs::Texts::malformed_text))]
fn put_malformed(
    text: &mut String,
    number: u64,
    word: &str,
    node: u32,
    at: u64,
) -> Result<(), AllocError>
    ensures { OnOk result (string_bytes text.new
        ≡ string_bytes text.old ++ malformed_text number word.now node at) }
{
    write!(text, "{number} {word} {node} malformed grammar {at}\n")
}

#[tactic(auto, unfolding(world_model::specs::Texts::pending_text))]
fn put_pending(text: &mut String, number: u64, word: &str, node: u32) -> Result<(), AllocError>
    ensures { OnOk result (string_bytes text.new
        ≡ string_bytes text.old ++ pending_text number word.now node) }
{
    write!(text, "{number} {word} {node} known pending\n")
}

/// What a pool answered to a line that begins with this word.
pub(crate) fn put_answer(
    text: &mut String,
    number: u64,
    word: &str,
    node: u32,
    answer: Answer,
) -> Result<(), AllocError>
    ensures { OnOk result (string_bytes text.new
        ≡ string_bytes text.old ++ answer_text number word.now node (answer_of answer)) }
{
    match answer {
        Answer::Admitted => put_admitted(text, number, word, node),
        Answer::Malformed(at) => put_malformed(text, number, word, node, at),
        Answer::KnownPending => put_pending(text, number, word, node),
    }
}

#[tactic(auto, unfolding(world_model::specs::Texts::block_front_text))]
fn put_block_front(
    text: &mut String,
    number: u64,
    node: u32,
    block: &Block,
) -> Result<(), AllocError>
    ensures { OnOk result (string_bytes text.new
        ≡ string_bytes text.old ++ block_front_text number node block.now) }
{
    let place = block.header.number;
    let config = block.meta.config;
    write!(text, "{number} block {node} {place} config {config}")
}

#[tactic(auto, unfolding(world_model::specs::Texts::view_text))]
fn put_view(text: &mut String, view: u64) -> Result<(), AllocError>
    ensures { OnOk result (string_bytes text.new ≡ string_bytes text.old ++ view_text view) }
{
    write!(text, " view {view}")
}

#[tactic(auto, unfolding(world_model::specs::Texts::requests_count_text))]
fn put_requests_count(text: &mut String, count: usize) -> Result<(), AllocError>
    ensures { OnOk result (string_bytes text.new ≡ string_bytes text.old ++ requests_count_text count) }
{
    write!(text, " requests {count} first ")
}

#[tactic(auto, unfolding(world_model::specs::Texts::id_text))]
fn put_id(text: &mut String, id: ReqId) -> Result<(), AllocError>
    ensures { OnOk result (string_bytes text.new ≡ string_bytes text.old ++ id_text id) }
{
    let client = id.client;
    let serial = id.serial;
    write!(text, "{client}:{serial}")
}

/// The id of the first request.
fn put_first_id(text: &mut String, requests: &[Request]) -> Result<(), AllocError>
    ensures { OnOk result (string_bytes text.new ≡ string_bytes text.old ++ first_id_text requests.now) }
{
    match requests {
        [first, ..] => put_id(text, first.id),
        [] => Ok(()),
    }
}

fn put_other_signer(text: &mut String, signer: u32) -> Result<(), AllocError>
    ensures { OnOk result (string_bytes text.new ≡ string_bytes text.old ++ (codes "," ++ decimal signer)) }
{
    write!(text, ",{signer}")
}

fn put_signer(text: &mut String, signer: u32) -> Result<(), AllocError>
    ensures { OnOk result (string_bytes text.new ≡ string_bytes text.old ++ decimal signer) }
{
    write!(text, "{signer}")
}

/// The ids of all signers but the first.
fn put_other_signers(text: &mut String, sigs: &[Sig]) -> Result<(), AllocError>
    ensures { OnOk result (string_bytes text.new
        ≡ string_bytes text.old ++ flat_map (λ other. codes "," ++ decimal other) (signers_in sigs.now)) }
{
    for sig in sigs {
        put_other_signer(text, sig.signer)?;
    }
    Ok(())
}

/// The ids of signers, joined by commas.
fn put_ids(text: &mut String, sigs: &[Sig]) -> Result<(), AllocError>
    ensures { OnOk result (string_bytes text.new
        ≡ string_bytes text.old ++ ids_joined (signers_in sigs.now)) }
{
    if let [first, rest @ ..] = sigs {
        put_signer(text, first.signer)?;
        put_other_signers(text, rest)?;
    }
    Ok(())
}

#[tactic(auto, unfolding(world_model::specs::Texts::signers_front))]
fn put_cert_signers(text: &mut String, cert: &Cert) -> Result<(), AllocError>
    ensures { OnOk result (string_bytes text.new
        ≡ string_bytes text.old ++ signers_text (proof_of.Bft cert.now)) }
{
    text.push_str(" signers ")?;
    put_ids(text, cert.sigs.as_slice())
}

/// The signers of what stands behind a block.
fn put_signers(text: &mut String, proof: &Proof) -> Result<(), AllocError>
    ensures { OnOk result (string_bytes text.new ≡ string_bytes text.old ++ signers_text proof.now) }
{
    match proof {
        Proof::Raft => Ok(()),
        Proof::Bft(cert) => put_cert_signers(text, cert),
    }
}

#[tactic(auto, unfolding(world_model::specs::Texts::raft_text))]
fn put_raft(text: &mut String) -> Result<(), AllocError>
    ensures { OnOk result (string_bytes text.new ≡ string_bytes text.old ++ raft_text) }
{
    text.push_str(" raft")
}

/// How a block was ordered.
fn put_order(text: &mut String, proof: &Proof) -> Result<(), AllocError>
    ensures { OnOk result (string_bytes text.new ≡ string_bytes text.old ++ order_text proof.now) }
{
    match proof {
        Proof::Raft => put_raft(text),
        Proof::Bft(cert) => put_view(text, cert.view),
    }
}

#[tactic(auto, unfolding(world_model::specs::Texts::line_end))]
fn put_line_end(text: &mut String) -> Result<(), AllocError>
    ensures { OnOk result (string_bytes text.new ≡ string_bytes text.old ++ line_end) }
{
    text.push_str("\n")
}

/// What is told of a block.
fn put_block_told(
    text: &mut String,
    number: u64,
    node: u32,
    block: &Block,
    proof: &Proof,
) -> Result<(), AllocError>
    ensures { OnOk result (string_bytes text.new
        ≡ string_bytes text.old ++ block_told number node block.now proof.now) }
{
    put_block_front(text, number, node, block)?;
    put_order(text, proof)?;
    put_requests_count(text, block.requests.len())?;
    put_first_id(text, block.requests.as_slice())?;
    put_signers(text, proof)
}

/// The line of a delivered block.
fn put_block(
    text: &mut String,
    number: u64,
    node: u32,
    block: &Block,
    proof: &Proof,
) -> Result<(), AllocError>
    ensures { OnOk result (string_bytes text.new
        ≡ string_bytes text.old ++ block_text number node block.now proof.now) }
{
    put_block_told(text, number, node, block, proof)?;
    put_line_end(text)
}

/// The line of a fact: a delivery has one.
fn put_fact(text: &mut String, number: u64, fact: &Fact) -> Result<(), AllocError>
    ensures { OnOk result (string_bytes text.new ≡ string_bytes text.old ++ fact_text number fact.now) }
{
    match fact {
        Fact::Delivered {
            member,
            block,
            proof,
        } => put_block(text, number, *member, block, proof),
        _ => Ok(()),
    }
}

/// The lines of the blocks that are delivered among these facts.
pub(crate) fn put_facts(text: &mut String, number: u64, facts: &[Fact]) -> Result<(), AllocError>
    ensures { OnOk result (string_bytes text.new
        ≡ string_bytes text.old ++ flat_map (fact_text number) facts.now) }
{
    for fact in facts {
        put_fact(text, number, fact)?;
    }
    Ok(())
}

#[tactic(auto, unfolding(world_model::specs::Texts::hash_front))]
fn put_hash(text: &mut String, hash: &Digest) -> Result<(), AllocError>
    ensures { OnOk result (string_bytes text.new ≡ string_bytes text.old
        ++ (hash_front ++ encode_lower hash.now)) }
{
    let hex = encode(*text.allocator(), *hash)?;
    text.push_str(" hash ")?;
    text.push_str(&hex)
}

/// The line of a block that is shown.
pub(crate) fn put_show(
    text: &mut String,
    number: u64,
    node: u32,
    block: &Block,
    proof: &Proof,
) -> Result<(), AllocError>
    ensures { OnOk result (string_bytes text.new
        ≡ string_bytes text.old ++ show_text number node block.now proof.now) }
{
    put_block_told(text, number, node, block, proof)?;
    put_hash(text, &block_hash(&block.header))?;
    put_line_end(text)
}

#[tactic(auto, unfolding(world_model::specs::Texts::node_text))]
pub(crate) fn put_node(
    text: &mut String,
    id: u32,
    height: u64,
    config: u64,
    view: u64,
    left: u64,
) -> Result<(), AllocError>
    ensures { OnOk result (string_bytes text.new
        ≡ string_bytes text.old ++ node_text id height config view left) }
{
    write!(
        text,
        "node {id} height {height} config {config} view {view} left {left}\n"
    )
}

/// The closing line of a stopped node.
#[tactic(auto, unfolding(world_model::specs::Texts::closed_text))]
pub(crate) fn put_closed(text: &mut String, id: u32) -> Result<(), AllocError>
    ensures { OnOk result (string_bytes text.new ≡ string_bytes text.old ++ closed_text id) }
{
    write!(text, "node {id} stopped\n")
}

/// The closing line of a Byzantine member.
#[tactic(auto, unfolding(world_model::specs::Texts::byzantine_text))]
pub(crate) fn put_byzantine(text: &mut String, id: u32) -> Result<(), AllocError>
    ensures { OnOk result (string_bytes text.new ≡ string_bytes text.old ++ byzantine_text id) }
{
    write!(text, "node {id} byzantine\n")
}

#[tactic(auto, unfolding(world_model::specs::Texts::sent_text))]
pub(crate) fn put_sent(text: &mut String, count: usize) -> Result<(), AllocError>
    ensures { OnOk result (string_bytes text.new ≡ string_bytes text.old ++ sent_text count) }
{
    write!(text, "sent {count}\n")
}
