ghost use Rattle.std.specs.Prelude.{◌≡◌, length, IfSome};
ghost use Rattle.std.specs.Int.{w8, w32, to_be_bytes};
ghost use Rattle.std.specs.List.{flat_map};
ghost use Rattle.ord_types.specs.Spelling.{ids_text, batch_text, config_text, sig_text, cert_text, request_text, requests_text, meta_text, header_text, block_text, last_text, option_text, report_text, vote_text, kind_number, mode_number, request_kind_number};
ghost use Rattle.ord_types.specs.Lengths.{FitsIds, FitsConfig, FitsSig, FitsCert, FitsRequest, FitsRequests, FitsMeta, FitsBlock, FitsLast, FitsReport};

use crate::lists::List;
use crate::values::{
    Batch, Block, Cert, Config, Header, Kind, Last, Meta, Mode, Report, ReqKind, Request, Sig, Vote,
};
use crate::writing::Writer;

/// The spelling of a header.
pub fn write_header<W: Writer>(writer: &mut W, header: &Header)
    ensures { W.took writer.old writer.new (header_text header.now) }
{
    writer.put_u64(header.number);
    writer.put(&header.previous);
    writer.put(&header.content);
    writer.put(&header.meta);
}

fn write_ids<W: Writer>(writer: &mut W, ids: &List<u32>)
    requires { FitsIds ids.now }
    ensures { W.took writer.old writer.new (ids_text ids.now) }
{
    let count = ids.len() as u8;
    writer.put_u8(count);
    for id in ids.as_slice() {
        writer.put_u32(*id);
    }
}

/// The spelling of a meta.
pub fn write_meta<W: Writer>(writer: &mut W, meta: &Meta)
    requires { FitsMeta meta.now }
    ensures { W.took writer.old writer.new (meta_text meta.now) }
{
    writer.put_u64(meta.config);
    writer.put_u64(meta.view);
    writer.put_u64(meta.decided);
    write_ids(writer, &meta.blacklist);
    write_ids(writer, &meta.signers);
}

fn request_kind_number(kind: ReqKind) -> u8
    ensures { result ≡ request_kind_number kind }
{
    match kind {
        ReqKind::Ordinary => 1,
        ReqKind::Change => 2,
    }
}

/// The spelling of a request.
pub fn write_request<W: Writer>(writer: &mut W, request: &Request)
    requires { FitsRequest request.now }
    ensures { W.took writer.old writer.new (request_text request.now) }
{
    let length = request.payload.len() as u32;
    writer.put_u8(request_kind_number(request.kind));
    writer.put_u32(request.id.client);
    writer.put_u64(request.id.serial);
    writer.put_u32(length);
    writer.put(request.payload.as_slice());
}

/// The spelling of requests: their count, and one after the other.
pub fn write_requests<W: Writer>(writer: &mut W, requests: &List<Request>)
    requires { FitsRequests requests.now }
    ensures { W.took writer.old writer.new (requests_text requests.now) }
{
    let count = requests.len() as u32;
    writer.put_u32(count);
    for request in requests.as_slice() {
        write_request(writer, request);
    }
}

fn write_batch<W: Writer>(writer: &mut W, batch: &Batch)
    ensures { W.took writer.old writer.new (batch_text batch.now) }
{
    writer.put_u32(batch.count);
    writer.put_u32(batch.preferred);
    writer.put_u32(batch.absolute);
    writer.put_u32(batch.wait);
}

fn kind_number(kind: Kind) -> u8
    ensures { result ≡ kind_number kind }
{
    match kind {
        Kind::Raft => 1,
        Kind::Bft => 2,
    }
}

fn mode_number(mode: Mode) -> u8
    ensures { result ≡ mode_number mode }
{
    match mode {
        Mode::Normal => 0,
        Mode::Maintenance => 1,
    }
}

/// The spelling of a configuration.
pub fn write_config<W: Writer>(writer: &mut W, config: &Config)
    requires { FitsConfig config.now }
    ensures { W.took writer.old writer.new (config_text config.now) }
{
    writer.put_u8(1);
    writer.put_u64(config.number);
    writer.put_u8(kind_number(config.kind));
    writer.put_u8(mode_number(config.mode));
    write_ids(writer, &config.members);
    write_batch(writer, &config.batch);
    writer.put_u32(config.rotation);
}

/// The spelling of a signature.
pub fn write_sig<W: Writer>(writer: &mut W, sig: &Sig)
    requires { FitsSig sig.now }
    ensures { W.took writer.old writer.new (sig_text sig.now) }
{
    let length = sig.bytes.len() as u16;
    writer.put_u32(sig.signer);
    writer.put_u16(length);
    writer.put(sig.bytes.as_slice());
}

/// The spelling of a certificate.
pub fn write_cert<W: Writer>(writer: &mut W, cert: &Cert)
    requires { FitsCert cert.now }
    ensures { W.took writer.old writer.new (cert_text cert.now) }
{
    let count = cert.sigs.len() as u8;
    writer.put_u64(cert.view);
    writer.put_u8(count);
    for sig in cert.sigs.as_slice() {
        write_sig(writer, sig);
    }
}

/// The spelling of a block.
pub fn write_block<W: Writer>(writer: &mut W, block: &Block)
    requires { FitsBlock block.now }
    ensures { W.took writer.old writer.new (block_text block.now) }
{
    write_header(writer, &block.header);
    write_requests(writer, &block.requests);
    write_meta(writer, &block.meta);
}

fn write_vote<W: Writer>(writer: &mut W, vote: &Vote)
    ensures { W.took writer.old writer.new (vote_text vote.now) }
{
    writer.put_u64(vote.view);
    writer.put(&vote.digest);
}

fn write_last<W: Writer>(writer: &mut W, last: &Last)
    requires { FitsLast last.now }
    ensures { W.took writer.old writer.new (last_text last.now) }
{
    writer.put(&last.hash);
    write_cert(writer, &last.cert);
}

fn write_vote_or_none<W: Writer>(writer: &mut W, vote: &Option<Vote>)
    ensures { W.took writer.old writer.new (option_text vote_text vote.now) }
{
    match vote {
        None => writer.put_u8(0),
        Some(vote) => {
            writer.put_u8(1);
            write_vote(writer, vote);
        }
    }
}

fn write_last_or_none<W: Writer>(writer: &mut W, last: &Option<Last>)
    requires { IfSome last.now FitsLast }
    ensures { W.took writer.old writer.new (option_text last_text last.now) }
{
    match last {
        None => writer.put_u8(0),
        Some(last) => {
            writer.put_u8(1);
            write_last(writer, last);
        }
    }
}

// Votes, one after the other.
fn write_votes<W: Writer>(writer: &mut W, votes: &List<Vote>)
    ensures { W.took writer.old writer.new (flat_map vote_text votes.now) }
{
    for vote in votes.as_slice() {
        write_vote(writer, vote);
    }
}

/// The spelling of a report.
pub fn write_report<W: Writer>(writer: &mut W, report: &Report)
    requires { FitsReport report.now }
    ensures { W.took writer.old writer.new (report_text report.now) }
{
    let count = report.accepted.len() as u8;
    writer.put_u64(report.height);
    write_last_or_none(writer, &report.last);
    write_vote_or_none(writer, &report.prepared);
    writer.put_u8(count);
    write_votes(writer, &report.accepted);
}
