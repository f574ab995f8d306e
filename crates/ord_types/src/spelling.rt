ghost use Rattle.std.specs.Prelude.{◌≡◌, ◌++◌, OnOk, OnErr};
ghost use Rattle.ord_types.specs.Spelling.{config_text, sig_text, cert_text, request_text, requests_text, meta_text, header_text, block_text, report_text};
ghost use Rattle.ord_types.specs.Lengths.{FitsConfig, FitsSig, FitsCert, FitsRequest, FitsRequests, FitsMeta, FitsBlock, FitsReport};

use crate::layouts::{
    write_block, write_cert, write_config, write_header, write_meta, write_report, write_request,
    write_requests, write_sig,
};
use crate::lists::{Bytes, List, NoMemory};
use crate::values::{Block, Cert, Config, Header, Meta, Report, Request, Sig};
use crate::writing::Growing;

/// Adds the spelling of a configuration.
pub fn put_config(out: &mut Bytes, config: &Config) -> Result<(), NoMemory>
    requires { FitsConfig config.now }
    ensures ok { OnOk result (out.new ≡ out.old ++ config_text config.now) }
    ensures err { OnErr result (out.new ≡ out.old) }
{
    let before = out.len();
    let mut growing = Growing::of(out);
    write_config(&mut growing, config);
    growing.give(out, before)
}

/// Adds the spelling of a signature.
pub fn put_sig(out: &mut Bytes, sig: &Sig) -> Result<(), NoMemory>
    requires { FitsSig sig.now }
    ensures ok { OnOk result (out.new ≡ out.old ++ sig_text sig.now) }
    ensures err { OnErr result (out.new ≡ out.old) }
{
    let before = out.len();
    let mut growing = Growing::of(out);
    write_sig(&mut growing, sig);
    growing.give(out, before)
}

/// Adds the spelling of a certificate.
pub fn put_cert(out: &mut Bytes, cert: &Cert) -> Result<(), NoMemory>
    requires { FitsCert cert.now }
    ensures ok { OnOk result (out.new ≡ out.old ++ cert_text cert.now) }
    ensures err { OnErr result (out.new ≡ out.old) }
{
    let before = out.len();
    let mut growing = Growing::of(out);
    write_cert(&mut growing, cert);
    growing.give(out, before)
}

/// Adds the spelling of a request.
pub fn put_request(out: &mut Bytes, request: &Request) -> Result<(), NoMemory>
    requires { FitsRequest request.now }
    ensures ok { OnOk result (out.new ≡ out.old ++ request_text request.now) }
    ensures err { OnErr result (out.new ≡ out.old) }
{
    let before = out.len();
    let mut growing = Growing::of(out);
    write_request(&mut growing, request);
    growing.give(out, before)
}

/// Adds the spelling of requests: their count, and one after the other.
pub fn put_requests(out: &mut Bytes, requests: &List<Request>) -> Result<(), NoMemory>
    requires { FitsRequests requests.now }
    ensures ok { OnOk result (out.new ≡ out.old ++ requests_text requests.now) }
    ensures err { OnErr result (out.new ≡ out.old) }
{
    let before = out.len();
    let mut growing = Growing::of(out);
    write_requests(&mut growing, requests);
    growing.give(out, before)
}

/// Adds the spelling of a meta.
pub fn put_meta(out: &mut Bytes, meta: &Meta) -> Result<(), NoMemory>
    requires { FitsMeta meta.now }
    ensures ok { OnOk result (out.new ≡ out.old ++ meta_text meta.now) }
    ensures err { OnErr result (out.new ≡ out.old) }
{
    let before = out.len();
    let mut growing = Growing::of(out);
    write_meta(&mut growing, meta);
    growing.give(out, before)
}

/// Adds the spelling of a header, 104 bytes.
pub fn put_header(out: &mut Bytes, header: &Header) -> Result<(), NoMemory>
    ensures ok { OnOk result (out.new ≡ out.old ++ header_text header.now) }
    ensures err { OnErr result (out.new ≡ out.old) }
{
    let before = out.len();
    let mut growing = Growing::of(out);
    write_header(&mut growing, header);
    growing.give(out, before)
}

/// Adds the spelling of a block.
pub fn put_block(out: &mut Bytes, block: &Block) -> Result<(), NoMemory>
    requires { FitsBlock block.now }
    ensures ok { OnOk result (out.new ≡ out.old ++ block_text block.now) }
    ensures err { OnErr result (out.new ≡ out.old) }
{
    let before = out.len();
    let mut growing = Growing::of(out);
    write_block(&mut growing, block);
    growing.give(out, before)
}

/// Adds the spelling of a report.
pub fn put_report(out: &mut Bytes, report: &Report) -> Result<(), NoMemory>
    requires { FitsReport report.now }
    ensures ok { OnOk result (out.new ≡ out.old ++ report_text report.now) }
    ensures err { OnErr result (out.new ≡ out.old) }
{
    let before = out.len();
    let mut growing = Growing::of(out);
    write_report(&mut growing, report);
    growing.give(out, before)
}
