//! Reads values that stand at a place of bytes, or are all of them. A place behind the bytes is their end, where
//! every value is `Short`.
ghost use Rattle.std.specs.Prelude.{◌≡◌, ℕ, drop, length, IfOk, Result as Outcome};
ghost use Rattle.std.specs.Prelude.{List as Items};
ghost use Rattle.ord_types.specs.Faults.{
  Answers,
  AnswersAt,
  AnswersWhole,
  BeginsWithin,
  IsSpelled,
  IsSpelledAt,
  Reads,
  ReadsSpelling,
  ReadsWhole,
  StaysWithin,
  halted_at,
  placed,
  whole,
};
ghost use Rattle.ord_types.specs.declared.fault.Flaw.{Flaw as SomeFlaw};
ghost use Rattle.ord_types.specs.Grammar.{
  HasBlockSpelling,
  HasCertSpelling,
  HasConfigSpelling,
  HasHeaderSpelling,
  HasMetaSpelling,
  HasReportSpelling,
  HasRequestSpelling,
  HasSigSpelling,
};
ghost use Rattle.ord_types.specs.Reading.{block_at, cert_at, config_at, header_at, meta_at, report_at, request_at, sig_at};
ghost use Rattle.ord_types.specs.Spelling.{
  block_text,
  cert_text,
  config_text,
  header_text,
  meta_text,
  report_text,
  request_text,
  sig_text,
};

use crate::fault::{Flaw, Halt, ReadFault};
use crate::reader::Reader;
use crate::values::{Block, Cert, Config, Header, Meta, Report, Request, Sig};
use std::alloc::Global;

// The fault of what ended a reading, in so many bytes.
fn fault_of(size: usize, halt: Halt) -> ReadFault
    requires { BeginsWithin size halt }
    ensures { result ≡ halted_at size halt }
{
    match halt {
        Halt::NoMemory => ReadFault::NoMemory,
        Halt::Flawed(Flaw::Short) => ReadFault::Short(size),
        Halt::Flawed(Flaw::Bad(left)) => ReadFault::BadField(size - left),
    }
}

// What was read in so many bytes, with the place behind it.
fn with_place<T: Drop>(
    size: usize,
    reader: &Reader,
    read: Result<T, Halt>,
) -> Result<(T, usize), ReadFault>
    requires { StaysWithin size read reader.now }
    ensures { (given : Outcome (T × Items ℕ) SomeFlaw) → Reads read reader.now given → Answers result (placed size given) }
{
    match read {
        Ok(value) => Ok((value, size - reader.left())),
        Err(halt) => Err(fault_of(size, halt)),
    }
}

// What was read in so many bytes, where none are left.
fn all_of<T: Drop>(size: usize, reader: &Reader, read: Result<T, Halt>) -> Result<T, ReadFault>
    requires { StaysWithin size read reader.now }
    ensures { (given : Outcome (T × Items ℕ) SomeFlaw) → Reads read reader.now given → Answers result (whole size given) }
{
    let left = reader.left();
    match read {
        Ok(value) if left == 0 => Ok(value),
        Ok(_) => Err(ReadFault::Trailing(size - left)),
        Err(halt) => Err(fault_of(size, halt)),
    }
}

/// Reads a configuration that stands at a place of the bytes: gives it with the place behind it.
pub fn read_config(alloc: Global, bytes: &[u8], at: usize) -> Result<(Config, usize), ReadFault>
    ensures exact { AnswersAt config_at result bytes.now at }
    ensures found { IfOk result (IsSpelledAt HasConfigSpelling config_text bytes.now at) }
    ensures only { ReadsSpelling HasConfigSpelling config_text result bytes.now at }
{
    let mut reader = Reader::at(bytes, at);
    let read = reader.config(alloc);
    with_place(bytes.len(), &reader, read)
}

/// Reads a configuration that all of the bytes are.
pub fn whole_config(alloc: Global, bytes: &[u8]) -> Result<Config, ReadFault>
    ensures exact { AnswersWhole config_at result bytes.now }
    ensures found { IfOk result (IsSpelled HasConfigSpelling config_text bytes.now) }
    ensures only { ReadsWhole HasConfigSpelling config_text result bytes.now }
{
    let mut reader = Reader::new(bytes);
    let read = reader.config(alloc);
    all_of(bytes.len(), &reader, read)
}

/// Reads a request that stands at a place of the bytes: gives it with the place behind it.
pub fn read_request(alloc: Global, bytes: &[u8], at: usize) -> Result<(Request, usize), ReadFault>
    ensures exact { AnswersAt request_at result bytes.now at }
    ensures found { IfOk result (IsSpelledAt HasRequestSpelling request_text bytes.now at) }
    ensures only { ReadsSpelling HasRequestSpelling request_text result bytes.now at }
{
    let mut reader = Reader::at(bytes, at);
    let read = reader.request(alloc);
    with_place(bytes.len(), &reader, read)
}

/// Reads a request that all of the bytes are.
pub fn whole_request(alloc: Global, bytes: &[u8]) -> Result<Request, ReadFault>
    ensures exact { AnswersWhole request_at result bytes.now }
    ensures found { IfOk result (IsSpelled HasRequestSpelling request_text bytes.now) }
    ensures only { ReadsWhole HasRequestSpelling request_text result bytes.now }
{
    let mut reader = Reader::new(bytes);
    let read = reader.request(alloc);
    all_of(bytes.len(), &reader, read)
}

/// Reads a meta that stands at a place of the bytes: gives it with the place behind it.
pub fn read_meta(alloc: Global, bytes: &[u8], at: usize) -> Result<(Meta, usize), ReadFault>
    ensures exact { AnswersAt meta_at result bytes.now at }
    ensures found { IfOk result (IsSpelledAt HasMetaSpelling meta_text bytes.now at) }
    ensures only { ReadsSpelling HasMetaSpelling meta_text result bytes.now at }
{
    let mut reader = Reader::at(bytes, at);
    let read = reader.meta(alloc);
    with_place(bytes.len(), &reader, read)
}

/// Reads a meta that all of the bytes are.
pub fn whole_meta(alloc: Global, bytes: &[u8]) -> Result<Meta, ReadFault>
    ensures exact { AnswersWhole meta_at result bytes.now }
    ensures found { IfOk result (IsSpelled HasMetaSpelling meta_text bytes.now) }
    ensures only { ReadsWhole HasMetaSpelling meta_text result bytes.now }
{
    let mut reader = Reader::new(bytes);
    let read = reader.meta(alloc);
    all_of(bytes.len(), &reader, read)
}

/// Reads a header that stands at a place of the bytes: gives it with the place behind it.
pub fn read_header(bytes: &[u8], at: usize) -> Result<(Header, usize), ReadFault>
    ensures exact { AnswersAt header_at result bytes.now at }
    ensures found { IfOk result (IsSpelledAt HasHeaderSpelling header_text bytes.now at) }
    ensures only { ReadsSpelling HasHeaderSpelling header_text result bytes.now at }
{
    let mut reader = Reader::at(bytes, at);
    let read = reader.header();
    with_place(bytes.len(), &reader, read)
}

/// Reads a header that all of the bytes are.
pub fn whole_header(bytes: &[u8]) -> Result<Header, ReadFault>
    ensures exact { AnswersWhole header_at result bytes.now }
    ensures found { IfOk result (IsSpelled HasHeaderSpelling header_text bytes.now) }
    ensures only { ReadsWhole HasHeaderSpelling header_text result bytes.now }
{
    let mut reader = Reader::new(bytes);
    let read = reader.header();
    all_of(bytes.len(), &reader, read)
}

/// Reads a block that stands at a place of the bytes: gives it with the place behind it.
pub fn read_block(alloc: Global, bytes: &[u8], at: usize) -> Result<(Block, usize), ReadFault>
    ensures exact { AnswersAt block_at result bytes.now at }
    ensures found { IfOk result (IsSpelledAt HasBlockSpelling block_text bytes.now at) }
    ensures only { ReadsSpelling HasBlockSpelling block_text result bytes.now at }
{
    let mut reader = Reader::at(bytes, at);
    let read = reader.block(alloc);
    with_place(bytes.len(), &reader, read)
}

/// Reads a block that all of the bytes are.
pub fn whole_block(alloc: Global, bytes: &[u8]) -> Result<Block, ReadFault>
    ensures exact { AnswersWhole block_at result bytes.now }
    ensures found { IfOk result (IsSpelled HasBlockSpelling block_text bytes.now) }
    ensures only { ReadsWhole HasBlockSpelling block_text result bytes.now }
{
    let mut reader = Reader::new(bytes);
    let read = reader.block(alloc);
    all_of(bytes.len(), &reader, read)
}

/// Reads a signature that stands at a place of the bytes: gives it with the place behind it.
pub fn read_sig(alloc: Global, bytes: &[u8], at: usize) -> Result<(Sig, usize), ReadFault>
    ensures exact { AnswersAt sig_at result bytes.now at }
    ensures found { IfOk result (IsSpelledAt HasSigSpelling sig_text bytes.now at) }
    ensures only { ReadsSpelling HasSigSpelling sig_text result bytes.now at }
{
    let mut reader = Reader::at(bytes, at);
    let read = reader.sig(alloc);
    with_place(bytes.len(), &reader, read)
}

/// Reads a signature that all of the bytes are.
pub fn whole_sig(alloc: Global, bytes: &[u8]) -> Result<Sig, ReadFault>
    ensures exact { AnswersWhole sig_at result bytes.now }
    ensures found { IfOk result (IsSpelled HasSigSpelling sig_text bytes.now) }
    ensures only { ReadsWhole HasSigSpelling sig_text result bytes.now }
{
    let mut reader = Reader::new(bytes);
    let read = reader.sig(alloc);
    all_of(bytes.len(), &reader, read)
}

/// Reads a certificate that stands at a place of the bytes: gives it with the place behind it.
pub fn read_cert(alloc: Global, bytes: &[u8], at: usize) -> Result<(Cert, usize), ReadFault>
    ensures exact { AnswersAt cert_at result bytes.now at }
    ensures found { IfOk result (IsSpelledAt HasCertSpelling cert_text bytes.now at) }
    ensures only { ReadsSpelling HasCertSpelling cert_text result bytes.now at }
{
    let mut reader = Reader::at(bytes, at);
    let read = reader.cert(alloc);
    with_place(bytes.len(), &reader, read)
}

/// Reads a certificate that all of the bytes are.
pub fn whole_cert(alloc: Global, bytes: &[u8]) -> Result<Cert, ReadFault>
    ensures exact { AnswersWhole cert_at result bytes.now }
    ensures found { IfOk result (IsSpelled HasCertSpelling cert_text bytes.now) }
    ensures only { ReadsWhole HasCertSpelling cert_text result bytes.now }
{
    let mut reader = Reader::new(bytes);
    let read = reader.cert(alloc);
    all_of(bytes.len(), &reader, read)
}

/// Reads a report that stands at a place of the bytes: gives it with the place behind it.
pub fn read_report(alloc: Global, bytes: &[u8], at: usize) -> Result<(Report, usize), ReadFault>
    ensures exact { AnswersAt report_at result bytes.now at }
    ensures found { IfOk result (IsSpelledAt HasReportSpelling report_text bytes.now at) }
    ensures only { ReadsSpelling HasReportSpelling report_text result bytes.now at }
{
    let mut reader = Reader::at(bytes, at);
    let read = reader.report(alloc);
    with_place(bytes.len(), &reader, read)
}

/// Reads a report that all of the bytes are.
pub fn whole_report(alloc: Global, bytes: &[u8]) -> Result<Report, ReadFault>
    ensures exact { AnswersWhole report_at result bytes.now }
    ensures found { IfOk result (IsSpelled HasReportSpelling report_text bytes.now) }
    ensures only { ReadsWhole HasReportSpelling report_text result bytes.now }
{
    let mut reader = Reader::new(bytes);
    let read = reader.report(alloc);
    all_of(bytes.len(), &reader, read)
}
