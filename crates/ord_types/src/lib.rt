//! The values of the ordering service, their bytes and hashes, and the traits of what stands outside.
#![tactic(auto)]

mod fault;
mod genesis;
mod hashes;
mod layouts;
mod limits;
mod lists;
mod members;
mod memory;
mod outside;
#[cfg(test)]
mod read_tests;
mod reader;
mod reading;
mod spelling;
#[cfg(test)]
mod tests;
mod uniqueness;
mod values;
mod whole;
mod writing;

pub use fault::{Flaw, Halt, ReadFault};
pub use genesis::genesis_block;
pub use hashes::{block_hash, content_hash, meta_hash};
pub use layouts::{
    write_block, write_cert, write_config, write_header, write_meta, write_report, write_request,
    write_requests, write_sig,
};
pub use limits::{MOST_HEADERS, MOST_MEMBERS, MOST_NUMBER, MOST_PAYLOAD, MOST_REQUESTS};
pub use lists::{Bytes, Copied, List, NoMemory};
pub use members::{fault_bound, majority, quorum};
pub use memory::{MemSink, MemSource};
pub use outside::{Failed, Sink, Source};
pub use reader::{Reader, bad};
pub use spelling::{
    put_block, put_cert, put_config, put_header, put_meta, put_report, put_request, put_requests,
    put_sig,
};
pub use uniqueness::spellings_are_unique;
pub use values::{
    Batch, Block, Cert, Choice, Config, Digest, Header, Kind, Last, Meta, Mode, Place, Proof,
    Report, ReqId, ReqKind, Request, Sig, Vote,
};
pub use whole::{
    read_block, read_cert, read_config, read_header, read_meta, read_report, read_request,
    read_sig, whole_block, whole_cert, whole_config, whole_header, whole_meta, whole_report,
    whole_request, whole_sig,
};
pub use writing::{Growing, Writer};
