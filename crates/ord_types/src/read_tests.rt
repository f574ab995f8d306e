// The texts of the values were packed by Python's struct, and the places counted along the layouts.
use crate::{
    Bytes, ReadFault, put_report, read_block, read_cert, read_config, read_header, read_meta,
    read_report, read_request, read_sig, whole_block, whole_cert, whole_config, whole_header,
    whole_meta, whole_report, whole_request, whole_sig,
};
use std::alloc::Global;
use std::test::Fail;

#[derive(Clone, Copy, Debug)]
enum What {
    Config,
    Request,
    Meta,
    Header,
    Block,
    Sig,
    Cert,
    Report,
}

const CONFIG: [u8; 40] =
    *b"\x01\0\0\0\0\0\0\0\x05\x02\x01\x02\0\0\0\x02\0\0\0\x07\0\0\0\x01\0\0\0\x02\0\0\0\x03\0\0\0\x04\0\0\0\x09";

const REQUEST: [u8; 20] = *b"\x01\0\0\0\x05\xff\xff\xff\xff\xff\xff\xff\xff\0\0\0\x03abc";

const META: [u8; 46] =
    *b"\0\0\0\0\0\0\0\x01\0\0\0\0\0\0\0\x02\0\0\0\0\0\0\0\x03\x02\0\0\0\x09\0\0\0\x04\x03\0\0\0\x01\0\0\0\x02\0\0\0\x03";

const HEADER: [u8; 104] =
    *b"\0\0\0\0\0\0\0\x07ppppppppppppppppppppppppppppppppccccccccccccccccccccccccccccccccmmmmmmmmmmmmmmmmmmmmmmmmmmmmmmmm";

const BLOCK: [u8; 191] =
    *b"\0\0\0\0\0\0\0\x07ppppppppppppppppppppppppppppppppccccccccccccccccccccccccccccccccmmmmmmmmmmmmmmmmmmmmmmmmmmmmmmmm\0\0\0\x02\x01\0\0\0\x05\xff\xff\xff\xff\xff\xff\xff\xff\0\0\0\x03abc\x02\0\0\0\0\0\0\0\0\0\0\0\0\0\0\0\0\0\0\0\0\0\0\0\x01\0\0\0\0\0\0\0\x02\0\0\0\0\0\0\0\x03\x02\0\0\0\x09\0\0\0\x04\x03\0\0\0\x01\0\0\0\x02\0\0\0\x03";

const SIG: [u8; 8] = *b"\0\0\0\x07\0\x02\xaa\xbb";

const CERT: [u8; 22] = *b"\0\0\0\0\0\0\0\x03\x02\0\0\0\0\0\x01\xaa\0\0\0\x08\0\0";

const REPORT: [u8; 185] =
    *b"\0\0\0\0\0\0\0\x06\x01hhhhhhhhhhhhhhhhhhhhhhhhhhhhhhhh\0\0\0\0\0\0\0\x03\x02\0\0\0\0\0\x01\xaa\0\0\0\x08\0\0\x01\0\0\0\0\0\0\0\x05vvvvvvvvvvvvvvvvvvvvvvvvvvvvvvvv\x02\0\0\0\0\0\0\0\x04xxxxxxxxxxxxxxxxxxxxxxxxxxxxxxxx\0\0\0\0\0\0\0\x01yyyyyyyyyyyyyyyyyyyyyyyyyyyyyyyy";

// The place behind a value.
fn end_of(alloc: Global, what: What, bytes: &[u8], at: usize) -> Result<usize, ReadFault> {
    match what {
        What::Config => Ok(read_config(alloc, bytes, at)?.1),
        What::Request => Ok(read_request(alloc, bytes, at)?.1),
        What::Meta => Ok(read_meta(alloc, bytes, at)?.1),
        What::Header => Ok(read_header(bytes, at)?.1),
        What::Block => Ok(read_block(alloc, bytes, at)?.1),
        What::Sig => Ok(read_sig(alloc, bytes, at)?.1),
        What::Cert => Ok(read_cert(alloc, bytes, at)?.1),
        What::Report => Ok(read_report(alloc, bytes, at)?.1),
    }
}

// Why the bytes are no value.
fn fault_of(alloc: Global, what: What, bytes: &[u8]) -> Option<ReadFault> {
    match what {
        What::Config => whole_config(alloc, bytes).err(),
        What::Request => whole_request(alloc, bytes).err(),
        What::Meta => whole_meta(alloc, bytes).err(),
        What::Header => whole_header(bytes).err(),
        What::Block => whole_block(alloc, bytes).err(),
        What::Sig => whole_sig(alloc, bytes).err(),
        What::Cert => whole_cert(alloc, bytes).err(),
        What::Report => whole_report(alloc, bytes).err(),
    }
}

fn text_of(what: What) -> &'static [u8] {
    match what {
        What::Config => &CONFIG,
        What::Request => &REQUEST,
        What::Meta => &META,
        What::Header => &HEADER,
        What::Block => &BLOCK,
        What::Sig => &SIG,
        What::Cert => &CERT,
        What::Report => &REPORT,
    }
}

#[test]
fn cut_values(rt: HostRuntime) -> Result<(), Fail> {
    for what in [
        What::Config,
        What::Request,
        What::Meta,
        What::Header,
        What::Block,
        What::Sig,
        What::Cert,
        What::Report,
    ] {
        let text = text_of(what);
        for count in 0..text.len() {
            let fault = fault_of(rt.alloc(), what, &text[..count]);
            assert_eq!(rt; fault, Some(ReadFault::Short(count)), "{what:?}");
        }
        assert_eq!(rt; fault_of(rt.alloc(), what, text), None, "{what:?}");
        let mut bytes = Bytes::from_slice(rt.alloc(), b"ab")?;
        bytes.extend_from_slice(text)?;
        let size = bytes.len();
        assert_eq!(rt;
            end_of(rt.alloc(), what, bytes.as_slice(), 2),
            Ok(size),
            "{what:?}"
        );
        assert_eq!(rt;
            end_of(rt.alloc(), what, bytes.as_slice(), size),
            Err(ReadFault::Short(size)),
            "{what:?}"
        );
        bytes.push(0)?;
        assert_eq!(rt;
            end_of(rt.alloc(), what, bytes.as_slice(), 2),
            Ok(size),
            "{what:?}"
        );
        let whole = &bytes.as_slice()[2.min(size)..];
        assert_eq!(rt;
            fault_of(rt.alloc(), what, whole),
            Some(ReadFault::Trailing(text.len())),
            "{what:?}"
        );
    }
    Ok(())
}

#[test]
fn fields_that_break_their_rule(rt: HostRuntime) -> Result<(), Fail> {
    for (what, place, field) in [
        (What::Config, 0, b"\0".as_slice()), // form
        (What::Config, 0, b"\x02".as_slice()), // form
        (What::Config, 1, b"\x40\0\0\0\0\0\0\0".as_slice()), // number
        (What::Config, 9, b"\0".as_slice()), // kind
        (What::Config, 9, b"\x03".as_slice()), // kind
        (What::Config, 10, b"\x02".as_slice()), // mode
        (What::Config, 11, b"\0".as_slice()), // no member
        (What::Config, 11, b"\x20".as_slice()), // members
        (What::Config, 12, b"\0\0\0\0".as_slice()), // member 0
        (What::Config, 16, b"\0\0\0\x02".as_slice()), // member again
        (What::Config, 16, b"\0\0\0\x01".as_slice()), // member below
        (What::Request, 0, b"\0".as_slice()), // kind
        (What::Request, 0, b"\x03".as_slice()), // kind
        (What::Request, 13, b"\0\x01\0\x01".as_slice()), // length
        (What::Meta, 0, b"\x40\0\0\0\0\0\0\0".as_slice()), // config
        (What::Meta, 8, b"\x40\0\0\0\0\0\0\0".as_slice()), // view
        (What::Meta, 16, b"\x40\0\0\0\0\0\0\0".as_slice()), // decided
        (What::Meta, 24, b"\x20".as_slice()), // blacklist
        (What::Meta, 25, b"\0\0\0\0".as_slice()), // listed 0
        (What::Meta, 29, b"\0\0\0\x09".as_slice()), // listed again
        (What::Meta, 33, b"\x20".as_slice()), // signers
        (What::Meta, 34, b"\0\0\0\0".as_slice()), // signer 0
        (What::Meta, 38, b"\0\0\0\x01".as_slice()), // signer again
        (What::Header, 0, b"\x40\0\0\0\0\0\0\0".as_slice()), // number
        (What::Block, 0, b"\x40\0\0\0\0\0\0\0".as_slice()), // number
        (What::Block, 104, b"\0\0\x03\xe9".as_slice()), // requests
        (What::Block, 108, b"\x04".as_slice()), // kind of a request
        (What::Block, 128, b"\x03".as_slice()), // kind of the second request
        (What::Block, 141, b"\0\x01\0\x01".as_slice()), // length of the second request
        (What::Block, 145, b"\x40\0\0\0\0\0\0\0".as_slice()), // config
        (What::Sig, 4, b"\x08\x01".as_slice()), // length
        (What::Cert, 0, b"\x40\0\0\0\0\0\0\0".as_slice()), // view
        (What::Cert, 8, b"\x20".as_slice()), // sigs
        (What::Cert, 13, b"\x08\x01".as_slice()), // length
        (What::Cert, 16, b"\0\0\0\0".as_slice()), // signer again
        (What::Report, 0, b"\x40\0\0\0\0\0\0\0".as_slice()), // height
        (What::Report, 8, b"\x02".as_slice()), // flag
        (What::Report, 41, b"\x40\0\0\0\0\0\0\0".as_slice()), // view of the certificate
        (What::Report, 57, b"\0\0\0\0".as_slice()), // signer again
        (What::Report, 63, b"\x02".as_slice()), // flag
        (What::Report, 64, b"\x40\0\0\0\0\0\0\0".as_slice()), // view prepared
        (What::Report, 104, b"\x21".as_slice()), // votes
        (What::Report, 105, b"\x40\0\0\0\0\0\0\0".as_slice()), // view accepted
        (What::Report, 145, b"\0\0\0\0\0\0\0\x04".as_slice()), // view accepted again
    ] {
        let text = text_of(what);
        let mut bytes = Bytes::from_slice(rt.alloc(), &text[..text.len().min(place)])?;
        bytes.extend_from_slice(field)?;
        let fault = fault_of(rt.alloc(), what, bytes.as_slice());
        assert_eq!(rt; fault, Some(ReadFault::BadField(place)), "{what:?}");
        bytes.extend_from_slice(text)?;
        let end = end_of(rt.alloc(), what, bytes.as_slice(), 0);
        assert_eq!(rt; end, Err(ReadFault::BadField(place)), "{what:?}");
    }
    Ok(())
}

#[test]
#[tactic(auto, using(crate::proofs::Fitting::fits_report))]
fn put_again(rt: HostRuntime) -> Result<(), Fail> {
    let mut out = Bytes::new(rt.alloc());
    if let Ok(report) = whole_report(rt.alloc(), &REPORT) {
        put_report(&mut out, &report)?;
    }
    assert_eq!(rt; out.as_slice(), REPORT.as_slice());
    Ok(())
}
