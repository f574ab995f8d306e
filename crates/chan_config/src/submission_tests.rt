use crate::{
    BorrowedRequest, Class, ClassRefusal, Malformed, judge_request, may_wait, submission_class,
};
use ord_types::{Batch, Config, Kind, List, Mode};
use signer_edge::SealBox;
use std::alloc::Global;

// The request 1:1 with the payload `aa`.
const ONE: [u8; 18] = [1, 0, 0, 0, 1, 0, 0, 0, 0, 0, 0, 0, 1, 0, 0, 0, 1, 0xaa];

// No members, and requests of at most so many bytes.
fn config(alloc: Global, mode: Mode, absolute: u32) -> Config {
    Config {
        number: 0,
        kind: Kind::Bft,
        mode,
        members: List::new(alloc),
        batch: Batch {
            count: 2,
            preferred: 10,
            absolute,
            wait: 10,
        },
        rotation: 0,
    }
}

#[test]
fn bytes_have_their_class(rt: HostRuntime) -> Result<(), ClassRefusal> {
    let alloc = rt.alloc();
    let keys = SealBox::new(alloc)?.seat(7);
    let fits = config(alloc, Mode::Normal, 18);
    match submission_class(alloc, &fits, &ONE, &keys)? {
        Class::Ordinary(request) => {
            assert_eq!(rt; request.id.client, 1);
            assert_eq!(rt; request.id.serial, 1);
            assert_eq!(rt; request.payload.as_slice(), [0xaa].as_slice());
            assert_eq!(rt; may_wait(alloc, &fits, &request, &keys), Ok(true));
            let closed = config(alloc, Mode::Maintenance, 18);
            assert_eq!(rt; may_wait(alloc, &closed, &request, &keys), Ok(false));
        }
        Class::Change(_request, _next) => assert!(rt; false),
    }
    Ok(())
}

#[test]
fn bytes_are_judged_where_they_stand(rt: HostRuntime) -> Result<(), ClassRefusal> {
    let alloc = rt.alloc();
    let keys = SealBox::new(alloc)?.seat(7);
    match BorrowedRequest::read(&ONE) {
        Ok(request) => {
            let fits = config(alloc, Mode::Normal, 18);
            assert!(rt; judge_request(alloc, &fits, &request, &keys)?.is_none());
            let small = config(alloc, Mode::Normal, 17);
            let large = ClassRefusal::Malformed(Malformed::TooLarge(18));
            assert_eq!(rt;
                judge_request(alloc, &small, &request, &keys).err(),
                Some(large)
            );
            assert_eq!(rt; request.copy(alloc)?.id.serial, 1);
        }
        Err(_at) => assert!(rt; false),
    }
    for (size, at) in [(0, 0), (1, 1), (16, 16), (17, 17)] {
        let front = ONE.as_slice().get(..size).unwrap_or(&[]);
        assert_eq!(rt; BorrowedRequest::read(front).err(), Some(at));
    }
    Ok(())
}
