use crate::tests::{
    A, B, accepted, answer, block_of, cert_of, delivered, first_after, log_of_four, prepared,
};
use crate::{Fact, FactLog};
use ord_types::{
    Bytes, Cert, Choice, Digest, Last, List, Mode, NoMemory, Report, Sig, Vote, block_hash,
};
use std::alloc::Global;

const fn vote(view: u64, digest: Digest) -> Vote {
    Vote { view, digest }
}

fn left(member: u32, config: u64, view: u64) -> Fact {
    Fact::Left {
        member,
        config,
        view,
    }
}

fn entered(member: u32, config: u64, view: u64, number: u64, choice: Choice) -> Fact {
    Fact::Entered {
        member,
        config,
        view,
        number,
        choice,
    }
}

fn reported(member: u32, config: u64, view: u64, report: Report) -> Fact {
    Fact::Reported {
        member,
        config,
        view,
        report,
    }
}

// What a report tells under configuration 0, before any block.
fn report_of(
    alloc: Global,
    height: u64,
    prepared: Option<Vote>,
    votes: &[Vote],
) -> Result<Report, NoMemory> {
    let mut accepted = List::new(alloc);
    for vote in votes {
        accepted.push(*vote)?;
    }
    Ok(Report {
        height,
        last: None,
        prepared,
        accepted,
    })
}

// Whether leaving is answered so: member, configuration, view, rule.
fn leave_so(log: &mut FactLog, rows: &[(u32, u64, u64, u8)]) -> bool {
    for row in rows {
        if answer(log, left(row.0, row.1, row.2)) != row.3 {
            return false;
        }
    }
    true
}

// Whether acceptances at number 1 under configuration 0 are answered so: member, view, digest, rule.
fn accept_so(log: &mut FactLog, rows: &[(u32, u64, Digest, u8)]) -> bool {
    for row in rows {
        if answer(log, accepted(row.0, 0, row.1, 1, row.2)) != row.3 {
            return false;
        }
    }
    true
}

// Whether entries are answered so: member, configuration, view, number, rule.
fn enter_so(log: &mut FactLog, choice: Choice, rows: &[(u32, u64, u64, u64, u8)]) -> bool {
    for row in rows {
        if answer(log, entered(row.0, row.1, row.2, row.3, choice)) != row.4 {
            return false;
        }
    }
    true
}

// Whether reports that tell this are answered so: member, configuration, view, height, rule.
fn report_so(
    alloc: Global,
    log: &mut FactLog,
    prepared: Option<Vote>,
    votes: &[Vote],
    rows: &[(u32, u64, u64, u64, u8)],
) -> Result<bool, NoMemory> {
    for row in rows {
        let report = report_of(alloc, row.3, prepared, votes)?;
        if answer(log, reported(row.0, row.1, row.2, report)) != row.4 {
            return Ok(false);
        }
    }
    Ok(true)
}

#[test]
fn who_left_is_not_inside(rt: HostRuntime) -> Result<(), NoMemory> {
    let (mut log, _) = log_of_four(rt.alloc(), Mode::Normal, &[])?;
    assert_eq!(rt; answer(&mut log, left(1, 0, 1)), 0);
    assert_eq!(rt; answer(&mut log, accepted(1, 0, 0, 1, A)), 6);
    assert_eq!(rt; answer(&mut log, entered(1, 0, 1, 1, Choice::Free)), 14);
    Ok(())
}

#[test]
fn rules_of_leaving(rt: HostRuntime) -> Result<(), NoMemory> {
    let (mut log, _) = log_of_four(rt.alloc(), Mode::Normal, &[4])?;
    assert!(rt;
        leave_so(
            &mut log,
            &[(4, 0, 1, 1), (5, 0, 1, 3), (1, 1, 1, 4), (1, 0, 0, 10)]
        )
    );
    assert!(rt;
        leave_so(
            &mut log,
            &[(1, 0, 1, 0), (1, 0, 1, 10), (1, 0, 3, 0), (1, 0, 2, 10)]
        )
    );
    let (mut above, _) = log_of_four(rt.alloc(), Mode::Normal, &[3, 4])?;
    assert!(rt; leave_so(&mut above, &[(1, 0, 1, 2)]));
    Ok(())
}

// Members 1 and 2 accepted A, 1 prepared it, and left for view 2.
fn left_prepared(log: &mut FactLog) -> bool {
    accept_so(log, &[(1, 0, A, 0), (2, 0, A, 0)])
        && answer(log, prepared(1, 0, 0, 1, A)) == 0
        && leave_so(log, &[(1, 0, 2, 0)])
}

#[test]
fn rules_of_reports(rt: HostRuntime) -> Result<(), NoMemory> {
    let alloc = rt.alloc();
    let (mut log, _) = log_of_four(alloc, Mode::Normal, &[4])?;
    assert!(rt; report_so(alloc, &mut log, None, &[], &[(1, 0, 0, 1, 11)])?);
    assert!(rt; left_prepared(&mut log));
    let one = vote(0, A);
    let of_others = [(4, 0, 2, 1, 1), (5, 0, 2, 1, 3), (2, 0, 2, 1, 11)];
    assert!(rt; report_so(alloc, &mut log, Some(one), &[one], &of_others)?);
    let of_one = [
        (1, 1, 2, 1, 4),
        (1, 0, 1, 1, 11),
        (1, 0, 2, 2, 12),
        (1, 0, 2, 1, 0),
    ];
    assert!(rt; report_so(alloc, &mut log, Some(one), &[one], &of_one)?);
    Ok(())
}

#[test]
fn false_reports(rt: HostRuntime) -> Result<(), NoMemory> {
    let alloc = rt.alloc();
    let (mut log, _) = log_of_four(alloc, Mode::Normal, &[4])?;
    assert!(rt; left_prepared(&mut log));
    let one = vote(0, A);
    let refused = [(1, 0, 2, 1, 12)];
    assert!(rt; report_so(alloc, &mut log, None, &[one], &refused)?);
    assert!(rt; report_so(alloc, &mut log, Some(vote(0, B)), &[one], &refused)?);
    assert!(rt; report_so(alloc, &mut log, Some(one), &[], &refused)?);
    assert!(rt; report_so(alloc, &mut log, Some(one), &[vote(0, B)], &refused)?);
    assert!(rt; report_so(alloc, &mut log, Some(one), &[one, one], &refused)?);
    Ok(())
}

// Whether members 1 to 3 leave for the view and report, where each accepted these votes and member 1 prepared.
fn report_all(
    alloc: Global,
    log: &mut FactLog,
    view: u64,
    prepared: Option<Vote>,
    votes: &[Vote],
) -> Result<bool, NoMemory> {
    let left = leave_so(log, &[(1, 0, view, 0), (2, 0, view, 0), (3, 0, view, 0)]);
    let first = report_so(alloc, log, prepared, votes, &[(1, 0, view, 1, 0)])?;
    let others = report_so(
        alloc,
        log,
        None,
        votes,
        &[(2, 0, view, 1, 0), (3, 0, view, 1, 0)],
    )?;
    Ok(left && first && others)
}

#[test]
fn rules_of_free_entries(rt: HostRuntime) -> Result<(), NoMemory> {
    let (mut log, _) = log_of_four(rt.alloc(), Mode::Normal, &[4])?;
    assert!(rt; report_all(rt.alloc(), &mut log, 2, None, &[])?);
    assert!(rt; leave_so(&mut log, &[(2, 0, 3, 0)]));
    let kept = [
        (4, 0, 2, 1, 1),
        (1, 1, 2, 1, 4),
        (1, 0, 0, 1, 13),
        (1, 0, 1, 1, 13),
    ];
    assert!(rt; enter_so(&mut log, Choice::Free, &kept));
    let unmet = [
        (2, 0, 2, 1, 13),
        (1, 0, 2, 2, 13),
        (1, 0, 2, 0, 14),
        (1, 0, 3, 1, 14),
    ];
    assert!(rt; enter_so(&mut log, Choice::Free, &unmet));
    assert!(rt; enter_so(&mut log, Choice::Neither, &[(1, 0, 2, 1, 14)]));
    assert!(rt; enter_so(&mut log, Choice::Carry(vote(0, A)), &[(1, 0, 2, 1, 14)]));
    let met = [(1, 0, 2, 1, 0), (9, 0, 2, 1, 0), (1, 0, 2, 1, 13)];
    assert!(rt; enter_so(&mut log, Choice::Free, &met));
    assert!(rt; accept_so(&mut log, &[(1, 2, A, 0)]));
    Ok(())
}

#[test]
fn rules_of_carrying_entries(rt: HostRuntime) -> Result<(), NoMemory> {
    let (mut log, _) = log_of_four(rt.alloc(), Mode::Normal, &[])?;
    assert!(rt; accept_so(&mut log, &[(1, 0, A, 0), (2, 0, A, 0), (3, 0, A, 0)]));
    assert_eq!(rt; answer(&mut log, prepared(1, 0, 0, 1, A)), 0);
    let one = vote(0, A);
    assert!(rt; report_all(rt.alloc(), &mut log, 1, Some(one), &[one])?);
    assert!(rt; enter_so(&mut log, Choice::Free, &[(1, 0, 1, 1, 14)]));
    assert!(rt; enter_so(&mut log, Choice::Carry(vote(0, B)), &[(1, 0, 1, 1, 14)]));
    assert!(rt; enter_so(&mut log, Choice::Carry(vote(1, A)), &[(1, 0, 1, 1, 14)]));
    assert!(rt;
        enter_so(
            &mut log,
            Choice::Carry(one),
            &[(1, 0, 2, 1, 14), (1, 0, 1, 1, 0)]
        )
    );
    assert!(rt;
        accept_so(
            &mut log,
            &[(1, 0, A, 6), (1, 1, B, 8), (1, 1, A, 0), (1, 1, A, 7)]
        )
    );
    Ok(())
}

// Whether members 1 to 3 enter view 1, and accept and prepare the hash there.
fn certify(alloc: Global, log: &mut FactLog, hash: Digest) -> Result<bool, NoMemory> {
    let reported = report_all(alloc, log, 1, None, &[])?;
    let entered = enter_so(
        log,
        Choice::Free,
        &[(1, 0, 1, 1, 0), (2, 0, 1, 1, 0), (3, 0, 1, 1, 0)],
    );
    let accepted = accept_so(log, &[(1, 1, hash, 0), (2, 1, hash, 0), (3, 1, hash, 0)]);
    let mut wrong = 0;
    for member in [1, 2, 3] {
        wrong = wrong | answer(log, prepared(member, 0, 1, 1, hash));
    }
    Ok(reported && entered && accepted && wrong == 0)
}

#[test]
fn a_certificate_leads_into_its_view(rt: HostRuntime) -> Result<(), NoMemory> {
    let alloc = rt.alloc();
    let (mut log, genesis) = log_of_four(alloc, Mode::Normal, &[])?;
    let made = first_after(genesis);
    let hash = block_hash(&block_of(alloc, made)?.header);
    assert!(rt; certify(alloc, &mut log, hash)?);
    assert!(rt; enter_so(&mut log, Choice::Free, &[(4, 0, 1, 2, 13)]));
    let fact = delivered(4, block_of(alloc, made)?, cert_of(alloc, 1, &[1, 2, 3])?);
    assert_eq!(rt; answer(&mut log, fact), 0);
    assert!(rt; enter_so(&mut log, Choice::Free, &[(4, 0, 2, 2, 14), (4, 0, 1, 2, 0)]));
    assert_eq!(rt; answer(&mut log, accepted(4, 0, 1, 2, A)), 0);
    Ok(())
}

// A report of height 2, whose last block has the hash and a certificate of this view, with this third signer.
fn last_told(alloc: Global, hash: Digest, view: u64, signer: u32) -> Result<Fact, NoMemory> {
    let mut sigs = List::new(alloc);
    for id in [1, 2, signer] {
        let bytes = Bytes::new(alloc);
        sigs.push(Sig { signer: id, bytes })?;
    }
    let cert = Cert { view, sigs };
    let report = Report {
        height: 2,
        last: Some(Last { hash, cert }),
        prepared: None,
        accepted: List::new(alloc),
    };
    Ok(reported(1, 0, 2, report))
}

#[test]
fn a_report_tells_the_last_block(rt: HostRuntime) -> Result<(), NoMemory> {
    let alloc = rt.alloc();
    let (mut log, genesis) = log_of_four(alloc, Mode::Normal, &[])?;
    let made = first_after(genesis);
    let hash = block_hash(&block_of(alloc, made)?.header);
    assert!(rt; certify(alloc, &mut log, hash)?);
    let fact = delivered(1, block_of(alloc, made)?, cert_of(alloc, 1, &[1, 2, 3])?);
    assert_eq!(rt; answer(&mut log, fact), 0);
    assert!(rt; leave_so(&mut log, &[(1, 0, 2, 0)]));
    assert!(rt; report_so(alloc, &mut log, None, &[], &[(1, 0, 2, 2, 12)])?);
    assert_eq!(rt; answer(&mut log, last_told(alloc, A, 1, 3)?), 12);
    assert_eq!(rt; answer(&mut log, last_told(alloc, hash, 0, 3)?), 12);
    assert_eq!(rt; answer(&mut log, last_told(alloc, hash, 1, 4)?), 12);
    assert_eq!(rt; answer(&mut log, last_told(alloc, hash, 1, 3)?), 0);
    Ok(())
}
