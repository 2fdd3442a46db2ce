//! Outcomes and their lines, written by hand.

use std::alloc::Global;
use std::process::Abort;
use std::test::Fail;
use vs_desk::MemoryDesk;
use vs_refusal::{AtName, BareName, LineName, Refusal};
use vs_top::{Course, Outcome, Summary, report, status};

const SUMMARY: Summary = Summary {
    lanes: 1,
    vectors: 2,
    settlings: 4,
    size: 5,
    operations: 20,
    missed: None,
};

const COURSE: Course = Course {
    vectors: 2,
    slots: 4,
    order: 7,
    steps: 60,
};

/// The summary of a check in which so many lanes missed something.
fn checked(missed: u32) -> Outcome {
    Outcome::Done(Summary {
        missed: Some(missed),
        ..SUMMARY
    })
}

/// Reports an outcome on a desk on which so many calls from the first one on fail.
fn expect_report(
    rt: &impl Abort,
    alloc: Global,
    outcome: Outcome,
    failing: &[u64],
    code: u8,
    text: &str,
) -> Result<(), Fail> {
    let mut desk = MemoryDesk::new(alloc, 16);
    desk.fail_at(failing)?;
    let outcome = report(&mut desk, outcome);
    assert_eq!(rt; status(&outcome), code, "{text}");
    assert_eq!(rt; desk.written(0), text.as_bytes());
    Ok(())
}

#[test]
fn reports_of_outcomes(rt: HostRuntime) -> Result<(), Fail> {
    let a = rt.alloc();
    let ok = "ok lanes=1 vectors=2 settlings=4 size=5\n";
    expect_report(&rt, a, Outcome::Done(SUMMARY), &[], 0, ok)?;
    let lost = "refused 5 WriteFault place=0\n";
    expect_report(&rt, a, Outcome::Done(SUMMARY), &[0], 6, lost)?;
    let part = "ok lanes=1refused 5 WriteFault place=0\n";
    expect_report(&rt, a, Outcome::Done(SUMMARY), &[3], 6, part)?;
    let met = "ok lanes=1 vectors=2 settlings=4 size=5 missed=0\n";
    expect_report(&rt, a, checked(0), &[], 0, met)?;
    let missed = "ok lanes=1 vectors=2 settlings=4 size=5 missed=1\n";
    expect_report(&rt, a, checked(1), &[], 1, missed)?;
    expect_report(&rt, a, checked(1), &[0], 6, lost)?;
    let queue = "ok vectors=2 slots=4 order=7\n";
    expect_report(&rt, a, Outcome::Ordered(COURSE), &[], 0, queue)?;
    expect_report(&rt, a, Outcome::Ordered(COURSE), &[0], 6, lost)?;
    let usage = Outcome::Refused(Refusal::Bare(BareName::Usage));
    expect_report(&rt, a, usage, &[], 2, "refused 1 Usage\n")?;
    let usage = Outcome::Refused(Refusal::Bare(BareName::Usage));
    expect_report(&rt, a, usage, &[0], 2, "")?;
    let syntax = Outcome::Refused(Refusal::At(AtName::Syntax, 22));
    expect_report(&rt, a, syntax, &[], 3, "refused 21 Syntax at=22\n")?;
    let vector = Outcome::Refused(Refusal::Line(LineName::BadVector, 0, 4));
    expect_report(
        &rt,
        a,
        vector,
        &[],
        4,
        "refused 71 BadVector lane=0 line=4\n",
    )?;
    let fault = Outcome::ReadFault { place: 1005 };
    expect_report(&rt, a, fault, &[], 5, "refused 4 ReadFault place=1005\n")?;
    expect_report(&rt, a, Outcome::Memory, &[], 7, "refused 6 Memory\n")?;
    Ok(())
}
