//! Checks over a desk in memory on which calls fail.

ghost use Rattle.std.specs.Prelude.{◌<◌};

use crate::runs::{AND, desk_with, run_words, words};
use std::alloc::{AllocError, Global};
use std::process::Abort;
use std::test::Fail;
use vs_desk::MemoryDesk;

/// Three lanes, of which the first misses something in its first vector, the second in its last one,
/// and the third nothing.
const THREE_LANES: &str = "c check --top top --clock clk d.v s0 s1 s2";

/// What is told where a read fails, by the place that it is told of.
const READ_FAULTS: [&[u8]; 4] = [
    b"refused 4 ReadFault place=1\n",
    b"refused 4 ReadFault place=1000\n",
    b"refused 4 ReadFault place=1001\n",
    b"refused 4 ReadFault place=1002\n",
];

/// Checks the lanes on a desk on which the calls of these numbers fail, and answers the status.
fn check_failing(
    alloc: Global,
    piece: usize,
    failing: &[u64],
) -> Result<(u8, MemoryDesk), AllocError>
    requires { 0 < piece }
{
    let files = [
        ("d.v", AND),
        ("s0", "inputs a b -> y\n1 0 -> 1\n1 1 -> 1\n"),
        ("s1", "inputs a b -> y\n1 0 -> 0\n1 1 -> 1\n0 1 -> 1\n"),
        ("s2", "inputs a b -> y\n0 0 -> 0\n"),
    ];
    let mut desk = desk_with(alloc, piece, &files)?;
    desk.fail_at(failing)?;
    let words = words(alloc, THREE_LANES)?;
    let code = run_words(alloc, &mut desk, &words);
    Ok((code, desk))
}

/// Whether a read fault was told behind some first part of what a check tells on which no call fails.
fn is_read_fault(told: &[u8], whole: &[u8]) -> bool {
    READ_FAULTS.iter().any(|line| match told.strip_suffix(*line) {
        Some(before) => whole.starts_with(before),
        None => false,
    })
}

/// Where call n fails, one count has risen, and the report is the fault's line, behind some first part
/// of what is told without a fault. Where a put of the fault's line fails too, all is the same but that
/// this line is cut. No place of a waveform is attached.
fn expect_fault(
    rt: &impl Abort,
    alloc: Global,
    piece: usize,
    n: u64,
    whole: &MemoryDesk,
) -> Result<(), Fail>
    requires { 0 < piece }
{
    let (code, desk) = check_failing(alloc, piece, &[n])?;
    let put = if desk.losses() == 1 {
        n.saturating_add(1)
    } else {
        desk.calls().saturating_sub(1)
    };
    let (again, lost) = check_failing(alloc, piece, &[n, put])?;
    assert_eq!(rt; code, again, "call {n}");
    assert!(rt; desk.written(0).starts_with(lost.written(0)), "call {n}");
    assert!(rt; lost.written(0).len() < desk.written(0).len(), "call {n}");
    for place in [2000, 2001, 2002] {
        assert!(rt; desk.attached(place).is_none(), "call {n}");
    }
    if desk.losses() == 1 {
        assert_eq!(rt; (code, desk.faults()), (6, 0), "call {n}");
        assert!(rt; whole.written(0).starts_with(lost.written(0)), "call {n}");
        assert!(rt;
            desk.written(0).ends_with(b"refused 5 WriteFault place=0\n"),
            "call {n}"
        );
    } else {
        assert_eq!(rt; (code, desk.losses(), desk.faults()), (5, 0, 1), "call {n}");
        assert!(rt;
            is_read_fault(desk.written(0), whole.written(0)),
            "call {n}"
        );
    }
    Ok(())
}

#[test]
fn each_call_of_a_check_fails_in_turn(rt: HostRuntime) -> Result<(), Fail> {
    for piece in [1, 4096] {
        let (code, whole) = check_failing(rt.alloc(), piece, &[])?;
        assert_eq!(rt; (code, whole.faults(), whole.losses()), (1, 0, 0));
        assert!(rt;
            whole
                .written(0)
                .ends_with(b"ok lanes=3 vectors=6 settlings=6 size=5 missed=2\n")
        );
        for n in 0..whole.calls() {
            expect_fault(&rt, rt.alloc(), piece, n, &whole)?;
        }
    }
    Ok(())
}
