//! Runs over a desk in memory on which calls fail.

ghost use Rattle.std.specs.Prelude.{◌<◌};

use crate::runs::{AND, desk_with, run_words, words};
use std::alloc::{AllocError, Global};
use std::process::Abort;
use std::test::Fail;
use vs_desk::MemoryDesk;

/// Two lanes, of which the first ends earlier.
const TWO_LANES: &str = "c run --top top --clock clk d.v s0 s1";

/// One lane, which the event queue runs.
const QUEUE: &str = "c queue --order 7 --top top --clock clk d.v s1";

/// Six lanes of one vector.
const SIX_LANES: &str = "c run --top top --clock clk d.v s1 s2 s3 s4 s5 s6";

/// Two lanes, of which the second has no vector in its third line.
const REFUSED_LATER: &str = "c run --top top --clock clk d.v s0 s7";

/// Runs a line on a desk on which the calls of these numbers fail, and answers the status.
fn run_failing(
    alloc: Global,
    piece: usize,
    line: &str,
    failing: &[u64],
) -> Result<(u8, MemoryDesk), AllocError>
    requires { 0 < piece }
{
    let short = "inputs a b\n1 0\n";
    let files = [
        ("d.v", AND),
        ("s0", short),
        ("s1", "inputs a b\n1 0\n1 1\n0 1\n"),
        ("s2", short),
        ("s3", short),
        ("s4", short),
        ("s5", short),
        ("s6", short),
        ("s7", "inputs a b\n1 0\n1 2\n"),
    ];
    let mut desk = desk_with(alloc, piece, &files)?;
    desk.fail_at(failing)?;
    let words = words(alloc, line)?;
    let code = run_words(alloc, &mut desk, &words);
    Ok((code, desk))
}

/// Where call n fails, one count has risen, each waveform is some first part of the whole one, and the
/// report is the fault's line, behind some first part of the line that was lost. Where a put of the
/// fault's line fails too, all is the same but that this line is cut. A read that fails before the
/// first round has touched no waveform.
fn expect_fault(
    rt: &impl Abort,
    alloc: Global,
    line: &str,
    piece: usize,
    n: u64,
    whole: &MemoryDesk,
) -> Result<(), Fail>
    requires { 0 < piece }
{
    let (code, desk) = run_failing(alloc, piece, line, &[n])?;
    let put = if desk.losses() == 1 {
        n.saturating_add(1)
    } else {
        desk.calls().saturating_sub(1)
    };
    let (again, lost) = run_failing(alloc, piece, line, &[n, put])?;
    assert_eq!(rt; code, again, "call {n}");
    for place in [2000, 2001] {
        assert!(rt;
            whole.written(place).starts_with(desk.written(place)),
            "call {n}"
        );
        assert_eq!(rt; desk.written(place), lost.written(place), "call {n}");
    }
    assert!(rt; desk.written(0).starts_with(lost.written(0)), "call {n}");
    assert!(rt; lost.written(0).len() < desk.written(0).len(), "call {n}");
    if desk.losses() == 1 {
        assert_eq!(rt; (code, desk.faults()), (6, 0), "call {n}");
        assert!(rt; whole.written(0).starts_with(lost.written(0)), "call {n}");
        assert!(rt;
            desk.written(0).ends_with(b"refused 5 WriteFault place=0\n"),
            "call {n}"
        );
    } else if code == 5 {
        assert_eq!(rt; (desk.losses(), desk.faults()), (0, 1), "call {n}");
        assert!(rt;
            desk.written(0).starts_with(b"refused 4 ReadFault place=1"),
            "call {n}"
        );
        assert_eq!(rt;
            desk.attached(2000).is_some(),
            !desk.written(2000).is_empty(),
            "call {n}"
        );
    } else {
        assert_eq!(rt; (code, desk.losses(), desk.faults()), (6, 0, 1), "call {n}");
        assert!(rt;
            desk.written(0)
                .starts_with(b"refused 5 WriteFault place=200"),
            "call {n}"
        );
    }
    Ok(())
}

/// Each call of the line's run fails in turn.
fn expect_faults(rt: &impl Abort, alloc: Global, line: &str) -> Result<(), Fail> {
    for piece in [1, 4096] {
        let (code, whole) = run_failing(alloc, piece, line, &[])?;
        assert_eq!(rt; code, 0);
        for n in 0..whole.calls() {
            expect_fault(rt, alloc, line, piece, n, &whole)?;
        }
    }
    Ok(())
}

#[test]
fn each_call_fails_in_turn(rt: HostRuntime) -> Result<(), Fail> {
    expect_faults(&rt, rt.alloc(), TWO_LANES)
}

#[test]
fn each_call_of_the_queue_fails_in_turn(rt: HostRuntime) -> Result<(), Fail> {
    expect_faults(&rt, rt.alloc(), QUEUE)
}

#[test]
fn faults_at_late_places(rt: HostRuntime) -> Result<(), Fail> {
    let (code, whole) = run_failing(rt.alloc(), 4096, SIX_LANES, &[])?;
    assert_eq!(rt; code, 0);
    let mut second_take = false;
    let mut first_put = false;
    for n in 0..whole.calls() {
        let (code, desk) = run_failing(rt.alloc(), 4096, SIX_LANES, &[n])?;
        let report = desk.written(0);
        if code == 5 && report == b"refused 4 ReadFault place=1005\n".as_slice() {
            second_take = second_take || !desk.written(2005).is_empty();
        }
        if code == 6 && report == b"refused 5 WriteFault place=2000\n".as_slice() {
            first_put = first_put || desk.attached(2005).is_some();
            assert!(rt; desk.written(2001).is_empty() || !desk.written(2000).is_empty());
        }
    }
    assert!(rt; second_take);
    assert!(rt; first_put);
    Ok(())
}

/// A waveform gets its head and first round by one put, each later round by one, and its last line by
/// one. With the attach and the flush these are the calls that fail at its place, if they do.
#[test]
fn a_put_for_each_round(rt: HostRuntime) -> Result<(), Fail> {
    let (_, whole) = run_failing(rt.alloc(), 4096, TWO_LANES, &[])?;
    let mut first = 0u32;
    let mut second = 0u32;
    for n in 0..whole.calls() {
        let (_, desk) = run_failing(rt.alloc(), 4096, TWO_LANES, &[n])?;
        match desk.written(0) {
            b"refused 5 WriteFault place=2000\n" => first = first.saturating_add(1),
            b"refused 5 WriteFault place=2001\n" => second = second.saturating_add(1),
            _ => {}
        }
    }
    assert_eq!(rt; (first, second), (4, 6));
    Ok(())
}

/// Where what was put can't be written out at the places of two waveforms, the first lane is told.
#[test]
fn the_first_lane_that_is_not_written_out(rt: HostRuntime) -> Result<(), Fail> {
    let (_, whole) = run_failing(rt.alloc(), 4096, TWO_LANES, &[])?;
    let mut both = false;
    for n in 0..whole.calls() {
        let (code, desk) = run_failing(rt.alloc(), 4096, TWO_LANES, &[n, n.saturating_add(1)])?;
        let all_put = [2000, 2001]
            .iter()
            .all(|place| desk.written(*place) == whole.written(*place));
        if desk.faults() == 2 && all_put {
            both = true;
            assert_eq!(rt;
                (code, desk.written(0)),
                (6, b"refused 5 WriteFault place=2000\n".as_slice())
            );
        }
    }
    assert!(rt; both);
    Ok(())
}

/// Where a line is refused in a later round, each lane is written out once, when all is put and before
/// the report line.
#[test]
fn written_out_behind_a_refusal(rt: HostRuntime) -> Result<(), Fail> {
    let (code, whole) = run_failing(rt.alloc(), 4096, REFUSED_LATER, &[])?;
    assert_eq!(rt; code, 4);
    let mut first = 0u32;
    let mut second = 0u32;
    for n in 0..whole.calls() {
        let (_, desk) = run_failing(rt.alloc(), 4096, REFUSED_LATER, &[n])?;
        let all_put = [2000, 2001]
            .iter()
            .all(|place| desk.written(*place) == whole.written(*place));
        match desk.written(0) {
            b"refused 5 WriteFault place=2000\n" if all_put => first = first.saturating_add(1),
            b"refused 5 WriteFault place=2001\n" if all_put => second = second.saturating_add(1),
            _ => {}
        }
    }
    assert_eq!(rt; (first, second), (1, 1));
    Ok(())
}
