//! Lines of words, as `vs_job` and as `clap` read them.

use crate::command::cyclesim;
use clap::ArgMatches;
use std::alloc::{AllocError, Global};
use std::process::Abort;
use std::test::Fail;
use vs_job::{Bench, Job, Mode, Texts, read_bench, read_job};

/// Lines that both read alike.
const TAKEN: &str = "\
x run --top t --clock c d s
x run --top=t --clock=c --half=7 d s0 s1 s2
x run d s --half 1000000 --clock c --top t
x run d --top t s --clock c s1
x run --top t --clock c -- d -s --half
x run --top t=u --clock==c d s
x run --top t --clock c --define A d s
x run --top t d s
x run d s
x run --clock c d s
x run --top t --clock c,e d s
x check --clock=e,c,e d s0 s1
x queue --order 7 --clock ,c=e, d s
x check d s0 s1
x check d s --half 7 --top=t
x run --define=A=1 --top t --define B_2= --clock c d --define A=$b=c+`D s
x run --with e --top t --clock c d s
x check d --with=e s --clock c --with f --top=t --with e
x queue --with e --order 7 -- d --with
x run --share --top t --clock c d s
x run d --top t --share s --clock=c s1
x run --top t --clock c -- d --share
x check --top t --clock c d s
x check d s0 --half=7 s1 --clock c --define A --top=t
x check --top t --clock c -- d --half run
x queue --order 7 --top t --clock c d s
x queue d s --half=7 --clock c --define A --top=t --order=0
x queue --top t d --order 18446744073709551615 s
x queue --order 10 --top t -- d --order
x queue --order 7 --clock c d s
x run --top t --clock c d queue
x bench 1
x bench 1000 256
x bench 3 1
";

/// Lines that neither takes.
const NOT_TAKEN: &str = "\
x
x run
x runs --top t --clock c d s
x run --top t --clock c --clock d d s
x run --clock c,e --clock=c,e d s
x run --top t --clock c
x run --top t --clock c d
x run --top t --top u --clock c d s
x run --top t --clock c --half 0 d s
x run --top t --clock c --half 1000001 d s
x run --top t --clock c --half x d s
x run --top t --clock c --other d s
x run --top t --clock c d s --half
x run --top t --clock c d s --define
x run --top t --clock c d --define s
x run --top t --clock c d s --with
x run --top t --clock c d --with s
x run --top t --clock c --withs e d s
x run --share --top t --clock c d s --share
x run --share=x --top t --clock c d s
x run --top t --clock c --shared d s
x run --help
x --help
x help
x check
x check --top t --clock c d
x checks --top t --clock c d s
x check --top t --clock c --half 0 d s
x check --share --top t --clock c d s
x queue
x queue --top t --clock c d s
x queue --order 7 --top t --clock c d
x queue --order 7 --top t --clock c d s s1
x queue --order 7 --order 8 --top t --clock c d s
x queue --order 18446744073709551616 --top t --clock c d s
x queue --order x --top t --clock c d s
x queue --order= --top t --clock c d s
x queue --top t --clock c d s --order
x queue --share --order 7 --top t --clock c d s
x queues --order 7 --top t --clock c d s
x run --order 7 --top t --clock c d s
x check --order 7 --top t --clock c d s
x bench --order 7
x bench --share 1
x bench --with e 1
x bench
x bench 0
x bench 1001
x bench 1 0
x bench 1 257
x bench 1 2 3
x bench --top t 1
";

/// The words of a line.
fn words(alloc: Global, line: &str) -> Result<Vec<String>, AllocError> {
    let mut words = Vec::new(alloc);
    for word in line.split(' ') {
        words.push(String::from_str(alloc, word)?)?;
    }
    Ok(words)
}

/// Whether these are the paths of the files.
fn are_paths(paths: &[&str], files: &Texts) -> bool {
    if paths.len() != files.len() {
        return false;
    }
    for (n, path) in paths.iter().enumerate() {
        if *path != files.get(n).as_str() {
            return false;
        }
    }
    true
}

/// Whether these are the names that the value has, parted by commas, or none where there is no value.
fn are_clocks(value: Option<&str>, clocks: &Texts) -> bool {
    let Some(value) = value else {
        return clocks.is_empty();
    };
    let mut n = 0;
    for name in value.split(',') {
        if clocks.len() <= n || name != clocks.get(n).as_str() {
            return false;
        }
        n += 1;
    }
    n == clocks.len()
}

/// Whether a line defines the macro of this value: `` `define `` and the value, a blank in place of
/// its first `=`.
fn defines(line: &str, value: &str) -> bool {
    let Some(definition) = line.strip_prefix("`define ") else {
        return false;
    };
    match value.split_once('=') {
        Some(name_and_text) => definition.split_once(' ') == Some(name_and_text),
        None => definition == value,
    }
}

/// Whether these are the lines that define the macros of these values.
fn is_head(head: &str, values: &[&str]) -> bool {
    let mut rest = head;
    for value in values {
        let Some((line, behind)) = rest.split_once('\n') else {
            return false;
        };
        if !defines(line, *value) {
            return false;
        }
        rest = behind;
    }
    rest.is_empty()
}

/// Whether these are the words of the job, but for `--share`.
fn is_job(matches: &ArgMatches<'_>, job: &Job) -> bool {
    matches.get_str("top") == job.top.as_ref().map(|top| top.as_str())
        && are_clocks(matches.get_str("clock"), &job.clocks)
        && matches.get_one::<u32>("half") == Some(job.half)
        && is_head(job.head.as_str(), matches.get_strs("define").unwrap_or(&[]))
        && are_paths(matches.get_strs("with").unwrap_or(&[]), &job.others)
        && matches.get_str("design") == Some(job.design.as_str())
        && are_paths(matches.get_strs("stimuli").unwrap_or(&[]), &job.stimuli)
}

/// Whether the event queue runs the job, in the order of the words.
fn is_ordered(matches: &ArgMatches<'_>, mode: Mode) -> bool {
    match mode {
        Mode::Queue { order } => matches.get_one::<u64>("order") == Some(order),
        Mode::Run | Mode::Check => false,
    }
}

/// Whether these are the words of the bench.
fn is_bench(matches: &ArgMatches<'_>, bench: Bench) -> bool {
    matches.get_one::<u32>("vectors") == Some(bench.vectors)
        && matches.get_one::<u32>("lanes") == Some(bench.lanes)
}

/// Whether these are the words of the job or of the bench.
fn are_alike(matches: &ArgMatches<'_>, job: Option<&Job>, bench: Option<Bench>) -> bool {
    match (matches.subcommand(), job, bench) {
        (Some(("run", run)), Some(job), None) => {
            job.mode == Mode::Run && run.get_flag("share") == job.share && is_job(run, job)
        }
        (Some(("check", check)), Some(job), None) => {
            job.mode == Mode::Check && !job.share && is_job(check, job)
        }
        (Some(("queue", queue)), Some(job), None) => {
            is_ordered(queue, job.mode) && !job.share && is_job(queue, job)
        }
        (Some(("bench", sizes)), None, Some(bench)) => is_bench(sizes, bench),
        _ => false,
    }
}

/// Whether both readings of the words are one, and take them or not, as is said.
fn read_alike(alloc: Global, words: &[String], taken: bool) -> Result<bool, AllocError> {
    let matches = cyclesim(alloc)?.try_get_matches_from(words);
    let job = read_job(alloc, words);
    let bench = read_bench(words);
    Ok(match &matches {
        Ok(matches) => taken && are_alike(matches, job.as_ref().ok(), bench),
        Err(_) => !taken && job.is_err() && bench.is_none(),
    })
}

/// Both readings of each line are one, and take it or not, as is said.
fn expect_alike(rt: &impl Abort, alloc: Global, lines: &str, taken: bool) -> Result<(), Fail> {
    for line in lines.lines() {
        let words = words(alloc, line)?;
        assert!(rt; read_alike(alloc, &words, taken)?, "{line}");
    }
    Ok(())
}

#[test]
fn jobs_and_benches(rt: HostRuntime) -> Result<(), Fail> {
    expect_alike(&rt, rt.alloc(), TAKEN, true)
}

#[test]
fn neither(rt: HostRuntime) -> Result<(), Fail> {
    expect_alike(&rt, rt.alloc(), NOT_TAKEN, false)
}
