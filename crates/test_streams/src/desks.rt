//! Each kind of desk at work.

ghost use Rattle.std.specs.Prelude.{Bool, true};
ghost use Rattle.vs_desk.specs.MemoryDesk as memory;

use std::alloc::{AllocError, Global};
use std::fs;
use std::process::Abort;
use std::test::Fail;
use vs_desk::{Desk, Failed, HostDesk, MemoryDesk, Way, put_all};

fn text(alloc: Global, s: &str) -> Result<String, AllocError> {
    String::from_str(alloc, s)
}

/// A take or a put has this answer.
fn expect_moved(rt: &impl Abort, moved: Result<usize, Failed>, answer: Result<usize, Failed>) {
    assert_eq!(rt; moved, answer);
}

/// These are the bytes.
fn expect_bytes(rt: &impl Abort, bytes: &[u8], expected: &[u8]) {
    assert_eq!(rt; bytes, expected);
}

/// A desk counted so many calls, faults and losses.
fn expect_counts(rt: &impl Abort, desk: &MemoryDesk, counts: [u64; 3]) {
    assert_eq!(rt; [desk.calls(), desk.faults(), desk.losses()], counts);
}

#[test]
fn memory_moves_pieces_of_a_file(rt: HostRuntime) -> Result<(), Fail> {
    let alloc = rt.alloc();
    let mut desk = MemoryDesk::new(alloc, 2);
    desk.add_file(text(alloc, "in")?, b"abc".to_vec(alloc)?)?;
    desk.fail_at(&[2])?;
    let mut buf = [0u8; 4];

    desk.attach(1, text(alloc, "in")?, Way::Read)?;
    expect_moved(&rt, desk.take(1, &mut buf), Ok(2));
    expect_bytes(&rt, &buf, b"ab\0\0");
    expect_moved(&rt, desk.take(1, &mut buf), Err(Failed));
    expect_moved(&rt, desk.take(1, &mut buf), Ok(1));
    expect_bytes(&rt, &buf, b"cb\0\0");
    expect_moved(&rt, desk.take(1, &mut buf), Ok(0));
    expect_counts(&rt, &desk, [5, 1, 0]);
    Ok(())
}

#[test]
fn memory_keeps_what_was_put(rt: HostRuntime) -> Result<(), Fail> {
    let alloc = rt.alloc();
    let mut desk = MemoryDesk::new(alloc, 1);
    desk.fail_at(&[1, 3])?;

    desk.attach(1, text(alloc, "out")?, Way::Write)?;
    expect_moved(&rt, desk.put(1, b"xy"), Err(Failed));
    expect_moved(&rt, desk.put(1, b"xyz"), Ok(3));
    expect_moved(&rt, desk.put(0, b"ok"), Err(Failed));
    expect_moved(&rt, desk.put(0, b"fine"), Ok(4));
    assert_eq!(rt;
        desk.attach(2, text(alloc, "none")?, Way::Read),
        Err(Failed)
    );
    expect_counts(&rt, &desk, [6, 2, 1]);
    expect_bytes(&rt, desk.written(1), b"xyz");
    expect_bytes(&rt, desk.written(0), b"fine");
    assert_eq!(rt; (desk.attached(1), desk.attached(2)), (Some("out"), None));
    Ok(())
}

#[test]
fn memory_fails_at_a_flush(rt: HostRuntime) -> Result<(), Fail> {
    let alloc = rt.alloc();
    let mut desk = MemoryDesk::new(alloc, 1);
    desk.fail_at(&[3])?;
    desk.attach(1, text(alloc, "out")?, Way::Write)?;
    put_all(&mut desk, 1, b"xyz")?;
    desk.flush(1)?;
    assert_eq!(rt; desk.flush(1), Err(Failed));
    expect_counts(&rt, &desk, [4, 1, 0]);
    expect_bytes(&rt, desk.written(1), b"xyz");
    Ok(())
}

/// A desk whose puts take one byte of the piece.
#[derive(Drop)]
struct ByteByByte {
    desk: MemoryDesk,
}

impl Desk for ByteByByte {
    ghost tells = { true };

    ghost told = { λ slow. memory.told slow.desk };

    fn attach(&mut self, place: u32, path: String, way: Way) -> Result<(), Failed> {
        self.desk.attach(place, path, way)
    }

    fn take(&mut self, place: u32, buf: &mut [u8]) -> Result<usize, Failed> {
        self.desk.take(place, buf)
    }

    fn put(&mut self, place: u32, bytes: &[u8]) -> Result<usize, Failed> {
        self.desk.put(place, &bytes[..1])
    }

    fn flush(&mut self, place: u32) -> Result<(), Failed> {
        self.desk.flush(place)
    }
}

#[test]
fn put_all_goes_on_after_a_part(rt: HostRuntime) -> Result<(), Fail> {
    let alloc = rt.alloc();
    let mut slow = ByteByByte {
        desk: MemoryDesk::new(alloc, 1),
    };
    put_all(&mut slow, 0, b"")?;
    assert_eq!(rt; slow.desk.calls(), 0);
    put_all(&mut slow, 0, b"abc")?;
    assert_eq!(rt; slow.desk.calls(), 3);
    slow.desk.fail_at(&[5])?;
    assert_eq!(rt; put_all(&mut slow, 0, b"defg"), Err(Failed));
    expect_bytes(&rt, slow.desk.written(0), b"abcde");
    assert_eq!(rt; slow.desk.losses(), 1);
    Ok(())
}

#[test]
fn host_reads_what_it_wrote(rt: HostRuntime) -> Result<(), Fail> {
    let alloc = rt.alloc();
    let path = "test_streams_desk.txt";
    let mut desk = HostDesk::new(rt.clone()?, alloc)?;
    assert_eq!(rt;
        desk.attach(1, text(alloc, "test_streams_no_such_file")?, Way::Read),
        Err(Failed)
    );
    assert_eq!(rt; (desk.faults(), desk.losses()), (1, 0));

    desk.attach(2, text(alloc, path)?, Way::Write)?;
    put_all(&mut desk, 2, b"some text")?;
    desk.flush(2)?;
    desk.attach(3, text(alloc, path)?, Way::Read)?;
    let mut buf = [0u8; 16];
    expect_moved(&rt, desk.take(3, &mut buf), Ok(9));
    expect_bytes(&rt, &buf[..9], b"some text");
    expect_moved(&rt, desk.take(3, &mut buf), Ok(0));
    assert_eq!(rt; desk.faults(), 1);
    fs::remove_file(&rt, path)?;
    Ok(())
}
