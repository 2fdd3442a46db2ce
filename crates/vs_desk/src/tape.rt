// The bytes of a place that is held in memory.
ghost use Rattle.std.specs.Prelude.{◌≡◌, ◌≤◌, ◌++◌, length, take, drop, min, vec_len, is_ok, if◌then◌else◌};

use crate::Way;
use crate::place::Place;
use std::alloc::AllocError;

/// The bytes of a place, of which the first `taken` were taken. Where bytes are put, none is taken.
#[derive(Drop)]
pub(crate) struct Tape {
    pub(crate) bytes: Vec<u8>,
    taken: usize,
    ghost in_range: { taken ≤ vec_len bytes },
}

impl Tape {
    ghost use Rattle.vs_desk.specs.Tape.{rest_of};

    /// A tape of these bytes, none of them taken.
    pub(crate) fn new(bytes: Vec<u8>) -> Self
        ensures bytes { result.bytes ≡ bytes }
        ensures left { rest_of result ≡ bytes.items }
    {
        Tape { bytes, taken: 0 }
    }

    /// Moves the first bytes that weren't taken yet to the front of the buffer, at most a piece.
    pub(crate) fn take(&mut self, piece: usize, buf: &mut [u8]) -> usize
        ensures count { result ≡ min (min piece (length buf.old)) (length (rest_of self.old)) }
        ensures moved { buf.new ≡ take result (rest_of self.old) ++ drop result buf.old }
        ensures left { rest_of self.new ≡ drop result (rest_of self.old) }
    {
        let rest = &self.bytes[self.taken..];
        let n = piece.min(buf.len()).min(rest.len());
        buf[..n].copy_from_slice(&rest[..n]);
        self.taken += n;
        n
    }

    /// Adds bytes at the end.
    pub(crate) fn put(&mut self, bytes: &[u8]) -> Result<(), AllocError>
        ensures bytes { self.new.bytes.items
            ≡ (if is_ok result then self.old.bytes.items ++ bytes.now else self.old.bytes.items) }
    {
        self.bytes.extend_from_slice(bytes)
    }
}

impl Place<Tape> {
    ghost use Rattle.vs_desk.specs.Tape.{put_by};

    /// The bytes put at the place, empty where bytes are taken.
    pub(crate) fn written(&self) -> &[u8]
        ensures { result.now ≡ put_by self.now.way self.now.stream }
    {
        match self.way {
            Way::Read => &[],
            Way::Write => &self.stream.bytes,
        }
    }
}
