//! The digits of known bits, written into a block of bytes eight at a time.

ghost use Rattle.std.specs.Prelude.{◌≡◌, ◌≤◌, ◌+◌, ◌++◌, length, map, reverse, take};
ghost use Rattle.vs_four.specs.Planes.{bits_of_planes};
ghost use Rattle.vs_vcd.specs.Values.{digit_code};

/// Writes the digits of the least significant bits of a number, so many, at a place of the block. Up to seven bytes behind them may
/// change too.
#[inline]
pub(crate) fn put_known(block: &mut [u8], at: usize, number: u64, count: u32)
    requires some { 1 ≤ count }
    requires most { count ≤ 64 }
    requires room { at + count + 7 ≤ length block.old }
    ensures text { take (at + count) block.new ≡ take at block.old ++ map digit_code (reverse (bits_of_planes count number 0)) }
    ensures long { length block.new ≡ length block.old }
{
    let end = at + count as usize;
    let mut rest = number << (64 - count);
    let mut place = at;
    while place < end {
        put_eight(block, place, (rest >> 56) as u8);
        rest <<= 8;
        place += 8;
    }
}

/// Writes the eight digits of a byte at a place of the block.
#[inline]
fn put_eight(block: &mut [u8], at: usize, byte: u8)
    requires room { at + 8 ≤ length block.old }
    ensures text { take (at + 8) block.new ≡ take at block.old ++ map digit_code (reverse (bits_of_planes 8 byte 0)) }
    ensures long { length block.new ≡ length block.old }
{
    let digits = eight(byte);
    block[at..at + 8].copy_from_slice(&digits);
}

/// The eight digits of a byte, most significant first. Copies of the byte stand nine bits apart, so that the top bit of each eight is one
/// of its bits.
#[inline]
fn eight(byte: u8) -> [u8; 8]
    ensures { result ≡ map digit_code (reverse (bits_of_planes 8 byte 0)) }
{
    let copies = u64::from(byte).wrapping_mul(0x8040_2010_0804_0201);
    let bits = (copies & 0x8080_8080_8080_8080) >> 7;
    (bits | 0x3030_3030_3030_3030).to_le_bytes()
}
