//! The digits of four-valued bits, written into a block of bytes four at a time.

ghost use Rattle.std.specs.Prelude.{◌≡◌, ◌≤◌, ◌+◌, ◌/◌, ◌%◌, ◌++◌, length, map, reverse, take};
ghost use Rattle.vs_four.specs.Planes.{bits_of_planes};
ghost use Rattle.vs_vcd.specs.Values.{digit_code};

/// Writes the digits of the least significant bits of two planes, so many, at a place of the block. Up to three bytes behind them may
/// change too.
#[inline]
pub(crate) fn put_digits(block: &mut [u8], at: usize, value: u64, unknown: u64, count: u32)
    requires some { 1 ≤ count }
    requires most { count ≤ 64 }
    requires room { at + count + 3 ≤ length block.old }
    ensures text { take (at + count) block.new ≡ take at block.old ++ map digit_code (reverse (bits_of_planes count value unknown)) }
    ensures long { length block.new ≡ length block.old }
{
    let end = at + count as usize;
    let mut values = value << (64 - count);
    let mut unknowns = unknown << (64 - count);
    let mut place = at;
    while place < end {
        put_four(block, place, ((unknowns >> 60) * 16 + (values >> 60)) as u8);
        values <<= 4;
        unknowns <<= 4;
        place += 4;
    }
}

/// Writes the digits of four bits at a place of the block. The low half of the byte is their value plane, the high half their unknown
/// plane.
#[inline]
fn put_four(block: &mut [u8], at: usize, planes: u8)
    requires room { at + 4 ≤ length block.old }
    ensures text { take (at + 4) block.new ≡ take at block.old ++ map digit_code (reverse (bits_of_planes 4 (planes % 16) (planes / 16))) }
    ensures long { length block.new ≡ length block.old }
{
    let digits = four(planes);
    block[at..at + 4].copy_from_slice(&digits);
}

/// The digits of four bits, most significant first. Copies of the byte stand nine bits apart, so that the top bit of each eight is one of
/// its bits: the digit `0` of `00110000` becomes `1` where the value is 1, `z` (`01111010`) where it is unknown, and `x` (`01111000`)
/// where it is both.
#[inline]
fn four(planes: u8) -> [u8; 4]
    ensures { result ≡ map digit_code (reverse (bits_of_planes 4 (planes % 16) (planes / 16))) }
{
    let copies = u64::from(planes).wrapping_mul(0x8040_2010_0804_0201);
    let bits = (copies & 0x8080_8080_8080_8080) >> 7;
    let value = (bits >> 32) as u32;
    let unknown = (bits & 0xFFFF_FFFF) as u32;
    let both = value & unknown;
    let odd = unknown << 1 | unknown << 3 | unknown << 6;
    (0x3030_3030 ^ value ^ odd ^ (both << 1 | both)).to_le_bytes()
}
